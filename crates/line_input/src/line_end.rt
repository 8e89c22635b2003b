//! The end of a line: at a line feed, or at the end of the input.

ghost use Rattle.std.specs.Prelude.{◌≡◌, ◌≤◌, List, ℕ, length};
ghost use Rattle.std.specs.Str.Lines.{strip_carriage_return};
ghost use Rattle.line_input.specs.Input.{IsKept, EndsAs, EndsInputAs};

use crate::input::Next;

/// The most bytes that a line may have, without its line feed and a carriage return before that.
pub const LINE_LIMIT: usize = 1_048_576;

/// The most bytes that are kept of a line. A caller may take a line of one byte over the limit, as
/// one with a mark before `LINE_LIMIT` bytes. Two bytes over it are kept, so that such a line can
/// be told from a longer one: a line of which fewer bytes are kept is kept whole.
pub const KEPT_LIMIT: usize = LINE_LIMIT + 2;

/// Removes one carriage return from the end of a line, if there is one.
fn strip(line: &mut Vec<u8>)
    ensures { line.new.items ≡ strip_carriage_return line.old.items }
{
    if line.last() == Some(&b'\r') {
        line.pop();
    }
}

/// Ends a line at its line feed. `long` says that it has more bytes than were kept. Then a carriage
/// return at the end of what was kept stays, since a byte of the line follows it.
pub fn end_line(line: &mut Vec<u8>, long: bool) -> Next
    ensures ends { (bytes : List ℕ) → IsKept bytes line.old.items long
        → EndsAs result line.new.items bytes }
    ensures shorter { length line.new.items ≤ length line.old.items }
{
    if long {
        return Next::LongLine;
    }
    strip(line);
    if line.len() > LINE_LIMIT {
        return Next::LongLine;
    }
    Next::Line
}

/// Ends a line at the end of the input. `long` says that it has more bytes than were kept.
pub fn last(line: &[u8], long: bool) -> Next
    ensures { (bytes : List ℕ) → IsKept bytes line.now long
        → EndsInputAs result line.now bytes }
{
    if long || line.len() > LINE_LIMIT {
        return Next::LongLine;
    }
    if line.is_empty() {
        return Next::End;
    }
    Next::Line
}
