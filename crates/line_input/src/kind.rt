//! What a line of a script is.

ghost use Rattle.std.specs.Prelude.{◌≡◌, ◌∷◌, List, ℕ, length, ◌≤◌, drop};
ghost use Rattle.std.specs.Option.{option_map};
ghost use Rattle.line_input.specs.Lines.{begins_with as begins_with_lem};
ghost use Rattle.line_input.specs.Lines.{is_blank as is_blank_lem, short_line, long_line};
ghost use Rattle.line_input.specs.Script.{line_of};

/// The mark of a line that is skipped.
const COMMENT_MARK: u8 = b'#';

/// The mark of a body line.
const BODY_MARK: u8 = b'|';

/// What a line of a script is, if it isn't skipped.
#[derive(Clone, Copy, Debug, PartialEq, Eq)]
pub enum LineKind {
    /// A line that asks for a command.
    Command,
    /// A body line.
    Body,
    /// A line over the limit that is no body line.
    LongCommand,
    /// A body line over the limit.
    LongBody,
}

/// Whether the first byte of a line is this one.
fn begins_with(mark: u8, line: &[u8]) -> bool
    ensures { result ≡ begins_with_lem mark line.now }
{
    match line {
        [first, ..] => *first == mark,
        [] => false,
    }
}

/// Whether a line consists of blanks, or is empty.
fn is_blank(line: &[u8]) -> bool
    ensures { result ≡ is_blank_lem line.now }
{
    line.iter().all(|byte| *byte == b' ')
}

/// What a line within the limit is, if it isn't skipped.
pub(crate) fn short_kind(line: &[u8]) -> Option<LineKind>
    ensures { option_map (λ kind. line_of kind line.now) result ≡ short_line line.now }
{
    if begins_with(COMMENT_MARK, line) || is_blank(line) {
        return None;
    }
    if begins_with(BODY_MARK, line) {
        return Some(LineKind::Body);
    }
    Some(LineKind::Command)
}

/// What a line over the limit is, of which these are the first bytes, if it isn't skipped.
pub(crate) fn long_kind(line: &[u8]) -> Option<LineKind>
    ensures { option_map (λ kind. line_of kind line.now) result ≡ long_line line.now }
{
    if begins_with(COMMENT_MARK, line) {
        return None;
    }
    if begins_with(BODY_MARK, line) {
        return Some(LineKind::LongBody);
    }
    Some(LineKind::LongCommand)
}
