//! The lines of an input and of a script, read one at a time from any source.
//!
//! `next_line` of `Input` gives a line without its line feed and one carriage return before that. For
//! a line of more than 1,048,576 bytes it answers `LongLine`, and keeps the first `KEPT_LIMIT` bytes.
//! So a caller knows how such a line begins, and whether it is only one byte over the limit. Once a
//! read has met the end, the source isn't asked again.
//!
//! A script has command lines, and body lines, which begin with `|`. Lines that are blank or begin
//! with `#` are skipped, and count. `Script` tells what the next line is without taking it, so a
//! command that has a body reads it to its end, and leaves the line after it.
//!
//! It stands on `keep_core`, whose `Source` it reads. `session_core` reads scripts and what `copy`
//! feeds by it.
//!
//! For example, the bytes `"a\r\nb"` give `Line` with `"a"`, then `Line` with `"b"`, then `End`. The
//! lines `# orders`, `load` and `|[[table]]` of a script are a command line with the number 2 and a
//! body line with the number 3.
#![tactic(auto)]

mod input;
mod kind;
mod line_end;
mod script;

pub use input::{Input, InputError, Next};
pub use kind::LineKind;
pub use line_end::KEPT_LIMIT;
pub use script::Script;
