//! How far records are taken.

use crate::outcome::Outcome;
use repl_records::Head;

/// How many records are taken, the end of the log after them, and what becomes of the next one:
/// `Taken` if there is none.
#[derive(Clone, Copy)]
pub struct Progress {
    pub taken: usize,
    pub end: Head,
    pub outcome: Outcome,
}
