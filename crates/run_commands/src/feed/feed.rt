//! A feed whose body is read in part.

use repl_types::{List, LogRecord, Name};

/// A feed: the name of its server, how many of its records are committed, and those that wait for
/// their commit, with the numbers of their lines.
#[derive(Debug, Drop)]
pub struct Feed {
    pub server: Name,
    pub fed: u64,
    pub lines: List<u64>,
    pub records: List<LogRecord>,
}
