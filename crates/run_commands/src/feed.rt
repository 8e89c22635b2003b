//! The command `feed`, as parts of a run: the records of its body are appended at the log of a
//! server while its lines are read.
//!
//! `specs/FeedEvents.antt` says what is committed and written in a world at each line, and
//! `specs/Feeds.antt` which records are committed together: those up to the end of a transaction,
//! 1,000 at most, and those before a line that is refused. It stands on `log_text`, which reads a
//! record, on `source_log`, which appends records, and on `parts`, which has the words of its
//! contracts. `session_core` carries out commands by it.
//!
//! For example, at a feed of `insert 1 items 7 'pen'` and `commit 1 ann 100` into an empty log both
//! records are committed when the second line is read, and at the end of the body the line
//! `ok fed 2 last 00000000000000020000` is written.

mod batch;
mod feed;
mod laws;
mod lines;

pub use feed::Feed;
pub use lines::{begin_feed, end_feed, feed_line, refuse_line};
