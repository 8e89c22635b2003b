//! Records are appended at the log of a server, in one commit.
//!
//! `append` takes records one after another, as long as each is applicable after the log and those
//! before it, and the log has room for it. A change gets a row in the log, and one among the
//! changes in flight; a commit makes the changes of its transaction in the tables of the source,
//! and removes them from the changes in flight; an abort only removes them. A commit of which one
//! change doesn't apply is undone, and isn't taken. `specs/Appending.antt` says which records are
//! taken and why the others aren't, and `specs/Rules.antt` what shows that a server is damaged. It
//! stands on `site_store`, whose records it reads and puts, on `row_changes`, which says whether a
//! change fits its table, and on `stored_commits` and `world_commits`, which show what one more
//! record makes of stored tables and of a world.
//!
//! `append_unit` appends one more unit of the program's own, inside a transaction that is open:
//! its changes are made as they are put into the log, so none of them is ever among the changes in
//! flight. `last_commit` reads the end of a log, and `scan_table` the committed rows of a table,
//! one after another; neither needs a transaction.
//!
//! For example, transaction 5 inserts a row, and so does transaction 6 with the same key. Both
//! changes are applicable. If 5 commits first, the commit of 6 isn't applicable.
#![tactic(auto)]

mod appending;
mod fitting;
mod in_flight;
mod making;
mod outcome;
mod progress;
mod reads;
mod shared_table;
mod source;
mod step;
mod steps;
mod tables;
mod taking;
mod units;

pub use appending::append;
pub use reads::{last_commit, scan_table};
pub use units::append_unit;
