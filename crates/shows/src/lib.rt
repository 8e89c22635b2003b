//! What the commands `status` and `show` write of what servers hold.
//!
//! `show_server` writes the reply of `status` of a server: a line for each registration, a line
//! for each set whose source the server is, and the line that says how far its log is. `show_set`
//! writes the line that says how far a read-only set is: the point that its targets have reached,
//! the point of the last refresh, whether a refresh was asked for, the length of its trail, and
//! the mark that its source knows of.
//!
//! `show_source`, `show_log`, `show_changes` and `show_units` write the committed rows of a table,
//! the records of a log, the change rows of a registration, and the captured units. `find_target`
//! finds the member of a read-only set whose target at a server has a name: the crate of its kind
//! shows the rows. All read one record after another and write its line at once, by
//! `show_records`, which takes any record whose lines `ShownRecord` says: so the memory that they
//! need doesn't grow with the table. Nothing is changed.
//!
//! `show_server` reads all before it writes the first byte.
//!
//! `specs/servers`, `specs/tables` and `specs/sets` say which lines these are, and what shows
//! damage. It stands on `site_store`, by which it reads, and on `reply_text`, which writes the
//! lines. `run_commands` carries the commands out.
//!
//! For example, of a table with the rows (1, 'pen') and (2, 'red ink') it writes `row 1 'pen'`,
//! `row 2 'red ink'` and `ok rows 2`. Of a server with nothing it writes one line, which begins
//! with `ok last` and ends with `restart 00000000000000010000 floor 00000000000000000000`.
#![tactic(auto)]

mod captured;
mod last_line;
mod output;
mod records;
mod registrations;
mod sets;
mod show;
mod shown;
mod source;
mod status;
mod targets;

pub use captured::{show_changes, show_units};
pub use records::show_records;
pub use show::show_server;
pub use shown::ShownRecord;
pub use source::{show_log, show_source};
pub use status::show_set;
pub use targets::{PlacedTarget, find_target};
