//! The change-data tables and the unit-of-work table of a server: a captured unit is written
//! there, and what was captured is read, dropped, and marked as rejected.
//!
//! `append_changes` puts the row of a unit and the change rows of its changes, and carries out its
//! starts and stops, all inside the transaction that the caller has open. A change of a table that
//! isn't registered, or whose registration isn't active, has no change row. A registration and its
//! state are read once for changes of its table that follow one another (`specs/Known.antt`).
//! `specs/Appending.antt` says what it makes of what a server has captured, and `specs/Rules.antt`
//! what shows that the server is damaged.
//!
//! `reg_state`, `next_unit` and `next_change` read the state of a registration, the next captured
//! unit and the next change row (`specs/Finding.antt`). `drop_upto` removes the change rows of
//! units up to a floor, and `set_code` shows a code of a unit (`specs/Dropping.antt`). These five
//! say what they do of any rows that stand in a table in order, and so of those that a server has
//! captured; `specs/StoredRows.antt` says what such rows are, and what shows that they are
//! damaged. Each reads one area only (`specs/Reading.antt`).
//!
//! It stands on `site_store`, whose records it reads and puts, on `row_changes`, which makes the
//! change rows of a change, and on `stored_commits`, which says what these puts make of the stored
//! tables.
//!
//! For example, the unit of the commit at 9 has an insert at position 7 into a table whose
//! registration is active from 2 on. It gets a row in the unit-of-work table under 9, and one in
//! the change-data table under 9 and 7.
#![tactic(auto)]

mod changes;
mod clearing;
mod dropping;
mod finding;
mod registrations;
mod stated;
mod units;

pub use dropping::{drop_upto, set_code};
pub use finding::{next_change, next_unit, reg_state};
pub use units::append_changes;
