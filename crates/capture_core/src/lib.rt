//! Capture: the units of a server's log are written to its change-data tables and its unit-of-work
//! table.
//!
//! `capture` reads the log from the restart point on, keeps the changes of transactions in flight,
//! and at each commit after what is captured it captures the unit. It commits after each `every`
//! units and after the last one. `specs/Capturing.antt` says which worlds these commits make, and
//! `specs/LogReads.antt` how often a capture reads logs. It stands on `cd_tables`, which captures
//! a unit, on `txn_buffer`, which keeps the changes in flight, on `world_commits`, which says that
//! a capture from the restart point on misses nothing, and on `stored_commits`, which says what
//! servers hold afterwards.
//!
//! For example, a log has commits at 3, 5 and 8, and 3 is captured. A capture of all units with
//! `every` 1 commits twice: first 5 is captured, then 8.
#![tactic(auto)]

mod captured;
mod capturing;
mod committing;
mod progress;
mod reading;

pub use captured::Captured;
pub use capturing::capture;
