//! What each commit makes of a world: laws, and no code.
//!
//! `specs/logs` has those of a log that is made longer, `captures` of a capture of units, and `actions`
//! of the steps of a read-only set: the world stays sound. `readings` says what a capture knows of
//! a log that it reads record by record. `repl_model` says what a world is and when it is sound;
//! `stored_commits` says what the same commits make of what the servers hold.
#![tactic(auto)]

mod captures;
mod logs;

pub use captures::worked_capture;
pub use logs::worked_first_order;
