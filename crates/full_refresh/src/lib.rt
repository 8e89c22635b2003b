//! A refresh of a read-only set: its signal, and the refresh.
//!
//! `signal_step` appends a unit at the source that starts the registrations of the set's members,
//! and stores its seq as the set's last signal, in one commit. `specs/Signals.antt` says which
//! records the unit has. `refresh_step` makes the targets of the members what they are right after
//! a refresh at the last commit of the source, and puts the set's state and the next entry of its
//! trail, in one commit (`specs/Refreshes.antt`).
//!
//! It stands on `set_places`, which finds the set, on `source_log`, which appends the unit and
//! reads the end of the log, on `prune_control`, which reads the set's mark, on `target_steps`,
//! which puts a step at a target, and on `world_commits` and `stored_commits`, which say what the
//! commits make of a world and of what the servers hold. `apply_cycle` stands on it.
//!
//! For example, the set `q/s` has two members on the table `orders` of `hq`, whose log ends at 3.
//! Its signal is the unit of the commit at 5, whose only change is the start of `orders` at 4. Its
//! refresh is then at 5, unless more was committed before it.
#![tactic(auto)]

mod refresh;
mod signal_unit;
mod signals;

pub use refresh::refresh_step;
pub use signals::signal_step;
