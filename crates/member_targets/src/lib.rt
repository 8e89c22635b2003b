//! The targets of members of all kinds that are carried out.
//!
//! Each kind of target has a crate of its own, as user copies have `apply_copies`. This crate is
//! the only one that names them. `is_taken` says which kinds are carried out, `MemberTargets` takes
//! a member through a step of its set by the crate of its kind, and `show_target` writes the rows
//! of a target by that crate. `specs/Kinds.antt` says which kinds these are and what shows that a
//! server is damaged, and `specs/Showing.antt` what is written of a target.
//!
//! It stands on the crates of the kinds, on `target_steps`, whose `Targets` it implements, and on
//! `shows`, which finds targets. `run_commands` carries out commands by it, and `apply_cycle` and
//! `full_refresh` take it as the `Targets` of a step.
//!
//! For example, of a set with one user copy and one replica it would take the copy through a
//! block, and leave the replica as it is; but no such set is carried out.
#![tactic(auto)]

mod kinds;
mod showing;
mod targets;

pub use kinds::is_taken;
pub use showing::{is_taken_at, show_target};
pub use targets::MemberTargets;
