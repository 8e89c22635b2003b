//! A step of a read-only set at its target: a refresh or a block.
//!
//! `put_step` takes the targets of a set's members through a step, and puts the set's state and
//! the next entry of its trail, all in one commit at the target. It knows no kind of target: what
//! implements `Targets` takes one member through a step. At a refresh a target becomes what it is
//! at the last commit of the source; in a block it takes the captured changes of an interval, and
//! no log, source or spilled change is read. `specs/Taking.antt` says what the step of a member
//! makes of contents, and `specs/Steps.antt` what the whole step does.
//!
//! It stands on `set_places`, which finds the set, on `subs_sets`, which reads its state, and on
//! `stored_commits`, which says how a step is stored. `full_refresh` and `apply_cycle` stand on
//! it.
//!
//! For example, a set has two members and was refreshed at 5. A block from 5 to 9 has their
//! targets take the change rows of the units after 5 and up to 9, puts 9 as the point that they
//! have reached, and the entry that counts these rows.
#![tactic(auto)]

mod putting;
mod step;
mod targets;

pub use putting::put_step;
pub use step::{BasePoint, Step};
pub use targets::Targets;
