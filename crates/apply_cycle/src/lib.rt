//! A step of a read-only set: its next action, in one commit or none.
//!
//! `step_within` makes what a set does next: a signal, a refresh, a block of units up to a time, a
//! report, or nothing (`specs/Stepping.antt`); `step` is that with no such end. `cycle` makes the
//! steps of the set of a name until there is nothing to do (`specs/Cycling.antt`), and `most_steps`
//! says how many that may be. `block_step` has the targets of a set's members take the captured
//! changes of an interval, and puts the set's state and the next entry of its trail, in one commit
//! at the target. It reads no log, no source and nothing spilled. `specs/Blocks.antt` says what the
//! commit makes of a world, and `specs/laws/Intervals.antt` what is known where a block may be
//! made: its interval lacks no change and no unit.
//!
//! It stands on `subs_sets`, which says what the set does next, on `full_refresh` and
//! `prune_control`, which make the other actions, on `target_steps`, which puts a step at a
//! target, and on `world_commits` and `stored_commits`, which say what the commit makes of a world
//! and of what the servers hold, and that a set comes to rest. `run_commands` uses it.
//!
//! For example, the targets of a set have reached 3, and its source has captured the units at 7
//! and at 12. If the set has no limit on a block, its next block is from 3 to 12. If a call fails
//! before the commit, the targets are still copies of the source at 3, and the set's state says
//! so.
#![tactic(auto)]

mod blocks;
mod cycles;
mod steps;

pub use blocks::block_step;
pub use cycles::{cycle, most_steps};
pub use steps::{step, step_within};
