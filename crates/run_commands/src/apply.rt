//! The commands `step Q N` and `apply Q N`, as parts of a run.
//!
//! `specs/StepEvents.antt` says what they commit and write in a world. `make_step` makes the next
//! step of a set and hands out its line; `step_set` is one such step, and `apply_set` makes them
//! until there is nothing to do. No step is begun before the line of the step before it was
//! written whole. It stands on `set_places`, which finds the set of a name, on `apply_cycle`,
//! which makes a step, by `MemberTargets` of `member_targets`, and on `parts`, which has the words
//! of its contracts. `session_core` carries out commands by it.
//!
//! For example, of a set whose targets have reached 3, and whose source has captured one more
//! unit, at 5, with one change row, `apply q s` commits twice and writes `ok block
//! 00000000000000030000 00000000000000050000 insert 1 update 0 delete 0`, `ok report
//! 00000000000000050000` and `ok apply steps 2`.

mod applies;
mod steps;

pub use applies::apply_set;
pub use steps::step_set;
