//! What the source of a set is told of its targets, so that change rows which every set has taken
//! can be pruned.
//!
//! `note` stores the point that a read-only set's targets have reached as the set's mark at its
//! source, in one commit. It stands on `set_places`, which finds the set, on `site_store`, whose
//! records it reads and puts, and on `world_commits` and `stored_commits`, which say what the
//! commit makes of a world and of what the servers hold. `subs_sets`, `full_refresh` and
//! `apply_cycle` stand on it.
//!
//! For example, the set `q/s` was refreshed at 3, and a block took its targets to 8. Its mark at
//! `hq` is still 3. After `note` with the point 8 the mark is 8, and all else is as it was.
#![tactic(auto)]

mod marks;
mod noting;

pub use marks::read_mark;
pub use noting::note;
