//! Subscription sets: how far a set is, and what it does next.
//!
//! `next_action` answers what a read-only set does next, by what its two servers keep: a signal, a
//! refresh, a block with the point where it ends, a report, nothing, or nothing because a refresh
//! is forbidden that a gap calls for; its blocks may take only units up to a time. It is the
//! `next_action_within` of `repl_model` for each world that the servers stand for.
//! `read_only_state` reads how far the targets of a read-only set are, `set_state` the stored state
//! of any set, `trail_entry` an entry of its trail, `unit_time` the time of a captured unit, and
//! `captured_point` how far the source is captured. These change nothing. `flag` asks for a refresh
//! of a read-only set, in one commit at its target.
//!
//! It stands on `set_places`, which finds a set, on `prune_control`, which reads its mark, on
//! `site_store`, and on `world_commits` and `stored_commits`, which say what the flag makes of a
//! world and of what the target holds. `run_commands` uses it, and the crates that make the
//! actions.
//!
//! For example, the targets of a set have reached 3, and its source has captured up to 12. If no
//! change row above 3 was pruned, and the set has no limit on a block, its next action is a block
//! that ends at 12.
#![tactic(auto)]

mod action;
mod captured;
mod cuts;
mod flags;
mod gaps;
mod next;
mod states;

pub use action::Action;
pub use captured::captured_point;
pub use cuts::unit_time;
pub use flags::flag;
pub use next::next_action;
pub use states::{ReadOnlyState, is_replica_set, read_only_state, set_state, trail_entry};
