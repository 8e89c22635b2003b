//! What a source log means, what targets are, and what a group of servers is to a reader.
//!
//! Definitions stand in `specs/`: the units of a log, the rows of a table at each point, change
//! rows, which records are applicable, the rows of each kind of target, worlds, what a set does
//! next in one, and when a world is sound. The functions here have no code: their contracts are
//! claims about the definitions, for readers. Laws for the layers above are lemmas in
//! `specs/laws/`.
//!
//! It stands on `repl_types`, on `repl_definitions`, which has the trees of expressions and
//! predicates, and members and sets, and on `row_codec`, for how long a set's definition is as it
//! is stored. `row_changes` and `world_store` stand on it. `copy_by_change_rows` and `undo` say what
//! change rows and changes are good for, and the functions whose names begin with `worked_` what the
//! definitions make of logs and of a world that were worked by hand.
//!
//! For example, the log of the lines `insert 1 items 1 'pen'` and `commit 1 ann 100` has one unit,
//! whose seq is 2, and the copy of `items` at the point 2 has the row `(1, 'pen')`.
#![tactic(auto)]

mod changes;
mod expressions;
mod longer_log;
mod member_copies;
mod worked_actions;
mod worked_copies;
mod worked_logs;
mod worked_sums;
mod worked_world;

pub use changes::{copy_by_change_rows, undo};
pub use expressions::{
    expressions_by_nodes, predicates_by_nodes, worked_expressions, worked_predicates,
};
pub use longer_log::changes_in_two_halves;
pub use member_copies::whole_member;
pub use worked_actions::{
    worked_blocks, worked_end, worked_first_refresh, worked_gaps, worked_stop,
};
pub use worked_copies::{
    worked_applicable, worked_change_rows, worked_interleaved, worked_point_in_time_copy,
    worked_restart, worked_user_copy,
};
pub use worked_logs::{worked_log, worked_mixed_log};
pub use worked_sums::{
    worked_base_aggregate, worked_change_aggregate, worked_complete_history, worked_groups,
    worked_history, worked_selected_aggregate, worked_sum_out_of_range,
};
pub use worked_world::worked_world_is_sound;
