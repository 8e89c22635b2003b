//! The lines that a script's replies are written as.
//!
//! It stands on the types of what is replied: `repl_types` and `repl_records`; and on `log_text`,
//! which writes log records. It knows no servers. Above it, `session_core` writes the refusals of
//! a script. Each line is defined once in `specs/`, as all its bytes with the line feed at its
//! end, one equation a line; a writer appends exactly these bytes. If memory runs out, what `out`
//! holds is unspecified.
//!
//! For example, the reply `Fed { records: 6, last: 8 }` is the line `ok fed 6 last
//! 00000000000000080000`.
#![tactic(auto)]

mod fields;
mod refusal;
mod reply;
mod row;
mod status;
mod step;

pub use refusal::write_refusal;
pub use reply::{Reply, write_reply};
pub use row::{
    write_aggregate_row, write_change_row, write_history_row, write_latest_row, write_log_row,
    write_point_row, write_rejected_unit, write_row, write_unit_row,
};
pub use status::{
    ReadOnlyStatus, ReplicaStatus, ServerStatus, write_registration, write_source_set,
};
pub use step::{write_step, write_trail_entry};
