//! What servers hold if they stand for a world.
//!
//! A world says what a group of servers is to a reader: logs, definitions and a few numbers. This
//! crate says which rows each table of each server then has: an area at a time as lists of typed
//! rows in the order of their keys (`specs/LogRows.antt`, `DefinitionRows.antt`,
//! `CaptureRows.antt`, `TargetRows.antt`), all tables of a server in one place
//! (`specs/Tables.antt`), when what servers hold stands for a world (`specs/Stands.antt`), and when
//! a commit makes it so at one of them (`specs/Becoming.antt`). The rows of a small world were
//! worked by hand (`src/worked_rows.rt`).
//!
//! The crate has no code: its functions are laws. It stands on `repl_model`, which says what a
//! world is, on `repl_records` and `repl_definitions`, whose records the rows are, and on
//! `rows_in_order`, which says what table has some rows.
//!
//! For example, a server with an empty log holds in its area Head either nothing, or the record
//! whose three numbers are 0: a record that is missing stands for its first state.
#![tactic(auto)]

mod worked_rows;

ghost use Rattle.std.specs.Prelude.{ℕ, List, Some, map};
ghost use Rattle.rows_in_order.specs.Contents.{nothing};
ghost use Rattle.repl_model.specs.Sound.{AreServerNames};
ghost use Rattle.repl_model.specs.World.{empty_world};
ghost use Rattle.world_store.specs.Stands.{Stands};

pub use worked_rows::{
    worked_capture_rows, worked_change_data, worked_definition_rows, worked_log_rows,
    worked_target_rows, worked_target_table,
};

/// Servers that hold nothing stand for the empty world.
pub fn empty_servers_stand()
    ensures { (names : List (List ℕ)) → AreServerNames names
        → Stands names (map (λ name. Some nothing) names) (empty_world names) }
{}
