//! A change of a commit.

use crate::shared_table::SharedTable;
use repl_types::Change;

/// A change of a commit, with its table, which changes of one table share.
#[derive(Drop)]
pub struct Step {
    pub table: SharedTable,
    pub change: Change,
}
