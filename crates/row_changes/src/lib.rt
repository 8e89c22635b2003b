//! Changes of the rows of a table: which change fits the table, and the change rows that a
//! registration gives of it.
//!
//! It stands on `repl_model`, whose definitions its contracts name. `source_log`, which takes the
//! changes of users, `cd_tables`, which stores change rows, and `apply_copies`, which makes copies
//! of them, stand on it.
//!
//! For example, `change_rows_of_change` of `update items (1, 'pen') (1, 'ink')` and a registration
//! that takes updates apart gives two change rows: the delete of `(1, 'pen')` and then the insert
//! of `(1, 'ink')`.
#![tactic(auto)]

mod change_rows;
mod changes;

pub use change_rows::change_rows_of_change;
pub use changes::{is_change_applicable, key_of, same_values, table_of};
