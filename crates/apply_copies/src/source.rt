//! Where a target takes change rows from.

use repl_definitions::{DefinedRegistration, DefinedTable};

/// A registered table of the source.
#[derive(Debug, Drop)]
pub struct Source {
    pub reg: DefinedRegistration,
    pub table: DefinedTable,
}
