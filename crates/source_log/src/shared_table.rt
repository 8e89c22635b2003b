//! A table that several changes share.

ghost use Rattle.std.specs.Prelude.{◌≡◌, IfOk};

use repl_definitions::DefinedTable;
use std::alloc::{AllocError, Global};
use std::marker::Model;
use std::rc::Rc;

/// A table with its number, of which a clone is one more reference to the same. A clause sees it as
/// the table.
#[derive(Drop)]
pub struct SharedTable {
    place: Rc<DefinedTable>,
}

impl Model for SharedTable {
    ghost use Rattle.repl_definitions.specs.declared.defined.DefinedTable.{DefinedTable as Table};

    ghost Value = { Table };

    ghost view = { λ shared. shared.place.value };
}

impl SharedTable {
    /// The table, moved to where it can be shared. If memory runs out, it is dropped.
    pub fn new(alloc: Global, table: DefinedTable) -> Result<SharedTable, AllocError>
        ensures { IfOk result (λ shared. shared ≡ table) }
    {
        Ok(SharedTable {
            place: Rc::new(alloc, table)?,
        })
    }

    /// The table.
    pub fn get(&self) -> &DefinedTable
        ensures { result.now ≡ self.now }
    {
        &self.place
    }

    /// One more reference to the same table.
    pub fn share(&self) -> Result<SharedTable, AllocError>
        ensures { IfOk result (λ shared. shared ≡ self.now) }
    {
        Ok(SharedTable {
            place: self.place.clone()?,
        })
    }
}
