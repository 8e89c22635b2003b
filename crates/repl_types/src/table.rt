//! Tables: their columns, keys and fixed columns.

use crate::list::List;
use crate::name::Name;

/// What a column holds beside NULL.
#[derive(Clone, Copy, Debug, PartialEq, Eq)]
pub enum Kind {
    Int,
    Text,
}

/// A column of a table.
#[derive(Clone, Debug, Drop, PartialEq, Eq)]
pub struct ColumnDef {
    pub name: Name,
    pub kind: Kind,
    pub nullable: bool,
}

/// A table. `key` and `fixed` are places of columns, counted from 0: those of the key, in the key's
/// order, and those that no update may change.
#[derive(Clone, Debug, Drop, PartialEq, Eq)]
pub struct TableDef {
    pub name: Name,
    pub columns: List<ColumnDef>,
    pub key: List<u32>,
    pub fixed: List<u32>,
}
