//! Definitions, each with its server.

use repl_definitions::SetDef;
use repl_types::{List, Name, Registration, TableDef};

/// A table of a server.
#[derive(Clone, Debug, Drop, PartialEq, Eq)]
pub struct TableAt {
    pub server: Name,
    pub def: TableDef,
}

/// A registration of a table of a server.
#[derive(Clone, Debug, Drop, PartialEq, Eq)]
pub struct RegistrationAt {
    pub server: Name,
    pub def: Registration,
}

/// Definitions. A set names its servers itself.
#[derive(Debug, Drop, PartialEq, Eq)]
pub struct Defs {
    pub tables: List<TableAt>,
    pub registrations: List<RegistrationAt>,
    pub sets: List<SetDef>,
}
