//! What servers keep of definitions, and what stands there under a name.

ghost use Rattle.std.specs.Prelude.{◌≡◌, ◌&&◌, option_map};
ghost use Rattle.std.specs.Str.{bytes_eq};
ghost use Rattle.repl_model.specs.World.{same_set as same_set_lem};
ghost use Rattle.load_plan.specs.Stored.{table_at as table_at_lem};
ghost use Rattle.load_plan.specs.Stored.{registration_at as registration_at_lem};
ghost use Rattle.load_plan.specs.Stored.{source_at as source_at_lem, target_at as target_at_lem};

use repl_definitions::{DefinedRegistration, DefinedTable, SetDef, SourceSet, TargetSet};
use repl_types::{List, Name, Registration, SetId, TableDef};

/// What a server keeps of definitions, each kind in the order of its names.
#[derive(Debug, Drop)]
pub struct StoredServer {
    pub name: Name,
    pub tables: List<DefinedTable>,
    pub registrations: List<DefinedRegistration>,
    pub sources: List<SourceSet>,
    pub targets: List<TargetSet>,
}

/// Whether two names are the same.
pub fn same_name(a: &Name, b: &Name) -> bool
    ensures { result ≡ bytes_eq a.now b.now }
{
    a.as_str().as_bytes() == b.as_str().as_bytes()
}

/// Whether two sets have the same name.
pub fn same_set(a: &SetId, b: &SetId) -> bool
    ensures { result ≡ same_set_lem a.now b.now }
{
    same_name(&a.qual, &b.qual) && same_name(&a.name, &b.name)
}

/// The table of a name.
pub fn table_at<'a>(name: &Name, server: &'a StoredServer) -> Option<&'a TableDef>
    ensures { option_map (λ d. d.now) result ≡ table_at_lem name.now server.now }
{
    let row = server
        .tables
        .as_slice()
        .iter()
        .find(|row| same_name(name, &row.def.name));
    match row {
        Some(row) => Some(&row.def),
        None => None,
    }
}

/// The registration of a table of this name.
pub fn registration_at<'a>(table: &Name, server: &'a StoredServer) -> Option<&'a Registration>
    ensures { option_map (λ d. d.now) result ≡ registration_at_lem table.now server.now }
{
    let row = server
        .registrations
        .as_slice()
        .iter()
        .find(|row| same_name(table, &row.registration.table));
    match row {
        Some(row) => Some(&row.registration),
        None => None,
    }
}

/// The set of a name whose source the server is.
pub fn source_at<'a>(id: &SetId, server: &'a StoredServer) -> Option<&'a SetDef>
    ensures { option_map (λ d. d.now) result ≡ source_at_lem id.now server.now }
{
    let row = server
        .sources
        .as_slice()
        .iter()
        .find(|row| same_set(id, &row.def.id));
    match row {
        Some(row) => Some(&row.def),
        None => None,
    }
}

/// The set of a name whose target the server is.
pub fn target_at<'a>(id: &SetId, server: &'a StoredServer) -> Option<&'a SetDef>
    ensures { option_map (λ d. d.now) result ≡ target_at_lem id.now server.now }
{
    let row = server
        .targets
        .as_slice()
        .iter()
        .find(|row| same_set(id, &row.def.id));
    match row {
        Some(row) => Some(&row.def),
        None => None,
    }
}
