//! Which servers a text of definitions names.

ghost use Rattle.std.specs.Prelude.{◌≡◌, not, find, map, [], ◌∷◌, ◌++◌, option_map, IfOk, OnOk};
ghost use Rattle.std.specs.List.{flat_map};
ghost use Rattle.load_plan.specs.Servers.{is_server as is_server_lem};
ghost use Rattle.load_plan.specs.Servers.{server_names as server_names_lem};
ghost use Rattle.load_plan.specs.Servers.{missing_server as missing_server_lem};

use crate::stored::{StoredServer, same_name};
use repl_definitions::SetDef;
use repl_types::{List, Name};
use spelled_defs::{Defs, RegistrationAt, TableAt};
use std::alloc::{AllocError, Global};

/// Whether a name is that of one of these servers.
fn is_server(stored: &[StoredServer], name: &Name) -> bool
    ensures { result ≡ is_server_lem stored.now name.now }
{
    stored.iter().any(|server| same_name(name, &server.name))
}

/// Adds the names of the servers of tables.
fn push_table_servers(tables: &[TableAt], names: &mut List<Name>) -> Result<(), AllocError>
    ensures { OnOk result (names.new ≡ names.old ++ map (λ t. t.server) tables.now) }
{
    'tables: for table in tables {
        names.push(table.server.clone()?)?;
    }
    Ok(())
}

/// Adds the names of the servers of registrations.
fn push_registration_servers(
    registrations: &[RegistrationAt],
    names: &mut List<Name>,
) -> Result<(), AllocError>
    ensures { OnOk result (names.new ≡ names.old ++ map (λ r. r.server) registrations.now) }
{
    'registrations: for registration in registrations {
        names.push(registration.server.clone()?)?;
    }
    Ok(())
}

/// Adds the names of the servers of sets, of each its source before its target.
fn push_set_servers(sets: &[SetDef], names: &mut List<Name>) -> Result<(), AllocError>
    ensures { OnOk result (names.new
        ≡ names.old ++ flat_map (λ def. def.source ∷ def.target ∷ []) sets.now) }
{
    'sets: for set in sets {
        names.push(set.source.clone()?)?;
        names.push(set.target.clone()?)?;
    }
    Ok(())
}

/// The names of servers in a text, in its order.
fn server_names(alloc: Global, defs: &Defs) -> Result<List<Name>, AllocError>
    ensures { IfOk result (λ names. names ≡ server_names_lem defs.now) }
{
    let mut names = List::new(alloc);
    push_table_servers(defs.tables.as_slice(), &mut names)?;
    push_registration_servers(defs.registrations.as_slice(), &mut names)?;
    push_set_servers(defs.sets.as_slice(), &mut names)?;
    Ok(names)
}

/// The first of these names that is that of none of the servers.
fn first_missing<'a>(stored: &[StoredServer], names: &'a [Name]) -> Option<&'a Name>
    ensures { option_map (λ name. name.now) result
        ≡ find (λ name. not (is_server_lem stored.now name)) names.now }
{
    names.iter().find(|name| !is_server(stored, name))
}

/// The first name of a server in a text that is that of none of these servers.
pub fn missing_server(
    alloc: Global,
    defs: &Defs,
    stored: &[StoredServer],
) -> Result<Option<Name>, AllocError>
    ensures { IfOk result (λ name. name ≡ missing_server_lem defs.now stored.now) }
{
    let names = server_names(alloc, defs)?;
    match first_missing(stored, names.as_slice()) {
        Some(name) => Ok(Some(name.clone()?)),
        None => Ok(None),
    }
}
