//! Which definitions are known, given what servers keep.

ghost use Rattle.std.specs.Prelude.{◌≡◌, ◌++◌, map, filter, find, option_map, IfOk, OnOk};
ghost use Rattle.std.specs.Str.{bytes_eq};
ghost use Rattle.load_laws.specs.planned.Planned.{stands_stored as stands_stored_lem, known_stored};

use load_plan::{StoredServer, same_name, source_at};
use repl_definitions::{DefinedRegistration, DefinedTable, SetDef, TargetSet};
use repl_types::List;
use spelled_defs::{Defs, RegistrationAt, TableAt};
use std::alloc::{AllocError, Global};

/// A table of a server.
fn table_at(server: &StoredServer, row: &DefinedTable) -> Result<TableAt, AllocError>
    ensures { IfOk result
        (λ table. table ≡ record { server = server.now.name; def = row.now.def }) }
{
    Ok(TableAt {
        server: server.name.clone()?,
        def: row.def.clone()?,
    })
}

/// A registration of a server.
fn registration_at(
    server: &StoredServer,
    row: &DefinedRegistration,
) -> Result<RegistrationAt, AllocError>
    ensures { IfOk result (λ registration. registration
        ≡ record { server = server.now.name; def = row.now.registration }) }
{
    Ok(RegistrationAt {
        server: server.name.clone()?,
        def: row.registration.clone()?,
    })
}

/// A copy of a set.
pub fn copy_set(set: &SetDef) -> Result<SetDef, AllocError>
    ensures { IfOk result (λ copy. copy ≡ set.now) }
{
    set.clone()
}

/// Adds the tables of a server.
fn push_tables(server: &StoredServer, tables: &mut List<TableAt>) -> Result<(), AllocError>
    ensures { OnOk result (tables.new ≡ tables.old
        ++ map (λ row. record { server = server.now.name; def = row.def }) server.now.tables) }
{
    'rows: for row in server.tables.as_slice() {
        tables.push(table_at(server, row)?)?;
    }
    Ok(())
}

/// Adds the registrations of a server.
fn push_registrations(
    server: &StoredServer,
    registrations: &mut List<RegistrationAt>,
) -> Result<(), AllocError>
    ensures { OnOk result (registrations.new ≡ registrations.old
        ++ map (λ row. record { server = server.now.name; def = row.registration })
        server.now.registrations) }
{
    'rows: for row in server.registrations.as_slice() {
        registrations.push(registration_at(server, row)?)?;
    }
    Ok(())
}

/// The server of a set's source, if it is one of these.
fn source_of<'a>(stored: &'a [StoredServer], set: &SetDef) -> Option<&'a StoredServer>
    ensures { option_map (λ s. s.now) result
        ≡ find (λ s. bytes_eq set.now.source s.name) stored.now }
{
    stored
        .iter()
        .find(|server| same_name(&set.source, &server.name))
}

/// Whether a set stands at its source.
fn stands_stored(stored: &[StoredServer], set: &SetDef) -> bool
    ensures { result ≡ stands_stored_lem stored.now set.now }
{
    match source_of(stored, set) {
        Some(server) => source_at(&set.id, server).is_some(),
        None => false,
    }
}

/// Adds the sets at their targets, if they stand at their sources too.
fn push_sets(
    stored: &[StoredServer],
    rows: &[TargetSet],
    sets: &mut List<SetDef>,
) -> Result<(), AllocError>
    ensures { OnOk result (sets.new ≡ sets.old
        ++ filter (stands_stored_lem stored.now) (map (λ row. row.def) rows.now)) }
{
    'rows: for row in rows {
        if stands_stored(stored, &row.def) {
            sets.push(copy_set(&row.def)?)?;
        }
    }
    Ok(())
}

/// The definitions that are known: tables, registrations, and the sets that stand at both their
/// ends.
pub fn known_of(alloc: Global, stored: &[StoredServer]) -> Result<Defs, AllocError>
    ensures { IfOk result (λ known. known ≡ known_stored stored.now) }
{
    let mut known = Defs {
        tables: List::new(alloc),
        registrations: List::new(alloc),
        sets: List::new(alloc),
    };
    'servers: for server in stored {
        push_tables(server, &mut known.tables)?;
        push_registrations(server, &mut known.registrations)?;
        push_sets(stored, server.targets.as_slice(), &mut known.sets)?;
    }
    Ok(known)
}
