//! What a load of definitions adds at a server.

ghost use Rattle.std.specs.Prelude.{◌≡◌, ◌+◌, ◌≤◌, ◌++◌, ℕ};
ghost use Rattle.std.specs.Prelude.{length, count_by, find, option_map, IfOk, OnOk};
ghost use Rattle.std.specs.Prelude.{filter, false};
ghost use Rattle.std.specs.List.{filter_map};
ghost use Rattle.std.specs.Str.{bytes_eq};
ghost use Rattle.repl_model.specs.SoundDefinitions.{table_limit, set_limit};
ghost use Rattle.load_plan.specs.Limits.{gets_table as gets_table_lem};
ghost use Rattle.load_plan.specs.Limits.{gets_source as gets_source_lem};
ghost use Rattle.load_plan.specs.Limits.{gets_target as gets_target_lem};
ghost use Rattle.load_plan.specs.Limits.{has_many_tables, has_many_sets};
ghost use Rattle.load_plan.specs.Additions.{gets_registration as gets_registration_lem};
ghost use Rattle.load_plan.specs.Additions.{numbered_registration as numbered_registration_lem};
ghost use Rattle.load_plan.specs.Additions.{tables_added as tables_added_lem};
ghost use Rattle.load_plan.specs.Additions.{sources_added as sources_added_lem};
ghost use Rattle.load_plan.specs.Additions.{targets_added as targets_added_lem};
ghost use Rattle.load_plan.specs.Additions.{additions_at as additions_at_lem};

use crate::limits::{gets_source, gets_table, gets_target};
use crate::stored::{StoredServer, registration_at, same_name};
use repl_definitions::{DefinedRegistration, DefinedTable, SetDef, SourceSet, TargetSet};
use repl_types::{List, TableDef};
use spelled_defs::{Defs, RegistrationAt};
use std::alloc::{AllocError, Global};

/// The rows of definitions that a server gets.
#[derive(Debug, Drop)]
pub struct Additions {
    pub tables: List<DefinedTable>,
    pub registrations: List<DefinedRegistration>,
    pub sources: List<SourceSet>,
    pub targets: List<TargetSet>,
}

/// A copy of a table.
fn copy_def(def: &TableDef) -> Result<TableDef, AllocError>
    ensures { IfOk result (λ copy. copy ≡ def.now) }
{
    def.clone()
}

/// A copy of a set.
fn copy_set(set: &SetDef) -> Result<SetDef, AllocError>
    ensures { IfOk result (λ copy. copy ≡ set.now) }
{
    set.clone()
}

/// The tables that a server gets.
fn tables_added(
    alloc: Global,
    defs: &Defs,
    server: &StoredServer,
) -> Result<List<DefinedTable>, AllocError>
    requires { length server.now.tables + count_by (gets_table_lem server.now) defs.now.tables
        ≤ table_limit }
    ensures { IfOk result (λ rows. rows ≡ tables_added_lem defs.now server.now) }
{
    let mut rows = List::new(alloc);
    let mut number = server.tables.len() as u32;
    'tables: for table in defs.tables.as_slice() {
        if gets_table(server, table) {
            let def = copy_def(&table.def)?;
            rows.push(DefinedTable { number, def })?;
            number += 1;
        }
    }
    Ok(rows)
}

/// The sets that a server gets as their source.
fn sources_added(
    alloc: Global,
    defs: &Defs,
    server: &StoredServer,
) -> Result<List<SourceSet>, AllocError>
    requires { length server.now.sources + count_by (gets_source_lem server.now) defs.now.sets
        ≤ set_limit }
    ensures { IfOk result (λ rows. rows ≡ sources_added_lem defs.now server.now) }
{
    let mut rows = List::new(alloc);
    let mut number = server.sources.len() as u32;
    'sets: for set in defs.sets.as_slice() {
        if gets_source(server, set) {
            let def = copy_set(set)?;
            rows.push(SourceSet { number, def })?;
            number += 1;
        }
    }
    Ok(rows)
}

/// The sets that a server gets as their target.
fn targets_added(
    alloc: Global,
    defs: &Defs,
    server: &StoredServer,
) -> Result<List<TargetSet>, AllocError>
    requires { length server.now.targets + count_by (gets_target_lem server.now) defs.now.sets
        ≤ set_limit }
    ensures { IfOk result (λ rows. rows ≡ targets_added_lem defs.now server.now) }
{
    let mut rows = List::new(alloc);
    let mut number = server.targets.len() as u32;
    'sets: for set in defs.sets.as_slice() {
        if gets_target(server, set) {
            let def = copy_set(set)?;
            rows.push(TargetSet { number, def })?;
            number += 1;
        }
    }
    Ok(rows)
}

/// Whether a server gets a registration of a text.
fn gets_registration(server: &StoredServer, registration: &RegistrationAt) -> bool
    ensures { result ≡ gets_registration_lem server.now registration.now }
{
    same_name(&registration.server, &server.name)
        && registration_at(&registration.def.table, server).is_none()
}

/// The table of a registration, if it is one of these.
fn table_of<'a>(
    registration: &RegistrationAt,
    tables: &'a [DefinedTable],
) -> Option<&'a DefinedTable>
    ensures { option_map (λ row. row.now) result
        ≡ find (λ row. bytes_eq registration.now.def.table row.def.name) tables.now }
{
    tables
        .iter()
        .find(|row| same_name(&registration.def.table, &row.def.name))
}

/// A registration with the number of its table, if that is one of these.
fn numbered_registration(
    registration: &RegistrationAt,
    tables: &[DefinedTable],
) -> Result<Option<DefinedRegistration>, AllocError>
    ensures { IfOk result (λ row. row ≡ numbered_registration_lem tables.now registration.now) }
{
    match table_of(registration, tables) {
        Some(table) => Ok(Some(DefinedRegistration {
            number: table.number,
            registration: registration.def.clone()?,
        })),
        None => Ok(None),
    }
}

/// The registrations of a text that a server gets, each with the number of its table, of those
/// tables that are given.
fn numbered_registrations(
    alloc: Global,
    defs: &Defs,
    server: &StoredServer,
    tables: &[DefinedTable],
) -> Result<List<DefinedRegistration>, AllocError>
    ensures { IfOk result (λ rows. rows ≡ filter_map (numbered_registration_lem tables.now)
        (filter (gets_registration_lem server.now) defs.now.registrations)) }
{
    let mut rows = List::new(alloc);
    'registrations: for registration in defs.registrations.as_slice() {
        if gets_registration(server, registration) {
            if let Some(row) = numbered_registration(registration, tables)? {
                rows.push(row)?;
            }
        }
    }
    Ok(rows)
}

/// A copy of a table with its number.
fn copy_table(table: &DefinedTable) -> Result<DefinedTable, AllocError>
    ensures { IfOk result (λ copy. copy ≡ table.now) }
{
    Ok(DefinedTable {
        number: table.number,
        def: copy_def(&table.def)?,
    })
}

/// Adds tables with their numbers.
fn push_tables(tables: &[DefinedTable], rows: &mut List<DefinedTable>) -> Result<(), AllocError>
    ensures { OnOk result (rows.new ≡ rows.old ++ tables.now) }
{
    'tables: for table in tables {
        rows.push(copy_table(table)?)?;
    }
    Ok(())
}

/// What a server gets by a load: the tables, registrations and sets of a text that it doesn't have,
/// with their numbers. The numbers of new tables and sets go on from those that it has.
pub fn additions_at(
    alloc: Global,
    defs: &Defs,
    server: &StoredServer,
) -> Result<Additions, AllocError>
    requires tables { has_many_tables defs.now server.now ≡ false }
    requires sets { has_many_sets defs.now server.now ≡ false }
    ensures { IfOk result (λ additions. additions ≡ additions_at_lem defs.now server.now) }
{
    let tables = tables_added(alloc, defs, server)?;
    let mut all = List::new(alloc);
    push_tables(server.tables.as_slice(), &mut all)?;
    push_tables(tables.as_slice(), &mut all)?;
    let registrations = numbered_registrations(alloc, defs, server, all.as_slice())?;
    Ok(Additions {
        tables,
        registrations,
        sources: sources_added(alloc, defs, server)?,
        targets: targets_added(alloc, defs, server)?,
    })
}
