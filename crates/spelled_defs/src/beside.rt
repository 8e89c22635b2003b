//! The known tables and registrations that stand beside a text, and all that does.

ghost use Rattle.std.specs.Prelude.{◌≡◌, find, option_map, IfOk};
ghost use Rattle.std.specs.List.{list_any};
ghost use Rattle.spelled_defs.specs.Spelled.{is_table as is_table_lem};
ghost use Rattle.spelled_defs.specs.Spelled.{is_registration as is_registration_lem};
ghost use Rattle.spelled_defs.specs.Context.{is_other_table as is_other_table_lem};
ghost use Rattle.spelled_defs.specs.Context.{context_of as context_of_lem};
ghost use Rattle.spelled_defs.specs.Context.{is_other_registration as is_other_registration_lem};
ghost use Rattle.spelled_defs.specs.Context.{all_tables as all_tables_lem};
ghost use Rattle.spelled_defs.specs.Context.{all_registrations as all_registrations_lem};

use crate::context::Context;
use crate::defs::{Defs, RegistrationAt, TableAt};
use crate::links::all_links;
use crate::spelled::{is_table, spelled_registrations, spelled_tables};
use repl_commands::{RawDefs, RawRegistration, RawTable};
use repl_types::List;
use std::alloc::{AllocError, Global};

/// Whether a table's name stands among the items.
fn table_stands_in(items: &[RawTable], table: &TableAt) -> bool
    ensures { result ≡ list_any
        (λ item. is_table_lem item.server item.name table.now) items.now }
{
    items.iter().any(|item| is_table(item.server.as_slice(), item.name.as_slice(), table))
}

/// Whether a table's name doesn't stand among the items.
fn is_other_table(items: &[RawTable], table: &TableAt) -> bool
    ensures { result ≡ is_other_table_lem items.now table.now }
{
    !table_stands_in(items, table)
}

/// Whether the registration is the one of this server and table.
pub fn is_registration(server: &[u8], table: &[u8], registration: &RegistrationAt) -> bool
    ensures { result ≡ is_registration_lem server.now table.now registration.now }
{
    server == registration.server.as_str().as_bytes()
        && table == registration.def.table.as_str().as_bytes()
}

/// The registration of this server and table.
pub fn find_registration<'a>(
    registrations: &'a [RegistrationAt],
    server: &[u8],
    table: &[u8],
) -> Option<&'a RegistrationAt>
    ensures { option_map (λ r. r.now) result
        ≡ find (is_registration_lem server.now table.now) registrations.now }
{
    registrations.iter().find(|registration| is_registration(server, table, registration))
}

/// Whether a registration's name stands among the items.
fn registration_stands_in(items: &[RawRegistration], registration: &RegistrationAt) -> bool
    ensures { result ≡ list_any
        (λ item. is_registration_lem item.server item.table registration.now) items.now }
{
    items.iter().any(|item| {
        is_registration(item.server.as_slice(), item.table.as_slice(), registration)
    })
}

/// Whether a registration's name doesn't stand among the items.
fn is_other_registration(items: &[RawRegistration], registration: &RegistrationAt) -> bool
    ensures { result ≡ is_other_registration_lem items.now registration.now }
{
    !registration_stands_in(items, registration)
}

/// A copy of a table.
fn copy_table(table: &TableAt) -> Result<TableAt, AllocError>
    ensures { IfOk result (λ copy. copy ≡ table.now) }
{
    table.clone()
}

/// A copy of a registration.
fn copy_registration(registration: &RegistrationAt) -> Result<RegistrationAt, AllocError>
    ensures { IfOk result (λ copy. copy ≡ registration.now) }
{
    registration.clone()
}

/// The tables that stand beside a text.
fn all_tables(alloc: Global, raw: &RawDefs, known: &Defs) -> Result<List<TableAt>, AllocError>
    ensures { IfOk result (λ tables. tables ≡ all_tables_lem raw.now known.now) }
{
    let mut tables = spelled_tables(alloc, raw.tables.as_slice())?;
    'known: for table in known.tables.as_slice() {
        if is_other_table(raw.tables.as_slice(), table) {
            tables.push(copy_table(table)?)?;
        }
    }
    Ok(tables)
}

/// The registrations that stand beside a text, given the tables.
fn all_registrations(
    alloc: Global,
    raw: &RawDefs,
    known: &Defs,
    tables: &[TableAt],
) -> Result<List<RegistrationAt>, AllocError>
    ensures { IfOk result
        (λ registrations. registrations ≡ all_registrations_lem raw.now known.now tables.now) }
{
    let mut registrations = spelled_registrations(alloc, tables, raw.registrations.as_slice())?;
    'known: for registration in known.registrations.as_slice() {
        if is_other_registration(raw.registrations.as_slice(), registration) {
            registrations.push(copy_registration(registration)?)?;
        }
    }
    Ok(registrations)
}

/// All that stands beside a text.
#[tactic(auto, unfolding(crate::specs::Context::context_of))]
pub fn context_of(alloc: Global, raw: &RawDefs, known: &Defs) -> Result<Context, AllocError>
    ensures { IfOk result (λ context. context ≡ context_of_lem raw.now known.now) }
{
    let tables = all_tables(alloc, raw, known)?;
    let registrations = all_registrations(alloc, raw, known, tables.as_slice())?;
    let links = all_links(alloc, raw, known)?;
    Ok(Context {
        tables,
        registrations,
        links,
    })
}
