//! How many items of a text are new.

ghost use Rattle.std.specs.Prelude.{◌≡◌, ◌↔◌, IsTrue, count_by, IfOk};
ghost use Rattle.std.specs.List.{list_any};
ghost use Rattle.repl_model.specs.World.{same_set as same_set_lem};
ghost use Rattle.spelled_defs.specs.Spelled.{is_table as is_table_lem};
ghost use Rattle.spelled_defs.specs.Spelled.{is_registration as is_registration_lem};
ghost use Rattle.load_defs.specs.Counts.{is_new_table as is_new_table_lem};
ghost use Rattle.load_defs.specs.Counts.{is_new_registration as is_new_registration_lem};
ghost use Rattle.load_defs.specs.Counts.{is_new_set as is_new_set_lem, loaded_counts, NoneIsNew};

use load_plan::same_set;
use repl_definitions::SetDef;
use spelled_defs::{Defs, RegistrationAt, TableAt, is_registration, is_table, narrow_place};
use std::alloc::AllocError;

/// How many tables, registrations and sets of a text weren't known before they were loaded.
#[derive(Clone, Copy, Debug, PartialEq, Eq)]
pub struct Loaded {
    pub tables: u32,
    pub registrations: u32,
    pub sets: u32,
}

/// Whether a table is known.
fn has_table(known: &Defs, table: &TableAt) -> bool
    ensures { result
        ≡ list_any (is_table_lem table.now.server table.now.def.name) known.now.tables }
{
    let server = table.server.as_str().as_bytes();
    let name = table.def.name.as_str().as_bytes();
    known
        .tables
        .as_slice()
        .iter()
        .any(|other| is_table(server, name, other))
}

/// Whether a table isn't known.
fn is_new_table(known: &Defs, table: &TableAt) -> bool
    ensures { result ≡ is_new_table_lem known.now table.now }
{
    !has_table(known, table)
}

/// Whether a registration is known.
fn has_registration(known: &Defs, registration: &RegistrationAt) -> bool
    ensures { result
        ≡ list_any (is_registration_lem registration.now.server registration.now.def.table)
        known.now.registrations }
{
    let server = registration.server.as_str().as_bytes();
    let table = registration.def.table.as_str().as_bytes();
    known
        .registrations
        .as_slice()
        .iter()
        .any(|other| is_registration(server, table, other))
}

/// Whether a registration isn't known.
fn is_new_registration(known: &Defs, registration: &RegistrationAt) -> bool
    ensures { result ≡ is_new_registration_lem known.now registration.now }
{
    !has_registration(known, registration)
}

/// Whether a set is known.
fn has_set(known: &Defs, set: &SetDef) -> bool
    ensures { result ≡ list_any (λ other. same_set_lem set.now.id other.id) known.now.sets }
{
    known
        .sets
        .as_slice()
        .iter()
        .any(|other| same_set(&set.id, &other.id))
}

/// Whether a set isn't known.
fn is_new_set(known: &Defs, set: &SetDef) -> bool
    ensures { result ≡ is_new_set_lem known.now set.now }
{
    !has_set(known, set)
}

/// How many tables of a text aren't known.
fn count_tables(known: &Defs, tables: &[TableAt]) -> usize
    ensures { result ≡ count_by (is_new_table_lem known.now) tables.now }
{
    tables
        .iter()
        .filter(|table| is_new_table(known, table))
        .count()
}

/// How many registrations of a text aren't known.
fn count_registrations(known: &Defs, registrations: &[RegistrationAt]) -> usize
    ensures { result ≡ count_by (is_new_registration_lem known.now) registrations.now }
{
    registrations
        .iter()
        .filter(|registration| is_new_registration(known, registration))
        .count()
}

/// How many sets of a text aren't known.
fn count_sets(known: &Defs, sets: &[SetDef]) -> usize
    ensures { result ≡ count_by (is_new_set_lem known.now) sets.now }
{
    sets.iter().filter(|set| is_new_set(known, set)).count()
}

/// How many items of a text aren't known.
pub fn count_new(known: &Defs, defs: &Defs) -> Result<Loaded, AllocError>
    ensures { IfOk result (λ loaded. loaded ≡ loaded_counts known.now defs.now) }
{
    Ok(Loaded {
        tables: narrow_place(count_tables(known, defs.tables.as_slice()))?,
        registrations: narrow_place(count_registrations(known, defs.registrations.as_slice()))?,
        sets: narrow_place(count_sets(known, defs.sets.as_slice()))?,
    })
}

/// Whether no item is new.
pub fn none_is_new(loaded: &Loaded) -> bool
    ensures { IsTrue result ↔ NoneIsNew loaded.now }
{
    loaded.tables == 0 && loaded.registrations == 0 && loaded.sets == 0
}
