//! The rows that a load puts at a server, each with its key.

ghost use Rattle.std.specs.Prelude.{◌≡◌, IfOk};
ghost use Rattle.load_laws.specs.planned.Planned.{table_additions, registration_additions};
ghost use Rattle.load_laws.specs.planned.Planned.{state_additions};
ghost use Rattle.load_laws.specs.planned.Planned.{source_additions, mark_additions};
ghost use Rattle.load_laws.specs.planned.Planned.{target_additions};
ghost use Rattle.load_defs.specs.Putting.{added_rows as added_rows_lem};

use crate::known::copy_set;
use load_plan::Additions;
use repl_definitions::{DefinedRegistration, DefinedTable, SourceSet, TargetSet};
use repl_records::{RegState, SyncMark};
use repl_types::{List, Name, SetId};
use std::alloc::{AllocError, Global};

/// A table, under its name.
fn table_row(row: &DefinedTable) -> Result<(Name, DefinedTable), AllocError>
    ensures { IfOk result (λ pair. pair ≡ (row.now.def.name, row.now)) }
{
    Ok((row.def.name.clone()?, row.clone()?))
}

/// The tables, under their names.
fn table_rows(alloc: Global, added: &Additions) -> Result<List<(Name, DefinedTable)>, AllocError>
    ensures { IfOk result (λ rows. rows ≡ table_additions added.now) }
{
    let mut rows = List::new(alloc);
    'tables: for row in added.tables.as_slice() {
        rows.push(table_row(row)?)?;
    }
    Ok(rows)
}

/// A registration, under the name of its table.
fn registration_row(row: &DefinedRegistration) -> Result<(Name, DefinedRegistration), AllocError>
    ensures { IfOk result (λ pair. pair ≡ (row.now.registration.table, row.now)) }
{
    Ok((row.registration.table.clone()?, row.clone()?))
}

/// The registrations, under the names of their tables.
fn registration_rows(
    alloc: Global,
    added: &Additions,
) -> Result<List<(Name, DefinedRegistration)>, AllocError>
    ensures { IfOk result (λ rows. rows ≡ registration_additions added.now) }
{
    let mut rows = List::new(alloc);
    'registrations: for row in added.registrations.as_slice() {
        rows.push(registration_row(row)?)?;
    }
    Ok(rows)
}

/// The first states of these registrations, under the numbers of their tables: inactive.
fn state_rows(alloc: Global, added: &Additions) -> Result<List<(u32, RegState)>, AllocError>
    ensures { IfOk result (λ rows. rows ≡ state_additions added.now) }
{
    let mut rows = List::new(alloc);
    'registrations: for row in added.registrations.as_slice() {
        let state = RegState {
            active: false,
            start: 0,
            floor: 0,
        };
        rows.push((row.number, state))?;
    }
    Ok(rows)
}

/// A copy of a set at its source.
fn copy_source(row: &SourceSet) -> Result<SourceSet, AllocError>
    ensures { IfOk result (λ copy. copy ≡ row.now) }
{
    Ok(SourceSet {
        number: row.number,
        def: copy_set(&row.def)?,
    })
}

/// A set at its source, under its name.
fn source_row(row: &SourceSet) -> Result<(SetId, SourceSet), AllocError>
    ensures { IfOk result (λ pair. pair ≡ (row.now.def.id, row.now)) }
{
    Ok((row.def.id.clone()?, copy_source(row)?))
}

/// The sets whose source the server is, under their names.
fn source_rows(alloc: Global, added: &Additions) -> Result<List<(SetId, SourceSet)>, AllocError>
    ensures { IfOk result (λ rows. rows ≡ source_additions added.now) }
{
    let mut rows = List::new(alloc);
    'sets: for row in added.sources.as_slice() {
        rows.push(source_row(row)?)?;
    }
    Ok(rows)
}

/// The first marks of these sets, under their numbers: nothing is reported.
fn mark_rows(alloc: Global, added: &Additions) -> Result<List<(u32, SyncMark)>, AllocError>
    ensures { IfOk result (λ rows. rows ≡ mark_additions added.now) }
{
    let mut rows = List::new(alloc);
    'sets: for row in added.sources.as_slice() {
        rows.push((row.number, SyncMark { mark: 0, signal: 0 }))?;
    }
    Ok(rows)
}

/// A copy of a set at its target.
fn copy_target(row: &TargetSet) -> Result<TargetSet, AllocError>
    ensures { IfOk result (λ copy. copy ≡ row.now) }
{
    Ok(TargetSet {
        number: row.number,
        def: copy_set(&row.def)?,
    })
}

/// A set at its target, under its name.
fn target_row(row: &TargetSet) -> Result<(SetId, TargetSet), AllocError>
    ensures { IfOk result (λ pair. pair ≡ (row.now.def.id, row.now)) }
{
    Ok((row.def.id.clone()?, copy_target(row)?))
}

/// The sets whose target the server is, under their names.
fn target_rows(alloc: Global, added: &Additions) -> Result<List<(SetId, TargetSet)>, AllocError>
    ensures { IfOk result (λ rows. rows ≡ target_additions added.now) }
{
    let mut rows = List::new(alloc);
    'sets: for row in added.targets.as_slice() {
        rows.push(target_row(row)?)?;
    }
    Ok(rows)
}

/// All rows that a load puts at a server, each kind in the order of the text.
#[derive(Debug, Drop)]
pub struct AddedRows {
    pub tables: List<(Name, DefinedTable)>,
    pub registrations: List<(Name, DefinedRegistration)>,
    pub states: List<(u32, RegState)>,
    pub sources: List<(SetId, SourceSet)>,
    pub marks: List<(u32, SyncMark)>,
    pub targets: List<(SetId, TargetSet)>,
}

/// The rows for what a server gets.
pub fn added_rows(alloc: Global, added: &Additions) -> Result<AddedRows, AllocError>
    ensures { IfOk result (λ rows. rows ≡ added_rows_lem added.now) }
{
    Ok(AddedRows {
        tables: table_rows(alloc, added)?,
        registrations: registration_rows(alloc, added)?,
        states: state_rows(alloc, added)?,
        sources: source_rows(alloc, added)?,
        marks: mark_rows(alloc, added)?,
        targets: target_rows(alloc, added)?,
    })
}
