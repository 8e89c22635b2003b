//! The unit of a set's signal.

ghost use Rattle.std.specs.Prelude.{◌≡◌, map, OnOk, IfOk};
ghost use Rattle.std.specs.List.{list_any};
ghost use Rattle.std.specs.Str.{bytes_eq};
ghost use Rattle.repl_definitions.specs.Sets.{IsSetDef};
ghost use Rattle.repl_model.specs.AfterActions.{source_tables as source_tables_lem};
ghost use Rattle.source_log.specs.Units.{MayAppendUnit};
ghost use Rattle.full_refresh.specs.Signals.{with_table, start_of, head_of_signal};
ghost use Rattle.full_refresh.specs.Signals.{unit_of_signal};

use repl_definitions::SetDef;
use repl_types::{Change, List, Name, Placed, Unit, UnitHead};
use std::alloc::{AllocError, Global};

/// Whether a name is among some names.
fn is_among(names: &List<Name>, name: &Name) -> bool
    ensures { result ≡ list_any (bytes_eq name.now) names.now }
{
    names.as_slice().iter().any(|other| *other == *name)
}

/// Adds a name to some names, unless it is among them.
fn add_table(names: &mut List<Name>, name: &Name) -> Result<(), AllocError>
    ensures { OnOk result (names.new ≡ with_table names.old name.now) }
{
    if is_among(names, name) {
        return Ok(());
    }
    names.push(name.clone()?)?;
    Ok(())
}

/// The source tables of a set's members, each once, in order.
fn source_tables(alloc: Global, def: &SetDef) -> Result<List<Name>, AllocError>
    ensures { IfOk result (λ names. names ≡ source_tables_lem def.now) }
{
    let mut names = List::new(alloc);
    for member in def.members.as_slice() {
        add_table(&mut names, &member.source)?;
    }
    Ok(names)
}

/// The starts of registrations. Their positions aren't read.
fn starts(alloc: Global, names: List<Name>) -> Result<List<Placed>, AllocError>
    ensures { IfOk result (λ changes. changes ≡ map start_of names) }
{
    let mut changes = List::new(alloc);
    for table in names.into_vec() {
        changes.push(Placed {
            pos: 0,
            change: Change::Start { table },
        })?;
    }
    Ok(changes)
}

/// The head of the unit of a set's signal at a time in seconds. Its seq isn't read.
fn signal_head(def: &SetDef, time: u64) -> Result<UnitHead, AllocError>
    ensures { IfOk result (λ head. head ≡ head_of_signal def.now time) }
{
    Ok(UnitHead {
        seq: 0,
        time,
        authid: def.id.qual.clone()?,
        origin: Some(def.id.clone()?),
        code: 0,
    })
}

/// The unit of a set's signal at a time in seconds: the registrations of its members are started,
/// each once, under the name of the set's qualifier. Its seq and its positions aren't read.
pub fn signal_unit(alloc: Global, def: &SetDef, time: u64) -> Result<Unit, AllocError>
    requires { IsSetDef def.now }
    ensures unit { IfOk result (λ unit. unit ≡ unit_of_signal def.now time) }
    ensures may { IfOk result MayAppendUnit }
{
    let names = source_tables(alloc, def)?;
    let changes = starts(alloc, names)?;
    let head = signal_head(def, time)?;
    Ok(Unit { head, changes })
}
