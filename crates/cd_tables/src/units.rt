//! A unit is captured.

ghost use Rattle.std.specs.Prelude.{◌≡◌, ◌<◌, length, OnOk, IfOk, IfErr};
ghost use Rattle.std.specs.List.{AllByRecursion};
ghost use Rattle.site_store.specs.Damage.{ShownBefore};
ghost use Rattle.site_store.specs.Views.{names, work, IsOpenAt};
ghost use Rattle.site_store.specs.one_server.Calls.{GoesOn, Breaks, FailsToWrite};
ghost use Rattle.stored_commits.specs.units.StoredChanges.{with_uow_row};
ghost use Rattle.cd_tables.specs.Reading.{ReadsNoLog};
ghost use Rattle.cd_tables.specs.Rules.{rules};
ghost use Rattle.cd_tables.specs.Appending.{Becomes, CapturesUnit, IsTyped};

use crate::changes::append_change;
use keep_core::Keeper;
use repl_records::UowRow;
use repl_types::{Fault, Unit, UnitHead};
use row_codec::Table0;
use site_store::Sites;
use std::alloc::{AllocError, Global};

/// The row of a unit in the unit-of-work table, which isn't rejected.
fn unit_row(head: &UnitHead) -> Result<UowRow, AllocError>
    ensures { IfOk result (λ row. row ≡ record {
      time = head.now.time;
      authid = head.now.authid;
      origin = head.now.origin;
      code = 0;
    }) }
{
    Ok(UowRow {
        time: head.time,
        authid: head.authid.clone()?,
        origin: head.origin.clone()?,
        code: 0,
    })
}

/// Puts the row of a unit into the unit-of-work table.
fn put_unit<K: Keeper>(
    sites: &mut Sites<K>,
    alloc: Global,
    server: u32,
    head: &UnitHead,
) -> Result<(), Fault>
    requires server { server < length (names sites.old) }
    requires open { IsOpenAt (work K.kept sites.old) server }
    ensures ok { OnOk result (GoesOn K.kept sites.old sites.new server
        (Becomes (with_uow_row head.now))) }
    ensures fault { IfErr result (FailsToWrite K.kept sites.old sites.new) }
    ensures reads { ReadsNoLog K.kept sites.old sites.new }
{
    let row = unit_row(head)?;
    sites.put::<UowRow>(alloc, server, Table0, &head.seq, &row)?;
    Ok(())
}

/// Captures a unit at a server, inside the transaction that is open there: puts its row into the
/// unit-of-work table and the change rows of its changes, and carries out its starts and stops. It
/// answers how many change rows were put. After a fault each server holds what it held, and the
/// transaction may still be open.
pub fn append_changes<K: Keeper>(
    sites: &mut Sites<K>,
    alloc: Global,
    server: u32,
    unit: &Unit,
) -> Result<u64, Fault>
    requires server { server < length (names sites.old) }
    requires open { IsOpenAt (work K.kept sites.old) server }
    requires typed { AllByRecursion IsTyped unit.now.changes }
    ensures ok { IfOk result (λ rows. GoesOn K.kept sites.old sites.new server
        (CapturesUnit unit.now rows)) }
    ensures shown { OnOk result (GoesOn K.kept sites.old sites.new server (ShownBefore rules)) }
    ensures fault { IfErr result (Breaks rules K.kept sites.old sites.new server) }
    ensures reads { ReadsNoLog K.kept sites.old sites.new }
{
    put_unit(sites, alloc, server, &unit.head)?;
    let mut rows = 0;
    let mut known = None;
    'changes: for placed in unit.changes.as_slice() {
        let made = append_change(sites, alloc, server, unit.head.seq, placed, known)?;
        rows += made.rows;
        known = made.known;
    }
    Ok(rows)
}
