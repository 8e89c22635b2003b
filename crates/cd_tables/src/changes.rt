//! One change of a unit is captured.

ghost use Rattle.std.specs.Prelude.{◌≡◌, ◌<◌, ◌≤◌, length, OnOk, IfOk, IfErr, IfSome};
ghost use Rattle.std.specs.List.{AllByRecursion};
ghost use Rattle.repl_model.specs.ChangeRows.{rows_of as rows_of_lem};
ghost use Rattle.repl_model.specs.Tables.{table_of};
ghost use Rattle.stored_commits.specs.records.SourceTables.{HasRows};
ghost use Rattle.repl_records.specs.Capture.{IsRegistrationState};
ghost use Rattle.repl_records.specs.RecordKeys.{IsChangeKey};
ghost use Rattle.site_store.specs.Views.{names, work, IsOpenAt};
ghost use Rattle.site_store.specs.one_server.Calls.{GoesOn, Breaks, FailsToWrite};
ghost use Rattle.stored_commits.specs.units.StoredChanges.{is_captured as is_captured_lem};
ghost use Rattle.stored_commits.specs.units.StoredChanges.{stored_change as stored_change_lem};
ghost use Rattle.stored_commits.specs.units.StoredChanges.{with_change_rows};
ghost use Rattle.stored_commits.specs.units.StoredChanges.{with_rows_of, rows_put};
ghost use Rattle.stored_commits.specs.units.StoredChanges.{started, stopped, with_change};
ghost use Rattle.cd_tables.specs.Reading.{ReadsNoLog};
ghost use Rattle.cd_tables.specs.Rules.{rules, IsRegistrationOf};
ghost use Rattle.cd_tables.specs.Appending.{CanBeStored, Becomes};
ghost use Rattle.cd_tables.specs.Known.{IsStated, AppendsKnowing};

use crate::clearing::clear_changes;
use crate::stated::{StatedRegistration, find_registration, known_after};
use keep_core::Keeper;
use repl_definitions::DefinedRegistration;
use repl_records::{CdKey, ChangeRow, RegState};
use repl_types::{CdRow, Change, Fault, List, Placed};
use row_changes::{change_rows_of_change, table_of};
use row_codec::Table1;
use site_store::Sites;
use std::alloc::{AllocError, Global};

/// Whether the changes of a unit with this seq are captured for a registration in this state.
fn is_captured(seq: u64, state: &RegState) -> bool
    ensures { result ≡ is_captured_lem seq state.now }
{
    state.active && state.start < seq && state.floor < seq
}

/// A change row as it is stored: its key, and the record.
fn stored_change(row: CdRow) -> (CdKey, ChangeRow)
    ensures stored { result ≡ stored_change_lem row }
    ensures key { IsChangeKey result.0 }
{
    let CdRow {
        commitseq,
        intentseq,
        op,
        after,
        before,
    } = row;
    let key = CdKey {
        commitseq,
        intentseq,
    };
    (key, ChangeRow { op, after, before })
}

/// Puts change rows into the table of the registration with a number.
fn put_change_rows<K: Keeper>(
    sites: &mut Sites<K>,
    alloc: Global,
    server: u32,
    number: u32,
    rows: List<CdRow>,
) -> Result<(), Fault>
    requires server { server < length (names sites.old) }
    requires open { IsOpenAt (work K.kept sites.old) server }
    requires storable { AllByRecursion CanBeStored rows }
    ensures ok { OnOk result (GoesOn K.kept sites.old sites.new server
        (Becomes (with_change_rows number rows))) }
    ensures fault { IfErr result (FailsToWrite K.kept sites.old sites.new) }
    ensures reads { ReadsNoLog K.kept sites.old sites.new }
{
    for row in rows.into_vec() {
        let (key, stored) = stored_change(row);
        sites.put::<ChangeRow>(alloc, server, number, &key, &stored)?;
    }
    Ok(())
}

/// The change rows of a change for a registration of its table.
fn rows_of(
    alloc: Global,
    seq: u64,
    placed: &Placed,
    reg: &DefinedRegistration,
) -> Result<List<CdRow>, AllocError>
    requires of { IsRegistrationOf (table_of placed.now.change) reg.now }
    requires typed { HasRows placed.now.change }
    ensures rows { IfOk result (λ rows. rows
        ≡ rows_of_lem reg.now.registration seq placed.now.pos placed.now.change) }
    ensures storable { IfOk result (AllByRecursion CanBeStored) }
    ensures few { IfOk result (λ rows. length rows ≤ 2) }
{
    let mut rows = List::new(alloc);
    change_rows_of_change(alloc, &reg.registration, seq, placed, &mut rows)?;
    Ok(rows)
}

/// Puts the change rows of a change for a registration in this state, and answers how many.
fn put_rows_of<K: Keeper>(
    sites: &mut Sites<K>,
    alloc: Global,
    server: u32,
    seq: u64,
    placed: &Placed,
    reg: &DefinedRegistration,
    state: &RegState,
) -> Result<u64, Fault>
    requires server { server < length (names sites.old) }
    requires open { IsOpenAt (work K.kept sites.old) server }
    requires of { IsRegistrationOf (table_of placed.now.change) reg.now }
    requires typed { HasRows placed.now.change }
    ensures ok { OnOk result (GoesOn K.kept sites.old sites.new server
        (Becomes (with_rows_of seq placed.now reg.now state.now))) }
    ensures count { IfOk result (λ rows. (rows ≡ rows_put seq placed.now reg.now state.now)
        × (rows ≤ 2)) }
    ensures fault { IfErr result (FailsToWrite K.kept sites.old sites.new) }
    ensures reads { ReadsNoLog K.kept sites.old sites.new }
{
    if !is_captured(seq, state) {
        return Ok(0);
    }
    let rows = rows_of(alloc, seq, placed, reg)?;
    let count = rows.len() as u64;
    put_change_rows(sites, alloc, server, reg.number, rows)?;
    Ok(count)
}

/// Makes a registration active from a unit on, unless it is active.
fn start<K: Keeper>(
    sites: &mut Sites<K>,
    alloc: Global,
    server: u32,
    seq: u64,
    number: u32,
    state: &RegState,
) -> Result<(), Fault>
    requires server { server < length (names sites.old) }
    requires open { IsOpenAt (work K.kept sites.old) server }
    requires fits { IsRegistrationState state.now }
    ensures ok { OnOk result (GoesOn K.kept sites.old sites.new server
        (Becomes (started seq number state.now))) }
    ensures fault { IfErr result (FailsToWrite K.kept sites.old sites.new) }
    ensures reads { ReadsNoLog K.kept sites.old sites.new }
{
    if state.active {
        return Ok(());
    }
    let active = RegState {
        active: true,
        start: seq,
        floor: state.floor,
    };
    sites.put::<RegState>(alloc, server, Table1, &number, &active)?;
    Ok(())
}

/// Makes a registration inactive, and removes its change rows, unless it is inactive.
fn stop<K: Keeper>(
    sites: &mut Sites<K>,
    alloc: Global,
    server: u32,
    number: u32,
    state: &RegState,
) -> Result<(), Fault>
    requires server { server < length (names sites.old) }
    requires open { IsOpenAt (work K.kept sites.old) server }
    requires fits { IsRegistrationState state.now }
    ensures ok { OnOk result (GoesOn K.kept sites.old sites.new server
        (Becomes (stopped number state.now))) }
    ensures fault { IfErr result (Breaks rules K.kept sites.old sites.new server) }
    ensures reads { ReadsNoLog K.kept sites.old sites.new }
{
    if !state.active {
        return Ok(());
    }
    let inactive = RegState {
        active: false,
        start: state.start,
        floor: state.floor,
    };
    sites.put::<RegState>(alloc, server, Table1, &number, &inactive)?;
    clear_changes(sites, alloc, server, number)?;
    Ok(())
}

/// Carries out a change for the registration of its table, which is in this state, and answers how
/// many change rows were put.
fn carry_out<K: Keeper>(
    sites: &mut Sites<K>,
    alloc: Global,
    server: u32,
    seq: u64,
    placed: &Placed,
    reg: &DefinedRegistration,
    state: &RegState,
) -> Result<u64, Fault>
    requires server { server < length (names sites.old) }
    requires open { IsOpenAt (work K.kept sites.old) server }
    requires of { IsRegistrationOf (table_of placed.now.change) reg.now }
    requires typed { HasRows placed.now.change }
    requires fits { IsRegistrationState state.now }
    ensures ok { OnOk result (GoesOn K.kept sites.old sites.new server
        (Becomes (with_change seq placed.now reg.now state.now))) }
    ensures count { IfOk result (λ rows. (rows ≡ rows_put seq placed.now reg.now state.now)
        × (rows ≤ 2)) }
    ensures fault { IfErr result (Breaks rules K.kept sites.old sites.new server) }
    ensures reads { ReadsNoLog K.kept sites.old sites.new }
{
    match &placed.change {
        Change::Insert { .. } | Change::Update { .. } | Change::Delete { .. } => {
            let rows = put_rows_of(sites, alloc, server, seq, placed, reg, state)?;
            Ok(rows)
        }
        Change::Start { .. } => {
            start(sites, alloc, server, seq, reg.number, state)?;
            Ok(0)
        }
        Change::Stop { .. } => {
            stop(sites, alloc, server, reg.number, state)?;
            Ok(0)
        }
    }
}

/// A change that was captured: how many change rows were put, and the registration that is known
/// afterwards.
#[derive(Drop)]
pub struct CapturedChange {
    pub rows: u64,
    pub known: Option<StatedRegistration>,
}

/// Captures a change of a unit with this seq. A registration may be known from the changes before.
pub fn append_change<K: Keeper>(
    sites: &mut Sites<K>,
    alloc: Global,
    server: u32,
    seq: u64,
    placed: &Placed,
    known: Option<StatedRegistration>,
) -> Result<CapturedChange, Fault>
    requires server { server < length (names sites.old) }
    requires open { IsOpenAt (work K.kept sites.old) server }
    requires typed { HasRows placed.now.change }
    requires fits { IfSome known IsStated }
    ensures ok { IfOk result (λ made. GoesOn K.kept sites.old sites.new server
        (AppendsKnowing known made.known seq placed.now made.rows)) }
    ensures few { IfOk result (λ made. made.rows ≤ 2) }
    ensures fits { IfOk result (λ made. IfSome made.known IsStated) }
    ensures fault { IfErr result (Breaks rules K.kept sites.old sites.new server) }
    ensures reads { ReadsNoLog K.kept sites.old sites.new }
{
    let name = table_of(&placed.change);
    let found = find_registration(sites, alloc, server, name, known)?;
    let Some(at) = found else {
        return Ok(CapturedChange {
            rows: 0,
            known: None,
        });
    };
    let rows = carry_out(sites, alloc, server, seq, placed, &at.reg, &at.state)?;
    let known = known_after(&placed.change, at);
    Ok(CapturedChange { rows, known })
}
