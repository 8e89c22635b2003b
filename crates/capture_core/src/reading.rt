//! The log of a server is read up to its next unit, and the unit is captured.

ghost use Rattle.std.specs.Prelude.{◌≡◌, ◌<◌, true, length, OnOk, IfOk, IfErr, IfSome};
ghost use Rattle.std.specs.List.{AllByRecursion};
ghost use Rattle.repl_model.specs.Units.{unit_of};
ghost use Rattle.std.specs.Bool.{OnTrue};
ghost use Rattle.cd_tables.specs.Appending.{IsTyped};
ghost use Rattle.cd_tables.specs.Reading.{ReadsNoLog};
ghost use Rattle.capture_core.specs.LogReads.{ReadsLog, ReadsEachOnce, ReadsFurther};
ghost use Rattle.site_store.specs.Views.{names, work, sees, IsOpenAt};
ghost use Rattle.site_store.specs.one_server.Calls.{Looks, GoesOn, Breaks};
ghost use Rattle.capture_core.specs.Rules.{rules};
ghost use Rattle.capture_core.specs.Reading.{IsNextRecord, IsLoggedAfter, KeepsTyped};
ghost use Rattle.capture_core.specs.Reading.{Counts, IsRestart, TakesCommit};
ghost use Rattle.capture_core.specs.Reading.{TakesRecord, TakesUnit};

use crate::progress::Progress;
use cd_tables::append_changes;
use keep_core::Keeper;
use repl_records::CaptureState;
use repl_types::{Fault, List, LogRecord, Name, Placed, SetId, Unit, UnitHead};
use row_codec::Table0;
use site_store::Sites;
use std::alloc::Global;
use txn_buffer::Buffer;

/// The unit of a commit at a position, with these changes.
fn unit_at(pos: u64, time: u64, authid: Name, origin: Option<SetId>, changes: List<Placed>) -> Unit
    ensures { result ≡ unit_of pos time authid origin changes }
{
    Unit {
        head: UnitHead {
            seq: pos,
            time,
            authid,
            origin,
            code: 0,
        },
        changes,
    }
}

/// The first record of the log after a position, with its position.
fn next_record<K: Keeper>(
    sites: &mut Sites<K>,
    alloc: Global,
    server: u32,
    read: u64,
) -> Result<Option<(u64, LogRecord)>, Fault>
    requires { server < length (names sites.old) }
    ensures ok { OnOk result (Looks K.kept sites.old sites.new) }
    ensures next { IfOk result (λ next. IfSome (sees K.kept sites.old server)
        (IsNextRecord read next)) }
    ensures rises { IfOk result (λ next. IfSome next (IsLoggedAfter read)) }
    ensures fault { IfErr result (Breaks rules K.kept sites.old sites.new server) }
    ensures reads { ReadsLog K.kept sites.old sites.new server 1 }
{
    let next = sites.next::<LogRecord>(alloc, server, Table0, Some(&read))?;
    Ok(next)
}

/// Where a capture after a position begins again.
fn restart_at(buffer: &Buffer, captured: u64) -> u64
    ensures { IsRestart buffer.now captured result }
{
    match buffer.first() {
        Some(pos) => pos,
        None => captured.saturating_add(1),
    }
}

/// Captures the unit of a commit at a position.
fn take_commit<K: Keeper>(
    sites: &mut Sites<K>,
    alloc: Global,
    server: u32,
    progress: &mut Progress,
    unit: &Unit,
) -> Result<(), Fault>
    requires server { server < length (names sites.old) }
    requires open { IsOpenAt (work K.kept sites.old) server }
    requires typed { AllByRecursion IsTyped unit.now.changes }
    ensures ok { OnOk result (GoesOn K.kept sites.old sites.new server
        (TakesCommit progress.old progress.new unit.now)) }
    ensures buffer { OnOk result (progress.new.buffer ≡ progress.old.buffer) }
    ensures read { OnOk result (progress.new.read ≡ progress.old.read) }
    ensures counts { OnOk result (Counts true progress.old progress.new) }
    ensures fault { IfErr result (Breaks rules K.kept sites.old sites.new server) }
    ensures reads { ReadsNoLog K.kept sites.old sites.new }
{
    let rows = append_changes(sites, alloc, server, unit)?;
    progress.state = CaptureState {
        captured: unit.head.seq,
        restart: restart_at(&progress.buffer, unit.head.seq),
        floor: progress.state.floor,
    };
    progress.units = progress.units.saturating_add(1);
    progress.rows = progress.rows.saturating_add(rows);
    progress.waiting = progress.waiting.saturating_add(1);
    Ok(())
}

/// Takes the record at a position, and says whether a unit was captured.
fn take_record<K: Keeper>(
    sites: &mut Sites<K>,
    alloc: Global,
    server: u32,
    progress: &mut Progress,
    pos: u64,
    logged: LogRecord,
) -> Result<bool, Fault>
    requires server { server < length (names sites.old) }
    requires open { IsOpenAt (work K.kept sites.old) server }
    requires after { IsLoggedAfter progress.old.read (pos, logged) }
    requires typed { KeepsTyped progress.old }
    ensures ok { IfOk result (λ taken. GoesOn K.kept sites.old sites.new server
        (TakesRecord progress.old progress.new pos logged taken)) }
    ensures typed { OnOk result (KeepsTyped progress.new) }
    ensures read { OnOk result (progress.new.read ≡ pos) }
    ensures counts { IfOk result (λ taken. Counts taken progress.old progress.new) }
    ensures fault { IfErr result (Breaks rules K.kept sites.old sites.new server) }
    ensures reads { ReadsNoLog K.kept sites.old sites.new }
{
    progress.read = pos;
    match logged {
        LogRecord::Change { tx, change } => {
            progress.buffer.push(alloc, tx, Placed { pos, change })?;
            Ok(false)
        }
        LogRecord::Abort { tx } => {
            progress.buffer.drop_tx(tx);
            Ok(false)
        }
        LogRecord::Commit {
            tx,
            time,
            authid,
            origin,
        } => {
            let changes = progress.buffer.take(alloc, tx);
            if pos <= progress.state.captured {
                return Ok(false);
            }
            let unit = unit_at(pos, time, authid, origin, changes);
            take_commit(sites, alloc, server, progress, &unit)?;
            Ok(true)
        }
    }
}

/// Reads on up to the next unit and captures it; or to the end of the log, if there is none, and
/// answers false.
pub fn take_unit<K: Keeper>(
    sites: &mut Sites<K>,
    alloc: Global,
    server: u32,
    progress: &mut Progress,
) -> Result<bool, Fault>
    requires server { server < length (names sites.old) }
    requires open { IsOpenAt (work K.kept sites.old) server }
    requires typed { KeepsTyped progress.old }
    ensures ok { IfOk result (λ taken. GoesOn K.kept sites.old sites.new server
        (TakesUnit progress.old progress.new taken)) }
    ensures typed { OnOk result (KeepsTyped progress.new) }
    ensures counts { IfOk result (λ taken. Counts taken progress.old progress.new) }
    ensures fault { IfErr result (Breaks rules K.kept sites.old sites.new server) }
    ensures once { IfOk result (λ taken. OnTrue taken
        (ReadsEachOnce K.kept sites.old sites.new server progress.old progress.new)) }
    ensures further { ReadsFurther K.kept sites.old sites.new server progress.old }
{
    loop {
        let Some((pos, logged)) = next_record(sites, alloc, server, progress.read)? else {
            return Ok(false);
        };
        if take_record(sites, alloc, server, progress, pos, logged)? {
            return Ok(true);
        }
    }
}
