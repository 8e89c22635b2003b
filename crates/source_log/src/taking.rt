//! One record is taken, inside an open transaction.

ghost use Rattle.std.specs.Prelude.{◌≡◌, ◌<◌, Some, length, nat_lt, OnOk, IfOk, IfErr};
ghost use Rattle.repl_types.specs.declared.area.Area.TheVariants.{Log, Inflight};
ghost use Rattle.keep_core.specs.Contents.{put_at};
ghost use Rattle.row_codec.specs.LogRecords.{IsLogRecord, HasLogSpelling, log_spelling};
ghost use Rattle.row_codec.specs.Spelling.{b64};
ghost use Rattle.row_codec.specs.Storable.{IsStorable};
ghost use Rattle.repl_records.specs.SourceSide.{in_flight_spelling};
ghost use Rattle.repl_model.specs.SoundLogs.{log_limit};
ghost use Rattle.site_store.specs.Views.{names, work, IsOpenAt};
ghost use Rattle.site_store.specs.one_server.Calls.{GoesOn, Breaks, FailsToWrite};
ghost use Rattle.stored_commits.specs.records.LongerTables.{head_after as head_after_lem};
ghost use Rattle.source_log.specs.Reading.{with_dropped};
ghost use Rattle.source_log.specs.Rules.{rules, flight_key};
ghost use Rattle.source_log.specs.Storing.{TakesRecord, TakesKnowing, HasRoom, IsCommit};

use crate::fitting::may_stand;
use crate::in_flight::{drop_changes, positions_of};
use crate::making::make_all;
use crate::outcome::Outcome;
use crate::shared_table::SharedTable;
use crate::steps::read_steps;
use crate::tables::find_table;
use keep_core::Keeper;
use repl_records::{Head, InFlight, InFlightKey};
use repl_types::{Change, Fault, LogRecord};
use row_changes::table_of;
use row_codec::Table0;
use site_store::Sites;
use std::alloc::Global;

/// The most records of a log.
pub const LOG_LIMIT: u64 = 1_999_999_999;

/// Whether the log has room for one more record.
fn has_room(head: &Head) -> bool
    ensures { result ≡ nat_lt head.now.last log_limit }
{
    head.last < LOG_LIMIT
}

/// The end of a log after one more record.
pub fn head_after(logged: &LogRecord, head: &Head) -> Head
    requires { head.now.last < log_limit }
    ensures { result ≡ head_after_lem logged.now head.now }
{
    let last = head.last + 1;
    match logged {
        LogRecord::Change { .. } | LogRecord::Abort { .. } => Head {
            last,
            commit: head.commit,
            time: head.time,
        },
        LogRecord::Commit { time, .. } => Head {
            last,
            commit: last,
            time: *time,
        },
    }
}

/// Puts a change into the log, and among the changes in flight.
fn put_change<K: Keeper>(
    sites: &mut Sites<K>,
    alloc: Global,
    server: u32,
    tx: u32,
    pos: u64,
    logged: &LogRecord,
) -> Result<(), Fault>
    requires server { server < length (names sites.old) }
    requires open { IsOpenAt (work K.kept sites.old) server }
    requires storable { IsStorable HasLogSpelling log_spelling logged.now }
    ensures ok { OnOk result (GoesOn K.kept sites.old sites.new server
        (λ c d. d ≡ put_at (put_at c Log 0 (b64 pos) (Some (log_spelling logged.now))) Inflight 0
        (flight_key tx pos) (Some (in_flight_spelling (record {}))))) }
    ensures fault { IfErr result (FailsToWrite K.kept sites.old sites.new) }
{
    sites.put::<LogRecord>(alloc, server, Table0, &pos, logged)?;
    sites.put::<InFlight>(alloc, server, Table0, &InFlightKey { tx, pos }, &InFlight)?;
    Ok(())
}

/// Puts the end of a transaction into the log, and removes its changes in flight.
fn put_end<K: Keeper>(
    sites: &mut Sites<K>,
    alloc: Global,
    server: u32,
    tx: u32,
    pos: u64,
    logged: &LogRecord,
    positions: &[u64],
) -> Result<(), Fault>
    requires server { server < length (names sites.old) }
    requires open { IsOpenAt (work K.kept sites.old) server }
    requires storable { IsStorable HasLogSpelling log_spelling logged.now }
    ensures ok { OnOk result (GoesOn K.kept sites.old sites.new server
        (λ c d. d ≡ with_dropped tx positions.now
        (put_at c Log 0 (b64 pos) (Some (log_spelling logged.now))))) }
    ensures fault { IfErr result (FailsToWrite K.kept sites.old sites.new) }
{
    sites.put::<LogRecord>(alloc, server, Table0, &pos, logged)?;
    drop_changes(sites, alloc, server, tx, positions)?;
    Ok(())
}

/// Takes a change, if its table is defined, it fits there, and the log has room. Its table then is
/// known.
fn take_change<K: Keeper>(
    sites: &mut Sites<K>,
    alloc: Global,
    server: u32,
    head: &Head,
    tx: u32,
    change: &Change,
    logged: &LogRecord,
    known: &mut Option<SharedTable>,
) -> Result<Outcome, Fault>
    requires server { server < length (names sites.old) }
    requires open { IsOpenAt (work K.kept sites.old) server }
    requires is { logged.now ≡ LogRecord.Change tx change.now }
    requires typed { IsLogRecord logged.now }
    ensures ok { IfOk result (λ outcome. GoesOn K.kept sites.old sites.new server
        (TakesKnowing known.old known.new head.now logged.now outcome)) }
    ensures room { IfOk result (HasRoom head.now) }
    ensures fault { IfErr result (Breaks rules K.kept sites.old sites.new server) }
{
    let found = find_table(sites, alloc, server, table_of(change), known)?;
    let Some(table) = found else {
        return Ok(Outcome::NotApplicable);
    };
    if !may_stand(alloc, &table.get().def, change)? {
        return Ok(Outcome::NotApplicable);
    }
    if !has_room(head) {
        return Ok(Outcome::Full);
    }
    put_change(sites, alloc, server, tx, head.last + 1, logged)?;
    *known = Some(table);
    Ok(Outcome::Taken)
}

/// Takes an abort, if the log has room.
fn take_abort<K: Keeper>(
    sites: &mut Sites<K>,
    alloc: Global,
    server: u32,
    head: &Head,
    tx: u32,
    logged: &LogRecord,
) -> Result<Outcome, Fault>
    requires server { server < length (names sites.old) }
    requires open { IsOpenAt (work K.kept sites.old) server }
    requires is { logged.now ≡ LogRecord.Abort tx }
    requires typed { IsLogRecord logged.now }
    ensures ok { IfOk result (λ outcome. GoesOn K.kept sites.old sites.new server
        (TakesRecord head.now logged.now outcome)) }
    ensures room { IfOk result (HasRoom head.now) }
    ensures fault { IfErr result (Breaks rules K.kept sites.old sites.new server) }
{
    if !has_room(head) {
        return Ok(Outcome::Full);
    }
    let positions = positions_of(sites, alloc, server, tx)?;
    put_end(
        sites,
        alloc,
        server,
        tx,
        head.last + 1,
        logged,
        positions.as_slice(),
    )?;
    Ok(Outcome::Taken)
}

/// Takes a commit, if its time isn't below that of the last one, its changes apply, and the log has
/// room.
fn take_commit<K: Keeper>(
    sites: &mut Sites<K>,
    alloc: Global,
    server: u32,
    head: &Head,
    tx: u32,
    time: u64,
    logged: &LogRecord,
    known: &mut Option<SharedTable>,
) -> Result<Outcome, Fault>
    requires server { server < length (names sites.old) }
    requires open { IsOpenAt (work K.kept sites.old) server }
    requires is { IsCommit tx time logged.now }
    requires typed { IsLogRecord logged.now }
    ensures ok { IfOk result (λ outcome. GoesOn K.kept sites.old sites.new server
        (TakesKnowing known.old known.new head.now logged.now outcome)) }
    ensures room { IfOk result (HasRoom head.now) }
    ensures fault { IfErr result (Breaks rules K.kept sites.old sites.new server) }
{
    if time < head.time {
        return Ok(Outcome::NotApplicable);
    }
    let positions = positions_of(sites, alloc, server, tx)?;
    let steps = read_steps(sites, alloc, server, tx, positions.as_slice(), known)?;
    let outcome = make_all(sites, alloc, server, has_room(head), steps.as_slice())?;
    let Outcome::Taken = outcome else {
        return Ok(outcome);
    };
    put_end(
        sites,
        alloc,
        server,
        tx,
        head.last + 1,
        logged,
        positions.as_slice(),
    )?;
    Ok(Outcome::Taken)
}

/// Takes a record, if it is applicable and the log has room, and answers what becomes of it. A
/// table may be known, and afterwards the last one that was read is.
pub fn take_record<K: Keeper>(
    sites: &mut Sites<K>,
    alloc: Global,
    server: u32,
    head: &Head,
    logged: &LogRecord,
    known: &mut Option<SharedTable>,
) -> Result<Outcome, Fault>
    requires server { server < length (names sites.old) }
    requires open { IsOpenAt (work K.kept sites.old) server }
    requires typed { IsLogRecord logged.now }
    ensures ok { IfOk result (λ outcome. GoesOn K.kept sites.old sites.new server
        (TakesKnowing known.old known.new head.now logged.now outcome)) }
    ensures room { IfOk result (HasRoom head.now) }
    ensures fault { IfErr result (Breaks rules K.kept sites.old sites.new server) }
{
    match logged {
        LogRecord::Change { tx, change } => {
            take_change(sites, alloc, server, head, *tx, change, logged, known)
        }
        LogRecord::Commit { tx, time, .. } => {
            take_commit(sites, alloc, server, head, *tx, *time, logged, known)
        }
        LogRecord::Abort { tx } => {
            let outcome = take_abort(sites, alloc, server, head, *tx, logged)?;
            Ok(outcome)
        }
    }
}
