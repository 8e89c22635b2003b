//! One more unit of the program's own is appended, inside an open transaction.

ghost use Rattle.std.specs.Prelude.{◌≡◌, ◌<◌, ◌+◌, [], ◌∷◌, Some, length, nat_le};
ghost use Rattle.std.specs.Prelude.{OnOk, IfOk, IfErr};
ghost use Rattle.std.specs.List.{AllByRecursion};
ghost use Rattle.repl_model.specs.Applicable.{is_signal as is_signal_lem};
ghost use Rattle.repl_model.specs.SoundLogs.{log_limit};
ghost use Rattle.repl_model.specs.World.{Server};
ghost use Rattle.keep_core.specs.Contents.{Contents};
ghost use Rattle.site_store.specs.Views.{names, work, sees, IsOpenAt};
ghost use Rattle.site_store.specs.one_server.Calls.{GoesOn, Stops, FailsToWrite};
ghost use Rattle.source_log.specs.Units.{own_change, own_commit, MayBePut, MayAppendUnit};
ghost use Rattle.source_log.specs.Units.{MakesOwn, PutsOwn, PutsChanges, PutsCommit};
ghost use Rattle.source_log.specs.Units.{AppendsUnit, AppendsIfRoom, IsFullFor, FailsUnit};
ghost use Rattle.source_log.specs.Units.{ShowsBadTable, ShowsUnitDamage};
ghost use Rattle.source_log.specs.Units.{ChangesFit, IsUndamagedAppend};
ghost use Rattle.source_log.specs.Storing.{StoresWhole};

use crate::appending::read_end;
use crate::fitting::may_stand;
use crate::source::make_change;
use crate::taking::LOG_LIMIT;
use keep_core::Keeper;
use repl_definitions::DefinedTable;
use repl_records::{Head, Single};
use repl_types::{AppendError, Change, Fault, LogRecord, Placed, Unit, UnitHead};
use row_changes::table_of;
use row_codec::Table0;
use site_store::Sites;
use std::alloc::{AllocError, Global};

/// The program's own transaction.
const OWN: u32 = 0;

/// Whether a change starts or stops a registration.
fn is_signal(change: &Change) -> bool
    ensures { result ≡ is_signal_lem change.now }
{
    match change {
        Change::Insert { .. } | Change::Update { .. } | Change::Delete { .. } => false,
        Change::Start { .. } | Change::Stop { .. } => true,
    }
}

/// Whether the log has room for so many changes and their commit.
fn has_room_for(head: &Head, changes: usize) -> bool
    ensures { result ≡ nat_le (head.now.last + changes + 1) log_limit }
{
    head.last < LOG_LIMIT && (changes as u64) < LOG_LIMIT - head.last
}

/// A change as a record of the program's own.
fn change_record(placed: &Placed) -> Result<LogRecord, AllocError>
    ensures { IfOk result (λ r. r ≡ own_change placed.now) }
{
    Ok(LogRecord::Change {
        tx: OWN,
        change: placed.change.clone()?,
    })
}

/// The record that ends a unit of the program's own.
fn commit_record(head: &UnitHead) -> Result<LogRecord, AllocError>
    ensures { IfOk result (λ r. r ≡ own_commit head.now) }
{
    Ok(LogRecord::Commit {
        tx: OWN,
        time: head.time,
        authid: head.authid.clone()?,
        origin: head.origin.clone()?,
    })
}

/// Makes a change in the source, at its table. There is nothing to make of a start or a stop.
fn make_own<K: Keeper>(
    sites: &mut Sites<K>,
    alloc: Global,
    server: u32,
    placed: &Placed,
) -> Result<(), Fault>
    requires server { server < length (names sites.old) }
    requires open { IsOpenAt (work K.kept sites.old) server }
    requires record { MayBePut (own_change placed.now) }
    ensures ok { OnOk result (GoesOn K.kept sites.old sites.new server
        (MakesOwn placed.now.change)) }
    ensures fault { IfErr result (Stops K.kept sites.old sites.new
        (ShowsBadTable K.kept sites.old server (placed.now ∷ []))) }
{
    let change = &placed.change;
    if is_signal(change) {
        return Ok(());
    }
    let table = sites.get_needed::<DefinedTable>(alloc, server, Table0, table_of(change))?;
    let fit = may_stand(alloc, &table.def, change)?;
    if !fit {
        return Err(sites.unfit::<DefinedTable>(alloc, server, &table));
    }
    make_change(sites, alloc, server, &table, change)?;
    Ok(())
}

/// Puts a change into the log at a position, and makes it in the source.
fn put_own<K: Keeper>(
    sites: &mut Sites<K>,
    alloc: Global,
    server: u32,
    pos: u64,
    placed: &Placed,
) -> Result<(), Fault>
    requires server { server < length (names sites.old) }
    requires open { IsOpenAt (work K.kept sites.old) server }
    requires record { MayBePut (own_change placed.now) }
    ensures ok { OnOk result (GoesOn K.kept sites.old sites.new server (PutsOwn pos placed.now)) }
    ensures fault { IfErr result (Stops K.kept sites.old sites.new
        (ShowsBadTable K.kept sites.old server (placed.now ∷ []))) }
{
    let logged = change_record(placed)?;
    sites.put::<LogRecord>(alloc, server, Table0, &pos, &logged)?;
    make_own(sites, alloc, server, placed)?;
    Ok(())
}

/// Puts changes into the log after its last position, one after another, and makes each.
fn put_changes<K: Keeper>(
    sites: &mut Sites<K>,
    alloc: Global,
    server: u32,
    last: u64,
    changes: &[Placed],
) -> Result<(), Fault>
    requires server { server < length (names sites.old) }
    requires open { IsOpenAt (work K.kept sites.old) server }
    requires records { AllByRecursion (λ placed. MayBePut (own_change placed)) changes.now }
    requires room { last + length changes.now < log_limit }
    ensures ok { OnOk result (GoesOn K.kept sites.old sites.new server
        (PutsChanges last changes.now)) }
    ensures fault { IfErr result (Stops K.kept sites.old sites.new
        (ShowsBadTable K.kept sites.old server changes.now)) }
{
    'changes: for (done, placed) in changes.iter().enumerate() {
        put_own(sites, alloc, server, last + done as u64 + 1, placed)?;
    }
    Ok(())
}

/// Puts the commit of a unit into the log at a position, and the end of the log.
fn put_commit<K: Keeper>(
    sites: &mut Sites<K>,
    alloc: Global,
    server: u32,
    pos: u64,
    head: &UnitHead,
) -> Result<(), Fault>
    requires server { server < length (names sites.old) }
    requires open { IsOpenAt (work K.kept sites.old) server }
    requires record { MayBePut (own_commit head.now) }
    ensures ok { OnOk result (GoesOn K.kept sites.old sites.new server (PutsCommit pos head.now)) }
    ensures fault { IfErr result (FailsToWrite K.kept sites.old sites.new) }
{
    let logged = commit_record(head)?;
    sites.put::<LogRecord>(alloc, server, Table0, &pos, &logged)?;
    let end = Head {
        last: pos,
        commit: pos,
        time: head.time,
    };
    sites.put::<Head>(alloc, server, Table0, &Single, &end)?;
    Ok(())
}

/// Appends a unit if the log has room for it, and answers its seq.
fn put_unit<K: Keeper>(
    sites: &mut Sites<K>,
    alloc: Global,
    server: u32,
    unit: &Unit,
) -> Result<Option<u64>, Fault>
    requires server { server < length (names sites.old) }
    requires open { IsOpenAt (work K.kept sites.old) server }
    requires records { MayAppendUnit unit.now }
    ensures ok { IfOk result (λ seq. GoesOn K.kept sites.old sites.new server
        (AppendsIfRoom unit.now seq)) }
    ensures fault { IfErr result (Stops K.kept sites.old sites.new
        (ShowsUnitDamage K.kept sites.old server unit.now)) }
{
    let head = read_end(sites, alloc, server)?;
    let changes = unit.changes.as_slice();
    if !has_room_for(&head, changes.len()) {
        return Ok(None);
    }
    put_changes(sites, alloc, server, head.last, changes)?;
    let seq = head.last + changes.len() as u64 + 1;
    put_commit(sites, alloc, server, seq, &unit.head)?;
    Ok(Some(seq))
}

/// Appends one more unit of the program's own at the log of a server, inside its open transaction,
/// and answers the unit's seq there.
///
/// Its changes are put into the log one after another, and made in the source, and then its commit.
/// A start or a stop makes nothing there. The positions, the seq and the code that the unit carries
/// aren't read. If the log has no room for all records of the unit, nothing is put, and the answer
/// is `LogFull(0)`. The table of each other change has to be one at which the change may stand: it
/// is damage if it isn't. After a fault no transaction is open at any server.
pub fn append_unit<K: Keeper>(
    sites: &mut Sites<K>,
    alloc: Global,
    server: u32,
    unit: &Unit,
) -> Result<u64, AppendError>
    requires server { server < length (names sites.old) }
    requires open { IsOpenAt (work K.kept sites.old) server }
    requires records { MayAppendUnit unit.now }
    ensures ok { IfOk result (λ seq. GoesOn K.kept sites.old sites.new server
        (AppendsUnit unit.now seq)) }
    ensures full { IfErr result (IsFullFor K.kept sites.old sites.new server unit.now) }
    ensures fault { IfErr result (FailsUnit K.kept sites.old sites.new server unit.now) }
    ensures undamaged { IfErr result (λ e. (s : Server) (c : Contents)
        → sees K.kept sites.old server ≡ Some c → StoresWhole s c → ChangesFit s unit.now
        → IsUndamagedAppend e) }
{
    match put_unit(sites, alloc, server, unit) {
        Ok(Some(seq)) => Ok(seq),
        Ok(None) => Err(AppendError::LogFull(0)),
        Err(e) => {
            sites.rollback_all();
            Err(AppendError::Fault(e))
        }
    }
}
