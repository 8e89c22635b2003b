//! The changes that a transaction has in flight, read from the log.

ghost use Rattle.std.specs.Prelude.{◌≡◌, ◌<◌, true, None, Some, length, OnOk, IfOk, IfErr};
ghost use Rattle.std.specs.Prelude.{IfSome};
ghost use Rattle.std.specs.List.{AllByRecursion};
ghost use Rattle.row_codec.specs.LogRecords.{IsLogRecord};
ghost use Rattle.site_store.specs.Views.{names, sees};
ghost use Rattle.site_store.specs.one_server.Calls.{Looks, Breaks};
ghost use Rattle.source_log.specs.Fitting.{may_stand as may_stand_lem};
ghost use Rattle.source_log.specs.Making.{StepCanBeMade, IsStepAt, AreSteps};
ghost use Rattle.source_log.specs.Rules.{rules, IsInFlight, IsLogged, HasTable, IsKnown};
ghost use Rattle.source_log.specs.Rules.{IsKeptChange};

use crate::fitting::may_stand;
use crate::shared_table::SharedTable;
use crate::step::Step;
use keep_core::Keeper;
use repl_definitions::DefinedTable;
use repl_records::{InFlight, InFlightKey};
use repl_types::{Change, Fault, List, LogRecord};
use row_changes::table_of;
use row_codec::Table0;
use site_store::Sites;
use std::alloc::{AllocError, Global};

/// The change of a transaction that a record is, if it is one.
fn change_of(tx: u32, logged: LogRecord) -> Option<Change>
    ensures some { IfSome result (λ change. logged ≡ LogRecord.Change tx change) }
    ensures none { result ≡ None → (change : Change) → logged ≡ LogRecord.Change tx change → ⊥ }
{
    match logged {
        LogRecord::Change { tx: own, change } => { if own == tx { Some(change) } else { None } }
        LogRecord::Commit { .. } | LogRecord::Abort { .. } => None,
    }
}

/// The fault of a change in flight for which the log has no change that may stand at its table.
fn stray<K: Keeper>(sites: &mut Sites<K>, alloc: Global, server: u32, tx: u32, pos: u64) -> Fault
    requires server { server < length (names sites.old) }
    requires stray { IfSome (sees K.kept sites.old server) (λ c. IsInFlight tx c pos
        × ((change : Change) → IsKeptChange tx c pos change → ⊥)) }
    ensures { Breaks rules K.kept sites.old sites.new server result }
{
    let key = InFlightKey { tx, pos };
    match sites.get::<InFlight>(alloc, server, Table0, &key) {
        Ok(_) => sites.unfit::<InFlight>(alloc, server, &InFlight),
        Err(e) => e,
    }
}

/// The known table, if there is one and the change may stand there.
fn known_for(
    alloc: Global,
    known: &Option<SharedTable>,
    change: &Change,
) -> Result<Option<SharedTable>, AllocError>
    ensures { IfOk result (λ found. IfSome found (λ table. (known.now ≡ Some table)
        × (may_stand_lem table.def change.now ≡ true))) }
{
    let Some(table) = known else {
        return Ok(None);
    };
    if !may_stand(alloc, &table.get().def, change)? {
        return Ok(None);
    }
    Ok(Some(table.share()?))
}

/// The table of a change that a transaction has in flight at a position. It isn't read if it is
/// known.
fn read_table<K: Keeper>(
    sites: &mut Sites<K>,
    alloc: Global,
    server: u32,
    tx: u32,
    pos: u64,
    change: &Change,
    known: &Option<SharedTable>,
) -> Result<SharedTable, Fault>
    requires server { server < length (names sites.old) }
    requires in_flight { IfSome (sees K.kept sites.old server) (λ c. IsInFlight tx c pos
        × IsLogged tx c pos change.now) }
    requires typed { IsLogRecord (LogRecord.Change tx change.now) }
    ensures ok { OnOk result (Looks K.kept sites.old sites.new) }
    ensures table { IfOk result (λ table. IfSome (sees K.kept sites.old server)
        (λ c. IsKnown known.now c → HasTable c change.now table)) }
    ensures can { IfOk result (λ table. may_stand_lem table.def change.now ≡ true) }
    ensures fault { IfErr result (Breaks rules K.kept sites.old sites.new server) }
{
    let found = known_for(alloc, known, change)?;
    if let Some(shared) = found {
        return Ok(shared);
    }
    let table = sites.get_needed::<DefinedTable>(alloc, server, Table0, table_of(change))?;
    let fit = may_stand(alloc, &table.def, change)?;
    if !fit {
        return Err(stray(sites, alloc, server, tx, pos));
    }
    let read = SharedTable::new(alloc, table)?;
    Ok(read)
}

/// The change that a transaction has in flight at a position, with its table.
fn read_step<K: Keeper>(
    sites: &mut Sites<K>,
    alloc: Global,
    server: u32,
    tx: u32,
    pos: u64,
    known: &Option<SharedTable>,
) -> Result<Step, Fault>
    requires server { server < length (names sites.old) }
    requires in_flight { IfSome (sees K.kept sites.old server) (λ c. IsInFlight tx c pos) }
    ensures ok { OnOk result (Looks K.kept sites.old sites.new) }
    ensures step { IfOk result (λ step. IfSome (sees K.kept sites.old server)
        (λ c. IsKnown known.now c → IsStepAt tx c pos step)) }
    ensures can { IfOk result StepCanBeMade }
    ensures fault { IfErr result (Breaks rules K.kept sites.old sites.new server) }
{
    let logged = sites.get_needed::<LogRecord>(alloc, server, Table0, &pos)?;
    let Some(change) = change_of(tx, logged) else {
        return Err(stray(sites, alloc, server, tx, pos));
    };
    let table = read_table(sites, alloc, server, tx, pos, &change, known)?;
    Ok(Step { table, change })
}

/// The changes that a transaction has in flight at these positions, with their tables, of which the
/// first may be known and the last is known afterwards.
pub fn read_steps<K: Keeper>(
    sites: &mut Sites<K>,
    alloc: Global,
    server: u32,
    tx: u32,
    positions: &[u64],
    known: &mut Option<SharedTable>,
) -> Result<List<Step>, Fault>
    requires server { server < length (names sites.old) }
    requires in_flight { IfSome (sees K.kept sites.old server)
        (λ c. AllByRecursion (IsInFlight tx c) positions.now) }
    ensures ok { OnOk result (Looks K.kept sites.old sites.new) }
    ensures steps { IfOk result (λ steps. IfSome (sees K.kept sites.old server)
        (λ c. IsKnown known.old c → AreSteps tx positions.now steps c × IsKnown known.new c)) }
    ensures can { IfOk result (AllByRecursion StepCanBeMade) }
    ensures fault { IfErr result (Breaks rules K.kept sites.old sites.new server) }
{
    let mut steps = List::new(alloc);
    'positions: for pos in positions {
        let step = read_step(sites, alloc, server, tx, *pos, known)?;
        *known = Some(step.table.share()?);
        steps.push(step)?;
    }
    Ok(steps)
}
