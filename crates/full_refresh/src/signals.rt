//! The signal of a read-only set.

ghost use Rattle.std.specs.Prelude.{◌≡◌, ◌<◌, length, OnErr, IfOk, IfErr};
ghost use Rattle.repl_model.specs.AfterActions.{after_action};
ghost use Rattle.repl_model.specs.NextActions.{signals};
ghost use Rattle.site_store.specs.Calls.{KeepsServers};
ghost use Rattle.site_store.specs.Damage.{IsNoDamage};
ghost use Rattle.site_store.specs.Servers.{AllClosed};
ghost use Rattle.site_store.specs.Views.{names, held, work, sees, IsOpenAt};
ghost use Rattle.site_store.specs.one_server.Calls.{GoesOn, Stops};
ghost use Rattle.source_log.specs.Units.{MayAppendUnit, AppendsIfRoom, ShowsUnitDamage};
ghost use Rattle.set_places.specs.Places.{IsPlaced, ForSet};
ghost use Rattle.set_places.specs.Steps.{MayHaveBecome, BlamesUnchanged};
ghost use Rattle.full_refresh.specs.Signals.{HasSignalled, ShowsDamage};
ghost use Rattle.full_refresh.specs.PutSignals.{IfWhole, HasPutSignal, MayHavePutSignal};

use crate::signal_unit::signal_unit;
use keep_core::Keeper;
use prune_control::read_mark;
use repl_records::SyncMark;
use repl_types::{AppendError, Fault, Unit};
use row_codec::Table0;
use set_places::PlacedSet;
use site_store::Sites;
use source_log::{append_unit, last_commit};
use std::alloc::Global;

/// Appends a unit inside the open transaction, and answers its seq, or `None` if the log is full.
fn append<K: Keeper>(
    sites: &mut Sites<K>,
    alloc: Global,
    server: u32,
    unit: &Unit,
) -> Result<Option<u64>, Fault>
    requires server { server < length (names sites.old) }
    requires open { IsOpenAt (work K.kept sites.old) server }
    requires records { MayAppendUnit unit.now }
    ensures ok { IfOk result (λ seq. GoesOn K.kept sites.old sites.new server
        (AppendsIfRoom unit.now seq)) }
    ensures fault { IfErr result (Stops K.kept sites.old sites.new
        (ShowsUnitDamage K.kept sites.old server unit.now)) }
    ensures undamaged { IfErr result (λ e. IfWhole (sees K.kept sites.old server) unit.now
        (IsNoDamage e)) }
    ensures closed { OnErr result (AllClosed (work K.kept sites.new)) }
{
    match append_unit(sites, alloc, server, unit) {
        Ok(seq) => Ok(Some(seq)),
        Err(AppendError::LogFull(_)) => Ok(None),
        Err(AppendError::Fault(e)) => Err(e),
        Err(AppendError::NotApplicable(_)) => unreachable!(),
    }
}

/// Appends the unit of a set's signal, stores its seq, and commits both. If the log is full,
/// nothing is changed.
fn put_signal<K: Keeper>(
    sites: &mut Sites<K>,
    alloc: Global,
    set: &PlacedSet,
    known: SyncMark,
    unit: &Unit,
) -> Result<Option<u64>, Fault>
    requires server { set.now.source < length (names sites.old) }
    requires closed { AllClosed (work K.kept sites.old) }
    requires records { MayAppendUnit unit.now }
    ensures ok { IfOk result (HasPutSignal K.kept sites.old sites.new set.now known unit.now) }
    ensures fault { IfErr result (MayHavePutSignal K.kept sites.old sites.new set.now known
        unit.now) }
    ensures undamaged { IfErr result (λ e. IfWhole (sees K.kept sites.old set.now.source) unit.now
        (IsNoDamage e)) }
{
    sites.begin(set.source)?;
    let Some(seq) = append(sites, alloc, set.source, unit)? else {
        sites.rollback(set.source);
        return Ok(None);
    };
    let mark = SyncMark {
        mark: known.mark,
        signal: seq,
    };
    sites.put::<SyncMark>(alloc, set.source, Table0, &set.at_source.number, &mark)?;
    sites.commit(set.source)?;
    Ok(Some(seq))
}

/// Appends a unit at the source of a read-only set that starts the registrations of its members,
/// and stores its seq as the set's last signal, in one commit. It answers the seq, or `None` if the
/// log has no room for the unit, and then nothing is changed.
///
/// After a fault nothing is changed; but if the commit failed, it may have taken place. What is
/// said of a world holds if the servers stand for it.
pub fn signal_step<K: Keeper>(
    sites: &mut Sites<K>,
    alloc: Global,
    set: &PlacedSet,
) -> Result<Option<u64>, Fault>
    requires placed { IsPlaced K.kept sites.old set.now }
    requires closed { AllClosed (work K.kept sites.old) }
    ensures ok { IfOk result (λ seq. ForSet K.kept sites.old set.now (λ w k.
        HasSignalled K.kept sites.old sites.new w k seq)) }
    ensures fault { IfErr result (λ e. ForSet K.kept sites.old set.now (λ w k.
        MayHaveBecome K.kept sites.old sites.new w (after_action w k signals) e)) }
    ensures blames { IfErr result (BlamesUnchanged K.kept sites.old sites.new
        (ShowsDamage K.kept sites.old set.now)) }
    ensures same { result ≡ Ok None → held K.kept sites.new ≡ held K.kept sites.old }
    ensures servers { KeepsServers K.kept sites.old sites.new }
{
    let known = read_mark(sites, alloc, set)?;
    let head = last_commit(sites, alloc, set.source)?;
    let unit = signal_unit(alloc, &set.at_source.def, head.time)?;
    let seq = put_signal(sites, alloc, set, known, &unit)?;
    Ok(seq)
}
