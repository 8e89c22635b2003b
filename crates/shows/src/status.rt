//! How far a read-only set is.

ghost use Rattle.std.specs.Prelude.{◌≡◌, ◌≤◌, if◌then◌else◌, Some, None, IsTrue, not};
ghost use Rattle.std.specs.Prelude.{OnOk, OnErr, IfOk, IfErr};
ghost use Rattle.keep_core.specs.Revealed.{Takes, TakesPrefix};
ghost use Rattle.repl_model.specs.Rules.{is_replica_set};
ghost use Rattle.reply_text.specs.declared.reply.Reply.TheVariants.{ReadOnlySet};
ghost use Rattle.reply_text.specs.Replies.{reply_line};
ghost use Rattle.site_store.specs.Damage.{Damages, IsNoDamage};
ghost use Rattle.site_store.specs.Servers.{AllClosed};
ghost use Rattle.site_store.specs.Views.{names, work};
ghost use Rattle.site_store.specs.one_server.Calls.{Looks, Stops};
ghost use Rattle.set_places.specs.Places.{IsPlaced, ForSet};
ghost use Rattle.shows.specs.servers.Showing.{IsUndamagedShow};
ghost use Rattle.shows.specs.tables.Showing.{IsOutputFault};
ghost use Rattle.shows.specs.sets.Replies.{status_of_set, set_line};
ghost use Rattle.shows.specs.sets.Rules.{ShowsDamage};
ghost use Rattle.shows.specs.sets.Showing.{FailsShowing};

use keep_core::{Keeper, ReadError, Sink, write_line};
use prune_control::read_mark;
use repl_types::{Fault, ShowError};
use reply_text::{ReadOnlyStatus, Reply, write_reply};
use set_places::PlacedSet;
use site_store::Sites;
use std::alloc::Global;
use subs_sets::read_only_state;

/// A point of the targets of a set, if they were ever refreshed.
fn if_refreshed(has_points: bool, point: u64) -> Option<u64>
    ensures { result ≡ (if has_points then Some point else None) }
{
    if has_points { Some(point) } else { None }
}

/// How far a read-only set is. After a fault no transaction is open at any server.
fn read_status<K: Keeper>(
    sites: &mut Sites<K>,
    alloc: Global,
    set: &PlacedSet,
) -> Result<ReadOnlyStatus, Fault>
    requires placed { IsPlaced K.kept sites.old set.now }
    requires read_only { IsTrue (not (is_replica_set set.now.at_target.def)) }
    requires closed { AllClosed (work K.kept sites.old) }
    ensures ok { OnOk result (Looks K.kept sites.old sites.new) }
    ensures status { IfOk result (λ status. ForSet K.kept sites.old set.now (λ w k.
        status ≡ status_of_set k)) }
    ensures fault { IfErr result (Stops K.kept sites.old sites.new (ShowsDamage K.kept sites.old)) }
    ensures closed { OnErr result (AllClosed (work K.kept sites.new)) }
    ensures undamaged { IfErr result (λ e. ForSet K.kept sites.old set.now (λ w k. IsNoDamage e)) }
{
    let state = read_only_state(sites, alloc, set)?;
    let known = read_mark(sites, alloc, set)?;
    Ok(ReadOnlyStatus {
        set: set.at_target.def.id.clone()?,
        synchpoint: if_refreshed(state.has_points, state.synchpoint),
        base: if_refreshed(state.has_points, state.base),
        flag: state.flag,
        entries: state.entries,
        mark: known.mark,
    })
}

/// Writes the line that says how far a read-only set is.
fn write_status<O: Sink>(
    output: &mut O,
    alloc: Global,
    status: ReadOnlyStatus,
) -> Result<(), ShowError>
    ensures ok { OnOk result (Takes (O.taken output.old) (O.taken output.new)
        (reply_line (ReadOnlySet status))) }
    ensures err { OnErr result (TakesPrefix (O.taken output.old) (O.taken output.new)
        (reply_line (ReadOnlySet status))) }
    ensures cause { IfErr result (IsOutputFault (O.faults output.old) (O.faults output.new)) }
    ensures counts { O.faults output.old ≤ O.faults output.new }
{
    let mut line = Vec::new(alloc);
    write_reply(&Reply::ReadOnlySet(status), &mut line)?;
    match write_line(output, &line) {
        Ok(()) => Ok(()),
        Err(ReadError::Memory) => Err(ShowError::Fault(Fault::Memory)),
        Err(ReadError::Failed) => Err(ShowError::Output),
    }
}

/// Writes the line that says how far a read-only set is. All is read before the first byte is
/// written, and nothing is changed.
///
/// After an error no transaction is open at any server.
pub fn show_set<K: Keeper, O: Sink>(
    sites: &mut Sites<K>,
    alloc: Global,
    output: &mut O,
    set: &PlacedSet,
) -> Result<(), ShowError>
    requires placed { IsPlaced K.kept sites.old set.now }
    requires read_only { IsTrue (not (is_replica_set set.now.at_target.def)) }
    requires closed { AllClosed (work K.kept sites.old) }
    ensures stays { OnOk result (Looks K.kept sites.old sites.new) }
    ensures ok { OnOk result (ForSet K.kept sites.old set.now (λ w k.
        Takes (O.taken output.old) (O.taken output.new) (set_line k))) }
    ensures err { OnErr result (ForSet K.kept sites.old set.now (λ w k.
        TakesPrefix (O.taken output.old) (O.taken output.new) (set_line k))) }
    ensures fault { IfErr result (FailsShowing K.kept sites.old sites.new
        (ShowsDamage K.kept sites.old) (O.faults output.old) (O.faults output.new)) }
    ensures undamaged { IfErr result (λ e. ForSet K.kept sites.old set.now (λ w k.
        IsUndamagedShow e)) }
    ensures counts { O.faults output.old ≤ O.faults output.new }
{
    let status = read_status(sites, alloc, set)?;
    write_status(output, alloc, status)?;
    Ok(())
}
