//! A refresh of a read-only set is asked for.

ghost use Rattle.std.specs.Prelude.{true, IsTrue, not, OnOk, IfErr};
ghost use Rattle.site_store.specs.Calls.{KeepsServers};
ghost use Rattle.site_store.specs.Servers.{AllClosed};
ghost use Rattle.site_store.specs.Views.{work};
ghost use Rattle.repl_model.specs.Rules.{is_replica_set as is_replica_set_lem};
ghost use Rattle.world_commits.specs.actions.Flags.{with_flag};
ghost use Rattle.set_places.specs.Places.{IsPlacedAtTarget, ForSet};
ghost use Rattle.set_places.specs.Steps.{HasBecome, MayHaveBecome, CommitsStep, MayCommitStep};
ghost use Rattle.set_places.specs.Reading.{ReadsOnly};
ghost use Rattle.subs_sets.specs.Flagging.{PutsFlag, ShowsStateDamage, IsBlamed};
ghost use Rattle.subs_sets.specs.Rules.{is_read};

use crate::states::{is_replica_set, read_only_state};
use keep_core::Keeper;
use repl_records::SetState;
use repl_types::{Fault, GapPlace, Refusal};
use row_codec::Table0;
use set_places::PlacedSet;
use site_store::Sites;
use std::alloc::Global;

/// Puts the state of a read-only set with its flag set, and commits it.
fn put_flag<K: Keeper>(sites: &mut Sites<K>, alloc: Global, set: &PlacedSet) -> Result<(), Fault>
    requires placed { IsPlacedAtTarget K.kept sites.old set.now }
    requires read_only { IsTrue (not (is_replica_set_lem set.now.at_target.def)) }
    requires closed { AllClosed (work K.kept sites.old) }
    ensures ok { OnOk result (CommitsStep K.kept sites.old sites.new set.now.target
        (PutsFlag set.now)) }
    ensures fault { IfErr result (MayCommitStep K.kept sites.old sites.new set.now.target
        (PutsFlag set.now) (ShowsStateDamage K.kept sites.old set.now.target)) }
    ensures reads { ReadsOnly is_read K.kept sites.old sites.new }
{
    sites.begin(set.target)?;
    let known = read_only_state(sites, alloc, set)?;
    let state = SetState::ReadOnly {
        has_points: known.has_points,
        synchpoint: known.synchpoint,
        time: known.time,
        base: known.base,
        flag: true,
        entries: known.entries,
    };
    let number = set.at_target.number;
    sites.put::<SetState>(alloc, set.target, Table0, &number, &state)?;
    sites.commit(set.target)?;
    Ok(())
}

/// Asks for a refresh of a read-only set: the set's flag is set at its target, in one commit, also
/// if it was set before. All else stays. It is refused only for a replica set, and then nothing is
/// changed.
///
/// After a fault the flag is as it was; but if the commit failed, it may be set.
pub fn flag<K: Keeper>(sites: &mut Sites<K>, alloc: Global, set: &PlacedSet) -> Result<(), Fault>
    requires placed { IsPlacedAtTarget K.kept sites.old set.now }
    requires closed { AllClosed (work K.kept sites.old) }
    ensures ok { OnOk result (ForSet K.kept sites.old set.now (λ w k.
        HasBecome K.kept sites.old sites.new (with_flag true w k))) }
    ensures read_only { OnOk result (IsTrue (not (is_replica_set_lem set.now.at_target.def))) }
    ensures fault { IfErr result (λ e. ForSet K.kept sites.old set.now (λ w k.
        MayHaveBecome K.kept sites.old sites.new w (with_flag true w k) e)) }
    ensures blames { IfErr result (IsBlamed K.kept sites.old sites.new set.now) }
    ensures servers { KeepsServers K.kept sites.old sites.new }
    ensures reads { ReadsOnly is_read K.kept sites.old sites.new }
{
    if is_replica_set(&set.at_target.def) {
        let id = set.at_target.def.id.clone()?;
        return Err(Fault::Refused(Refusal::RefreshDisabled(GapPlace::Replica(id))));
    }
    put_flag(sites, alloc, set)?;
    Ok(())
}
