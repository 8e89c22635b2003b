//! How far a set is at its target.

ghost use Rattle.std.specs.Prelude.{◌≡◌, IsTrue, not, OnOk, OnErr, IfOk, IfErr, IfSome};
ghost use Rattle.repl_types.specs.declared.area.Area.TheVariants as areas;
ghost use Rattle.repl_records.specs.SetState.{IsState};
ghost use Rattle.repl_records.specs.Trail.{IsEntry};
ghost use Rattle.repl_model.specs.Rules.{is_replica_set as is_replica_set_lem};
ghost use Rattle.site_store.specs.Calls.{Reads};
ghost use Rattle.site_store.specs.Servers.{AllClosed};
ghost use Rattle.site_store.specs.Views.{sees, work};
ghost use Rattle.site_store.specs.one_server.Calls.{Looks, Breaks};
ghost use Rattle.set_places.specs.Places.{IsPlacedAtTarget};
ghost use Rattle.set_places.specs.Members.{ForTarget};
ghost use Rattle.set_places.specs.Reading.{ReadsOnly};
ghost use Rattle.world_store.specs.TargetRows.{state_of};
ghost use Rattle.subs_sets.specs.States.{first_state_of, HasState, AbsentAreZero, state_in, entry_at};
ghost use Rattle.subs_sets.specs.Rules.{is_read, state_rules};

use keep_core::Keeper;
use repl_definitions::{SetDef, TargetKind};
use repl_records::{SetState, TrailEntry};
use repl_types::Fault;
use row_codec::Table0;
use set_places::PlacedSet;
use site_store::Sites;
use std::alloc::Global;

/// How far the targets of a read-only set are: whether they were ever refreshed, the point of the
/// source that they are copies of and the time of that commit in seconds, the point of the last
/// refresh, whether a refresh was asked for, and the number of entries in the trail.
#[derive(Clone, Copy, Debug, PartialEq, Eq)]
pub struct ReadOnlyState {
    pub has_points: bool,
    pub synchpoint: u64,
    pub time: u64,
    pub base: u64,
    pub flag: bool,
    pub entries: u64,
}

/// Whether a set is a replica set.
pub fn is_replica_set(def: &SetDef) -> bool
    ensures { result ≡ is_replica_set_lem def.now }
{
    let members = def.members.as_slice();
    members
        .iter()
        .any(|member| member.kind == TargetKind::Replica)
}

/// What a missing state of a set stands for.
fn first_state(def: &SetDef) -> SetState
    ensures { result ≡ first_state_of def.now }
{
    if is_replica_set(def) {
        SetState::Replica {
            has_points: false,
            m: 0,
            f: 0,
            signal: 0,
            entries: 0,
        }
    } else {
        SetState::ReadOnly {
            has_points: false,
            synchpoint: 0,
            time: 0,
            base: 0,
            flag: false,
            entries: 0,
        }
    }
}

/// The record of how far a set is at its target, or what a missing one stands for.
fn stored_state<K: Keeper>(
    sites: &mut Sites<K>,
    alloc: Global,
    set: &PlacedSet,
) -> Result<SetState, Fault>
    requires placed { IsPlacedAtTarget K.kept sites.old set.now }
    ensures ok { OnOk result (Reads K.kept sites.old sites.new set.now.target areas.SetState) }
    ensures stands { IfOk result (λ state. IfSome (sees K.kept sites.old set.now.target)
        (HasState set.now.at_target state)) }
    ensures fits { IfOk result IsState }
    ensures fault { IfErr result (Breaks state_rules K.kept sites.old sites.new set.now.target) }
    ensures reads { ReadsOnly is_read K.kept sites.old sites.new }
{
    let number = set.at_target.number;
    let first = first_state(&set.at_target.def);
    let state = sites.get_state::<SetState>(alloc, set.target, Table0, &number, first)?;
    Ok(state)
}

/// How far a set is at its target, as it is stored there.
///
/// It reads what the target's open transaction sees, and if none is open, what the target holds.
pub fn set_state<K: Keeper>(
    sites: &mut Sites<K>,
    alloc: Global,
    set: &PlacedSet,
) -> Result<SetState, Fault>
    requires placed { IsPlacedAtTarget K.kept sites.old set.now }
    ensures ok { OnOk result (Looks K.kept sites.old sites.new) }
    ensures fits { IfOk result IsState }
    ensures state { IfOk result (λ state. ForTarget K.kept sites.old set.now (λ w k.
        state ≡ state_of w k.at_target)) }
    ensures fault { IfErr result (Breaks state_rules K.kept sites.old sites.new set.now.target) }
    ensures reads { ReadsOnly is_read K.kept sites.old sites.new }
{
    let state = stored_state(sites, alloc, set)?;
    Ok(state)
}

/// How far a read-only set is at its target, as it is stored there. It is damage if the state of a
/// replica set stands there.
fn stored_points<K: Keeper>(
    sites: &mut Sites<K>,
    alloc: Global,
    set: &PlacedSet,
) -> Result<ReadOnlyState, Fault>
    requires placed { IsPlacedAtTarget K.kept sites.old set.now }
    requires read_only { IsTrue (not (is_replica_set_lem set.now.at_target.def)) }
    ensures ok { OnOk result (Looks K.kept sites.old sites.new) }
    ensures state { IfOk result (λ state. ForTarget K.kept sites.old set.now (λ w k.
        state ≡ state_in w k)) }
    ensures zeros { IfOk result AbsentAreZero }
    ensures fault { IfErr result (Breaks state_rules K.kept sites.old sites.new set.now.target) }
    ensures reads { ReadsOnly is_read K.kept sites.old sites.new }
{
    let state = stored_state(sites, alloc, set)?;
    match state {
        SetState::ReadOnly {
            has_points,
            synchpoint,
            time,
            base,
            flag,
            entries,
        } => Ok(ReadOnlyState {
            has_points,
            synchpoint,
            time,
            base,
            flag,
            entries,
        }),
        SetState::Replica { .. } => Err(sites.unfit::<SetState>(alloc, set.target, &state)),
    }
}

/// How far a read-only set is at its target. It is damage if the state of a replica set stands
/// there.
///
/// It reads what the target's open transaction sees, and if none is open, what the target holds.
/// After a fault no transaction is open at any server.
pub fn read_only_state<K: Keeper>(
    sites: &mut Sites<K>,
    alloc: Global,
    set: &PlacedSet,
) -> Result<ReadOnlyState, Fault>
    requires placed { IsPlacedAtTarget K.kept sites.old set.now }
    requires read_only { IsTrue (not (is_replica_set_lem set.now.at_target.def)) }
    ensures ok { OnOk result (Looks K.kept sites.old sites.new) }
    ensures state { IfOk result (λ state. ForTarget K.kept sites.old set.now (λ w k.
        state ≡ state_in w k)) }
    ensures zeros { IfOk result AbsentAreZero }
    ensures fault { IfErr result (Breaks state_rules K.kept sites.old sites.new set.now.target) }
    ensures closed { OnErr result (AllClosed (work K.kept sites.new)) }
    ensures reads { ReadsOnly is_read K.kept sites.old sites.new }
{
    match stored_points(sites, alloc, set) {
        Ok(state) => Ok(state),
        Err(e) => {
            sites.rollback_all();
            Err(e)
        }
    }
}

/// The entry of a set's trail with a number, which counts from 1, if there is one.
///
/// It reads what the target's open transaction sees, and if none is open, what the target holds.
pub fn trail_entry<K: Keeper>(
    sites: &mut Sites<K>,
    alloc: Global,
    set: &PlacedSet,
    number: u64,
) -> Result<Option<TrailEntry>, Fault>
    requires placed { IsPlacedAtTarget K.kept sites.old set.now }
    ensures ok { OnOk result (Looks K.kept sites.old sites.new) }
    ensures fits { IfOk result (λ found. IfSome found IsEntry) }
    ensures found { IfOk result (λ found. ForTarget K.kept sites.old set.now (λ w k.
        found ≡ entry_at w k number)) }
    ensures fault { IfErr result (Breaks state_rules K.kept sites.old sites.new set.now.target) }
    ensures reads { ReadsOnly is_read K.kept sites.old sites.new }
{
    let table = set.at_target.number;
    let found = sites.get::<TrailEntry>(alloc, set.target, table, &number)?;
    Ok(found)
}
