//! A step is put at the target.

ghost use Rattle.std.specs.Prelude.{◌≡◌, ◌<◌, ◌-◌, ◌^◌, length, OnErr, IfOk, IfErr};
ghost use Rattle.repl_records.specs.SetState.{ZeroIfAbsent};
ghost use Rattle.site_store.specs.Damage.{IsNoDamage};
ghost use Rattle.site_store.specs.Servers.{AllClosed};
ghost use Rattle.site_store.specs.Views.{names, work, IsOpenAt, IsClosedAt};
ghost use Rattle.site_store.specs.one_server.Calls.{GoesOn, Stops};
ghost use Rattle.set_places.specs.Places.{IsPlaced, IsPlacedAtSource};
ghost use Rattle.set_places.specs.Steps.{CommitsStep, MayCommitStep};
ghost use Rattle.target_steps.specs.Taking.{ShowsAtEnds, ReadsForStep, CountsReads, sum_of};
ghost use Rattle.target_steps.specs.Taking.{has_base_aggregate as has_base_aggregate_lem};
ghost use Rattle.target_steps.specs.Steps.{state_after as state_after_lem};
ghost use Rattle.target_steps.specs.Steps.{entry_after as entry_after_lem};
ghost use Rattle.target_steps.specs.Steps.{TakesAll, ForMembers, PutsTargets, PutsSomeTargets};

use crate::step::Step;
use crate::targets::Targets;
use keep_core::Keeper;
use repl_definitions::{SetDef, TargetKind};
use repl_records::{SetState, TrailEntry};
use repl_types::{Counts, Fault};
use row_codec::Table0;
use set_places::PlacedSet;
use site_store::Sites;
use std::alloc::Global;
use subs_sets::ReadOnlyState;

/// Two counts together. At the greatest number a count stays.
fn sum(some: Counts, more: Counts) -> Counts
    ensures { result ≡ sum_of some more }
{
    Counts {
        rows: some.rows.saturating_add(more.rows),
        inserts: some.inserts.saturating_add(more.inserts),
        updates: some.updates.saturating_add(more.updates),
        deletes: some.deletes.saturating_add(more.deletes),
    }
}

/// Takes the targets of all members of a set through a step, one after another, and answers what
/// was counted.
fn take_members<K: Keeper, T: Targets<K>>(
    sites: &mut Sites<K>,
    alloc: Global,
    set: &PlacedSet,
    targets: &mut T,
    step: Step,
) -> Result<Counts, Fault>
    requires source { IsPlacedAtSource K.kept sites.old set.now }
    requires target { set.now.target < length (names sites.old) }
    requires open { IsOpenAt (work K.kept sites.old) set.now.target }
    requires closed { IsClosedAt (work K.kept sites.old) set.now.source }
    ensures ok { IfOk result (λ counts. GoesOn K.kept sites.old sites.new set.now.target
        (TakesAll K.kept T.takes sites.old set.now step T.shows counts)) }
    ensures fault { IfErr result (Stops K.kept sites.old sites.new
        (ShowsAtEnds K.kept T.shows sites.old set.now)) }
    ensures undamaged { IfErr result (λ e. ForMembers K.kept T.takes sites.old set.now step
        (IsNoDamage e)) }
    ensures closed { OnErr result (AllClosed (work K.kept sites.new)) }
    ensures reads { ReadsForStep step K.kept sites.old sites.new }
    ensures counted { let members = length set.now.at_source.def.members in
        IfOk result (CountsReads step members K.kept sites.old sites.new) }
{
    let mut counts = Counts {
        rows: 0,
        inserts: 0,
        updates: 0,
        deletes: 0,
    };
    for member in 0..set.at_source.def.members.as_slice().len() as u32 {
        let more = targets.take(sites, alloc, set, member, step)?;
        counts = sum(counts, more);
    }
    Ok(counts)
}

/// Whether some member of a set is a base aggregate.
fn has_base_aggregate(def: &SetDef) -> bool
    ensures { result ≡ has_base_aggregate_lem def.now }
{
    let members = def.members.as_slice();
    members
        .iter()
        .any(|member| member.kind == TargetKind::BaseAggregate)
}

/// The state of a set after a step. At the greatest number the number of entries stays.
fn state_after(step: Step, known: &ReadOnlyState) -> SetState
    ensures state { known.now.entries < 2 ^ 64 - 1
        → result ≡ state_after_lem step known.now }
    ensures storable { ZeroIfAbsent result }
{
    let next = known.entries.saturating_add(1);
    match step {
        Step::Refresh { point, time } => SetState::ReadOnly {
            has_points: true,
            synchpoint: point,
            time,
            base: point,
            flag: false,
            entries: next,
        },
        Step::Block { upto, time, .. } => SetState::ReadOnly {
            has_points: true,
            synchpoint: upto,
            time,
            base: known.base,
            flag: known.flag,
            entries: next,
        },
    }
}

/// The entry of a step in the trail of a set.
fn entry_after(step: Step, def: &SetDef, counts: Counts) -> TrailEntry
    ensures { result ≡ entry_after_lem step def.now counts }
{
    match step {
        Step::Refresh { point, .. } => {
            let base = if has_base_aggregate(def) {
                Some(point)
            } else {
                None
            };
            TrailEntry::Refresh {
                p: point,
                rows: counts.rows,
                base,
            }
        }
        Step::Block {
            from,
            upto,
            base,
            ..
        } => TrailEntry::Block {
            from,
            to: upto,
            inserts: counts.inserts,
            updates: counts.updates,
            deletes: counts.deletes,
            base: base.map(|at| at.point),
        },
    }
}

/// Takes the targets of a set through a step, puts the set's state and the next entry of its trail,
/// and commits all. It answers what was counted.
///
/// After a fault nothing is changed; but if the commit failed, it may have taken place.
pub fn put_step<K: Keeper, T: Targets<K>>(
    sites: &mut Sites<K>,
    alloc: Global,
    set: &PlacedSet,
    targets: &mut T,
    step: Step,
    known: &ReadOnlyState,
) -> Result<Counts, Fault>
    requires placed { IsPlaced K.kept sites.old set.now }
    requires closed { AllClosed (work K.kept sites.old) }
    ensures ok { IfOk result (λ counts. CommitsStep K.kept sites.old sites.new set.now.target
        (PutsTargets K.kept T.takes T.shows sites.old set.now step known.now counts)) }
    ensures fault { IfErr result (MayCommitStep K.kept sites.old sites.new set.now.target
        (PutsSomeTargets K.kept T.takes T.shows sites.old set.now step known.now)
        (ShowsAtEnds K.kept T.shows sites.old set.now)) }
    ensures undamaged { IfErr result (λ e. ForMembers K.kept T.takes sites.old set.now step
        (IsNoDamage e)) }
    ensures reads { ReadsForStep step K.kept sites.old sites.new }
    ensures counted { let members = length set.now.at_source.def.members in
        IfOk result (CountsReads step members K.kept sites.old sites.new) }
{
    sites.begin(set.target)?;
    let counts = take_members(sites, alloc, set, targets, step)?;
    let number = set.at_target.number;
    let state = state_after(step, known);
    sites.put::<SetState>(alloc, set.target, Table0, &number, &state)?;
    let entry = entry_after(step, &set.at_source.def, counts);
    let next = known.entries.saturating_add(1);
    sites.put::<TrailEntry>(alloc, set.target, number, &next, &entry)?;
    sites.commit(set.target)?;
    Ok(counts)
}
