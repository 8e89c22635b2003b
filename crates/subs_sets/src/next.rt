//! The next action of a read-only set.

ghost use Rattle.std.specs.Prelude.{◌≡◌, if◌then◌else◌, IsTrue, not, nat_lt, OnOk, OnErr, IfOk};
ghost use Rattle.std.specs.Prelude.{IfErr};
ghost use Rattle.repl_model.specs.NextActions.{next_action_within};
ghost use Rattle.repl_model.specs.NextActions.{refresh_by_signal as refresh_by_signal_lem, by_gap};
ghost use Rattle.repl_model.specs.NextActions.{gap_of, reports, idles};
ghost use Rattle.repl_model.specs.Rules.{is_replica_set};
ghost use Rattle.repl_model.specs.Trails.{synchpoint, base_of};
ghost use Rattle.site_store.specs.Damage.{IsNoDamage};
ghost use Rattle.site_store.specs.Servers.{AllClosed};
ghost use Rattle.site_store.specs.Views.{work};
ghost use Rattle.site_store.specs.one_server.Calls.{Looks, Stops, Breaks};
ghost use Rattle.set_places.specs.Places.{IsPlaced, IsPlacedAtSource, ForSet};
ghost use Rattle.set_places.specs.Members.{ForSource};
ghost use Rattle.set_places.specs.Reading.{ReadsOnly};
ghost use Rattle.subs_sets.specs.Actions.{action_of, once_refreshed};
ghost use Rattle.subs_sets.specs.Rules.{is_read, source_rules, ShowsDamage};

use crate::action::Action;
use crate::captured::FIRST_CAPTURE;
use crate::cuts::block_end;
use crate::gaps::find_gap;
use crate::states::read_only_state;
use keep_core::Keeper;
use prune_control::read_mark;
use repl_records::{CaptureState, Single};
use repl_types::Fault;
use row_codec::Table0;
use set_places::PlacedSet;
use site_store::Sites;
use std::alloc::Global;

/// A refresh is two actions: a signal, unless there was one after the last refresh, and then the
/// refresh.
fn refresh_by_signal<K: Keeper>(
    sites: &mut Sites<K>,
    alloc: Global,
    set: &PlacedSet,
    base: u64,
) -> Result<Action, Fault>
    requires placed { IsPlacedAtSource K.kept sites.old set.now }
    ensures ok { OnOk result (Looks K.kept sites.old sites.new) }
    ensures action { IfOk result (λ action. ForSource K.kept sites.old set.now (λ w k.
        base ≡ base_of k.at_target.trail → action_of action ≡ refresh_by_signal_lem k)) }
    ensures fault { IfErr result (Breaks source_rules K.kept sites.old sites.new set.now.source) }
    ensures reads { ReadsOnly is_read K.kept sites.old sites.new }
{
    let known = read_mark(sites, alloc, set)?;
    if known.signal <= base {
        Ok(Action::Signal)
    } else {
        Ok(Action::Refresh)
    }
}

/// What is done if the targets have taken all captured units: a report, or nothing.
fn report_if_behind<K: Keeper>(
    sites: &mut Sites<K>,
    alloc: Global,
    set: &PlacedSet,
    point: u64,
) -> Result<Action, Fault>
    requires placed { IsPlacedAtSource K.kept sites.old set.now }
    ensures ok { OnOk result (Looks K.kept sites.old sites.new) }
    ensures action { IfOk result (λ action. ForSource K.kept sites.old set.now (λ w k.
        action_of action ≡ (if nat_lt k.at_source.mark point then reports else idles))) }
    ensures fault { IfErr result (Breaks source_rules K.kept sites.old sites.new set.now.source) }
    ensures reads { ReadsOnly is_read K.kept sites.old sites.new }
{
    let known = read_mark(sites, alloc, set)?;
    if known.mark < point {
        Ok(Action::Report)
    } else {
        Ok(Action::Idle)
    }
}

/// What is done if there are captured units that the targets haven't taken: a block of those up to
/// the end, or if changes that the set needs aren't kept, a refresh, unless that is forbidden.
fn block_or_refresh<K: Keeper>(
    sites: &mut Sites<K>,
    alloc: Global,
    set: &PlacedSet,
    point: u64,
    base: u64,
    floor: u64,
    end: Option<u64>,
) -> Result<Action, Fault>
    requires placed { IsPlacedAtSource K.kept sites.old set.now }
    ensures ok { OnOk result (Looks K.kept sites.old sites.new) }
    ensures action { IfOk result (λ action. ForSource K.kept sites.old set.now (λ w k.
        point ≡ synchpoint k.at_target.trail → base ≡ base_of k.at_target.trail
        → floor ≡ k.source.floor → action_of action ≡ by_gap end k (gap_of k))) }
    ensures fault { IfErr result (Breaks source_rules K.kept sites.old sites.new set.now.source) }
    ensures reads { ReadsOnly is_read K.kept sites.old sites.new }
{
    let gap = find_gap(sites, alloc, set, point, floor)?;
    let Some(gap) = gap else {
        let cut = block_end(sites, alloc, set, point, end)?;
        let Some(to) = cut else {
            let action = report_if_behind(sites, alloc, set, point)?;
            return Ok(action);
        };
        return Ok(Action::Block { to });
    };
    if gap.disabled {
        return Ok(Action::Refuse(gap.place));
    }
    let action = refresh_by_signal(sites, alloc, set, base)?;
    Ok(action)
}

/// What a read-only set does next if its targets were refreshed, and no refresh was asked for.
fn action_after<K: Keeper>(
    sites: &mut Sites<K>,
    alloc: Global,
    set: &PlacedSet,
    point: u64,
    base: u64,
    end: Option<u64>,
) -> Result<Action, Fault>
    requires placed { IsPlacedAtSource K.kept sites.old set.now }
    ensures ok { OnOk result (Looks K.kept sites.old sites.new) }
    ensures action { IfOk result (λ action. ForSource K.kept sites.old set.now (λ w k.
        point ≡ synchpoint k.at_target.trail → base ≡ base_of k.at_target.trail
        → action_of action ≡ once_refreshed end k)) }
    ensures fault { IfErr result (Breaks source_rules K.kept sites.old sites.new set.now.source) }
    ensures reads { ReadsOnly is_read K.kept sites.old sites.new }
{
    let capture = sites.get_state::<CaptureState>(
        alloc,
        set.source,
        Table0,
        &Single,
        FIRST_CAPTURE,
    )?;
    if capture.captured <= point {
        let action = report_if_behind(sites, alloc, set, point)?;
        return Ok(action);
    }
    let action = block_or_refresh(sites, alloc, set, point, base, capture.floor, end)?;
    Ok(action)
}

/// What a read-only set does next. After a fault a transaction may be open.
fn find_action<K: Keeper>(
    sites: &mut Sites<K>,
    alloc: Global,
    set: &PlacedSet,
    end: Option<u64>,
) -> Result<Action, Fault>
    requires placed { IsPlaced K.kept sites.old set.now }
    requires read_only { IsTrue (not (is_replica_set set.now.at_target.def)) }
    requires closed { AllClosed (work K.kept sites.old) }
    ensures ok { OnOk result (Looks K.kept sites.old sites.new) }
    ensures action { IfOk result (λ action. ForSet K.kept sites.old set.now (λ w k.
        action_of action ≡ next_action_within end k)) }
    ensures fault { IfErr result (Stops K.kept sites.old sites.new (ShowsDamage K.kept sites.old)) }
    ensures reads { ReadsOnly is_read K.kept sites.old sites.new }
{
    let state = read_only_state(sites, alloc, set)?;
    if !state.has_points || state.flag {
        let action = refresh_by_signal(sites, alloc, set, state.base)?;
        return Ok(action);
    }
    let action = action_after(sites, alloc, set, state.synchpoint, state.base, end)?;
    Ok(action)
}

/// What a read-only set does next, by what its servers hold, if its blocks take only units up to
/// an end, a time in seconds. With no end they take units of any time. Nothing is changed.
///
/// After a fault no transaction is open at any server.
pub fn next_action<K: Keeper>(
    sites: &mut Sites<K>,
    alloc: Global,
    set: &PlacedSet,
    end: Option<u64>,
) -> Result<Action, Fault>
    requires placed { IsPlaced K.kept sites.old set.now }
    requires read_only { IsTrue (not (is_replica_set set.now.at_target.def)) }
    requires closed { AllClosed (work K.kept sites.old) }
    ensures ok { OnOk result (Looks K.kept sites.old sites.new) }
    ensures action { IfOk result (λ action. ForSet K.kept sites.old set.now (λ w k.
        action_of action ≡ next_action_within end k)) }
    ensures fault { IfErr result (Stops K.kept sites.old sites.new (ShowsDamage K.kept sites.old)) }
    ensures closed { OnErr result (AllClosed (work K.kept sites.new)) }
    ensures undamaged { IfErr result (λ e. ForSet K.kept sites.old set.now (λ w k. IsNoDamage e)) }
    ensures reads { ReadsOnly is_read K.kept sites.old sites.new }
{
    match find_action(sites, alloc, set, end) {
        Ok(action) => Ok(action),
        Err(e) => {
            sites.rollback_all();
            Err(e)
        }
    }
}
