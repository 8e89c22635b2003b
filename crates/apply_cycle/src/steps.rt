//! A step of a read-only set.

ghost use Rattle.std.specs.Prelude.{◌≡◌, IsTrue, not, length, IfOk, IfErr};
ghost use Rattle.repl_model.specs.NextActions.{next_action as next_action_lem, next_action_within};
ghost use Rattle.repl_model.specs.NextActions.{signals, reports};
ghost use Rattle.repl_model.specs.Rules.{is_replica_set};
ghost use Rattle.site_store.specs.Calls.{KeepsServers};
ghost use Rattle.site_store.specs.Servers.{AllClosed};
ghost use Rattle.site_store.specs.Views.{held, work};
ghost use Rattle.set_places.specs.Places.{IsPlaced, ForSet};
ghost use Rattle.target_steps.specs.Steps.{TakesEach};
ghost use Rattle.apply_cycle.specs.Stepping.{HasActed, HasMade, HasFailed, IsBlamed};
ghost use Rattle.apply_cycle.specs.Stepping.{ReadsInStep, ReadsIfBlock};
ghost use Rattle.apply_cycle.specs.Stepping.{ShowsDamage, ShowsReportDamage};
ghost use Rattle.full_refresh.specs.Signals.{ShowsDamage as ShowsSignalDamage};

use crate::blocks::block_step;
use full_refresh::{refresh_step, signal_step};
use keep_core::Keeper;
use prune_control::note;
use repl_types::{Fault, Refusal, Stepped};
use set_places::PlacedSet;
use site_store::Sites;
use std::alloc::Global;
use subs_sets::{Action, next_action, read_only_state};
use target_steps::Targets;

/// Makes the signal of a set. It is refused if the log of the source has no room for it.
fn signal<K: Keeper>(sites: &mut Sites<K>, alloc: Global, set: &PlacedSet) -> Result<Stepped, Fault>
    requires placed { IsPlaced K.kept sites.old set.now }
    requires closed { AllClosed (work K.kept sites.old) }
    ensures ok { IfOk result (λ stepped. ForSet K.kept sites.old set.now (λ w k.
        HasMade K.kept sites.old sites.new w k signals set.now.source stepped)) }
    ensures fault { IfErr result (λ e. ForSet K.kept sites.old set.now (λ w k.
        HasFailed K.kept sites.old sites.new w k signals e)) }
    ensures blames { IfErr result (IsBlamed K.kept sites.old sites.new
        (ShowsSignalDamage K.kept sites.old set.now)) }
    ensures servers { KeepsServers K.kept sites.old sites.new }
    ensures reads { let members = length set.now.at_source.def.members in
        IfOk result (ReadsInStep K.kept sites.old sites.new members) }
    ensures acted { IfOk result HasActed }
{
    let Some(seq) = signal_step(sites, alloc, set)? else {
        let name = set.at_source.def.source.clone()?;
        return Err(Fault::Refused(Refusal::LogFull(name)));
    };
    Ok(Stepped::Signal {
        server: set.source,
        seq,
    })
}

/// Reports the point that the targets of a read-only set have reached.
fn report<K: Keeper>(sites: &mut Sites<K>, alloc: Global, set: &PlacedSet) -> Result<Stepped, Fault>
    requires placed { IsPlaced K.kept sites.old set.now }
    requires read_only { IsTrue (not (is_replica_set set.now.at_target.def)) }
    requires closed { AllClosed (work K.kept sites.old) }
    ensures ok { IfOk result (λ stepped. ForSet K.kept sites.old set.now (λ w k.
        HasMade K.kept sites.old sites.new w k reports set.now.source stepped)) }
    ensures fault { IfErr result (λ e. ForSet K.kept sites.old set.now (λ w k.
        HasFailed K.kept sites.old sites.new w k reports e)) }
    ensures blames { IfErr result (IsBlamed K.kept sites.old sites.new
        (ShowsReportDamage K.kept sites.old set.now)) }
    ensures servers { KeepsServers K.kept sites.old sites.new }
    ensures reads { let members = length set.now.at_source.def.members in
        IfOk result (ReadsInStep K.kept sites.old sites.new members) }
    ensures acted { IfOk result HasActed }
{
    let known = read_only_state(sites, alloc, set)?;
    note(sites, alloc, set, known.synchpoint)?;
    Ok(Stepped::Report {
        point: known.synchpoint,
    })
}

/// Makes the next action of a read-only set, in one commit at one of its two servers, or does
/// nothing if there is none. It answers what was done. A block takes only units up to an end, a time
/// in seconds; if there are none, the set reports or does nothing. With no end it takes units of any
/// time. No end bounds a signal, a refresh, or what a gap calls for.
///
/// If there is nothing to do, nothing is changed, whatever the servers hold. It is refused if a
/// refresh is called for by a gap and forbidden, or if the log of the source has no room for a
/// signal; then nothing is changed either. After a fault nothing is changed; but if a keeper failed
/// at the commit, this may have taken place. A block that failed has read no log, no source and
/// nothing spilled either. What is said of a world, but for what a block reads, holds if the kinds
/// of all members are taken.
pub fn step_within<K: Keeper, T: Targets<K>>(
    sites: &mut Sites<K>,
    alloc: Global,
    set: &PlacedSet,
    end: Option<u64>,
    targets: &mut T,
) -> Result<Stepped, Fault>
    requires placed { IsPlaced K.kept sites.old set.now }
    requires read_only { IsTrue (not (is_replica_set set.now.at_target.def)) }
    requires closed { AllClosed (work K.kept sites.old) }
    ensures ok { IfOk result (λ stepped. ForSet K.kept sites.old set.now (λ w k.
        TakesEach T.takes k.at_source.def
        → HasMade K.kept sites.old sites.new w k (next_action_within end k) set.now.source stepped)) }
    ensures fault { IfErr result (λ e. ForSet K.kept sites.old set.now (λ w k.
        TakesEach T.takes k.at_source.def
        → HasFailed K.kept sites.old sites.new w k (next_action_within end k) e)) }
    ensures blames { IfErr result (IsBlamed K.kept sites.old sites.new
        (ShowsDamage K.kept T.shows sites.old set.now)) }
    ensures servers { KeepsServers K.kept sites.old sites.new }
    ensures reads { let members = length set.now.at_source.def.members in
        IfOk result (ReadsInStep K.kept sites.old sites.new members) }
    ensures block_reads { IfErr result (λ e. ForSet K.kept sites.old set.now (λ w k.
        ReadsIfBlock K.kept sites.old sites.new (next_action_within end k))) }
    ensures idle { result ≡ Ok Stepped.Idle → held K.kept sites.new ≡ held K.kept sites.old }
{
    let action = next_action(sites, alloc, set, end)?;
    match action {
        Action::Signal => {
            let stepped = signal(sites, alloc, set)?;
            Ok(stepped)
        }
        Action::Refresh => {
            let stepped = refresh_step(sites, alloc, set, targets)?;
            Ok(stepped)
        }
        Action::Block { to } => {
            let stepped = block_step(sites, alloc, set, targets, to)?;
            Ok(stepped)
        }
        Action::Report => {
            let stepped = report(sites, alloc, set)?;
            Ok(stepped)
        }
        Action::Idle => Ok(Stepped::Idle),
        Action::Refuse(place) => Err(Fault::Refused(Refusal::RefreshDisabled(place))),
    }
}

/// Makes the next action of a read-only set whose blocks take units of any time: this is
/// `step_within` with no end.
pub fn step<K: Keeper, T: Targets<K>>(
    sites: &mut Sites<K>,
    alloc: Global,
    set: &PlacedSet,
    targets: &mut T,
) -> Result<Stepped, Fault>
    requires placed { IsPlaced K.kept sites.old set.now }
    requires read_only { IsTrue (not (is_replica_set set.now.at_target.def)) }
    requires closed { AllClosed (work K.kept sites.old) }
    ensures ok { IfOk result (λ stepped. ForSet K.kept sites.old set.now (λ w k.
        TakesEach T.takes k.at_source.def
        → HasMade K.kept sites.old sites.new w k (next_action_lem k) set.now.source stepped)) }
    ensures fault { IfErr result (λ e. ForSet K.kept sites.old set.now (λ w k.
        TakesEach T.takes k.at_source.def
        → HasFailed K.kept sites.old sites.new w k (next_action_lem k) e)) }
    ensures blames { IfErr result (IsBlamed K.kept sites.old sites.new
        (ShowsDamage K.kept T.shows sites.old set.now)) }
    ensures servers { KeepsServers K.kept sites.old sites.new }
    ensures reads { let members = length set.now.at_source.def.members in
        IfOk result (ReadsInStep K.kept sites.old sites.new members) }
    ensures block_reads { IfErr result (λ e. ForSet K.kept sites.old set.now (λ w k.
        ReadsIfBlock K.kept sites.old sites.new (next_action_lem k))) }
    ensures idle { result ≡ Ok Stepped.Idle → held K.kept sites.new ≡ held K.kept sites.old }
{
    step_within(sites, alloc, set, None, targets)
}
