//! The steps of the set q/s, and what its target keeps of them.

ghost use Rattle.std.specs.Prelude.{IsTrue, not, OnOk, IfOk, IfSome};
ghost use Rattle.repl_model.specs.Rules.{is_replica_set as is_replica_set_lem};
ghost use Rattle.site_store.specs.Servers.{AllClosed};
ghost use Rattle.site_store.specs.Views.{work};
ghost use Rattle.set_places.specs.Places.{IsPlaced};

use crate::servers::{loaded_servers, run};
use apply_cycle::{cycle, step, step_within};
use keep_core::Keeper;
use keep_map::MapKeeper;
use member_targets::MemberTargets;
use repl_records::SetState;
use repl_types::{Fault, List, Name, SetId, Stepped};
use set_places::{PlacedSet, find_set};
use site_store::Sites;
use std::alloc::Global;
use std::process::Abort;
use std::test::Fail;
use subs_sets::{Action, is_replica_set, next_action, set_state};

/// The name of the set.
pub fn set_name(alloc: Global) -> Result<SetId, Fail> {
    Ok(SetId {
        qual: Name::new(alloc, "q")?,
        name: Name::new(alloc, "s")?,
    })
}

/// The set of a name, if it stands at both its ends and isn't of replicas. No transaction is open
/// then.
fn find<K: Keeper>(
    alloc: Global,
    sites: &mut Sites<K>,
    id: &SetId,
) -> Result<Option<PlacedSet>, Fault>
    ensures placed { IfOk result (λ found. IfSome found (IsPlaced K.kept sites.new)) }
    ensures read_only { IfOk result (λ found. IfSome found (λ set.
        IsTrue (not (is_replica_set_lem set.at_target.def)))) }
    ensures closed { OnOk result (AllClosed (work K.kept sites.new)) }
{
    sites.rollback_all();
    let Some(set) = find_set(sites, alloc, id)? else {
        return Ok(None);
    };
    if is_replica_set(&set.at_target.def) {
        return Ok(None);
    }
    Ok(Some(set))
}

/// The set q/s. No transaction is open then.
fn the_set<K: Keeper>(alloc: Global, sites: &mut Sites<K>) -> Result<PlacedSet, Fail>
    ensures placed { IfOk result (IsPlaced K.kept sites.new) }
    ensures read_only { IfOk result (λ set. IsTrue (not (is_replica_set_lem set.at_target.def))) }
    ensures closed { OnOk result (AllClosed (work K.kept sites.new)) }
{
    let Some(set) = find(alloc, sites, &set_name(alloc)?)? else {
        return Err(Fail::new("no set that is read-only"));
    };
    Ok(set)
}

/// Lets the set of a name do what it does next, with blocks of units up to an end. A set that isn't
/// found is idle.
fn step_until<K: Keeper>(
    alloc: Global,
    sites: &mut Sites<K>,
    id: &SetId,
    end: Option<u64>,
) -> Result<Stepped, Fault> {
    let Some(set) = find(alloc, sites, id)? else {
        return Ok(Stepped::Idle);
    };
    step_within(sites, alloc, &set, end, &mut MemberTargets)
}

/// Lets the set of a name do what it does next. A set that isn't found is idle.
pub fn next_step<K: Keeper>(
    alloc: Global,
    sites: &mut Sites<K>,
    id: &SetId,
) -> Result<Stepped, Fault> {
    let Some(set) = find(alloc, sites, id)? else {
        return Ok(Stepped::Idle);
    };
    step(sites, alloc, &set, &mut MemberTargets)
}

/// Lets the set of a name take its steps until there is nothing to do. They are added to the list.
pub fn all_steps<K: Keeper>(
    alloc: Global,
    sites: &mut Sites<K>,
    id: &SetId,
    done: &mut List<Stepped>,
) -> Result<(), Fault> {
    sites.rollback_all();
    cycle(sites, alloc, id, &mut MemberTargets, done)
}

/// Lets the set q/s do what it does next as often as there are steps here, which it has to make.
pub fn check_steps(
    rt: &impl Abort,
    alloc: Global,
    sites: &mut Sites<MapKeeper>,
    steps: &[Stepped],
) -> Result<(), Fail> {
    let id = set_name(alloc)?;
    for step in steps {
        assert_eq!(rt; next_step(alloc, sites, &id)?, *step);
    }
    Ok(())
}

/// The same with blocks of units up to an end.
pub fn check_steps_until(
    rt: &impl Abort,
    alloc: Global,
    sites: &mut Sites<MapKeeper>,
    end: u64,
    steps: &[Stepped],
) -> Result<(), Fail> {
    let id = set_name(alloc)?;
    for step in steps {
        assert_eq!(rt; step_until(alloc, sites, &id, Some(end))?, *step);
    }
    Ok(())
}

/// The servers with definitions, once a script has run there and the set q/s has made steps.
pub fn servers_after(
    rt: &impl Abort,
    alloc: Global,
    definitions: &[&str],
    script: &[u8],
    steps: &[Stepped],
) -> Result<Sites<MapKeeper>, Fail> {
    let mut sites = loaded_servers(alloc, definitions)?;
    run(rt, alloc, &mut sites, script)?;
    check_steps(rt, alloc, &mut sites, steps)?;
    Ok(sites)
}

/// What the set q/s does next.
pub fn action_of(alloc: Global, sites: &mut Sites<MapKeeper>) -> Result<Action, Fail> {
    let set = the_set(alloc, sites)?;
    Ok(next_action(sites, alloc, &set, None)?)
}

/// How far it is at its target.
pub fn state_of(alloc: Global, sites: &mut Sites<MapKeeper>) -> Result<SetState, Fail> {
    let set = the_set(alloc, sites)?;
    Ok(set_state(sites, alloc, &set)?)
}
