//! The steps of a read-only set, one after another.

ghost use Rattle.std.specs.Prelude.{◌≡◌, ◌+◌, IsTrue, not, Some, IfOk, IfErr, OnOk, OnErr};
ghost use Rattle.repl_model.specs.Rules.{is_replica_set as is_replica_set_lem};
ghost use Rattle.repl_model.specs.World.{World};
ghost use Rattle.site_store.specs.Calls.{KeepsServers, IsRead};
ghost use Rattle.site_store.specs.Servers.{AllClosed};
ghost use Rattle.site_store.specs.Views.{names, held, work};
ghost use Rattle.site_store.specs.one_server.Calls.{Looks, Breaks};
ghost use Rattle.world_store.specs.Stands.{Stands};
ghost use Rattle.set_places.specs.Places.{IsPlaced, IsKnownAs};
ghost use Rattle.subs_sets.specs.Rules.{source_rules};
ghost use Rattle.apply_cycle.specs.Cycling.{ForCycle, MakesAtMost, MayMake, HasStepped, HasBroken};
ghost use Rattle.apply_cycle.specs.Cycling.{HasRested, HasBrokenAfter, IsCaused};
ghost use Rattle.apply_cycle.specs.Cycling.{TellsNoRest, IsSource, made_of, Adds};

use crate::steps::step;
use keep_core::Keeper;
use repl_types::{Area, DamageCause, Fault, List, SetId, Stepped};
use set_places::{PlacedSet, find_set, unknown_set};
use site_store::Sites;
use std::alloc::Global;
use subs_sets::{captured_point, is_replica_set};
use target_steps::Targets;

/// How many steps a set makes at most beside those that the captured units call for.
const MORE_STEPS: u64 = 5;

/// The read-only set of a name. If there is none, it is refused. Nothing is changed.
fn find_read_only<K: Keeper>(
    sites: &mut Sites<K>,
    alloc: Global,
    id: &SetId,
) -> Result<PlacedSet, Fault>
    requires closed { AllClosed (work K.kept sites.old) }
    ensures ok { OnOk result (Looks K.kept sites.old sites.new) }
    ensures placed { IfOk result (IsPlaced K.kept sites.new) }
    ensures read_only { IfOk result (λ set.
        IsTrue (not (is_replica_set_lem set.at_target.def))) }
    ensures known { IfOk result (λ set. (w : World)
        → Stands (names sites.old) (held K.kept sites.old) w → IsKnownAs w id.now (Some set)) }
    ensures fault { IfErr result (λ e. (w : World)
        → Stands (names sites.old) (held K.kept sites.old) w
        → HasBroken K.kept sites.old sites.new id.now w e) }
    ensures cause { IfErr result (IsCaused K.kept sites.old sites.new (λ s a cause. IsRead cause)) }
    ensures servers { KeepsServers K.kept sites.old sites.new }
{
    let Some(set) = find_set(sites, alloc, id)? else {
        return Err(Fault::Refused(unknown_set(id)?));
    };
    if is_replica_set(&set.at_target.def) {
        return Err(Fault::Refused(unknown_set(id)?));
    }
    Ok(set)
}

/// Makes the next step of the read-only set of a name.
fn next_step<K: Keeper, T: Targets<K>>(
    sites: &mut Sites<K>,
    alloc: Global,
    id: &SetId,
    targets: &mut T,
) -> Result<Stepped, Fault>
    requires closed { AllClosed (work K.kept sites.old) }
    ensures ok { IfOk result (λ stepped. ForCycle K.kept T.takes sites.old id.now (λ w.
        HasStepped K.kept sites.old sites.new id.now w stepped)) }
    ensures fault { IfErr result (λ e. ForCycle K.kept T.takes sites.old id.now (λ w.
        HasBroken K.kept sites.old sites.new id.now w e)) }
    ensures cause { IfErr result (IsCaused K.kept sites.old sites.new (λ s a cause. IsRead cause)) }
    ensures servers { KeepsServers K.kept sites.old sites.new }
{
    let set = find_read_only(sites, alloc, id)?;
    let stepped = step(sites, alloc, &set, targets)?;
    Ok(stepped)
}

/// How many steps a set that was found makes at most, by the point up to which its source is
/// captured. Nothing is changed.
///
/// After a fault no transaction is open at any server.
pub fn most_steps<K: Keeper>(
    sites: &mut Sites<K>,
    alloc: Global,
    set: &PlacedSet,
) -> Result<u64, Fault>
    requires placed { IsPlaced K.kept sites.old set.now }
    requires closed { AllClosed (work K.kept sites.old) }
    ensures ok { OnOk result (Looks K.kept sites.old sites.new) }
    ensures most { IfOk result (MakesAtMost K.kept sites.old set.now) }
    ensures fault { IfErr result (Breaks source_rules K.kept sites.old sites.new set.now.source) }
    ensures closed { OnErr result (AllClosed (work K.kept sites.new)) }
{
    let point = captured_point(sites, alloc, set)?;
    Ok(point.saturating_add(MORE_STEPS))
}

/// What a step made, if it wasn't nothing.
fn made(stepped: Stepped) -> Option<Stepped>
    ensures { result ≡ made_of stepped }
{
    match stepped {
        Stepped::Idle => None,
        _ => Some(stepped),
    }
}

/// Makes the steps of the read-only set of a name, at most so many, and adds what is answered of
/// each. If none of these comes to rest, its source is damaged.
fn make_steps<K: Keeper, T: Targets<K>>(
    sites: &mut Sites<K>,
    alloc: Global,
    id: &SetId,
    targets: &mut T,
    done: &mut List<Stepped>,
    source: u32,
    most: u64,
) -> Result<(), Fault>
    requires most { MayMake K.kept sites.old id.now most }
    requires closed { AllClosed (work K.kept sites.old) }
    ensures ok { OnOk result (Adds done.old done.new (λ answers.
        ForCycle K.kept T.takes sites.old id.now
        (HasRested K.kept sites.old sites.new id.now answers))) }
    ensures fault { IfErr result (λ e. Adds done.old done.new (λ answers.
        ForCycle K.kept T.takes sites.old id.now
        (HasBrokenAfter K.kept sites.old sites.new id.now answers e))) }
    ensures cause { IfErr result (IsCaused K.kept sites.old sites.new
        (TellsNoRest (λ s. s ≡ source) done.old done.new)) }
    ensures servers { KeepsServers K.kept sites.old sites.new }
{
    for count in 0..most {
        let stepped = next_step(sites, alloc, id, targets)?;
        match made(stepped) {
            Some(step) => done.push(step)?,
            None => return Ok(()),
        }
    }
    Err(Fault::Damaged {
        server: source,
        area: Area::Capture,
        cause: DamageCause::NoRest(most),
    })
}

/// Makes the steps of the read-only set of a name until there is nothing to do, and adds to `done`
/// what is answered of each as it is made, but for that there is nothing to do.
///
/// It is refused if no read-only set has the name, and if a step is refused; then nothing is
/// changed but by the steps before it. After a fault the steps are made that `done` has, and if a
/// keeper failed at a commit, or memory ran out for `done`, one more may be. If the set doesn't
/// come to rest, which it always does at servers that stand for a world, its source is damaged, and
/// the fault has the number of steps that were made. What is said of a world holds if the kinds of
/// all members are taken.
pub fn cycle<K: Keeper, T: Targets<K>>(
    sites: &mut Sites<K>,
    alloc: Global,
    id: &SetId,
    targets: &mut T,
    done: &mut List<Stepped>,
) -> Result<(), Fault>
    requires { AllClosed (work K.kept sites.old) }
    ensures ok { OnOk result (Adds done.old done.new (λ answers.
        ForCycle K.kept T.takes sites.old id.now
        (HasRested K.kept sites.old sites.new id.now answers))) }
    ensures fault { IfErr result (λ e. Adds done.old done.new (λ answers.
        ForCycle K.kept T.takes sites.old id.now
        (HasBrokenAfter K.kept sites.old sites.new id.now answers e))) }
    ensures cause { IfErr result (IsCaused K.kept sites.old sites.new
        (TellsNoRest (IsSource K.kept sites.old) done.old done.new)) }
    ensures servers { KeepsServers K.kept sites.old sites.new }
{
    let set = find_read_only(sites, alloc, id)?;
    let most = most_steps(sites, alloc, &set)?;
    make_steps(sites, alloc, id, targets, done, set.source, most)
}
