//! The commands `status Q N` and `show S target T`, as parts of a run.
//!
//! `specs/TargetEvents.antt` says which lines they write in a world. It stands on `shows`, which
//! finds targets and writes how far sets are, on `member_targets`, which writes the rows of targets,
//! on `set_places`, which finds the set of a name, and on `parts`, which has the words of its
//! contracts. `session_core` carries out these commands by it.
//!
//! For example, at the name of no set the line `refused 8 NoSuchSet q/z` is written.

ghost use Rattle.std.specs.Prelude.{◌≡◌, Some, slice_get, List};
ghost use Rattle.repl_definitions.specs.declared.member.Member.{Member};
ghost use Rattle.repl_model.specs.World.{World};
ghost use Rattle.site_store.specs.Servers.{AllClosed, IsPlace};
ghost use Rattle.site_store.specs.Views.{names, work};
ghost use Rattle.set_places.specs.Places.{IsPlaced};
ghost use Rattle.shows.specs.sets.Targets.{IsTargetAt};
ghost use Rattle.run_commands.specs.target.TargetEvents.{known_set_events, set_events};
ghost use Rattle.run_commands.specs.target.TargetEvents.{member_events, target_events};
ghost use Rattle.run_commands.specs.parts.Parts.{IsPart};
ghost use Rattle.run_commands.specs.parts.Found.{IsKnownWith};
ghost use Rattle.run_core.specs.Runs.{Event};

use crate::parts::{RunError, error_of_fault, error_of_reply, refuse, refuse_set};
use keep_core::{Keeper, Sink};
use member_targets::{is_taken_at, show_target};
use repl_types::{Name, Refusal, SetId};
use set_places::{PlacedSet, find_set};
use shows::{PlacedTarget, find_target, show_set};
use site_store::Sites;
use std::alloc::Global;
use subs_sets::is_replica_set;

/// Writes how far a set is that was found, and says whether it was refused, as a replica set.
/// Nothing is changed.
fn show_found_set<K: Keeper, O: Sink>(
    alloc: Global,
    sites: &mut Sites<K>,
    output: &mut O,
    number: u64,
    set: &PlacedSet,
) -> Result<bool, RunError>
    requires placed { IsPlaced K.kept sites.old set.now }
    requires closed { AllClosed (work K.kept sites.old) }
    ensures { (events : World → List (Event World))
        → IsKnownWith K.kept sites.old set.now (λ w k. events w ≡ known_set_events number k)
        → IsPart K.kept O.taken O.faults sites.old sites.new output.old output.new events
        (λ refused. refused) result }
{
    if is_replica_set(&set.at_target.def) {
        return refuse(alloc, output, &Refusal::UnknownCommand { line: number });
    }
    match show_set(sites, alloc, output, set) {
        Ok(()) => Ok(false),
        Err(error) => Err(error_of_reply(error)),
    }
}

/// Writes how far the set of a name is, and says whether the name was refused, as that of no set.
/// Nothing is changed.
pub fn show_set_status<K: Keeper, O: Sink>(
    alloc: Global,
    sites: &mut Sites<K>,
    output: &mut O,
    number: u64,
    id: &SetId,
) -> Result<bool, RunError>
    requires { AllClosed (work K.kept sites.old) }
    ensures { IsPart K.kept O.taken O.faults sites.old sites.new output.old output.new (set_events
        number id.now) (λ refused. refused) result }
{
    let found = match find_set(sites, alloc, id) {
        Ok(found) => found,
        Err(fault) => return Err(error_of_fault(fault)),
    };
    match found {
        Some(set) => show_found_set(alloc, sites, output, number, &set),
        None => refuse_set(alloc, output, id),
    }
}

/// Writes the rows of a target that was found, and says whether it was refused, as one of a kind
/// that isn't carried out. Nothing is changed.
fn show_found_target<K: Keeper, O: Sink>(
    alloc: Global,
    sites: &mut Sites<K>,
    output: &mut O,
    number: u64,
    target: &PlacedTarget,
) -> Result<bool, RunError>
    requires there { IsTargetAt K.kept sites.old target.now.set.target target.now }
    requires closed { AllClosed (work K.kept sites.old) }
    ensures { (events : World → List (Event World))
        → IsKnownWith K.kept sites.old target.now.set (λ w k. (member : Member)
        × (slice_get k.at_target.def.members target.now.member ≡ Some member)
        × (events w ≡ member_events number w k member))
        → IsPart K.kept O.taken O.faults sites.old sites.new output.old output.new events
        (λ refused. refused) result }
{
    if !is_taken_at(target) {
        return refuse(alloc, output, &Refusal::UnknownCommand { line: number });
    }
    match show_target(sites, alloc, output, target) {
        Ok(()) => Ok(false),
        Err(error) => Err(error_of_reply(error)),
    }
}

/// Writes the rows of the target of a name at a server, which has the name `name`, and says whether
/// the target was refused. Nothing is changed.
fn show_rows_at<K: Keeper, O: Sink>(
    alloc: Global,
    sites: &mut Sites<K>,
    output: &mut O,
    number: u64,
    server: u32,
    name: Name,
    table: Name,
) -> Result<bool, RunError>
    requires server { IsPlace (names sites.old) name server }
    requires closed { AllClosed (work K.kept sites.old) }
    ensures { IsPart K.kept O.taken O.faults sites.old sites.new output.old output.new
        (target_events number name table) (λ refused. refused) result }
{
    let found = match find_target(sites, alloc, server, &table) {
        Ok(found) => found,
        Err(fault) => return Err(error_of_fault(fault)),
    };
    match found {
        Some(target) => show_found_target(alloc, sites, output, number, &target),
        None => {
            let refusal = Refusal::NoSuchTable {
                server: name,
                table,
            };
            refuse(alloc, output, &refusal)
        }
    }
}

/// Writes the rows of the target of a name at the server of a name, and says whether the one or the
/// other was refused, as that of no server or of no target. Nothing is changed.
pub fn show_target_rows<K: Keeper, O: Sink>(
    alloc: Global,
    sites: &mut Sites<K>,
    output: &mut O,
    number: u64,
    name: Name,
    table: Name,
) -> Result<bool, RunError>
    requires { AllClosed (work K.kept sites.old) }
    ensures { IsPart K.kept O.taken O.faults sites.old sites.new output.old output.new
        (target_events number name table) (λ refused. refused) result }
{
    let Some(server) = sites.find(&name) else {
        return refuse(alloc, output, &Refusal::NoSuchServer(name));
    };
    show_rows_at(alloc, sites, output, number, server, name, table)
}
