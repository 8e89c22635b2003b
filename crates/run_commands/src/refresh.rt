//! The command `refresh Q N`, as a part of a run: a refresh of a set is asked for.
//!
//! `specs/RefreshEvents.antt` says what it commits and writes in a world. It stands on `subs_sets`,
//! which sets the flag of a set, on `set_places`, which finds the set of a name, and on `parts`,
//! which has the words of its contract. `session_core` carries out commands by it.
//!
//! For example, at the name of a read-only set its flag is set in one commit, and the line `ok
//! flagged` is written.

ghost use Rattle.std.specs.Prelude.{◌≡◌, List, false, true, IfOk};
ghost use Rattle.repl_types.specs.declared.refusal.GapPlace.TheVariants.{Replica};
ghost use Rattle.repl_types.specs.declared.refusal.Refusal.TheVariants.{RefreshDisabled};
ghost use Rattle.reply_text.specs.Replies.{reply_line};
ghost use Rattle.reply_text.specs.declared.reply.Reply.TheVariants.{Flagged};
ghost use Rattle.repl_model.specs.World.{World};
ghost use Rattle.run_core.specs.Runs.{Event};
ghost use Rattle.site_store.specs.Servers.{AllClosed};
ghost use Rattle.site_store.specs.Views.{work};
ghost use Rattle.set_places.specs.Places.{IsPlaced};
ghost use Rattle.run_commands.specs.parts.Found.{IsKnownWith};
ghost use Rattle.run_commands.specs.parts.Parts.{IsPart, WritesLine, WritesRefusal};
ghost use Rattle.run_commands.specs.refresh.RefreshEvents.{known_refresh_events, refresh_events};

use crate::parts::{RunError, error_of_fault, refuse, refuse_set, reply};
use keep_core::{Keeper, Sink};
use repl_types::{GapPlace, Refusal, SetId};
use reply_text::Reply;
use set_places::{PlacedSet, find_set};
use site_store::Sites;
use std::alloc::{AllocError, Global};
use subs_sets::{flag, is_replica_set};

/// Writes the line that says that a flag is set. After an error a prefix of it was taken.
fn write_flagged<O: Sink>(alloc: Global, output: &mut O) -> Result<bool, RunError>
    ensures { WritesLine O.taken O.faults output.old output.new (reply_line Flagged) false result }
{
    reply(alloc, output, &Reply::Flagged)?;
    Ok(false)
}

/// The refusal of a refresh of a replica set.
fn replica_refusal(id: &SetId) -> Result<Refusal, AllocError>
    ensures { IfOk result (λ refusal. refusal ≡ RefreshDisabled (Replica id.now)) }
{
    Ok(Refusal::RefreshDisabled(GapPlace::Replica(id.clone()?)))
}

/// Writes the line of that refusal, and says that something was refused. After an error a prefix of
/// the line was taken.
fn refuse_replica<O: Sink>(alloc: Global, output: &mut O, id: &SetId) -> Result<bool, RunError>
    ensures { WritesRefusal O.taken O.faults output.old output.new (RefreshDisabled (Replica
        id.now)) true result }
{
    let refusal = replica_refusal(id)?;
    refuse(alloc, output, &refusal)
}

/// Sets the flag of a set that was found, and says whether it was refused, as a replica set.
fn flag_found<K: Keeper, O: Sink>(
    alloc: Global,
    sites: &mut Sites<K>,
    output: &mut O,
    set: &PlacedSet,
) -> Result<bool, RunError>
    requires placed { IsPlaced K.kept sites.old set.now }
    requires closed { AllClosed (work K.kept sites.old) }
    ensures { (events : World → List (Event World))
        → IsKnownWith K.kept sites.old set.now (λ w k. events w ≡ known_refresh_events w k)
        → IsPart K.kept O.taken O.faults sites.old sites.new output.old output.new events
        (λ refused. refused) result }
{
    if is_replica_set(&set.at_target.def) {
        return refuse_replica(alloc, output, &set.at_target.def.id);
    }
    match flag(sites, alloc, set) {
        Ok(()) => write_flagged(alloc, output),
        Err(fault) => Err(error_of_fault(fault)),
    }
}

/// Asks for a refresh of the set of a name, in one commit, and says whether that was refused. The
/// next step of the set is then a signal, or the refresh itself if a signal was made, also where
/// refreshes after a gap are forbidden.
pub fn refresh_set<K: Keeper, O: Sink>(
    alloc: Global,
    sites: &mut Sites<K>,
    output: &mut O,
    id: &SetId,
) -> Result<bool, RunError>
    requires { AllClosed (work K.kept sites.old) }
    ensures { IsPart K.kept O.taken O.faults sites.old sites.new output.old output.new
        (refresh_events id.now) (λ refused. refused) result }
{
    let found = match find_set(sites, alloc, id) {
        Ok(found) => found,
        Err(fault) => return Err(error_of_fault(fault)),
    };
    match found {
        Some(set) => flag_found(alloc, sites, output, &set),
        None => refuse_set(alloc, output, id),
    }
}
