//! The steps of a set, until there is nothing to do.

ghost use Rattle.std.specs.Prelude.{◌<◌, Some, IfErr, length, false};
ghost use Rattle.repl_model.specs.World.{World};
ghost use Rattle.reply_text.specs.Replies.{reply_line};
ghost use Rattle.reply_text.specs.declared.reply.Reply.TheVariants as replies;
ghost use Rattle.site_store.specs.Servers.{AllClosed};
ghost use Rattle.site_store.specs.Views.{names, held, work};
ghost use Rattle.world_store.specs.Stands.{Stands};
ghost use Rattle.set_places.specs.Places.{IsPlaced, IsKnownAs};
ghost use Rattle.run_commands.specs.parts.Causes.{FoundByRead};
ghost use Rattle.run_commands.specs.apply.Progress.{MayMake, TellsNoRest};
ghost use Rattle.set_places.specs.declared.placed_set.PlacedSet.{PlacedSet};
ghost use Rattle.run_commands.specs.apply.StepEvents.{apply_events};
ghost use Rattle.run_commands.specs.parts.Parts.{IsPart, WritesLine};

use crate::apply::steps::{Progress, make_step};
use crate::parts::{RunError, error_of_fault, refuse_set, reply};
use apply_cycle::most_steps;
use keep_core::{Keeper, Sink};
use repl_types::{Area, DamageCause, SetId};
use reply_text::Reply;
use set_places::{PlacedSet, find_set};
use site_store::Sites;
use std::alloc::Global;

/// Writes the line that says how many steps were made, and says that nothing was refused. After an
/// error a prefix of it was taken.
fn write_applied<O: Sink>(alloc: Global, output: &mut O, steps: u64) -> Result<bool, RunError>
    ensures { WritesLine O.taken O.faults output.old output.new (reply_line (replies.Applied steps))
        false result }
{
    reply(alloc, output, &Reply::Applied { steps })?;
    Ok(false)
}

/// Makes the steps of the set of a name, which is placed at a source and makes at most so many
/// steps. If none of these comes to rest, the source is damaged.
fn make_steps<K: Keeper, O: Sink>(
    alloc: Global,
    sites: &mut Sites<K>,
    output: &mut O,
    number: u64,
    id: &SetId,
    source: u32,
    most: u64,
) -> Result<bool, RunError>
    requires closed { AllClosed (work K.kept sites.old) }
    requires most { MayMake K.kept sites.old id.now most }
    requires source { source < length (names sites.old) }
    ensures part { IsPart K.kept O.taken O.faults sites.old sites.new output.old output.new
        (apply_events number id.now) (λ refused. refused) result }
    ensures no_rest { IfErr result (TellsNoRest (O.taken output.old) (O.taken output.new) source) }
{
    for steps in 0..most {
        match make_step(alloc, sites, output, number, id)? {
            Progress::Refused => return Ok(true),
            Progress::Made => {}
            Progress::Rested => return write_applied(alloc, output, steps),
        }
    }
    Err(RunError::Damaged {
        server: source,
        area: Area::Capture,
        cause: DamageCause::NoRest(most),
    })
}

/// Makes the steps of the set of a name, which was found, until there is nothing to do.
fn apply_found<K: Keeper, O: Sink>(
    alloc: Global,
    sites: &mut Sites<K>,
    output: &mut O,
    number: u64,
    id: &SetId,
    set: &PlacedSet,
) -> Result<bool, RunError>
    requires placed { IsPlaced K.kept sites.old set.now }
    requires known { (w : World) → Stands (names sites.old) (held K.kept sites.old) w
        → IsKnownAs w id.now (Some set.now) }
    requires closed { AllClosed (work K.kept sites.old) }
    ensures part { IsPart K.kept O.taken O.faults sites.old sites.new output.old output.new
        (apply_events number id.now) (λ refused. refused) result }
    ensures no_rest { IfErr result (TellsNoRest (O.taken output.old) (O.taken output.new)
        set.now.source) }
{
    let most = match most_steps(sites, alloc, set) {
        Ok(most) => most,
        Err(fault) => return Err(error_of_fault(fault)),
    };
    make_steps(alloc, sites, output, number, id, set.source, most)
}

/// Makes the steps of the set of a name until there is nothing to do, and writes the line of each
/// as it is made, and then how many there were. Says whether one was refused, which ends it. If the
/// set doesn't come to rest, which it always does at servers that stand for a world, its source is
/// damaged, and the error has the number of steps that were made.
pub fn apply_set<K: Keeper, O: Sink>(
    alloc: Global,
    sites: &mut Sites<K>,
    output: &mut O,
    number: u64,
    id: &SetId,
) -> Result<bool, RunError>
    requires { AllClosed (work K.kept sites.old) }
    ensures part { IsPart K.kept O.taken O.faults sites.old sites.new output.old output.new
        (apply_events number id.now) (λ refused. refused) result }
    ensures no_rest { IfErr result (λ e. ¬ (FoundByRead e) → (set : PlacedSet)
        × IsPlaced K.kept sites.old set
        × TellsNoRest (O.taken output.old) (O.taken output.new) set.source e) }
{
    let found = match find_set(sites, alloc, id) {
        Ok(found) => found,
        Err(fault) => return Err(error_of_fault(fault)),
    };
    match found {
        Some(set) => apply_found(alloc, sites, output, number, id, &set),
        None => refuse_set(alloc, output, id),
    }
}
