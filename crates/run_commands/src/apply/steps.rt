//! One step of a set.

ghost use Rattle.std.specs.Prelude.{◌≡◌, IsTrue, Some, IfOk, IfErr, List, false};
ghost use Rattle.repl_types.specs.declared.refusal.Refusal.TheVariants as refusals;
ghost use Rattle.repl_model.specs.NextActions.{next_action};
ghost use Rattle.repl_model.specs.World.{World};
ghost use Rattle.reply_text.specs.Steps.{step_line};
ghost use Rattle.repl_types.specs.declared.fault.Stepped.TheVariants as steps;
ghost use Rattle.run_core.specs.Runs.{Event};
ghost use Rattle.site_store.specs.Servers.{AllClosed};
ghost use Rattle.site_store.specs.Views.{names, held, work};
ghost use Rattle.world_store.specs.Stands.{Stands};
ghost use Rattle.set_places.specs.Places.{IsPlaced};
ghost use Rattle.run_commands.specs.parts.Causes.{FoundByRead};
ghost use Rattle.run_commands.specs.apply.StepEvents.{is_carried_out as is_carried_out_lem};
ghost use Rattle.run_commands.specs.apply.StepEvents.{outcome_of, next_outcome};
ghost use Rattle.run_commands.specs.apply.StepEvents.{outcome, step_events};
ghost use Rattle.run_commands.specs.parts.Refusing.{refused};
ghost use Rattle.run_commands.specs.declared.apply.steps.Progress.TheVariants.{Refused};
ghost use Rattle.run_commands.specs.apply.Progress.{step_of, progress_of, is_refusal};
ghost use Rattle.run_commands.specs.apply.Progress.{progress_told, line_told, TakesStep};
ghost use Rattle.run_commands.specs.parts.Parts.{IsPart, WritesLine, WritesRefusal};
ghost use Rattle.run_commands.specs.parts.Found.{IsKnownWith, ForKnown};

use crate::parts::{RunError, error_of_fault, refuse, refuse_set};
use apply_cycle::step;
use keep_core::{Keeper, Sink, write_line};
use member_targets::{MemberTargets, is_taken};
use repl_definitions::SetDef;
use repl_types::{Fault, Name, Refusal, SetId, Stepped};
use reply_text::write_step;
use set_places::{PlacedSet, find_set};
use site_store::Sites;
use std::alloc::Global;

/// What came of a step.
#[derive(Clone, Copy, Debug, PartialEq, Eq)]
pub enum Progress {
    /// It was refused.
    Refused,
    /// There was nothing to do.
    Rested,
    /// It was made.
    Made,
}

/// Whether all members of a set are of kinds that are carried out.
fn is_carried_out(def: &SetDef) -> bool
    ensures { result ≡ is_carried_out_lem def.now }
{
    def.members
        .as_slice()
        .iter()
        .all(|member| is_taken(&member.kind))
}

/// Writes the line of a step of a set whose source has this name. After an error a prefix of it was
/// taken.
fn write_stepped<O: Sink>(
    alloc: Global,
    output: &mut O,
    source: &Name,
    stepped: &Stepped,
) -> Result<(), RunError>
    ensures { WritesLine O.taken O.faults output.old output.new (step_line source.now stepped.now)
        tt result }
{
    let mut line = Vec::new(alloc);
    write_step(source, stepped, &mut line)?;
    write_line(output, &line)?;
    Ok(())
}

/// Says what came of a step of a set whose source has this name, and writes its line; nothing is
/// written if there was nothing to do.
fn tell_step<O: Sink>(
    alloc: Global,
    output: &mut O,
    source: &Name,
    stepped: &Stepped,
) -> Result<Progress, RunError>
    ensures { WritesLine O.taken O.faults output.old output.new (line_told source.now stepped.now)
        (progress_told stepped.now) result }
{
    match stepped {
        Stepped::Idle => Ok(Progress::Rested),
        _ => {
            write_stepped(alloc, output, source, stepped)?;
            Ok(Progress::Made)
        }
    }
}

/// Writes the line of a refusal, and says that a step was refused.
fn refuse_step<O: Sink>(
    alloc: Global,
    output: &mut O,
    refusal: &Refusal,
) -> Result<Progress, RunError>
    ensures { WritesRefusal O.taken O.faults output.old output.new refusal.now Refused result }
{
    refuse(alloc, output, refusal)?;
    Ok(Progress::Refused)
}

/// Makes the next step of a set that was found, and writes its line, or that of its refusal.
fn make_found<K: Keeper, O: Sink>(
    alloc: Global,
    sites: &mut Sites<K>,
    output: &mut O,
    set: &PlacedSet,
) -> Result<Progress, RunError>
    requires placed { IsPlaced K.kept sites.old set.now }
    requires carried_out { IsTrue (is_carried_out_lem set.now.at_target.def) }
    requires closed { AllClosed (work K.kept sites.old) }
    ensures part { (events : World → List (Event World))
        → IsKnownWith K.kept sites.old set.now
        (λ w k. events w ≡ step_of (outcome_of w k (next_action k)))
        → IsPart K.kept O.taken O.faults sites.old sites.new output.old output.new events is_refusal
        result }
    ensures progress { IfOk result (λ progress. ForKnown K.kept sites.old set.now
        (λ w k. progress ≡ progress_of (outcome_of w k (next_action k)))) }
    ensures lines { IfOk result (TakesStep (O.taken output.old) (O.taken output.new)) }
    ensures read { IfErr result FoundByRead }
{
    match step(sites, alloc, set, &mut MemberTargets) {
        Ok(stepped) => tell_step(alloc, output, &set.at_source.def.source, &stepped),
        Err(Fault::Refused(refusal)) => refuse_step(alloc, output, &refusal),
        Err(fault) => Err(error_of_fault(fault)),
    }
}

/// Makes the next step of a set that was found, if it is carried out, or refuses that as an unknown
/// command, and writes its line.
fn step_found<K: Keeper, O: Sink>(
    alloc: Global,
    sites: &mut Sites<K>,
    output: &mut O,
    number: u64,
    set: &PlacedSet,
) -> Result<Progress, RunError>
    requires placed { IsPlaced K.kept sites.old set.now }
    requires closed { AllClosed (work K.kept sites.old) }
    ensures part { (events : World → List (Event World))
        → IsKnownWith K.kept sites.old set.now (λ w k. events w ≡ step_of (next_outcome number w k))
        → IsPart K.kept O.taken O.faults sites.old sites.new output.old output.new events is_refusal
        result }
    ensures progress { IfOk result (λ progress. ForKnown K.kept sites.old set.now
        (λ w k. progress ≡ progress_of (next_outcome number w k))) }
    ensures lines { IfOk result (TakesStep (O.taken output.old) (O.taken output.new)) }
    ensures read { IfErr result FoundByRead }
{
    if !is_carried_out(&set.at_target.def) {
        return refuse_step(alloc, output, &Refusal::UnknownCommand { line: number });
    }
    make_found(alloc, sites, output, set)
}

/// Refuses a step of the set of a name, since no set has it.
fn refuse_unknown<O: Sink>(alloc: Global, output: &mut O, id: &SetId) -> Result<Progress, RunError>
    ensures { WritesRefusal O.taken O.faults output.old output.new (refusals.NoSuchSet id.now.qual
        (Some id.now.name)) Refused result }
{
    refuse_set(alloc, output, id)?;
    Ok(Progress::Refused)
}

/// Makes the next step of the set of a name, and writes its line, or that of its refusal. If there
/// is nothing to do, nothing is written.
pub fn make_step<K: Keeper, O: Sink>(
    alloc: Global,
    sites: &mut Sites<K>,
    output: &mut O,
    number: u64,
    id: &SetId,
) -> Result<Progress, RunError>
    requires { AllClosed (work K.kept sites.old) }
    ensures part { IsPart K.kept O.taken O.faults sites.old sites.new output.old output.new
        (λ w. step_of (outcome number id.now w)) is_refusal result }
    ensures progress { IfOk result (λ progress. (w : World)
        → Stands (names sites.old) (held K.kept sites.old) w
        → progress ≡ progress_of (outcome number id.now w)) }
    ensures lines { IfOk result (TakesStep (O.taken output.old) (O.taken output.new)) }
    ensures read { IfErr result FoundByRead }
{
    let found = match find_set(sites, alloc, id) {
        Ok(found) => found,
        Err(fault) => return Err(error_of_fault(fault)),
    };
    match found {
        Some(set) => step_found(alloc, sites, output, number, &set),
        None => refuse_unknown(alloc, output, id),
    }
}

/// Writes the line of a step at which there was nothing to do, and says that nothing was refused.
/// After an error a prefix of it was taken.
fn write_idle<O: Sink>(alloc: Global, output: &mut O, source: &Name) -> Result<bool, RunError>
    ensures { WritesLine O.taken O.faults output.old output.new (step_line source.now steps.Idle)
        false result }
{
    write_stepped(alloc, output, source, &Stepped::Idle)?;
    Ok(false)
}

/// Makes the next step of the set of a name, and writes its line. Says whether it was refused.
pub fn step_set<K: Keeper, O: Sink>(
    alloc: Global,
    sites: &mut Sites<K>,
    output: &mut O,
    number: u64,
    id: &SetId,
) -> Result<bool, RunError>
    requires { AllClosed (work K.kept sites.old) }
    ensures { IsPart K.kept O.taken O.faults sites.old sites.new output.old output.new (step_events
        number id.now) (λ refused. refused) result }
{
    let progress = make_step(alloc, sites, output, number, id)?;
    match progress {
        Progress::Refused => Ok(true),
        Progress::Made => Ok(false),
        Progress::Rested => write_idle(alloc, output, &id.name),
    }
}
