//! The changes of a commit are made, or none of them.

ghost use Rattle.std.specs.Prelude.{◌≡◌, ◌<◌, ◌+◌, true, length, OnOk, IfOk, IfErr};
ghost use Rattle.std.specs.List.{AllByRecursion};
ghost use Rattle.site_store.specs.Views.{names, work, IsOpenAt};
ghost use Rattle.site_store.specs.one_server.Calls.{GoesOn, Breaks, FailsToWrite};
ghost use Rattle.source_log.specs.Making.{StepCanBeMade, MakesOne, MakesFirst, MakesAll};
ghost use Rattle.source_log.specs.Making.{all_unmade};
ghost use Rattle.source_log.specs.Rules.{rules};

use crate::outcome::Outcome;
use crate::source::{change_applies, make_change, unmake_change};
use crate::step::Step;
use keep_core::Keeper;
use repl_types::Fault;
use site_store::Sites;
use std::alloc::Global;

/// Makes a change if it applies, and answers whether it does.
fn make_one<K: Keeper>(
    sites: &mut Sites<K>,
    alloc: Global,
    server: u32,
    step: &Step,
) -> Result<bool, Fault>
    requires server { server < length (names sites.old) }
    requires open { IsOpenAt (work K.kept sites.old) server }
    requires can { StepCanBeMade step.now }
    ensures ok { IfOk result (λ made. GoesOn K.kept sites.old sites.new server
        (MakesOne step.now made)) }
    ensures fault { IfErr result (Breaks rules K.kept sites.old sites.new server) }
{
    let table = step.table.get();
    let applies = change_applies(sites, alloc, server, table, &step.change)?;
    if !applies {
        return Ok(false);
    }
    make_change(sites, alloc, server, table, &step.change)?;
    Ok(true)
}

/// Makes changes one after another, up to the first that doesn't apply, and answers how many.
fn make_first<K: Keeper>(
    sites: &mut Sites<K>,
    alloc: Global,
    server: u32,
    steps: &[Step],
) -> Result<usize, Fault>
    requires server { server < length (names sites.old) }
    requires open { IsOpenAt (work K.kept sites.old) server }
    requires can { AllByRecursion StepCanBeMade steps.now }
    ensures ok { IfOk result (λ made. GoesOn K.kept sites.old sites.new server
        (MakesFirst steps.now made)) }
    ensures few { IfOk result (λ made. made < length steps.now + 1) }
    ensures fault { IfErr result (Breaks rules K.kept sites.old sites.new server) }
{
    'steps: for (made, step) in steps.iter().enumerate() {
        let applies = make_one(sites, alloc, server, step)?;
        if !applies {
            return Ok(made);
        }
    }
    Ok(steps.len())
}

/// Takes changes back, the last one first.
fn unmake_all<K: Keeper>(
    sites: &mut Sites<K>,
    alloc: Global,
    server: u32,
    steps: &[Step],
) -> Result<(), Fault>
    requires server { server < length (names sites.old) }
    requires open { IsOpenAt (work K.kept sites.old) server }
    requires can { AllByRecursion StepCanBeMade steps.now }
    ensures ok { OnOk result (GoesOn K.kept sites.old sites.new server
        (λ c d. d ≡ all_unmade steps.now c)) }
    ensures fault { IfErr result (FailsToWrite K.kept sites.old sites.new) }
{
    let mut left = steps.len();
    while left > 0 {
        left -= 1;
        let step = &steps[left];
        unmake_change(sites, alloc, server, step.table.get(), &step.change)?;
    }
    Ok(())
}

/// Makes changes one after another, if all apply and there is room in the log. If not, those that
/// were made are taken back.
pub fn make_all<K: Keeper>(
    sites: &mut Sites<K>,
    alloc: Global,
    server: u32,
    has_room: bool,
    steps: &[Step],
) -> Result<Outcome, Fault>
    requires server { server < length (names sites.old) }
    requires open { IsOpenAt (work K.kept sites.old) server }
    requires can { AllByRecursion StepCanBeMade steps.now }
    ensures ok { IfOk result (λ outcome. GoesOn K.kept sites.old sites.new server
        (MakesAll steps.now has_room outcome)) }
    ensures room { IfOk result (λ outcome. outcome ≡ Outcome.Taken → has_room ≡ true) }
    ensures fault { IfErr result (Breaks rules K.kept sites.old sites.new server) }
{
    let made = make_first(sites, alloc, server, steps)?;
    if made < steps.len() {
        unmake_all(sites, alloc, server, &steps[..made])?;
        return Ok(Outcome::NotApplicable);
    }
    if !has_room {
        unmake_all(sites, alloc, server, steps)?;
        return Ok(Outcome::Full);
    }
    Ok(Outcome::Taken)
}
