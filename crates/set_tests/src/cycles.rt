//! The steps of a set until there is nothing to do.

use crate::failing::failing_at;
use crate::servers::{HQ, SHOP, loaded_servers};
use crate::starts::{DEFINITIONS, Start, servers_at, steps_from};
use crate::steps::{all_steps, set_name};
use repl_types::{Fault, List, Name, Refusal, SetId, Stepped};
use std::alloc::Global;
use std::process::Abort;
use std::test::Fail;

/// More calls than a cycle makes at one server.
const CALLS: u64 = 1_000;

/// The steps of a set whose source has no units.
pub const STEPS_WITHOUT_UNITS: &[Stepped] = &[
    Stepped::Signal { server: HQ, seq: 2 },
    Stepped::Refresh { point: 2, rows: 0 },
    Stepped::Report { point: 2 },
];

#[test]
fn a_cycle_makes_the_steps_of_a_set_until_there_is_nothing_to_do(
    rt: HostRuntime,
) -> Result<(), Fail> {
    let alloc = rt.alloc();
    let mut sites = loaded_servers(alloc, &[DEFINITIONS])?;
    let mut done = List::new(alloc);
    for _ in 0..2 {
        all_steps(alloc, &mut sites, &set_name(alloc)?, &mut done)?;
        assert_eq!(rt; done.as_slice(), STEPS_WITHOUT_UNITS);
    }
    Ok(())
}

/// A name that no set has.
fn other_name(alloc: Global) -> Result<SetId, Fail> {
    Ok(SetId {
        qual: Name::new(alloc, "q")?,
        name: Name::new(alloc, "other")?,
    })
}

/// Its refusal.
fn other_is_refused(alloc: Global) -> Result<Fault, Fail> {
    Ok(Fault::Refused(Refusal::NoSuchSet {
        qual: Name::new(alloc, "q")?,
        name: Some(Name::new(alloc, "other")?),
    }))
}

/// What a cycle of that name answers.
fn cycle_of_other(alloc: Global, done: &mut List<Stepped>) -> Result<Result<(), Fault>, Fail> {
    let id = other_name(alloc)?;
    let mut sites = loaded_servers(alloc, &[DEFINITIONS])?;
    Ok(all_steps(alloc, &mut sites, &id, done))
}

#[test]
fn a_cycle_of_a_name_that_no_set_has_is_refused(rt: HostRuntime) -> Result<(), Fail> {
    let alloc = rt.alloc();
    let mut done = List::new(alloc);
    let answer = cycle_of_other(alloc, &mut done)?;
    let refused = other_is_refused(alloc)?;
    assert!(rt; answer == Err(refused));
    assert!(rt; done.is_empty());
    Ok(())
}

/// Lets a call of the target fail in a cycle, and goes on in another. Answers whether one failed.
/// Either way, the steps are those that the set makes.
fn is_resumed(rt: &impl Abort, alloc: Global, call: u64) -> Result<bool, Fail> {
    let id = set_name(alloc)?;
    let sites = servers_at(rt, alloc, Start::New)?;
    let mut sites = failing_at(alloc, sites, SHOP, call, false)?;
    let mut done = List::new(alloc);
    let first = all_steps(alloc, &mut sites, &id, &mut done);
    if first.is_err() {
        assert!(rt; first == Err(Fault::Keeper { server: SHOP }));
        all_steps(alloc, &mut sites, &id, &mut done)?;
    }
    assert_eq!(rt; done.as_slice(), steps_from(Start::New));
    Ok(first.is_err())
}

/// How many calls of the target there are in a cycle: each fails in a run of its own.
fn resumed_cycles(rt: &impl Abort, alloc: Global) -> Result<u64, Fail> {
    for calls in 0..CALLS {
        if !is_resumed(rt, alloc, calls + 1)? {
            return Ok(calls);
        }
    }
    Ok(CALLS)
}

#[test]
fn a_cycle_that_failed_has_the_steps_before_it_and_the_next_goes_on(
    rt: HostRuntime,
) -> Result<(), Fail> {
    let calls = resumed_cycles(&rt, rt.alloc())?;
    assert!(rt; 10 < calls && calls < CALLS, "{calls} calls");
    Ok(())
}
