//! What servers hold after a call failed while a set took its steps.

use crate::failing::{failing_at, settled};
use crate::servers::{HQ, SHOP};
use crate::starts::{Start, servers_at, steps_from, take_steps};
use crate::steps::{next_step, set_name};
use keep_map::MapKeeper;
use repl_types::{Fault, SetId};
use site_store::Sites;
use std::alloc::Global;
use std::process::Abort;
use std::test::Fail;

/// More calls than these steps make at one server.
const CALLS: u64 = 1_000;

/// What the servers hold once the set has taken this many of the steps, and no call failed.
fn held_after(rt: &impl Abort, alloc: Global, start: Start, count: usize) -> Result<Vec<u8>, Fail> {
    let mut sites = servers_at(rt, alloc, start)?;
    take_steps(rt, alloc, &mut sites, steps_from(start), count)?;
    let mut held = Vec::new(alloc);
    settled(alloc, sites, &mut held)?;
    Ok(held)
}

/// What the servers hold after none of the steps, after the first, and so on.
fn all_states(rt: &impl Abort, alloc: Global, start: Start) -> Result<Vec<Vec<u8>>, Fail> {
    let mut states = Vec::new(alloc);
    for count in 0..steps_from(start).len() + 1 {
        states.push(held_after(rt, alloc, start, count)?)?;
    }
    Ok(states)
}

/// Whether this is held after so many steps.
fn is_held_after(states: &[Vec<u8>], steps: usize, held: &[u8]) -> bool {
    match states.get(steps) {
        Some(state) => state.as_slice() == held,
        None => false,
    }
}

/// Lets the set take steps, one for each of these states, so that the last of them finds that none
/// is left. If a call fails, it answers how many steps were taken before, and the fault.
fn first_fault(
    alloc: Global,
    sites: &mut Sites<MapKeeper>,
    id: &SetId,
    states: &[Vec<u8>],
) -> Option<(usize, Fault)> {
    for taken in 0..states.len() {
        if let Err(fault) = next_step(alloc, sites, id) {
            return Some((taken, fault));
        }
    }
    None
}

/// Goes on at servers of which no call fails any more, and compares what they hold at the end with
/// that of a run without failure.
fn check_end(
    rt: &impl Abort,
    alloc: Global,
    mut sites: Sites<MapKeeper>,
    states: &[Vec<u8>],
) -> Result<(), Fail> {
    let id = set_name(alloc)?;
    assert!(rt; first_fault(alloc, &mut sites, &id, states).is_none());
    let mut held = Vec::new(alloc);
    settled(alloc, sites, &mut held)?;
    assert!(rt; is_held_after(states, states.len().saturating_sub(1), held.as_slice()));
    Ok(())
}

/// Takes steps at servers of which a call of one fails, and answers how many were taken before, and
/// the servers. The answer is `None` if no step was left before that call.
fn failed_run(
    rt: &impl Abort,
    alloc: Global,
    mut sites: Sites<MapKeeper>,
    server: u32,
    states: &[Vec<u8>],
) -> Result<Option<(usize, Sites<MapKeeper>)>, Fail> {
    let id = set_name(alloc)?;
    let Some((taken, fault)) = first_fault(alloc, &mut sites, &id, states) else {
        return Ok(None);
    };
    assert!(rt; fault == Fault::Keeper { server });
    Ok(Some((taken, sites)))
}

/// Whether servers at which a call failed hold what they hold after its step; else they have to
/// hold what they held before it.
fn is_made(
    rt: &impl Abort,
    alloc: Global,
    states: &[Vec<u8>],
    taken: usize,
    sites: Sites<MapKeeper>,
) -> Result<bool, Fail> {
    let mut held = Vec::new(alloc);
    let sites = settled(alloc, sites, &mut held)?;
    let is_as_after = is_held_after(states, taken.saturating_add(1), held.as_slice());
    assert!(rt; is_as_after || is_held_after(states, taken, held.as_slice()));
    check_end(rt, alloc, sites, states)?;
    Ok(is_as_after)
}

/// Lets each call of a server fail in a run of its own, until a run ends before the call. Answers
/// how many calls failed, and after how many of these the step was made all the same.
fn failing_calls(
    rt: &impl Abort,
    alloc: Global,
    start: Start,
    server: u32,
    takes_place: bool,
) -> Result<(u64, u32), Fail> {
    let states = all_states(rt, alloc, start)?;
    let mut made: u32 = 0;
    for calls in 0..CALLS {
        let sites = servers_at(rt, alloc, start)?;
        let failing = failing_at(alloc, sites, server, calls + 1, takes_place)?;
        let Some((taken, sites)) = failed_run(rt, alloc, failing, server, states.as_slice())? else {
            return Ok((calls, made));
        };
        if is_made(rt, alloc, states.as_slice(), taken, sites)? {
            made = made.saturating_add(1);
        }
    }
    Ok((CALLS, made))
}

/// Lets each call of a server fail, whether a commit that fails takes place or not. The step is
/// made if and only if the call is one of the commits there, and takes place.
fn check_failures(
    rt: &impl Abort,
    alloc: Global,
    start: Start,
    server: u32,
    commits: u32,
) -> Result<(), Fail> {
    for (takes_place, most) in [(false, 0), (true, commits)] {
        let (calls, made) = failing_calls(rt, alloc, start, server, takes_place)?;
        assert!(rt; 10 < calls && calls < CALLS, "{calls} calls of {server}");
        assert_eq!(rt; made, most);
    }
    Ok(())
}

#[test]
fn a_failed_call_of_the_source_makes_a_step_or_nothing_and_the_next_steps_make_up_for_it(
    rt: HostRuntime,
) -> Result<(), Fail> {
    check_failures(&rt, rt.alloc(), Start::New, HQ, 2)
}

#[test]
fn a_failed_call_of_the_target_makes_a_step_or_nothing_and_the_next_steps_make_up_for_it(
    rt: HostRuntime,
) -> Result<(), Fail> {
    check_failures(&rt, rt.alloc(), Start::New, SHOP, 1)
}

#[test]
fn a_failed_call_of_the_source_at_a_block_is_made_up_for(rt: HostRuntime) -> Result<(), Fail> {
    check_failures(&rt, rt.alloc(), Start::Captured, HQ, 1)
}

#[test]
fn a_failed_call_of_the_target_at_a_block_is_made_up_for(rt: HostRuntime) -> Result<(), Fail> {
    check_failures(&rt, rt.alloc(), Start::Captured, SHOP, 1)
}
