//! Tests of the steps of a set of user copies between two servers in memory: what it does if
//! changes that it needs aren't kept, and what stands if a call of a keeper fails.
//!
//! It has no code but tests, of the calls of `set_places` and `subs_sets`, and of `step`,
//! `step_within` and `cycle` of `apply_cycle` with the targets of `member_targets`, over definitions
//! that `load_defs` loads, and logs that `session` of `session_core` feeds and captures.
//!
//! It is a program that does nothing, so that no library is made of it.
#![tactic(auto)]

#[cfg(test)]
mod cycles;
#[cfg(test)]
mod ends;
#[cfg(test)]
mod failing;
#[cfg(test)]
mod failures;
#[cfg(test)]
mod gaps;
#[cfg(test)]
mod restarts;
#[cfg(test)]
mod servers;
#[cfg(test)]
mod starts;
#[cfg(test)]
mod steps;

fn main(_rt: HostRuntime) {}
