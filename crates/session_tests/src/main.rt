//! Tests of whole scripts, run by `session` at servers in memory, with a failure at each call, over
//! streams that fail, and over databases in memory.
//!
//! It has no code but tests. It stands on `session_core`, and nothing stands on it.
//!
//! It is a program that does nothing, so that no library is made of it.
#![tactic(auto)]

#[cfg(test)]
mod applies;
#[cfg(test)]
mod captures;
#[cfg(test)]
mod damage;
#[cfg(test)]
mod databases;
#[cfg(test)]
mod feeds;
#[cfg(test)]
mod loads;
#[cfg(test)]
mod runs;
#[cfg(test)]
mod streams;
#[cfg(test)]
mod two_runs;

fn main(_rt: HostRuntime) {}
