//! Tests of keepers over a database, in memory and in files.
//!
//! It has no code but tests, of the calls of `keep_sqlite`. It is apart from the tests of other
//! keepers, since a test that links the database takes minutes to build.
//!
//! It is a program that does nothing, so that no library is made of it.
#![tactic(auto)]

#[cfg(test)]
mod by_chance;
#[cfg(test)]
mod calls;
#[cfg(test)]
mod files;
#[cfg(test)]
mod foreign_tables;

fn main(_rt: HostRuntime) {}
