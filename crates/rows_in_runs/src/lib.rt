//! Rows in the order of their keys, in one run of bytes for each table.
//!
//! A `Run` holds rows of one table: each has a key, and a value or none. A key above all others is
//! pushed at the end, which takes constant time; a row that stands may be changed in its place. A
//! key between two others has no place in a run, and goes elsewhere. A run also tells what its rows
//! were before the changes since it was last settled, and goes back to that if it is told to.
//!
//! Below it are `keep_core`, whose tables it speaks of, and `repl_types`, for the sizes of keys and
//! values. It is made for `keep_map`, with a run for each table.
//!
//! For example, after `run.push(b"1", b"a")?` and `run.push(b"2", b"b")?` the call
//! `run.spot(b"2")` answers `At(1)`, `run.spot(b"3")` answers `Above`, and `run.spot(b"15")`
//! answers `Between`.
#![tactic(auto)]

mod counts;
mod row;
mod run;

pub use run::{Run, Spot};
