//! Parts of a run whose lines aren't written where they happen: they are kept for later, or
//! dropped.
//!
//! A part of a run writes its lines to a `Sink`. `Unwritten` is one that keeps none of them, and
//! `KeptLines` one that keeps them in memory. `specs/Unwritten.antt` says what such a part does,
//! and the laws beside it say so of each part whose contract is in the words of `run_commands`.
//!
//! For example, a part that commits a world and then writes a line only commits that world if its
//! sink is `Unwritten`.

mod sinks;

pub use sinks::{KeptLines, Unwritten};
