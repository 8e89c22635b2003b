//! The types of what a user asks: the commands of a script, definitions as they are written, and
//! why a text of either is refused.
//!
//! It stands on `repl_types`. On it stand the readers `script_text`, `raw_defs` and `run_words`,
//! and `checked_defs`, which checks what was read; of these the program calls only `run_words` and
//! one function of `script_text` yet. It has no code but derived comparisons and conversions of a
//! failed allocation to an error. A definition that was checked has a type of `repl_types` or
//! `repl_definitions`.
//!
//! For example, `Command::Prune { server, minutes: Some(60) }` asks to drop what was captured at a
//! server more than 60 minutes ago, and `minutes: None` is the same line without a number.
#![tactic(auto)]

mod command;
mod errors;
mod written;

pub use command::Command;
pub use errors::{DefsError, LineError, WordsError};
pub use written::{RawDefs, RawMember, RawRegistration, RawSet, RawTable};
