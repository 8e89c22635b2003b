//! Whether a load of definitions is refused, and what it adds, given what the servers keep of
//! definitions.
//!
//! `count_refusal` finds a server that isn't there and a limit on counts that is passed, and then
//! `content_refusal` a set or a registration that is too long to be stored, and a definition that
//! stands already with other contents. `additions_at` says what a server gets by the load, with its
//! numbers. All look at `StoredServer`s, which are values: nothing is read here, and nothing is
//! changed. Below it are `spelled_defs`, whose `Defs` a text spells, and `repl_definitions`, whose
//! rows a server keeps. The crates on loads of definitions stand on it.
//!
//! For example, a text with the table `orders` of `hq` is refused as `DefinitionDiffers` if `hq`
//! keeps a table of that name with other columns.
#![tactic(auto)]

mod additions;
mod differences;
mod limits;
mod refusals;
mod servers;
mod stored;

pub use additions::{Additions, additions_at};
pub use refusals::{content_refusal, count_refusal};
pub use stored::{StoredServer, same_name, same_set, source_at};
