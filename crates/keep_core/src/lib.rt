//! The traits by which the program reaches the outside: `Source` gives bytes, `Sink` takes bytes,
//! and `Keeper` keeps the contents of a server in transactions.
//!
//! Below it is `repl_types`, for the areas of a server and the sizes of keys and values. Above it,
//! `keep_map` implements all three traits in memory, and `sqlrep` implements the streams of the
//! system. Every other crate here that reads, writes or stores is generic over the traits, so its
//! contract holds for any implementation.
//!
//! An implementation in memory reveals its bytes or contents, so a clause can name them. One of the
//! system reveals nothing: its `left`, `taken` or `held` is `None`, and each clause about it then
//! says only that this stays so.
//!
//! For example, if a sink has taken `"ok "`, and `write_line(&mut sink, b"rows 2\n")` answers `Ok`,
//! it has taken `"ok rows 2\n"`; after an error it has taken `"ok "` and a part of the line.
#![tactic(auto)]

mod keeper;
mod streams;

pub use keeper::{KeepError, Keeper};
pub use streams::{ReadError, Sink, Source, write_line};
