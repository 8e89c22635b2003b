//! The words of the command line, and what they ask a run to do.
//!
//! `server_words` gives the `Opening` of the words: `copy`, or a script at 1 to 16 servers, each by
//! a word `NAME=PATH`, with the number of cells of the option `--cells N`. All other words are
//! Usage. `specs/Openings.antt` says which words are those of an opening, and
//! `one_opening_of_words` that they are those of no other.
//!
//! It stands on `repl_types`, which has names, texts and the reader of numbers, on `repl_commands`
//! for the error, and on the kit's `clap`, whose command takes the words of a script. Above it,
//! `session_core` asks what the words ask for, and `sqlrep` opens the servers that they name, and
//! shows the option and the servers in its help. The number of cells is read and checked, and
//! nothing uses it yet.
//!
//! For example, the words `--cells`, `16`, `hq=:map:` and `shop=shop.db` ask for 16 cells, a server
//! `hq` in memory and a server `shop` that is kept in `shop.db`. The words `hq=a` and `shop=a` are
//! Usage, since two servers can't be kept at one path.
#![tactic(auto)]

mod cells;
mod command;
mod laws;
mod opening;
mod servers;
mod words;

pub use command::{cells_arg, servers_arg};
pub use laws::one_opening_of_words;
pub use opening::{LEAST_CELLS, MAP_PATH, MOST_CELLS, Opening, ServerWord, USUAL_CELLS};
pub use words::server_words;
