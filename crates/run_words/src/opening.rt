//! What a run is to do.

use repl_types::{List, Name, Text};

/// The path of a server that is kept in memory.
pub const MAP_PATH: &str = ":map:";

/// The fewest cells that words may ask for.
pub const LEAST_CELLS: u32 = 16;

/// The most cells that words may ask for.
pub const MOST_CELLS: u32 = 1_048_576;

/// How many cells a run has if its words don't say it.
pub const USUAL_CELLS: u32 = 16_384;

/// What a run is to do.
#[derive(Debug, Drop, PartialEq, Eq)]
pub enum Opening {
    /// To copy one table from the log that it reads.
    Copy,
    /// To do what the script that it reads asks of these servers.
    Servers {
        /// How many cells of 64 bytes a capture is to have for changes in flight. It is read and
        /// checked, and nothing uses it yet.
        cells: u32,
        /// The servers, in the order of their words.
        servers: List<ServerWord>,
    },
}

/// A server, and where it is kept.
#[derive(Debug, Drop, PartialEq, Eq)]
pub struct ServerWord {
    pub name: Name,
    pub path: Text,
}
