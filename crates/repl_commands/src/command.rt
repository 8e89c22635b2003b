//! Commands.

use repl_types::{Name, SetId};

/// A command of a script, one a line. A number that the line leaves out is None.
#[derive(Debug, Drop, PartialEq, Eq)]
pub enum Command {
    /// Takes the definitions of its body.
    Load,
    /// Adds the log records of its body to a server's log.
    Feed {
        server: Name,
    },
    /// Captures units of a server's log: at most `units`, with a commit after each `every`.
    Capture {
        server: Name,
        units: Option<u32>,
        every: Option<u32>,
    },
    /// Begins capture anew.
    CaptureCold {
        server: Name,
    },
    /// Drops what was captured and is more than `minutes` minutes old.
    Prune {
        server: Name,
        minutes: Option<u32>,
    },
    /// Drops what was captured and has been taken by every set.
    PruneNormal {
        server: Name,
    },
    /// Makes the next step of a set.
    Step {
        set: SetId,
    },
    /// Makes a set's steps until none is left.
    Apply {
        set: SetId,
    },
    /// Asks that a set's next step is a refresh.
    Refresh {
        set: SetId,
    },
    /// Makes a table's registration inactive.
    Stop {
        server: Name,
        table: Name,
    },
    /// Adds units of changes that are made from a seed.
    Generate {
        server: Name,
        table: Name,
        seed: u64,
        units: u32,
        changes: u32,
    },
    /// Runs the replica sets of a qualifier until they agree.
    Rounds {
        qual: Name,
    },
    /// Compares a set's targets with what the logs say.
    Audit {
        set: SetId,
    },
    /// Says how far capture of a server is.
    StatusServer {
        server: Name,
    },
    /// Says how far a set is.
    StatusSet {
        set: SetId,
    },
    /// Writes the rows of a table.
    ShowSource {
        server: Name,
        table: Name,
    },
    /// Writes the change rows of a table.
    ShowCd {
        server: Name,
        table: Name,
    },
    /// Writes the captured units of a server.
    ShowUow {
        server: Name,
    },
    /// Writes the log of a server.
    ShowLog {
        server: Name,
    },
    /// Writes the rows of a target.
    ShowTarget {
        server: Name,
        table: Name,
    },
    /// Writes the trail of a set.
    ShowTrail {
        server: Name,
        set: SetId,
    },
    /// Writes the rejected units of a set.
    ShowRejected {
        server: Name,
        set: SetId,
    },
}
