//! Records of a server's log.

use crate::name::Name;
use crate::value::Row;

/// The name of a subscription set, printed as `qual/name`.
#[derive(Clone, Debug, Drop, PartialEq, Eq)]
pub struct SetId {
    pub qual: Name,
    pub name: Name,
}

/// What a change record says. A start or a stop makes the registration of a table active or
/// inactive; only the program writes these two.
#[derive(Clone, Debug, Drop, PartialEq, Eq)]
pub enum Change {
    Insert {
        table: Name,
        row: Row,
    },
    Update {
        table: Name,
        before: Row,
        after: Row,
    },
    Delete {
        table: Name,
        row: Row,
    },
    Start {
        table: Name,
    },
    Stop {
        table: Name,
    },
}

/// A record of a log: a change of a transaction, or the transaction's end. A transaction is named
/// by its number `tx`; 0 is the program's own. The time of a commit is in whole seconds, and its
/// origin is the set that made the unit, if a set did.
#[derive(Clone, Debug, Drop, PartialEq, Eq)]
pub enum LogRecord {
    Change {
        tx: u32,
        change: Change,
    },
    Commit {
        tx: u32,
        time: u64,
        authid: Name,
        origin: Option<SetId>,
    },
    Abort {
        tx: u32,
    },
}
