//! Units of work: the committed transactions of a log.

use crate::list::List;
use crate::name::Name;
use crate::record::{Change, SetId};

/// A change with its position in the log.
#[derive(Clone, Debug, Drop, PartialEq, Eq)]
pub struct Placed {
    pub pos: u64,
    pub change: Change,
}

/// What a commit record says of its unit. `seq` is the record's position; `code` is the rejection
/// code that is shown for the unit, 0 if none is.
#[derive(Clone, Debug, Drop, PartialEq, Eq)]
pub struct UnitHead {
    pub seq: u64,
    pub time: u64,
    pub authid: Name,
    pub origin: Option<SetId>,
    pub code: u8,
}

/// A committed transaction: its changes since its last end, in order.
#[derive(Clone, Debug, Drop, PartialEq, Eq)]
pub struct Unit {
    pub head: UnitHead,
    pub changes: List<Placed>,
}
