//! How a run ends.

use crate::area::Area;
use crate::list::Bytes;

/// What shows that stored contents are damaged: bytes that are no spelling, the key of a record
/// that should be there, the bytes of a record that doesn't fit, or the number of steps that were
/// made without coming to rest.
#[derive(Clone, Debug, Drop, PartialEq, Eq)]
pub enum DamageCause {
    Spelling(Bytes),
    Absent(Bytes),
    Unfit(Bytes),
    NoRest(u64),
}

/// How a run ends. At the first two the input was read to its end and each reply was written whole;
/// at the others but `Usage` the run ended at once. Servers are named by their place, counted from
/// 0.
#[derive(Clone, Debug, Drop, PartialEq, Eq)]
pub enum Status {
    /// No line was refused.
    Ok,
    /// Some line was refused.
    Refused,
    /// The words of the command line are wrong; nothing was read or written.
    Usage,
    /// A call of that server's keeper failed.
    KeeperFault(u32),
    /// A read of the input failed.
    InputFault,
    /// A write to the output failed.
    OutputFault,
    /// The run was out of memory.
    Memory,
    /// The input has over 4,294,967,296 bytes.
    InputTooLong,
    /// What is stored at that server is damaged.
    Damaged(u32, Area, DamageCause),
}
