//! Registrations, and the rows of change-data tables.

use crate::list::List;
use crate::name::Name;
use crate::sequence::Sequence;
use crate::value::Row;

/// Which changes of a table are captured, and how. `after` and `before` are places of the table's
/// columns, counted from 0, in rising order: those whose after-images and whose before-images are
/// kept.
#[derive(Clone, Debug, Drop, PartialEq, Eq)]
pub struct Registration {
    pub table: Name,
    pub after: List<u32>,
    pub before: List<u32>,
    /// An update is captured as a delete and an insert.
    pub del_ins: bool,
    /// An update that changes no registered column isn't captured.
    pub changes_only: bool,
    /// A gap isn't mended by a refresh.
    pub disable_refresh: bool,
}

/// What a change row does to its key.
#[derive(Clone, Copy, Debug, PartialEq, Eq)]
pub enum Op {
    /// An insert.
    I,
    /// An update.
    U,
    /// A delete.
    D,
}

/// A change row. `commitseq` is its unit's seq, `intentseq` the place of the change in the log.
/// `after` and `before` are the images of the registered columns.
#[derive(Clone, Debug, Drop, PartialEq, Eq)]
pub struct CdRow {
    pub commitseq: u64,
    pub intentseq: Sequence,
    pub op: Op,
    pub after: Row,
    pub before: Row,
}
