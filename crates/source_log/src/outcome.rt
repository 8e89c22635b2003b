//! What becomes of a record.

/// Whether a record is taken: it isn't if it isn't applicable, or if it is and the log is full.
#[derive(Clone, Copy, Debug, PartialEq, Eq)]
pub enum Outcome {
    Taken,
    NotApplicable,
    Full,
}
