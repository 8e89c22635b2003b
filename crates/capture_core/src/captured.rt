//! What a capture answers.

/// How far a server is captured, and how many units were taken and change rows put. A count that
/// would pass the greatest number stays there.
#[derive(Clone, Copy, Debug, PartialEq, Eq)]
pub struct Captured {
    pub upto: u64,
    pub units: u64,
    pub rows: u64,
}
