//! The steps that change targets.

/// The point at which base aggregates are read in a block, and its time.
#[derive(Clone, Copy, Debug, PartialEq, Eq)]
pub struct BasePoint {
    pub point: u64,
    pub time: u64,
}

/// A step of a read-only set at its target, with all that its members need. Points are positions of
/// the source's log, and times are the source's at the points, in seconds.
#[derive(Clone, Copy, Debug, PartialEq, Eq)]
pub enum Step {
    /// The targets are loaded as of a point, the last commit of the source.
    Refresh {
        point: u64,
        time: u64,
    },
    /// They take the captured changes after one point and up to another. Base aggregates are read
    /// at a point of their own, if they are.
    Block {
        from: u64,
        from_time: u64,
        upto: u64,
        time: u64,
        base: Option<BasePoint>,
    },
}
