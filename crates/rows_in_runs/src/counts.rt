//! How much of a run is in use.

/// How many rows have no value, and how many bytes the rows name. Nothing is proved of the counts:
/// they only tell when a copy is worth its time.
#[derive(Clone, Copy, Debug)]
pub struct Counts {
    pub dead: usize,
    pub used: usize,
}

impl Counts {
    /// Counts a value of a row, by its length, or that the row has none.
    pub fn add(&mut self, len: Option<usize>) {
        match len {
            Some(len) => self.used = self.used.saturating_add(len),
            None => self.dead = self.dead.saturating_add(1),
        }
    }

    /// Takes back what `add` counted.
    pub fn remove(&mut self, len: Option<usize>) {
        match len {
            Some(len) => self.used = self.used.saturating_sub(len),
            None => self.dead = self.dead.saturating_sub(1),
        }
    }

    /// Whether more than half of this many rows have no value, or more than half of this many bytes
    /// are named by no row. A few are not worth a copy.
    pub fn are_sparse(&self, rows: usize, bytes: usize) -> bool {
        let wasted = bytes.saturating_sub(self.used);
        self.dead > 64 && self.dead > rows / 2 || wasted > 4096 && wasted > bytes / 2
    }
}
