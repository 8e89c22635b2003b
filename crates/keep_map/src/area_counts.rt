//! Counts of the reads or the writes of each area.

use repl_types::Area;

/// A count for each area, at the area's number. The counts saturate.
#[derive(Debug, Drop)]
pub struct AreaCounts {
    each: [u64; Area::NUMBERS],
}

impl AreaCounts {
    ghost use Rattle.std.specs.Prelude.{◌≡◌};
    ghost use Rattle.keep_core.specs.Kept.{counted};
    ghost use Rattle.keep_map.specs.Keepers.{count_of};

    /// Counts that are all 0.
    pub fn new() -> AreaCounts
        ensures { count_of result ≡ (λ _. 0) }
    {
        AreaCounts {
            each: [0; Area::NUMBERS],
        }
    }

    /// The count of an area.
    pub fn get(&self, area: Area) -> u64
        ensures { result ≡ count_of self.now area }
    {
        self.each[area.number() as usize]
    }

    /// Raises the count of an area by one.
    pub fn bump(&mut self, area: Area)
        ensures { count_of self.new ≡ counted (count_of self.old) area }
    {
        let at = area.number() as usize;
        self.each[at] = self.each[at].saturating_add(1);
    }
}
