//! The plan of the calls that are to fail.

ghost use Rattle.std.specs.Prelude.{◌≡◌, ◌≤◌};
ghost use Rattle.keep_map.specs.Planned.{nothing_planned, planned_anew, fails_next, after_call};

use repl_types::List;
use std::alloc::Global;
use std::marker::Model;

/// The numbers of the calls that are to fail, how many calls were made since this was planned, and
/// how many ever failed. The counts saturate.
#[derive(Debug, Drop)]
pub struct Plan {
    failing: List<u64>,
    made: u64,
    faults: u64,
}

impl Model for Plan {
    ghost use Rattle.keep_map.specs.Planned.{Planned};

    ghost Value = { Planned };

    ghost view = { λ p. record { failing = p.failing; made = p.made; faults = p.faults } };
}

impl Plan {
    /// A plan by which no call fails. This allocates nothing.
    pub fn new(alloc: Global) -> Self
        ensures { result ≡ nothing_planned }
    {
        Plan {
            failing: List::new(alloc),
            made: 0,
            faults: 0,
        }
    }

    /// Plans which of the next calls fail, by their numbers from 1. This allocates nothing.
    pub fn fail_at(&mut self, calls: List<u64>)
        ensures { self.new ≡ planned_anew self.old calls }
    {
        self.failing = calls;
        self.made = 0;
    }

    /// Whether the next call is to fail.
    pub fn fails(&self) -> bool
        ensures { result ≡ fails_next self.now }
    {
        let next = self.made.saturating_add(1);
        self.failing.as_slice().contains(&next)
    }

    /// Counts the next call as made, and also as a fault if it is to fail.
    pub fn count(&mut self)
        ensures call { self.new ≡ after_call self.old }
        ensures counts { self.old.faults ≤ self.new.faults }
    {
        if self.fails() {
            self.faults = self.faults.saturating_add(1);
        }
        self.made = self.made.saturating_add(1);
    }
}
