//! What a server stores, by kind.

ghost use Rattle.std.specs.Prelude.{◌≡◌, ◌<◌};
ghost use Rattle.repl_types.specs.Area.{area_number, area_numbers_end};

/// What a server stores, by kind. Stored keys begin with the number of their area.
#[derive(Clone, Copy, Debug, PartialEq, Eq)]
pub enum Area {
    Log = 1,
    Source = 2,
    Inflight = 3,
    Head = 4,
    Defs = 5,
    Cd = 6,
    Uow = 7,
    Capture = 8,
    Prune = 9,
    Spill = 10,
    Target = 11,
    SetState = 12,
    Trail = 13,
}

impl Area {
    /// One more than the highest number of an area. The lowest is 1.
    pub const NUMBERS: usize = 14;

    /// The area's number.
    pub fn number(self) -> u8
        ensures number { result ≡ area_number self }
        ensures small { result < area_numbers_end }
    {
        self as u8
    }
}
