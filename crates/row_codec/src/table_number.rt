//! The numbers of tables in their areas.

ghost use Rattle.std.specs.Prelude.{◌≡◌, ℕ};

/// The number of a table in its area.
pub trait TableNumber: Copy {
    /// The number that a clause sees.
    ghost number: { Self → ℕ };

    /// The number.
    fn table_number(self) -> u32
        ensures { result ≡ number self };
}

/// A table that is known by its number: that of a table, registration, target or set of the server.
impl TableNumber for u32 {
    ghost number = { λ table. table };

    fn table_number(self) -> u32 {
        self
    }
}

/// The table 0 of an area.
#[derive(Clone, Copy, Debug, PartialEq, Eq)]
pub struct Table0;

/// The table 1 of an area.
#[derive(Clone, Copy, Debug, PartialEq, Eq)]
pub struct Table1;

/// The table 2 of an area.
#[derive(Clone, Copy, Debug, PartialEq, Eq)]
pub struct Table2;

/// The table 3 of an area.
#[derive(Clone, Copy, Debug, PartialEq, Eq)]
pub struct Table3;

impl TableNumber for Table0 {
    ghost number = { λ _. 0 };

    fn table_number(self) -> u32 {
        0
    }
}

impl TableNumber for Table1 {
    ghost number = { λ _. 1 };

    fn table_number(self) -> u32 {
        1
    }
}

impl TableNumber for Table2 {
    ghost number = { λ _. 2 };

    fn table_number(self) -> u32 {
        2
    }
}

impl TableNumber for Table3 {
    ghost number = { λ _. 3 };

    fn table_number(self) -> u32 {
        3
    }
}
