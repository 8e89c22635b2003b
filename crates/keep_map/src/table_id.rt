//! The name of a table.

ghost use Rattle.std.specs.Prelude.{◌≡◌};
ghost use Rattle.repl_types.specs.Area.{area_number};
ghost use Rattle.keep_map.specs.Tables.{id_of};

use repl_types::Area;

/// A table: the number of its area, and its own number. Tables are in this order.
#[derive(Clone, Copy, Debug, PartialEq, Eq, PartialOrd, Ord)]
pub struct TableId {
    pub area: u8,
    pub table: u32,
}

impl TableId {
    /// The table with this number in the area.
    pub fn new(area: Area, table: u32) -> TableId
        ensures { id_of result ≡ (area_number area, table) }
    {
        TableId {
            area: area.number(),
            table,
        }
    }
}
