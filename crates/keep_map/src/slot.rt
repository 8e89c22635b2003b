//! The place of a row.

ghost use Rattle.std.specs.Prelude.{◌≡◌, IfOk};
ghost use Rattle.repl_types.specs.Area.{area_number};
ghost use Rattle.keep_map.specs.Scattered.{place_of};

use repl_types::Area;
use std::alloc::{AllocError, Global};

/// The place of a row: the number of its area, its table and its key. Slots are in this order.
#[derive(Clone, Debug, PartialEq, Eq, PartialOrd, Ord, Drop)]
pub struct Slot {
    pub area: u8,
    pub table: u32,
    pub key: Vec<u8>,
}

impl Slot {
    /// The slot of a key of one table, with a copy of the key.
    pub fn new(alloc: Global, area: Area, table: u32, key: &[u8]) -> Result<Slot, AllocError>
        ensures { IfOk result (λ s. place_of s ≡ (area_number area, table, key.now)) }
    {
        Ok(Slot {
            area: area.number(),
            table,
            key: Vec::from_slice(alloc, key)?,
        })
    }
}
