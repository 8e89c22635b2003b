//! Buffers for the bytes that a call spells and reads.

ghost use Rattle.std.specs.Prelude.{◌≡◌, []};

use std::alloc::Global;

/// The bytes that a call spells and reads. `Sites` keeps these buffers from call to call: once
/// they are large enough, a call takes no memory for its bytes.
#[derive(Drop)]
pub(crate) struct Buffers {
    /// The key that a call is about, or after which it searches for the next one.
    pub(crate) key: Vec<u8>,
    /// The next key, as the keeper has it.
    pub(crate) next_key: Vec<u8>,
    /// The record, as the keeper has it or is to have it.
    pub(crate) value: Vec<u8>,
}

impl Buffers {
    /// Empty buffers. It takes no memory.
    pub(crate) fn new(alloc: Global) -> Buffers {
        Buffers {
            key: Vec::new(alloc),
            next_key: Vec::new(alloc),
            value: Vec::new(alloc),
        }
    }

    /// Empties the buffers, and keeps their memory.
    pub(crate) fn clear(&mut self)
        ensures key { self.new.key.items ≡ [] }
        ensures next_key { self.new.next_key.items ≡ [] }
        ensures value { self.new.value.items ≡ [] }
    {
        self.key.clear();
        self.next_key.clear();
        self.value.clear();
    }
}
