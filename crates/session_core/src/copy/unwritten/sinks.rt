//! Sinks that write nothing.

ghost use Rattle.std.specs.Prelude.{◌≡◌, ◌++◌, [], Some, None, length, IfOk, IfErr, OnOk};

use keep_core::{ReadError, Sink};
use std::alloc::Global;
use std::marker::Model;

/// A sink that takes all bytes and keeps none. It never fails.
#[derive(Debug, Drop)]
pub struct Unwritten;

impl Sink for Unwritten {
    ghost taken = { λ _. None };

    ghost faults = { λ _. 0 };

    /// Takes the whole piece.
    fn write(&mut self, piece: &[u8]) -> Result<usize, ReadError>
        ensures { result ≡ Ok (length piece.now) }
    {
        Ok(piece.len())
    }
}

/// A sink that keeps the bytes that it took, in order.
#[derive(Debug, Drop)]
pub struct KeptLines {
    kept: Vec<u8>,
}

impl Model for KeptLines {
    ghost use Rattle.std.specs.Prelude.{ℕ, List};

    ghost Value = { List ℕ };

    ghost view = { λ s. s.kept.items };
}

impl KeptLines {
    /// A sink that took no byte. This allocates nothing.
    pub fn new(alloc: Global) -> KeptLines
        ensures { result ≡ [] }
    {
        KeptLines {
            kept: Vec::new(alloc),
        }
    }

    /// The bytes that were taken, in order.
    pub fn bytes(&self) -> &[u8]
        ensures { result.now ≡ self.now }
    {
        self.kept.as_slice()
    }
}

impl Sink for KeptLines {
    ghost taken = { λ s. Some s };

    ghost faults = { λ _. 0 };

    /// Takes the whole piece, unless memory runs out; then it takes nothing.
    fn write(&mut self, piece: &[u8]) -> Result<usize, ReadError>
        ensures whole { IfOk result (λ count. count ≡ length piece.now) }
        ensures takes { OnOk result (self.new ≡ self.old ++ piece.now) }
        ensures memory { IfErr result (λ error. (error ≡ ReadError.Memory)
            × (self.new ≡ self.old)) }
    {
        match self.kept.extend_from_slice(piece) {
            Ok(()) => Ok(piece.len()),
            Err(_) => Err(ReadError::Memory),
        }
    }
}
