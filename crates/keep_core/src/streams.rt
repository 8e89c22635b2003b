//! Sources and sinks of bytes, which move them in pieces.

ghost use Rattle.std.specs.Prelude.{◌≡◌, ◌≤◌, ◌<◌, ℕ, List, [], Option, IfOk, IfSome, OnOk, OnErr};
ghost use Rattle.std.specs.Prelude.{OnSome, take, length};
ghost use Rattle.keep_core.specs.Revealed.{Rises, Gives, Takes, TakesPrefix};

use thiserror::Error;

/// Why a read or a write fails.
#[derive(Clone, Copy, Debug, PartialEq, Eq, Error)]
pub enum ReadError {
    #[error("out of memory")]
    Memory,
    #[error("the stream failed")]
    Failed,
}

/// A source of bytes. It reveals the bytes that are left always or never.
pub trait Source {
    /// The bytes that are left, if the source reveals them.
    ghost left: { Self → Option (List ℕ) };

    /// How often a read has failed. The count never falls.
    ghost faults: { Self → ℕ };

    /// Moves bytes to the beginning of the buffer and answers how many. If the buffer isn't empty,
    /// 0 means the end of the input. After an error no byte was moved out of the source.
    fn read(&mut self, buffer: &mut [u8]) -> Result<usize, ReadError>
        ensures within { IfOk result (λ count. count ≤ length buffer.new) }
        ensures ok { IfOk result (λ count. Gives (left self.old) (left self.new)
            (take count buffer.new)) }
        ensures end { result ≡ Ok 0 → 0 < length buffer.old
            → IfSome (left self.old) (λ bytes. bytes ≡ []) }
        ensures err { OnErr result (left self.new ≡ left self.old) }
        ensures cause { result ≡ Err ReadError.Failed → Rises (faults self.old) (faults self.new) }
        ensures counts { faults self.old ≤ faults self.new };
}

/// A sink of bytes. It reveals the bytes that it took always or never.
pub trait Sink {
    /// The bytes that the sink took, if it reveals them.
    ghost taken: { Self → Option (List ℕ) };

    /// How often a write has failed. The count never falls.
    ghost faults: { Self → ℕ };

    /// Takes bytes from the beginning of the piece and answers how many. If the piece isn't empty,
    /// it takes at least one. After an error it took none.
    fn write(&mut self, piece: &[u8]) -> Result<usize, ReadError>
        ensures within { IfOk result (λ count. count ≤ length piece.now) }
        ensures moves { IfOk result (λ count. 0 < length piece.now → 0 < count) }
        ensures ok { IfOk result (λ count. Takes (taken self.old) (taken self.new)
            (take count piece.now)) }
        ensures err { OnErr result (taken self.new ≡ taken self.old) }
        ensures cause { result ≡ Err ReadError.Failed → Rises (faults self.old) (faults self.new) }
        ensures counts { faults self.old ≤ faults self.new };
}

/// Writes a line: hands the sink the whole line, then what it left of it, until all is taken. After
/// an error the sink took a prefix of the line, and not all of it.
pub fn write_line<O: Sink>(output: &mut O, line: &[u8]) -> Result<(), ReadError>
    ensures ok { OnOk result (Takes (O.taken output.old) (O.taken output.new) line.now) }
    ensures err { OnErr result (TakesPrefix (O.taken output.old) (O.taken output.new) line.now) }
    ensures short { OnErr result (OnSome (O.taken output.old)
        (¬ Takes (O.taken output.old) (O.taken output.new) line.now)) }
    ensures cause { result ≡ Err ReadError.Failed
        → Rises (O.faults output.old) (O.faults output.new) }
    ensures counts { O.faults output.old ≤ O.faults output.new }
{
    let mut at = 0;
    while at < line.len() {
        at += output.write(&line[at..])?;
    }
    Ok(())
}
