//! Any reader as the input of a run, and any writer as its output: the standard streams are.
//!
//! A call that a signal interrupts is made again, 16 times in all. An error that isn't about memory
//! counts as a fault. The bytes aren't revealed, so no clause says which were read and written.
//!
//! It stands on `keep_core`, whose `Source` and `Sink` these are. `sqlrep` runs over them.
//!
//! For example, a writer that is full answers Failed, and its count of faults is 1 then.
#![tactic(auto)]

ghost use Rattle.std.specs.Prelude.{◌≡◌, ◌↔◌, ◌<◌, ◌≤◌, length, IfOk, None};
ghost use Rattle.std.specs.IoError.{error_kind};
ghost use Rattle.std.specs.Io.KnownBytes.{ReadConsumes, WriteAppends};
ghost use Rattle.keep_core.specs.Revealed.{Rises};
ghost use Rattle.standard_streams.specs.Faults.{faults_of_error, faults_after};

#[cfg(test)]
mod tests;

use keep_core::{ReadError, Sink, Source};
use std::io;
use std::io::ErrorKind;

/// How often a call is made at most that a signal interrupts.
const TRIES: usize = 16;

/// A reader as a source. It doesn't reveal its bytes.
#[derive(Drop)]
pub struct Reads<R> {
    reader: R,
    faults: u64,
}

/// A writer as a sink. It doesn't reveal its bytes.
#[derive(Drop)]
pub struct Writes<W> {
    writer: W,
    faults: u64,
}

/// What a stream's error is to a run. One that isn't about memory is counted.
fn read_error(error: io::Error, faults: &mut u64) -> ReadError
    ensures memory { (result ≡ ReadError.Memory) ↔ (error_kind error ≡ ErrorKind.OutOfMemory) }
    ensures counted { faults.new ≡ faults_of_error result faults.old }
    ensures counts { faults.old ≤ faults.new }
{
    if error.kind() == ErrorKind::OutOfMemory {
        return ReadError::Memory;
    }
    *faults = faults.saturating_add(1);
    ReadError::Failed
}

/// One read, tried again if a signal interrupts it.
fn read_piece<R: io::Read>(reader: &mut R, buffer: &mut [u8]) -> io::Result<usize>
    ensures within { IfOk result (λ count. count ≤ length buffer.new) }
    ensures bytes { ReadConsumes (R.remaining reader.old)
        (R.remaining reader.new) result buffer.new }
{
    for _ in 1..TRIES {
        match reader.read(buffer) {
            Err(error) if error.kind() == ErrorKind::Interrupted => {}
            answer => return answer,
        }
    }
    reader.read(buffer)
}

/// One write, tried again if a signal interrupts it.
fn write_piece<W: io::Write>(writer: &mut W, piece: &[u8]) -> io::Result<usize>
    ensures within { IfOk result (λ count. count ≤ length piece.now) }
    ensures bytes { WriteAppends (W.contents writer.old) (W.contents writer.new) result piece.now }
{
    for _ in 1..TRIES {
        match writer.write(piece) {
            Err(error) if error.kind() == ErrorKind::Interrupted => {}
            answer => return answer,
        }
    }
    writer.write(piece)
}

impl<R> Reads<R> {
    /// A reader that hasn't failed.
    pub fn new(reader: R) -> Self
        ensures { result ≡ record { reader = reader; faults = 0 } }
    {
        Reads { reader, faults: 0 }
    }
}

impl<W> Writes<W> {
    /// A writer that hasn't failed.
    pub fn new(writer: W) -> Self
        ensures { result ≡ record { writer = writer; faults = 0 } }
    {
        Writes { writer, faults: 0 }
    }
}

impl<R: io::Read> Source for Reads<R> {
    ghost left = { λ _. None };

    ghost faults = { λ s. s.faults };

    /// One read of the reader, which loses no byte.
    fn read(&mut self, buffer: &mut [u8]) -> Result<usize, ReadError>
        ensures bytes { ReadConsumes (R.remaining self.old.reader)
            (R.remaining self.new.reader) result buffer.new }
        ensures counted { self.new.faults ≡ faults_after result self.old.faults }

        // What every source ensures.
        ensures within { IfOk result (λ count. count ≤ length buffer.new) }
        ensures cause { result ≡ Err ReadError.Failed → Rises self.old.faults self.new.faults }
        ensures counts { self.old.faults ≤ self.new.faults }
    {
        match read_piece(&mut self.reader, buffer) {
            Ok(count) => Ok(count),
            Err(error) => Err(read_error(error, &mut self.faults)),
        }
    }
}

impl<W: io::Write> Sink for Writes<W> {
    ghost taken = { λ _. None };

    ghost faults = { λ s. s.faults };

    /// One write to the writer, which loses no byte. A writer that takes nothing of a piece has
    /// failed.
    fn write(&mut self, piece: &[u8]) -> Result<usize, ReadError>
        ensures bytes { WriteAppends (W.contents self.old.writer)
            (W.contents self.new.writer) result piece.now }
        ensures counted { self.new.faults ≡ faults_after result self.old.faults }

        // What every sink ensures.
        ensures within { IfOk result (λ count. count ≤ length piece.now) }
        ensures moves { IfOk result (λ count. 0 < length piece.now → 0 < count) }
        ensures cause { result ≡ Err ReadError.Failed → Rises self.old.faults self.new.faults }
        ensures counts { self.old.faults ≤ self.new.faults }
    {
        match write_piece(&mut self.writer, piece) {
            Ok(0) if !piece.is_empty() => {
                let stuck = io::Error::from(ErrorKind::WriteZero);
                Err(read_error(stuck, &mut self.faults))
            }
            Ok(count) => Ok(count),
            Err(error) => Err(read_error(error, &mut self.faults)),
        }
    }
}
