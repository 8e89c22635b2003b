//! Streams of which the first calls fail.

ghost use Rattle.std.specs.Prelude.{◌≡◌, IfOk};

use crate::{Reads, Writes};
use keep_core::{ReadError, Sink, Source};
use std::io;
use std::io::ErrorKind;

/// A stream whose first calls fail; then it is an empty input, and takes each piece whole.
#[derive(Clone, Copy, Drop)]
struct Failing {
    kind: ErrorKind,
    times: u64,
}

impl Failing {
    fn answer(&mut self, count: usize) -> io::Result<usize>
        ensures { IfOk result (λ n. n ≡ count) }
    {
        if self.times == 0 {
            return Ok(count);
        }
        self.times -= 1;
        Err(io::Error::from(self.kind))
    }
}

impl io::Read for Failing {
    fn read(&mut self, _buffer: &mut [u8]) -> io::Result<usize> {
        self.answer(0)
    }
}

impl io::Write for Failing {
    fn write(&mut self, piece: &[u8]) -> io::Result<usize> {
        self.answer(piece.len())
    }

    fn flush(&mut self) -> io::Result<()> {
        Ok(())
    }
}

/// What a read and a write answer if so many calls fail with an error of this kind.
fn answers(kind: ErrorKind, times: u64) -> (Result<usize, ReadError>, Result<usize, ReadError>) {
    let failing = Failing { kind, times };
    let mut buffer = *b"....";
    let read = Reads::new(failing).read(&mut buffer);
    (read, Writes::new(failing).write(b"line"))
}

#[test]
fn an_error_is_a_failure_unless_it_is_about_memory(rt: HostRuntime) {
    for (kind, error) in [
        (ErrorKind::OutOfMemory, ReadError::Memory),
        (ErrorKind::PermissionDenied, ReadError::Failed),
        (ErrorKind::StorageFull, ReadError::Failed),
    ] {
        assert!(rt; answers(kind, 1) == (Err(error), Err(error)), "at {kind:?}");
    }
}

#[test]
fn an_interrupted_call_is_tried_sixteen_times(rt: HostRuntime) {
    let failed = Err(ReadError::Failed);
    assert!(rt; answers(ErrorKind::Interrupted, 15) == (Ok(0), Ok(4)));
    assert!(rt; answers(ErrorKind::Interrupted, 16) == (failed, failed));
}
