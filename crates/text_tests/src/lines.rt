//! Lines of a source that would go on after its end.

ghost use Rattle.std.specs.Prelude.{None};

use keep_core::{ReadError, Source};
use line_input::{Input, Next};
use std::test::Fail;

/// A source like a terminal: it gives a line, a last line with no line feed, and the end; if it is
/// asked again, it gives more lines. It gives one byte a call.
#[derive(Drop)]
struct Terminal {
    reads: u64,
}

impl Source for Terminal {
    ghost left = { λ _. None };

    ghost faults = { λ _. 0 };

    fn read(&mut self, buffer: &mut [u8]) -> Result<usize, ReadError> {
        self.reads = self.reads.saturating_add(1);
        if buffer.is_empty() || self.reads == 4 {
            return Ok(0);
        }
        buffer[0] = if self.reads % 2 == 0 { b'\n' } else { b'x' };
        Ok(1)
    }
}

#[test]
fn the_source_is_not_asked_after_its_end(rt: HostRuntime) -> Result<(), Fail> {
    let mut source = Terminal { reads: 0 };
    let mut input = Input::new(rt.alloc())?;
    let mut line = Vec::new(rt.alloc());
    for (next, text) in [
        (Next::Line, b"x".as_slice()),
        (Next::Line, b"x".as_slice()),
        (Next::End, b"".as_slice()),
        (Next::End, b"".as_slice()),
    ] {
        assert_eq!(rt; input.next_line(&mut source, &mut line), Ok(next));
        assert_eq!(rt; line.as_slice(), text);
    }
    assert_eq!(rt; source.reads, 4);
    Ok(())
}
