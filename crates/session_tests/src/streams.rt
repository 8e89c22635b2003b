//! Runs over streams in memory of which a call fails, or that take one byte a call.

ghost use Rattle.std.specs.Prelude.{Some};

use crate::runs::{NONE, new_servers, source_of, words_of};
use keep_core::{ReadError, Sink, Source};
use keep_map::{BytesSink, BytesSource};
use repl_types::{List, Status};
use session_core::session;
use std::alloc::Global;
use std::test::Fail;

/// The words that ask for a script at both servers.
const SCRIPT: &str = "src=:map: dst=:map:";

/// A script of which the second and the fourth line are refused.
const TWO_REFUSED: &[u8] = b"# a comment\nfrob\n\n|x\n";

const TWO_REFUSALS: &[u8] = b"refused 1 UnknownCommand line 2\nrefused 2 BadLine line 4\n";

/// Two items, and a delete that doesn't name the row that stands, so its commit isn't taken.
const WRONG_DELETE: &[u8] = b"insert 1 items 1 'pen'\n\
insert 1 items 2 'ink'\n\
commit 1 ann 100\n\
delete 2 items 2 'pen'\n\
commit 2 ann 110\n";

const TWO_ROWS: &[u8] = b"row 1 'pen'\nrow 2 'ink'\nok rows 2\nrefused 10 NotApplicable line 5\n";

/// Words and an input, which write of the run fails, and what was written before it.
const WRITES: [(&str, &[u8], u64, &[u8]); 4] = [
    ("copy", WRONG_DELETE, 1, b""),
    ("copy", WRONG_DELETE, 3, b"row 1 'pen'\nrow 2 'ink'\n"),
    (SCRIPT, TWO_REFUSED, 1, b""),
    (SCRIPT, TWO_REFUSED, 2, b"refused 1 UnknownCommand line 2\n"),
];

/// More blank lines than two reads give: each asks for 65,536 bytes.
const MORE_THAN_TWO_READS: usize = 131_073;

/// Runs what these words ask for at the servers `src` and `dst`, which hold nothing.
fn run_over<I: Source, O: Sink>(
    alloc: Global,
    words: &str,
    input: &mut I,
    output: &mut O,
) -> Result<Status, Fail> {
    let words = words_of(alloc, words)?;
    let mut sites = new_servers(alloc, &["src", "dst"], NONE)?;
    sites.rollback_all();
    Ok(session(alloc, words.as_slice(), &mut sites, input, output))
}

/// Runs over an output of which the write of this number fails; 0 is the number of none.
fn run_to_failure(
    alloc: Global,
    words: &str,
    input: &mut BytesSource,
    write: u64,
) -> Result<(BytesSink, Status), Fail> {
    let mut output = BytesSink::new(alloc);
    output.fail_at(List::from_vec(vec![in alloc; write]?));
    let status = run_over(alloc, words, input, &mut output)?;
    Ok((output, status))
}

#[test]
fn a_failed_write_ends_a_run_after_the_lines_before(rt: HostRuntime) -> Result<(), Fail> {
    let alloc = rt.alloc();
    for (words, input, write, written) in WRITES {
        let mut input = source_of(alloc, input)?;
        let (output, status) = run_to_failure(alloc, words, &mut input, write)?;
        assert!(rt;
            status == Status::OutputFault && output.bytes() == written,
            "{words} {write}"
        );
    }
    Ok(())
}

/// Runs over an input of which the read of this number fails.
fn run_from_failure(
    alloc: Global,
    words: &str,
    mut input: BytesSource,
    read: u64,
) -> Result<(BytesSink, Status), Fail> {
    input.fail_at(List::from_vec(vec![in alloc; read]?));
    run_to_failure(alloc, words, &mut input, 0)
}

#[test]
fn a_failed_read_ends_a_copy_before_a_line_is_written(rt: HostRuntime) -> Result<(), Fail> {
    let alloc = rt.alloc();
    for read in [1, 3] {
        let blank_lines = vec![in alloc; b'\n'; MORE_THAN_TWO_READS]?;
        let input = BytesSource::new(List::from_vec(blank_lines));
        let (output, status) = run_from_failure(alloc, "copy", input, read)?;
        assert!(rt;
            status == Status::InputFault && output.bytes().is_empty(),
            "read {read}"
        );
    }
    Ok(())
}

#[test]
fn a_failed_read_of_its_end_ends_a_script_after_its_lines(rt: HostRuntime) -> Result<(), Fail> {
    let alloc = rt.alloc();
    let input = source_of(alloc, TWO_REFUSED)?;
    let (output, status) = run_from_failure(alloc, SCRIPT, input, 2)?;
    assert!(rt; status == Status::InputFault && output.bytes() == TWO_REFUSALS);
    Ok(())
}

/// A sink that takes one byte a call.
#[derive(Drop)]
struct Drip {
    bytes: Vec<u8>,
}

impl Sink for Drip {
    ghost taken = { λ drip. Some drip.bytes.items };

    ghost faults = { λ _. 0 };

    fn write(&mut self, piece: &[u8]) -> Result<usize, ReadError> {
        let Some(byte) = piece.first() else {
            return Ok(0);
        };
        match self.bytes.push(*byte) {
            Ok(()) => Ok(1),
            Err(_) => Err(ReadError::Memory),
        }
    }
}

#[test]
fn a_sink_that_takes_a_byte_at_a_time_gets_it_all(rt: HostRuntime) -> Result<(), Fail> {
    let alloc = rt.alloc();
    let mut input = source_of(alloc, WRONG_DELETE)?;
    let mut output = Drip {
        bytes: Vec::new(alloc),
    };
    let status = run_over(alloc, "copy", &mut input, &mut output)?;
    assert!(rt; status == Status::Refused && output.bytes.as_slice() == TWO_ROWS);
    Ok(())
}
