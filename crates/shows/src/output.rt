//! Lines are handed to the output.

ghost use Rattle.std.specs.Prelude.{◌≤◌, OnOk, OnErr, IfErr};
ghost use Rattle.keep_core.specs.Revealed.{Takes, TakesPrefix};
ghost use Rattle.shows.specs.tables.Replies.{count_line};
ghost use Rattle.shows.specs.tables.Showing.{IsOutputFault};

use crate::shown::ShownRecord;
use keep_core::{ReadError, Sink, write_line};
use repl_types::{Fault, ShowError};
use reply_text::{Reply, write_reply};

/// Hands a line to the output.
fn hand_over<O: Sink>(output: &mut O, line: &[u8]) -> Result<(), ShowError>
    ensures ok { OnOk result (Takes (O.taken output.old) (O.taken output.new) line.now) }
    ensures err { OnErr result (TakesPrefix (O.taken output.old) (O.taken output.new)
        line.now) }
    ensures cause { IfErr result (IsOutputFault (O.faults output.old) (O.faults output.new)) }
    ensures counts { O.faults output.old ≤ O.faults output.new }
{
    match write_line(output, line) {
        Ok(()) => Ok(()),
        Err(ReadError::Memory) => Err(ShowError::Fault(Fault::Memory)),
        Err(ReadError::Failed) => Err(ShowError::Output),
    }
}

/// Writes the line of a record. The line is made in `line`, whatever that holds.
pub fn show_record<O: Sink, R: ShownRecord>(
    output: &mut O,
    key: &R::Key,
    row: R,
    line: &mut Vec<u8>,
) -> Result<(), ShowError>
    ensures ok { OnOk result (Takes (O.taken output.old) (O.taken output.new)
        (R.line key.now row)) }
    ensures err { OnErr result (TakesPrefix (O.taken output.old) (O.taken output.new)
        (R.line key.now row)) }
    ensures cause { IfErr result (IsOutputFault (O.faults output.old) (O.faults output.new)) }
    ensures counts { O.faults output.old ≤ O.faults output.new }
{
    line.clear();
    row.write_shown(key, line)?;
    hand_over(output, line.as_slice())
}

/// Writes the line that says how many rows were shown. The line is made in `line`, whatever that
/// holds.
pub fn show_count<O: Sink>(output: &mut O, rows: u64, line: &mut Vec<u8>) -> Result<(), ShowError>
    ensures ok { OnOk result (Takes (O.taken output.old) (O.taken output.new) (count_line rows)) }
    ensures err { OnErr result (TakesPrefix (O.taken output.old) (O.taken output.new)
        (count_line rows)) }
    ensures cause { IfErr result (IsOutputFault (O.faults output.old) (O.faults output.new)) }
    ensures counts { O.faults output.old ≤ O.faults output.new }
{
    line.clear();
    write_reply(&Reply::Shown { rows }, line)?;
    hand_over(output, line.as_slice())
}
