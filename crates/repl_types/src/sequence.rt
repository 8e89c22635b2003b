//! Sequences: places in a log.

ghost use Rattle.std.specs.Prelude.{◌≡◌, ◌++◌, OnOk};
ghost use Rattle.repl_types.specs.Sequence.{sequence_cmp, hex_digits, sequence_text};

use std::alloc::AllocError;
use std::cmp::Ordering;

/// A place in a log: a position, and a sub-number, which is 1 for the insert of a delete and insert
/// and else 0. Sequences are in the order of their positions, and those of one position in the
/// order of their sub-numbers.
#[derive(Clone, Copy, Debug, PartialEq, Eq, PartialOrd, Ord)]
pub struct Sequence {
    pub position: u64,
    pub sub: u16,
}

/// Which of two sequences comes first, as their derived order has it.
pub fn sequence_order(first: &Sequence, second: &Sequence) -> Ordering
    ensures { result ≡ sequence_cmp first.now second.now }
{
    first.cmp(second)
}

/// The hexadecimal digits, from 0 on.
const HEX_DIGITS: &[u8; 16] = b"0123456789abcdef";

/// Appends the text of a sequence: 20 hexadecimal digits, 16 of the position and 4 of the
/// sub-number. If memory runs out, what `out` holds is unspecified.
pub fn write_sequence(sequence: &Sequence, out: &mut Vec<u8>) -> Result<(), AllocError>
    ensures ok { OnOk result (out.new.items ≡ out.old.items ++ sequence_text sequence.now) }
{
    write_hex(sequence.position, 16, out)?;
    write_hex(u64::from(sequence.sub), 4, out)
}

/// Appends the last `count` hexadecimal digits of a number, with zeros before them if it has fewer.
fn write_hex(number: u64, count: u32, out: &mut Vec<u8>) -> Result<(), AllocError>
    ensures ok { OnOk result (out.new.items ≡ out.old.items ++ hex_digits count number) }
{
    if count == 0 {
        return Ok(());
    }
    write_hex(number / 16, count - 1, out)?;
    let digit = HEX_DIGITS[(number % 16) as usize];
    Ok(out.push(digit)?)
}
