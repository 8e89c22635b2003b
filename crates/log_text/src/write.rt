//! The writer of log records.

ghost use Rattle.std.specs.Prelude.{◌≡◌, ◌++◌, ◌∷◌, [], codes, decimal, map, OnOk};
ghost use Rattle.repl_types.specs.ValueText.{value_text};
ghost use Rattle.log_text.specs.Words.{blank};
ghost use Rattle.log_text.specs.RecordText.{spaced, line_of, head_words, change_words};
ghost use Rattle.log_text.specs.RecordText.{origin_words, record_text};

use itoa::Buffer;
use repl_types::{Change, LogRecord, Name, Row, SetId, write_value};
use std::alloc::AllocError;

/// Appends a blank and a word.
fn write_word(word: &[u8], out: &mut Vec<u8>) -> Result<(), AllocError>
    ensures { OnOk result (out.new.items ≡ out.old.items ++ blank ∷ word.now) }
{
    out.push(b' ')?;
    out.extend_from_slice(word)
}

/// Appends a blank and a number.
fn write_number(number: u64, out: &mut Vec<u8>) -> Result<(), AllocError>
    ensures { OnOk result (out.new.items ≡ out.old.items ++ blank ∷ decimal number) }
{
    write_word(Buffer::new().format(number).as_bytes(), out)
}

/// Appends the texts of a row's values, with a blank before each.
fn write_values(row: &Row, out: &mut Vec<u8>) -> Result<(), AllocError>
    ensures { OnOk result (out.new.items ≡ out.old.items ++ spaced (map value_text row.now)) }
{
    for value in row.as_slice() {
        out.push(b' ')?;
        write_value(value, out)?;
    }
    Ok(())
}

/// Appends the first words of a line: its verb, its transaction, and a table or a user.
fn write_head(verb: &[u8], tx: u32, name: &Name, out: &mut Vec<u8>) -> Result<(), AllocError>
    ensures { OnOk result (out.new.items
        ≡ out.old.items ++ line_of (head_words verb.now tx name.now)) }
{
    out.extend_from_slice(verb)?;
    write_number(u64::from(tx), out)?;
    write_word(name.as_str().as_bytes(), out)
}

/// Appends the line of an update.
fn write_update(
    tx: u32,
    table: &Name,
    before: &Row,
    after: &Row,
    out: &mut Vec<u8>,
) -> Result<(), AllocError>
    ensures { OnOk result (out.new.items
        ≡ out.old.items ++ line_of (head_words (codes "update") tx table.now
        ++ map value_text before.now ++ codes "->" ∷ map value_text after.now)) }
{
    write_head(b"update", tx, table, out)?;
    write_values(before, out)?;
    write_word(b"->", out)?;
    write_values(after, out)
}

/// Appends the line of an insert or a delete.
fn write_row_change(
    verb: &[u8],
    tx: u32,
    table: &Name,
    row: &Row,
    out: &mut Vec<u8>,
) -> Result<(), AllocError>
    ensures { OnOk result (out.new.items
        ≡ out.old.items ++ line_of (head_words verb.now tx table.now ++ map value_text row.now)) }
{
    write_head(verb, tx, table, out)?;
    write_values(row, out)
}

/// Appends the line of a change.
fn write_change(tx: u32, change: &Change, out: &mut Vec<u8>) -> Result<(), AllocError>
    ensures { OnOk result (out.new.items ≡ out.old.items ++ line_of (change_words tx change.now)) }
{
    match change {
        Change::Insert { table, row } => write_row_change(b"insert", tx, table, row, out),
        Change::Update {
            table,
            before,
            after,
        } => write_update(tx, table, before, after, out),
        Change::Delete { table, row } => write_row_change(b"delete", tx, table, row, out),
        Change::Start { table } => write_head(b"capstart", tx, table, out),
        Change::Stop { table } => write_head(b"capstop", tx, table, out),
    }
}

/// Appends the words of the set that made a unit, if a set did.
fn write_origin(origin: &Option<SetId>, out: &mut Vec<u8>) -> Result<(), AllocError>
    ensures { OnOk result (out.new.items ≡ out.old.items ++ spaced (origin_words origin.now)) }
{
    let Some(set) = origin else {
        return Ok(());
    };
    write_word(b"origin", out)?;
    write_word(set.qual.as_str().as_bytes(), out)?;
    out.push(b'/')?;
    out.extend_from_slice(set.name.as_str().as_bytes())
}

/// Appends the line of a commit.
fn write_commit(
    tx: u32,
    time: u64,
    authid: &Name,
    origin: &Option<SetId>,
    out: &mut Vec<u8>,
) -> Result<(), AllocError>
    ensures { OnOk result (out.new.items
        ≡ out.old.items ++ line_of (head_words (codes "commit") tx authid.now
        ++ decimal time ∷ origin_words origin.now)) }
{
    write_head(b"commit", tx, authid, out)?;
    write_number(time, out)?;
    write_origin(origin, out)
}

/// Appends the line of a record, without a line feed. `read_record` takes the lines of a user's
/// records: inserts, updates and deletes of 1 to 64 values a side, aborts, and commits that no set
/// made, each of a transaction other than 0. It doesn't take the lines of the program's own
/// records: `capstart TX TABLE` and `capstop TX TABLE`, and a commit that ends in `origin
/// QUAL/NAME`. If memory runs out, what `out` holds is unspecified.
pub fn write_record(record: &LogRecord, out: &mut Vec<u8>) -> Result<(), AllocError>
    ensures { OnOk result (out.new.items ≡ out.old.items ++ record_text «record».now) }
{
    match record {
        LogRecord::Change { tx, change } => write_change(*tx, change, out),
        LogRecord::Commit {
            tx,
            time,
            authid,
            origin,
        } => write_commit(*tx, *time, authid, origin, out),
        LogRecord::Abort { tx } => {
            out.extend_from_slice(b"abort")?;
            write_number(u64::from(*tx), out)
        }
    }
}
