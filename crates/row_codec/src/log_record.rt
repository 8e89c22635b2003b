//! Records of a log.

ghost use Rattle.repl_types.specs.declared.area.Area.TheVariants as areas;
ghost use Rattle.std.specs.Prelude.{◌≡◌, ◌∷◌, ◌++◌, IfOk, OnOk};
ghost use Rattle.row_codec.specs.LogRecords.{change_spelling, IsChange, HasChangeSpelling};
ghost use Rattle.row_codec.specs.LogRecords.{log_spelling, IsLogRecord, HasLogSpelling};
ghost use Rattle.row_codec.specs.Spelling.{Is32, IsCounted, IsName, IsRow, b32, short_text};
ghost use Rattle.row_codec.specs.Spelling.{row_spelling};
ghost use Rattle.row_codec.specs.Storable.{IsStorable};
ghost use Rattle.row_codec.specs.Takes.{NoPrefix};
ghost use Rattle.row_codec.specs.laws.Again.{log_again};
ghost use Rattle.row_codec.specs.laws.LogRecords.{one_log_record};

use crate::part::Part;
use crate::parts::{take_four, take_three, take_two};
use crate::stored::Stored;
use crate::table_number::Table0;
use crate::take_error::TakeError;
use repl_types::{Area, Change, LogRecord, Name, Row, SetId};
use std::alloc::{AllocError, Global};

impl Part for LogRecord {
    ghost fits = { IsLogRecord };

    ghost has_spelling = { HasLogSpelling };

    ghost spelling = { log_spelling };

    ghost one = { one_log_record };

    ghost again = { log_again };

    fn put_part(&self, out: &mut Vec<u8>) -> Result<(), AllocError> {
        match self {
            LogRecord::Change { tx, change } => put_change(*tx, change, out),
            LogRecord::Commit {
                tx,
                time,
                authid,
                origin,
            } => {
                out.push(0x14)?;
                tx.put_part(out)?;
                time.put_part(out)?;
                authid.put_part(out)?;
                origin.put_part(out)
            }
            LogRecord::Abort { tx } => {
                out.push(0x15)?;
                tx.put_part(out)
            }
        }
    }

    fn take_part(alloc: Global, bytes: &[u8]) -> Result<(LogRecord, &[u8]), TakeError> {
        match bytes {
            [0x11, rest @ ..] => {
                let (tx, table, row, rest) = take_three::<u32, Name, Row>(alloc, rest)?;
                let change = Change::Insert { table, row };
                Ok((LogRecord::Change { tx, change }, rest))
            }
            [0x12, rest @ ..] => take_update(alloc, rest),
            [0x13, rest @ ..] => {
                let (tx, table, row, rest) = take_three::<u32, Name, Row>(alloc, rest)?;
                let change = Change::Delete { table, row };
                Ok((LogRecord::Change { tx, change }, rest))
            }
            [0x14, rest @ ..] => take_commit(alloc, rest),
            [0x15, rest @ ..] => {
                let (tx, rest) = u32::take_part(alloc, rest)?;
                Ok((LogRecord::Abort { tx }, rest))
            }
            [0x16, rest @ ..] => {
                let (tx, table, rest) = take_two::<u32, Name>(alloc, rest)?;
                let change = Change::Start { table };
                Ok((LogRecord::Change { tx, change }, rest))
            }
            [0x17, rest @ ..] => {
                let (tx, table, rest) = take_two::<u32, Name>(alloc, rest)?;
                let change = Change::Stop { table };
                Ok((LogRecord::Change { tx, change }, rest))
            }
            _ => Err(TakeError::Spelling),
        }
    }
}

impl Stored for LogRecord {
    type Key = u64;

    type Table = Table0;

    const AREA: Area = Area::Log;

    ghost AREA = { areas.Log };

    ghost storable = { IsStorable HasLogSpelling log_spelling };

    ghost spelled = { λ _ storable. storable.0 };

    ghost sized = { λ _ _ storable. storable.1 };

    ghost again_stored = { λ x fits sized. (log_again x fits, sized) };
}

/// Appends the spelling of a change of a transaction.
fn put_change(tx: u32, change: &Change, out: &mut Vec<u8>) -> Result<(), AllocError>
    requires { HasChangeSpelling change.now }
    ensures ok { OnOk result (out.new.items ≡ out.old.items ++ change_spelling tx change.now) }
    ensures fits { OnOk result (IsChange tx change.now) }
{
    match change {
        Change::Insert { table, row } => put_row_of(0x11, tx, table, row, out),
        Change::Update {
            table,
            before,
            after,
        } => {
            out.push(0x12)?;
            tx.put_part(out)?;
            table.put_part(out)?;
            before.put_part(out)?;
            after.put_part(out)
        }
        Change::Delete { table, row } => put_row_of(0x13, tx, table, row, out),
        Change::Start { table } => {
            out.push(0x16)?;
            tx.put_part(out)?;
            table.put_part(out)
        }
        Change::Stop { table } => {
            out.push(0x17)?;
            tx.put_part(out)?;
            table.put_part(out)
        }
    }
}

/// Appends the spelling of an insert or a delete, which begins with the tag.
fn put_row_of(
    tag: u8,
    tx: u32,
    table: &Name,
    row: &Row,
    out: &mut Vec<u8>,
) -> Result<(), AllocError>
    requires { IsCounted row.now }
    ensures ok { OnOk result
        (out.new.items
        ≡ out.old.items ++ tag ∷ b32 tx ++ short_text table.now ++ row_spelling row.now) }
    ensures fits { OnOk result (Is32 tx × IsName table.now × IsRow row.now) }
{
    out.push(tag)?;
    tx.put_part(out)?;
    table.put_part(out)?;
    row.put_part(out)
}

/// An update from the start of the bytes after its tag, and the bytes after it.
fn take_update(alloc: Global, bytes: &[u8]) -> Result<(LogRecord, &[u8]), TakeError>
    ensures ok { IfOk result
        (λ taken. IsLogRecord taken.0 × (0x12 ∷ bytes.now ≡ log_spelling taken.0 ++ taken.1.now)) }
    ensures spelling { result ≡ Err TakeError.Spelling
        → NoPrefix IsLogRecord log_spelling (0x12 ∷ bytes.now) }
{
    let (tx, table, before, after, rest) = take_four::<u32, Name, Row, Row>(alloc, bytes)?;
    let change = Change::Update {
        table,
        before,
        after,
    };
    Ok((LogRecord::Change { tx, change }, rest))
}

/// A commit from the start of the bytes after its tag, and the bytes after it.
fn take_commit(alloc: Global, bytes: &[u8]) -> Result<(LogRecord, &[u8]), TakeError>
    ensures ok { IfOk result
        (λ taken. IsLogRecord taken.0 × (0x14 ∷ bytes.now ≡ log_spelling taken.0 ++ taken.1.now)) }
    ensures spelling { result ≡ Err TakeError.Spelling
        → NoPrefix IsLogRecord log_spelling (0x14 ∷ bytes.now) }
{
    let (tx, time, authid, origin, rest) = take_four::<u32, u64, Name, Option<SetId>>(
        alloc, bytes,
    )?;
    let commit = LogRecord::Commit {
        tx,
        time,
        authid,
        origin,
    };
    Ok((commit, rest))
}
