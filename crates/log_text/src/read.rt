//! The reader of log records.

ghost use Rattle.std.specs.Prelude.{◌≡◌, IfOk, IfSome, Some, None};
ghost use Rattle.std.specs.Option.{option_map};
ghost use Rattle.std.specs.List.{before_first};
ghost use Rattle.std.specs.Str.{bytes_eq};
ghost use Rattle.log_text.specs.Words.{words};
ghost use Rattle.log_text.specs.Records.{is_arrow, from_arrow, tx_of, values_of, row_of, update_of};
ghost use Rattle.log_text.specs.Records.{table_change_of, change_of_words, commit_of, tx_record_of};
ghost use Rattle.log_text.specs.Records.{record_of};

use crate::words::next_word;
use repl_types::{Change, List, LogRecord, Name, ROW_LIMIT, Row, read_number, read_value};
use std::alloc::{AllocError, Global};
use thiserror::Error;

/// The highest number of a user's transaction.
const TX_LIMIT: u64 = 4_294_967_295;

/// The latest time of a user's commit, in seconds.
const TIME_LIMIT: u64 = 1_000_000_000_000;

/// Why a line gave no record.
#[derive(Clone, Copy, Debug, PartialEq, Eq, Error)]
pub enum ReadLogError {
    #[error("out of memory")]
    Memory,
    #[error("not a log record")]
    BadLog,
}

impl From<AllocError> for ReadLogError {
    ghost use Rattle.std.specs.Prelude.{◌≡◌};
    ghost use Rattle.log_text.specs.declared.read.ReadLogError.TheVariants.{Memory};

    ghost from_gives = { λ _ e. e ≡ Memory };

    fn from(_: AllocError) -> ReadLogError {
        ReadLogError::Memory
    }
}

/// Whether a word is this text.
fn is_word(word: &[u8], text: &[u8]) -> bool
    ensures { result ≡ bytes_eq word.now text.now }
{
    word == text
}

/// The values up to an arrow, or up to the end, and the line from that arrow on.
fn read_values(alloc: Global, line: &[u8]) -> Result<Option<(Row, &[u8])>, AllocError>
    ensures values { IfOk result (λ found. option_map (λ row. row.0) found
        ≡ values_of (before_first is_arrow (words line.now))) }
    ensures rest { IfOk result (λ found. IfSome found (λ row. words row.1.now
        ≡ from_arrow (words line.now))) }
{
    let mut values = List::new(alloc);
    let mut rest = line;
    while let Some((word, after)) = next_word(rest) {
        if is_word(word, b"->") {
            break;
        }
        match read_value(alloc, word)? {
            Some(value) => values.push(value)?,
            None => return Ok(None),
        }
        rest = after;
    }
    Ok(Some((values, rest)))
}

/// A row of 1 to 64 values, and the line from the arrow on.
#[tactic(auto, unfolding(crate::specs::Records::row_of))]
fn read_row(alloc: Global, line: &[u8]) -> Result<Option<(Row, &[u8])>, AllocError>
    ensures row { IfOk result (λ found. option_map (λ row. row.0) found
        ≡ row_of (before_first is_arrow (words line.now))) }
    ensures rest { IfOk result (λ found. IfSome found (λ row. words row.1.now
        ≡ from_arrow (words line.now))) }
{
    let Some((row, rest)) = read_values(alloc, line)? else {
        return Ok(None);
    };
    if row.is_empty() || row.len() > ROW_LIMIT {
        return Ok(None);
    }
    Ok(Some((row, rest)))
}

/// A row that is all of the line.
fn read_last_row(alloc: Global, line: &[u8]) -> Result<Option<Row>, AllocError>
    ensures { IfOk result (λ row. row ≡ row_of (words line.now)) }
{
    let Some((row, rest)) = read_row(alloc, line)? else {
        return Ok(None);
    };
    match next_word(rest) {
        None => Ok(Some(row)),
        Some(_) => Ok(None),
    }
}

/// The rows of an update, the one before an arrow and the one after it.
#[tactic(auto, unfolding(crate::specs::Records::update_of))]
fn read_update(alloc: Global, table: Name, line: &[u8]) -> Result<Option<Change>, AllocError>
    ensures { IfOk result (λ change. change ≡ update_of table (words line.now)) }
{
    let Some((before, rest)) = read_row(alloc, line)? else {
        return Ok(None);
    };
    let Some((_, rest)) = next_word(rest) else {
        return Ok(None);
    };
    let Some(after) = read_last_row(alloc, rest)? else {
        return Ok(None);
    };
    Ok(Some(Change::Update {
        table,
        before,
        after,
    }))
}

/// The change of a table that a verb and the rest of its line spell.
fn read_table_change(
    alloc: Global,
    verb: &[u8],
    table: Name,
    line: &[u8],
) -> Result<Option<Change>, AllocError>
    ensures { IfOk result (λ change. change ≡ table_change_of verb.now table (words line.now)) }
{
    if is_word(verb, b"insert") {
        return match read_last_row(alloc, line)? {
            Some(row) => Ok(Some(Change::Insert { table, row })),
            None => Ok(None),
        };
    }
    if is_word(verb, b"delete") {
        return match read_last_row(alloc, line)? {
            Some(row) => Ok(Some(Change::Delete { table, row })),
            None => Ok(None),
        };
    }
    if is_word(verb, b"update") {
        return read_update(alloc, table, line);
    }
    Ok(None)
}

/// The change that a verb and what follows the transaction spell.
#[tactic(auto, unfolding(crate::specs::Records::change_of_words))]
fn read_change(alloc: Global, verb: &[u8], line: &[u8]) -> Result<Option<Change>, AllocError>
    ensures { IfOk result (λ change. change ≡ change_of_words verb.now (words line.now)) }
{
    let Some((name, rest)) = next_word(line) else {
        return Ok(None);
    };
    let Some(table) = Name::read(alloc, name)? else {
        return Ok(None);
    };
    read_table_change(alloc, verb, table, rest)
}

/// The commit of a transaction: its user and its time.
#[tactic(auto, unfolding(crate::specs::Records::commit_of))]
fn read_commit(alloc: Global, tx: u32, line: &[u8]) -> Result<Option<LogRecord>, AllocError>
    ensures { IfOk result (λ found. found ≡ commit_of tx (words line.now)) }
{
    let Some((name, rest)) = next_word(line) else {
        return Ok(None);
    };
    let Some((time, rest)) = next_word(rest) else {
        return Ok(None);
    };
    if next_word(rest).is_some() {
        return Ok(None);
    }
    let Some(authid) = Name::read(alloc, name)? else {
        return Ok(None);
    };
    let Some(time) = read_number(time, 0, TIME_LIMIT) else {
        return Ok(None);
    };
    Ok(Some(LogRecord::Commit {
        tx,
        time,
        authid,
        origin: None,
    }))
}

/// The record of a transaction that a verb and what follows the transaction spell.
fn read_tx_record(
    alloc: Global,
    verb: &[u8],
    tx: u32,
    line: &[u8],
) -> Result<Option<LogRecord>, AllocError>
    ensures { IfOk result (λ found. found ≡ tx_record_of verb.now tx (words line.now)) }
{
    if is_word(verb, b"commit") {
        return read_commit(alloc, tx, line);
    }
    if is_word(verb, b"abort") {
        return match next_word(line) {
            None => Ok(Some(LogRecord::Abort { tx })),
            Some(_) => Ok(None),
        };
    }
    match read_change(alloc, verb, line)? {
        Some(change) => Ok(Some(LogRecord::Change { tx, change })),
        None => Ok(None),
    }
}

/// The number of a user's transaction.
fn read_tx(word: &[u8]) -> Option<u32>
    ensures { result ≡ tx_of word.now }
{
    match read_number(word, 1, TX_LIMIT) {
        Some(number) => u32::try_from(number).ok(),
        None => None,
    }
}

/// The record whose text a line is, if it is one.
#[tactic(auto, unfolding(crate::specs::Records::record_of_words))]
fn record_from(alloc: Global, line: &[u8]) -> Result<Option<LogRecord>, AllocError>
    ensures { IfOk result (λ found. found ≡ record_of line.now) }
{
    let Some((verb, rest)) = next_word(line) else {
        return Ok(None);
    };
    let Some((number, rest)) = next_word(rest) else {
        return Ok(None);
    };
    let Some(tx) = read_tx(number) else {
        return Ok(None);
    };
    read_tx_record(alloc, verb, tx, rest)
}

/// The record whose text a line is. `BadLog` is returned only if the line is the text of no record,
/// and `Memory` only if there is no memory for the record.
pub fn read_record(alloc: Global, line: &[u8]) -> Result<LogRecord, ReadLogError>
    ensures ok { IfOk result (λ found. record_of line.now ≡ Some found) }
    ensures bad { result ≡ Err ReadLogError.BadLog → record_of line.now ≡ None }
{
    match record_from(alloc, line)? {
        Some(record) => Ok(record),
        None => Err(ReadLogError::BadLog),
    }
}
