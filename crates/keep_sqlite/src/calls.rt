//! The calls of the database. No clause here names what it holds.

ghost use Rattle.std.specs.Prelude.{◌≡◌, ◌≤◌, ◌<◌, ◌↔◌, IsTrue, length, IfOk, OnOk};
ghost use Rattle.std.specs.declared.cmp.Ordering.TheVariants.{Less};
ghost use Rattle.repl_types.specs.Bytes.{bytes_cmp};
ghost use Rattle.repl_types.specs.Sizes.{IsValueSize, key_limit};
ghost use Rattle.keep_core.specs.Kept.{GivesValue, GivesNext};

use crate::statements::{DELETE, GET, NEXT, ROLLBACK, UPSERT};
use keep_core::KeepError;
use repl_types::{Area, KEY_LIMIT, VALUE_LIMIT};
use sqlite::types::ValueRef;
use sqlite::{Alter, Connection, Error, ErrorCode, Row, Rows, params};
use std::cmp::Ordering;

/// What an error of the database is to a keeper.
pub fn keep_error(error: Error) -> KeepError
    ensures { (result ≡ KeepError.Memory) ↔ (error ≡ Error.SqliteFailure ErrorCode.OutOfMemory) }
{
    match error {
        Error::SqliteFailure(ErrorCode::OutOfMemory) => KeepError::Memory,
        _ => KeepError::Failed,
    }
}

/// Runs a statement that has no parameters.
pub fn run<S: Alter>(conn: &mut Connection<S>, text: &str) -> Result<(), KeepError> {
    conn.execute(text, &[]).map_err(keep_error)?;
    Ok(())
}

/// Tries whether a statement fits the table.
fn try_text<S: Alter>(conn: &mut Connection<S>, text: &str) -> Result<(), KeepError> {
    conn.prepare(text).map_err(keep_error)?;
    Ok(())
}

/// Tries whether the statements fit the table, which is refused else: it may be a view, have other
/// columns, or lack the key.
pub fn try_table<S: Alter>(conn: &mut Connection<S>) -> Result<(), KeepError> {
    try_text(conn, GET)?;
    try_text(conn, NEXT)?;
    try_text(conn, UPSERT)?;
    try_text(conn, DELETE)
}

/// Rolls back the transaction, if one is open.
pub fn roll_back<S: Alter>(conn: &mut Connection<S>) -> Result<(), KeepError> {
    if conn.is_autocommit() {
        return Ok(());
    }
    run(conn, ROLLBACK)
}

/// Puts a row.
pub fn put<S: Alter>(
    conn: &mut Connection<S>,
    area: Area,
    table: u32,
    key: &[u8],
    value: &[u8],
) -> Result<(), KeepError> {
    conn.execute(UPSERT, params![u32::from(area.number()), table, key, value])
        .map_err(keep_error)?;
    Ok(())
}

/// Removes a row, and answers whether there was one.
pub fn remove<S: Alter>(
    conn: &mut Connection<S>,
    area: Area,
    table: u32,
    key: &[u8],
) -> Result<bool, KeepError> {
    let count = conn
        .execute(DELETE, params![u32::from(area.number()), table, key])
        .map_err(keep_error)?;
    Ok(count > 0)
}

/// The rows at a key, or above it.
fn query<'conn, S: Alter>(
    conn: &'conn mut Connection<S>,
    text: &str,
    area: Area,
    table: u32,
    key: &[u8],
) -> Result<Rows<'conn, S>, KeepError> {
    match conn.query(text, params![u32::from(area.number()), table, key]) {
        Ok(rows) => Ok(rows),
        Err(error) => Err(keep_error(error)),
    }
}

/// Puts the bytes of a column in `out`. A column that isn't a BLOB, or has more bytes than the
/// limit, is `Failed`: another program wrote it.
fn take_bytes(row: &Row, at: usize, limit: usize, out: &mut Vec<u8>) -> Result<(), KeepError>
    ensures { OnOk result (length out.new.items ≤ limit) }
{
    let Ok(ValueRef::Blob(bytes)) = row.get_ref(at) else {
        return Err(KeepError::Failed);
    };
    if bytes.len() > limit {
        return Err(KeepError::Failed);
    }
    out.clear();
    out.extend_from_slice(bytes).map_err(|_| KeepError::Memory)
}

/// Answers whether a query has a row, and puts its value in `out`.
fn value_of<S: Alter>(rows: &mut Rows<'_, S>, out: &mut Vec<u8>) -> Result<bool, KeepError>
    ensures { IfOk result (λ found. GivesValue found out.new.items) }
{
    match rows.next() {
        Ok(Some(row)) => {
            take_bytes(row, 0, VALUE_LIMIT, out)?;
            Ok(true)
        }
        Ok(None) => {
            out.clear();
            Ok(false)
        }
        Err(error) => Err(keep_error(error)),
    }
}

/// Answers whether there is a row at the key, and puts its value in `out`.
pub fn get<S: Alter>(
    conn: &mut Connection<S>,
    area: Area,
    table: u32,
    key: &[u8],
    out: &mut Vec<u8>,
) -> Result<bool, KeepError>
    ensures { IfOk result (λ found. GivesValue found out.new.items) }
{
    let mut rows = query(conn, GET, area, table, key)?;
    value_of(&mut rows, out)
}

/// Whether a key may be the next one after another.
fn may_follow(after: &[u8], key: &[u8]) -> bool
    ensures { IsTrue result → (bytes_cmp after.now key.now ≡ Less) × (0 < length key.now) }
{
    !key.is_empty() && after.cmp(key) == Ordering::Less
}

/// Puts the key and the value of a row in `key` and `out`. A row that may not follow `after` is
/// `Failed`.
fn take_row(row: &Row, after: &[u8], key: &mut Vec<u8>, out: &mut Vec<u8>) -> Result<(), KeepError>
    ensures above { OnOk result (bytes_cmp after.now key.new.items ≡ Less) }
    ensures some { OnOk result (0 < length key.new.items) }
    ensures short { OnOk result (length key.new.items ≤ key_limit) }
    ensures value { OnOk result (IsValueSize out.new.items) }
{
    take_bytes(row, 0, KEY_LIMIT, key)?;
    take_bytes(row, 1, VALUE_LIMIT, out)?;
    if may_follow(after, key.as_slice()) {
        Ok(())
    } else {
        Err(KeepError::Failed)
    }
}

/// Answers whether a query has a row, and puts its key and value in `key` and `out`.
fn row_of<S: Alter>(
    rows: &mut Rows<'_, S>,
    after: &[u8],
    key: &mut Vec<u8>,
    out: &mut Vec<u8>,
) -> Result<bool, KeepError>
    ensures { IfOk result (λ found. GivesNext after.now found key.new.items out.new.items) }
{
    match rows.next() {
        Ok(Some(row)) => {
            take_row(row, after, key, out)?;
            Ok(true)
        }
        Ok(None) => {
            key.clear();
            out.clear();
            Ok(false)
        }
        Err(error) => Err(keep_error(error)),
    }
}

/// Answers whether there is a row above `after`, and puts the key and the value of the first one in
/// `key` and `out`.
pub fn next<S: Alter>(
    conn: &mut Connection<S>,
    area: Area,
    table: u32,
    after: &[u8],
    key: &mut Vec<u8>,
    out: &mut Vec<u8>,
) -> Result<bool, KeepError>
    ensures { IfOk result (λ found. GivesNext after.now found key.new.items out.new.items) }
{
    let mut rows = query(conn, NEXT, area, table, after)?;
    row_of(&mut rows, after, key, out)
}
