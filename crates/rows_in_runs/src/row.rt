//! Rows of one run, and what they had before.

ghost use Rattle.std.specs.Prelude.{◌≡◌, ◌++◌, ◌∷◌, [], length, take, OnOk, OnErr, IfOk};
ghost use Rattle.std.specs.Prelude.{IfSome, IfNone, Option, Some, ℕ, ◌+◌, ◌<◌};
ghost use Rattle.std.specs.Option.{option_map, is_some};
ghost use Rattle.std.specs.List.{All, filter};
ghost use Rattle.repl_types.specs.Sizes.{IsKeySize, IsValueSize};
ghost use Rattle.rows_in_runs.specs.Rows.{piece_bytes, value_bytes, rows_of, keys_in, IsRising};
ghost use Rattle.rows_in_runs.specs.Rows.{IsValue, IsRow, IsOld, Extends, with_value, rows_before};
ghost use Rattle.rows_in_runs.specs.Rows.{held_rows, IsFirstAbove, NoValues, IsFirstValue};

use std::alloc::AllocError;

/// A piece of the bytes of a run.
#[derive(Clone, Copy, Debug)]
pub struct Piece {
    pub at: usize,
    pub len: usize,
}

/// The key of a row, and its value if it has one.
#[derive(Clone, Copy, Debug)]
pub struct RunRow {
    pub key: Piece,
    pub now: Option<Piece>,
}

/// What the row at a place had before a change.
#[derive(Clone, Copy, Debug)]
pub struct Old {
    pub row: usize,
    pub now: Option<Piece>,
}

/// The bytes of a piece.
pub fn piece_of(bytes: &[u8], piece: Piece) -> &[u8]
    ensures { result.now ≡ piece_bytes bytes.now piece }
{
    let start = piece.at.min(bytes.len());
    let rest = &bytes[start..];
    let end = piece.len.min(rest.len());
    &rest[..end]
}

/// Stores a piece behind the other bytes. After an error the bytes are as before.
pub fn store(bytes: &mut Vec<u8>, piece: &[u8]) -> Result<Piece, AllocError>
    ensures ok { IfOk result (λ p. piece_bytes bytes.new.items p ≡ piece.now) }
    ensures len { IfOk result (λ p. p.len ≡ length piece.now) }
    ensures ends { IfOk result (λ p. p.at + p.len ≡ length bytes.new.items) }
    ensures more { Extends bytes.old.items bytes.new.items }
{
    let at = bytes.len();
    bytes.extend_from_slice(piece)?;
    Ok(Piece {
        at,
        len: piece.len(),
    })
}

/// Stores a value, if there is one. After an error the bytes are as before.
pub fn store_value(bytes: &mut Vec<u8>, value: Option<&[u8]>) -> Result<Option<Piece>, AllocError>
    requires { IfSome value (λ v. IsValueSize v.now) }
    ensures ok { IfOk result (λ now. value_bytes bytes.new.items now
        ≡ option_map (λ v. v.now) value.entry) }
    ensures size { IfOk result (λ now. IsValue (length bytes.new.items) now) }
    ensures more { Extends bytes.old.items bytes.new.items }
{
    match value {
        Some(value) => Ok(Some(store(bytes, value)?)),
        None => Ok(None),
    }
}

/// A new row at the end. After an error all rows are as before.
pub fn push_row(
    bytes: &mut Vec<u8>,
    rows: &mut Vec<RunRow>,
    key: &[u8],
    value: &[u8],
) -> Result<(), AllocError>
    requires fit { All (IsRow (length bytes.old.items)) rows.old.items }
    requires key { IsKeySize key.now }
    requires value { IsValueSize value.now }
    ensures ok { OnOk result (rows_of bytes.new.items rows.new.items
        ≡ rows_of bytes.old.items rows.old.items ++ (key.now, Some value.now) ∷ []) }
    ensures err { OnErr result (rows.new.items ≡ rows.old.items) }
    ensures fit { All (IsRow (length bytes.new.items)) rows.new.items }
    ensures more { Extends bytes.old.items bytes.new.items }
    ensures front { take (length rows.old.items) rows.new.items ≡ rows.old.items }
{
    let key = store(bytes, key)?;
    let now = Some(store(bytes, value)?);
    rows.push(RunRow { key, now })?;
    Ok(())
}

/// Sets the value of the row at the place. If the row is among those that were settled, it first
/// notes what the row had. After an error all rows are as before.
pub fn change_row(
    rows: &mut Vec<RunRow>,
    olds: &mut Vec<Old>,
    settled: usize,
    at: usize,
    now: Option<Piece>,
) -> Result<(), AllocError>
    requires { at < length rows.old.items }
    ensures ok { OnOk result (rows.new.items ≡ with_value rows.old.items at now) }
    ensures err { OnErr result (rows.new.items ≡ rows.old.items) }
    ensures held { held_rows settled rows.new.items olds.new.items
        ≡ held_rows settled rows.old.items olds.old.items }
    ensures olds { (n : ℕ) → All (IsRow n) rows.old.items → All (IsOld n) olds.old.items
        → All (IsOld n) olds.new.items }
{
    note_old(rows, olds, settled, at)?;
    set_value(rows, at, now);
    Ok(())
}

/// Notes what the row at the place has, if the row is among those that were settled. The rows from
/// before the changes are then the same whatever the row is set to.
fn note_old(
    rows: &[RunRow],
    olds: &mut Vec<Old>,
    settled: usize,
    at: usize,
) -> Result<(), AllocError>
    requires { at < length rows.now }
    ensures ok { OnOk result ((now : Option Piece)
        → held_rows settled (with_value rows.now at now) olds.new.items
        ≡ held_rows settled rows.now olds.old.items) }
    ensures err { OnErr result (olds.new.items ≡ olds.old.items) }
    ensures olds { (n : ℕ) → All (IsRow n) rows.now → All (IsOld n) olds.old.items
        → All (IsOld n) olds.new.items }
{
    if at < settled {
        let now = rows[at].now;
        olds.push(Old { row: at, now })?;
    }
    Ok(())
}

/// Sets the value of the row at the place, if there is such a row.
fn set_value(rows: &mut Vec<RunRow>, at: usize, now: Option<Piece>)
    ensures { rows.new.items ≡ with_value rows.old.items at now }
{
    if at < rows.len() {
        rows[at].now = now;
    }
}

/// Puts back what rows had, from the newest entry to the oldest.
pub fn put_back(rows: &mut Vec<RunRow>, olds: &mut Vec<Old>)
    ensures rows { rows.new.items ≡ rows_before rows.old.items olds.old.items }
    ensures olds { olds.new.items ≡ [] }
{
    while let Some(old) = olds.pop() {
        set_value(rows, old.row, old.now);
    }
}

/// The place of the first row above the key, by binary search.
pub fn first_above(bytes: &[u8], rows: &[RunRow], key: &[u8]) -> usize
    requires { IsRising (keys_in bytes.now rows.now) }
    ensures { IsFirstAbove (keys_in bytes.now rows.now) key.now result }
{
    rows.partition_point(|row| key.cmp(piece_of(bytes, row.key)).is_ge())
}

/// The place of the first row that has a value, from a place on.
pub fn first_value(rows: &[RunRow], from: usize) -> Option<usize>
    ensures none { IfNone result (NoValues rows.now from (length rows.now)) }
    ensures some { IfSome result (λ at. IsFirstValue rows.now from at) }
{
    for at in from..rows.len() {
        if rows[at].now.is_some() {
            return Some(at);
        }
    }
    None
}

/// Copies the rows that have a value behind others.
pub fn copy_rows(
    bytes: &[u8],
    rows: &[RunRow],
    new_bytes: &mut Vec<u8>,
    new_rows: &mut Vec<RunRow>,
) -> Result<(), AllocError>
    requires fit { All (IsRow (length bytes.now)) rows.now }
    requires new { new_rows.old.items ≡ [] }
    ensures ok { OnOk result (rows_of new_bytes.new.items new_rows.new.items
        ≡ filter (λ r. is_some r.1) (rows_of bytes.now rows.now)) }
    ensures fit { All (IsRow (length new_bytes.new.items)) new_rows.new.items }
{
    for row in rows {
        if let Some(now) = row.now {
            push_row(
                new_bytes,
                new_rows,
                piece_of(bytes, row.key),
                piece_of(bytes, now),
            )?;
        }
    }
    Ok(())
}
