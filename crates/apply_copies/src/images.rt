//! What the images of a change row show of rows.

ghost use Rattle.std.specs.Prelude.{◌≡◌, ◌&&◌, ◌==◌, nat_lt, nat_le, length, IfOk};
ghost use Rattle.std.specs.List.{position, position_or_len};
ghost use Rattle.repl_types.specs.Sizes.{key_limit};
ghost use Rattle.row_codec.specs.Spelling.{key_spelling};
ghost use Rattle.lists.specs.Lists.{is_among as is_among_lem};
ghost use Rattle.repl_model.specs.Selection.{imaged_row as imaged_row_lem};
ghost use Rattle.stored_commits.specs.copies.ChangedCopies.{image_of as image_of_lem};
ghost use Rattle.stored_commits.specs.copies.ChangedCopies.{value_before as value_before_lem};
ghost use Rattle.stored_commits.specs.copies.ChangedCopies.{key_before as key_before_lem};
ghost use Rattle.apply_copies.specs.ChangeRules.{source_of};

use repl_records::CopyRow;
use repl_types::{CdRow, KEY_LIMIT, List, Registration, Row, TableDef, Value};
use row_codec::Stored;
use std::alloc::{AllocError, Global};

/// Whether the column is one of these.
fn is_among(places: &[u32], column: usize) -> bool
    ensures { result ≡ is_among_lem places.now column }
{
    places.iter().any(|place| *place as usize == column)
}

/// The place of a column among these.
fn position_of(places: &[u32], column: usize) -> Option<usize>
    ensures { result ≡ position (λ place. place == column) places.now }
{
    places.iter().position(|place| *place as usize == column)
}

/// The place of a column among these, or their number if it isn't one of them.
fn place_of(places: &[u32], column: usize) -> usize
    ensures { result ≡ position_or_len (λ place. place == column) places.now }
{
    match position_of(places, column) {
        Some(place) => place,
        None => places.len(),
    }
}

/// The image of a column, which is NULL if the column has none.
fn image_of(places: &[u32], images: &Row, column: usize) -> Result<Value, AllocError>
    ensures { IfOk result (λ value. value ≡ image_of_lem places.now images.now column) }
{
    match images.as_slice().get(place_of(places, column)) {
        Some(value) => value.clone(),
        None => Ok(Value::Null),
    }
}

/// The after-images of a change row as a row of the table. A column that isn't registered is NULL.
pub fn imaged_row(
    alloc: Global,
    def: &TableDef,
    reg: &Registration,
    change: &CdRow,
) -> Result<Row, AllocError>
    ensures { IfOk result (λ row. row
        ≡ imaged_row_lem (source_of def.now reg.now) change.now) }
{
    let mut row = List::new(alloc);
    for column in 0..def.columns.len() {
        row.push(image_of(reg.after.as_slice(), &change.after, column)?)?;
    }
    Ok(row)
}

/// The value of a column before an update.
fn value_before(
    def: &TableDef,
    reg: &Registration,
    change: &CdRow,
    column: usize,
) -> Result<Value, AllocError>
    ensures { IfOk result (λ value. value
        ≡ value_before_lem (source_of def.now reg.now) change.now column) }
{
    let befores = reg.before.as_slice();
    if is_among(befores, column) {
        image_of(befores, &change.before, column)
    } else {
        image_of(reg.after.as_slice(), &change.after, column)
    }
}

/// The key of the row before an update.
pub fn key_before(
    alloc: Global,
    def: &TableDef,
    reg: &Registration,
    change: &CdRow,
) -> Result<Row, AllocError>
    ensures { IfOk result (λ key. key ≡ key_before_lem (source_of def.now reg.now) change.now) }
{
    let mut key = List::new(alloc);
    for column in def.key.as_slice() {
        key.push(value_before(def, reg, change, *column as usize)?)?;
    }
    Ok(key)
}

/// Whether a key can be stored.
pub fn is_storable(alloc: Global, key: &Row) -> Result<bool, AllocError>
    ensures { let size = length (key_spelling key.now) in
        IfOk result (λ fit. fit ≡ (nat_lt 0 size && nat_le size key_limit)) }
{
    let mut spelled = Vec::new(alloc);
    CopyRow::put_key(key, &mut spelled)?;
    Ok(!spelled.is_empty() && spelled.len() <= KEY_LIMIT)
}
