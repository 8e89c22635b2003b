//! Changes: their tables, the keys of their rows, and which fit their table.

ghost use Rattle.std.specs.Prelude.{◌≡◌, ◌≤◌, IfOk, nat_le, ◌∷◌, [], sum_by};
ghost use Rattle.std.specs.List.{list_all, zip};
ghost use Rattle.repl_model.specs.Tables.{key_of as key_of_lem, same_values as same_values_lem};
ghost use Rattle.repl_model.specs.Tables.{table_of as table_of_lem};
ghost use Rattle.repl_types.specs.Sizes.{key_limit};
ghost use Rattle.repl_types.specs.Value.{images as images_lem, spelled_len as spelled_len_lem};
ghost use Rattle.repl_types.specs.Value.{spelled_limit};
ghost use Rattle.repl_model.specs.Applicable.{fits_column as fits_column_lem};
ghost use Rattle.repl_model.specs.Applicable.{fits_columns as fits_columns_lem, fits as fits_lem};
ghost use Rattle.repl_model.specs.Applicable.{change_fits as change_fits_lem};
ghost use Rattle.repl_model.specs.Applicable.{is_change_applicable as is_change_applicable_lem};

use repl_types::{Change, ColumnDef, KEY_LIMIT, Kind, List, Name, Row, TableDef, Value};
use std::alloc::{AllocError, Global};

/// The table that a change is of.
pub fn table_of(change: &Change) -> &Name
    ensures { result.now ≡ table_of_lem change.now }
{
    match change {
        Change::Insert { table, .. } | Change::Delete { table, .. } => table,
        Change::Update { table, .. } => table,
        Change::Start { table } | Change::Stop { table } => table,
    }
}

/// The values of a row at these places, NULL at one that the row doesn't have.
pub fn images(alloc: Global, places: &[u32], row: &Row) -> Result<Row, AllocError>
    ensures { IfOk result (λ found. found ≡ images_lem places.now row.now) }
{
    let mut found = List::new(alloc);
    for place in places {
        match row.as_slice().get(*place as usize) {
            Some(value) => found.push(value.clone()?)?,
            None => found.push(Value::Null)?,
        }
    }
    Ok(found)
}

/// The key of a row of a table.
pub fn key_of(alloc: Global, def: &TableDef, row: &Row) -> Result<Row, AllocError>
    ensures { IfOk result (λ key. key ≡ key_of_lem def.now row.now) }
{
    images(alloc, def.key.as_slice(), row)
}

/// Whether two lists of values are equal.
pub fn same_values(a: &Row, b: &Row) -> bool
    ensures { result ≡ same_values_lem a.now b.now }
{
    a.cmp(b).is_eq()
}

/// Whether a value may stand in a column.
fn fits_column(column: &ColumnDef, value: &Value) -> bool
    ensures { result ≡ fits_column_lem column.now value.now }
{
    match value {
        Value::Null => column.nullable,
        Value::Int(_) => column.kind == Kind::Int,
        Value::Text(_) => column.kind == Kind::Text,
    }
}

/// Whether each value may stand in the column at its place, for each place that has both.
fn fits_pairs(columns: &[ColumnDef], row: &[Value]) -> bool
    ensures { result ≡ list_all (λ pair. fits_column_lem pair.0 pair.1) (zip columns.now row.now) }
{
    columns
        .iter()
        .zip(row)
        .all(|(column, value)| fits_column(column, value))
}

/// Whether there are as many values as columns, and each may stand in its column.
fn fits_columns(columns: &[ColumnDef], row: &[Value]) -> bool
    ensures { result ≡ fits_columns_lem columns.now row.now }
{
    columns.len() == row.len() && fits_pairs(columns, row)
}

/// How many bytes a value takes in a stored key.
fn spelled_len(value: &Value) -> usize
    ensures len { result ≡ spelled_len_lem value.now }
    ensures short { result ≤ spelled_limit }
{
    match value {
        Value::Null => 1,
        Value::Int(_) => 9,
        Value::Text(text) => {
            let bytes = text.as_str().as_bytes();
            3 + bytes.len() + bytes.iter().filter(|byte| **byte == 0).count()
        }
    }
}

/// Whether the stored bytes of a key of these values are within the limit.
fn is_short(key: &[Value]) -> bool
    ensures { result ≡ nat_le (sum_by spelled_len_lem key.now) key_limit }
{
    let mut len = 0;
    for value in key {
        len += spelled_len(value);
        if len > KEY_LIMIT {
            return false;
        }
    }
    true
}

/// Whether a row fits its table: its values fit the columns, and its stored key is within the
/// limit.
fn fits(alloc: Global, def: &TableDef, row: &Row) -> Result<bool, AllocError>
    ensures { IfOk result (λ fit. fit ≡ fits_lem def.now row.now) }
{
    if !fits_columns(def.columns.as_slice(), row.as_slice()) {
        return Ok(false);
    }
    let key = key_of(alloc, def, row)?;
    Ok(is_short(key.as_slice()))
}

/// Whether a change fits its table: its rows do, and an update leaves the fixed columns. The
/// program's own starts and stops don't fit: they are no changes of a user.
#[tactic(auto, unfolding(repl_model::specs::Applicable::change_fits))]
fn change_fits(alloc: Global, def: &TableDef, change: &Change) -> Result<bool, AllocError>
    ensures { IfOk result (λ fit. fit ≡ change_fits_lem def.now change.now) }
{
    match change {
        Change::Insert { row, .. } | Change::Delete { row, .. } => fits(alloc, def, row),
        Change::Update { before, after, .. } => {
            if !fits(alloc, def, before)? || !fits(alloc, def, after)? {
                return Ok(false);
            }
            let fixed = def.fixed.as_slice();
            Ok(same_values(
                &images(alloc, fixed, before)?,
                &images(alloc, fixed, after)?,
            ))
        }
        Change::Start { .. } | Change::Stop { .. } => Ok(false),
    }
}

/// Whether a change record is applicable at a server with this one table.
pub fn is_change_applicable(
    alloc: Global,
    def: &TableDef,
    change: &Change,
) -> Result<bool, AllocError>
    ensures { IfOk result (λ fit. fit ≡ is_change_applicable_lem (def.now ∷ []) change.now) }
{
    if *table_of(change) != def.name {
        return Ok(false);
    }
    change_fits(alloc, def, change)
}
