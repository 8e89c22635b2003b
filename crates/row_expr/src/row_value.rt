//! Values of a row.

ghost use Rattle.std.specs.Prelude.{◌≡◌, slice_index_or, unwrap_or};
ghost use Rattle.std.specs.Option.{option_copied};
ghost use Rattle.repl_types.specs.declared.value.Value.TheVariants.{Null};
ghost use Rattle.repl_model.specs.Expressions.{is_null as is_null_lem};

use repl_types::{Row, Value};

/// The value of a row at a place; None, if the row doesn't have the place, stands for NULL.
pub(crate) fn value_at(row: &Row, place: u32) -> Option<&Value>
    ensures { unwrap_or (option_copied result) Null ≡ slice_index_or row.now place Null }
{
    row.as_slice().get(place as usize)
}

/// Whether a value is NULL.
pub(crate) fn is_null(value: &Value) -> bool
    ensures { result ≡ is_null_lem value.now }
{
    matches!(value, Value::Null)
}

/// Whether a row has NULL at a place.
pub(crate) fn is_null_at(row: &Row, place: u32) -> bool
    ensures { result ≡ is_null_lem (slice_index_or row.now place Null) }
{
    match value_at(row, place) {
        Some(value) => is_null(value),
        None => true,
    }
}
