//! Rows, and keys of rows.

ghost use Rattle.std.specs.Prelude.{◌≡◌, ◌++◌, ◌<◌, length, OnOk, IfOk};
ghost use Rattle.std.specs.List.{All};
ghost use Rattle.repl_types.specs.Sizes.{IsKeySize};
ghost use Rattle.repl_types.specs.Value.{key_cmp, images};
ghost use Rattle.row_codec.specs.Takes.{NoSpelling};
ghost use Rattle.row_codec.specs.Spelling.{IsCounted, IsRow, IsKey, row_spelling, key_spelling};
ghost use Rattle.row_codec.specs.laws.Values.{one_key, order_key};

use crate::key::Key;
use crate::part::{Part, take_whole};
use crate::take_error::TakeError;
use repl_types::{List, Row, Value};
use std::alloc::{AllocError, Global};

/// Appends the spelling of a row: the count of its values in two bytes, and the values. If memory
/// runs out, what `out` holds is unspecified.
pub fn put_row(row: &Row, out: &mut Vec<u8>) -> Result<(), AllocError>
    requires { IsCounted row.now }
    ensures ok { OnOk result (out.new.items ≡ out.old.items ++ row_spelling row.now) }
    ensures fits { OnOk result (IsRow row.now) }
{
    row.put_part(out)
}

/// Appends the spelling of a row's key: the values at the places of `key`, in this order, without a
/// count. If memory runs out, what `out` holds is unspecified.
pub fn put_key(row: &Row, key: &List<u32>, out: &mut Vec<u8>) -> Result<(), AllocError>
    requires { All (λ place. place < length row.now) key.now }
    ensures ok { OnOk result (out.new.items
        ≡ out.old.items ++ key_spelling (images key.now row.now)) }
    ensures fits { OnOk result (IsKey (images key.now row.now)) }
{
    let values = row.as_slice();
    for place in key.as_slice() {
        values[*place as usize].put_part(out)?;
    }
    Ok(())
}

/// The row whose spelling the bytes are. `Spelling` is returned only if they are no row's.
pub fn take_row(alloc: Global, bytes: &[u8]) -> Result<Row, TakeError>
    ensures ok { IfOk result (λ row. IsRow row × (bytes.now ≡ row_spelling row)) }
    ensures spelling { result ≡ Err TakeError.Spelling → NoSpelling IsRow row_spelling bytes.now }
{
    take_whole::<Row>(alloc, bytes)
}

/// The key of a row, as the values of the key's columns in the key's order.
impl Key for List<Value> {
    ghost fits = { IsKey };

    ghost spelling = { key_spelling };

    ghost cmp = { key_cmp };

    ghost storable = { λ key. IsKeySize (key_spelling key) };

    ghost one = { one_key };

    ghost order = { order_key };

    ghost sized = { λ _ _ sized. sized };

    ghost again = { λ _ _ sized. sized };

    fn put_key(&self, out: &mut Vec<u8>) -> Result<(), AllocError> {
        for value in self.as_slice() {
            value.put_part(out)?;
        }
        Ok(())
    }

    fn take_key(alloc: Global, bytes: &[u8]) -> Result<List<Value>, TakeError> {
        let mut values = List::new(alloc);
        let mut left = bytes;
        while !left.is_empty() {
            let (value, after) = Value::take_part(alloc, left)?;
            values.push(value)?;
            left = after;
        }
        Ok(values)
    }
}
