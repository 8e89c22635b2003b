//! Whether a document has the shape of definitions.

ghost use Rattle.std.specs.Prelude.{◌≡◌};
ghost use Rattle.toml.specs.View.{view, array_view, table_view};
ghost use Rattle.raw_defs.specs.Shape.{fits, fits_each, fits_keys, keys_of, fits_item, has_some};

use crate::keys::{exact_kind, has_needed_keys, is_member_type, shape_at};
use crate::shape::{ItemKind, ValueShape};
use crate::values::count_of;
use toml::value::Array;
use toml::{Table, Value};

/// Whether there is at least one item.
fn has_some(items: &Array) -> bool
    ensures { result ≡ has_some (array_view items.now) }
{
    !items.is_empty()
}

/// Whether the value has the shape.
#[cycle(fit)]
fn fits(shape: ValueShape, value: &Value) -> bool
    ensures { result ≡ fits shape (view value.now) }
{
    match value {
        Value::Array(items) => match shape {
            ValueShape::Texts => fits_each(ValueShape::Text, items),
            ValueShape::Items(kind) => fits_each(ValueShape::Item(kind), items),
            ValueShape::SomeItems(kind) => {
                has_some(items) && fits_each(ValueShape::Item(kind), items)
            }
            _ => false,
        },
        Value::Table(table) => match shape {
            ValueShape::Item(kind) => fits_item(kind, table),
            _ => false,
        },
        Value::String(text) => match shape {
            ValueShape::Text => true,
            ValueShape::MemberType => is_member_type(text.as_str()),
            _ => false,
        },
        Value::Integer(number) => match shape {
            ValueShape::Count => count_of(Some(*number)).is_some(),
            _ => false,
        },
        Value::Boolean(_) => match shape {
            ValueShape::Flag => true,
            _ => false,
        },
        _ => false,
    }
}

/// Whether each of the items has the shape.
#[cycle(fit)]
fn fits_each(shape: ValueShape, items: &Array) -> bool
    ensures { result ≡ fits_each shape (array_view items.now) }
{
    'items: for item in items {
        if !fits(shape, item) {
            return false;
        }
    }
    true
}

/// Whether each key of the table is one of an item of the kind, with a value of the key's shape.
#[cycle(fit)]
fn fits_keys(kind: ItemKind, table: &Table) -> bool
    ensures { result ≡ fits_keys (keys_of kind) (table_view table.now) }
{
    'members: for (name, value) in table.iter() {
        if !fits(shape_at(kind, name.as_str()), value) {
            return false;
        }
    }
    true
}

/// Whether the table has the shape of an item of the kind.
#[cycle(fit)]
pub fn fits_item(kind: ItemKind, table: &Table) -> bool
    ensures { result ≡ fits_item kind (table_view table.now) }
{
    let kind = exact_kind(kind, table);
    has_needed_keys(kind, table) && fits_keys(kind, table)
}
