//! Values at a key of a table.

ghost use Rattle.std.specs.Prelude.{◌≡◌, [], is_some, option_map, option_and_then, unwrap_or, IfOk};
ghost use Rattle.toml.specs.Data.{get_member, as_array};
ghost use Rattle.toml.specs.View.{array_view, table_view};
ghost use Rattle.raw_defs.specs.Shape.{count_of};
ghost use Rattle.raw_defs.specs.Raw.{text_at, texts_at, texts_of, flag_at, count_at};

use repl_types::{Bytes, List};
use std::alloc::{AllocError, Global};
use toml::Table;
use toml::value::Array;

/// Whether there is a value at the key.
pub fn has_key(table: &Table, key: &str) -> bool
    ensures { result ≡ is_some (get_member key.now (table_view table.now)) }
{
    match table.get(key) {
        Some(_) => true,
        None => false,
    }
}

/// The text at a key, as it stands in the table.
pub fn find_text<'a>(table: &'a Table, key: &str) -> Option<&'a str>
    ensures { option_map (λ s. s.now) result ≡ text_at key.now (table_view table.now) }
{
    match table.get(key) {
        Some(value) => value.as_str(),
        None => None,
    }
}

/// The array at a key, as it stands in the table.
pub fn find_array<'a>(table: &'a Table, key: &str) -> Option<&'a Array>
    ensures { option_map (λ v. array_view v.now) result
        ≡ option_and_then as_array (get_member key.now (table_view table.now)) }
{
    match table.get(key) {
        Some(value) => value.as_array(),
        None => None,
    }
}

/// The flag at a key.
pub fn flag_at(table: &Table, key: &str) -> Option<bool>
    ensures { result ≡ flag_at key.now (table_view table.now) }
{
    match table.get(key) {
        Some(value) => value.as_bool(),
        None => None,
    }
}

/// A number as a count.
pub fn count_of(number: Option<i64>) -> Option<u32>
    ensures { result ≡ option_and_then count_of number }
{
    match number {
        None => None,
        Some(number) => match u32::try_from(number) {
            Ok(count) => Some(count),
            Err(_) => None,
        },
    }
}

/// The count at a key.
pub fn count_at(table: &Table, key: &str) -> Option<u32>
    ensures { result ≡ count_at key.now (table_view table.now) }
{
    match table.get(key) {
        Some(value) => count_of(value.as_integer()),
        None => None,
    }
}

/// A copy of a text.
fn copy_text(alloc: Global, text: &str) -> Result<Bytes, AllocError>
    ensures { IfOk result (λ copy. copy ≡ text.now) }
{
    Ok(List::from_vec(Vec::from_slice(alloc, text.as_bytes())?))
}

/// The text at a key.
pub fn text_at(alloc: Global, table: &Table, key: &str) -> Result<Option<Bytes>, AllocError>
    ensures { IfOk result (λ text. text ≡ text_at key.now (table_view table.now)) }
{
    match find_text(table, key) {
        Some(text) => Ok(Some(copy_text(alloc, text)?)),
        None => Ok(None),
    }
}

/// The texts among the items.
fn copy_texts(alloc: Global, items: &Array) -> Result<List<Bytes>, AllocError>
    ensures { IfOk result (λ texts. texts ≡ texts_of (array_view items.now)) }
{
    let mut texts = List::new(alloc);
    'items: for item in items {
        if let Some(text) = item.as_str() {
            texts.push(copy_text(alloc, text)?)?;
        }
    }
    Ok(texts)
}

/// The texts at a key.
pub fn texts_at(alloc: Global, table: &Table, key: &str) -> Result<Option<List<Bytes>>, AllocError>
    ensures { IfOk result (λ texts. texts ≡ texts_at key.now (table_view table.now)) }
{
    match find_array(table, key) {
        Some(items) => Ok(Some(copy_texts(alloc, items)?)),
        None => Ok(None),
    }
}

/// The text at a key that the item needs.
pub fn needed_text_at(alloc: Global, table: &Table, key: &str) -> Result<Bytes, AllocError>
    ensures { IfOk result (λ text. text ≡ unwrap_or (text_at key.now (table_view table.now)) []) }
{
    match text_at(alloc, table, key)? {
        Some(text) => Ok(text),
        None => Ok(List::new(alloc)),
    }
}

/// The texts at a key that the item needs.
pub fn needed_texts_at(alloc: Global, table: &Table, key: &str) -> Result<List<Bytes>, AllocError>
    ensures { IfOk result (λ texts. texts ≡ unwrap_or (texts_at key.now (table_view table.now)) []) }
{
    match texts_at(alloc, table, key)? {
        Some(texts) => Ok(texts),
        None => Ok(List::new(alloc)),
    }
}
