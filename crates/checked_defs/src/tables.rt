//! Rules 4 and 5: the columns of a table, and its key.

ghost use Rattle.std.specs.Prelude.{◌≡◌, find, option_map, IfOk};
ghost use Rattle.std.specs.List.{list_all};
ghost use Rattle.std.specs.Str.{bytes_eq};
ghost use Rattle.checked_defs.specs.Rules.{is_column_entry as is_column_entry_lem};
ghost use Rattle.checked_defs.specs.Rules.{has_column_entries as has_column_entries_lem};
ghost use Rattle.checked_defs.specs.Rules.{has_key_columns as has_key_columns_lem};
ghost use Rattle.checked_defs.specs.Rules.{is_key_column as is_key_column_lem};

use repl_commands::RawTable;
use repl_defs::{DEFINITION_TEXT_LIMIT, split_column};
use repl_types::{Bytes, ColumnDef};
use spelled_defs::{are_columns, spelled_columns, texts_or_none};
use std::alloc::{AllocError, Global};

/// Whether an entry of a table is a column.
fn is_column_entry(entry: &[u8]) -> bool
    ensures { result ≡ is_column_entry_lem entry.now }
{
    if entry.len() > DEFINITION_TEXT_LIMIT {
        return false;
    }
    match split_column(entry) {
        Some((_, form)) => form.is_some(),
        None => false,
    }
}

/// Whether each entry of a table is a column.
fn are_column_entries(entries: &[Bytes]) -> bool
    ensures { result ≡ list_all is_column_entry_lem entries.now }
{
    entries
        .iter()
        .all(|entry| is_column_entry(entry.as_slice()))
}

/// Whether there are columns, and each entry is one.
pub fn has_column_entries(table: &RawTable) -> bool
    ensures { result ≡ has_column_entries_lem table.now }
{
    !table.columns.is_empty() && are_column_entries(table.columns.as_slice())
}

/// The column of a name.
fn find_column<'a>(columns: &'a [ColumnDef], name: &[u8]) -> Option<&'a ColumnDef>
    ensures { option_map (λ c. c.now) result
        ≡ find (λ column. bytes_eq name.now column.name) columns.now }
{
    columns
        .iter()
        .find(|column| name == column.name.as_str().as_bytes())
}

/// Whether a name is that of a column that can't be NULL.
fn is_key_column(columns: &[ColumnDef], name: &[u8]) -> bool
    ensures { result ≡ is_key_column_lem columns.now name.now }
{
    match find_column(columns, name) {
        Some(column) => !column.nullable,
        None => false,
    }
}

/// Whether the names are those of columns that can't be NULL.
fn are_key_columns(columns: &[ColumnDef], names: &[Bytes]) -> bool
    ensures { result ≡ list_all (is_key_column_lem columns.now) names.now }
{
    names
        .iter()
        .all(|name| is_key_column(columns, name.as_slice()))
}

/// Whether there is a key of columns that can't be NULL, and the fixed columns are columns.
pub fn has_key_columns(alloc: Global, table: &RawTable) -> Result<bool, AllocError>
    ensures { IfOk result (λ keeps. keeps ≡ has_key_columns_lem table.now) }
{
    let columns = spelled_columns(alloc, table.columns.as_slice())?;
    let columns = columns.as_slice();
    Ok(
        !table.key.is_empty()
            && are_key_columns(columns, table.key.as_slice())
            && are_columns(columns, texts_or_none(&table.fixed)),
    )
}
