//! The definitions that a table of a document states.

ghost use Rattle.std.specs.Prelude.{◌≡◌, map, IfOk};
ghost use Rattle.toml.specs.Data.{Members};
ghost use Rattle.toml.specs.View.{array_view, table_view};
ghost use Rattle.raw_defs.specs.Raw.{raw_defs_of, tables_of, items_at};

use crate::values::{
    count_at, find_array, flag_at, needed_text_at, needed_texts_at, text_at, texts_at,
};
use repl_commands::{RawDefs, RawMember, RawRegistration, RawSet, RawTable};
use repl_types::List;
use std::alloc::{AllocError, Global};
use toml::Table;
use toml::value::Array;

/// What a table of a document can state.
trait Item: Sized + Drop {
    /// What the members of a table state.
    ghost item_of: { Members → Self };

    /// What the table states.
    fn read_item(alloc: Global, table: &Table) -> Result<Self, AllocError>
        ensures { IfOk result (λ item. item ≡ item_of (table_view table.now)) };
}

impl Item for RawTable {
    ghost use Rattle.raw_defs.specs.Raw.{raw_table_of};

    ghost item_of = { raw_table_of };

    fn read_item(alloc: Global, table: &Table) -> Result<RawTable, AllocError> {
        Ok(RawTable {
            server: needed_text_at(alloc, table, "server")?,
            name: needed_text_at(alloc, table, "name")?,
            columns: needed_texts_at(alloc, table, "columns")?,
            key: needed_texts_at(alloc, table, "key")?,
            fixed: texts_at(alloc, table, "fixed")?,
        })
    }
}

impl Item for RawRegistration {
    ghost use Rattle.raw_defs.specs.Raw.{raw_registration_of};

    ghost item_of = { raw_registration_of };

    fn read_item(alloc: Global, table: &Table) -> Result<RawRegistration, AllocError> {
        Ok(RawRegistration {
            server: needed_text_at(alloc, table, "server")?,
            table: needed_text_at(alloc, table, "table")?,
            after: texts_at(alloc, table, "after")?,
            before: texts_at(alloc, table, "before")?,
            del_ins: flag_at(table, "del_ins"),
            changes_only: flag_at(table, "changes_only"),
            disable_refresh: flag_at(table, "disable_refresh"),
        })
    }
}

impl Item for RawMember {
    ghost use Rattle.raw_defs.specs.Raw.{raw_member_of};

    ghost item_of = { raw_member_of };

    fn read_item(alloc: Global, table: &Table) -> Result<RawMember, AllocError> {
        Ok(RawMember {
            source: needed_text_at(alloc, table, "source")?,
            target: needed_text_at(alloc, table, "target")?,
            kind: needed_text_at(alloc, table, "type")?,
            complete: flag_at(table, "complete"),
            condensed: flag_at(table, "condensed"),
            columns: texts_at(alloc, table, "columns")?,
            filter: text_at(alloc, table, "where")?,
        })
    }
}

impl Item for RawSet {
    ghost use Rattle.raw_defs.specs.Raw.{raw_set_of};

    ghost item_of = { raw_set_of };

    fn read_item(alloc: Global, table: &Table) -> Result<RawSet, AllocError> {
        Ok(RawSet {
            qual: needed_text_at(alloc, table, "qual")?,
            name: needed_text_at(alloc, table, "name")?,
            source: needed_text_at(alloc, table, "source")?,
            target: needed_text_at(alloc, table, "target")?,
            commit_count: count_at(table, "commit_count"),
            max_minutes: count_at(table, "max_minutes"),
            members: items_at(alloc, table, "member")?,
        })
    }
}

/// What the tables among the items state.
fn read_items<T: Item>(alloc: Global, items: &Array) -> Result<List<T>, AllocError>
    ensures { IfOk result (λ list. list ≡ map T.item_of (tables_of (array_view items.now))) }
{
    let mut list = List::new(alloc);
    'items: for item in items {
        if let Some(table) = item.as_table() {
            list.push(T::read_item(alloc, table)?)?;
        }
    }
    Ok(list)
}

/// What the tables of the array at a key state.
fn items_at<T: Item>(alloc: Global, table: &Table, key: &str) -> Result<List<T>, AllocError>
    ensures { IfOk result
        (λ list. list ≡ map T.item_of (tables_of (items_at key.now (table_view table.now)))) }
{
    match find_array(table, key) {
        Some(items) => read_items(alloc, items),
        None => Ok(List::new(alloc)),
    }
}

/// The definitions that a document states.
pub fn read_document(alloc: Global, table: &Table) -> Result<RawDefs, AllocError>
    ensures { IfOk result (λ defs. defs ≡ raw_defs_of (table_view table.now)) }
{
    Ok(RawDefs {
        tables: items_at(alloc, table, "table")?,
        registrations: items_at(alloc, table, "registration")?,
        sets: items_at(alloc, table, "set")?,
    })
}
