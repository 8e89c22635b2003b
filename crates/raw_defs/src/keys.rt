//! The keys of each kind of item. `specs/Shape.antt` lists them.

ghost use Rattle.std.specs.Prelude.{◌≡◌, true, false, option_map};
ghost use Rattle.toml.specs.View.{table_view};
ghost use Rattle.raw_defs.specs.Shape.{shape_at, has_needed, keys_of, document_keys, table_keys};
ghost use Rattle.raw_defs.specs.Shape.{registration_keys, set_keys, member_keys, ccd_keys};
ghost use Rattle.raw_defs.specs.Shape.{kind_of_type, exact_kind, is_member_type};

use crate::shape::{ItemKind, ValueShape};
use crate::values::{find_text, has_key};
use toml::Table;

/// The shape at a name in a document.
fn document_shape_at(name: &str) -> ValueShape
    ensures { result ≡ shape_at document_keys name.now }
{
    if name == "table" {
        ValueShape::Items(ItemKind::Table)
    } else if name == "registration" {
        ValueShape::Items(ItemKind::Registration)
    } else if name == "set" {
        ValueShape::Items(ItemKind::Set)
    } else {
        ValueShape::Nothing
    }
}

/// The shape at a name in a table.
fn table_shape_at(name: &str) -> ValueShape
    ensures { result ≡ shape_at table_keys name.now }
{
    if name == "server" || name == "name" {
        ValueShape::Text
    } else if name == "columns" || name == "key" || name == "fixed" {
        ValueShape::Texts
    } else {
        ValueShape::Nothing
    }
}

/// The shape at a name in a registration.
fn registration_shape_at(name: &str) -> ValueShape
    ensures { result ≡ shape_at registration_keys name.now }
{
    if name == "server" || name == "table" {
        ValueShape::Text
    } else if name == "after" || name == "before" {
        ValueShape::Texts
    } else if name == "del_ins" || name == "changes_only" || name == "disable_refresh" {
        ValueShape::Flag
    } else {
        ValueShape::Nothing
    }
}

/// The shape at a name in a set.
fn set_shape_at(name: &str) -> ValueShape
    ensures { result ≡ shape_at set_keys name.now }
{
    if name == "qual" || name == "name" || name == "source" || name == "target" {
        ValueShape::Text
    } else if name == "commit_count" || name == "max_minutes" {
        ValueShape::Count
    } else if name == "member" {
        ValueShape::SomeItems(ItemKind::Member)
    } else {
        ValueShape::Nothing
    }
}

/// The shape at a name in a member that isn't a change-data table.
fn member_shape_at(name: &str) -> ValueShape
    ensures needed { result ≡ shape_at (member_keys true) name.now }
    ensures optional { result ≡ shape_at (member_keys false) name.now }
{
    if name == "source" || name == "target" {
        ValueShape::Text
    } else if name == "type" {
        ValueShape::MemberType
    } else if name == "columns" {
        ValueShape::Texts
    } else if name == "where" {
        ValueShape::Text
    } else {
        ValueShape::Nothing
    }
}

/// The shape at a name in a member that is a change-data table.
fn ccd_shape_at(name: &str) -> ValueShape
    ensures { result ≡ shape_at ccd_keys name.now }
{
    if name == "complete" || name == "condensed" {
        ValueShape::Flag
    } else {
        member_shape_at(name)
    }
}

/// The shape that the value at a name must have in an item of a kind.
pub fn shape_at(kind: ItemKind, name: &str) -> ValueShape
    ensures { result ≡ shape_at (keys_of kind) name.now }
{
    match kind {
        ItemKind::Document => document_shape_at(name),
        ItemKind::Table => table_shape_at(name),
        ItemKind::Registration => registration_shape_at(name),
        ItemKind::Set => set_shape_at(name),
        ItemKind::Member => member_shape_at(name),
        ItemKind::CcdMember => ccd_shape_at(name),
        ItemKind::ReplicaMember => member_shape_at(name),
    }
}

/// Whether a table has the keys that a table needs.
fn has_table_keys(table: &Table) -> bool
    ensures { result ≡ has_needed table_keys (table_view table.now) }
{
    has_key(table, "server")
        && has_key(table, "name")
        && has_key(table, "columns")
        && has_key(table, "key")
}

/// Whether a table has the keys that a set needs.
fn has_set_keys(table: &Table) -> bool
    ensures { result ≡ has_needed set_keys (table_view table.now) }
{
    has_key(table, "qual")
        && has_key(table, "name")
        && has_key(table, "source")
        && has_key(table, "target")
        && has_key(table, "member")
}

/// Whether a table has the keys that each member needs, and columns if they are needed.
fn has_member_keys(table: &Table, needs_columns: bool) -> bool
    ensures { result ≡ has_needed (member_keys needs_columns) (table_view table.now) }
{
    has_key(table, "source")
        && has_key(table, "target")
        && has_key(table, "type")
        && (!needs_columns || has_key(table, "columns"))
}

/// Whether a table has the keys that an item of a kind needs.
pub fn has_needed_keys(kind: ItemKind, table: &Table) -> bool
    ensures { result ≡ has_needed (keys_of kind) (table_view table.now) }
{
    match kind {
        ItemKind::Document => true,
        ItemKind::Table => has_table_keys(table),
        ItemKind::Registration => has_key(table, "server") && has_key(table, "table"),
        ItemKind::Set => has_set_keys(table),
        ItemKind::Member => has_member_keys(table, true),
        ItemKind::CcdMember => {
            has_key(table, "complete")
                && has_key(table, "condensed")
                && has_member_keys(table, true)
        }
        ItemKind::ReplicaMember => has_member_keys(table, false),
    }
}

/// Whether the text is a type of members.
pub fn is_member_type(text: &str) -> bool
    ensures { result ≡ is_member_type text.now }
{
    text == "user_copy"
        || text == "point_in_time"
        || text == "base_aggregate"
        || text == "change_aggregate"
        || text == "ccd"
        || text == "replica"
}

/// The kind of a member of a type.
fn kind_of_type(text: Option<&str>) -> ItemKind
    ensures { result ≡ kind_of_type (option_map (λ s. s.now) text.entry) }
{
    match text {
        None => ItemKind::Member,
        Some(text) => {
            if text == "ccd" {
                ItemKind::CcdMember
            } else if text == "replica" {
                ItemKind::ReplicaMember
            } else {
                ItemKind::Member
            }
        }
    }
}

/// The kind of an item, for a member by what its type says.
pub fn exact_kind(kind: ItemKind, table: &Table) -> ItemKind
    ensures { result ≡ exact_kind kind (table_view table.now) }
{
    match kind {
        ItemKind::Member => kind_of_type(find_text(table, "type")),
        other => other,
    }
}
