//! Rule 2: each name is a name.

ghost use Rattle.std.specs.Prelude.{◌≡◌};
ghost use Rattle.std.specs.List.{list_all};
ghost use Rattle.repl_types.specs.Name.{is_name as is_name_lem};
ghost use Rattle.checked_defs.specs.Rules.{has_column_name as has_column_name_lem};
ghost use Rattle.checked_defs.specs.Rules.{has_target_name as has_target_name_lem};
ghost use Rattle.checked_defs.specs.Rules.{table_has_names as table_has_names_lem};
ghost use Rattle.checked_defs.specs.Rules.{registration_has_names as registration_has_names_lem};
ghost use Rattle.checked_defs.specs.Rules.{set_has_names as set_has_names_lem};
ghost use Rattle.checked_defs.specs.Rules.{member_has_names as member_has_names_lem};

use repl_commands::{RawMember, RawRegistration, RawSet, RawTable};
use repl_defs::{split_column, split_target};
use repl_types::{Bytes, is_name};
use spelled_defs::texts_or_none;

/// Whether texts are names.
fn are_names(texts: &[Bytes]) -> bool
    ensures { result ≡ list_all is_name_lem texts.now }
{
    texts.iter().all(|text| is_name(text.as_slice()))
}

/// Whether the name in an entry of a table is a name, if the entry can be split.
fn has_column_name(entry: &[u8]) -> bool
    ensures { result ≡ has_column_name_lem entry.now }
{
    match split_column(entry) {
        Some((name, _)) => is_name(name),
        None => true,
    }
}

/// Whether the name in an entry of a member is a name, if the entry can be split.
fn has_target_name(entry: &[u8]) -> bool
    ensures { result ≡ has_target_name_lem entry.now }
{
    match split_target(entry) {
        Some((name, _)) => is_name(name),
        None => true,
    }
}

/// Whether the names in the entries of a table are names, in those that can be split.
fn have_column_names(entries: &[Bytes]) -> bool
    ensures { result ≡ list_all has_column_name_lem entries.now }
{
    entries
        .iter()
        .all(|entry| has_column_name(entry.as_slice()))
}

/// Whether the names in the entries of a member are names, in those that can be split.
fn have_target_names(entries: &[Bytes]) -> bool
    ensures { result ≡ list_all has_target_name_lem entries.now }
{
    entries
        .iter()
        .all(|entry| has_target_name(entry.as_slice()))
}

/// Whether the names of a table are names, and those of its columns.
pub fn table_has_names(table: &RawTable) -> bool
    ensures { result ≡ table_has_names_lem table.now }
{
    is_name(table.server.as_slice())
        && is_name(table.name.as_slice())
        && have_column_names(table.columns.as_slice())
        && are_names(table.key.as_slice())
        && are_names(texts_or_none(&table.fixed))
}

/// Whether the names of a registration are names, and those of its columns.
pub fn registration_has_names(registration: &RawRegistration) -> bool
    ensures { result ≡ registration_has_names_lem registration.now }
{
    is_name(registration.server.as_slice())
        && is_name(registration.table.as_slice())
        && are_names(texts_or_none(&registration.after))
        && are_names(texts_or_none(&registration.before))
}

/// Whether the names of a set and of its servers are names.
pub fn set_has_names(set: &RawSet) -> bool
    ensures { result ≡ set_has_names_lem set.now }
{
    is_name(set.qual.as_slice())
        && is_name(set.name.as_slice())
        && is_name(set.source.as_slice())
        && is_name(set.target.as_slice())
}

/// Whether the names of a member are names, and those of its columns.
pub fn member_has_names(member: &RawMember) -> bool
    ensures { result ≡ member_has_names_lem member.now }
{
    is_name(member.source.as_slice())
        && is_name(member.target.as_slice())
        && have_target_names(texts_or_none(&member.columns))
}
