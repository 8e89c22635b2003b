//! Rule 3: nothing stands twice.

ghost use Rattle.std.specs.Prelude.{◌≡◌, ◌&&◌, not, IfOk};
ghost use Rattle.std.specs.List.{filter_map, list_any};
ghost use Rattle.std.specs.Str.{bytes_eq};
ghost use Rattle.repl_defs.specs.Entries.{column_name as column_name_lem};
ghost use Rattle.repl_defs.specs.Entries.{target_name as target_name_lem};
ghost use Rattle.spelled_defs.specs.Spelled.{is_table as is_table_lem};
ghost use Rattle.checked_defs.specs.Rules.{texts_differ as texts_differ_lem};
ghost use Rattle.checked_defs.specs.Rules.{names_table as names_table_lem};
ghost use Rattle.checked_defs.specs.Rules.{names_registration as names_registration_lem};
ghost use Rattle.checked_defs.specs.Rules.{names_raw_set as names_raw_set_lem};
ghost use Rattle.checked_defs.specs.Rules.{copies_to as copies_to_lem};
ghost use Rattle.checked_defs.specs.Rules.{table_stands_once as table_stands_once_lem};
ghost use Rattle.checked_defs.specs.Rules.{registration_stands_once as registration_stands_once_lem};
ghost use Rattle.checked_defs.specs.Rules.{set_stands_once as set_stands_once_lem};
ghost use Rattle.checked_defs.specs.Rules.{member_stands_once as member_stands_once_lem};

use repl_commands::{RawDefs, RawMember, RawRegistration, RawSet, RawTable};
use repl_defs::{split_column, split_target};
use repl_types::{Bytes, List};
use spelled_defs::{Context, Link, TableAt, copy_bytes, is_replica_item, is_table, texts_or_none};
use std::alloc::{AllocError, Global};

/// Whether a text is one of the others.
fn stands_among(text: &[u8], others: &[Bytes]) -> bool
    ensures { result ≡ list_any (bytes_eq text.now) others.now }
{
    others.iter().any(|other| text == other.as_slice())
}

/// Whether no two texts are the same.
fn texts_differ(texts: &[Bytes]) -> bool
    ensures { result ≡ texts_differ_lem texts.now }
{
    let mut rest = texts;
    'texts: while let [first, others @ ..] = rest {
        if stands_among(first.as_slice(), others) {
            return false;
        }
        rest = others;
    }
    true
}

/// The names in the entries of a table, of those that can be split.
fn column_names(alloc: Global, entries: &[Bytes]) -> Result<List<Bytes>, AllocError>
    ensures { IfOk result (λ names. names ≡ filter_map column_name_lem entries.now) }
{
    let mut names = List::new(alloc);
    'entries: for entry in entries {
        if let Some((name, _)) = split_column(entry.as_slice()) {
            names.push(copy_bytes(alloc, name)?)?;
        }
    }
    Ok(names)
}

/// The names in the entries of a member, of those that can be split.
fn target_names(alloc: Global, entries: &[Bytes]) -> Result<List<Bytes>, AllocError>
    ensures { IfOk result (λ names. names ≡ filter_map target_name_lem entries.now) }
{
    let mut names = List::new(alloc);
    'entries: for entry in entries {
        if let Some((name, _)) = split_target(entry.as_slice()) {
            names.push(copy_bytes(alloc, name)?)?;
        }
    }
    Ok(names)
}

/// Whether the item is a table of this server and name.
fn names_table(server: &[u8], name: &[u8], table: &RawTable) -> bool
    ensures { result ≡ names_table_lem server.now name.now table.now }
{
    server == table.server.as_slice() && name == table.name.as_slice()
}

/// Whether the item is a registration of this server and table.
fn names_registration(server: &[u8], table: &[u8], registration: &RawRegistration) -> bool
    ensures { result ≡ names_registration_lem server.now table.now registration.now }
{
    server == registration.server.as_slice() && table == registration.table.as_slice()
}

/// Whether the item is a set of this name.
fn names_raw_set(qual: &[u8], name: &[u8], set: &RawSet) -> bool
    ensures { result ≡ names_raw_set_lem qual.now name.now set.now }
{
    qual == set.qual.as_slice() && name == set.name.as_slice()
}

/// Whether the link goes to this target.
pub fn copies_to(server: &[u8], target: &[u8], link: &Link) -> bool
    ensures { result ≡ copies_to_lem server.now target.now link.now }
{
    server == link.target_server.as_slice() && target == link.target.as_slice()
}

/// Whether a read-only link goes to this target.
fn some_read_only_copies_to(server: &[u8], target: &[u8], links: &[Link]) -> bool
    ensures { result ≡ list_any
        (λ link. not link.is_replica && copies_to_lem server.now target.now link) links.now }
{
    links
        .iter()
        .any(|link| !link.is_replica && copies_to(server, target, link))
}

/// Whether one of the tables is this one.
fn some_table_is(server: &[u8], name: &[u8], tables: &[TableAt]) -> bool
    ensures { result ≡ list_any (is_table_lem server.now name.now) tables.now }
{
    tables.iter().any(|table| is_table(server, name, table))
}

/// Whether a table has its name alone, its columns differ, and no read-only target has its name.
pub fn table_stands_once(
    alloc: Global,
    raw: &RawDefs,
    context: &Context,
    table: &RawTable,
) -> Result<bool, AllocError>
    ensures { IfOk result (λ keeps. keeps ≡ table_stands_once_lem raw.now context.now table.now) }
{
    let (server, name) = (table.server.as_slice(), table.name.as_slice());
    let names = column_names(alloc, table.columns.as_slice())?;
    let same = raw
        .tables
        .as_slice()
        .iter()
        .filter(|other| names_table(server, name, other))
        .count();
    Ok(
        same <= 1
            && texts_differ(names.as_slice())
            && texts_differ(table.key.as_slice())
            && texts_differ(texts_or_none(&table.fixed))
            && !some_read_only_copies_to(server, name, context.links.as_slice()),
    )
}

/// Whether a registration is the only one of its table, and its columns differ.
pub fn registration_stands_once(raw: &RawDefs, registration: &RawRegistration) -> bool
    ensures { result ≡ registration_stands_once_lem raw.now registration.now }
{
    let (server, table) = (
        registration.server.as_slice(),
        registration.table.as_slice(),
    );
    let same = raw
        .registrations
        .as_slice()
        .iter()
        .filter(|other| names_registration(server, table, other))
        .count();
    same <= 1
        && texts_differ(texts_or_none(&registration.after))
        && texts_differ(texts_or_none(&registration.before))
}

/// Whether a set has its name alone.
pub fn set_stands_once(raw: &RawDefs, set: &RawSet) -> bool
    ensures { result ≡ set_stands_once_lem raw.now set.now }
{
    let (qual, name) = (set.qual.as_slice(), set.name.as_slice());
    let same = raw
        .sets
        .as_slice()
        .iter()
        .filter(|other| names_raw_set(qual, name, other))
        .count();
    same <= 1
}

/// Whether a member's columns differ, it has its target alone, and the target of a read-only one
/// isn't named as a table.
pub fn member_stands_once(
    alloc: Global,
    context: &Context,
    set: &RawSet,
    member: &RawMember,
) -> Result<bool, AllocError>
    ensures { IfOk result
        (λ keeps. keeps ≡ member_stands_once_lem context.now set.now member.now) }
{
    let (server, target) = (set.target.as_slice(), member.target.as_slice());
    let names = target_names(alloc, texts_or_none(&member.columns))?;
    let same = context
        .links
        .as_slice()
        .iter()
        .filter(|link| copies_to(server, target, link))
        .count();
    Ok(
        texts_differ(names.as_slice())
            && same <= 1
            && (is_replica_item(member)
                || !some_table_is(server, target, context.tables.as_slice())),
    )
}
