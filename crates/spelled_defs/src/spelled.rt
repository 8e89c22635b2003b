//! The definitions that the items of a text spell.

ghost use Rattle.std.specs.Prelude.{◌≡◌, [], find, option_map, option_and_then, IfOk};
ghost use Rattle.std.specs.List.{filter_map};
ghost use Rattle.repl_defs.specs.Trees.{predicate_tree};
ghost use Rattle.repl_types.specs.Name.{name_of};
ghost use Rattle.spelled_defs.specs.Spelled.{spelled_column as spelled_column_lem};
ghost use Rattle.spelled_defs.specs.Spelled.{spelled_table as spelled_table_lem};
ghost use Rattle.spelled_defs.specs.Spelled.{is_table as is_table_lem};
ghost use Rattle.spelled_defs.specs.Spelled.{columns_at as columns_at_lem};
ghost use Rattle.spelled_defs.specs.Spelled.{spelled_registration as spelled_registration_lem};
ghost use Rattle.spelled_defs.specs.Spelled.{registration_def as registration_def_lem};
ghost use Rattle.spelled_defs.specs.Spelled.{target_kind as target_kind_lem};
ghost use Rattle.spelled_defs.specs.Spelled.{target_column as target_column_lem};
ghost use Rattle.spelled_defs.specs.Spelled.{spelled_member as spelled_member_lem};
ghost use Rattle.spelled_defs.specs.Spelled.{spelled_member_at as spelled_member_at_lem};
ghost use Rattle.spelled_defs.specs.Spelled.{spelled_set as spelled_set_lem};
ghost use Rattle.spelled_defs.specs.Context.{defs_of};

use crate::columns::{after_places, column_places, named_places, texts_or_none};
use crate::defs::{Defs, RegistrationAt, TableAt};
use repl_commands::{RawDefs, RawMember, RawRegistration, RawSet, RawTable};
use repl_definitions::{Member, Predicate, SetDef, TargetColumn, TargetKind};
use repl_defs::{find_predicate, find_source, split_column, split_target};
use repl_types::{Bytes, ColumnDef, List, Name, Registration, SetId, TableDef};
use std::alloc::{AllocError, Global};

/// The column that an entry of a table spells, if it spells one.
#[tactic(auto, unfolding(crate::specs::Spelled::spelled_column))]
fn spelled_column(alloc: Global, entry: &[u8]) -> Result<Option<ColumnDef>, AllocError>
    ensures { IfOk result (λ column. column ≡ spelled_column_lem entry.now) }
{
    let Some((word, form)) = split_column(entry) else {
        return Ok(None);
    };
    let Some(name) = Name::read(alloc, word)? else {
        return Ok(None);
    };
    let Some((kind, nullable)) = form else {
        return Ok(None);
    };
    Ok(Some(ColumnDef {
        name,
        kind,
        nullable,
    }))
}

/// The columns that the entries of a table spell.
pub fn spelled_columns(alloc: Global, entries: &[Bytes]) -> Result<List<ColumnDef>, AllocError>
    ensures { IfOk result (λ columns. columns ≡ filter_map spelled_column_lem entries.now) }
{
    let mut columns = List::new(alloc);
    'entries: for entry in entries {
        if let Some(column) = spelled_column(alloc, entry.as_slice())? {
            columns.push(column)?;
        }
    }
    Ok(columns)
}

/// The table that an item spells, if its names are names.
#[tactic(auto, unfolding(crate::specs::Spelled::spelled_table))]
fn spelled_table(alloc: Global, table: &RawTable) -> Result<Option<TableAt>, AllocError>
    ensures { IfOk result (λ spelled. spelled ≡ spelled_table_lem table.now) }
{
    let Some(server) = Name::read(alloc, table.server.as_slice())? else {
        return Ok(None);
    };
    let Some(name) = Name::read(alloc, table.name.as_slice())? else {
        return Ok(None);
    };
    let columns = spelled_columns(alloc, table.columns.as_slice())?;
    let key = column_places(alloc, columns.as_slice(), table.key.as_slice())?;
    let fixed = column_places(alloc, columns.as_slice(), texts_or_none(&table.fixed))?;
    let def = TableDef {
        name,
        columns,
        key,
        fixed,
    };
    Ok(Some(TableAt { server, def }))
}

/// The tables that items spell.
pub fn spelled_tables(alloc: Global, tables: &[RawTable]) -> Result<List<TableAt>, AllocError>
    ensures { IfOk result (λ spelled. spelled ≡ filter_map spelled_table_lem tables.now) }
{
    let mut spelled = List::new(alloc);
    'tables: for table in tables {
        if let Some(table) = spelled_table(alloc, table)? {
            spelled.push(table)?;
        }
    }
    Ok(spelled)
}

/// Whether the table is the one of this server and name.
pub fn is_table(server: &[u8], name: &[u8], table: &TableAt) -> bool
    ensures { result ≡ is_table_lem server.now name.now table.now }
{
    server == table.server.as_str().as_bytes() && name == table.def.name.as_str().as_bytes()
}

/// The table of this server and name.
pub fn find_table<'a>(tables: &'a [TableAt], server: &[u8], name: &[u8]) -> Option<&'a TableAt>
    ensures { option_map (λ t. t.now) result ≡ find (is_table_lem server.now name.now) tables.now }
{
    tables.iter().find(|table| is_table(server, name, table))
}

/// The columns of the table of this server and name, and none if there is no such table.
fn columns_at<'a>(
    tables: &'a [TableAt],
    server: &[u8],
    name: &[u8],
    none: &'a List<ColumnDef>,
) -> &'a List<ColumnDef>
    requires { none.now ≡ [] }
    ensures { result.now ≡ columns_at_lem tables.now server.now name.now }
{
    match find_table(tables, server, name) {
        Some(table) => &table.def.columns,
        None => none,
    }
}

/// The registration that an item spells over the columns of its table, with this table's name.
fn registration_def(
    alloc: Global,
    table: Name,
    columns: &[ColumnDef],
    registration: &RawRegistration,
) -> Result<Registration, AllocError>
    ensures { IfOk result
        (λ def. def ≡ registration_def_lem table columns.now registration.now) }
{
    Ok(Registration {
        table,
        after: after_places(alloc, columns, &registration.after)?,
        before: named_places(alloc, columns, texts_or_none(&registration.before))?,
        del_ins: registration.del_ins.unwrap_or(false),
        changes_only: registration.changes_only.unwrap_or(false),
        disable_refresh: registration.disable_refresh.unwrap_or(false),
    })
}

/// The registration that an item spells, given the tables, if its names are names.
#[tactic(auto, unfolding(crate::specs::Spelled::spelled_registration))]
fn spelled_registration(
    alloc: Global,
    tables: &[TableAt],
    registration: &RawRegistration,
) -> Result<Option<RegistrationAt>, AllocError>
    ensures { IfOk result
        (λ spelled. spelled ≡ spelled_registration_lem tables.now registration.now) }
{
    let (server, table) = (
        registration.server.as_slice(),
        registration.table.as_slice(),
    );
    let none = List::new(alloc);
    let columns = columns_at(tables, server, table, &none);
    let Some(server) = Name::read(alloc, server)? else {
        return Ok(None);
    };
    let Some(table) = Name::read(alloc, table)? else {
        return Ok(None);
    };
    let def = registration_def(alloc, table, columns.as_slice(), registration)?;
    Ok(Some(RegistrationAt { server, def }))
}

/// The registrations that items spell, given the tables.
pub fn spelled_registrations(
    alloc: Global,
    tables: &[TableAt],
    registrations: &[RawRegistration],
) -> Result<List<RegistrationAt>, AllocError>
    ensures { IfOk result
        (λ spelled. spelled ≡ filter_map (spelled_registration_lem tables.now) registrations.now) }
{
    let mut spelled = List::new(alloc);
    'registrations: for registration in registrations {
        if let Some(registration) = spelled_registration(alloc, tables, registration)? {
            spelled.push(registration)?;
        }
    }
    Ok(spelled)
}

/// The kind of target that a member's type says, with its two flags.
#[tactic(auto, unfolding(crate::specs::Spelled::target_kind))]
pub fn target_kind(member: &RawMember) -> Option<TargetKind>
    ensures { result ≡ target_kind_lem member.now }
{
    let kind = member.kind.as_slice();
    if kind == b"user_copy".as_slice() {
        Some(TargetKind::UserCopy)
    } else if kind == b"point_in_time".as_slice() {
        Some(TargetKind::PointInTime)
    } else if kind == b"base_aggregate".as_slice() {
        Some(TargetKind::BaseAggregate)
    } else if kind == b"change_aggregate".as_slice() {
        Some(TargetKind::ChangeAggregate)
    } else if kind == b"ccd".as_slice() {
        Some(TargetKind::Ccd {
            complete: member.complete.unwrap_or(false),
            condensed: member.condensed.unwrap_or(false),
        })
    } else if kind == b"replica".as_slice() {
        Some(TargetKind::Replica)
    } else {
        None
    }
}

/// The column of a target that an entry spells over the columns of the source, if it spells one.
#[tactic(auto, unfolding(crate::specs::Spelled::target_column))]
pub fn target_column(
    alloc: Global,
    columns: &List<ColumnDef>,
    entry: &[u8],
) -> Result<Option<TargetColumn>, AllocError>
    ensures { IfOk result (λ column. column ≡ target_column_lem columns.now entry.now) }
{
    let Some((word, text)) = split_target(entry) else {
        return Ok(None);
    };
    let Some(name) = Name::read(alloc, word)? else {
        return Ok(None);
    };
    let Some(from) = find_source(alloc, text, columns)? else {
        return Ok(None);
    };
    Ok(Some(TargetColumn { name, from }))
}

/// The columns of a target that entries spell over the columns of the source.
fn target_columns(
    alloc: Global,
    columns: &List<ColumnDef>,
    entries: &[Bytes],
) -> Result<List<TargetColumn>, AllocError>
    ensures { IfOk result
        (λ spelled. spelled ≡ filter_map (target_column_lem columns.now) entries.now) }
{
    let mut spelled = List::new(alloc);
    'entries: for entry in entries {
        if let Some(column) = target_column(alloc, columns, entry.as_slice())? {
            spelled.push(column)?;
        }
    }
    Ok(spelled)
}

/// The predicate that the text of a member spells over the columns of the source, if it spells one.
fn filter_of(
    alloc: Global,
    columns: &List<ColumnDef>,
    text: &Option<Bytes>,
) -> Result<Option<Predicate>, AllocError>
    ensures { IfOk result
        (λ filter. filter ≡ option_and_then (predicate_tree columns.now) text.now) }
{
    match text {
        Some(text) => find_predicate(alloc, text.as_slice(), columns),
        None => Ok(None),
    }
}

/// The member that an item spells over the columns of its source, if its names are names.
#[tactic(auto, unfolding(crate::specs::Spelled::spelled_member))]
fn spelled_member(
    alloc: Global,
    columns: &List<ColumnDef>,
    member: &RawMember,
) -> Result<Option<Member>, AllocError>
    ensures { IfOk result (λ spelled. spelled ≡ spelled_member_lem columns.now member.now) }
{
    let Some(source) = Name::read(alloc, member.source.as_slice())? else {
        return Ok(None);
    };
    let Some(target) = Name::read(alloc, member.target.as_slice())? else {
        return Ok(None);
    };
    let Some(kind) = target_kind(member) else {
        return Ok(None);
    };
    let filter = filter_of(alloc, columns, &member.filter)?;
    let columns = target_columns(alloc, columns, texts_or_none(&member.columns))?;
    Ok(Some(Member {
        source,
        target,
        kind,
        columns,
        filter,
    }))
}

/// The member of a set that an item spells, given the tables and the server of its source.
pub fn spelled_member_at(
    alloc: Global,
    tables: &[TableAt],
    source: &[u8],
    member: &RawMember,
) -> Result<Option<Member>, AllocError>
    ensures { IfOk result
        (λ spelled. spelled ≡ spelled_member_at_lem tables.now source.now member.now) }
{
    let none = List::new(alloc);
    let columns = columns_at(tables, source, member.source.as_slice(), &none);
    spelled_member(alloc, columns, member)
}

/// The members of a set that items spell.
fn spelled_members(
    alloc: Global,
    tables: &[TableAt],
    source: &[u8],
    members: &[RawMember],
) -> Result<List<Member>, AllocError>
    ensures { IfOk result
        (λ spelled. spelled
        ≡ filter_map (spelled_member_at_lem tables.now source.now) members.now) }
{
    let mut spelled = List::new(alloc);
    'members: for member in members {
        if let Some(member) = spelled_member_at(alloc, tables, source, member)? {
            spelled.push(member)?;
        }
    }
    Ok(spelled)
}

/// The name of a set, if its two parts are names.
fn set_id(alloc: Global, set: &RawSet) -> Result<Option<SetId>, AllocError>
    ensures { IfOk result (λ id. id ≡ option_and_then (λ qual.
        option_map (λ name. record { qual = qual; name = name }) (name_of set.now.name))
        (name_of set.now.qual)) }
{
    let Some(qual) = Name::read(alloc, set.qual.as_slice())? else {
        return Ok(None);
    };
    let Some(name) = Name::read(alloc, set.name.as_slice())? else {
        return Ok(None);
    };
    Ok(Some(SetId { qual, name }))
}

/// The set that an item spells, given the tables, if its names are names.
#[tactic(auto, unfolding(crate::specs::Spelled::spelled_set))]
fn spelled_set(
    alloc: Global,
    tables: &[TableAt],
    set: &RawSet,
) -> Result<Option<SetDef>, AllocError>
    ensures { IfOk result (λ spelled. spelled ≡ spelled_set_lem tables.now set.now) }
{
    let Some(id) = set_id(alloc, set)? else {
        return Ok(None);
    };
    let Some(source) = Name::read(alloc, set.source.as_slice())? else {
        return Ok(None);
    };
    let Some(target) = Name::read(alloc, set.target.as_slice())? else {
        return Ok(None);
    };
    let members = spelled_members(alloc, tables, set.source.as_slice(), set.members.as_slice())?;
    Ok(Some(SetDef {
        id,
        source,
        target,
        commit_count: set.commit_count.unwrap_or(0),
        max_minutes: set.max_minutes.unwrap_or(0),
        members,
    }))
}

/// The sets that items spell, given the tables.
fn spelled_sets(
    alloc: Global,
    tables: &[TableAt],
    sets: &[RawSet],
) -> Result<List<SetDef>, AllocError>
    ensures { IfOk result (λ spelled. spelled ≡ filter_map (spelled_set_lem tables.now) sets.now) }
{
    let mut spelled = List::new(alloc);
    'sets: for set in sets {
        if let Some(set) = spelled_set(alloc, tables, set)? {
            spelled.push(set)?;
        }
    }
    Ok(spelled)
}

/// The definitions that a text spells, given the tables that stand beside it.
pub fn read_defs(alloc: Global, raw: &RawDefs, tables: &[TableAt]) -> Result<Defs, AllocError>
    ensures { IfOk result (λ defs. defs ≡ defs_of raw.now tables.now) }
{
    Ok(Defs {
        tables: spelled_tables(alloc, raw.tables.as_slice())?,
        registrations: spelled_registrations(alloc, tables, raw.registrations.as_slice())?,
        sets: spelled_sets(alloc, tables, raw.sets.as_slice())?,
    })
}
