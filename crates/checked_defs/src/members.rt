//! Rules 9 to 13: members, and the tables that they copy.

ghost use Rattle.std.specs.Prelude.{◌≡◌, ◌++◌, ◌==◌, ◌||◌, option_map, count_by, is_some, false};
ghost use Rattle.std.specs.Prelude.{IfOk};
ghost use Rattle.std.specs.List.{list_all, list_any};
ghost use Rattle.std.specs.Option.{option_map_or};
ghost use Rattle.repl_model.specs.Rules.{filter_columns, columns_from};
ghost use Rattle.lists.specs.Lists.{are_among as are_among_lem};
ghost use Rattle.repl_model.specs.Rules.{just_column as just_column_lem};
ghost use Rattle.repl_types.specs.declared.change_row.Registration.{Registration as Captured};
ghost use Rattle.repl_model.specs.Rules.{is_copy as is_copy_lem, is_condensed as is_condensed_lem};
ghost use Rattle.repl_model.specs.Rules.{is_aggregate as is_aggregate_lem, sums_up as sums_up_lem};
ghost use Rattle.repl_model.specs.Rules.{sums_texts as sums_texts_lem};
ghost use Rattle.repl_model.specs.Rules.{keys_stand as keys_stand_lem};
ghost use Rattle.repl_model.specs.Rules.{copy_may_move as copy_may_move_lem};
ghost use Rattle.repl_model.specs.Rules.{condensed_may_move as condensed_may_move_lem};
ghost use Rattle.repl_model.specs.Rules.{sums_fit as sums_fit_lem};
ghost use Rattle.checked_defs.specs.Rules.{has_two_servers as has_two_servers_lem, as_source_table};
ghost use Rattle.checked_defs.specs.Rules.{is_source_registered as is_source_registered_lem};
ghost use Rattle.checked_defs.specs.Rules.{registered_source as registered_source_lem};
ghost use Rattle.checked_defs.specs.Rules.{member_over_source as member_over_source_lem};
ghost use Rattle.checked_defs.specs.Rules.{is_target_entry as is_target_entry_lem};
ghost use Rattle.checked_defs.specs.Rules.{texts_are_read as texts_are_read_lem};
ghost use Rattle.checked_defs.specs.Rules.{reads_registered as reads_registered_lem};
ghost use Rattle.checked_defs.specs.Rules.{has_texts as has_texts_lem, texts_fit as texts_fit_lem};
ghost use Rattle.checked_defs.specs.Rules.{copies_may_move as copies_may_move_lem};
ghost use Rattle.checked_defs.specs.Rules.{condensed_rows_may_move as condensed_rows_may_move_lem};
ghost use Rattle.checked_defs.specs.Rules.{sums_stand_in_aggregates as sums_stand_in_aggregates_lem};

use crate::reads::{column_reads_among, filter_reads_among, just_column};
use repl_commands::{RawMember, RawSet};
use repl_definitions::{ColumnFrom, Member, TargetColumn, TargetKind};
use repl_defs::{DEFINITION_TEXT_LIMIT, find_predicate};
use repl_types::{ColumnDef, Kind, List, Registration, TableDef};
use spelled_defs::{
    Context, are_among, find_registration, find_table, is_replica_item, spelled_member_at,
    target_column, texts_or_none,
};
use std::alloc::{AllocError, Global};

/// Whether a set has two servers.
pub fn has_two_servers(set: &RawSet) -> bool
    ensures { result ≡ has_two_servers_lem set.now }
{
    set.source.as_slice() != set.target.as_slice()
}

/// The registered table of this server and name.
pub fn registered_source<'a>(
    context: &'a Context,
    server: &[u8],
    name: &[u8],
) -> Option<(&'a TableDef, &'a Registration)>
    ensures { option_map (λ s. as_source_table s.0.now s.1.now) result
        ≡ registered_source_lem context.now server.now name.now }
{
    let Some(table) = find_table(context.tables.as_slice(), server, name) else {
        return None;
    };
    let Some(registration) = find_registration(context.registrations.as_slice(), server, name)
    else {
        return None;
    };
    Some((&table.def, &registration.def))
}

/// Whether a member's source is a table that is registered.
pub fn is_source_registered(context: &Context, set: &RawSet, member: &RawMember) -> bool
    ensures { result ≡ is_source_registered_lem context.now set.now member.now }
{
    match registered_source(context, set.source.as_slice(), member.source.as_slice()) {
        Some(_) => true,
        None => false,
    }
}

/// A member with its source, if both are there.
fn member_over_source<'a>(
    alloc: Global,
    context: &'a Context,
    set: &RawSet,
    member: &RawMember,
) -> Result<Option<(&'a TableDef, &'a Registration, Member)>, AllocError>
    ensures { IfOk result (λ over. option_map (λ o. (as_source_table o.0.now o.1.now, o.2)) over
        ≡ member_over_source_lem context.now set.now member.now) }
{
    let source = set.source.as_slice();
    let Some((def, reg)) = registered_source(context, source, member.source.as_slice()) else {
        return Ok(None);
    };
    let Some(spelled) = spelled_member_at(alloc, context.tables.as_slice(), source, member)? else {
        return Ok(None);
    };
    Ok(Some((def, reg, spelled)))
}

/// Whether an entry is a name and a source over the columns, and not too long.
fn is_target_entry(
    alloc: Global,
    columns: &List<ColumnDef>,
    entry: &[u8],
) -> Result<bool, AllocError>
    ensures { IfOk result (λ is. is ≡ is_target_entry_lem columns.now entry.now) }
{
    if entry.len() > DEFINITION_TEXT_LIMIT {
        return Ok(false);
    }
    Ok(target_column(alloc, columns, entry)?.is_some())
}

/// Whether the texts of a member are read over the columns of its source, and there are columns if
/// it is no replica.
fn texts_are_read(
    alloc: Global,
    columns: &List<ColumnDef>,
    member: &RawMember,
) -> Result<bool, AllocError>
    ensures { IfOk result (λ read. read ≡ texts_are_read_lem columns.now member.now) }
{
    let entries = texts_or_none(&member.columns);
    'entries: for entry in entries {
        if !is_target_entry(alloc, columns, entry.as_slice())? {
            return Ok(false);
        }
    }
    if let Some(text) = &member.filter {
        if find_predicate(alloc, text.as_slice(), columns)?.is_none() {
            return Ok(false);
        }
    }
    Ok(is_replica_item(member) || !entries.is_empty())
}

/// Whether each column of a target reads only columns at these places.
fn columns_read_among(places: &[u32], columns: &[TargetColumn]) -> bool
    ensures { result ≡ list_all
        (λ column. are_among_lem places.now (columns_from column.from)) columns.now }
{
    columns
        .iter()
        .all(|column| column_reads_among(places, &column.from))
}

/// Whether columns and predicate of a member read only registered columns.
fn reads_registered(reg: &Registration, member: &Member) -> bool
    ensures { result ≡ reads_registered_lem reg.now member.now }
{
    columns_read_among(reg.after.as_slice(), member.columns.as_slice())
        && filter_reads_among(reg.after.as_slice(), member)
}

/// Whether the target is a user copy or a point-in-time copy.
fn is_copy(kind: TargetKind) -> bool
    ensures { result ≡ is_copy_lem kind }
{
    match kind {
        TargetKind::UserCopy | TargetKind::PointInTime => true,
        TargetKind::BaseAggregate
        | TargetKind::ChangeAggregate
        | TargetKind::Ccd { .. }
        | TargetKind::Replica => false,
    }
}

/// Whether the target is a condensed table of change data.
fn is_condensed(kind: TargetKind) -> bool
    ensures { result ≡ is_condensed_lem kind }
{
    match kind {
        TargetKind::Ccd {
            complete: _,
            condensed,
        } => condensed,
        TargetKind::UserCopy | TargetKind::PointInTime => false,
        TargetKind::BaseAggregate | TargetKind::ChangeAggregate => false,
        TargetKind::Replica => false,
    }
}

/// Whether the target is an aggregate.
fn is_aggregate(kind: TargetKind) -> bool
    ensures { result ≡ is_aggregate_lem kind }
{
    match kind {
        TargetKind::BaseAggregate | TargetKind::ChangeAggregate => true,
        TargetKind::UserCopy
        | TargetKind::PointInTime
        | TargetKind::Ccd { .. }
        | TargetKind::Replica => false,
    }
}

/// Whether the target has this column of the source as exactly one of its columns.
fn copies_once(member: &Member, place: u32) -> bool
    ensures { result ≡ (count_by (λ column. option_map_or (λ p. p == place)
        (just_column_lem column.from) false) member.now.columns == 1) }
{
    let count = member
        .columns
        .as_slice()
        .iter()
        .filter(|column| just_column(&column.from) == Some(place))
        .count();
    count == 1
}

/// Whether the target has each of these columns of the source exactly once.
fn copies_each_once(member: &Member, places: &[u32]) -> bool
    ensures { result ≡ list_all (λ place. count_by (λ column. option_map_or (λ p. p == place)
        (just_column_lem column.from) false) member.now.columns == 1) places.now }
{
    places.iter().all(|place| copies_once(member, *place))
}

/// Whether a target whose rows stand under their keys has each column of the key exactly once.
fn keys_stand(def: &TableDef, member: &Member) -> bool
    ensures { (reg : Captured) → result ≡ keys_stand_lem (as_source_table def.now reg) member.now }
{
    !(is_copy(member.kind) || is_condensed(member.kind))
        || copies_each_once(member, def.key.as_slice())
}

/// Whether the key of a table and the predicate of a member read only columns at these places.
fn moves_among(places: &[u32], def: &TableDef, member: &Member) -> bool
    ensures { result ≡ are_among_lem places.now (def.now.key ++ filter_columns member.now) }
{
    are_among(places, def.key.as_slice()) && filter_reads_among(places, member)
}

/// The places of some columns, and then those of others.
fn both_places(alloc: Global, first: &[u32], second: &[u32]) -> Result<List<u32>, AllocError>
    ensures { IfOk result (λ places. places ≡ first.now ++ second.now) }
{
    let mut places = Vec::from_slice(alloc, first)?;
    places.extend_from_slice(second)?;
    Ok(List::from_vec(places))
}

/// Whether the rows of a copy may move, by what is fixed and by the before-images.
fn copy_may_move(
    alloc: Global,
    def: &TableDef,
    reg: &Registration,
    member: &Member,
) -> Result<bool, AllocError>
    ensures { IfOk result
        (λ may. may ≡ copy_may_move_lem (as_source_table def.now reg.now) member.now) }
{
    if !is_copy(member.kind) || reg.del_ins {
        return Ok(true);
    }
    let known = both_places(alloc, def.fixed.as_slice(), reg.before.as_slice())?;
    Ok(moves_among(known.as_slice(), def, member))
}

/// Whether the rows of a condensed table may move, by what is fixed.
fn condensed_may_move(def: &TableDef, reg: &Registration, member: &Member) -> bool
    ensures { result ≡ condensed_may_move_lem (as_source_table def.now reg.now) member.now }
{
    !is_condensed(member.kind) || reg.del_ins || moves_among(def.fixed.as_slice(), def, member)
}

/// Whether a column of a target sums up rows.
fn sums_up(from: &ColumnFrom) -> bool
    ensures { result ≡ sums_up_lem from.now }
{
    match from {
        ColumnFrom::Plain(_) => false,
        ColumnFrom::Count => true,
        ColumnFrom::CountOf(_) | ColumnFrom::Sum(_) => true,
        ColumnFrom::Min(_) | ColumnFrom::Max(_) => true,
    }
}

/// Whether a column of a target is the sum of a column of texts.
fn sums_texts(columns: &[ColumnDef], from: &ColumnFrom) -> bool
    ensures { result ≡ sums_texts_lem columns.now from.now }
{
    match from {
        ColumnFrom::Sum(place) => match columns.get(*place as usize) {
            Some(column) => column.kind == Kind::Text,
            None => false,
        },
        ColumnFrom::Plain(_) => false,
        ColumnFrom::Count => false,
        ColumnFrom::CountOf(_) | ColumnFrom::Min(_) | ColumnFrom::Max(_) => false,
    }
}

/// Whether some column of a target sums up.
fn some_sum_up(columns: &[TargetColumn]) -> bool
    ensures { result ≡ list_any (λ column. sums_up_lem column.from) columns.now }
{
    columns.iter().any(|column| sums_up(&column.from))
}

/// Whether each column of a target sums up, or is a column of the source and nothing more.
fn sum_or_copy(columns: &[TargetColumn]) -> bool
    ensures { result ≡ list_all
        (λ column. sums_up_lem column.from || is_some (just_column_lem column.from)) columns.now }
{
    columns.iter().all(|column| sums_up(&column.from) || just_column(&column.from).is_some())
}

/// Whether some column of a target is the sum of a column of texts.
fn some_sum_texts(source: &[ColumnDef], columns: &[TargetColumn]) -> bool
    ensures { result ≡ list_any (λ column. sums_texts_lem source.now column.from) columns.now }
{
    columns
        .iter()
        .any(|column| sums_texts(source, &column.from))
}

/// Whether a member sums up as its kind asks.
fn sums_fit(def: &TableDef, member: &Member) -> bool
    ensures { (reg : Captured) → result ≡ sums_fit_lem (as_source_table def.now reg) member.now }
{
    let columns = member.columns.as_slice();
    if is_aggregate(member.kind) {
        sum_or_copy(columns)
            && some_sum_up(columns)
            && !some_sum_texts(def.columns.as_slice(), columns)
    } else {
        !some_sum_up(columns)
    }
}

/// Whether a member's texts are read, name registered columns, and copy the key if they have to.
fn texts_fit(
    alloc: Global,
    member: &RawMember,
    def: &TableDef,
    reg: &Registration,
    spelled: &Member,
) -> Result<bool, AllocError>
    ensures { IfOk result (λ fit. fit
        ≡ texts_fit_lem member.now (as_source_table def.now reg.now) spelled.now) }
{
    Ok(
        texts_are_read(alloc, &def.columns, member)?
            && reads_registered(reg, spelled)
            && keys_stand(def, spelled),
    )
}

/// Whether a member's texts fit its source.
pub fn has_texts(
    alloc: Global,
    context: &Context,
    set: &RawSet,
    member: &RawMember,
) -> Result<bool, AllocError>
    ensures { IfOk result (λ keeps. keeps ≡ has_texts_lem context.now set.now member.now) }
{
    match member_over_source(alloc, context, set, member)? {
        Some((def, reg, spelled)) => texts_fit(alloc, member, def, reg, &spelled),
        None => Ok(true),
    }
}

/// Whether the rows of a member that is a copy may move.
pub fn copies_may_move(
    alloc: Global,
    context: &Context,
    set: &RawSet,
    member: &RawMember,
) -> Result<bool, AllocError>
    ensures { IfOk result (λ keeps. keeps ≡ copies_may_move_lem context.now set.now member.now) }
{
    match member_over_source(alloc, context, set, member)? {
        Some((def, reg, spelled)) => copy_may_move(alloc, def, reg, &spelled),
        None => Ok(true),
    }
}

/// Whether the rows of a member that is a condensed table may move.
pub fn condensed_rows_may_move(
    alloc: Global,
    context: &Context,
    set: &RawSet,
    member: &RawMember,
) -> Result<bool, AllocError>
    ensures { IfOk result
        (λ keeps. keeps ≡ condensed_rows_may_move_lem context.now set.now member.now) }
{
    match member_over_source(alloc, context, set, member)? {
        Some((def, reg, spelled)) => Ok(condensed_may_move(def, reg, &spelled)),
        None => Ok(true),
    }
}

/// Whether a member sums up as its kind asks.
pub fn sums_stand_in_aggregates(
    alloc: Global,
    context: &Context,
    set: &RawSet,
    member: &RawMember,
) -> Result<bool, AllocError>
    ensures { IfOk result
        (λ keeps. keeps ≡ sums_stand_in_aggregates_lem context.now set.now member.now) }
{
    match member_over_source(alloc, context, set, member)? {
        Some((def, _, spelled)) => Ok(sums_fit(def, &spelled)),
        None => Ok(true),
    }
}
