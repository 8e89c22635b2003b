//! Rule 14: replica sets.

ghost use Rattle.std.specs.Prelude.{◌≡◌, ◌&&◌, IfOk};
ghost use Rattle.std.specs.List.{list_all, list_any};
ghost use Rattle.std.specs.Cmp.Lexicographic.{pointwise};
ghost use Rattle.repl_model.specs.Rules.{all_places as all_places_lem};
ghost use Rattle.lists.specs.Lists.{are_among as are_among_lem};
ghost use Rattle.checked_defs.specs.Rules.{replicas_stand_alone as replicas_stand_alone_lem};
ghost use Rattle.checked_defs.specs.Rules.{same_column as same_column_lem, as_source_table};
ghost use Rattle.checked_defs.specs.Rules.{keeps_all_images as keeps_all_images_lem};
ghost use Rattle.checked_defs.specs.Rules.{same_tables as same_tables_lem};
ghost use Rattle.checked_defs.specs.Rules.{has_twin as has_twin_lem};
ghost use Rattle.checked_defs.specs.Rules.{copies_from as copies_from_lem};
ghost use Rattle.checked_defs.specs.Rules.{copies_to as copies_to_lem};
ghost use Rattle.spelled_defs.specs.Context.{is_replica_item as is_replica_item_lem};
ghost use Rattle.checked_defs.specs.Rules.{makes_chain as makes_chain_lem};
ghost use Rattle.checked_defs.specs.Rules.{is_replica_apart as is_replica_apart_lem};

use crate::members::registered_source;
use crate::once::copies_to;
use repl_commands::{RawMember, RawSet};
use repl_types::{ColumnDef, Registration, TableDef};
use spelled_defs::{Context, Link, all_places, are_among, is_replica_item};
use std::alloc::{AllocError, Global};

/// Whether a member is a replica.
fn has_replicas(members: &[RawMember]) -> bool
    ensures { result ≡ list_any is_replica_item_lem members.now }
{
    members.iter().any(|member| is_replica_item(member))
}

/// Whether all members are replicas.
fn are_replicas(members: &[RawMember]) -> bool
    ensures { result ≡ list_all is_replica_item_lem members.now }
{
    members.iter().all(|member| is_replica_item(member))
}

/// Whether a set has replicas only, without limits of its steps, if it has one.
pub fn replicas_stand_alone(set: &RawSet) -> bool
    ensures { result ≡ replicas_stand_alone_lem set.now }
{
    !has_replicas(set.members.as_slice())
        || are_replicas(set.members.as_slice())
            && set.commit_count.unwrap_or(0) == 0
            && set.max_minutes.unwrap_or(0) == 0
}

/// Whether two columns are alike.
fn same_column(a: &ColumnDef, b: &ColumnDef) -> bool
    ensures { result ≡ same_column_lem a.now b.now }
{
    a.name.as_str().as_bytes() == b.name.as_str().as_bytes()
        && a.kind == b.kind
        && a.nullable == b.nullable
}

/// Whether columns are alike, one by one.
fn same_columns(columns: &[ColumnDef], others: &[ColumnDef]) -> bool
    ensures { result ≡ pointwise same_column_lem columns.now others.now }
{
    let mut rest = columns;
    let mut others = others;
    'columns: while let [first, after @ ..] = rest {
        match others {
            [other, others_after @ ..] => {
                if !same_column(first, other) {
                    return false;
                }
                rest = after;
                others = others_after;
            }
            [] => return false,
        }
    }
    others.is_empty()
}

/// Whether the places are all columns of a table.
fn has_all_places(alloc: Global, places: &[u32], def: &TableDef) -> Result<bool, AllocError>
    ensures { IfOk result (λ all. all ≡ are_among_lem places.now (all_places_lem def.now)) }
{
    let all = all_places(alloc, def.columns.as_slice())?;
    Ok(are_among(places, all.as_slice()))
}

/// Whether all columns are captured as they were before and after a change, each change by one
/// change row.
fn keeps_all_images(alloc: Global, def: &TableDef, reg: &Registration) -> Result<bool, AllocError>
    ensures { IfOk result
        (λ keeps. keeps ≡ keeps_all_images_lem (as_source_table def.now reg.now)) }
{
    Ok(
        has_all_places(alloc, reg.after.as_slice(), def)?
            && has_all_places(alloc, reg.before.as_slice(), def)?
            && !reg.del_ins
            && !reg.changes_only,
    )
}

/// Whether the columns, keys and fixed columns of two tables are alike.
fn same_tables(master: &TableDef, replica: &TableDef) -> bool
    ensures { result ≡ same_tables_lem master.now replica.now }
{
    same_columns(master.columns.as_slice(), replica.columns.as_slice())
        && master.key.as_slice() == replica.key.as_slice()
        && master.fixed.as_slice() == replica.fixed.as_slice()
}

/// Whether the table at the replica is registered and alike to that at the master, and both keep
/// all images.
fn has_twin(
    alloc: Global,
    context: &Context,
    set: &RawSet,
    member: &RawMember,
) -> Result<bool, AllocError>
    ensures { IfOk result (λ has. has ≡ has_twin_lem context.now set.now member.now) }
{
    let master = registered_source(context, set.source.as_slice(), member.source.as_slice());
    let replica = registered_source(context, set.target.as_slice(), member.target.as_slice());
    match master {
        Some((master, master_reg)) => match replica {
            Some((replica, replica_reg)) => Ok(
                same_tables(master, replica)
                    && keeps_all_images(alloc, master, master_reg)?
                    && keeps_all_images(alloc, replica, replica_reg)?,
            ),
            None => Ok(false),
        },
        None => Ok(true),
    }
}

/// Whether the link comes from this table.
fn copies_from(server: &[u8], table: &[u8], link: &Link) -> bool
    ensures { result ≡ copies_from_lem server.now table.now link.now }
{
    server == link.source_server.as_slice() && table == link.source.as_slice()
}

/// Whether a replica comes from this table.
fn some_replica_copies_from(server: &[u8], table: &[u8], links: &[Link]) -> bool
    ensures { result ≡ list_any
        (λ link. link.is_replica && copies_from_lem server.now table.now link) links.now }
{
    links
        .iter()
        .any(|link| link.is_replica && copies_from(server, table, link))
}

/// Whether a replica goes to this table.
fn some_replica_copies_to(server: &[u8], table: &[u8], links: &[Link]) -> bool
    ensures { result ≡ list_any
        (λ link. link.is_replica && copies_to_lem server.now table.now link) links.now }
{
    links
        .iter()
        .any(|link| link.is_replica && copies_to(server, table, link))
}

/// Whether a table is the target of one replica and the source of another.
fn makes_chain(context: &Context, set: &RawSet, member: &RawMember) -> bool
    ensures { result ≡ makes_chain_lem context.now set.now member.now }
{
    let links = context.links.as_slice();
    some_replica_copies_from(set.target.as_slice(), member.target.as_slice(), links)
        || some_replica_copies_to(set.source.as_slice(), member.source.as_slice(), links)
}

/// Whether a member that is a replica has the name of its source, says nothing of columns and rows,
/// has a table like its own at the replica, and is no part of a chain.
pub fn is_replica_apart(
    alloc: Global,
    context: &Context,
    set: &RawSet,
    member: &RawMember,
) -> Result<bool, AllocError>
    ensures { IfOk result
        (λ keeps. keeps ≡ is_replica_apart_lem context.now set.now member.now) }
{
    Ok(
        !is_replica_item(member)
            || member.columns.is_none()
                && member.filter.is_none()
                && member.source.as_slice() == member.target.as_slice()
                && has_twin(alloc, context, set, member)?
                && !makes_chain(context, set, member),
    )
}
