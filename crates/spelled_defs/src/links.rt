//! The members of all sets as links.

ghost use Rattle.std.specs.Prelude.{◌≡◌, ◌++◌, filter, IfOk, OnOk};
ghost use Rattle.std.specs.List.{flat_map, list_any};
ghost use Rattle.repl_model.specs.Rules.{is_replica as is_replica_lem};
ghost use Rattle.spelled_defs.specs.Context.{is_replica_item as is_replica_item_lem};
ghost use Rattle.spelled_defs.specs.Context.{link_of_item as link_of_item_lem};
ghost use Rattle.spelled_defs.specs.Context.{link_of_member as link_of_member_lem};
ghost use Rattle.spelled_defs.specs.Context.{links_of_item, links_of_set, all_links};
ghost use Rattle.spelled_defs.specs.Context.{names_set as names_set_lem};
ghost use Rattle.spelled_defs.specs.Context.{is_other_set as is_other_set_lem};

use crate::context::Link;
use crate::defs::Defs;
use repl_commands::{RawDefs, RawMember, RawSet};
use repl_definitions::{Member, SetDef, TargetKind};
use repl_types::{Bytes, List};
use std::alloc::{AllocError, Global};

/// A copy of bytes.
pub fn copy_bytes(alloc: Global, bytes: &[u8]) -> Result<Bytes, AllocError>
    ensures { IfOk result (λ copy. copy ≡ bytes.now) }
{
    Ok(List::from_vec(Vec::from_slice(alloc, bytes)?))
}

/// Whether the type of a member is that of replicas.
pub fn is_replica_item(member: &RawMember) -> bool
    ensures { result ≡ is_replica_item_lem member.now }
{
    member.kind.as_slice() == b"replica".as_slice()
}

/// Whether the target is a replica.
fn is_replica(kind: TargetKind) -> bool
    ensures { result ≡ is_replica_lem kind }
{
    match kind {
        TargetKind::Replica => true,
        TargetKind::UserCopy
        | TargetKind::PointInTime
        | TargetKind::BaseAggregate
        | TargetKind::ChangeAggregate
        | TargetKind::Ccd { .. } => false,
    }
}

/// A member of a text as a link.
fn link_of_item(alloc: Global, set: &RawSet, member: &RawMember) -> Result<Link, AllocError>
    ensures { IfOk result (λ link. link ≡ link_of_item_lem set.now member.now) }
{
    Ok(Link {
        source_server: copy_bytes(alloc, set.source.as_slice())?,
        source: copy_bytes(alloc, member.source.as_slice())?,
        target_server: copy_bytes(alloc, set.target.as_slice())?,
        target: copy_bytes(alloc, member.target.as_slice())?,
        is_replica: is_replica_item(member),
    })
}

/// A known member as a link.
fn link_of_member(alloc: Global, set: &SetDef, member: &Member) -> Result<Link, AllocError>
    ensures { IfOk result (λ link. link ≡ link_of_member_lem set.now member.now) }
{
    Ok(Link {
        source_server: copy_bytes(alloc, set.source.as_str().as_bytes())?,
        source: copy_bytes(alloc, member.source.as_str().as_bytes())?,
        target_server: copy_bytes(alloc, set.target.as_str().as_bytes())?,
        target: copy_bytes(alloc, member.target.as_str().as_bytes())?,
        is_replica: is_replica(member.kind),
    })
}

/// Adds the links of a set of a text.
fn push_item_links(alloc: Global, set: &RawSet, links: &mut List<Link>) -> Result<(), AllocError>
    ensures { OnOk result (links.new ≡ links.old ++ links_of_item set.now) }
{
    'members: for member in set.members.as_slice() {
        links.push(link_of_item(alloc, set, member)?)?;
    }
    Ok(())
}

/// Adds the links of a known set.
fn push_set_links(alloc: Global, set: &SetDef, links: &mut List<Link>) -> Result<(), AllocError>
    ensures { OnOk result (links.new ≡ links.old ++ links_of_set set.now) }
{
    'members: for member in set.members.as_slice() {
        links.push(link_of_member(alloc, set, member)?)?;
    }
    Ok(())
}

/// Whether an item has the name of a set.
fn names_set(set: &SetDef, item: &RawSet) -> bool
    ensures { result ≡ names_set_lem set.now item.now }
{
    item.qual.as_slice() == set.id.qual.as_str().as_bytes()
        && item.name.as_slice() == set.id.name.as_str().as_bytes()
}

/// Whether a set's name stands among the items.
fn set_stands_in(items: &[RawSet], set: &SetDef) -> bool
    ensures { result ≡ list_any (names_set_lem set.now) items.now }
{
    items.iter().any(|item| names_set(set, item))
}

/// Whether a set's name doesn't stand among the items.
fn is_other_set(items: &[RawSet], set: &SetDef) -> bool
    ensures { result ≡ is_other_set_lem items.now set.now }
{
    !set_stands_in(items, set)
}

/// Adds the links of the sets of a text.
fn push_text_links(alloc: Global, sets: &[RawSet], links: &mut List<Link>) -> Result<(), AllocError>
    ensures { OnOk result (links.new ≡ links.old ++ flat_map links_of_item sets.now) }
{
    'sets: for set in sets {
        push_item_links(alloc, set, links)?;
    }
    Ok(())
}

/// Adds the links of the known sets whose names don't stand among the items.
fn push_known_links(
    alloc: Global,
    items: &[RawSet],
    sets: &[SetDef],
    links: &mut List<Link>,
) -> Result<(), AllocError>
    ensures { OnOk result (links.new
        ≡ links.old ++ flat_map links_of_set (filter (is_other_set_lem items.now) sets.now)) }
{
    'sets: for set in sets {
        if is_other_set(items, set) {
            push_set_links(alloc, set, links)?;
        }
    }
    Ok(())
}

/// The links of all sets that stand beside a text.
pub fn all_links(alloc: Global, raw: &RawDefs, known: &Defs) -> Result<List<Link>, AllocError>
    ensures { IfOk result (λ links. links ≡ all_links raw.now known.now) }
{
    let mut links = List::new(alloc);
    push_text_links(alloc, raw.sets.as_slice(), &mut links)?;
    push_known_links(
        alloc,
        raw.sets.as_slice(),
        known.sets.as_slice(),
        &mut links,
    )?;
    Ok(links)
}
