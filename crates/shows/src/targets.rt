//! The target of a name at a server is found.

ghost use Rattle.std.specs.Prelude.{◌<◌, length, IsTrue, not, OnOk, OnErr, IfOk, IfErr, IfSome};
ghost use Rattle.std.specs.Prelude.{MatchOption};
ghost use Rattle.repl_definitions.specs.Sets.{IsSetDef};
ghost use Rattle.repl_model.specs.Rules.{is_replica_set as is_replica_set_lem};
ghost use Rattle.repl_model.specs.World.{World, server_in};
ghost use Rattle.site_store.specs.Damage.{IsNoDamage};
ghost use Rattle.site_store.specs.Servers.{AllClosed};
ghost use Rattle.site_store.specs.Views.{names, held, work};
ghost use Rattle.site_store.specs.one_server.Calls.{Looks, Stops};
ghost use Rattle.world_store.specs.Stands.{Stands};
ghost use Rattle.stored_defs.specs.Rules.{ShowsDamage as ShowsDamageOfDefinitions};
ghost use Rattle.shows.specs.sets.Rules.{ShowsDamage};
ghost use Rattle.shows.specs.sets.Targets.{HasTarget, HasNoTarget, IsTargetAt, IsTargetOf};
ghost use Rattle.shows.specs.sets.Targets.{IsNamedAs, IsNamedIn};

use keep_core::Keeper;
use repl_definitions::{SetDef, TargetSet};
use repl_types::{Fault, Name};
use row_codec::Table3;
use set_places::{PlacedSet, find_set};
use site_store::Sites;
use std::alloc::Global;
use stored_defs::read_records;
use subs_sets::is_replica_set;

/// A target of a set that stands at both its ends: the set as it was found, and the place of the
/// member among the set's members, counted from 0.
#[derive(Debug, Drop)]
pub struct PlacedTarget {
    pub set: PlacedSet,
    pub member: u32,
}

/// The place of the member whose target has a name.
fn place_of(def: &SetDef, name: &Name) -> Option<u32>
    requires fits { IsSetDef def.now }
    ensures { MatchOption result (HasNoTarget name.now def.now) (HasTarget name.now def.now) }
{
    let members = def.members.as_slice();
    for member in 0..members.len() as u32 {
        if *name == members[member as usize].target {
            return Some(member);
        }
    }
    None
}

/// The target of a name of a found set, if it is read-only and has one.
fn target_of(set: PlacedSet, name: &Name) -> Option<PlacedTarget>
    requires fits { IsSetDef set.at_target.def }
    ensures { let def = set.at_target.def in
        MatchOption result (IsTrue (not (is_replica_set_lem def)) → HasNoTarget name.now def)
        (IsTargetOf name.now set) }
{
    if is_replica_set(&set.at_target.def) {
        return None;
    }
    let Some(member) = place_of(&set.at_target.def, name) else {
        return None;
    };
    Some(PlacedTarget { set, member })
}

/// The target of a name at a server, if it is one of the set with this definition.
fn find_in<K: Keeper>(
    sites: &mut Sites<K>,
    alloc: Global,
    server: u32,
    def: &SetDef,
    name: &Name,
) -> Result<Option<PlacedTarget>, Fault>
    requires server { server < length (names sites.old) }
    requires closed { AllClosed (work K.kept sites.old) }
    requires fits { IsSetDef def.now }
    ensures ok { OnOk result (Looks K.kept sites.old sites.new) }
    ensures placed { IfOk result (λ found. IfSome found (IsTargetAt K.kept sites.new server)) }
    ensures found { IfOk result (λ found. (w : World)
        → Stands (names sites.old) (held K.kept sites.old) w
        → IsNamedIn name.now w (server_in w server) def.now found) }
    ensures fault { IfErr result (Stops K.kept sites.old sites.new
        (ShowsDamageOfDefinitions K.kept sites.old)) }
    ensures closed { OnErr result (AllClosed (work K.kept sites.new)) }
    ensures undamaged { IfErr result (λ e. (w : World)
        → Stands (names sites.old) (held K.kept sites.old) w → IsNoDamage e) }
{
    if place_of(def, name).is_none() {
        return Ok(None);
    }
    let Some(set) = find_set(sites, alloc, &def.id)? else {
        return Ok(None);
    };
    if set.target != server {
        return Ok(None);
    }
    Ok(target_of(set, name))
}

/// The target of a name at a server: that of a member of a read-only set that stands at both its
/// ends, and whose target the server is. Its set is looked for only if it has a target of the name.
///
/// After a fault no transaction is open at any server.
pub fn find_target<K: Keeper>(
    sites: &mut Sites<K>,
    alloc: Global,
    server: u32,
    name: &Name,
) -> Result<Option<PlacedTarget>, Fault>
    requires server { server < length (names sites.old) }
    requires closed { AllClosed (work K.kept sites.old) }
    ensures ok { OnOk result (Looks K.kept sites.old sites.new) }
    ensures placed { IfOk result (λ found. IfSome found (IsTargetAt K.kept sites.new server)) }
    ensures found { IfOk result (λ found. (w : World)
        → Stands (names sites.old) (held K.kept sites.old) w
        → IsNamedAs name.now w (server_in w server) found) }
    ensures fault { IfErr result (Stops K.kept sites.old sites.new (ShowsDamage K.kept sites.old)) }
    ensures closed { OnErr result (AllClosed (work K.kept sites.new)) }
    ensures undamaged { IfErr result (λ e. (w : World)
        → Stands (names sites.old) (held K.kept sites.old) w → IsNoDamage e) }
{
    let rows = read_records::<K, TargetSet>(sites, alloc, server, Table3)?;
    for row in rows.as_slice() {
        if let Some(target) = find_in(sites, alloc, server, &row.def, name)? {
            return Ok(Some(target));
        }
    }
    Ok(None)
}
