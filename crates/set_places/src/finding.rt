//! The set of a name is found.

ghost use Rattle.std.specs.Prelude.{◌≡◌, ◌<◌, length, Some, OnOk, OnErr, IfOk, IfErr, IfSome};
ghost use Rattle.repl_types.specs.declared.refusal.Refusal.TheVariants as refusals;
ghost use Rattle.repl_model.specs.World.{World};
ghost use Rattle.site_store.specs.Damage.{IsNoDamage};
ghost use Rattle.site_store.specs.Servers.{AllClosed};
ghost use Rattle.site_store.specs.Views.{names, held, work};
ghost use Rattle.site_store.specs.one_server.Calls.{Looks, Stops};
ghost use Rattle.world_store.specs.Stands.{Stands};
ghost use Rattle.stored_defs.specs.Rules.{ShowsDamage};
ghost use Rattle.set_places.specs.Places.{IsPlaced, IsKnownAs};
ghost use Rattle.set_places.specs.Finding.{IsFoundFrom, IsKnownAt};
ghost use Rattle.set_places.specs.Reading.{is_of_definitions, ReadsOnly};

use crate::placed_set::PlacedSet;
use keep_core::Keeper;
use repl_definitions::{SourceSet, TargetSet};
use repl_types::{Fault, Refusal, SetId};
use row_codec::{Table2, Table3};
use site_store::Sites;
use std::alloc::{AllocError, Global};

/// The set whose row stands at a target, if it stands at its source too.
fn find_from<K: Keeper>(
    sites: &mut Sites<K>,
    alloc: Global,
    target: u32,
    at_target: TargetSet,
) -> Result<Option<PlacedSet>, Fault>
    requires target { target < length (names sites.old) }
    requires closed { AllClosed (work K.kept sites.old) }
    ensures ok { OnOk result (Looks K.kept sites.old sites.new) }
    ensures found { IfOk result (IsFoundFrom K.kept sites.old target at_target) }
    ensures fault { IfErr result (Stops K.kept sites.old sites.new (ShowsDamage K.kept sites.old)) }
    ensures closed { OnErr result (AllClosed (work K.kept sites.new)) }
    ensures reads { ReadsOnly is_of_definitions K.kept sites.old sites.new }
{
    let Some(source) = sites.find(&at_target.def.source) else {
        return Ok(None);
    };
    let row = sites.get::<SourceSet>(alloc, source, Table2, &at_target.def.id)?;
    let Some(at_source) = row else {
        return Ok(None);
    };
    Ok(Some(PlacedSet {
        source,
        at_source,
        target,
        at_target,
    }))
}

/// The set of a name, if it stands at this target and at its source too.
fn find_at<K: Keeper>(
    sites: &mut Sites<K>,
    alloc: Global,
    target: u32,
    id: &SetId,
) -> Result<Option<PlacedSet>, Fault>
    requires target { target < length (names sites.old) }
    requires closed { AllClosed (work K.kept sites.old) }
    ensures ok { OnOk result (Looks K.kept sites.old sites.new) }
    ensures placed { IfOk result (λ found. IfSome found (IsPlaced K.kept sites.new)) }
    ensures known { IfOk result (λ found. (w : World)
        → Stands (names sites.old) (held K.kept sites.old) w → IsKnownAt w target id.now found) }
    ensures fault { IfErr result (Stops K.kept sites.old sites.new (ShowsDamage K.kept sites.old)) }
    ensures closed { OnErr result (AllClosed (work K.kept sites.new)) }
    ensures reads { ReadsOnly is_of_definitions K.kept sites.old sites.new }
{
    let row = sites.get::<TargetSet>(alloc, target, Table3, id)?;
    let Some(at_target) = row else {
        return Ok(None);
    };
    let found = find_from(sites, alloc, target, at_target)?;
    let Some(set) = found else {
        return Ok(None);
    };
    if set.source == target {
        // No set has one server as source and target.
        return Ok(None);
    }
    Ok(Some(set))
}

/// The set of a name, if it stands at both its ends.
///
/// After a fault no transaction is open at any server.
pub fn find_set<K: Keeper>(
    sites: &mut Sites<K>,
    alloc: Global,
    id: &SetId,
) -> Result<Option<PlacedSet>, Fault>
    requires closed { AllClosed (work K.kept sites.old) }
    ensures ok { OnOk result (Looks K.kept sites.old sites.new) }
    ensures placed { IfOk result (λ found. IfSome found (IsPlaced K.kept sites.new)) }
    ensures known { IfOk result (λ found. (w : World)
        → Stands (names sites.old) (held K.kept sites.old) w → IsKnownAs w id.now found) }
    ensures fault { IfErr result (Stops K.kept sites.old sites.new (ShowsDamage K.kept sites.old)) }
    ensures closed { OnErr result (AllClosed (work K.kept sites.new)) }
    ensures undamaged { IfErr result (λ e. (w : World)
        → Stands (names sites.old) (held K.kept sites.old) w → IsNoDamage e) }
    ensures reads { ReadsOnly is_of_definitions K.kept sites.old sites.new }
{
    for target in 0..sites.len() {
        if let Some(set) = find_at(sites, alloc, target, id)? {
            return Ok(Some(set));
        }
    }
    Ok(None)
}

/// The refusal of a name that no set has.
pub fn unknown_set(id: &SetId) -> Result<Refusal, AllocError>
    ensures { IfOk result (λ refusal. refusal
        ≡ refusals.NoSuchSet id.now.qual (Some id.now.name)) }
{
    Ok(Refusal::NoSuchSet {
        qual: id.qual.clone()?,
        name: Some(id.name.clone()?),
    })
}
