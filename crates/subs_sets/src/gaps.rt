//! Where changes that a set needs aren't kept.

ghost use Rattle.std.specs.Prelude.{◌≡◌, ◌<◌, length, OnOk, IfOk, IfErr};
ghost use Rattle.std.specs.List.{filter_map, list_any};
ghost use Rattle.repl_model.specs.NextActions.{place_of_gap as place_of_gap_lem};
ghost use Rattle.repl_model.specs.NextActions.{member_gap as member_gap_lem};
ghost use Rattle.repl_model.specs.NextActions.{uow_gap as uow_gap_lem};
ghost use Rattle.repl_model.specs.NextActions.{is_disabled as is_disabled_lem, gap_of};
ghost use Rattle.repl_model.specs.Trails.{synchpoint};
ghost use Rattle.site_store.specs.one_server.Calls.{Looks, Breaks};
ghost use Rattle.set_places.specs.Places.{IsPlacedAtSource};
ghost use Rattle.set_places.specs.Members.{ForSource};
ghost use Rattle.set_places.specs.Reading.{ReadsOnly};
ghost use Rattle.subs_sets.specs.Gaps.{registered_in, gap_of_found, AtMember, first_of};
ghost use Rattle.subs_sets.specs.Rules.{is_read, source_rules};

use keep_core::Keeper;
use repl_records::RegState;
use repl_types::{Fault, GapPlace, Name, Registration};
use row_codec::Table1;
use set_places::{PlacedSet, read_registration};
use site_store::Sites;
use std::alloc::{AllocError, Global};

/// A place from which on changes that a set needs aren't kept, and whether a refresh is forbidden
/// to mend that.
#[derive(Debug, Drop)]
pub struct Gap {
    pub place: GapPlace,
    pub disabled: bool,
}

/// Where the change rows of a registration after a point aren't kept: it is inactive, or it was
/// started after the point, or its change rows are pruned up to after the point.
fn place_of_gap(
    server: &Name,
    point: u64,
    reg: &Registration,
    state: &RegState,
) -> Result<Option<GapPlace>, AllocError>
    ensures { IfOk result (λ place. place
        ≡ place_of_gap_lem server.now point (registered_in reg.now state.now)) }
{
    if !state.active {
        return Ok(Some(GapPlace::Inactive {
            server: server.clone()?,
            table: reg.table.clone()?,
        }));
    }
    let seq = if point < state.start {
        state.start
    } else {
        state.floor
    };
    if seq <= point {
        return Ok(None);
    }
    Ok(Some(GapPlace::Above {
        server: server.clone()?,
        table: reg.table.clone()?,
        seq,
    }))
}

/// The gap of a member after a point, if it has one.
fn member_gap<K: Keeper>(
    sites: &mut Sites<K>,
    alloc: Global,
    set: &PlacedSet,
    point: u64,
    member: u32,
) -> Result<Option<Gap>, Fault>
    requires placed { IsPlacedAtSource K.kept sites.old set.now }
    requires member { member < length set.now.at_source.def.members }
    ensures ok { OnOk result (Looks K.kept sites.old sites.new) }
    ensures gap { IfOk result (λ gap. ForSource K.kept sites.old set.now (λ w k.
        AtMember k member (λ own. gap_of_found gap ≡ member_gap_lem k.source point own))) }
    ensures fault { IfErr result (Breaks source_rules K.kept sites.old sites.new set.now.source) }
    ensures reads { ReadsOnly is_read K.kept sites.old sites.new }
{
    let reg = read_registration(sites, alloc, set, member)?;
    let state = sites.get_needed::<RegState>(alloc, set.source, Table1, &reg.number)?;
    let server = &set.at_source.def.source;
    let place = place_of_gap(server, point, &reg.registration, &state)?;
    let Some(place) = place else {
        return Ok(None);
    };
    Ok(Some(Gap {
        place,
        disabled: reg.registration.disable_refresh,
    }))
}

/// Whether a refresh is forbidden for some member of a set.
fn is_disabled<K: Keeper>(
    sites: &mut Sites<K>,
    alloc: Global,
    set: &PlacedSet,
) -> Result<bool, Fault>
    requires placed { IsPlacedAtSource K.kept sites.old set.now }
    ensures ok { OnOk result (Looks K.kept sites.old sites.new) }
    ensures disabled { IfOk result (λ disabled. ForSource K.kept sites.old set.now (λ w k.
        disabled ≡ list_any (is_disabled_lem k.source) k.at_source.def.members)) }
    ensures fault { IfErr result (Breaks source_rules K.kept sites.old sites.new set.now.source) }
    ensures reads { ReadsOnly is_read K.kept sites.old sites.new }
{
    for member in 0..set.at_source.def.members.as_slice().len() as u32 {
        let reg = read_registration(sites, alloc, set, member)?;
        if reg.registration.disable_refresh {
            return Ok(true);
        }
    }
    Ok(false)
}

/// The gap of the first member after a point that has one.
fn first_gap<K: Keeper>(
    sites: &mut Sites<K>,
    alloc: Global,
    set: &PlacedSet,
    point: u64,
) -> Result<Option<Gap>, Fault>
    requires placed { IsPlacedAtSource K.kept sites.old set.now }
    ensures ok { OnOk result (Looks K.kept sites.old sites.new) }
    ensures gap { IfOk result (λ gap. ForSource K.kept sites.old set.now (λ w k.
        gap_of_found gap ≡ first_of (filter_map (member_gap_lem k.source point)
        k.at_source.def.members))) }
    ensures fault { IfErr result (Breaks source_rules K.kept sites.old sites.new set.now.source) }
    ensures reads { ReadsOnly is_read K.kept sites.old sites.new }
{
    for member in 0..set.at_source.def.members.as_slice().len() as u32 {
        let gap = member_gap(sites, alloc, set, point, member)?;
        if gap.is_some() {
            return Ok(gap);
        }
    }
    Ok(None)
}

/// The gap of the unit-of-work table after a point, if it is pruned up to after the point.
fn uow_gap<K: Keeper>(
    sites: &mut Sites<K>,
    alloc: Global,
    set: &PlacedSet,
    point: u64,
    floor: u64,
) -> Result<Option<Gap>, Fault>
    requires placed { IsPlacedAtSource K.kept sites.old set.now }
    ensures ok { OnOk result (Looks K.kept sites.old sites.new) }
    ensures gap { IfOk result (λ gap. ForSource K.kept sites.old set.now (λ w k.
        floor ≡ k.source.floor
        → gap_of_found gap ≡ uow_gap_lem k.source point k.at_source.def.members)) }
    ensures fault { IfErr result (Breaks source_rules K.kept sites.old sites.new set.now.source) }
    ensures reads { ReadsOnly is_read K.kept sites.old sites.new }
{
    if floor <= point {
        return Ok(None);
    }
    let disabled = is_disabled(sites, alloc, set)?;
    let server = set.at_source.def.source.clone()?;
    Ok(Some(Gap {
        place: GapPlace::Uow { server, seq: floor },
        disabled,
    }))
}

/// The gap of a set after a point, if it has one: that of its first member that has one, or else
/// that of the unit-of-work table, which is pruned up to this floor.
pub fn find_gap<K: Keeper>(
    sites: &mut Sites<K>,
    alloc: Global,
    set: &PlacedSet,
    point: u64,
    floor: u64,
) -> Result<Option<Gap>, Fault>
    requires placed { IsPlacedAtSource K.kept sites.old set.now }
    ensures ok { OnOk result (Looks K.kept sites.old sites.new) }
    ensures gap { IfOk result (λ gap. ForSource K.kept sites.old set.now (λ w k.
        point ≡ synchpoint k.at_target.trail → floor ≡ k.source.floor
        → gap_of_found gap ≡ gap_of k)) }
    ensures fault { IfErr result (Breaks source_rules K.kept sites.old sites.new set.now.source) }
    ensures reads { ReadsOnly is_read K.kept sites.old sites.new }
{
    let gap = first_gap(sites, alloc, set, point)?;
    if gap.is_some() {
        return Ok(gap);
    }
    let gap = uow_gap(sites, alloc, set, point, floor)?;
    Ok(gap)
}
