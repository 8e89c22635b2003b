//! The registration that a member of a set is over.

ghost use Rattle.std.specs.Prelude.{◌<◌, length, OnOk, IfOk, IfErr, IfSome};
ghost use Rattle.repl_types.specs.declared.area.Area.TheVariants as areas;
ghost use Rattle.repl_definitions.specs.Defined.{IsDefinedRegistration};
ghost use Rattle.site_store.specs.Calls.{Reads};
ghost use Rattle.site_store.specs.Views.{sees};
ghost use Rattle.site_store.specs.one_server.Calls.{Looks, Breaks};
ghost use Rattle.set_places.specs.Places.{IsPlacedAtSource};
ghost use Rattle.set_places.specs.Members.{ForSource, HasRegistration, IsRegistrationOf};
ghost use Rattle.set_places.specs.Members.{member_rules};
ghost use Rattle.set_places.specs.Reading.{is_of_definitions, ReadsOnly};

use crate::placed_set::PlacedSet;
use keep_core::Keeper;
use repl_definitions::DefinedRegistration;
use repl_types::Fault;
use row_codec::Table1;
use site_store::Sites;
use std::alloc::Global;

/// The registration at the source of a set that a member of the set is over, with the number of its
/// table. It is damage if there is none.
///
/// It reads what the source's open transaction sees, and if none is open, what the source holds.
pub fn read_registration<K: Keeper>(
    sites: &mut Sites<K>,
    alloc: Global,
    set: &PlacedSet,
    member: u32,
) -> Result<DefinedRegistration, Fault>
    requires placed { IsPlacedAtSource K.kept sites.old set.now }
    requires member { member < length set.now.at_source.def.members }
    ensures ok { OnOk result (Looks K.kept sites.old sites.new) }
    ensures read { OnOk result (Reads K.kept sites.old sites.new set.now.source areas.Defs) }
    ensures stands { IfOk result (λ reg. IfSome (sees K.kept sites.old set.now.source)
        (HasRegistration reg)) }
    ensures fits { IfOk result IsDefinedRegistration }
    ensures registration { IfOk result (λ reg. ForSource K.kept sites.old set.now (λ w k.
        IsRegistrationOf k member reg)) }
    ensures fault { IfErr result (Breaks member_rules K.kept sites.old sites.new set.now.source) }
    ensures reads { ReadsOnly is_of_definitions K.kept sites.old sites.new }
{
    let name = &set.at_source.def.members.as_slice()[member as usize].source;
    let reg = sites.get_needed::<DefinedRegistration>(alloc, set.source, Table1, name)?;
    Ok(reg)
}
