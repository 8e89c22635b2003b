//! Members of all kinds that are carried out are taken through the steps of their set.

use apply_copies::{is_copy_at, take_copy};
use keep_core::Keeper;
use repl_types::{Counts, Fault};
use set_places::PlacedSet;
use site_store::Sites;
use std::alloc::Global;
use target_steps::{Step, Targets};

/// Takes the target of a member through a step by the crate of the member's kind. The target of a
/// member of another kind is left as it is.
#[derive(Debug, Drop)]
pub struct MemberTargets;

impl<K: Keeper> Targets<K> for MemberTargets {
    ghost use Rattle.member_targets.specs.Kinds.{is_taken, ShowsMemberDamage};
    ghost use Rattle.member_targets.specs.laws.Kinds.{member_damage_unseen, targets_unnumbered};
    ghost use Rattle.member_targets.specs.laws.Kinds.{no_rest_of_members};

    ghost takes = { is_taken };

    ghost shows = { ShowsMemberDamage };

    ghost unseen = { member_damage_unseen };

    ghost unnumbered = { targets_unnumbered };

    ghost no_rest = { no_rest_of_members };

    fn take(
        &mut self,
        sites: &mut Sites<K>,
        alloc: Global,
        set: &PlacedSet,
        member: u32,
        step: Step,
    ) -> Result<Counts, Fault> {
        if is_copy_at(&set.at_target.def, member) {
            return take_copy(sites, alloc, set, member, step);
        }
        Ok(Counts {
            rows: 0,
            inserts: 0,
            updates: 0,
            deletes: 0,
        })
    }
}
