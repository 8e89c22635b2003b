//! The target of a user copy is taken through a step.

ghost use Rattle.std.specs.Prelude.{◌<◌, length, OnErr, IfOk, IfErr};
ghost use Rattle.site_store.specs.Damage.{IsNoDamage};
ghost use Rattle.site_store.specs.Servers.{AllClosed};
ghost use Rattle.site_store.specs.Views.{names, work, IsOpenAt, IsClosedAt};
ghost use Rattle.site_store.specs.one_server.Calls.{GoesOn, Stops};
ghost use Rattle.set_places.specs.Places.{IsPlacedAtSource};
ghost use Rattle.target_steps.specs.Taking.{TakesMember, ShowsAtEnds, ForMember};
ghost use Rattle.target_steps.specs.Taking.{ReadsForStep, CountsReads};
ghost use Rattle.apply_copies.specs.Copies.{is_user_copy, IsCopyAt, ShowsCopyDamage};

use crate::loading::load_rows;
use crate::taking::apply_rows;
use keep_core::Keeper;
use repl_types::{Counts, Fault};
use set_places::PlacedSet;
use site_store::Sites;
use std::alloc::Global;
use target_steps::Step;

/// Takes the target of a member that is a user copy through a step of its set, as
/// `target_steps::Targets` has it.
///
/// A transaction is open at the target and stays open, and none is open at the source. After a
/// fault no transaction is open at any server.
pub fn take_copy<K: Keeper>(
    sites: &mut Sites<K>,
    alloc: Global,
    set: &PlacedSet,
    member: u32,
    step: Step,
) -> Result<Counts, Fault>
    requires source { IsPlacedAtSource K.kept sites.old set.now }
    requires target { set.now.target < length (names sites.old) }
    requires member { member < length set.now.at_source.def.members }
    requires own { IsCopyAt set.now.at_target.def member }
    requires open { IsOpenAt (work K.kept sites.old) set.now.target }
    requires closed { IsClosedAt (work K.kept sites.old) set.now.source }
    ensures ok { IfOk result (λ counts. GoesOn K.kept sites.old sites.new set.now.target
        (TakesMember K.kept is_user_copy sites.old set.now member step ShowsCopyDamage counts)) }
    ensures fault { IfErr result (Stops K.kept sites.old sites.new
        (ShowsAtEnds K.kept ShowsCopyDamage sites.old set.now)) }
    ensures undamaged { IfErr result (λ e. ForMember K.kept is_user_copy sites.old set.now member
        step (IsNoDamage e)) }
    ensures closed { OnErr result (AllClosed (work K.kept sites.new)) }
    ensures reads { ReadsForStep step K.kept sites.old sites.new }
    ensures counted { IfOk result (CountsReads step 1 K.kept sites.old sites.new) }
{
    match step {
        Step::Refresh { .. } => load_rows(sites, alloc, set, member),
        Step::Block { from, upto, .. } => apply_rows(sites, alloc, set, member, from, upto),
    }
}
