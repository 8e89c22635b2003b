//! What takes the targets of members through the steps of their set.

use crate::step::Step;
use keep_core::Keeper;
use repl_types::{Counts, Fault};
use set_places::PlacedSet;
use site_store::Sites;
use std::alloc::Global;

/// What takes the targets of members of some kinds through the steps of their set. No kind whose
/// rows are numbered is among them.
pub trait Targets<K: Keeper> {
    ghost use Rattle.std.specs.Prelude.{◌≡◌, ◌<◌, ℕ, Bool, Option, None, true, false, length};
    ghost use Rattle.std.specs.Prelude.{OnErr, IfOk, IfErr};
    ghost use Rattle.repl_types.specs.declared.area.Area.{Area};
    ghost use Rattle.repl_types.specs.declared.status.DamageCause.{DamageCause};
    ghost use Rattle.repl_types.specs.declared.status.DamageCause.TheVariants.{NoRest};
    ghost use Rattle.repl_definitions.specs.declared.member.TargetKind.{TargetKind};
    ghost use Rattle.repl_definitions.specs.declared.set.TargetSet.{TargetSet};
    ghost use Rattle.keep_core.specs.Contents.{Contents};
    ghost use Rattle.stored_commits.specs.actions.StoredSteps.{is_numbered};
    ghost use Rattle.site_store.specs.Damage.{IsNoDamage};
    ghost use Rattle.site_store.specs.Servers.{AllClosed};
    ghost use Rattle.site_store.specs.Views.{names, work, IsOpenAt, IsClosedAt};
    ghost use Rattle.site_store.specs.one_server.Calls.{GoesOn, Stops};
    ghost use Rattle.set_places.specs.Places.{IsPlacedAtSource};
    ghost use Rattle.target_steps.specs.Taking.{TakesMember, ShowsAtEnds, ForMember};
    ghost use Rattle.target_steps.specs.Taking.{ReadsForStep, CountsReads};

    /// The kinds of members that are taken through steps.
    ghost takes: { TargetKind → Bool };

    /// What was seen of a server shows this damage: as the source of a set, or, with the set's row,
    /// as its target.
    ghost shows: { Option TargetSet → Area → DamageCause → Option Contents → Type 0 };

    /// Takes the target of a member through a step, if it was what the set's trail makes of it, and
    /// answers how many rows were put, or how many change rows of each operation were taken. A
    /// transaction is open at the target and stays open, and none is open at the source.
    ///
    /// After a fault no transaction is open at any server.
    fn take(
        &mut self,
        sites: &mut Sites<K>,
        alloc: Global,
        set: &PlacedSet,
        member: u32,
        step: Step,
    ) -> Result<Counts, Fault>
        requires source { IsPlacedAtSource K.kept sites.old set.now }
        requires target { set.now.target < length (names sites.old) }
        requires member { member < length set.now.at_source.def.members }
        requires open { IsOpenAt (work K.kept sites.old) set.now.target }
        requires closed { IsClosedAt (work K.kept sites.old) set.now.source }
        ensures ok { IfOk result (λ counts. GoesOn K.kept sites.old sites.new set.now.target
            (TakesMember K.kept takes sites.old set.now member step shows counts)) }
        ensures fault { IfErr result (Stops K.kept sites.old sites.new
            (ShowsAtEnds K.kept shows sites.old set.now)) }
        ensures undamaged { IfErr result (λ e. ForMember K.kept takes sites.old set.now member step
            (IsNoDamage e)) }
        ensures closed { OnErr result (AllClosed (work K.kept sites.new)) }
        ensures reads { ReadsForStep step K.kept sites.old sites.new }
        ensures counted { IfOk result (CountsReads step 1 K.kept sites.old sites.new) };

    /// Damage that is shown of what was seen is shown of a server that reveals nothing.
    ghost unseen: { (row : Option TargetSet) (a : Area) (cause : DamageCause)
        (saw : Option Contents) → shows row a cause saw → shows row a cause None };

    /// The rows of no such target are numbered.
    ghost unnumbered: { (kind : TargetKind) → takes kind ≡ true → is_numbered kind ≡ false };

    /// That a set doesn't come to rest is shown of no server.
    ghost no_rest: { (row : Option TargetSet) (a : Area) (steps : ℕ) (saw : Option Contents)
        → shows row a (NoRest steps) saw → ⊥ };
}
