//! The rows of targets are shown.

ghost use Rattle.std.specs.Prelude.{◌<◌, ◌≤◌, ◌↔◌, length, IsTrue, OnOk, OnErr, IfErr};
ghost use Rattle.keep_core.specs.Revealed.{Takes, TakesPrefix};
ghost use Rattle.site_store.specs.Servers.{AllClosed};
ghost use Rattle.site_store.specs.Views.{work};
ghost use Rattle.site_store.specs.one_server.Calls.{Looks};
ghost use Rattle.set_places.specs.Places.{IsPlaced, ForSet};
ghost use Rattle.shows.specs.servers.Showing.{IsUndamagedShow};
ghost use Rattle.shows.specs.sets.Showing.{FailsShowing};
ghost use Rattle.shows.specs.sets.Targets.{ForMemberAt};
ghost use Rattle.member_targets.specs.Showing.{IsTakenAt, target_text, ShowsDamage};

use crate::kinds::is_taken;
use apply_copies::show_copy;
use keep_core::{Keeper, Sink};
use repl_types::ShowError;
use shows::PlacedTarget;
use site_store::Sites;
use std::alloc::Global;

/// Whether a target is of a kind that is carried out.
pub fn is_taken_at(target: &PlacedTarget) -> bool
    requires { target.now.member < length target.now.set.at_target.def.members }
    ensures { IsTrue result ↔ IsTakenAt target.now.set.at_target.def target.now.member }
{
    let members = target.set.at_target.def.members.as_slice();
    is_taken(&members[target.member as usize].kind)
}

/// Writes the reply of `show S target T` of a target whose kind is carried out, by the crate of
/// this kind. Each such target is a user copy.
///
/// After an error no transaction is open at any server.
pub fn show_target<K: Keeper, O: Sink>(
    sites: &mut Sites<K>,
    alloc: Global,
    output: &mut O,
    target: &PlacedTarget,
) -> Result<(), ShowError>
    requires placed { IsPlaced K.kept sites.old target.now.set }
    requires closed { AllClosed (work K.kept sites.old) }
    requires taken { IsTakenAt target.now.set.at_target.def target.now.member }
    ensures stays { OnOk result (Looks K.kept sites.old sites.new) }
    ensures ok { OnOk result (ForMemberAt K.kept sites.old target.now (λ w k member.
        Takes (O.taken output.old) (O.taken output.new) (target_text w k member))) }
    ensures err { OnErr result (ForMemberAt K.kept sites.old target.now (λ w k member.
        TakesPrefix (O.taken output.old) (O.taken output.new) (target_text w k member))) }
    ensures fault { IfErr result (FailsShowing K.kept sites.old sites.new
        (ShowsDamage K.kept sites.old) (O.faults output.old) (O.faults output.new)) }
    ensures undamaged { IfErr result (λ e. ForSet K.kept sites.old target.now.set (λ w k.
        IsUndamagedShow e)) }
    ensures counts { O.faults output.old ≤ O.faults output.new }
{
    show_copy(sites, alloc, output, target)
}
