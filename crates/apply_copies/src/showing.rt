//! The rows of a user copy are shown.

ghost use Rattle.std.specs.Prelude.{◌≤◌, OnOk, OnErr, IfErr};
ghost use Rattle.keep_core.specs.Revealed.{Takes, TakesPrefix};
ghost use Rattle.site_store.specs.Servers.{AllClosed};
ghost use Rattle.site_store.specs.Views.{work};
ghost use Rattle.site_store.specs.one_server.Calls.{Looks};
ghost use Rattle.set_places.specs.Places.{IsPlaced, ForSet};
ghost use Rattle.shows.specs.servers.Showing.{IsUndamagedShow};
ghost use Rattle.shows.specs.sets.Showing.{FailsShowing};
ghost use Rattle.shows.specs.sets.Targets.{ForMemberAt};
ghost use Rattle.apply_copies.specs.Copies.{IsCopyAt};
ghost use Rattle.apply_copies.specs.Showing.{copy_text, ShowsDamage};

use keep_core::{Keeper, Sink};
use repl_records::CopyRow;
use repl_types::ShowError;
use set_places::target_number;
use shows::{PlacedTarget, show_records};
use site_store::Sites;
use std::alloc::Global;

/// Writes the reply of `show S target T` of a user copy: a line for each row of the target, in the
/// order of the rows' keys, and the line that says how many they are.
///
/// After an error no transaction is open at any server.
pub fn show_copy<K: Keeper, O: Sink>(
    sites: &mut Sites<K>,
    alloc: Global,
    output: &mut O,
    target: &PlacedTarget,
) -> Result<(), ShowError>
    requires placed { IsPlaced K.kept sites.old target.now.set }
    requires closed { AllClosed (work K.kept sites.old) }
    requires copy { IsCopyAt target.now.set.at_target.def target.now.member }
    ensures stays { OnOk result (Looks K.kept sites.old sites.new) }
    ensures ok { OnOk result (ForMemberAt K.kept sites.old target.now (λ w k member.
        Takes (O.taken output.old) (O.taken output.new) (copy_text w k member))) }
    ensures err { OnErr result (ForMemberAt K.kept sites.old target.now (λ w k member.
        TakesPrefix (O.taken output.old) (O.taken output.new) (copy_text w k member))) }
    ensures fault { IfErr result (FailsShowing K.kept sites.old sites.new
        (ShowsDamage K.kept sites.old) (O.faults output.old) (O.faults output.new)) }
    ensures undamaged { IfErr result (λ e. ForSet K.kept sites.old target.now.set (λ w k.
        IsUndamagedShow e)) }
    ensures counts { O.faults output.old ≤ O.faults output.new }
{
    let number = target_number(&target.set, target.member);
    show_records::<K, O, CopyRow>(sites, alloc, output, target.set.target, number)?;
    Ok(())
}
