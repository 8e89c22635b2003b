//! The block of a read-only set.

ghost use Rattle.std.specs.Prelude.{IsTrue, not, length, IfOk, IfErr};
ghost use Rattle.repl_model.specs.AfterActions.{after_action};
ghost use Rattle.repl_model.specs.NextActions.{blocks};
ghost use Rattle.repl_model.specs.Rules.{is_replica_set};
ghost use Rattle.site_store.specs.Calls.{KeepsServers};
ghost use Rattle.site_store.specs.Servers.{AllClosed};
ghost use Rattle.site_store.specs.Views.{work};
ghost use Rattle.set_places.specs.Places.{IsPlaced, ForSet};
ghost use Rattle.set_places.specs.Reading.{ReadsOnly};
ghost use Rattle.set_places.specs.Steps.{MayHaveBecome, BlamesUnchanged};
ghost use Rattle.apply_cycle.specs.Blocks.{CanBlock, HasBlocked, ShowsDamage};
ghost use Rattle.apply_cycle.specs.Blocks.{is_read_in_block, ReadsAnswered};

use keep_core::Keeper;
use repl_types::{Fault, Stepped};
use set_places::PlacedSet;
use site_store::Sites;
use std::alloc::Global;
use subs_sets::{read_only_state, unit_time};
use target_steps::{Step, Targets, put_step};

/// Takes the targets of a read-only set by stored change rows from the point that they have reached
/// to a later one, and puts the set's state and the next entry of its trail, all in one commit at
/// its target. It answers both points, and how many change rows of each operation there were.
///
/// After a fault nothing is changed; but if the commit failed, it may have taken place. What is
/// said of a world holds if the servers stand for one in which the set was refreshed, has no gap, and
/// has a captured unit with this seq above the point, and if the kinds of all members are taken.
pub fn block_step<K: Keeper, T: Targets<K>>(
    sites: &mut Sites<K>,
    alloc: Global,
    set: &PlacedSet,
    targets: &mut T,
    upto: u64,
) -> Result<Stepped, Fault>
    requires placed { IsPlaced K.kept sites.old set.now }
    requires read_only { IsTrue (not (is_replica_set set.now.at_target.def)) }
    requires closed { AllClosed (work K.kept sites.old) }
    ensures ok { IfOk result (λ stepped. ForSet K.kept sites.old set.now (λ w k.
        CanBlock T.takes k upto → HasBlocked K.kept sites.old sites.new w k upto stepped)) }
    ensures fault { IfErr result (λ e. ForSet K.kept sites.old set.now (λ w k.
        CanBlock T.takes k upto
        → MayHaveBecome K.kept sites.old sites.new w (after_action w k (blocks upto)) e)) }
    ensures blames { IfErr result (BlamesUnchanged K.kept sites.old sites.new
        (ShowsDamage K.kept T.shows sites.old set.now)) }
    ensures servers { KeepsServers K.kept sites.old sites.new }
    ensures reads { ReadsOnly is_read_in_block K.kept sites.old sites.new }
    ensures counted { let members = length set.now.at_source.def.members in
        IfOk result (ReadsAnswered members K.kept sites.old sites.new) }
{
    let known = read_only_state(sites, alloc, set)?;
    let time = unit_time(sites, alloc, set, upto)?;
    let from = known.synchpoint;
    let from_time = known.time;
    let step = Step::Block {
        from,
        from_time,
        upto,
        time,
        base: None,
    };
    let counts = put_step(sites, alloc, set, targets, step, &known)?;
    Ok(Stepped::Block {
        from,
        to: upto,
        inserts: counts.inserts,
        updates: counts.updates,
        deletes: counts.deletes,
    })
}
