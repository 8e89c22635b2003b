//! The refresh of a read-only set.

ghost use Rattle.std.specs.Prelude.{IsTrue, not, IfOk, IfErr};
ghost use Rattle.repl_model.specs.AfterActions.{after_action};
ghost use Rattle.repl_model.specs.NextActions.{refreshes};
ghost use Rattle.repl_model.specs.Rules.{is_replica_set};
ghost use Rattle.site_store.specs.Calls.{KeepsServers};
ghost use Rattle.site_store.specs.Servers.{AllClosed};
ghost use Rattle.site_store.specs.Views.{work};
ghost use Rattle.set_places.specs.Places.{IsPlaced, ForSet};
ghost use Rattle.set_places.specs.Steps.{MayHaveBecome, BlamesUnchanged};
ghost use Rattle.full_refresh.specs.Refreshes.{CanRefresh, HasRefreshed, IsRefresh};
ghost use Rattle.full_refresh.specs.Refreshes.{ShowsDamage};

use keep_core::Keeper;
use repl_types::{Fault, Stepped};
use set_places::PlacedSet;
use site_store::Sites;
use source_log::last_commit;
use std::alloc::Global;
use subs_sets::read_only_state;
use target_steps::{Step, Targets, put_step};

/// Refreshes a read-only set: its targets become what they are right after a refresh at the last
/// commit of its source, and its state and its trail say so, all in one commit at its target. It
/// answers the point and how many rows were put.
///
/// After a fault nothing is changed; but if the commit failed, it may have taken place. What is
/// said of a world holds if the servers stand for one in which the set had a signal after its last
/// refresh, and the kinds of all members are taken.
pub fn refresh_step<K: Keeper, T: Targets<K>>(
    sites: &mut Sites<K>,
    alloc: Global,
    set: &PlacedSet,
    targets: &mut T,
) -> Result<Stepped, Fault>
    requires placed { IsPlaced K.kept sites.old set.now }
    requires read_only { IsTrue (not (is_replica_set set.now.at_target.def)) }
    requires closed { AllClosed (work K.kept sites.old) }
    ensures ok { IfOk result (λ stepped. ForSet K.kept sites.old set.now (λ w k.
        CanRefresh T.takes k → HasRefreshed K.kept sites.old sites.new w k stepped)) }
    ensures answer { IfOk result IsRefresh }
    ensures fault { IfErr result (λ e. ForSet K.kept sites.old set.now (λ w k.
        CanRefresh T.takes k
        → MayHaveBecome K.kept sites.old sites.new w (after_action w k refreshes) e)) }
    ensures blames { IfErr result (BlamesUnchanged K.kept sites.old sites.new
        (ShowsDamage K.kept T.shows sites.old set.now)) }
    ensures servers { KeepsServers K.kept sites.old sites.new }
{
    let end = last_commit(sites, alloc, set.source)?;
    let known = read_only_state(sites, alloc, set)?;
    let point = end.commit;
    let time = end.time;
    let step = Step::Refresh { point, time };
    let counts = put_step(sites, alloc, set, targets, step, &known)?;
    Ok(Stepped::Refresh {
        point,
        rows: counts.rows,
    })
}
