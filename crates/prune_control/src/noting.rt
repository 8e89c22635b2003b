//! The point that targets have reached is noted at their source.

ghost use Rattle.std.specs.Prelude.{OnOk, IfErr};
ghost use Rattle.site_store.specs.Calls.{KeepsServers};
ghost use Rattle.site_store.specs.Servers.{AllClosed};
ghost use Rattle.site_store.specs.Views.{work};
ghost use Rattle.set_places.specs.Places.{IsPlacedAtSource, IsPlaced, ForSet};
ghost use Rattle.set_places.specs.Steps.{HasBecome, MayHaveBecome, BlamesUnchanged};
ghost use Rattle.set_places.specs.Steps.{CommitsStep, MayCommitStep};
ghost use Rattle.set_places.specs.Reading.{ReadsOnly};
ghost use Rattle.repl_model.specs.AfterActions.{after_action};
ghost use Rattle.repl_model.specs.NextActions.{reports};
ghost use Rattle.prune_control.specs.Noting.{IsReport, is_of_marks, ShowsDamage};
ghost use Rattle.prune_control.specs.Putting.{PutsPoint};

use crate::marks::read_mark;
use keep_core::Keeper;
use repl_records::SyncMark;
use repl_types::Fault;
use row_codec::Table0;
use set_places::PlacedSet;
use site_store::Sites;
use std::alloc::Global;

/// Puts a point as the mark of a set, and commits it.
fn put_mark<K: Keeper>(
    sites: &mut Sites<K>,
    alloc: Global,
    set: &PlacedSet,
    point: u64,
) -> Result<(), Fault>
    requires placed { IsPlacedAtSource K.kept sites.old set.now }
    requires closed { AllClosed (work K.kept sites.old) }
    ensures ok { OnOk result (CommitsStep K.kept sites.old sites.new set.now.source
        (PutsPoint set.now point)) }
    ensures fault { IfErr result (MayCommitStep K.kept sites.old sites.new set.now.source
        (PutsPoint set.now point) (ShowsDamage K.kept sites.old set.now.source)) }
    ensures reads { ReadsOnly is_of_marks K.kept sites.old sites.new }
{
    sites.begin(set.source)?;
    let known = read_mark(sites, alloc, set)?;
    let mark = SyncMark {
        mark: point,
        signal: known.signal,
    };
    let number = set.at_source.number;
    sites.put::<SyncMark>(alloc, set.source, Table0, &number, &mark)?;
    sites.commit(set.source)?;
    Ok(())
}

/// Stores the point that the targets of a read-only set have reached as the set's mark at its
/// source, in one commit.
///
/// After a fault the mark is as it was; but if the commit failed, it may be the new one. What is
/// said of a world holds if the servers stand for one in which the targets have reached this point.
pub fn note<K: Keeper>(
    sites: &mut Sites<K>,
    alloc: Global,
    set: &PlacedSet,
    point: u64,
) -> Result<(), Fault>
    requires placed { IsPlaced K.kept sites.old set.now }
    requires closed { AllClosed (work K.kept sites.old) }
    ensures ok { OnOk result (ForSet K.kept sites.old set.now (λ w k. IsReport k point
        → HasBecome K.kept sites.old sites.new (after_action w k reports))) }
    ensures fault { IfErr result (λ e. ForSet K.kept sites.old set.now (λ w k. IsReport k point
        → MayHaveBecome K.kept sites.old sites.new w (after_action w k reports) e)) }
    ensures blames { IfErr result (BlamesUnchanged K.kept sites.old sites.new
        (ShowsDamage K.kept sites.old set.now.source)) }
    ensures servers { KeepsServers K.kept sites.old sites.new }
    ensures reads { ReadsOnly is_of_marks K.kept sites.old sites.new }
{
    put_mark(sites, alloc, set, point)?;
    Ok(())
}
