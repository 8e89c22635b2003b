//! The capture of a server's log.

ghost use Rattle.std.specs.Prelude.{◌≡◌, ◌<◌, length, IfOk, IfErr};
ghost use Rattle.repl_model.specs.World.{World};
ghost use Rattle.site_store.specs.Servers.{AllClosed};
ghost use Rattle.site_store.specs.Views.{names, held, work};
ghost use Rattle.site_store.specs.Calls.{KeepsServers, Blames};
ghost use Rattle.world_store.specs.Stands.{Stands};
ghost use Rattle.capture_core.specs.LogReads.{ReadsFromRestart};
ghost use Rattle.capture_core.specs.Rules.{ShowsDamage};
ghost use Rattle.capture_core.specs.Capturing.{HoldsElsewhere, HasCapturedAll, HasStopped};
ghost use Rattle.capture_core.specs.Ending.{HasEnded, HasFailed, most_units as most_units_lem};

use crate::captured::Captured;
use crate::committing::{begin_capture, commit_units, end_capture};
use crate::reading::take_unit;
use keep_core::Keeper;
use repl_types::Fault;
use site_store::Sites;
use std::alloc::Global;

/// The most units that are captured, if so many are asked for, or all.
fn most_units(units: Option<u32>) -> u64
    ensures { result ≡ most_units_lem units }
{
    match units {
        Some(units) => u64::from(units),
        None => u64::MAX,
    }
}

/// Captures units up to this many. After a fault a transaction may be open.
fn capture_units<K: Keeper>(
    sites: &mut Sites<K>,
    alloc: Global,
    server: u32,
    most: u64,
    every: u32,
) -> Result<Captured, Fault>
    requires server { server < length (names sites.old) }
    requires closed { AllClosed (work K.kept sites.old) }
    requires every { 0 < every }
    ensures ok { IfOk result (HasEnded K.kept sites.old sites.new server most every) }
    ensures fault { IfErr result (HasFailed K.kept sites.old sites.new server most every) }
    ensures idle { IfOk result (λ captured. captured.units ≡ 0
        → held K.kept sites.new ≡ held K.kept sites.old) }
    ensures apart { HoldsElsewhere K.kept sites.old sites.new server }
    ensures reads { ReadsFromRestart K.kept sites.old sites.new server }
{
    let mut progress = begin_capture(sites, alloc, server)?;
    'units: while progress.units < most {
        if !take_unit(sites, alloc, server, &mut progress)? {
            return end_capture(sites, alloc, server, &progress);
        }
        if progress.waiting >= every {
            commit_units(sites, alloc, server, &progress.state)?;
            sites.begin(server)?;
            progress.waiting = 0;
        }
    }
    end_capture(sites, alloc, server, &progress)
}

/// Captures the units of a server's log that aren't captured, or the first `units` of them, with a
/// commit after each `every` units and after the last one, and answers how far the server is
/// captured then and what was written. If there is no such unit, nothing is committed. Each record
/// of the log from the restart on is read once at most.
///
/// After a fault the first of these commits took place, and one at which the server's keeper failed
/// may have, too. The other servers hold what they held, whatever is answered. What is said of a
/// world holds if the servers stand for one and reveal what they hold.
pub fn capture<K: Keeper>(
    sites: &mut Sites<K>,
    alloc: Global,
    server: u32,
    units: Option<u32>,
    every: u32,
) -> Result<Captured, Fault>
    requires server { server < length (names sites.old) }
    requires closed { AllClosed (work K.kept sites.old) }
    requires every { 0 < every }
    ensures ok { IfOk result (λ captured. (w : World)
        → Stands (names sites.old) (held K.kept sites.old) w
        → HasCapturedAll K.kept sites.old sites.new server units every w captured) }
    ensures fault { IfErr result (λ e. (w : World)
        → Stands (names sites.old) (held K.kept sites.old) w
        → HasStopped K.kept sites.old sites.new server units every w e) }
    ensures blames { IfErr result (Blames K.kept sites.old sites.new
        (ShowsDamage K.kept sites.new server)) }
    ensures servers { KeepsServers K.kept sites.old sites.new }
    ensures idle { IfOk result (λ captured. captured.units ≡ 0
        → held K.kept sites.new ≡ held K.kept sites.old) }
    ensures apart { HoldsElsewhere K.kept sites.old sites.new server }
    ensures reads { ReadsFromRestart K.kept sites.old sites.new server }
{
    match capture_units(sites, alloc, server, most_units(units), every) {
        Ok(captured) => Ok(captured),
        Err(e) => {
            sites.rollback_all();
            Err(e)
        }
    }
}
