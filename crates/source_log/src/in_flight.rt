//! The changes that a transaction has in flight: where they are, and that they are removed.

ghost use Rattle.std.specs.Prelude.{◌≡◌, ◌<◌, length, OnOk, IfOk, IfErr, IfSome};
ghost use Rattle.site_store.specs.Views.{names, work, sees, IsOpenAt};
ghost use Rattle.site_store.specs.one_server.Calls.{Looks, GoesOn, Breaks, FailsToWrite};
ghost use Rattle.source_log.specs.Reading.{IsNextPosition, IsAbove, ArePositions, with_dropped};
ghost use Rattle.source_log.specs.Rules.{rules};

use keep_core::Keeper;
use repl_records::{InFlight, InFlightKey};
use repl_types::{Fault, List};
use row_codec::Table0;
use site_store::Sites;
use std::alloc::Global;

/// The first position after another at which a transaction has a change in flight, if there is one.
fn next_position<K: Keeper>(
    sites: &mut Sites<K>,
    alloc: Global,
    server: u32,
    tx: u32,
    after: u64,
) -> Result<Option<u64>, Fault>
    requires server { server < length (names sites.old) }
    ensures ok { OnOk result (Looks K.kept sites.old sites.new) }
    ensures next { IfOk result (λ next. IfSome (sees K.kept sites.old server)
        (IsNextPosition tx after next)) }
    ensures rises { IfOk result (λ next. IfSome next (IsAbove after)) }
    ensures fault { IfErr result (Breaks rules K.kept sites.old sites.new server) }
{
    let last = InFlightKey { tx, pos: after };
    let Some((key, _row)) = sites.next::<InFlight>(alloc, server, Table0, Some(&last))? else {
        return Ok(None);
    };
    if key.tx != tx {
        return Ok(None);
    }
    Ok(Some(key.pos))
}

/// The positions at which a transaction has changes in flight, in order.
pub fn positions_of<K: Keeper>(
    sites: &mut Sites<K>,
    alloc: Global,
    server: u32,
    tx: u32,
) -> Result<List<u64>, Fault>
    requires server { server < length (names sites.old) }
    ensures ok { OnOk result (Looks K.kept sites.old sites.new) }
    ensures positions { IfOk result (λ positions. IfSome (sees K.kept sites.old server)
        (ArePositions tx positions)) }
    ensures fault { IfErr result (Breaks rules K.kept sites.old sites.new server) }
{
    let mut positions = List::new(alloc);
    let mut last = 0;
    loop {
        let Some(pos) = next_position(sites, alloc, server, tx, last)? else {
            return Ok(positions);
        };
        positions.push(pos)?;
        last = pos;
    }
}

/// Removes the changes of a transaction in flight at these positions.
pub fn drop_changes<K: Keeper>(
    sites: &mut Sites<K>,
    alloc: Global,
    server: u32,
    tx: u32,
    positions: &[u64],
) -> Result<(), Fault>
    requires server { server < length (names sites.old) }
    requires open { IsOpenAt (work K.kept sites.old) server }
    ensures ok { OnOk result (GoesOn K.kept sites.old sites.new server
        (λ c d. d ≡ with_dropped tx positions.now c)) }
    ensures fault { IfErr result (FailsToWrite K.kept sites.old sites.new) }
{
    'positions: for pos in positions {
        sites.remove::<InFlight>(alloc, server, Table0, &InFlightKey { tx, pos: *pos })?;
    }
    Ok(())
}
