//! A registration that is stopped and started again, by a unit of the program's own.

ghost use Rattle.std.specs.Prelude.{IfOk};
ghost use Rattle.source_log.specs.Units.{MayAppendUnit, MayBePut, own_change, own_commit};

use crate::servers::HQ;
use keep_map::MapKeeper;
use repl_types::{Change, List, Name, Placed, Unit, UnitHead};
use row_codec::rows_of_64_values_are_storable;
use site_store::Sites;
use source_log::append_unit;
use std::alloc::Global;
use std::test::Fail;

/// A stop of the registration of the table `parts`.
fn stop_of_parts(alloc: Global) -> Result<Placed, Fail>
    ensures { IfOk result (λ placed. MayBePut (own_change placed)) }
{
    rows_of_64_values_are_storable();
    let change = Change::Stop {
        table: Name::new(alloc, "parts")?,
    };
    Ok(Placed { pos: 0, change })
}

/// A start of it.
fn start_of_parts(alloc: Global) -> Result<Placed, Fail>
    ensures { IfOk result (λ placed. MayBePut (own_change placed)) }
{
    rows_of_64_values_are_storable();
    let change = Change::Start {
        table: Name::new(alloc, "parts")?,
    };
    Ok(Placed { pos: 0, change })
}

/// The head of a unit of ann's at 100.
fn own_head(alloc: Global) -> Result<UnitHead, Fail>
    ensures { IfOk result (λ head. MayBePut (own_commit head)) }
{
    rows_of_64_values_are_storable();
    Ok(UnitHead {
        seq: 0,
        time: 100,
        authid: Name::new(alloc, "ann")?,
        origin: None,
        code: 0,
    })
}

/// The unit of both.
fn restart_of_parts(alloc: Global) -> Result<Unit, Fail>
    ensures { IfOk result MayAppendUnit }
{
    let head = own_head(alloc)?;
    let changes = vec![in alloc; stop_of_parts(alloc)?, start_of_parts(alloc)?]?;
    Ok(Unit {
        head,
        changes: List::from_vec(changes),
    })
}

/// Stops the registration of the table `parts` of hq and starts it again, in one unit, and answers
/// its seq.
pub fn restart_parts(alloc: Global, sites: &mut Sites<MapKeeper>) -> Result<u64, Fail> {
    if HQ >= sites.len() {
        return Ok(0);
    }
    let unit = restart_of_parts(alloc)?;
    sites.rollback_all();
    sites.begin(HQ)?;
    let seq = append_unit(sites, alloc, HQ, &unit)?;
    sites.commit(HQ)?;
    Ok(seq)
}
