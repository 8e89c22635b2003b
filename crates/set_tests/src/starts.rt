//! Where runs begin, and the steps that the set takes from there.

use crate::servers::{HQ, loaded_servers, run};
use crate::steps::check_steps;
use keep_map::MapKeeper;
use repl_types::Stepped;
use site_store::Sites;
use std::alloc::Global;
use std::process::Abort;
use std::test::Fail;

/// Where a run begins: the set is new, or it was refreshed, and then a later unit was captured.
#[derive(Clone, Copy, Debug, PartialEq, Eq)]
pub enum Start {
    New,
    Captured,
}

/// A set with two members on a table of one column: all its rows, and those from 2 on.
pub const DEFINITIONS: &str = "
[[table]]
server = 'hq'
name = 'orders'
columns = ['id int']
key = ['id']
fixed = ['id']
[[registration]]
server = 'hq'
table = 'orders'
[[set]]
qual = 'q'
name = 's'
source = 'hq'
target = 'shop'
[[set.member]]
source = 'orders'
target = 'orders_copy'
type = 'user_copy'
columns = ['id = id']
[[set.member]]
source = 'orders'
target = 'later_orders'
type = 'user_copy'
columns = ['id = id', 'next = id + 1']
where = 'id >= 2'
";

/// The row (1) comes, in the unit 2.
const FIRST_ROW: &[u8] = b"feed hq
|insert 1 orders 1
|commit 1 ann 100
";

/// It goes and the row (2) comes, in one unit, which is captured.
const NEXT_ROW: &[u8] = b"feed hq
|delete 1 orders 1
|insert 1 orders 2
|commit 1 ann 100
capture hq
";

/// The first steps of the set. Its source has a unit at 2 before them.
const FIRST_STEPS: &[Stepped] = &[
    Stepped::Signal { server: HQ, seq: 4 },
    Stepped::Refresh { point: 4, rows: 1 },
    Stepped::Report { point: 4 },
];

/// The steps once a unit of a delete and an insert, which both members take, is captured.
const LATER_STEPS: &[Stepped] = &[
    Stepped::Block {
        from: 4,
        to: 7,
        inserts: 2,
        updates: 0,
        deletes: 2,
    },
    Stepped::Report { point: 7 },
];

/// The steps from there, if no call fails.
pub fn steps_from(start: Start) -> &'static [Stepped] {
    match start {
        Start::New => FIRST_STEPS,
        Start::Captured => LATER_STEPS,
    }
}

/// Lets the set take the first of these steps, so many of them.
pub fn take_steps(
    rt: &impl Abort,
    alloc: Global,
    sites: &mut Sites<MapKeeper>,
    steps: &[Stepped],
    count: usize,
) -> Result<(), Fail> {
    match steps.get(..count) {
        Some(first) => check_steps(rt, alloc, sites, first),
        None => Err(Fail::new("too few steps")),
    }
}

/// The servers there.
pub fn servers_at(rt: &impl Abort, alloc: Global, start: Start) -> Result<Sites<MapKeeper>, Fail> {
    let mut sites = loaded_servers(alloc, &[DEFINITIONS])?;
    run(rt, alloc, &mut sites, FIRST_ROW)?;
    if start == Start::Captured {
        take_steps(rt, alloc, &mut sites, FIRST_STEPS, 2)?;
        run(rt, alloc, &mut sites, NEXT_ROW)?;
    }
    Ok(sites)
}
