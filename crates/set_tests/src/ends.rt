//! Blocks of units up to an end.

use crate::cycles::STEPS_WITHOUT_UNITS;
use crate::servers::run;
use crate::starts::DEFINITIONS;
use crate::steps::{check_steps_until, servers_after};
use repl_types::Stepped;
use std::test::Fail;

/// Three units, which are captured.
const UNITS: &[u8] = b"feed hq
|insert 1 orders 1
|commit 1 ann 100
|insert 1 orders 2
|commit 1 ann 130
|insert 1 orders 3
|commit 1 ann 200
capture hq
";

/// The steps up to the time of the first unit. Both members take its change row.
const FIRST_UNIT: &[Stepped] = &[
    Stepped::Block {
        from: 2,
        to: 4,
        inserts: 2,
        updates: 0,
        deletes: 0,
    },
    Stepped::Report { point: 4 },
    Stepped::Idle,
];

/// The steps from there up to the time of the last unit.
const OTHER_UNITS: &[Stepped] = &[
    Stepped::Block {
        from: 4,
        to: 8,
        inserts: 4,
        updates: 0,
        deletes: 0,
    },
    Stepped::Report { point: 8 },
    Stepped::Idle,
];

#[test]
fn a_block_takes_units_up_to_its_end(rt: HostRuntime) -> Result<(), Fail> {
    let alloc = rt.alloc();
    let mut sites = servers_after(&rt, alloc, &[DEFINITIONS], b"", STEPS_WITHOUT_UNITS)?;
    run(&rt, alloc, &mut sites, UNITS)?;
    check_steps_until(&rt, alloc, &mut sites, 99, &[Stepped::Idle])?;
    check_steps_until(&rt, alloc, &mut sites, 100, FIRST_UNIT)?;
    check_steps_until(&rt, alloc, &mut sites, 200, OTHER_UNITS)?;
    Ok(())
}
