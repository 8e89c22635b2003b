//! What a set does if changes that it needs aren't kept.

use crate::restarts::restart_parts;
use crate::servers::{HQ, ORDERS, capture_all, rows_of, run};
use crate::steps::{action_of, check_steps, servers_after, state_of};
use keep_map::MapKeeper;
use repl_records::SetState;
use repl_types::{GapPlace, Stepped};
use site_store::Sites;
use std::alloc::Global;
use std::process::Abort;
use std::test::Fail;
use subs_sets::Action;

/// The table `parts` of hq.
const PARTS_TABLE: &str = "
[[table]]
server = 'hq'
name = 'parts'
columns = ['code int', 'size int', 'qty int null']
key = ['size', 'code']
fixed = ['code', 'size']
";

/// Its registration.
const WITH_REFRESH: &str = "
[[registration]]
server = 'hq'
table = 'parts'
";

/// The same, if a refresh is forbidden.
const WITHOUT_REFRESH: &str = "
[[registration]]
server = 'hq'
table = 'parts'
disable_refresh = true
";

/// A set with a member on each of the two tables.
const TWO_TABLES: &str = "
[[set]]
qual = 'q'
name = 's'
source = 'hq'
target = 'shop'
[[set.member]]
source = 'orders'
target = 'orders_copy'
type = 'user_copy'
columns = ['id = id', 'qty = qty']
[[set.member]]
source = 'parts'
target = 'parts_copy'
type = 'user_copy'
columns = ['code = code', 'qty = qty', 'size = size']
";

/// An order and two parts, in the units 2, 4 and 6.
const FIRST_ROWS: &[u8] = b"feed hq
|insert 1 orders 1 7 20
|commit 1 ann 100
|insert 1 parts 5 2 10
|commit 1 ann 100
|insert 1 parts 6 1 null
|commit 1 ann 100
";

/// The order goes, a part comes, and the first part goes, in the units 11, 13 and 15.
const LATER_ROWS: &[u8] = b"feed hq
|delete 1 orders 1 7 20
|commit 1 ann 100
|insert 1 parts 4 2 30
|commit 1 ann 100
|delete 1 parts 5 2 10
|commit 1 ann 100
";

/// What is written once these are captured, and once the unit after them is.
const CAPTURED_15: &[u8] = b"ok captured 000000000000000f0000 units 7 rows 3\n";

const CAPTURED_18: &[u8] = b"ok captured 00000000000000120000 units 1 rows 0\n";

/// The first steps. Both tables are started, at 7 and 8.
const FIRST_STEPS: [Stepped; 4] = [
    Stepped::Signal { server: HQ, seq: 9 },
    Stepped::Refresh { point: 9, rows: 3 },
    Stepped::Report { point: 9 },
    Stepped::Idle,
];

/// The rows of the two targets then, each after its key.
const FIRST_ORDERS: &[u8] = b"row 1\nrow 1 20\n";

const FIRST_PARTS: &[u8] = b"row 1 6\nrow 6 null 1\nrow 2 5\nrow 5 10 2\n";

/// The steps at the gap: both tables are started once more, at 19 and 20.
const STEPS_AT_GAP: [Stepped; 4] = [
    Stepped::Signal {
        server: HQ,
        seq: 21,
    },
    Stepped::Refresh { point: 21, rows: 2 },
    Stepped::Report { point: 21 },
    Stepped::Idle,
];

/// The rows of the two targets then.
const NO_ROWS: &[u8] = b"";

const LAST_PARTS: &[u8] = b"row 1 6\nrow 6 null 1\nrow 2 4\nrow 4 30 2\n";

/// The state then.
const REFRESHED_TWICE: SetState = SetState::ReadOnly {
    has_points: true,
    synchpoint: 21,
    time: 100,
    base: 21,
    flag: false,
    entries: 2,
};

/// A set that was refreshed at 9, after which three units up to 15 were captured, and one at 18
/// that stops the registration of the parts and starts it again.
fn set_with_gap(
    rt: &impl Abort,
    alloc: Global,
    registration: &str,
) -> Result<Sites<MapKeeper>, Fail> {
    let texts = &[ORDERS, PARTS_TABLE, registration, TWO_TABLES];
    let mut sites = servers_after(rt, alloc, texts, FIRST_ROWS, &FIRST_STEPS)?;
    run(rt, alloc, &mut sites, LATER_ROWS)?;
    capture_all(rt, alloc, &mut sites, CAPTURED_15)?;
    assert_eq!(rt; action_of(alloc, &mut sites)?, Action::Block { to: 15 });
    assert_eq!(rt; restart_parts(alloc, &mut sites)?, 18);
    capture_all(rt, alloc, &mut sites, CAPTURED_18)?;
    Ok(sites)
}

#[test]
fn a_gap_at_the_second_member_is_mended_by_a_refresh(rt: HostRuntime) -> Result<(), Fail> {
    let alloc = rt.alloc();
    let mut sites = set_with_gap(&rt, alloc, WITH_REFRESH)?;
    assert_eq!(rt; rows_of(alloc, &mut sites, 0)?.as_slice(), FIRST_ORDERS);
    assert_eq!(rt; rows_of(alloc, &mut sites, 1)?.as_slice(), FIRST_PARTS);
    check_steps(&rt, alloc, &mut sites, &STEPS_AT_GAP)?;
    assert_eq!(rt; state_of(alloc, &mut sites)?, REFRESHED_TWICE);
    assert_eq!(rt; rows_of(alloc, &mut sites, 0)?.as_slice(), NO_ROWS);
    assert_eq!(rt; rows_of(alloc, &mut sites, 1)?.as_slice(), LAST_PARTS);
    Ok(())
}

#[test]
fn a_gap_is_refused_if_a_refresh_is_forbidden_there(rt: HostRuntime) -> Result<(), Fail> {
    let alloc = rt.alloc();
    let mut sites = set_with_gap(&rt, alloc, WITHOUT_REFRESH)?;
    let Action::Refuse(GapPlace::Above { server, table, seq }) = action_of(alloc, &mut sites)?
    else {
        assert!(rt; false);
        return Ok(());
    };
    assert_eq!(rt; server.as_str(), "hq");
    assert_eq!(rt; table.as_str(), "parts");
    assert_eq!(rt; seq, 18);
    Ok(())
}
