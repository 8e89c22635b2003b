//! Scripts that capture the log of a server in several cuts, and what is left there if a call of
//! its keeper fails.

use crate::runs::{CALLS, check, failing_at, hold, run, server_hq};
use keep_core::Keeper;
use keep_map::{BytesSink, MapKeeper};
use repl_types::{Area, Status};
use site_store::Sites;
use std::alloc::Global;
use std::process::Abort;
use std::str;
use std::test::Fail;

/// A load of three registered tables: one with a before-image, one whose updates are taken apart
/// into a delete and an insert, and one of which a column isn't registered, and updates of that
/// column alone aren't captured.
pub const LOAD: &[u8] = b"load
|[[table]]
|server = 'hq'
|name = 'orders'
|columns = ['id int', 'item text', 'qty int null']
|key = ['id']
|fixed = ['id']
|[[table]]
|server = 'hq'
|name = 'parts'
|columns = ['code text', 'qty int null']
|key = ['code']
|[[table]]
|server = 'hq'
|name = 'stock'
|columns = ['id int', 'qty int', 'note text null']
|key = ['id']
|fixed = ['id']
|[[registration]]
|server = 'hq'
|table = 'orders'
|before = ['qty']
|[[registration]]
|server = 'hq'
|table = 'parts'
|before = ['code']
|del_ins = true
|[[registration]]
|server = 'hq'
|table = 'stock'
|after = ['id', 'qty']
|changes_only = true
";

/// The reply to it.
const LOADED: &[u8] = b"ok loaded tables 3 registrations 3 sets 0\n";

/// The first records of the log: a unit of the program's own that starts the three registrations.
const START_OF_ORDERS: &[u8] = b"\x16\0\0\0\0\x06orders";

const START_OF_PARTS: &[u8] = b"\x16\0\0\0\0\x05parts";

const START_OF_STOCK: &[u8] = b"\x16\0\0\0\0\x05stock";

const COMMIT_OF_STARTS: &[u8] = b"\x14\0\0\0\0\0\0\0\0\0\0\0\0\x06sqlrep\0";

/// The end of that log: the last position and the last commit are 4, at the time 0.
const HEAD: &[u8] = b"\0\0\0\0\0\0\0\x04\0\0\0\0\0\0\0\x04\0\0\0\0\0\0\0\0";

/// The rest of the log, from 5 on. The first unit changes all three tables. The transactions 2 and
/// 5 cross, 3 and 4 end while 2 is in flight, 6 is aborted, and the last unit has no change.
pub const FEED: &[u8] = b"feed hq
|insert 1 orders 1 'pen' 20
|insert 1 parts 'a' 1
|insert 1 stock 7 3 null
|commit 1 ann 100
|update 2 orders 1 'pen' 20 -> 1 'pen' null
|update 3 parts 'a' 1 -> 'b' 1
|commit 3 bob 110
|update 4 stock 7 3 null -> 7 3 'x'
|update 4 stock 7 3 'x' -> 7 4 'x'
|commit 4 cy 120
|delete 5 orders 1 'pen' null
|commit 2 ann 130
|insert 6 orders 2 'ink' 5
|abort 6
|commit 5 ann 140
|commit 7 dee 150
";

/// The reply to it.
const FED: &[u8] = b"ok fed 16 last 00000000000000140000\n";

/// A script that captures the whole log: three units and one, and then two and one.
pub const IN_FOUR_COMMITS: &[u8] = b"capture hq units 4 every 3\ncapture hq units 9 every 2\n";

/// Scripts that capture the whole log.
const CUTS: [&[u8]; 4] = [
    b"capture hq\n",
    b"capture hq units 1\ncapture hq units 1\ncapture hq units 1\ncapture hq\n",
    b"capture hq every 1\n",
    IN_FOUR_COMMITS,
];

/// The same feed in parts, with a capture after each. The transaction 2 is in flight at three of
/// the captures, and 6 at one, with its only change.
const PARTS: &[u8] = b"capture hq
feed hq
|insert 1 orders 1 'pen' 20
|insert 1 parts 'a' 1
|insert 1 stock 7 3 null
|commit 1 ann 100
|update 2 orders 1 'pen' 20 -> 1 'pen' null
capture hq
feed hq
|update 3 parts 'a' 1 -> 'b' 1
|commit 3 bob 110
capture hq
feed hq
|update 4 stock 7 3 null -> 7 3 'x'
|update 4 stock 7 3 'x' -> 7 4 'x'
|commit 4 cy 120
|delete 5 orders 1 'pen' null
capture hq
feed hq
|commit 2 ann 130
|insert 6 orders 2 'ink' 5
capture hq
feed hq
|abort 6
|commit 5 ann 140
|commit 7 dee 150
capture hq
";

/// The replies to it. After each capture, what is in flight is known by the next one.
const CAPTURED: &[u8] = b"ok captured 00000000000000040000 units 1 rows 0
ok fed 5 last 00000000000000090000
ok captured 00000000000000080000 units 1 rows 3
ok fed 2 last 000000000000000b0000
ok captured 000000000000000b0000 units 1 rows 2
ok fed 4 last 000000000000000f0000
ok captured 000000000000000e0000 units 1 rows 1
ok fed 2 last 00000000000000110000
ok captured 00000000000000100000 units 1 rows 1
ok fed 3 last 00000000000000140000
ok captured 00000000000000140000 units 2 rows 1
";

/// A script that shows what is captured, and how far the server is.
pub const SHOW: &[u8] = b"show hq cd orders
show hq cd parts
show hq cd stock
show hq uow
status hq
";

/// What it shows once the whole log is captured.
const SHOWN: &[u8] = b"row 00000000000000080000 00000000000000050000 I 1 'pen' 20 before null
row 00000000000000100000 00000000000000090000 U 1 'pen' null before 20
row 00000000000000130000 000000000000000f0000 D 1 'pen' null before null
ok rows 3
row 00000000000000080000 00000000000000060000 I 'a' 1 before null
row 000000000000000b0000 000000000000000a0000 D 'a' 1 before 'a'
row 000000000000000b0000 000000000000000a0001 I 'b' 1 before null
ok rows 3
row 00000000000000080000 00000000000000070000 I 7 3
row 000000000000000e0000 000000000000000d0000 U 7 4
ok rows 2
row 00000000000000040000 0 sqlrep - 0
row 00000000000000080000 100 ann - 0
row 000000000000000b0000 110 bob - 0
row 000000000000000e0000 120 cy - 0
row 00000000000000100000 130 ann - 0
row 00000000000000130000 140 ann - 0
row 00000000000000140000 150 dee - 0
ok rows 7
reg orders active 00000000000000040000 00000000000000000000
reg parts active 00000000000000040000 00000000000000000000
reg stock active 00000000000000040000 00000000000000000000
ok last 00000000000000140000 commit 00000000000000140000 time 150 \
captured 00000000000000140000 restart 00000000000000150000 floor 00000000000000000000
";

/// The server hq, where three tables are loaded and their registrations are started.
fn started_server(rt: &impl Abort, alloc: Global) -> Result<Sites<MapKeeper>, Fail> {
    let mut keeper = MapKeeper::new(alloc);
    keeper.rollback();
    hold(
        &mut keeper,
        Area::Log,
        0,
        b"\0\0\0\0\0\0\0\x01",
        START_OF_ORDERS,
    )?;
    hold(
        &mut keeper,
        Area::Log,
        0,
        b"\0\0\0\0\0\0\0\x02",
        START_OF_PARTS,
    )?;
    hold(
        &mut keeper,
        Area::Log,
        0,
        b"\0\0\0\0\0\0\0\x03",
        START_OF_STOCK,
    )?;
    hold(
        &mut keeper,
        Area::Log,
        0,
        b"\0\0\0\0\0\0\0\x04",
        COMMIT_OF_STARTS,
    )?;
    hold(&mut keeper, Area::Head, 0, b"\0", HEAD)?;
    let mut sites = server_hq(alloc, keeper)?;
    check(rt, alloc, &mut sites, LOAD, LOADED)?;
    Ok(sites)
}

/// That server with the whole log.
fn fed_server(rt: &impl Abort, alloc: Global) -> Result<Sites<MapKeeper>, Fail> {
    let mut sites = started_server(rt, alloc)?;
    check(rt, alloc, &mut sites, FEED, FED)?;
    Ok(sites)
}

/// Lets a call of the server fail while a script captures its log in four commits, and answers the
/// server that the run leaves, or `None` if it ended before that call.
fn server_after(
    rt: &impl Abort,
    alloc: Global,
    call: u64,
    takes_place: bool,
) -> Result<Option<Sites<MapKeeper>>, Fail> {
    let fed = fed_server(rt, alloc)?;
    let mut sites = failing_at(alloc, fed, call, takes_place)?;
    let (_replies, status) = run(alloc, &mut sites, IN_FOUR_COMMITS)?;
    if status == Status::Ok {
        return Ok(None);
    }
    assert_eq!(rt; status, Status::KeeperFault(0), "at call {call}");
    Ok(Some(sites))
}

/// Captures what is left at a server, and compares what is shown with that of a run without
/// failure.
fn check_next_run(rt: &impl Abort, alloc: Global, mut sites: Sites<MapKeeper>) -> Result<(), Fail> {
    let (_replies, status) = run(alloc, &mut sites, b"capture hq\n")?;
    assert_eq!(rt; status, Status::Ok);
    check(rt, alloc, &mut sites, SHOW, SHOWN)
}

#[test]
fn any_cut_captures_the_same(rt: HostRuntime) -> Result<(), Fail> {
    let alloc = rt.alloc();
    for cut in CUTS {
        let mut sites = fed_server(&rt, alloc)?;
        let (_replies, status) = run(alloc, &mut sites, cut)?;
        assert_eq!(rt; status, Status::Ok);
        check(&rt, alloc, &mut sites, SHOW, SHOWN)?;
    }
    Ok(())
}

#[test]
fn captures_between_feeds_miss_nothing_in_flight(rt: HostRuntime) -> Result<(), Fail> {
    let alloc = rt.alloc();
    let mut sites = started_server(&rt, alloc)?;
    check(&rt, alloc, &mut sites, PARTS, CAPTURED)?;
    check(&rt, alloc, &mut sites, SHOW, SHOWN)
}

#[test]
fn a_failed_call_ends_a_capture_and_the_next_one_goes_on(rt: HostRuntime) -> Result<(), Fail> {
    let alloc = rt.alloc();
    for takes_place in [false, true] {
        let mut failed = 0;
        for call in 1..CALLS {
            let Some(sites) = server_after(&rt, alloc, call, takes_place)? else {
                break;
            };
            check_next_run(&rt, alloc, failing_at(alloc, sites, 0, false)?)?;
            failed = call;
        }
        assert!(rt; 50 < failed && failed < CALLS - 1, "{failed} calls");
    }
    Ok(())
}

/// What the status of the server says of how far it is captured, before a capture of one unit at a
/// time and after each of its commits.
const POINTS: [&str; 8] = [
    "captured 00000000000000000000 ",
    "captured 00000000000000040000 ",
    "captured 00000000000000080000 ",
    "captured 000000000000000b0000 ",
    "captured 000000000000000e0000 ",
    "captured 00000000000000100000 ",
    "captured 00000000000000130000 ",
    "captured 00000000000000140000 ",
];

/// The place of the point in the status of a server, that of no point if it is none of them.
fn place_of_point(status: &str) -> usize {
    POINTS
        .iter()
        .position(|point| status.contains(*point))
        .unwrap_or(POINTS.len())
}

/// The place of the point that the server is captured to, once a capture of one unit at a time was
/// stopped at a call, or `None` if it ended before that call.
fn point_after(rt: &impl Abort, alloc: Global, call: u64) -> Result<Option<usize>, Fail> {
    let fed = fed_server(rt, alloc)?;
    let mut sites = failing_at(alloc, fed, call, false)?;
    let (_replies, status) = run(alloc, &mut sites, b"capture hq every 1\n")?;
    if status == Status::Ok {
        return Ok(None);
    }
    assert_eq!(rt; status, Status::KeeperFault(0), "at call {call}");
    let mut sites = failing_at(alloc, sites, 0, false)?;
    let (shown, status) = run(alloc, &mut sites, b"status hq\n")?;
    assert_eq!(rt; status, Status::Ok);
    Ok(Some(place_of_point(str::from_utf8(shown.bytes())?)))
}

#[test]
fn a_capture_of_one_unit_at_a_time_leaves_each_point_where_it_is_stopped(
    rt: HostRuntime,
) -> Result<(), Fail> {
    let alloc = rt.alloc();
    let mut last = 0;
    for call in 1..CALLS {
        let Some(place) = point_after(&rt, alloc, call)? else {
            break;
        };
        assert!(rt;
            place == last || place == last.saturating_add(1),
            "at call {call}"
        );
        last = place;
    }
    assert_eq!(rt; last, POINTS.len() - 1);
    Ok(())
}
