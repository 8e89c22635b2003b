//! Scripts that apply sets from one server to another, and what is left there if a call of one of
//! their keepers fails.

use crate::runs::{CALLS, Failure, NONE, new_servers, run_at, server_with, with_failure};
use keep_map::{BytesSink, MapKeeper};
use repl_types::{Area, List, Status};
use site_store::Sites;
use std::alloc::{AllocError, Global};
use std::process::Abort;
use std::test::Fail;

/// The servers, in the order of the command line.
const NAMES: [&str; 2] = ["hq", "shop"];

/// Two sets over one table, with other predicates. A transaction stays in flight.
pub const BEGIN: &[u8] = b"load
|[[table]]
|server = 'hq'
|name = 'orders'
|columns = ['id int', 'qty int']
|key = ['id']
|fixed = ['id']
|[[registration]]
|server = 'hq'
|table = 'orders'
|before = ['qty']
|[[set]]
|qual = 'q'
|name = 's'
|source = 'hq'
|target = 'shop'
|[[set.member]]
|source = 'orders'
|target = 'large'
|type = 'user_copy'
|columns = ['id = id', 'qty = qty']
|where = 'qty >= 10'
|[[set]]
|qual = 'q'
|name = 'all'
|source = 'hq'
|target = 'shop'
|[[set.member]]
|source = 'orders'
|target = 'ids'
|type = 'user_copy'
|columns = ['id = id']
feed hq
|insert 1 orders 1 20
|insert 1 orders 2 5
|commit 1 ann 100
apply q s
feed hq
|update 2 orders 2 5 -> 2 12
|insert 3 orders 3 30
|update 2 orders 1 20 -> 1 9
|commit 2 bob 160
";

/// What is done then: the first set takes a block, and the second is refreshed.
pub const APPLY: &[u8] = b"capture hq
apply q s
apply q all
";

/// What is asked at the end.
pub const SHOW: &[u8] = b"show shop target large
show shop target ids
";

/// How far both sets are.
pub const STATUS: &[u8] = b"status q s
status q all
";

/// The first set was signalled at 5 and refreshed there. Its block ends at 9, and the second set is
/// signalled at 11 and refreshed there.
const APPLIED: &[u8] = b"ok captured 00000000000000090000 units 3 rows 2
ok block 00000000000000050000 00000000000000090000 insert 0 update 2 delete 0
ok report 00000000000000090000
ok apply steps 2
ok signal hq 000000000000000b0000
ok refresh 000000000000000b0000 rows 2
ok report 000000000000000b0000
ok apply steps 3
";

/// A refresh of the first set is asked for, and made.
const REFRESH: &[u8] = b"refresh q s
apply q s
";

/// It is signalled at 11 and refreshed there.
const REFRESHED: &[u8] = b"ok flagged
ok signal hq 000000000000000b0000
ok refresh 000000000000000b0000 rows 1
ok report 000000000000000b0000
ok apply steps 3
";

/// The line of the block by itself.
const BLOCK: &[u8] = b"ok block 00000000000000050000 00000000000000090000 \
insert 0 update 2 delete 0
";

/// Before the block the first copy has the row that was committed first.
const LARGE_BEFORE: &[u8] = b"row 1 20
ok rows 1
";

/// And afterwards the one that came into its predicate.
const LARGE_AFTER: &[u8] = b"row 2 12
ok rows 1
";

/// What is shown once both sets are applied.
const SHOWN: &[u8] = b"row 2 12
ok rows 1
row 1
row 2
ok rows 2
";

/// How far the first set is before the block.
const SET_BEFORE: &[u8] = b"ok set q/s synchpoint 00000000000000050000 base ";

/// What is done at the servers once the script has begun, and what it writes.
#[derive(Clone, Copy, Debug)]
struct Task {
    script: &'static [u8],
    written: &'static [u8],
    /// What is asked afterwards, and the answer.
    asked: &'static [u8],
    shown: &'static [u8],
}

/// Both sets are applied.
const APPLIES: Task = Task {
    script: APPLY,
    written: APPLIED,
    asked: SHOW,
    shown: SHOWN,
};

/// The first set is refreshed.
const REFRESHES: Task = Task {
    script: REFRESH,
    written: REFRESHED,
    asked: b"show shop target large\n",
    shown: LARGE_AFTER,
};

/// Runs a script at both servers.
fn run_here(
    alloc: Global,
    sites: &mut Sites<MapKeeper>,
    script: &[u8],
) -> Result<(BytesSink, Status), AllocError> {
    run_at(alloc, "hq=:map: shop=:map:", sites, script)
}

/// Servers at which the script has begun, with this failure from now on.
fn begun(rt: &impl Abort, alloc: Global, failure: Failure) -> Result<Sites<MapKeeper>, Fail> {
    let mut sites = new_servers(alloc, &NAMES, NONE)?;
    let (_output, status) = run_here(alloc, &mut sites, BEGIN)?;
    assert_eq!(rt; status, Status::Ok);
    with_failure(alloc, &NAMES, sites, failure)
}

/// Runs a script at both servers, which ends in Ok and writes this.
fn check_here(
    rt: &impl Abort,
    alloc: Global,
    sites: &mut Sites<MapKeeper>,
    script: &[u8],
    wanted: &[u8],
) -> Result<(), Fail> {
    let (output, status) = run_here(alloc, sites, script)?;
    assert_eq!(rt; status, Status::Ok);
    assert_eq!(rt; output.bytes(), wanted);
    Ok(())
}

/// Runs what is to be done once more at servers at which a call failed. Before that the first copy
/// has the rows of the point that its set says, and afterwards all is as without a failure.
fn check_next_run(
    rt: &impl Abort,
    alloc: Global,
    sites: Sites<MapKeeper>,
    task: Task,
) -> Result<(), Fail> {
    let mut sites = with_failure(alloc, &NAMES, sites, NONE)?;
    let (output, status) = run_here(alloc, &mut sites, b"status q s\nshow shop target large\n")?;
    assert_eq!(rt; status, Status::Ok);
    let is_before = output.bytes().starts_with(SET_BEFORE);
    let rows = if is_before { LARGE_BEFORE } else { LARGE_AFTER };
    assert!(rt; output.bytes().ends_with(rows));

    let (_output, status) = run_here(alloc, &mut sites, task.script)?;
    assert_eq!(rt; status, Status::Ok);
    check_here(rt, alloc, &mut sites, task.asked, task.shown)
}

/// Lets each call of a server fail in a run of its own, until a run ends before the call, and
/// answers how many calls failed.
fn failing_calls(
    rt: &impl Abort,
    alloc: Global,
    server: u32,
    takes_place: bool,
    task: Task,
) -> Result<u64, Fail> {
    for calls in 0..CALLS {
        let failure = Failure {
            server,
            call: calls + 1,
            takes_place,
        };
        let mut sites = begun(rt, alloc, failure)?;
        let (output, status) = run_here(alloc, &mut sites, task.script)?;
        if status == Status::Ok {
            assert_eq!(rt; output.bytes(), task.written);
            return Ok(calls);
        }
        assert_eq!(rt; status, Status::KeeperFault(server), "at call {calls}");
        assert!(rt; task.written.starts_with(output.bytes()), "at call {calls}");
        check_next_run(rt, alloc, sites, task)?;
    }
    Ok(CALLS)
}

/// Lets each call of each server fail, before it takes place and after.
fn check_failing_calls(rt: &impl Abort, alloc: Global, task: Task) -> Result<(), Fail> {
    for (server, takes_place) in [(0, false), (0, true), (1, false), (1, true)] {
        let calls = failing_calls(rt, alloc, server, takes_place, task)?;
        assert!(rt; 10 < calls && calls < CALLS, "{calls} calls of {server}");
    }
    Ok(())
}

#[test]
fn a_failed_call_ends_an_apply_and_the_next_one_makes_up_for_it(
    rt: HostRuntime,
) -> Result<(), Fail> {
    check_failing_calls(&rt, rt.alloc(), APPLIES)
}

#[test]
fn a_failed_call_ends_a_refresh_and_the_next_one_makes_up_for_it(
    rt: HostRuntime,
) -> Result<(), Fail> {
    check_failing_calls(&rt, rt.alloc(), REFRESHES)
}

/// How often the servers were read, and the servers with the same keepers: for each of them the
/// reads of its log, of its source tables and of its change rows.
fn read_counts(
    alloc: Global,
    sites: Sites<MapKeeper>,
) -> Result<(Vec<u64>, Sites<MapKeeper>), Fail> {
    let mut counts = Vec::new(alloc);
    let mut list = List::new(alloc);
    let sites = sites.into_list().into_vec();
    for (name, site) in NAMES.iter().zip(sites) {
        let keeper = site.into_keeper();
        for area in [Area::Log, Area::Source, Area::Cd] {
            counts.push(keeper.read_count(area))?;
        }
        list.push(server_with(alloc, name, keeper)?)?;
    }
    Ok((counts, Sites::new(list)?))
}

/// The place of the change rows of hq among these counts.
const CHANGE_ROWS: usize = 2;

#[test]
fn a_block_in_a_later_run_reads_change_rows_and_neither_a_log_nor_a_source(
    rt: HostRuntime,
) -> Result<(), Fail> {
    let alloc = rt.alloc();
    let mut sites = begun(&rt, alloc, NONE)?;
    let (_output, status) = run_here(alloc, &mut sites, b"capture hq\n")?;
    assert_eq!(rt; status, Status::Ok);
    let (before, mut sites) = read_counts(alloc, sites)?;
    check_here(&rt, alloc, &mut sites, b"step q s\n", BLOCK)?;
    let (after, _sites) = read_counts(alloc, sites)?;
    assert_eq!(rt; after.len(), before.len());
    for (place, (old, new)) in before.iter().zip(after.iter()).enumerate() {
        if place == CHANGE_ROWS {
            assert!(rt; old < new);
        } else {
            assert_eq!(rt; new, old, "at place {place}");
        }
    }
    Ok(())
}
