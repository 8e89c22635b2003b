//! A script that feeds the log of a server, and what is left there if a call of its keeper fails.

use crate::runs::{CALLS, check, empty_server, failing_at, run};
use keep_map::MapKeeper;
use repl_types::Status;
use site_store::Sites;
use std::alloc::Global;
use std::process::Abort;
use std::test::Fail;

/// A load of one table, and seven records in three batches: of positions 1 to 3, 4 and 5, and 6 and
/// 7. The transaction 1 begins anew at position 4, and stays in flight.
pub const WHOLE: &[u8] = b"load
|[[table]]
|server = 'hq'
|name = 'orders'
|columns = ['id int']
|key = ['id']
feed hq
|insert 1 orders 1
|insert 2 orders 2
|commit 1 ann 100
|insert 1 orders 3
|abort 2
|insert 3 orders 4
|commit 3 bob 110
";

/// The replies to it.
const REPLIES: &[u8] = b"ok loaded tables 1 registrations 0 sets 0
ok fed 7 last 00000000000000070000
";

/// The same load, and a question how far the server is.
const LOAD_AND_STATUS: &[u8] = b"load
|[[table]]
|server = 'hq'
|name = 'orders'
|columns = ['id int']
|key = ['id']
status hq
";

/// Each place that the log can be at between two batches, as the last line of `status` says it, and
/// the feed of what is missing there.
const MISSING: [(&[u8], &[u8]); 4] = [
    (
        b"\nok last 00000000000000000000 commit 00000000000000000000 time 0 \
captured 00000000000000000000 restart 00000000000000010000 floor 00000000000000000000\n",
        b"feed hq
|insert 1 orders 1
|insert 2 orders 2
|commit 1 ann 100
|insert 1 orders 3
|abort 2
|insert 3 orders 4
|commit 3 bob 110
",
    ),
    (
        b"\nok last 00000000000000030000 commit 00000000000000030000 time 100 \
captured 00000000000000000000 restart 00000000000000010000 floor 00000000000000000000\n",
        b"feed hq
|insert 1 orders 3
|abort 2
|insert 3 orders 4
|commit 3 bob 110
",
    ),
    (
        b"\nok last 00000000000000050000 commit 00000000000000030000 time 100 \
captured 00000000000000000000 restart 00000000000000010000 floor 00000000000000000000\n",
        b"feed hq
|insert 3 orders 4
|commit 3 bob 110
",
    ),
    (
        b"\nok last 00000000000000070000 commit 00000000000000070000 time 110 \
captured 00000000000000000000 restart 00000000000000010000 floor 00000000000000000000\n",
        b"feed hq\n",
    ),
];

/// A script that shows the log, what is committed, and how far the server is.
pub const SHOW: &[u8] = b"show hq log
show hq source orders
status hq
";

/// What it shows once all records are fed.
const SHOWN: &[u8] = b"row 00000000000000010000 insert 1 orders 1
row 00000000000000020000 insert 2 orders 2
row 00000000000000030000 commit 1 ann 100
row 00000000000000040000 insert 1 orders 3
row 00000000000000050000 abort 2
row 00000000000000060000 insert 3 orders 4
row 00000000000000070000 commit 3 bob 110
ok rows 7
row 1
row 4
ok rows 2
ok last 00000000000000070000 commit 00000000000000070000 time 110 \
captured 00000000000000000000 restart 00000000000000010000 floor 00000000000000000000
";

/// Feeds what is missing at a server that an earlier run left early, as its status says it, and
/// compares what is shown with that of a run without failure.
fn check_next_runs(
    rt: &impl Abort,
    alloc: Global,
    mut sites: Sites<MapKeeper>,
) -> Result<(), Fail> {
    let (output, status) = run(alloc, &mut sites, LOAD_AND_STATUS)?;
    assert_eq!(rt; status, Status::Ok);
    let mut fed = false;
    for (place, script) in MISSING {
        if output.bytes().ends_with(place) {
            let (_replies, ended) = run(alloc, &mut sites, script)?;
            assert_eq!(rt; ended, Status::Ok);
            fed = true;
        }
    }
    assert!(rt; fed);
    check(rt, alloc, &mut sites, SHOW, SHOWN)
}

/// Lets a call of the server fail, and answers the server that the run leaves, or `None` if it
/// ended before that call. What it wrote has to be a prefix of what a run without failure writes.
fn server_after(
    rt: &impl Abort,
    alloc: Global,
    call: u64,
    takes_place: bool,
) -> Result<Option<Sites<MapKeeper>>, Fail> {
    let mut sites = failing_at(alloc, empty_server(alloc)?, call, takes_place)?;
    let (output, status) = run(alloc, &mut sites, WHOLE)?;
    if status == Status::Ok {
        assert_eq!(rt; output.bytes(), REPLIES);
        return Ok(None);
    }
    assert_eq!(rt; status, Status::KeeperFault(0), "at call {call}");
    let is_prefix = REPLIES.starts_with(output.bytes());
    assert!(rt; is_prefix, "at call {call}");
    Ok(Some(sites))
}

#[test]
fn a_failed_call_ends_a_feed_and_what_is_missing_makes_up_for_it(
    rt: HostRuntime,
) -> Result<(), Fail> {
    let alloc = rt.alloc();
    for takes_place in [false, true] {
        let mut failed = 0;
        for call in 1..CALLS {
            let Some(sites) = server_after(&rt, alloc, call, takes_place)? else {
                break;
            };
            check_next_runs(&rt, alloc, failing_at(alloc, sites, 0, false)?)?;
            failed = call;
        }
        assert!(rt; 30 < failed && failed < CALLS - 1, "{failed} calls");
    }
    Ok(())
}
