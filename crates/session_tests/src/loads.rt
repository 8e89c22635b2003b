//! A script that loads definitions at three servers, and what is left there if a call of one of
//! their keepers fails.

use crate::runs::{CALLS, Failure, NONE, new_servers, run_at, with_failure};
use keep_map::{BytesSink, MapKeeper};
use repl_types::Status;
use site_store::Sites;
use std::alloc::{AllocError, Global};
use std::process::Abort;
use std::test::Fail;

/// The servers, in the order of the command line.
const NAMES: [&str; 3] = ["hq", "shop", "branch"];

/// The first text has a set from hq to shop. The second has a set from hq to branch, over the table
/// of the first text, and one from branch to hq.
pub const SCRIPT: &[u8] = b"load
|[[table]]
|server = 'hq'
|name = 'orders'
|columns = ['id int']
|key = ['id']
|fixed = ['id']
|[[registration]]
|server = 'hq'
|table = 'orders'
|[[set]]
|qual = 'q'
|name = 'to_shop'
|source = 'hq'
|target = 'shop'
|[[set.member]]
|source = 'orders'
|target = 'shop_copy'
|type = 'user_copy'
|columns = ['id = id']
load
|[[table]]
|server = 'branch'
|name = 'visits'
|columns = ['id int']
|key = ['id']
|fixed = ['id']
|[[registration]]
|server = 'branch'
|table = 'visits'
|[[set]]
|qual = 'q'
|name = 'to_branch'
|source = 'hq'
|target = 'branch'
|[[set.member]]
|source = 'orders'
|target = 'branch_copy'
|type = 'user_copy'
|columns = ['id = id']
|[[set]]
|qual = 'q'
|name = 'back'
|source = 'branch'
|target = 'hq'
|[[set.member]]
|source = 'visits'
|target = 'visits_copy'
|type = 'user_copy'
|columns = ['id = id']
status hq
status shop
status branch
";

/// The replies to the loads, if the servers hold nothing.
const ALL_NEW: &[u8] = b"ok loaded tables 1 registrations 1 sets 1
ok loaded tables 1 registrations 1 sets 2
";

/// The replies to the loads, if the servers hold both texts.
const NONE_NEW: &[u8] = b"ok loaded tables 0 registrations 0 sets 0
ok loaded tables 0 registrations 0 sets 0
";

/// The replies to the `status` of hq, of shop and of branch, once both texts are loaded.
const STATUSES: &[u8] = b"reg orders inactive 00000000000000000000
set q/to_shop mark 00000000000000000000 signal 00000000000000000000
set q/to_branch mark 00000000000000000000 signal 00000000000000000000
ok last 00000000000000000000 commit 00000000000000000000 time 0 \
captured 00000000000000000000 restart 00000000000000010000 floor 00000000000000000000
ok last 00000000000000000000 commit 00000000000000000000 time 0 \
captured 00000000000000000000 restart 00000000000000010000 floor 00000000000000000000
reg visits inactive 00000000000000000000
set q/back mark 00000000000000000000 signal 00000000000000000000
ok last 00000000000000000000 commit 00000000000000000000 time 0 \
captured 00000000000000000000 restart 00000000000000010000 floor 00000000000000000000
";

/// These replies to the loads, and the statuses.
fn with_statuses(alloc: Global, loads: &[u8]) -> Result<Vec<u8>, AllocError> {
    let mut bytes = Vec::from_slice(alloc, loads)?;
    bytes.extend_from_slice(STATUSES)?;
    Ok(bytes)
}

/// What follows the replies to the loads. These always have the same length, since each count has
/// one digit.
fn after_loads(output: &[u8]) -> &[u8] {
    if output.len() < ALL_NEW.len() {
        return b"";
    }
    &output[ALL_NEW.len()..]
}

/// Runs the script.
fn run_loads(
    alloc: Global,
    sites: &mut Sites<MapKeeper>,
) -> Result<(BytesSink, Status), AllocError> {
    run_at(alloc, "hq=:map: shop=:map: branch=:map:", sites, SCRIPT)
}

/// Lets a call of a server fail, and answers the servers that the run leaves, or `None` if it ended
/// before that call. What it wrote has to be a prefix of what a run without failure writes.
fn servers_after(
    rt: &impl Abort,
    alloc: Global,
    failure: Failure,
) -> Result<Option<Sites<MapKeeper>>, Fail> {
    let Failure { server, call, .. } = failure;
    let mut sites = new_servers(alloc, &NAMES, failure)?;
    let (output, status) = run_loads(alloc, &mut sites)?;
    let whole = with_statuses(alloc, ALL_NEW)?;
    if status == Status::Ok {
        assert_eq!(rt; output.bytes(), whole.as_slice());
        return Ok(None);
    }
    assert_eq!(rt;
        status,
        Status::KeeperFault(server),
        "at call {call} of {server}"
    );
    let is_prefix = whole.as_slice().starts_with(output.bytes());
    assert!(rt; is_prefix, "at call {call} of {server}");
    Ok(Some(sites))
}

/// Runs the script at servers that an earlier run left early, and then once more. The first of
/// these runs may find some of the definitions, and the second finds all of them.
fn check_next_runs(
    rt: &impl Abort,
    alloc: Global,
    mut sites: Sites<MapKeeper>,
) -> Result<(), Fail> {
    let (output, status) = run_loads(alloc, &mut sites)?;
    assert_eq!(rt; status, Status::Ok);
    assert_eq!(rt; after_loads(output.bytes()), STATUSES);

    let (output, status) = run_loads(alloc, &mut sites)?;
    assert_eq!(rt; status, Status::Ok);
    assert_eq!(rt; output.bytes(), with_statuses(alloc, NONE_NEW)?.as_slice());
    Ok(())
}

/// Lets each call of a server fail in a run of its own, until a run ends before the call, and
/// answers how many calls failed.
fn failing_calls(
    rt: &impl Abort,
    alloc: Global,
    server: u32,
    takes_place: bool,
) -> Result<u64, Fail> {
    for calls in 0..CALLS {
        let failure = Failure {
            server,
            call: calls + 1,
            takes_place,
        };
        match servers_after(rt, alloc, failure)? {
            Some(sites) => check_next_runs(rt, alloc, with_failure(alloc, &NAMES, sites, NONE)?)?,
            None => return Ok(calls),
        }
    }
    Ok(CALLS)
}

#[test]
fn a_failed_call_ends_the_run_and_the_next_run_makes_up_for_it(
    rt: HostRuntime,
) -> Result<(), Fail> {
    for (server, takes_place) in [
        (0, false),
        (0, true),
        (1, false),
        (1, true),
        (2, false),
        (2, true),
    ] {
        let calls = failing_calls(&rt, rt.alloc(), server, takes_place)?;
        assert!(rt; 10 < calls && calls < CALLS, "{calls} calls of {server}");
    }
    Ok(())
}
