//! Runs at servers of which one record is damaged or missing: it is reported, with its server and
//! its area, by each command that reads it, and nothing is answered as if it weren't there.

ghost use Rattle.keep_core.specs.Kept.{IsClosed};

use crate::runs::{NONE, hold, new_servers, run_at, server_with};
use keep_core::Keeper;
use keep_map::MapKeeper;
use repl_types::{Area, DamageCause, KEY_LIMIT, List, Status, VALUE_LIMIT};
use site_store::Sites;
use std::alloc::Global;
use std::process::Abort;
use std::test::Fail;

/// The servers, in the order of the command line, and their words.
const NAMES: [&str; 2] = ["hq", "shop"];

const WORDS: &str = "hq=:map: shop=:map:";

/// A table, its registration, and a set of one copy.
const LOAD: &[u8] = b"load
|[[table]]
|server = 'hq'
|name = 'orders'
|columns = ['id int', 'item text', 'qty int null']
|key = ['id']
|fixed = ['id']
|[[registration]]
|server = 'hq'
|table = 'orders'
|before = ['qty']
|[[set]]
|qual = 'q'
|name = 's'
|source = 'hq'
|target = 'shop'
|[[set.member]]
|source = 'orders'
|target = 'orders_copy'
|type = 'user_copy'
|columns = ['id = id', 'qty = qty']
|where = 'qty >= 10'
";

/// The set is applied, two units are fed, and the first of them is captured and applied.
const BEGIN: &[u8] = b"apply q s
feed hq
|insert 1 orders 1 'pen' 20
|insert 1 orders 2 'ink' 5
|commit 1 ann 100
capture hq
apply q s
feed hq
|update 2 orders 2 'ink' 5 -> 2 'ink' 12
|commit 2 bob 160
";

/// A record that is damaged: the first of a table of an area of a server, or the first after a key.
/// Its last byte is cut, or it is removed.
#[derive(Clone, Copy)]
struct Place {
    server: u32,
    area: Area,
    table: u32,
    after: &'static [u8],
    is_removed: bool,
}

/// The server, the area and the table of which the first record is cut, and a script that reads it.
const DAMAGES: [(u32, Area, u32, &[u8]); 16] = [
    (0, Area::Log, 0, b"show hq log\n"),
    (0, Area::Head, 0, b"feed hq\n|abort 9\n"),
    (0, Area::Head, 0, b"status hq\n"),
    (0, Area::Source, 0, b"show hq source orders\n"),
    (0, Area::Cd, 0, b"show hq cd orders\n"),
    (0, Area::Uow, 0, b"show hq uow\n"),
    (0, Area::Capture, 0, b"capture hq\n"),
    (0, Area::Capture, 0, b"apply q s\n"),
    (0, Area::Prune, 0, b"status q s\n"),
    (0, Area::Defs, 0, b"show hq source orders\n"),
    (0, Area::Defs, 0, LOAD),
    (0, Area::Defs, 1, LOAD),
    (1, Area::Defs, 3, LOAD),
    (1, Area::SetState, 0, b"apply q s\n"),
    (1, Area::SetState, 0, b"status q s\n"),
    (1, Area::Target, 0, b"show shop target orders_copy\n"),
];

/// Cuts a record of a keeper by its last byte, or removes it. Answers what is to be reported of it.
fn damage_record<K: Keeper>(
    alloc: Global,
    keeper: &mut K,
    place: Place,
) -> Result<DamageCause, Fail>
    requires { IsClosed (K.kept keeper.old) }
{
    let mut key = Vec::new(alloc);
    let mut value = Vec::new(alloc);
    keeper.next(place.area, place.table, place.after, &mut key, &mut value)?;
    if place.is_removed {
        keeper.begin()?;
        keeper.remove(place.area, place.table, &key)?;
        keeper.commit()?;
        return Ok(DamageCause::Absent(List::from_vec(key)));
    }
    value.pop();
    if key.is_empty() || key.len() > KEY_LIMIT || value.len() > VALUE_LIMIT {
        Err("there is no record to cut")?;
    }
    hold(keeper, place.area, place.table, &key, &value)?;
    Ok(DamageCause::Spelling(List::from_vec(value)))
}

/// Servers with the same keepers, of which a record is damaged, and what is to be reported of it.
fn with_damage(
    alloc: Global,
    sites: Sites<MapKeeper>,
    place: Place,
) -> Result<(Option<DamageCause>, Sites<MapKeeper>), Fail> {
    let mut cause = None;
    let mut list = List::new(alloc);
    let sites = sites.into_list().into_vec();
    for (server, (name, site)) in NAMES.iter().zip(sites).enumerate() {
        let mut keeper = site.into_keeper();
        keeper.rollback();
        if server == place.server as usize {
            cause = Some(damage_record(alloc, &mut keeper, place)?);
        }
        list.push(server_with(alloc, name, keeper)?)?;
    }
    Ok((cause, Sites::new(list)?))
}

/// Servers at which the definitions are loaded and a script has run.
fn servers_after(rt: &impl Abort, alloc: Global, script: &[u8]) -> Result<Sites<MapKeeper>, Fail> {
    let mut sites = new_servers(alloc, &NAMES, NONE)?;
    for part in [LOAD, script] {
        let (_output, status) = run_at(alloc, WORDS, &mut sites, part)?;
        assert_eq!(rt; status, Status::Ok);
    }
    Ok(sites)
}

/// Damages a record at servers at which a script has run, and checks that another, which reads it,
/// ends with that and writes nothing.
fn check_damage(
    rt: &impl Abort,
    alloc: Global,
    first: &[u8],
    place: Place,
    script: &[u8],
) -> Result<(), Fail> {
    let sites = servers_after(rt, alloc, first)?;
    let (cause, mut sites) = with_damage(alloc, sites, place)?;
    let (output, status) = run_at(alloc, WORDS, &mut sites, script)?;
    let wanted = cause.map(|cause| Status::Damaged(place.server, place.area, cause));
    assert_eq!(rt; Some(status), wanted);
    assert!(rt; output.bytes().is_empty());
    Ok(())
}

#[test]
fn a_damaged_record_ends_each_command_that_reads_it(rt: HostRuntime) -> Result<(), Fail> {
    for (server, area, table, script) in DAMAGES {
        let place = Place {
            server,
            area,
            table,
            after: b"",
            is_removed: false,
        };
        check_damage(&rt, rt.alloc(), BEGIN, place, script)?;
    }
    Ok(())
}

/// The state of the registration.
const STATE: Place = Place {
    server: 0,
    area: Area::Capture,
    table: 1,
    after: b"",
    is_removed: true,
};

#[test]
fn a_state_that_is_missing_is_damage(rt: HostRuntime) -> Result<(), Fail> {
    check_damage(&rt, rt.alloc(), BEGIN, STATE, b"status hq\n")
}

/// Two units that aren't captured yet.
const UNCAPTURED: &[u8] = b"apply q s
feed hq
|insert 1 orders 1 'pen' 20
|insert 1 orders 2 'ink' 5
|commit 1 ann 100
|update 2 orders 2 'ink' 5 -> 2 'ink' 12
|update 2 orders 1 'pen' 20 -> 1 'pen' 9
|commit 2 bob 160
";

/// The record of the first insert, at the position 3.
const FIRST_INSERT: Place = Place {
    server: 0,
    area: Area::Log,
    table: 0,
    after: b"\0\0\0\0\0\0\0\x02",
    is_removed: false,
};

/// What is left of its 38 bytes: the transaction 1, the table, and the row but for its last byte.
const LEFT_OF_INSERT: &[u8] = b"\x11\0\0\0\x01\x06orders\0\x03\
\x01\x80\0\0\0\0\0\0\x01\
\x02pen\0\0\
\x01\x80\0\0\0\0\0\0";

#[test]
fn a_cut_log_record_is_reported_by_a_capture_with_its_bytes(rt: HostRuntime) -> Result<(), Fail> {
    let alloc = rt.alloc();
    let sites = servers_after(&rt, alloc, UNCAPTURED)?;
    let (_cause, mut sites) = with_damage(alloc, sites, FIRST_INSERT)?;
    let (_output, status) = run_at(alloc, WORDS, &mut sites, b"capture hq\n")?;
    let left = List::from_vec(Vec::from_slice(alloc, LEFT_OF_INSERT)?);
    let wanted = Status::Damaged(0, Area::Log, DamageCause::Spelling(left));
    assert_eq!(rt; status, wanted);
    Ok(())
}
