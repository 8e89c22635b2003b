//! Servers of which a call fails, and all that they hold.

use crate::servers::{HQ, servers_with};
use keep_core::Keeper;
use keep_map::MapKeeper;
use repl_types::{Area, List};
use site_store::Sites;
use std::alloc::Global;
use std::test::Fail;

/// The areas of a server.
const AREAS: [Area; 13] = [
    Area::Log,
    Area::Source,
    Area::Inflight,
    Area::Head,
    Area::Defs,
    Area::Cd,
    Area::Uow,
    Area::Capture,
    Area::Prune,
    Area::Spill,
    Area::Target,
    Area::SetState,
    Area::Trail,
];

/// As many tables as an area has here, or more.
const TABLES: u8 = 4;

/// More rows than a table has here.
const ROWS: u32 = 20;

/// The keepers of hq and shop.
fn keepers_of(sites: Sites<MapKeeper>) -> Result<(MapKeeper, MapKeeper), Fail> {
    let mut list = sites.into_list().into_vec();
    let Some(shop) = list.pop() else {
        return Err(Fail::new("no servers"));
    };
    let Some(hq) = list.pop() else {
        return Err(Fail::new("one server"));
    };
    Ok((hq.into_keeper(), shop.into_keeper()))
}

/// The same keeper, of which the call of this number fails from now on; 0 is the number of none.
fn failing(
    alloc: Global,
    mut keeper: MapKeeper,
    call: u64,
    takes_place: bool,
) -> Result<MapKeeper, Fail> {
    keeper.fail_at(List::from_vec(vec![in alloc; call]?));
    keeper.doubt_new(takes_place);
    Ok(keeper)
}

/// The numbers of the calls that fail at hq and at shop.
fn failing_calls(server: u32, call: u64) -> (u64, u64) {
    if server == HQ { (call, 0) } else { (0, call) }
}

/// The servers with the same keepers, where the call of this number fails at one of them from now
/// on; if it is a commit, it may take place nevertheless.
pub fn failing_at(
    alloc: Global,
    sites: Sites<MapKeeper>,
    server: u32,
    call: u64,
    takes_place: bool,
) -> Result<Sites<MapKeeper>, Fail> {
    let (at_hq, at_shop) = failing_calls(server, call);
    let (hq, shop) = keepers_of(sites)?;
    let hq = failing(alloc, hq, at_hq, takes_place)?;
    let shop = failing(alloc, shop, at_shop, takes_place)?;
    servers_with(alloc, hq, shop)
}

/// Adds the keys and values of a table, each after the numbers of its area and table.
fn add_table<K: Keeper>(
    alloc: Global,
    keeper: &mut K,
    area: Area,
    table: u8,
    held: &mut Vec<u8>,
) -> Result<(), Fail> {
    let mut last = Vec::new(alloc);
    let mut key = Vec::new(alloc);
    let mut value = Vec::new(alloc);
    for _ in 0..ROWS {
        if !keeper.next(
            area,
            u32::from(table),
            last.as_slice(),
            &mut key,
            &mut value,
        )? {
            break;
        }
        held.extend_from_slice(&[area.number(), table])?;
        held.extend_from_slice(key.as_slice())?;
        held.extend_from_slice(value.as_slice())?;
        last = key.clone()?;
    }
    Ok(())
}

/// Adds all that a keeper holds.
fn add_keeper<K: Keeper>(alloc: Global, keeper: &mut K, held: &mut Vec<u8>) -> Result<(), Fail> {
    for area in AREAS {
        for table in 0..TABLES {
            add_table(alloc, keeper, area, table, held)?;
        }
    }
    Ok(())
}

/// The servers with the same keepers, of which no call fails any more. Adds all that they hold.
pub fn settled(
    alloc: Global,
    sites: Sites<MapKeeper>,
    held: &mut Vec<u8>,
) -> Result<Sites<MapKeeper>, Fail> {
    let (mut hq, mut shop) = keepers_of(sites)?;
    hq.fail_at(List::new(alloc));
    shop.fail_at(List::new(alloc));
    add_keeper(alloc, &mut hq, held)?;
    add_keeper(alloc, &mut shop, held)?;
    servers_with(alloc, hq, shop)
}
