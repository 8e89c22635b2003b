//! Where a block ends.

ghost use Rattle.std.specs.Prelude.{◌≡◌, ◌<◌, ◌≤◌, OnOk, OnErr, IfOk, IfErr, IfSome};
ghost use Rattle.repl_model.specs.Trails.{synchpoint};
ghost use Rattle.site_store.specs.Servers.{AllClosed};
ghost use Rattle.site_store.specs.Views.{work};
ghost use Rattle.site_store.specs.one_server.Calls.{Looks, Breaks};
ghost use Rattle.set_places.specs.Places.{IsPlacedAtSource};
ghost use Rattle.set_places.specs.Members.{ForSource};
ghost use Rattle.set_places.specs.Reading.{ReadsOnly};
ghost use Rattle.subs_sets.specs.Cuts.{block_end as block_end_lem, is_until as is_until_lem};
ghost use Rattle.subs_sets.specs.Cuts.{captured_after, captured_until, first_unit};
ghost use Rattle.subs_sets.specs.Cuts.{is_within_limits, time_from};
ghost use Rattle.subs_sets.specs.Rules.{is_read, source_rules};

use keep_core::Keeper;
use repl_definitions::SetDef;
use repl_records::UowRow;
use repl_types::Fault;
use row_codec::Table0;
use set_places::PlacedSet;
use site_store::Sites;
use std::alloc::Global;

/// How many seconds a minute has.
const MINUTE: u64 = 60;

/// Whether the unit with a number, counted from 1, at a time is within the limits of a set on one
/// block whose first unit is at another time. A limit of 0 is none.
fn is_within(def: &SetDef, first: u64, number: u64, time: u64) -> bool
    ensures { result ≡ is_within_limits def.now first number time }
{
    let count = u64::from(def.commit_count);
    let minutes = u64::from(def.max_minutes);
    let is_counted = count == 0 || number <= count;
    let is_early = minutes == 0 || time <= first.saturating_add(MINUTE * minutes);
    is_counted && is_early
}

/// The seq and the time of the first captured unit after a point, if there is one.
fn next_unit<K: Keeper>(
    sites: &mut Sites<K>,
    alloc: Global,
    set: &PlacedSet,
    point: u64,
) -> Result<Option<(u64, u64)>, Fault>
    requires placed { IsPlacedAtSource K.kept sites.old set.now }
    ensures ok { OnOk result (Looks K.kept sites.old sites.new) }
    ensures unit { IfOk result (λ found. ForSource K.kept sites.old set.now (λ w k.
        found ≡ first_unit (captured_after point k.source))) }
    ensures rises { IfOk result (λ found. IfSome found (λ unit. point < unit.0)) }
    ensures fault { IfErr result (Breaks source_rules K.kept sites.old sites.new set.now.source) }
    ensures reads { ReadsOnly is_read K.kept sites.old sites.new }
{
    let next = sites.next::<UowRow>(alloc, set.source, Table0, Some(&point))?;
    let Some((seq, row)) = next else {
        return Ok(None);
    };
    Ok(Some((seq, row.time)))
}

/// The time in seconds of the first captured unit from a seq on, 0 if there is none.
///
/// After a fault no transaction is open at any server.
pub fn unit_time<K: Keeper>(
    sites: &mut Sites<K>,
    alloc: Global,
    set: &PlacedSet,
    seq: u64,
) -> Result<u64, Fault>
    requires placed { IsPlacedAtSource K.kept sites.old set.now }
    ensures ok { OnOk result (Looks K.kept sites.old sites.new) }
    ensures time { IfOk result (λ time. ForSource K.kept sites.old set.now (λ w k.
        time ≡ time_from seq k.source)) }
    ensures fault { IfErr result (Breaks source_rules K.kept sites.old sites.new set.now.source) }
    ensures closed { OnErr result (AllClosed (work K.kept sites.new)) }
    ensures reads { ReadsOnly is_read K.kept sites.old sites.new }
{
    match next_unit(sites, alloc, set, seq.saturating_sub(1)) {
        Ok(Some((_seq, time))) => Ok(time),
        Ok(None) => Ok(0),
        Err(e) => {
            sites.rollback_all();
            Err(e)
        }
    }
}

/// Whether a time is up to an end, if there is one. Both are in seconds.
fn is_until(end: Option<u64>, time: u64) -> bool
    ensures { result ≡ is_until_lem end time }
{
    match end {
        Some(end) => time <= end,
        None => true,
    }
}

/// The seq and the time of the first captured unit after a point, if it is up to an end.
fn next_until<K: Keeper>(
    sites: &mut Sites<K>,
    alloc: Global,
    set: &PlacedSet,
    point: u64,
    end: Option<u64>,
) -> Result<Option<(u64, u64)>, Fault>
    requires placed { IsPlacedAtSource K.kept sites.old set.now }
    ensures ok { OnOk result (Looks K.kept sites.old sites.new) }
    ensures unit { IfOk result (λ found. ForSource K.kept sites.old set.now (λ w k.
        found ≡ first_unit (captured_until end point k.source))) }
    ensures rises { IfOk result (λ found. IfSome found (λ unit. point < unit.0)) }
    ensures fault { IfErr result (Breaks source_rules K.kept sites.old sites.new set.now.source) }
    ensures reads { ReadsOnly is_read K.kept sites.old sites.new }
{
    let next = next_unit(sites, alloc, set, point)?;
    let Some((seq, time)) = next else {
        return Ok(None);
    };
    if !is_until(end, time) {
        return Ok(None);
    }
    Ok(Some((seq, time)))
}

/// The seq at which the block of a set after a point ends, if its units are those up to an end, a
/// time in seconds: of the captured units after the point, that of the last one which one block
/// takes. It takes at least one. If there is no such unit, there is no answer.
pub fn block_end<K: Keeper>(
    sites: &mut Sites<K>,
    alloc: Global,
    set: &PlacedSet,
    point: u64,
    end: Option<u64>,
) -> Result<Option<u64>, Fault>
    requires placed { IsPlacedAtSource K.kept sites.old set.now }
    ensures ok { OnOk result (Looks K.kept sites.old sites.new) }
    ensures cut { IfOk result (λ cut. ForSource K.kept sites.old set.now (λ w k.
        point ≡ synchpoint k.at_target.trail → k.source.floor ≤ point
        → cut ≡ block_end_lem end k)) }
    ensures fault { IfErr result (Breaks source_rules K.kept sites.old sites.new set.now.source) }
    ensures reads { ReadsOnly is_read K.kept sites.old sites.new }
{
    let first = next_until(sites, alloc, set, point, end)?;
    let Some((mut cut, time)) = first else {
        return Ok(None);
    };
    let mut number: u64 = 1;
    loop {
        let next = next_until(sites, alloc, set, cut, end)?;
        let Some((seq, later)) = next else {
            return Ok(Some(cut));
        };
        number = number.saturating_add(1);
        if !is_within(&set.at_source.def, time, number, later) {
            return Ok(Some(cut));
        }
        cut = seq;
    }
}
