//! Change rows are dropped, and codes of units are shown.

ghost use Rattle.std.specs.Prelude.{◌<◌, ◌≤◌, length, OnOk, IfOk, IfErr, IfSome};
ghost use Rattle.repl_types.specs.declared.area.Area.TheVariants as areas;
ghost use Rattle.repl_records.specs.RecordKeys.{change_key_spelling};
ghost use Rattle.site_store.specs.Records.{after_key};
ghost use Rattle.site_store.specs.Views.{names, work, sees, IsOpenAt};
ghost use Rattle.site_store.specs.one_server.Calls.{GoesOn, Breaks};
ghost use Rattle.cd_tables.specs.Reading.{ReadsOnlyIn};
ghost use Rattle.cd_tables.specs.StoredRows.{HasUnit, row_rules};
ghost use Rattle.cd_tables.specs.Dropping.{DropsNext, IsDropped, DropsUpto, SetsCode};

use keep_core::Keeper;
use repl_records::{CdKey, ChangeRow, UowRow};
use repl_types::Fault;
use row_codec::Table0;
use site_store::Sites;
use std::alloc::Global;

/// Removes the first change row after a key, or of all if that is `None`, if it is of a unit up to
/// a floor. It answers the row's key, or `None` if there is no such row.
fn drop_next<K: Keeper>(
    sites: &mut Sites<K>,
    alloc: Global,
    server: u32,
    reg: u32,
    last: Option<CdKey>,
    floor: u64,
) -> Result<Option<CdKey>, Fault>
    requires server { server < length (names sites.old) }
    requires open { IsOpenAt (work K.kept sites.old) server }
    ensures ok { let after = after_key change_key_spelling last in
        IfOk result (λ next. GoesOn K.kept sites.old sites.new server
        (DropsNext reg floor after next)) }
    ensures rises { let after = after_key change_key_spelling last in
        IfOk result (λ next. IfSome next (IsDropped floor after)) }
    ensures fault { IfErr result (Breaks row_rules K.kept sites.old sites.new server) }
    ensures reads { ReadsOnlyIn areas.Cd K.kept sites.old sites.new }
{
    let row = sites.next::<ChangeRow>(alloc, server, reg, last.as_ref())?;
    let Some((key, _row)) = row else {
        return Ok(None);
    };
    if floor < key.commitseq {
        return Ok(None);
    }
    sites.remove::<ChangeRow>(alloc, server, reg, &key)?;
    Ok(Some(key))
}

/// Removes the change rows of the registration with a number that are of units up to a floor,
/// inside the transaction that is open at the server, and answers how many there were. A count that
/// would pass the greatest number stays there. After a fault each server holds what it held, and
/// the transaction may still be open.
pub fn drop_upto<K: Keeper>(
    sites: &mut Sites<K>,
    alloc: Global,
    server: u32,
    reg: u32,
    floor: u64,
) -> Result<u64, Fault>
    requires server { server < length (names sites.old) }
    requires open { IsOpenAt (work K.kept sites.old) server }
    ensures ok { IfOk result (λ count. GoesOn K.kept sites.old sites.new server
        (DropsUpto reg floor count)) }
    ensures fault { IfErr result (Breaks row_rules K.kept sites.old sites.new server) }
    ensures reads { ReadsOnlyIn areas.Cd K.kept sites.old sites.new }
{
    let mut last = None;
    let mut count: u64 = 0;
    loop {
        let Some(key) = drop_next(sites, alloc, server, reg, last, floor)? else {
            return Ok(count);
        };
        last = Some(key);
        count = count.saturating_add(1);
    }
}

/// The row of the unit with a seq, which is captured, shows this code. After a fault each server
/// holds what it held, and the transaction may still be open.
pub fn set_code<K: Keeper>(
    sites: &mut Sites<K>,
    alloc: Global,
    server: u32,
    seq: u64,
    code: u8,
) -> Result<(), Fault>
    requires server { server < length (names sites.old) }
    requires open { IsOpenAt (work K.kept sites.old) server }
    requires unit { IfSome (sees K.kept sites.old server) (HasUnit seq) }
    requires code { code ≤ 4 }
    ensures ok { OnOk result (GoesOn K.kept sites.old sites.new server (SetsCode seq code)) }
    ensures fault { IfErr result (Breaks row_rules K.kept sites.old sites.new server) }
    ensures reads { ReadsOnlyIn areas.Uow K.kept sites.old sites.new }
{
    let mut row = sites.get_needed::<UowRow>(alloc, server, Table0, &seq)?;
    row.code = code;
    sites.put::<UowRow>(alloc, server, Table0, &seq, &row)?;
    Ok(())
}
