//! States of registrations, captured units and change rows are read.

ghost use Rattle.std.specs.Prelude.{◌≡◌, ◌<◌, length, OnOk, IfOk, IfErr, IfSome};
ghost use Rattle.repl_types.specs.declared.area.Area.TheVariants as areas;
ghost use Rattle.repl_records.specs.Capture.{IsRegistrationState};
ghost use Rattle.repl_records.specs.RecordKeys.{IsChangeKey};
ghost use Rattle.site_store.specs.Views.{names, sees};
ghost use Rattle.site_store.specs.one_server.Calls.{Looks, Breaks};
ghost use Rattle.cd_tables.specs.Reading.{ReadsOnlyIn};
ghost use Rattle.cd_tables.specs.StoredRows.{HasRegistrationNumbered, row_rules};
ghost use Rattle.cd_tables.specs.StoredRows.{head_of as head_of_lem, change_of as change_of_lem};
ghost use Rattle.cd_tables.specs.Finding.{HasStateAt, FindsUnit, IsUnitAbove};
ghost use Rattle.cd_tables.specs.Finding.{FindsChange, IsChangeFrom};

use keep_core::Keeper;
use repl_records::{CdKey, ChangeRow, RegState, UowRow};
use repl_types::{CdRow, Fault, UnitHead};
use row_codec::{Table0, Table1};
use site_store::Sites;
use std::alloc::Global;

/// The state of the registration with a number. It is damage if the state of a registration that
/// stands there is missing.
///
/// It reads what the server's open transaction sees, and if none is open, what the server holds.
pub fn reg_state<K: Keeper>(
    sites: &mut Sites<K>,
    alloc: Global,
    server: u32,
    reg: u32,
) -> Result<RegState, Fault>
    requires server { server < length (names sites.old) }
    requires registered { IfSome (sees K.kept sites.old server) (HasRegistrationNumbered reg) }
    ensures ok { OnOk result (Looks K.kept sites.old sites.new) }
    ensures state { IfOk result (λ state. IfSome (sees K.kept sites.old server)
        (HasStateAt reg state)) }
    ensures fits { IfOk result IsRegistrationState }
    ensures fault { IfErr result (Breaks row_rules K.kept sites.old sites.new server) }
    ensures reads { ReadsOnlyIn areas.Capture K.kept sites.old sites.new }
{
    let state = sites.get_needed::<RegState>(alloc, server, Table1, &reg)?;
    Ok(state)
}

/// What the row of a unit says of it.
fn head_of(seq: u64, row: UowRow) -> UnitHead
    ensures { result ≡ head_of_lem (seq, row) }
{
    let UowRow {
        time,
        authid,
        origin,
        code,
    } = row;
    UnitHead {
        seq,
        time,
        authid,
        origin,
        code,
    }
}

/// The first captured unit above a seq, with the code that is shown for it, if there is one.
///
/// It reads what the server's open transaction sees, and if none is open, what the server holds.
pub fn next_unit<K: Keeper>(
    sites: &mut Sites<K>,
    alloc: Global,
    server: u32,
    after: u64,
) -> Result<Option<UnitHead>, Fault>
    requires { server < length (names sites.old) }
    ensures ok { OnOk result (Looks K.kept sites.old sites.new) }
    ensures found { IfOk result (λ found. IfSome (sees K.kept sites.old server)
        (FindsUnit after found)) }
    ensures above { IfOk result (λ found. IfSome found (IsUnitAbove after)) }
    ensures fault { IfErr result (Breaks row_rules K.kept sites.old sites.new server) }
    ensures reads { ReadsOnlyIn areas.Uow K.kept sites.old sites.new }
{
    let next = sites.next::<UowRow>(alloc, server, Table0, Some(&after))?;
    let Some((seq, row)) = next else {
        return Ok(None);
    };
    Ok(Some(head_of(seq, row)))
}

/// Each key has a spelling, since its numbers have as many bytes.
fn key_fits(key: CdKey)
    ensures { IsChangeKey key }
{
    let CdKey {
        commitseq: _seq,
        intentseq: _place,
    } = key;
}

/// A stored change row with its key as a change row.
fn change_of(key: CdKey, row: ChangeRow) -> CdRow
    ensures { result ≡ change_of_lem (key, row) }
{
    let ChangeRow { op, after, before } = row;
    CdRow {
        commitseq: key.commitseq,
        intentseq: key.intentseq,
        op,
        after,
        before,
    }
}

/// The first change row of the registration with a number after a key, if it is of a unit up to a
/// seq.
///
/// It reads what the server's open transaction sees, and if none is open, what the server holds.
pub fn next_change<K: Keeper>(
    sites: &mut Sites<K>,
    alloc: Global,
    server: u32,
    reg: u32,
    after: CdKey,
    upto: u64,
) -> Result<Option<CdRow>, Fault>
    requires { server < length (names sites.old) }
    ensures ok { OnOk result (Looks K.kept sites.old sites.new) }
    ensures found { IfOk result (λ found. IfSome (sees K.kept sites.old server)
        (FindsChange reg after upto found)) }
    ensures from { IfOk result (λ found. IfSome found (IsChangeFrom after upto)) }
    ensures fault { IfErr result (Breaks row_rules K.kept sites.old sites.new server) }
    ensures reads { ReadsOnlyIn areas.Cd K.kept sites.old sites.new }
{
    key_fits(after);
    let next = sites.next::<ChangeRow>(alloc, server, reg, Some(&after))?;
    let Some((key, row)) = next else {
        return Ok(None);
    };
    if upto < key.commitseq {
        return Ok(None);
    }
    Ok(Some(change_of(key, row)))
}
