//! A target is made the copy of its source at the source's last commit.

ghost use Rattle.std.specs.Prelude.{◌<◌, length, OnErr, IfOk, IfErr, IfSome};
ghost use Rattle.row_codec.specs.Spelling.{IsRow, key_spelling};
ghost use Rattle.site_store.specs.Records.{after_key};
ghost use Rattle.site_store.specs.Servers.{AllClosed};
ghost use Rattle.site_store.specs.Views.{names, work, sees, IsOpenAt, IsClosedAt};
ghost use Rattle.site_store.specs.one_server.Calls.{GoesOn, Stops, Breaks, FailsToWrite};
ghost use Rattle.set_places.specs.Places.{IsPlacedAtSource};
ghost use Rattle.set_places.specs.Reading.{ReadsOnly};
ghost use Rattle.set_places.specs.Targets.{target_number as target_number_lem};
ghost use Rattle.apply_copies.specs.Loading.{LoadsCopy};
ghost use Rattle.apply_copies.specs.Keys.{IsStoredKey, IsLaterKey};
ghost use Rattle.apply_copies.specs.Loading.{HasOnlyRows};
ghost use Rattle.apply_copies.specs.Copying.{CanBeCopied, no_area, LoadsRow, LoadsNext, LoadsAll};
ghost use Rattle.apply_copies.specs.Rules.{is_of_load, source_rules, ShowsDamage};

use crate::clearing::clear_rows;
use crate::rows::{is_selected, target_row};
use keep_core::Keeper;
use repl_definitions::{Member, SourceSet};
use repl_records::{CopyRow, SourceRow};
use repl_types::{Counts, Fault, ROW_LIMIT, Row};
use set_places::{PlacedSet, read_registration, target_number};
use site_store::Sites;
use std::alloc::Global;

/// Puts the row that a row of the source makes, if the member selects it, and answers how many rows
/// were put.
pub fn load_row<K: Keeper>(
    sites: &mut Sites<K>,
    alloc: Global,
    target: u32,
    number: u32,
    member: &Member,
    key: &Row,
    row: &Row,
) -> Result<u64, Fault>
    requires server { target < length (names sites.old) }
    requires open { IsOpenAt (work K.kept sites.old) target }
    requires key { IsStoredKey key.now }
    requires row { IsRow row.now }
    requires member { CanBeCopied member.now }
    ensures ok { IfOk result (λ put. GoesOn K.kept sites.old sites.new target
        (LoadsRow number member.now key.now row.now put)) }
    ensures fault { IfErr result (FailsToWrite K.kept sites.old sites.new) }
    ensures reads { ReadsOnly no_area K.kept sites.old sites.new }
{
    if !is_selected(member, row) {
        return Ok(0);
    }
    let copy = CopyRow {
        row: target_row(alloc, member, row)?,
    };
    sites.put::<CopyRow>(alloc, target, number, key, &copy)?;
    Ok(1)
}

/// Copies the first row of a table of the source after a key, or of all if that is `None`, and
/// answers its key and how many rows were put, or `None` if there is no such row.
fn load_next<K: Keeper>(
    sites: &mut Sites<K>,
    alloc: Global,
    set: &PlacedSet,
    number: u32,
    table: u32,
    member: &Member,
    last: Option<Row>,
) -> Result<Option<(Row, u64)>, Fault>
    requires source { set.now.source < length (names sites.old) }
    requires target { set.now.target < length (names sites.old) }
    requires open { IsOpenAt (work K.kept sites.old) set.now.target }
    requires member { CanBeCopied member.now }
    ensures ok { let saw = sees K.kept sites.old set.now.source in
        let after = after_key key_spelling last in
        IfOk result (λ next. GoesOn K.kept sites.old sites.new set.now.target
        (LoadsNext saw table number member.now after next)) }
    ensures rises { let after = after_key key_spelling last in
        IfOk result (λ next. IfSome next (λ n. IsLaterKey after n.0)) }
    ensures fault { IfErr result (Breaks source_rules K.kept sites.old sites.new set.now.source) }
    ensures reads { ReadsOnly is_of_load K.kept sites.old sites.new }
{
    let next = sites.next::<SourceRow>(alloc, set.source, table, last.as_ref())?;
    let Some((key, stored)) = next else {
        return Ok(None);
    };
    let put = load_row(sites, alloc, set.target, number, member, &key, &stored.row)?;
    Ok(Some((key, put)))
}

/// Copies the rows of a table of the source, and answers how many rows were put.
fn load_all<K: Keeper>(
    sites: &mut Sites<K>,
    alloc: Global,
    set: &PlacedSet,
    number: u32,
    table: u32,
    member: &Member,
) -> Result<u64, Fault>
    requires source { set.now.source < length (names sites.old) }
    requires target { set.now.target < length (names sites.old) }
    requires open { IsOpenAt (work K.kept sites.old) set.now.target }
    requires closed { IsClosedAt (work K.kept sites.old) set.now.source }
    requires member { CanBeCopied member.now }
    ensures ok { let saw = sees K.kept sites.old set.now.source in
        IfOk result (λ put. GoesOn K.kept sites.old sites.new set.now.target
        (LoadsAll saw table number member.now put)) }
    ensures fault { IfErr result (Breaks source_rules K.kept sites.old sites.new set.now.source) }
    ensures reads { ReadsOnly is_of_load K.kept sites.old sites.new }
{
    let mut rows: u64 = 0;
    let mut last = None;
    loop {
        let Some((key, put)) = load_next(sites, alloc, set, number, table, member, last)? else {
            return Ok(rows);
        };
        rows = rows.saturating_add(put);
        last = Some(key);
    }
}

/// Makes the target of a member the copy of its source, and answers how many rows it has then.
/// After a fault a transaction may be open.
fn load_member<K: Keeper>(
    sites: &mut Sites<K>,
    alloc: Global,
    set: &PlacedSet,
    member: u32,
) -> Result<u64, Fault>
    requires source { IsPlacedAtSource K.kept sites.old set.now }
    requires target { set.now.target < length (names sites.old) }
    requires member { member < length set.now.at_source.def.members }
    requires open { IsOpenAt (work K.kept sites.old) set.now.target }
    requires closed { IsClosedAt (work K.kept sites.old) set.now.source }
    ensures ok { IfOk result (λ rows. GoesOn K.kept sites.old sites.new set.now.target
        (LoadsCopy K.kept sites.old set.now member rows)) }
    ensures fault { let number = target_number_lem set.now.at_target.number member in
        IfErr result (Stops K.kept sites.old sites.new
        (ShowsDamage K.kept sites.old set.now number)) }
    ensures reads { ReadsOnly is_of_load K.kept sites.old sites.new }
{
    let reg = read_registration(sites, alloc, set, member)?;
    let own = &set.at_source.def.members.as_slice()[member as usize];
    if own.columns.as_slice().len() > ROW_LIMIT {
        // The registration that was read stands in the area that this fault blames.
        return Err(sites.unfit::<SourceSet>(alloc, set.source, &set.at_source));
    }
    let number = target_number(set, member);
    clear_rows(sites, alloc, set.target, number)?;
    let rows = load_all(sites, alloc, set, number, reg.number, own)?;
    Ok(rows)
}

/// Makes the target of a member of a set the copy of its source at the source's last commit, and
/// answers how many rows it has then.
///
/// A transaction is open at the target, and none at the source. It reads what the source holds, and
/// leaves the transaction open. After a fault no transaction is open at any server.
pub fn load_rows<K: Keeper>(
    sites: &mut Sites<K>,
    alloc: Global,
    set: &PlacedSet,
    member: u32,
) -> Result<Counts, Fault>
    requires source { IsPlacedAtSource K.kept sites.old set.now }
    requires target { set.now.target < length (names sites.old) }
    requires member { member < length set.now.at_source.def.members }
    requires open { IsOpenAt (work K.kept sites.old) set.now.target }
    requires closed { IsClosedAt (work K.kept sites.old) set.now.source }
    ensures ok { IfOk result (λ counts. GoesOn K.kept sites.old sites.new set.now.target
        (LoadsCopy K.kept sites.old set.now member counts.rows)) }
    ensures counts { IfOk result HasOnlyRows }
    ensures fault { let number = target_number_lem set.now.at_target.number member in
        IfErr result (Stops K.kept sites.old sites.new
        (ShowsDamage K.kept sites.old set.now number)) }
    ensures closed { OnErr result (AllClosed (work K.kept sites.new)) }
    ensures reads { ReadsOnly is_of_load K.kept sites.old sites.new }
{
    match load_member(sites, alloc, set, member) {
        Ok(rows) => Ok(Counts {
            rows,
            inserts: 0,
            updates: 0,
            deletes: 0,
        }),
        Err(e) => {
            sites.rollback_all();
            Err(e)
        }
    }
}
