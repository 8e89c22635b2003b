//! A target takes one change row.

ghost use Rattle.std.specs.Prelude.{◌≡◌, ◌<◌, true, length, IsTrue, OnOk, IfErr};
ghost use Rattle.repl_types.specs.declared.change_row.Op.TheVariants.{U};
ghost use Rattle.row_codec.specs.Spelling.{IsRow};
ghost use Rattle.repl_model.specs.Selection.{imaged_row as imaged_row_lem};
ghost use Rattle.repl_model.specs.Selection.{is_selected as is_selected_lem};
ghost use Rattle.site_store.specs.Views.{names, work, IsOpenAt};
ghost use Rattle.site_store.specs.one_server.Calls.{GoesOn, FailsToWrite};
ghost use Rattle.set_places.specs.Reading.{ReadsOnly};
ghost use Rattle.stored_commits.specs.copies.ChangedCopies.{key_after};
ghost use Rattle.apply_copies.specs.Changing.{source_as, RemovesBefore, TakesRow};
ghost use Rattle.apply_copies.specs.Copying.{CanBeCopied, no_area};
ghost use Rattle.apply_copies.specs.Keys.{IsStoredKey};

use crate::images::key_before;
use crate::loading::load_row;
use crate::rows::is_selected;
use crate::source::Source;
use keep_core::Keeper;
use repl_definitions::Member;
use repl_records::CopyRow;
use repl_types::{CdRow, Fault, Op, Row};
use row_changes::same_values;
use site_store::Sites;
use std::alloc::Global;

/// Whether the row from after an update replaces the one from before: its key is the same, and the
/// member selects it.
fn replaces(member: &Member, before: &Row, key: &Row, row: &Row) -> bool
    ensures same { IsTrue result → before.now ≡ key.now }
    ensures selected { IsTrue result → is_selected_lem member.now row.now ≡ true }
{
    same_values(before, key) && is_selected(member, row)
}

/// Removes the row from before an update, unless the row from after it replaces it.
fn remove_before<K: Keeper>(
    sites: &mut Sites<K>,
    alloc: Global,
    target: u32,
    number: u32,
    member: &Member,
    before: &Row,
    key: &Row,
    row: &Row,
) -> Result<(), Fault>
    requires server { target < length (names sites.old) }
    requires open { IsOpenAt (work K.kept sites.old) target }
    ensures ok { OnOk result (GoesOn K.kept sites.old sites.new target
        (RemovesBefore number member.now before.now key.now row.now)) }
    ensures fault { IfErr result (FailsToWrite K.kept sites.old sites.new) }
    ensures reads { ReadsOnly no_area K.kept sites.old sites.new }
{
    if replaces(member, before, key, row) {
        return Ok(());
    }
    sites.remove::<CopyRow>(alloc, target, number, before)?;
    Ok(())
}

/// Removes the row from before an update, and puts the one from after it, if the member selects
/// that.
fn update_row<K: Keeper>(
    sites: &mut Sites<K>,
    alloc: Global,
    target: u32,
    number: u32,
    source: &Source,
    member: &Member,
    change: &CdRow,
    key: &Row,
    row: &Row,
) -> Result<(), Fault>
    requires server { target < length (names sites.old) }
    requires open { IsOpenAt (work K.kept sites.old) target }
    requires key { IsStoredKey key.now }
    requires row { IsRow row.now }
    requires member { CanBeCopied member.now }
    requires own { key.now ≡ key_after (source_as source.now) change.now }
    requires image { row.now ≡ imaged_row_lem (source_as source.now) change.now }
    requires op { change.now.op ≡ U }
    ensures ok { OnOk result (GoesOn K.kept sites.old sites.new target
        (TakesRow number (source_as source.now) member.now change.now)) }
    ensures fault { IfErr result (FailsToWrite K.kept sites.old sites.new) }
    ensures reads { ReadsOnly no_area K.kept sites.old sites.new }
{
    let before = key_before(alloc, &source.table.def, &source.reg.registration, change)?;
    remove_before(sites, alloc, target, number, member, &before, key, row)?;
    load_row(sites, alloc, target, number, member, key, row)?;
    Ok(())
}

/// Puts and removes rows of the target as a change row says, of which this is the row with its key.
pub fn take_row<K: Keeper>(
    sites: &mut Sites<K>,
    alloc: Global,
    target: u32,
    number: u32,
    source: &Source,
    member: &Member,
    change: &CdRow,
    key: &Row,
    row: &Row,
) -> Result<(), Fault>
    requires server { target < length (names sites.old) }
    requires open { IsOpenAt (work K.kept sites.old) target }
    requires key { IsStoredKey key.now }
    requires row { IsRow row.now }
    requires member { CanBeCopied member.now }
    requires own { key.now ≡ key_after (source_as source.now) change.now }
    requires image { row.now ≡ imaged_row_lem (source_as source.now) change.now }
    ensures ok { OnOk result (GoesOn K.kept sites.old sites.new target
        (TakesRow number (source_as source.now) member.now change.now)) }
    ensures fault { IfErr result (FailsToWrite K.kept sites.old sites.new) }
    ensures reads { ReadsOnly no_area K.kept sites.old sites.new }
{
    match change.op {
        Op::I => {
            load_row(sites, alloc, target, number, member, key, row)?;
            Ok(())
        }
        Op::U => {
            update_row(
                sites, alloc, target, number, source, member, change, key, row,
            )
        }
        Op::D => {
            sites.remove::<CopyRow>(alloc, target, number, key)?;
            Ok(())
        }
    }
}
