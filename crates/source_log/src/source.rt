//! The tables of the source: whether a change applies, and making it and taking it back.

ghost use Rattle.std.specs.Prelude.{◌≡◌, ◌<◌, ℕ, List, Some, None, length, OnOk, IfOk, IfErr};
ghost use Rattle.std.specs.Prelude.{IfSome};
ghost use Rattle.repl_types.specs.declared.record.Change.TheVariants.{Insert, Update, Delete};
ghost use Rattle.repl_types.specs.declared.area.Area.TheVariants as areas;
ghost use Rattle.keep_core.specs.Contents.{put_at};
ghost use Rattle.row_codec.specs.Spelling.{IsRow, key_spelling, row_spelling};
ghost use Rattle.repl_model.specs.Tables.{key_of as key_of_lem, is_row as is_row_lem, inverse};
ghost use Rattle.site_store.specs.Views.{names, work, sees, IsOpenAt};
ghost use Rattle.site_store.specs.one_server.Calls.{Looks, GoesOn, Breaks, FailsToWrite};
ghost use Rattle.stored_commits.specs.records.SourceReads.{values_read};
ghost use Rattle.source_log.specs.Fitting.{RowMayStand, CanBeMade};
ghost use Rattle.source_log.specs.Making.{Tells, with_made};
ghost use Rattle.source_log.specs.Reading.{FindsRow, HasFreeKey};
ghost use Rattle.source_log.specs.Rules.{rules};

use keep_core::Keeper;
use repl_definitions::DefinedTable;
use repl_records::SourceRow;
use repl_types::{Change, Fault, Row};
use row_changes::{key_of, same_values};
use site_store::Sites;
use std::alloc::{AllocError, Global};

/// Whether what was found is this row.
fn is_row(row: &Row, found: &Option<SourceRow>) -> bool
    ensures { result ≡ is_row_lem row.now (values_read found.now) }
{
    match found {
        Some(stored) => same_values(&stored.row, row),
        None => false,
    }
}

/// A copy of a row, as it is stored.
fn stored_row(row: &Row) -> Result<SourceRow, AllocError>
    ensures { IfOk result (λ stored. stored.row ≡ row.now) }
{
    Ok(SourceRow { row: row.clone()? })
}

/// The row of a table at a key, if there is one.
fn find_row<K: Keeper>(
    sites: &mut Sites<K>,
    alloc: Global,
    server: u32,
    table: u32,
    key: &Row,
) -> Result<Option<SourceRow>, Fault>
    requires server { server < length (names sites.old) }
    ensures ok { OnOk result (Looks K.kept sites.old sites.new) }
    ensures row { IfOk result (λ found. IfSome (sees K.kept sites.old server)
        (FindsRow table key.now found)) }
    ensures fault { IfErr result (Breaks rules K.kept sites.old sites.new server) }
{
    let found = sites.get::<SourceRow>(alloc, server, table, key)?;
    Ok(found)
}

/// Puts a row into a table, under its key.
fn put_row<K: Keeper>(
    sites: &mut Sites<K>,
    alloc: Global,
    server: u32,
    table: &DefinedTable,
    row: &Row,
) -> Result<(), Fault>
    requires server { server < length (names sites.old) }
    requires open { IsOpenAt (work K.kept sites.old) server }
    requires row { RowMayStand table.now.def row.now }
    ensures ok { OnOk result (GoesOn K.kept sites.old sites.new server
        (λ c d. d ≡ put_at c areas.Source table.now.number
        (key_spelling (key_of_lem table.now.def row.now)) (Some (row_spelling row.now)))) }
    ensures fault { IfErr result (FailsToWrite K.kept sites.old sites.new) }
{
    let key = key_of(alloc, &table.def, row)?;
    let stored = stored_row(row)?;
    sites.put::<SourceRow>(alloc, server, table.number, &key, &stored)?;
    Ok(())
}

/// Removes what a table has at the key of a row.
fn remove_row<K: Keeper>(
    sites: &mut Sites<K>,
    alloc: Global,
    server: u32,
    table: &DefinedTable,
    row: &Row,
) -> Result<(), Fault>
    requires server { server < length (names sites.old) }
    requires open { IsOpenAt (work K.kept sites.old) server }
    ensures ok { OnOk result (GoesOn K.kept sites.old sites.new server
        (λ c d. d ≡ put_at c areas.Source table.now.number
        (key_spelling (key_of_lem table.now.def row.now)) None)) }
    ensures fault { IfErr result (FailsToWrite K.kept sites.old sites.new) }
{
    let key = key_of(alloc, &table.def, row)?;
    sites.remove::<SourceRow>(alloc, server, table.number, &key)?;
    Ok(())
}

/// Puts a row in the place of another.
fn replace_row<K: Keeper>(
    sites: &mut Sites<K>,
    alloc: Global,
    server: u32,
    table: &DefinedTable,
    gone: &Row,
    row: &Row,
) -> Result<(), Fault>
    requires server { server < length (names sites.old) }
    requires open { IsOpenAt (work K.kept sites.old) server }
    requires row { RowMayStand table.now.def row.now }
    ensures ok { OnOk result (GoesOn K.kept sites.old sites.new server
        (λ c d. d ≡ put_at (put_at c areas.Source table.now.number
        (key_spelling (key_of_lem table.now.def gone.now)) None) areas.Source table.now.number
        (key_spelling (key_of_lem table.now.def row.now)) (Some (row_spelling row.now)))) }
    ensures fault { IfErr result (FailsToWrite K.kept sites.old sites.new) }
{
    remove_row(sites, alloc, server, table, gone)?;
    put_row(sites, alloc, server, table, row)?;
    Ok(())
}

/// Makes a change at its table.
pub fn make_change<K: Keeper>(
    sites: &mut Sites<K>,
    alloc: Global,
    server: u32,
    table: &DefinedTable,
    change: &Change,
) -> Result<(), Fault>
    requires server { server < length (names sites.old) }
    requires open { IsOpenAt (work K.kept sites.old) server }
    requires can { CanBeMade table.now.def change.now }
    ensures ok { OnOk result (GoesOn K.kept sites.old sites.new server
        (λ c d. d ≡ with_made table.now change.now c)) }
    ensures fault { IfErr result (FailsToWrite K.kept sites.old sites.new) }
{
    match change {
        Change::Insert { row, .. } => put_row(sites, alloc, server, table, row),
        Change::Update { before, after, .. } => {
            replace_row(sites, alloc, server, table, before, after)
        }
        Change::Delete { row, .. } => remove_row(sites, alloc, server, table, row),
        Change::Start { .. } | Change::Stop { .. } => Ok(()),
    }
}

/// Takes a change back that was made at its table.
pub fn unmake_change<K: Keeper>(
    sites: &mut Sites<K>,
    alloc: Global,
    server: u32,
    table: &DefinedTable,
    change: &Change,
) -> Result<(), Fault>
    requires server { server < length (names sites.old) }
    requires open { IsOpenAt (work K.kept sites.old) server }
    requires can { CanBeMade table.now.def change.now }
    ensures ok { OnOk result (GoesOn K.kept sites.old sites.new server
        (λ c d. d ≡ with_made table.now (inverse change.now) c)) }
    ensures fault { IfErr result (FailsToWrite K.kept sites.old sites.new) }
{
    match change {
        Change::Insert { row, .. } => remove_row(sites, alloc, server, table, row),
        Change::Update { before, after, .. } => {
            replace_row(sites, alloc, server, table, after, before)
        }
        Change::Delete { row, .. } => put_row(sites, alloc, server, table, row),
        Change::Start { .. } | Change::Stop { .. } => Ok(()),
    }
}

/// Whether an insert of a row applies.
fn insert_applies<K: Keeper>(
    sites: &mut Sites<K>,
    alloc: Global,
    server: u32,
    table: &DefinedTable,
    row: &Row,
) -> Result<bool, Fault>
    requires server { server < length (names sites.old) }
    requires values { IsRow row.now }
    ensures ok { OnOk result (Looks K.kept sites.old sites.new) }
    ensures tells { IfOk result (λ answer. IfSome (sees K.kept sites.old server)
        (λ c. (name : List ℕ) → Tells table.now (Insert name row.now) answer c)) }
    ensures fault { IfErr result (Breaks rules K.kept sites.old sites.new server) }
{
    let key = key_of(alloc, &table.def, row)?;
    let found = find_row(sites, alloc, server, table.number, &key)?;
    Ok(found.is_none())
}

/// Whether a delete of a row applies.
fn delete_applies<K: Keeper>(
    sites: &mut Sites<K>,
    alloc: Global,
    server: u32,
    table: &DefinedTable,
    row: &Row,
) -> Result<bool, Fault>
    requires server { server < length (names sites.old) }
    requires values { IsRow row.now }
    ensures ok { OnOk result (Looks K.kept sites.old sites.new) }
    ensures tells { IfOk result (λ answer. IfSome (sees K.kept sites.old server)
        (λ c. (name : List ℕ) → Tells table.now (Delete name row.now) answer c)) }
    ensures fault { IfErr result (Breaks rules K.kept sites.old sites.new server) }
{
    let key = key_of(alloc, &table.def, row)?;
    let found = find_row(sites, alloc, server, table.number, &key)?;
    Ok(is_row(row, &found))
}

/// Whether the key of the after-image of an update is free, or that of the before-image, which is
/// in the table.
fn key_is_free<K: Keeper>(
    sites: &mut Sites<K>,
    alloc: Global,
    server: u32,
    table: &DefinedTable,
    old_key: &Row,
    after: &Row,
) -> Result<bool, Fault>
    requires server { server < length (names sites.old) }
    ensures ok { OnOk result (Looks K.kept sites.old sites.new) }
    ensures free { IfOk result (λ answer. IfSome (sees K.kept sites.old server)
        (HasFreeKey table.now old_key.now after.now answer)) }
    ensures fault { IfErr result (Breaks rules K.kept sites.old sites.new server) }
{
    let new_key = key_of(alloc, &table.def, after)?;
    if same_values(old_key, &new_key) {
        return Ok(true);
    }
    let other = find_row(sites, alloc, server, table.number, &new_key)?;
    Ok(other.is_none())
}

/// Whether an update applies.
fn update_applies<K: Keeper>(
    sites: &mut Sites<K>,
    alloc: Global,
    server: u32,
    table: &DefinedTable,
    before: &Row,
    after: &Row,
) -> Result<bool, Fault>
    requires server { server < length (names sites.old) }
    requires values { IsRow before.now }
    requires after { IsRow after.now }
    ensures ok { OnOk result (Looks K.kept sites.old sites.new) }
    ensures tells { IfOk result (λ answer. IfSome (sees K.kept sites.old server)
        (λ c. (name : List ℕ) → Tells table.now (Update name before.now after.now) answer c)) }
    ensures fault { IfErr result (Breaks rules K.kept sites.old sites.new server) }
{
    let old_key = key_of(alloc, &table.def, before)?;
    let found = find_row(sites, alloc, server, table.number, &old_key)?;
    if !is_row(before, &found) {
        return Ok(false);
    }
    let free = key_is_free(sites, alloc, server, table, &old_key, after)?;
    Ok(free)
}

/// Whether a change applies at its table.
pub fn change_applies<K: Keeper>(
    sites: &mut Sites<K>,
    alloc: Global,
    server: u32,
    table: &DefinedTable,
    change: &Change,
) -> Result<bool, Fault>
    requires server { server < length (names sites.old) }
    requires can { CanBeMade table.now.def change.now }
    ensures ok { OnOk result (Looks K.kept sites.old sites.new) }
    ensures tells { IfOk result (λ answer. IfSome (sees K.kept sites.old server)
        (Tells table.now change.now answer)) }
    ensures fault { IfErr result (Breaks rules K.kept sites.old sites.new server) }
{
    match change {
        Change::Insert { row, .. } => insert_applies(sites, alloc, server, table, row),
        Change::Update { before, after, .. } => {
            update_applies(sites, alloc, server, table, before, after)
        }
        Change::Delete { row, .. } => delete_applies(sites, alloc, server, table, row),
        Change::Start { .. } | Change::Stop { .. } => Ok(true),
    }
}
