//! The runs of all tables, with the changes of the open transaction.

ghost use Rattle.std.specs.Prelude.{◌≡◌, [], Some, None, true, false, IfOk, OnOk, OnErr, is_some};
ghost use Rattle.std.specs.Prelude.{if◌then◌else◌};
ghost use Rattle.repl_types.specs.Sizes.{IsKeySize, IsValueSize};
ghost use Rattle.keep_core.specs.Kept.{GivesValue, GivesNext};
ghost use Rattle.keep_core.specs.Contents.{set_key};
ghost use Rattle.keep_map.specs.Places.{put_value};
ghost use Rattle.keep_map.specs.Next.{IsNext};
ghost use Rattle.keep_map.specs.Put.{RunPuts, RunsPut};
ghost use Rattle.keep_map.specs.Tables.{id_of, tables_of, seen_in_run, runs_seen};
ghost use Rattle.keep_map.specs.Tables.{no_rows, RunBecomes, RunsBecome, AreTouched, OnlyChanges};
ghost use Rattle.keep_map.specs.Tables.{IsNamed, RunSettles, RunsSettle};

use crate::scattered_rows::ScatteredRows;
use crate::table_id::TableId;
use crate::table_run::{Answer, TableRun};
use std::alloc::{AllocError, Global};
use std::collections::BTreeMap;

/// A run for each table that ever had a row, and the tables whose runs the open transaction
/// changed.
#[derive(Debug, Drop)]
pub struct TableRuns {
    map: BTreeMap<TableId, TableRun>,
    touched: Vec<TableId>,
    ghost sound: { AreTouched touched.items (tables_of map) },
}

impl TableRuns {
    /// No runs. It allocates nothing.
    pub fn new(alloc: Global) -> TableRuns
        ensures { tables_of result.map ≡ (λ _. no_rows) }
    {
        TableRuns {
            map: BTreeMap::new(alloc),
            touched: Vec::new(alloc),
        }
    }

    /// Answers whether a value is seen at the key in the table's run, and appends it to `out`.
    pub fn get(&mut self, id: TableId, key: &[u8], out: &mut Vec<u8>) -> Result<Answer, AllocError>
        requires { out.old.items ≡ [] }
        ensures found { IfOk result (λ a. seen_in_run (tables_of self.old.map (id_of id)) key.now
            ≡ (if a.found then Some out.new.items else None)) }
        ensures gives { IfOk result (λ a. GivesValue a.found out.new.items) }
        ensures more { IfOk result (λ a. a.has_more
            ≡ (tables_of self.old.map (id_of id)).has_more) }
        ensures same { tables_of self.new.map ≡ tables_of self.old.map }
    {
        get_in(&mut self.map, &id, key, out)
    }

    /// Answers whether a value is seen at some key above `after` in the table's run, and appends
    /// the least such key to `key` and its value to `out`.
    pub fn next(
        &mut self,
        id: TableId,
        after: &[u8],
        key: &mut Vec<u8>,
        out: &mut Vec<u8>,
    ) -> Result<Answer, AllocError>
        requires key { key.old.items ≡ [] }
        requires out { out.old.items ≡ [] }
        ensures found { IfOk result (λ a.
            IsNext (seen_in_run (tables_of self.old.map (id_of id))) after.now a.found
            key.new.items out.new.items) }
        ensures gives { IfOk result (λ a. GivesNext after.now a.found key.new.items
            out.new.items) }
        ensures more { IfOk result (λ a. a.has_more
            ≡ (tables_of self.old.map (id_of id)).has_more) }
        ensures same { tables_of self.new.map ≡ tables_of self.old.map }
    {
        next_in(&mut self.map, &id, after, key, out)
    }

    /// Sets the value that the transaction sees at the key, and answers true, if the key has a
    /// place in the table's run. A key at which `others` has a row has none. Even after an error
    /// the rows are as before.
    pub fn put(
        &mut self,
        alloc: Global,
        id: TableId,
        others: &ScatteredRows,
        key: &[u8],
        value: &[u8],
    ) -> Result<bool, AllocError>
        requires key { IsKeySize key.now }
        requires value { IsValueSize value.now }
        ensures ok { IfOk result (RunsPut (id_of id) key.now value.now others.now.map
            (tables_of self.old.map) (tables_of self.new.map)) }
        ensures err { OnErr result (RunsBecome (runs_seen (tables_of self.old.map))
            (tables_of self.old.map) (tables_of self.new.map)) }
    {
        put_in(
            &mut self.map,
            &mut self.touched,
            alloc,
            id,
            others,
            key,
            value,
        )
    }

    /// Removes the value that the transaction sees at the key in the table's run, and answers
    /// whether there was one. Even after an error the rows are as before.
    pub fn remove(&mut self, alloc: Global, id: TableId, key: &[u8]) -> Result<Answer, AllocError>
        ensures ok { OnOk result (RunsBecome (put_value (runs_seen (tables_of self.old.map))
            (id.area, id.table, key.now) None) (tables_of self.old.map)
            (tables_of self.new.map)) }
        ensures found { IfOk result (λ a. is_some (seen_in_run (tables_of self.old.map (id_of id))
            key.now) ≡ a.found) }
        ensures more { IfOk result (λ a. a.has_more
            ≡ (tables_of self.old.map (id_of id)).has_more) }
        ensures err { OnErr result (RunsBecome (runs_seen (tables_of self.old.map))
            (tables_of self.old.map) (tables_of self.new.map)) }
    {
        remove_in(&mut self.map, &mut self.touched, alloc, &id, key)
    }

    /// Ends the transaction. If it is kept, the rows are those that it saw, else those from before.
    /// This allocates nothing and takes time by the rows that the transaction changed.
    pub fn settle(&mut self, keep: bool)
        ensures { RunsSettle keep (tables_of self.old.map) (tables_of self.new.map) }
    {
        while let Some(id) = self.touched.pop() {
            settle_in(&mut self.map, &id, keep);
        }
    }
}

/// What `TableRuns::get` does in the map.
fn get_in(
    map: &mut BTreeMap<TableId, TableRun>,
    id: &TableId,
    key: &[u8],
    out: &mut Vec<u8>,
) -> Result<Answer, AllocError>
    requires { out.old.items ≡ [] }
    ensures found { IfOk result (λ a. seen_in_run (tables_of map.old (id_of id.now)) key.now
        ≡ (if a.found then Some out.new.items else None)) }
    ensures gives { IfOk result (λ a. GivesValue a.found out.new.items) }
    ensures more { IfOk result (λ a. a.has_more ≡ (tables_of map.old (id_of id.now)).has_more) }
    ensures same { tables_of map.new ≡ tables_of map.old }
{
    match map.get_mut(id) {
        Some(table) => table.get(key, out),
        None => Ok(Answer::none()),
    }
}

/// What `TableRuns::next` does in the map.
fn next_in(
    map: &mut BTreeMap<TableId, TableRun>,
    id: &TableId,
    after: &[u8],
    key: &mut Vec<u8>,
    out: &mut Vec<u8>,
) -> Result<Answer, AllocError>
    requires key { key.old.items ≡ [] }
    requires out { out.old.items ≡ [] }
    ensures found { IfOk result (λ a.
        IsNext (seen_in_run (tables_of map.old (id_of id.now))) after.now a.found
        key.new.items out.new.items) }
    ensures gives { IfOk result (λ a. GivesNext after.now a.found key.new.items out.new.items) }
    ensures more { IfOk result (λ a. a.has_more ≡ (tables_of map.old (id_of id.now)).has_more) }
    ensures same { tables_of map.new ≡ tables_of map.old }
{
    match map.get_mut(id) {
        Some(table) => table.next(after, key, out),
        None => Ok(Answer::none()),
    }
}

/// What `TableRuns::put` does in the map and the list of tables.
fn put_in(
    map: &mut BTreeMap<TableId, TableRun>,
    touched: &mut Vec<TableId>,
    alloc: Global,
    id: TableId,
    others: &ScatteredRows,
    key: &[u8],
    value: &[u8],
) -> Result<bool, AllocError>
    requires key { IsKeySize key.now }
    requires value { IsValueSize value.now }
    ensures ok { IfOk result (RunPuts (id_of id) key.now value.now others.now.map
        (tables_of map.old (id_of id)) (tables_of map.new (id_of id))) }
    ensures err { OnErr result (RunBecomes (seen_in_run (tables_of map.old (id_of id)))
        (tables_of map.old (id_of id)) (tables_of map.new (id_of id))) }
    ensures others { OnlyChanges (id_of id) (tables_of map.old) (tables_of map.new) }
    ensures touched { IsNamed id touched.old.items touched.new.items
        (tables_of map.old (id_of id)) (tables_of map.new (id_of id)) }
{
    let table = map.entry(id)?.or_insert(TableRun::new(alloc));
    table.put(alloc, id, touched, others, key, value)
}

/// What `TableRuns::remove` does in the map and the list of tables.
fn remove_in(
    map: &mut BTreeMap<TableId, TableRun>,
    touched: &mut Vec<TableId>,
    alloc: Global,
    id: &TableId,
    key: &[u8],
) -> Result<Answer, AllocError>
    ensures ok { OnOk result (RunBecomes (set_key (seen_in_run (tables_of map.old (id_of id.now)))
        key.now None) (tables_of map.old (id_of id.now)) (tables_of map.new (id_of id.now))) }
    ensures found { IfOk result (λ a. is_some (seen_in_run (tables_of map.old (id_of id.now))
        key.now) ≡ a.found) }
    ensures more { IfOk result (λ a. a.has_more ≡ (tables_of map.old (id_of id.now)).has_more) }
    ensures err { OnErr result (RunBecomes (seen_in_run (tables_of map.old (id_of id.now)))
        (tables_of map.old (id_of id.now)) (tables_of map.new (id_of id.now))) }
    ensures others { OnlyChanges (id_of id.now) (tables_of map.old) (tables_of map.new) }
    ensures touched { IsNamed id.now touched.old.items touched.new.items
        (tables_of map.old (id_of id.now)) (tables_of map.new (id_of id.now)) }
{
    match map.get_mut(id) {
        Some(table) => table.remove(alloc, *id, touched, key),
        None => Ok(Answer::none()),
    }
}

/// Ends the transaction in one table's run.
fn settle_in(map: &mut BTreeMap<TableId, TableRun>, id: &TableId, keep: bool)
    ensures here { RunSettles keep (tables_of map.old (id_of id.now))
        (tables_of map.new (id_of id.now)) }
    ensures others { OnlyChanges (id_of id.now) (tables_of map.old) (tables_of map.new) }
{
    if let Some(table) = map.get_mut(id) {
        table.settle(keep);
    }
}
