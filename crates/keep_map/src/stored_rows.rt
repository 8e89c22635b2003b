//! The rows of a keeper, with the changes of its open transaction.

ghost use Rattle.std.specs.Prelude.{◌≡◌, Some, None, IfOk, OnOk, OnErr, if◌then◌else◌};
ghost use Rattle.repl_types.specs.Sizes.{IsKeySize, IsValueSize};
ghost use Rattle.keep_core.specs.Contents.{nothing, put_at};
ghost use Rattle.keep_core.specs.Kept.{Found, NextIs, WasThere, GivesValue, GivesNext};
ghost use Rattle.keep_map.specs.Apart.{AreDisjoint};
ghost use Rattle.keep_map.specs.Places.{contents_of};
ghost use Rattle.keep_map.specs.Tables.{tables_of};

use crate::scattered_rows::ScatteredRows;
use crate::slot::Slot;
use crate::table_id::TableId;
use crate::table_runs::TableRuns;
use repl_types::Area;
use std::alloc::{AllocError, Global};

/// The rows of all tables: a run of rising keys for each table, and the rows whose keys came out of
/// order, of all tables together. No key has a row in both.
#[derive(Debug, Drop)]
pub struct StoredRows {
    runs: TableRuns,
    others: ScatteredRows,
    ghost disjoint: { AreDisjoint (tables_of runs.map) others.map },
}

impl StoredRows {
    ghost use Rattle.keep_map.specs.Merged.{values_seen, values_held};

    /// No rows. It allocates nothing.
    pub fn new(alloc: Global) -> StoredRows
        ensures seen { values_seen result ≡ (λ _. None) }
        ensures held { values_held result ≡ (λ _. None) }
    {
        let runs = TableRuns::new(alloc);
        let others = ScatteredRows::new(alloc);
        StoredRows { runs, others }
    }

    /// Answers whether a value is seen at the key, and puts it in `out`, which is empty if none is.
    /// Unless the table has rows out of order, only `out` takes memory.
    pub fn get(
        &mut self,
        alloc: Global,
        area: Area,
        table: u32,
        key: &[u8],
        out: &mut Vec<u8>,
    ) -> Result<bool, AllocError>
        ensures found { IfOk result (λ found. Found area table key.now found out.new.items
            (contents_of (values_seen self.old))) }
        ensures gives { IfOk result (λ found. GivesValue found out.new.items) }
        ensures seen { values_seen self.new ≡ values_seen self.old }
        ensures held { values_held self.new ≡ values_held self.old }
    {
        out.clear();
        let id = TableId::new(area, table);
        let answer = self.runs.get(id, key, out)?;
        if answer.found {
            return Ok(true);
        }
        if !answer.has_more {
            return Ok(false);
        }
        self.others.get(alloc, area, table, key, out)
    }

    /// Answers whether a value is seen at some key of the table above `after`, and puts the least
    /// such key in `key` and its value in `out`. Unless the table has rows out of order, only `key`
    /// and `out` take memory.
    pub fn next(
        &mut self,
        alloc: Global,
        area: Area,
        table: u32,
        after: &[u8],
        key: &mut Vec<u8>,
        out: &mut Vec<u8>,
    ) -> Result<bool, AllocError>
        ensures found { IfOk result (λ found. NextIs area table after.now found key.new.items
            out.new.items (contents_of (values_seen self.old))) }
        ensures gives { IfOk result (λ found. GivesNext after.now found key.new.items
            out.new.items) }
        ensures seen { values_seen self.new ≡ values_seen self.old }
        ensures held { values_held self.new ≡ values_held self.old }
    {
        key.clear();
        out.clear();
        let id = TableId::new(area, table);
        let answer = self.runs.next(id, after, key, out)?;
        if !answer.has_more {
            return Ok(answer.found);
        }
        let slot = Slot::new(alloc, area, table, after)?;
        self.others.next(slot, answer.found, key, out)
    }

    /// Sets the value that the transaction sees at the key. Even after an error the rows hold what
    /// they held.
    pub fn put(
        &mut self,
        alloc: Global,
        area: Area,
        table: u32,
        key: &[u8],
        value: &[u8],
    ) -> Result<(), AllocError>
        requires key { IsKeySize key.now }
        requires value { IsValueSize value.now }
        ensures ok { OnOk result (contents_of (values_seen self.new)
            ≡ put_at (contents_of (values_seen self.old)) area table key.now (Some value.now)) }
        ensures held { values_held self.new ≡ values_held self.old }
    {
        let id = TableId::new(area, table);
        let in_run = self.runs.put(alloc, id, &self.others, key, value)?;
        if in_run {
            return Ok(());
        }
        self.others.put(alloc, area, table, key, value)
    }

    /// Removes the value that the transaction sees at the key, and answers whether there was one.
    /// Even after an error the rows hold what they held.
    pub fn remove(
        &mut self,
        alloc: Global,
        area: Area,
        table: u32,
        key: &[u8],
    ) -> Result<bool, AllocError>
        ensures ok { OnOk result (contents_of (values_seen self.new)
            ≡ put_at (contents_of (values_seen self.old)) area table key.now None) }
        ensures found { IfOk result (λ found. WasThere area table key.now found
            (contents_of (values_seen self.old))) }
        ensures held { values_held self.new ≡ values_held self.old }
    {
        let id = TableId::new(area, table);
        let answer = self.runs.remove(alloc, id, key)?;
        if answer.found {
            return Ok(true);
        }
        if !answer.has_more {
            return Ok(false);
        }
        self.others.remove(alloc, area, table, key)
    }

    /// Ends the transaction. If it is kept, the rows hold what it saw, else what they held before.
    /// This allocates nothing and takes time by the rows that the transaction changed.
    pub fn settle(&mut self, keep: bool)
        ensures seen { values_seen self.new
            ≡ (if keep then values_seen self.old else values_held self.old) }
        ensures held { values_held self.new ≡ values_seen self.new }
    {
        self.runs.settle(keep);
        self.others.settle(keep);
    }
}
