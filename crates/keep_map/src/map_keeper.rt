//! A keeper that holds its contents in memory.

ghost use Rattle.std.specs.Prelude.{◌≡◌, ◌≤◌, false, []};
ghost use Rattle.keep_map.specs.Merged.{values_seen, values_held};
ghost use Rattle.keep_map.specs.Planned.{fails_next, after_call};

use crate::area_counts::AreaCounts;
use crate::plan::Plan;
use crate::stored_rows::StoredRows;
use keep_core::{KeepError, Keeper};
use repl_types::{Area, List};
use std::alloc::Global;

/// Contents in memory, with a plan of the calls that fail, and counts of the reads and of the
/// writes of each area. Every call but `rollback` counts for the plan, whatever it answers.
///
/// `begin`, `commit` and `rollback` allocate nothing. The other calls answer `Memory` if memory
/// runs out.
#[derive(Debug, Drop)]
pub struct MapKeeper {
    alloc: Global,
    rows: StoredRows,
    is_open: bool,
    plan: Plan,
    doubt_takes: bool,
    reads: AreaCounts,
    writes: AreaCounts,
    ghost idle: { is_open ≡ false → values_held rows ≡ values_seen rows },
}

impl MapKeeper {
    ghost use Rattle.std.specs.Prelude.{◌≡◌, false, IsTrue, if◌then◌else◌};
    ghost use Rattle.keep_core.specs.Kept.{IsOpen, closed_with, committed};
    ghost use Rattle.keep_map.specs.Planned.{planned_anew};
    ghost use Rattle.keep_map.specs.Keepers.{IsNew, kept_of};

    /// A keeper that holds nothing, with no transaction open and no call to fail. This allocates
    /// nothing.
    pub fn new(alloc: Global) -> MapKeeper
        ensures { IsNew result }
    {
        let rows = StoredRows::new(alloc);
        let plan = Plan::new(alloc);
        let reads = AreaCounts::new();
        let writes = AreaCounts::new();
        MapKeeper {
            alloc,
            rows,
            is_open: false,
            plan,
            doubt_takes: false,
            reads,
            writes,
        }
    }

    /// Plans which of the next calls of `begin`, `get`, `next`, `put`, `remove` and `commit` fail,
    /// by their numbers from 1. This allocates nothing.
    pub fn fail_at(&mut self, calls: List<u64>)
        ensures kept { kept_of self.new ≡ kept_of self.old }
        ensures plan { self.new.plan ≡ planned_anew self.old.plan calls }
        ensures doubt { self.new.doubt_takes ≡ self.old.doubt_takes }
    {
        self.plan.fail_at(calls);
    }

    /// Says whether a commit that fails from now on takes place nevertheless. Until this is called,
    /// none does.
    pub fn doubt_new(&mut self, taken: bool)
        ensures kept { kept_of self.new ≡ kept_of self.old }
        ensures plan { self.new.plan ≡ self.old.plan }
        ensures doubt { self.new.doubt_takes ≡ taken }
    {
        self.doubt_takes = taken;
    }

    /// How often an area was read, by `get` and by `next`.
    pub fn read_count(&self, area: Area) -> u64
        ensures { result ≡ (kept_of self.now).reads area }
    {
        self.reads.get(area)
    }

    /// How often an area was written, by `put` and by `remove`.
    pub fn write_count(&self, area: Area) -> u64
        ensures { result ≡ (kept_of self.now).writes area }
    {
        self.writes.get(area)
    }

    /// Ends the transaction. If it is kept, the keeper holds what it saw, else what it held before.
    fn close(&mut self, keep: bool)
        requires { IsTrue keep → IsOpen (kept_of self.old) }
        ensures kept { kept_of self.new ≡ closed_with
            (if keep then committed (kept_of self.old) else kept_of self.old)
            (kept_of self.old).faults }
        ensures plan { self.new.plan ≡ self.old.plan }
        ensures doubt { self.new.doubt_takes ≡ self.old.doubt_takes }
    {
        self.rows.settle(keep);
        self.is_open = false;
    }
}

impl Keeper for MapKeeper {
    ghost use Rattle.std.specs.Prelude.{◌≡◌, ◌≢◌, ◌↔◌, IsTrue, IfOk, OnOk, IfErr, IfSome};
    ghost use Rattle.std.specs.Prelude.{if◌then◌else◌};
    ghost use Rattle.repl_types.specs.Sizes.{IsKeySize, IsValueSize};
    ghost use Rattle.keep_core.specs.Kept.{IsOpen, IsClosed, opened, closed_with, committed};
    ghost use Rattle.keep_core.specs.Kept.{after_read, after_write, after_put, after_remove, seen};
    ghost use Rattle.keep_core.specs.Kept.{CallFails, CommitFails, Closes, Found, NextIs, WasThere};
    ghost use Rattle.keep_core.specs.Kept.{GivesValue, GivesNext};
    ghost use Rattle.keep_map.specs.Planned.{fails_next};
    ghost use Rattle.keep_map.specs.Keepers.{kept_of, CallIsCounted};

    ghost kept = { kept_of };

    /// This allocates nothing.
    fn begin(&mut self) -> Result<(), KeepError>
        requires { IsClosed (kept_of self.old) }
        ensures planned { (result ≡ Err KeepError.Failed) ↔ IsTrue (fails_next self.old.plan) }
        ensures memory { result ≢ Err KeepError.Memory }
        ensures counted { CallIsCounted self.old self.new }

        // What every keeper ensures.
        ensures ok { OnOk result (kept_of self.new ≡ opened (kept_of self.old)) }
        ensures err { IfErr result (CallFails (kept_of self.old) (kept_of self.new)) }
    {
        if call_fails(&mut self.plan) {
            return Err(KeepError::Failed);
        }
        self.is_open = true;
        Ok(())
    }

    fn get(
        &mut self,
        area: Area,
        table: u32,
        key: &[u8],
        out: &mut Vec<u8>,
    ) -> Result<bool, KeepError>
        ensures planned { (result ≡ Err KeepError.Failed) ↔ IsTrue (fails_next self.old.plan) }
        ensures counted { CallIsCounted self.old self.new }

        // What every keeper ensures.
        ensures ok { OnOk result (kept_of self.new ≡ after_read (kept_of self.old) area) }
        ensures found { IfOk result (λ found. IfSome (seen (kept_of self.old))
            (Found area table key.now found out.new.items)) }
        ensures gives { IfOk result (λ found. GivesValue found out.new.items) }
        ensures err { IfErr result (CallFails (after_read (kept_of self.old) area)
            (kept_of self.new)) }
    {
        self.reads.bump(area);
        if call_fails(&mut self.plan) {
            self.rollback();
            return Err(KeepError::Failed);
        }
        match self.rows.get(self.alloc, area, table, key, out) {
            Ok(found) => Ok(found),
            Err(_) => {
                self.rollback();
                Err(KeepError::Memory)
            }
        }
    }

    fn next(
        &mut self,
        area: Area,
        table: u32,
        after: &[u8],
        key: &mut Vec<u8>,
        out: &mut Vec<u8>,
    ) -> Result<bool, KeepError>
        ensures planned { (result ≡ Err KeepError.Failed) ↔ IsTrue (fails_next self.old.plan) }
        ensures counted { CallIsCounted self.old self.new }

        // What every keeper ensures.
        ensures ok { OnOk result (kept_of self.new ≡ after_read (kept_of self.old) area) }
        ensures found { IfOk result (λ found. IfSome (seen (kept_of self.old))
            (NextIs area table after.now found key.new.items out.new.items)) }
        ensures gives { IfOk result (λ found. GivesNext after.now found key.new.items
            out.new.items) }
        ensures err { IfErr result (CallFails (after_read (kept_of self.old) area)
            (kept_of self.new)) }
    {
        self.reads.bump(area);
        if call_fails(&mut self.plan) {
            self.rollback();
            return Err(KeepError::Failed);
        }
        match self.rows.next(self.alloc, area, table, after, key, out) {
            Ok(found) => Ok(found),
            Err(_) => {
                self.rollback();
                Err(KeepError::Memory)
            }
        }
    }

    fn put(&mut self, area: Area, table: u32, key: &[u8], value: &[u8]) -> Result<(), KeepError>
        requires open { IsOpen (kept_of self.old) }
        requires key { IsKeySize key.now }
        requires value { IsValueSize value.now }
        ensures planned { (result ≡ Err KeepError.Failed) ↔ IsTrue (fails_next self.old.plan) }
        ensures counted { CallIsCounted self.old self.new }

        // What every keeper ensures.
        ensures ok { OnOk result (kept_of self.new
            ≡ after_put (kept_of self.old) area table key.now value.now) }
        ensures err { IfErr result (CallFails (after_write (kept_of self.old) area)
            (kept_of self.new)) }
    {
        self.writes.bump(area);
        if call_fails(&mut self.plan) {
            self.rollback();
            return Err(KeepError::Failed);
        }
        match self.rows.put(self.alloc, area, table, key, value) {
            Ok(()) => Ok(()),
            Err(_) => {
                self.rollback();
                Err(KeepError::Memory)
            }
        }
    }

    fn remove(&mut self, area: Area, table: u32, key: &[u8]) -> Result<bool, KeepError>
        requires { IsOpen (kept_of self.old) }
        ensures planned { (result ≡ Err KeepError.Failed) ↔ IsTrue (fails_next self.old.plan) }
        ensures counted { CallIsCounted self.old self.new }

        // What every keeper ensures.
        ensures ok { OnOk result (kept_of self.new
            ≡ after_remove (kept_of self.old) area table key.now) }
        ensures found { IfOk result (λ found. IfSome (seen (kept_of self.old))
            (WasThere area table key.now found)) }
        ensures err { IfErr result (CallFails (after_write (kept_of self.old) area)
            (kept_of self.new)) }
    {
        self.writes.bump(area);
        if call_fails(&mut self.plan) {
            self.rollback();
            return Err(KeepError::Failed);
        }
        match self.rows.remove(self.alloc, area, table, key) {
            Ok(found) => Ok(found),
            Err(_) => {
                self.rollback();
                Err(KeepError::Memory)
            }
        }
    }

    /// This allocates nothing and takes time by the rows that the transaction changed. If it fails,
    /// it takes place nevertheless if `doubt_new` last said so.
    fn commit(&mut self) -> Result<(), KeepError>
        requires { IsOpen (kept_of self.old) }
        ensures planned { (result ≡ Err KeepError.Failed) ↔ IsTrue (fails_next self.old.plan) }
        ensures memory { result ≢ Err KeepError.Memory }
        ensures counted { CallIsCounted self.old self.new }
        ensures doubt { result ≡ Err KeepError.Failed
            → kept_of self.new
            ≡ closed_with (if self.old.doubt_takes then committed
            (kept_of self.old) else kept_of self.old) (kept_of self.new).faults }

        // What every keeper ensures.
        ensures ok { OnOk result (kept_of self.new ≡ committed (kept_of self.old)) }
        ensures err { IfErr result (CommitFails (kept_of self.old) (kept_of self.new)) }
    {
        if call_fails(&mut self.plan) {
            self.close(self.doubt_takes);
            return Err(KeepError::Failed);
        }
        self.close(true);
        Ok(())
    }

    /// This allocates nothing and takes time by the rows that the transaction changed. It never
    /// fails.
    fn rollback(&mut self)
        ensures kept { kept_of self.new ≡ closed_with (kept_of self.old) (kept_of self.old).faults }
        ensures plan { self.new.plan ≡ self.old.plan }
        ensures doubt { self.new.doubt_takes ≡ self.old.doubt_takes }

        // What every keeper ensures.
        ensures closes { Closes (kept_of self.old) (kept_of self.new) }
    {
        self.close(false);
    }
}

/// Counts the next call as made, and answers whether it is to fail.
fn call_fails(plan: &mut Plan) -> bool
    ensures fails { result ≡ fails_next plan.old }
    ensures counted { plan.new ≡ after_call plan.old }
    ensures later { plan.old.faults ≤ plan.new.faults }
{
    let fails = plan.fails();
    plan.count();
    fails
}
