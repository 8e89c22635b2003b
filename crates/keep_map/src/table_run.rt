//! The run of one table.

ghost use Rattle.std.specs.Prelude.{◌≡◌, ◌++◌, ◌∷◌, [], false, Some, None, IfOk, OnOk, OnErr};
ghost use Rattle.std.specs.Prelude.{is_some, if◌then◌else◌};
ghost use Rattle.repl_types.specs.Sizes.{IsKeySize, IsValueSize};
ghost use Rattle.keep_core.specs.Contents.{set_key};
ghost use Rattle.keep_core.specs.Kept.{GivesValue, GivesNext};
ghost use Rattle.keep_map.specs.Next.{IsNext};
ghost use Rattle.keep_map.specs.Put.{RunPuts};
ghost use Rattle.keep_map.specs.Tables.{rows_of, no_rows, id_of, seen_in_run, RunBecomes};
ghost use Rattle.keep_map.specs.Tables.{RunSettles, IsNamed};
ghost use Rattle.rows_in_runs.specs.Runs.{is_settled};

use crate::scattered_rows::ScatteredRows;
use crate::table_id::TableId;
use rows_in_runs::{Run, Spot};
use std::alloc::{AllocError, Global};

/// The rows of one table whose keys came in order, and whether there may be others beside them.
#[derive(Debug, Drop)]
pub struct TableRun {
    pub run: Run,
    pub has_more: bool,
}

/// What a run answers: whether it found what was asked for, and whether the table may have rows
/// beside it.
#[derive(Clone, Copy, Debug)]
pub struct Answer {
    pub found: bool,
    pub has_more: bool,
}

impl Answer {
    /// Nothing was found, and there are no rows anywhere.
    pub fn none() -> Answer
        ensures { result ≡ record { found = false; has_more = false } }
    {
        Answer {
            found: false,
            has_more: false,
        }
    }
}

impl TableRun {
    /// A run with no rows, and none beside it. This allocates nothing.
    pub fn new(alloc: Global) -> TableRun
        ensures { rows_of (Some result) ≡ no_rows }
    {
        TableRun {
            run: Run::new(alloc),
            has_more: false,
        }
    }

    /// Answers whether a value is seen at the key, and appends it to `out`.
    pub fn get(&mut self, key: &[u8], out: &mut Vec<u8>) -> Result<Answer, AllocError>
        requires { out.old.items ≡ [] }
        ensures found { IfOk result (λ a. seen_in_run (rows_of (Some self.old)) key.now
            ≡ (if a.found then Some out.new.items else None)) }
        ensures gives { IfOk result (λ a. GivesValue a.found out.new.items) }
        ensures more { IfOk result (λ a. a.has_more ≡ self.old.has_more) }
        ensures same { rows_of (Some self.new) ≡ rows_of (Some self.old) }
    {
        let has_more = self.has_more;
        let Spot::At(at) = self.run.spot(key) else {
            return Ok(Answer {
                found: false,
                has_more,
            });
        };
        let Some(value) = self.run.value(at) else {
            return Ok(Answer {
                found: false,
                has_more,
            });
        };
        out.extend_from_slice(value)?;
        Ok(Answer {
            found: true,
            has_more,
        })
    }

    /// Answers whether a value is seen at some key above `after`, and appends the least such key to
    /// `key` and its value to `out`.
    pub fn next(
        &mut self,
        after: &[u8],
        key: &mut Vec<u8>,
        out: &mut Vec<u8>,
    ) -> Result<Answer, AllocError>
        requires key { key.old.items ≡ [] }
        requires out { out.old.items ≡ [] }
        ensures found { IfOk result (λ a.
            IsNext (seen_in_run (rows_of (Some self.old))) after.now a.found
            key.new.items out.new.items) }
        ensures gives { IfOk result (λ a. GivesNext after.now a.found key.new.items
            out.new.items) }
        ensures more { IfOk result (λ a. a.has_more ≡ self.old.has_more) }
        ensures same { rows_of (Some self.new) ≡ rows_of (Some self.old) }
    {
        let has_more = self.has_more;
        let Some(at) = self.run.seek(after) else {
            return Ok(Answer {
                found: false,
                has_more,
            });
        };
        let Some(value) = self.run.value(at) else {
            return Ok(Answer {
                found: false,
                has_more,
            });
        };
        key.extend_from_slice(self.run.key(at))?;
        out.extend_from_slice(value)?;
        Ok(Answer {
            found: true,
            has_more,
        })
    }

    /// Whether a value is seen at the key.
    fn sees(&mut self, key: &[u8]) -> bool
        ensures seen { result ≡ is_some (seen_in_run (rows_of (Some self.old)) key.now) }
        ensures same { rows_of (Some self.new) ≡ rows_of (Some self.old) }
    {
        match self.run.spot(key) {
            Spot::At(at) => self.run.value(at).is_some(),
            _ => false,
        }
    }

    /// Sets the value that the transaction sees at the key, and answers true, if the key has a
    /// place in the run. A key at which `others` has a row has none. Even after an error the rows
    /// are as before.
    pub fn put(
        &mut self,
        alloc: Global,
        id: TableId,
        touched: &mut Vec<TableId>,
        others: &ScatteredRows,
        key: &[u8],
        value: &[u8],
    ) -> Result<bool, AllocError>
        requires key { IsKeySize key.now }
        requires value { IsValueSize value.now }
        ensures ok { IfOk result (RunPuts (id_of id) key.now value.now others.now.map
            (rows_of (Some self.old)) (rows_of (Some self.new))) }
        ensures err { OnErr result (RunBecomes (seen_in_run (rows_of (Some self.old)))
            (rows_of (Some self.old)) (rows_of (Some self.new))) }
        ensures touched { IsNamed id touched.old.items touched.new.items
            (rows_of (Some self.old)) (rows_of (Some self.new)) }
    {
        self.touch(alloc, id, touched)?;
        self.place(alloc, id, others, key, value)
    }

    /// What `put` does after the table was named as touched.
    fn place(
        &mut self,
        alloc: Global,
        id: TableId,
        others: &ScatteredRows,
        key: &[u8],
        value: &[u8],
    ) -> Result<bool, AllocError>
        requires key { IsKeySize key.now }
        requires value { IsValueSize value.now }
        ensures ok { IfOk result (RunPuts (id_of id) key.now value.now others.now.map
            (rows_of (Some self.old)) (rows_of (Some self.new))) }
        ensures err { OnErr result (RunBecomes (seen_in_run (rows_of (Some self.old)))
            (rows_of (Some self.old)) (rows_of (Some self.new))) }
    {
        match self.run.spot(key) {
            Spot::At(at) => {
                self.run.set(at, Some(value))?;
                Ok(true)
            }
            Spot::Above => {
                if self.has_more && others.has_row(alloc, id, key)? {
                    return Ok(false);
                }
                self.run.push(key, value)?;
                Ok(true)
            }
            Spot::Between => {
                self.has_more = true;
                Ok(false)
            }
        }
    }

    /// Removes the value that the transaction sees at the key, and answers whether there was one.
    /// Even after an error the rows are as before.
    pub fn remove(
        &mut self,
        alloc: Global,
        id: TableId,
        touched: &mut Vec<TableId>,
        key: &[u8],
    ) -> Result<Answer, AllocError>
        ensures ok { OnOk result (RunBecomes (set_key (seen_in_run (rows_of (Some self.old)))
            key.now None) (rows_of (Some self.old)) (rows_of (Some self.new))) }
        ensures found { IfOk result (λ a. is_some (seen_in_run (rows_of (Some self.old)) key.now)
            ≡ a.found) }
        ensures more { IfOk result (λ a. a.has_more ≡ self.old.has_more) }
        ensures err { OnErr result (RunBecomes (seen_in_run (rows_of (Some self.old)))
            (rows_of (Some self.old)) (rows_of (Some self.new))) }
        ensures touched { IsNamed id touched.old.items touched.new.items
            (rows_of (Some self.old)) (rows_of (Some self.new)) }
    {
        let has_more = self.has_more;
        let found = self.sees(key);
        if found {
            self.touch(alloc, id, touched)?;
            self.unset(key)?;
        }
        Ok(Answer { found, has_more })
    }

    /// Removes the value at the key, if the run has a row there.
    fn unset(&mut self, key: &[u8]) -> Result<(), AllocError>
        ensures ok { OnOk result (RunBecomes (set_key (seen_in_run (rows_of (Some self.old)))
            key.now None) (rows_of (Some self.old)) (rows_of (Some self.new))) }
        ensures more { self.new.has_more ≡ self.old.has_more }
        ensures err { OnErr result (RunBecomes (seen_in_run (rows_of (Some self.old)))
            (rows_of (Some self.old)) (rows_of (Some self.new))) }
    {
        match self.run.spot(key) {
            Spot::At(at) => self.run.set(at, None),
            _ => Ok(()),
        }
    }

    /// Names the table as touched before the first change of a transaction, and tidies its run.
    /// After an error it isn't named.
    fn touch(
        &mut self,
        alloc: Global,
        id: TableId,
        touched: &mut Vec<TableId>,
    ) -> Result<(), AllocError>
        ensures rows { RunBecomes (seen_in_run (rows_of (Some self.old)))
            (rows_of (Some self.old)) (rows_of (Some self.new)) }
        ensures more { self.new.has_more ≡ self.old.has_more }
        ensures named { OnOk result (touched.new.items ≡ (if is_settled self.old.run then
            touched.old.items ++ id ∷ [] else touched.old.items)) }
        ensures err { OnErr result ((touched.new.items ≡ touched.old.items)
            × (rows_of (Some self.new) ≡ rows_of (Some self.old))) }
    {
        if self.run.is_settled() {
            touched.push(id)?;
            self.run.tidy(alloc);
        }
        Ok(())
    }

    /// Ends the transaction. If it is kept, the rows are those that it saw, else those from before.
    pub fn settle(&mut self, keep: bool)
        ensures { RunSettles keep (rows_of (Some self.old)) (rows_of (Some self.new)) }
    {
        self.run.settle(keep);
    }
}
