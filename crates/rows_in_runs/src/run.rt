//! Rows of one table in the order of their keys.

ghost use Rattle.std.specs.Prelude.{◌≤◌, length};
ghost use Rattle.std.specs.List.{All};
ghost use Rattle.rows_in_runs.specs.Rows.{keys_in, IsRising, IsRow, IsOld};

use crate::counts::Counts;
use crate::row::{
    Old, Piece, RunRow, change_row, copy_rows, first_above, first_value, piece_of, push_row,
    put_back, store_value,
};
use std::alloc::{AllocError, Global};
use std::cmp::Ordering;

/// Where a key belongs in a run.
#[derive(Clone, Copy, Debug, PartialEq, Eq)]
pub enum Spot {
    /// The row at this place has the key.
    At(usize),
    /// No row has the key, and it is above the keys of all rows.
    Above,
    /// No row has the key, and some row has a greater one.
    Between,
}

/// Rows of one table in the order of their keys, with keys and values one after another in one
/// vector of bytes. A row that loses its value keeps its place.
#[derive(Debug, Drop)]
pub struct Run {
    bytes: Vec<u8>,
    rows: Vec<RunRow>,
    /// How many rows stood when the run was last settled.
    settled: usize,
    /// What those of them had that were changed since then, the oldest entry first.
    olds: Vec<Old>,
    counts: Counts,
    /// The counts when the run was last settled.
    settled_counts: Counts,
    /// The place that `seek` gave last. It is tried first, and never trusted.
    read: usize,
    /// The place that `spot` gave last. It is tried first, and never trusted.
    found: usize,
    ghost rows_fit: { All (IsRow (length bytes.items)) rows.items },
    ghost olds_fit: { All (IsOld (length bytes.items)) olds.items },
    ghost rising: { IsRising (keys_in bytes.items rows.items) },
    ghost within: { settled ≤ length rows.items },
}

impl Run {
    ghost use Rattle.std.specs.Prelude.{◌≡◌, ◌≢◌, ◌<◌, if◌then◌else◌, true, List, ℕ, Some, None};
    ghost use Rattle.std.specs.Prelude.{IfSome, IfNone, IfOk, OnOk, OnErr};
    ghost use Rattle.std.specs.Option.{option_map};
    ghost use Rattle.repl_types.specs.Sizes.{IsKeySize, IsValueSize};
    ghost use Rattle.keep_core.specs.Contents.{IsLastKey};
    ghost use Rattle.rows_in_runs.specs.Rows.{IsFirstAbove};
    ghost use Rattle.rows_in_runs.specs.Runs.{row_at, row_held, run_seen, is_settled, key_at};
    ghost use Rattle.rows_in_runs.specs.Runs.{IsAbove, IsSpot, IsNextAt, SameSeen, SameHeld};
    ghost use Rattle.rows_in_runs.specs.Runs.{SameRows, SetsRow, OmitsValueless, HasNoRows};

    /// A run with no rows. It allocates nothing.
    pub fn new(alloc: Global) -> Run
        ensures none { HasNoRows result }
    {
        Run {
            bytes: Vec::new(alloc),
            rows: Vec::new(alloc),
            settled: 0,
            olds: Vec::new(alloc),
            counts: Counts { dead: 0, used: 0 },
            settled_counts: Counts { dead: 0, used: 0 },
            read: 0,
            found: 0,
        }
    }

    /// Whether nothing was changed since the run was last settled.
    pub fn is_settled(&self) -> bool
        ensures { result ≡ is_settled self.now }
    {
        self.olds.is_empty() && self.settled == self.rows.len()
    }

    /// Where the key belongs. If it is the last key or above it, or that of the row found last or
    /// of the one after it, this takes constant time, else the time of a binary search.
    pub fn spot(&mut self, key: &[u8]) -> Spot
        ensures spot { IsSpot self.new key.now result }
        ensures above { IsAbove self.new key.now → result ≡ Spot.Above }
        ensures same { SameRows self.old self.new }
    {
        let spot = self.find(key);
        if let Spot::At(at) = spot {
            self.found = at;
        }
        spot
    }

    /// The place of the first row above `after` that has a value. If `after` is the key of the row
    /// that this gave last, it takes constant time, else the time of a binary search, and in each
    /// case the time to pass over the rows without a value.
    pub fn seek(&mut self, after: &[u8]) -> Option<usize>
        ensures none { IfNone result (IsLastKey (run_seen self.new) after.now) }
        ensures next { IfSome result (λ at. IsNextAt self.new after.now at) }
        ensures same { SameRows self.old self.new }
    {
        let from = self.above(self.read, after);
        let at = first_value(&self.rows, from)?;
        self.read = at;
        Some(at)
    }

    /// The key of the row at the place.
    pub fn key(&self, at: usize) -> &[u8]
        requires { at < length self.now.rows.items }
        ensures key { result.now ≡ key_at self.now at }
        ensures size { IsKeySize result.now }
    {
        piece_of(&self.bytes, self.rows[at].key)
    }

    /// The value of the row at the place, if it has one.
    pub fn value(&self, at: usize) -> Option<&[u8]>
        requires { at < length self.now.rows.items }
        ensures value { row_at self.now (key_at self.now at)
            ≡ Some (option_map (λ v. v.now) result) }
        ensures size { IfSome result (λ v. IsValueSize v.now) }
    {
        let now = self.rows[at].now?;
        Some(piece_of(&self.bytes, now))
    }

    /// Sets the value of the row at the place, or removes it. After an error all rows are as
    /// before, and the bytes of the value are wasted if they were stored.
    pub fn set(&mut self, at: usize, value: Option<&[u8]>) -> Result<(), AllocError>
        requires place { at < length self.old.rows.items }
        requires size { IfSome value (λ v. IsValueSize v.now) }
        ensures ok { OnOk result (SetsRow (key_at self.old at)
            (option_map (λ v. v.now) value.entry) self.old self.new) }
        ensures err { OnErr result (SameSeen self.old self.new) }
        ensures held { SameHeld self.old self.new }
    {
        let now = store_value(&mut self.bytes, value)?;
        let had = self.rows[at].now;
        change_row(&mut self.rows, &mut self.olds, self.settled, at, now)?;
        self.counts.remove(length_of(had));
        self.counts.add(length_of(now));
        Ok(())
    }

    /// A new row at the end. After an error all rows are as before, and the bytes that were stored
    /// are wasted.
    pub fn push(&mut self, key: &[u8], value: &[u8]) -> Result<(), AllocError>
        requires above { IsAbove self.old key.now }
        requires key { IsKeySize key.now }
        requires value { IsValueSize value.now }
        ensures ok { OnOk result (SetsRow key.now (Some value.now) self.old self.new) }
        ensures err { OnErr result (SameSeen self.old self.new) }
        ensures held { SameHeld self.old self.new }
    {
        push_row(&mut self.bytes, &mut self.rows, key, value)?;
        self.counts.add(Some(key.len()));
        self.counts.add(Some(value.len()));
        Ok(())
    }

    /// The rows are those that the run has now if the changes are kept, else those from before the
    /// changes. It allocates nothing, and takes time by the changes.
    pub fn settle(&mut self, keep: bool)
        ensures rows { (k : List ℕ) → row_at self.new k
            ≡ (if keep then row_at self.old k else row_held self.old k) }
        ensures settled { is_settled self.new ≡ true }
    {
        if keep {
            self.keep();
        } else {
            self.undo();
        }
    }

    /// Leaves out the rows without a value, and the bytes that no row names, if more than half of
    /// the rows or of the bytes are of that kind. It copies the others, which takes time by all
    /// rows; if there is no memory for a copy, the run stays as it is.
    pub fn tidy(&mut self, alloc: Global)
        requires { is_settled self.old ≡ true }
        ensures rows { OmitsValueless self.old self.new }
        ensures settled { is_settled self.new ≡ true }
    {
        let is_sparse = self.counts.are_sparse(self.rows.len(), self.bytes.len());
        if is_sparse {
            if let Ok(run) = self.copied(alloc) {
                *self = run;
            }
        }
    }

    /// Where the key belongs: compares it with the last key, and then searches.
    fn find(&self, key: &[u8]) -> Spot
        ensures spot { IsSpot self.now key.now result }
        ensures above { IsAbove self.now key.now → result ≡ Spot.Above }
    {
        let Some(last) = self.rows.last() else {
            return Spot::Above;
        };
        match key.cmp(piece_of(&self.bytes, last.key)) {
            Ordering::Greater => Spot::Above,
            Ordering::Equal => Spot::At(self.rows.len() - 1),
            Ordering::Less => self.find_below(key),
        }
    }

    /// The place of the row with the key, if there is one.
    fn find_below(&self, key: &[u8]) -> Spot
        ensures spot { IsSpot self.now key.now result }
        ensures above { result ≢ Spot.Above }
    {
        let above = self.above(self.found, key);
        if above > 0 && self.key(above - 1) == key {
            Spot::At(above - 1)
        } else {
            Spot::Between
        }
    }

    /// The place of the first row above the key. If the row at `guess` or the one after it has the
    /// key, this takes constant time.
    fn above(&self, guess: usize, key: &[u8]) -> usize
        ensures { IsFirstAbove (keys_in self.now.bytes.items self.now.rows.items) key.now result }
    {
        if self.has_at(guess, key) {
            return guess + 1;
        }
        let next = guess.saturating_add(1);
        if self.has_at(next, key) {
            return next + 1;
        }
        first_above(&self.bytes, &self.rows, key)
    }

    /// Whether the row at a place has the key.
    fn has_at(&self, at: usize, key: &[u8]) -> bool
        ensures { result ≡ true → (at < length self.now.rows.items)
            × (key_at self.now at ≡ key.now) }
    {
        at < self.rows.len() && self.key(at) == key
    }

    /// The rows are settled as they are.
    fn keep(&mut self)
        ensures rows { SameSeen self.old self.new }
        ensures settled { is_settled self.new ≡ true }
    {
        self.olds.clear();
        self.settled = self.rows.len();
        self.settled_counts = self.counts;
    }

    /// The rows are again those from before the changes, and settled.
    fn undo(&mut self)
        ensures rows { (k : List ℕ) → row_at self.new k ≡ row_held self.old k }
        ensures settled { is_settled self.new ≡ true }
    {
        self.rows.truncate(self.settled);
        put_back(&mut self.rows, &mut self.olds);
        self.counts = self.settled_counts;
    }

    /// A settled run with the rows that have a value.
    fn copied(&self, alloc: Global) -> Result<Run, AllocError>
        ensures rows { IfOk result (λ r. OmitsValueless self.now r) }
        ensures settled { IfOk result (λ r. is_settled r ≡ true) }
    {
        let mut bytes = Vec::with_capacity(alloc, self.counts.used)?;
        let mut rows = Vec::with_capacity(alloc, self.rows.len().saturating_sub(self.counts.dead))?;
        copy_rows(&self.bytes, &self.rows, &mut bytes, &mut rows)?;
        let counts = Counts {
            dead: 0,
            used: bytes.len(),
        };
        let settled = rows.len();
        Ok(Run {
            bytes,
            rows,
            settled,
            olds: Vec::new(alloc),
            counts,
            settled_counts: counts,
            read: 0,
            found: 0,
        })
    }
}

/// How many bytes a value has, if there is one.
fn length_of(now: Option<Piece>) -> Option<usize> {
    Some(now?.len)
}
