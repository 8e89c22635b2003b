//! The rows whose keys came out of order, with the changes of the open transaction.

ghost use Rattle.std.specs.Prelude.{◌≡◌, ◌<◌, ◌≤◌, length, [], false, true, Some, None, IfOk, OnOk};
ghost use Rattle.std.specs.Prelude.{OnErr, if◌then◌else◌, is_some, IfSome, IfNone, not, ◌||◌};
ghost use Rattle.std.specs.Ordering.{is_lt};
ghost use Rattle.std.specs.Option.{option_map};
ghost use Rattle.std.specs.List.{find};
ghost use Rattle.std.specs.Map.Iter.{deref_pair};
ghost use Rattle.std.specs.BTreeMap.{IsOrdered, IsUnchanged};
ghost use Rattle.repl_types.specs.Bytes.{bytes_cmp};
ghost use Rattle.repl_types.specs.Sizes.{IsKeySize, IsValueSize};
ghost use Rattle.repl_types.specs.Area.{area_number};
ghost use Rattle.keep_core.specs.Contents.{Table, IsNextKey, IsLastKey};
ghost use Rattle.keep_core.specs.Kept.{Found, GivesValue, GivesNext};
ghost use Rattle.keep_map.specs.Next.{IsNext, parts};
ghost use Rattle.keep_map.specs.Places.{Place, same_place, put_value, contents_of};
ghost use Rattle.keep_map.specs.Scattered.{place_of, bytes_of, row_at, seen_in};
ghost use Rattle.keep_map.specs.Scattered.{table_seen, rows_seen, rows_held, slot_cmp};
ghost use Rattle.keep_map.specs.Scattered.{entries_above, stops, is_changed, AreRows, SetsRow};
ghost use Rattle.keep_map.specs.Scattered.{changed_row, settled};

use crate::slot::Slot;
use crate::stored_row::{StoredRow, StoredValue};
use crate::table_id::TableId;
use repl_types::Area;
use std::alloc::{AllocError, Global};
use std::collections::BTreeMap;
use std::ops::Bound;

/// The rows in the order of their slots, and the slots of the rows that the open transaction
/// changed. A row whose value was removed stays in the map until the transaction ends.
#[derive(Debug, Drop)]
pub struct ScatteredRows {
    map: BTreeMap<Slot, StoredRow>,
    touched: Vec<Slot>,
    ghost sound: { AreRows map touched.items },
}

impl ScatteredRows {
    /// No rows. It allocates nothing.
    pub fn new(alloc: Global) -> ScatteredRows
        ensures seen { rows_seen result.map ≡ (λ _. None) }
        ensures held { rows_held result.map ≡ (λ _. None) }
    {
        ScatteredRows {
            map: BTreeMap::new(alloc),
            touched: Vec::new(alloc),
        }
    }

    /// Answers whether a value is seen at the key, and puts it in `out`, which is empty if none is.
    pub fn get(
        &self,
        alloc: Global,
        area: Area,
        table: u32,
        key: &[u8],
        out: &mut Vec<u8>,
    ) -> Result<bool, AllocError>
        ensures found { IfOk result (λ found. Found area table key.now found out.new.items
            (contents_of (rows_seen self.now.map))) }
        ensures gives { IfOk result (λ found. GivesValue found out.new.items) }
    {
        out.clear();
        let slot = Slot::new(alloc, area, table, key)?;
        match self.value(&slot) {
            Some(value) => {
                out.extend_from_slice(value.bytes())?;
                Ok(true)
            }
            None => Ok(false),
        }
    }

    /// Given whether another part of the table found a next key after `after`, with that key and
    /// its value: answers whether the whole table has a next key, and puts it in `key` and its
    /// value in `out`. The other part counts at a key that both have.
    pub fn next(
        &self,
        after: Slot,
        found: bool,
        key: &mut Vec<u8>,
        out: &mut Vec<u8>,
    ) -> Result<bool, AllocError>
        ensures found { IfOk result (λ now_found. (part : Table)
            → IsNext part after.key.items found key.old.items out.old.items
            → IsNext (parts part (table_seen self.now.map after.area after.table)) after.key.items
            now_found key.new.items out.new.items) }
        ensures gives { IfOk result (λ now_found. GivesNext after.key.items found key.old.items
            out.old.items → GivesNext after.key.items now_found key.new.items out.new.items) }
    {
        let Some((slot, value)) = self.above(after) else {
            return Ok(found);
        };
        if !comes_first(&slot.key, found, key) {
            return Ok(found);
        }
        key.clear();
        key.extend_from_slice(&slot.key)?;
        out.clear();
        out.extend_from_slice(value.bytes())?;
        Ok(true)
    }

    /// Whether there is a row at the key, with a value or without.
    pub fn has_row(&self, alloc: Global, id: TableId, key: &[u8]) -> Result<bool, AllocError>
        ensures { IfOk result (λ has. has
            ≡ is_some (row_at self.now.map (id.area, id.table, key.now))) }
    {
        let slot = Slot {
            area: id.area,
            table: id.table,
            key: Vec::from_slice(alloc, key)?,
        };
        Ok(self.map.contains_key(&slot))
    }

    /// The value that is seen at the slot.
    fn value(&self, slot: &Slot) -> Option<&StoredValue>
        ensures { option_map (λ v. v.now.bytes.items) result
            ≡ seen_in (row_at self.now.map (place_of slot.now)) }
    {
        self.map.get(slot)?.now.as_ref()
    }

    /// The first slot above `after`, in the same table, at which a value is seen.
    fn above(&self, after: Slot) -> Option<(&Slot, &StoredValue)>
        ensures none { IfNone result (IsLastKey (table_seen self.now.map after.area after.table)
            after.key.items) }
        ensures next { IfSome result (λ p.
            IsNextKey (table_seen self.now.map after.area after.table) after.key.items
            p.0.now.key.items p.1.now.bytes.items) }
        ensures key { IfSome result (λ p. IsKeySize p.0.now.key.items) }
    {
        let (area, table) = (after.area, after.table);
        let (slot, row) = self.first(after)?;
        match &row.now {
            Some(value) if slot.area == area && slot.table == table => Some((slot, value)),
            _ => None,
        }
    }

    /// The first entry above the slot that is of another table, or at which a value is seen. The
    /// entries before it were removed in this transaction.
    fn first(&self, after: Slot) -> Option<(&Slot, &StoredRow)>
        ensures entry { option_map deref_pair result
            ≡ find (stops after.area after.table) (entries_above after self.now.map) }
        ensures ordered { IsOrdered slot_cmp self.now.map }
    {
        let (area, table) = (after.area, after.table);
        self.map
            .range((Bound::Excluded(after), Bound::Unbounded))
            .find(|(slot, row)| row.now.is_some() || slot.area != area || slot.table != table)
    }

    /// Sets the value that the transaction sees at the key. Even after an error the rows hold what
    /// they held.
    pub fn put(
        &mut self,
        alloc: Global,
        area: Area,
        table: u32,
        key: &[u8],
        value: &[u8],
    ) -> Result<(), AllocError>
        requires key { IsKeySize key.now }
        requires value { IsValueSize value.now }
        ensures ok { OnOk result (rows_seen self.new.map ≡ put_value (rows_seen self.old.map)
            (area_number area, table, key.now) (Some value.now)) }
        ensures err { OnErr result (rows_seen self.new.map ≡ rows_seen self.old.map) }
        ensures held { rows_held self.new.map ≡ rows_held self.old.map }
    {
        let slot = Slot::new(alloc, area, table, key)?;
        let value = StoredValue::new(alloc, value)?;
        self.change(slot, Some(value))
    }

    /// Removes the value that the transaction sees at the key, and answers whether there was one.
    /// Even after an error the rows hold what they held.
    pub fn remove(
        &mut self,
        alloc: Global,
        area: Area,
        table: u32,
        key: &[u8],
    ) -> Result<bool, AllocError>
        ensures ok { OnOk result (rows_seen self.new.map ≡ put_value (rows_seen self.old.map)
            (area_number area, table, key.now) None) }
        ensures found { IfOk result (λ found. is_some (rows_seen self.old.map
            (area_number area, table, key.now)) ≡ found) }
        ensures err { OnErr result (rows_seen self.new.map ≡ rows_seen self.old.map) }
        ensures held { rows_held self.new.map ≡ rows_held self.old.map }
    {
        let slot = Slot::new(alloc, area, table, key)?;
        let is_there = self.value(&slot).is_some();
        if is_there {
            self.change(slot, None)?;
        }
        Ok(is_there)
    }

    /// Sets the value that the transaction sees at the slot, or removes it.
    fn change(&mut self, slot: Slot, value: Option<StoredValue>) -> Result<(), AllocError>
        requires { IsKeySize slot.key.items }
        ensures ok { OnOk result (SetsRow (place_of slot)
            (Some (changed_row (row_at self.old.map (place_of slot)) value)) self.old.map
            self.new.map) }
        ensures err { OnErr result ((p : Place) → row_at self.new.map p ≡ row_at self.old.map p) }
    {
        self.touched.push(slot.clone()?)?;
        let was_named = change_row(&mut self.map, slot, value)?;
        if was_named {
            self.touched.pop();
        }
        Ok(())
    }

    /// Ends the transaction. If it is kept, the rows hold what it saw, else what they held before.
    /// This allocates nothing and takes time by the slots that the transaction changed.
    pub fn settle(&mut self, keep: bool)
        ensures seen { rows_seen self.new.map
            ≡ (if keep then rows_seen self.old.map else rows_held self.old.map) }
        ensures held { rows_held self.new.map ≡ rows_seen self.new.map }
    {
        while let Some(slot) = self.touched.pop() {
            settle_row(&mut self.map, &slot, keep);
        }
    }
}

/// Whether a key is less than another that was found, if one was.
fn comes_first(key: &[u8], found: bool, other: &[u8]) -> bool
    ensures { result ≡ (not found || is_lt (bytes_cmp key.now other.now)) }
{
    !found || key.cmp(other).is_lt()
}

/// Sets the value that the transaction sees at the slot, or removes it. Answers whether the
/// transaction changed this row before.
fn change_row(
    map: &mut BTreeMap<Slot, StoredRow>,
    slot: Slot,
    value: Option<StoredValue>,
) -> Result<bool, AllocError>
    ensures ok { OnOk result (SetsRow (place_of slot)
        (Some (changed_row (row_at map.old (place_of slot)) value)) map.old map.new) }
    ensures changed { IfOk result (λ was. was ≡ is_changed (row_at map.old (place_of slot))) }
    ensures err { OnErr result (IsUnchanged map.old map.new) }
{
    let none = StoredRow {
        now: None,
        before: None,
    };
    let row = map.entry(slot)?.or_insert(none);
    let was_changed = row.before.is_some();
    row.change(value);
    Ok(was_changed)
}

/// Settles the row at the slot, and removes it if no value is left.
fn settle_row(map: &mut BTreeMap<Slot, StoredRow>, slot: &Slot, keep: bool)
    ensures { SetsRow (place_of slot.now) (settled keep (row_at map.old (place_of slot.now)))
        map.old map.new }
{
    let Some(row) = map.get_mut(slot) else {
        return;
    };
    row.settle(keep);
    let is_gone = row.now.is_none();
    if is_gone {
        map.remove(slot);
    }
}
