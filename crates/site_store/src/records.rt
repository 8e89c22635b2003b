//! Records of one keeper.
//!
//! These calls leave a transaction open at a fault: who calls them rolls it back.

ghost use Rattle.std.specs.Prelude.{◌≡◌, [], Some, OnOk, IfOk, IfErr, IfSome};
ghost use Rattle.std.specs.Option.{option_copied};
ghost use Rattle.repl_types.specs.Sizes.{IsKeySize, IsValueSize};
ghost use Rattle.repl_types.specs.declared.area.Area.TheVariants.{Spill};
ghost use Rattle.keep_core.specs.Kept.{Kept, IsOpen, IsClosed, opened, committed, after_read};
ghost use Rattle.keep_core.specs.Kept.{after_write, after_put, after_remove, seen, WasThere};
ghost use Rattle.keep_core.specs.Kept.{NextIs, GivesNext};
ghost use Rattle.site_store.specs.Records.{RowIs, IsRecord, after_key, NextRowIs, Follows};
ghost use Rattle.site_store.specs.Records.{NoDamage, Misread, Misspelt, MisspeltNext, fault_from};
ghost use Rattle.site_store.specs.Records.{Halts, MayHalt, MissesOrMisreads, IsMissing};

use crate::buffers::Buffers;
use keep_core::{KeepError, Keeper};
use repl_types::{Area, DamageCause, Fault, List};
use row_codec::{Stored, TableNumber, TakeError};
use std::alloc::{AllocError, Global};

fn fault_of(server: u32, e: KeepError) -> Fault
    ensures { result ≡ fault_from server e }
{
    match e {
        KeepError::Memory => Fault::Memory,
        KeepError::Failed => Fault::Keeper { server },
    }
}

/// Takes the bytes out of a buffer, for a fault, which keeps them. It takes no memory.
fn take_bytes(alloc: Global, buffer: &mut Vec<u8>) -> List<u8>
    ensures { result ≡ buffer.old.items }
{
    List::from_vec(std::mem::replace(buffer, Vec::new(alloc)))
}

/// Bytes of a server that are no spelling.
fn misspelt(alloc: Global, server: u32, area: Area, bytes: &mut Vec<u8>) -> Fault
    ensures { result ≡ Fault.Damaged server area (DamageCause.Spelling bytes.old.items) }
{
    Fault::Damaged {
        server,
        area,
        cause: DamageCause::Spelling(take_bytes(alloc, bytes)),
    }
}

/// The record at the key, if there is one. The spelled key stays in its buffer.
pub(crate) fn get_record<K: Keeper, R: Stored>(
    alloc: Global,
    server: u32,
    keeper: &mut K,
    buffers: &mut Buffers,
    table: R::Table,
    key: &R::Key,
) -> Result<Option<R>, Fault>
    ensures ok { OnOk result (K.kept keeper.new ≡ after_read (K.kept keeper.old) R.AREA) }
    ensures row { IfOk result (λ row. IfSome (seen (K.kept keeper.old))
        (RowIs R.spelling R.AREA (R.Table.number table) (R.Key.spelling key.now) row)) }
    ensures fits { IfOk result (λ row. IfSome row (IsRecord R.fits R.spelling)) }
    ensures spelled { OnOk result (buffers.new.key.items ≡ R.Key.spelling key.now) }
    ensures fault { let damaged = Misspelt R.fits R.spelling R.AREA (R.Table.number table)
        (R.Key.spelling key.now) (seen (K.kept keeper.old)) in
        IfErr result (Halts server (K.kept keeper.old) (after_read (K.kept keeper.old) R.AREA)
        (K.kept keeper.new) (Misread R.AREA damaged)) }
{
    buffers.clear();
    R::put_key(key, &mut buffers.key)?;
    let number = table.table_number();
    match keeper.get(R::AREA, number, &buffers.key, &mut buffers.value) {
        Ok(true) => match R::take(alloc, &buffers.value) {
            Ok(row) => Ok(Some(row)),
            Err(TakeError::Memory) => Err(Fault::Memory),
            Err(TakeError::Spelling) => Err(misspelt(alloc, server, R::AREA, &mut buffers.value)),
        },
        Ok(false) => Ok(None),
        Err(e) => Err(fault_of(server, e)),
    }
}

/// The record at the key, which must be there: it is damage if there is none.
pub(crate) fn get_needed_record<K: Keeper, R: Stored>(
    alloc: Global,
    server: u32,
    keeper: &mut K,
    buffers: &mut Buffers,
    table: R::Table,
    key: &R::Key,
) -> Result<R, Fault>
    ensures ok { OnOk result (K.kept keeper.new ≡ after_read (K.kept keeper.old) R.AREA) }
    ensures row { IfOk result (λ row. IfSome (seen (K.kept keeper.old))
        (RowIs R.spelling R.AREA (R.Table.number table) (R.Key.spelling key.now) (Some row))) }
    ensures fits { IfOk result (λ row. IsRecord R.fits R.spelling row) }
    ensures fault { let damaged = Misspelt R.fits R.spelling R.AREA (R.Table.number table)
        (R.Key.spelling key.now) (seen (K.kept keeper.old)) in
        let missing = IsMissing R.AREA (R.Table.number table) (R.Key.spelling key.now)
        (seen (K.kept keeper.old)) in
        IfErr result (Halts server (K.kept keeper.old) (after_read (K.kept keeper.old) R.AREA)
        (K.kept keeper.new) (MissesOrMisreads R.AREA missing damaged)) }
{
    match get_record::<K, R>(alloc, server, keeper, buffers, table, key)? {
        None => Err(Fault::Damaged {
            server,
            area: R::AREA,
            cause: DamageCause::Absent(take_bytes(alloc, &mut buffers.key)),
        }),
        Some(row) => Ok(row),
    }
}

/// Spells where the search for the next key begins.
fn spell_after<R: Stored>(after: Option<&R::Key>, spelled: &mut Vec<u8>) -> Result<(), AllocError>
    requires { spelled.old.items ≡ [] }
    ensures { OnOk result (spelled.new.items
        ≡ after_key R.Key.spelling (option_copied after.entry)) }
{
    if let Some(key) = after {
        R::put_key(key, spelled)?;
    }
    Ok(())
}

/// The first record whose key is above `after`, or of all if `after` is `None`.
pub(crate) fn next_record<K: Keeper, R: Stored>(
    alloc: Global,
    server: u32,
    keeper: &mut K,
    buffers: &mut Buffers,
    table: R::Table,
    after: Option<&R::Key>,
) -> Result<Option<(R::Key, R)>, Fault>
    ensures ok { OnOk result (K.kept keeper.new ≡ after_read (K.kept keeper.old) R.AREA) }
    ensures row { IfOk result (λ row. IfSome (seen (K.kept keeper.old))
        (NextRowIs R.Key.spelling R.spelling R.AREA (R.Table.number table)
        (after_key R.Key.spelling (option_copied after.entry)) row)) }
    ensures rises { IfOk result (λ row. IfSome row
        (Follows R.Key.fits R.Key.spelling R.fits R.spelling
        (after_key R.Key.spelling (option_copied after.entry)))) }
    ensures fault { let from = after_key R.Key.spelling (option_copied after.entry) in
        let damaged = MisspeltNext R.Key.fits R.Key.spelling R.fits R.spelling R.AREA
        (R.Table.number table) from (seen (K.kept keeper.old)) in
        IfErr result (Halts server (K.kept keeper.old) (after_read (K.kept keeper.old) R.AREA)
        (K.kept keeper.new) (Misread R.AREA damaged)) }
{
    buffers.clear();
    spell_after::<R>(after, &mut buffers.key)?;
    match keeper.next(
        R::AREA,
        table.table_number(),
        &buffers.key,
        &mut buffers.next_key,
        &mut buffers.value,
    ) {
        Ok(true) => match R::take_key(alloc, &buffers.next_key) {
            Ok(next) => match R::take(alloc, &buffers.value) {
                Ok(row) => Ok(Some((next, row))),
                Err(TakeError::Memory) => Err(Fault::Memory),
                Err(TakeError::Spelling) => Err(misspelt(
                    alloc,
                    server,
                    R::AREA,
                    &mut buffers.value,
                )),
            },
            Err(TakeError::Memory) => Err(Fault::Memory),
            Err(TakeError::Spelling) => Err(misspelt(
                alloc,
                server,
                R::AREA,
                &mut buffers.next_key,
            )),
        },
        Ok(false) => Ok(None),
        Err(e) => Err(fault_of(server, e)),
    }
}

/// The open transaction sees this record at the key.
pub(crate) fn put_record<K: Keeper, R: Stored>(
    server: u32,
    keeper: &mut K,
    buffers: &mut Buffers,
    table: R::Table,
    key: &R::Key,
    value: &R,
) -> Result<(), Fault>
    requires open { IsOpen (K.kept keeper.old) }
    requires key { R.Key.storable key.now }
    requires value { R.storable value.now }
    ensures ok { OnOk result (K.kept keeper.new
        ≡ after_put (K.kept keeper.old) R.AREA (R.Table.number table) (R.Key.spelling key.now)
        (R.spelling value.now)) }
    ensures fault { IfErr result (Halts server (K.kept keeper.old)
        (after_write (K.kept keeper.old) R.AREA) (K.kept keeper.new) NoDamage) }
{
    buffers.clear();
    R::put_key(key, &mut buffers.key)?;
    value.put(&mut buffers.value)?;
    match keeper.put(R::AREA, table.table_number(), &buffers.key, &buffers.value) {
        Ok(()) => Ok(()),
        Err(e) => Err(fault_of(server, e)),
    }
}

/// The open transaction sees no record at the key. Tells whether there was one.
pub(crate) fn remove_record<K: Keeper, R: Stored>(
    server: u32,
    keeper: &mut K,
    buffers: &mut Buffers,
    table: R::Table,
    key: &R::Key,
) -> Result<bool, Fault>
    requires { IsOpen (K.kept keeper.old) }
    ensures ok { OnOk result (K.kept keeper.new
        ≡ after_remove (K.kept keeper.old) R.AREA (R.Table.number table) (R.Key.spelling key.now)) }
    ensures found { IfOk result (λ found. IfSome (seen (K.kept keeper.old))
        (WasThere R.AREA (R.Table.number table) (R.Key.spelling key.now) found)) }
    ensures fault { IfErr result (Halts server (K.kept keeper.old)
        (after_write (K.kept keeper.old) R.AREA) (K.kept keeper.new) NoDamage) }
{
    buffers.clear();
    R::put_key(key, &mut buffers.key)?;
    match keeper.remove(R::AREA, table.table_number(), &buffers.key) {
        Ok(found) => Ok(found),
        Err(e) => Err(fault_of(server, e)),
    }
}

/// Opens a transaction, which sees what is held.
pub(crate) fn begin_at<K: Keeper>(server: u32, keeper: &mut K) -> Result<(), Fault>
    requires { IsClosed (K.kept keeper.old) }
    ensures ok { OnOk result (K.kept keeper.new ≡ opened (K.kept keeper.old)) }
    ensures fault { IfErr result (Halts server (K.kept keeper.old) (K.kept keeper.old)
        (K.kept keeper.new) NoDamage) }
{
    match keeper.begin() {
        Ok(()) => Ok(()),
        Err(e) => Err(fault_of(server, e)),
    }
}

/// What is held is what the transaction saw. At a fault of the keeper it may be so too.
pub(crate) fn commit_at<K: Keeper>(server: u32, keeper: &mut K) -> Result<(), Fault>
    requires { IsOpen (K.kept keeper.old) }
    ensures ok { OnOk result (K.kept keeper.new ≡ committed (K.kept keeper.old)) }
    ensures fault { IfErr result (MayHalt server (K.kept keeper.old) (K.kept keeper.new)) }
{
    match keeper.commit() {
        Ok(()) => Ok(()),
        Err(e) => Err(fault_of(server, e)),
    }
}

/// The open transaction sees these bytes at the key, in table 0 of the Spill area.
pub(crate) fn put_spill_at<K: Keeper>(
    server: u32,
    keeper: &mut K,
    key: &[u8],
    value: &[u8],
) -> Result<(), Fault>
    requires open { IsOpen (K.kept keeper.old) }
    requires key { IsKeySize key.now }
    requires value { IsValueSize value.now }
    ensures ok { OnOk result (K.kept keeper.new
        ≡ after_put (K.kept keeper.old) Spill 0 key.now value.now) }
    ensures fault { IfErr result (Halts server (K.kept keeper.old)
        (after_write (K.kept keeper.old) Spill) (K.kept keeper.new) NoDamage) }
{
    match keeper.put(Area::Spill, 0, key, value) {
        Ok(()) => Ok(()),
        Err(e) => Err(fault_of(server, e)),
    }
}

/// The first key above `after` in table 0 of the Spill area, and its bytes.
pub(crate) fn next_spill_at<K: Keeper>(
    server: u32,
    keeper: &mut K,
    after: &[u8],
    key: &mut Vec<u8>,
    out: &mut Vec<u8>,
) -> Result<bool, Fault>
    ensures ok { OnOk result (K.kept keeper.new ≡ after_read (K.kept keeper.old) Spill) }
    ensures found { IfOk result (λ found. IfSome (seen (K.kept keeper.old))
        (NextIs Spill 0 after.now found key.new.items out.new.items)) }
    ensures gives { IfOk result (λ found. GivesNext after.now found key.new.items out.new.items) }
    ensures fault { IfErr result (Halts server (K.kept keeper.old)
        (after_read (K.kept keeper.old) Spill) (K.kept keeper.new) NoDamage) }
{
    match keeper.next(Area::Spill, 0, after, key, out) {
        Ok(found) => Ok(found),
        Err(e) => Err(fault_of(server, e)),
    }
}

/// The open transaction sees nothing at the key, in table 0 of the Spill area. Tells whether there
/// was something.
pub(crate) fn remove_spill_at<K: Keeper>(
    server: u32,
    keeper: &mut K,
    key: &[u8],
) -> Result<bool, Fault>
    requires { IsOpen (K.kept keeper.old) }
    ensures ok { OnOk result (K.kept keeper.new
        ≡ after_remove (K.kept keeper.old) Spill 0 key.now) }
    ensures found { IfOk result (λ found. IfSome (seen (K.kept keeper.old))
        (WasThere Spill 0 key.now found)) }
    ensures fault { IfErr result (Halts server (K.kept keeper.old)
        (after_write (K.kept keeper.old) Spill) (K.kept keeper.new) NoDamage) }
{
    match keeper.remove(Area::Spill, 0, key) {
        Ok(found) => Ok(found),
        Err(e) => Err(fault_of(server, e)),
    }
}
