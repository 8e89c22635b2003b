//! One server: its name and its keeper.

ghost use Rattle.std.specs.Prelude.{◌≡◌, OnOk, IfOk, IfErr, OnErr, IfSome};
ghost use Rattle.std.specs.Option.{option_copied};
ghost use Rattle.keep_core.specs.Kept.{IsOpen, IsClosed, opened, committed, after_read};
ghost use Rattle.keep_core.specs.Kept.{after_write, after_put, after_remove, seen, WasThere};
ghost use Rattle.keep_core.specs.Kept.{Closes};

use crate::buffers::Buffers;
use crate::records::{begin_at, commit_at, get_record, next_record, put_record, remove_record};
use keep_core::Keeper;
use repl_types::{Fault, Name};
use row_codec::Stored;
use std::alloc::Global;

/// A server by itself. A fault names it as server 0, and leaves no transaction open.
#[derive(Drop)]
pub struct Site<K> {
    pub(crate) name: Name,
    pub(crate) keeper: K,
}

impl<K: Keeper> Site<K> {
    ghost use Rattle.site_store.specs.Records.{RowIs, IsRecord, after_key, NextRowIs, Follows};
    ghost use Rattle.site_store.specs.Records.{NoDamage, Misread, Misspelt, MisspeltNext, Halts};
    ghost use Rattle.site_store.specs.Records.{MayHalt};
    ghost use Rattle.site_store.specs.Servers.{site_name, site_keeper, state};

    /// It takes no memory.
    pub fn open_site(name: Name, keeper: K) -> Site<K>
        requires { IsClosed (K.kept keeper) }
        ensures name { site_name result ≡ name }
        ensures keeper { site_keeper result ≡ keeper }
    {
        Site { name, keeper }
    }

    /// Opens a transaction, which sees what is held. After a fault what is held is as before.
    pub fn begin(&mut self) -> Result<(), Fault>
        requires { IsClosed (state K.kept self.old) }
        ensures ok { OnOk result (state K.kept self.new ≡ opened (state K.kept self.old)) }
        ensures fault { IfErr result (Halts 0 (state K.kept self.old) (state K.kept self.old)
            (state K.kept self.new) NoDamage) }
        ensures closed { OnErr result (IsClosed (state K.kept self.new)) }
        ensures name { site_name self.new ≡ site_name self.old }
    {
        match begin_at(0, &mut self.keeper) {
            Ok(()) => Ok(()),
            Err(e) => {
                self.keeper.rollback();
                Err(e)
            }
        }
    }

    /// What is held is what the transaction saw. After a fault it is as before, or after one of the
    /// keeper it may be what the transaction saw.
    pub fn commit(&mut self) -> Result<(), Fault>
        requires { IsOpen (state K.kept self.old) }
        ensures ok { OnOk result (state K.kept self.new ≡ committed (state K.kept self.old)) }
        ensures fault { IfErr result (MayHalt 0 (state K.kept self.old) (state K.kept self.new)) }
        ensures closed { OnErr result (IsClosed (state K.kept self.new)) }
        ensures name { site_name self.new ≡ site_name self.old }
    {
        match commit_at(0, &mut self.keeper) {
            Ok(()) => Ok(()),
            Err(e) => {
                self.keeper.rollback();
                Err(e)
            }
        }
    }

    /// No transaction is open, and what is held stays.
    pub fn rollback(&mut self)
        ensures closes { Closes (state K.kept self.old) (state K.kept self.new) }
        ensures name { site_name self.new ≡ site_name self.old }
    {
        self.keeper.rollback();
    }

    /// The record at the key, if there is one. After a fault what is held is as before.
    pub fn get<R: Stored>(
        &mut self,
        alloc: Global,
        table: R::Table,
        key: &R::Key,
    ) -> Result<Option<R>, Fault>
        ensures ok { OnOk result (state K.kept self.new
            ≡ after_read (state K.kept self.old) R.AREA) }
        ensures row { IfOk result (λ row. IfSome (seen (state K.kept self.old))
            (RowIs R.spelling R.AREA (R.Table.number table) (R.Key.spelling key.now) row)) }
        ensures fits { IfOk result (λ row. IfSome row (IsRecord R.fits R.spelling)) }
        ensures fault { let damaged = Misspelt R.fits R.spelling R.AREA (R.Table.number table)
            (R.Key.spelling key.now) (seen (state K.kept self.old)) in
            IfErr result (Halts 0 (state K.kept self.old)
            (after_read (state K.kept self.old) R.AREA) (state K.kept self.new)
            (Misread R.AREA damaged)) }
        ensures closed { OnErr result (IsClosed (state K.kept self.new)) }
        ensures name { site_name self.new ≡ site_name self.old }
    {
        let mut buffers = Buffers::new(alloc);
        match get_record(alloc, 0, &mut self.keeper, &mut buffers, table, key) {
            Ok(row) => Ok(row),
            Err(e) => {
                self.keeper.rollback();
                Err(e)
            }
        }
    }

    /// The first record whose key is above `after`, or of all if `after` is `None`. After a
    /// fault what is held is as before.
    pub fn next<R: Stored>(
        &mut self,
        alloc: Global,
        table: R::Table,
        after: Option<&R::Key>,
    ) -> Result<Option<(R::Key, R)>, Fault>
        ensures ok { OnOk result (state K.kept self.new
            ≡ after_read (state K.kept self.old) R.AREA) }
        ensures row { IfOk result (λ row. IfSome (seen (state K.kept self.old))
            (NextRowIs R.Key.spelling R.spelling R.AREA (R.Table.number table)
            (after_key R.Key.spelling (option_copied after.entry)) row)) }
        ensures rises { IfOk result (λ row. IfSome row
            (Follows R.Key.fits R.Key.spelling R.fits R.spelling
            (after_key R.Key.spelling (option_copied after.entry)))) }
        ensures fault { let from = after_key R.Key.spelling (option_copied after.entry) in
            let damaged = MisspeltNext R.Key.fits R.Key.spelling R.fits R.spelling R.AREA
            (R.Table.number table) from (seen (state K.kept self.old)) in
            IfErr result (Halts 0 (state K.kept self.old)
            (after_read (state K.kept self.old) R.AREA) (state K.kept self.new)
            (Misread R.AREA damaged)) }
        ensures closed { OnErr result (IsClosed (state K.kept self.new)) }
        ensures name { site_name self.new ≡ site_name self.old }
    {
        let mut buffers = Buffers::new(alloc);
        match next_record(alloc, 0, &mut self.keeper, &mut buffers, table, after) {
            Ok(row) => Ok(row),
            Err(e) => {
                self.keeper.rollback();
                Err(e)
            }
        }
    }

    /// The open transaction sees this record at the key. After a fault what is held is as before.
    pub fn put<R: Stored>(
        &mut self,
        alloc: Global,
        table: R::Table,
        key: &R::Key,
        value: &R,
    ) -> Result<(), Fault>
        requires open { IsOpen (state K.kept self.old) }
        requires key { R.Key.storable key.now }
        requires value { R.storable value.now }
        ensures ok { OnOk result (state K.kept self.new
            ≡ after_put (state K.kept self.old) R.AREA (R.Table.number table)
            (R.Key.spelling key.now) (R.spelling value.now)) }
        ensures fault { IfErr result (Halts 0 (state K.kept self.old)
            (after_write (state K.kept self.old) R.AREA) (state K.kept self.new) NoDamage) }
        ensures closed { OnErr result (IsClosed (state K.kept self.new)) }
        ensures name { site_name self.new ≡ site_name self.old }
    {
        let mut buffers = Buffers::new(alloc);
        match put_record(0, &mut self.keeper, &mut buffers, table, key, value) {
            Ok(()) => Ok(()),
            Err(e) => {
                self.keeper.rollback();
                Err(e)
            }
        }
    }

    /// The open transaction sees no record at the key. Tells whether there was one. After a fault
    /// what is held is as before.
    pub fn remove<R: Stored>(
        &mut self,
        alloc: Global,
        table: R::Table,
        key: &R::Key,
    ) -> Result<bool, Fault>
        requires { IsOpen (state K.kept self.old) }
        ensures ok { OnOk result (state K.kept self.new
            ≡ after_remove (state K.kept self.old) R.AREA (R.Table.number table)
            (R.Key.spelling key.now)) }
        ensures found { IfOk result (λ found. IfSome (seen (state K.kept self.old))
            (WasThere R.AREA (R.Table.number table) (R.Key.spelling key.now) found)) }
        ensures fault { IfErr result (Halts 0 (state K.kept self.old)
            (after_write (state K.kept self.old) R.AREA) (state K.kept self.new) NoDamage) }
        ensures closed { OnErr result (IsClosed (state K.kept self.new)) }
        ensures name { site_name self.new ≡ site_name self.old }
    {
        let mut buffers = Buffers::new(alloc);
        match remove_record::<K, R>(0, &mut self.keeper, &mut buffers, table, key) {
            Ok(found) => Ok(found),
            Err(e) => {
                self.keeper.rollback();
                Err(e)
            }
        }
    }

    /// The keeper. It takes no memory.
    pub fn into_keeper(self) -> K
        ensures { result ≡ site_keeper self }
    {
        let Site { name: _, keeper } = self;
        keeper
    }
}
