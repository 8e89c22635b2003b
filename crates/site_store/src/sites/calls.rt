//! Records of the servers.

ghost use Rattle.std.specs.Prelude.{◌≡◌, ◌<◌, Some, None, length, OnOk, IfOk, IfErr, IfSome};
ghost use Rattle.std.specs.Option.{option_copied};
ghost use Rattle.keep_core.specs.Kept.{WasThere};

use crate::records::{begin_at, commit_at, get_record, next_record, put_record, remove_record};
use crate::sites::Sites;
use keep_core::Keeper;
use repl_types::Fault;
use row_codec::Stored;
use std::alloc::Global;

/// Calls at one server. After a fault no transaction is open at any server, and each server holds
/// what it held; but after a fault of a keeper at a commit the commit may have taken place.
impl<K: Keeper> Sites<K> {
    ghost use Rattle.site_store.specs.Records.{RowIs, IsRecord, after_key, NextRowIs, Follows};
    ghost use Rattle.site_store.specs.Records.{NoDamage, Misread, Misspelt, MisspeltNext};
    ghost use Rattle.site_store.specs.Views.{names, work, sees, IsOpenAt, IsClosedAt};
    ghost use Rattle.site_store.specs.Calls.{no_access, reads_of_one, writes_of_one, AtServer};
    ghost use Rattle.site_store.specs.Calls.{Reads, Begins, Puts, Commits, Fails, InDoubt};

    /// Opens a transaction at the server, which sees what is held there.
    pub fn begin(&mut self, server: u32) -> Result<(), Fault>
        requires server { server < length (names self.old) }
        requires closed { IsClosedAt (work K.kept self.old) server }
        ensures ok { OnOk result (Begins K.kept self.old self.new server) }
        ensures fault { IfErr result (Fails K.kept self.old self.new no_access
            (AtServer server NoDamage)) }
    {
        let site = &mut self.list[server as usize];
        match begin_at(server, &mut site.keeper) {
            Ok(()) => Ok(()),
            Err(e) => {
                self.rollback_all();
                Err(e)
            }
        }
    }

    /// The server holds what its transaction saw.
    pub fn commit(&mut self, server: u32) -> Result<(), Fault>
        requires server { server < length (names self.old) }
        requires open { IsOpenAt (work K.kept self.old) server }
        ensures ok { OnOk result (Commits K.kept self.old self.new server) }
        ensures fault { IfErr result (InDoubt K.kept self.old self.new server) }
    {
        let site = &mut self.list[server as usize];
        match commit_at(server, &mut site.keeper) {
            Ok(()) => Ok(()),
            Err(e) => {
                self.rollback_all();
                Err(e)
            }
        }
    }

    /// The record at the key, if there is one. It reads what the server's open transaction sees,
    /// and if none is open, what the server holds.
    pub fn get<R: Stored>(
        &mut self,
        alloc: Global,
        server: u32,
        table: R::Table,
        key: &R::Key,
    ) -> Result<Option<R>, Fault>
        requires { server < length (names self.old) }
        ensures ok { OnOk result (Reads K.kept self.old self.new server R.AREA) }
        ensures row { IfOk result (λ row. IfSome (sees K.kept self.old server)
            (RowIs R.spelling R.AREA (R.Table.number table) (R.Key.spelling key.now) row)) }
        ensures fits { IfOk result (λ row. IfSome row (IsRecord R.fits R.spelling)) }
        ensures fault { let damaged = Misspelt R.fits R.spelling R.AREA (R.Table.number table)
            (R.Key.spelling key.now) (sees K.kept self.old server) in
            IfErr result (Fails K.kept self.old self.new (reads_of_one 1 server R.AREA)
            (AtServer server (Misread R.AREA damaged))) }
    {
        let site = &mut self.list[server as usize];
        let buffers = &mut self.buffers;
        match get_record(alloc, server, &mut site.keeper, buffers, table, key) {
            Ok(row) => Ok(row),
            Err(e) => {
                self.rollback_all();
                Err(e)
            }
        }
    }

    /// The first record whose key is above `after`, or of all if `after` is `None`. It reads what
    /// `get` reads.
    ///
    /// To clear a table, go on from the key that was removed last. A keeper may keep the places of
    /// removed rows until the commit, as `MapKeeper` does, so a search that begins anew after each
    /// removal passes over all of them again.
    pub fn next<R: Stored>(
        &mut self,
        alloc: Global,
        server: u32,
        table: R::Table,
        after: Option<&R::Key>,
    ) -> Result<Option<(R::Key, R)>, Fault>
        requires { server < length (names self.old) }
        ensures ok { OnOk result (Reads K.kept self.old self.new server R.AREA) }
        ensures row { let from = after_key R.Key.spelling (option_copied after.entry) in
            IfOk result (λ row. IfSome (sees K.kept self.old server)
            (NextRowIs R.Key.spelling R.spelling R.AREA (R.Table.number table) from row)) }
        ensures rises { let from = after_key R.Key.spelling (option_copied after.entry) in
            IfOk result (λ row. IfSome row
            (Follows R.Key.fits R.Key.spelling R.fits R.spelling from)) }
        ensures fault { let from = after_key R.Key.spelling (option_copied after.entry) in
            let damaged = MisspeltNext R.Key.fits R.Key.spelling R.fits R.spelling R.AREA
            (R.Table.number table) from (sees K.kept self.old server) in
            IfErr result (Fails K.kept self.old self.new (reads_of_one 1 server R.AREA)
            (AtServer server (Misread R.AREA damaged))) }
    {
        let site = &mut self.list[server as usize];
        let buffers = &mut self.buffers;
        match next_record(alloc, server, &mut site.keeper, buffers, table, after) {
            Ok(row) => Ok(row),
            Err(e) => {
                self.rollback_all();
                Err(e)
            }
        }
    }

    /// The server's open transaction sees this record at the key.
    pub fn put<R: Stored>(
        &mut self,
        _alloc: Global,
        server: u32,
        table: R::Table,
        key: &R::Key,
        value: &R,
    ) -> Result<(), Fault>
        requires server { server < length (names self.old) }
        requires open { IsOpenAt (work K.kept self.old) server }
        requires key { R.Key.storable key.now }
        requires value { R.storable value.now }
        ensures ok { OnOk result (Puts K.kept self.old self.new server R.AREA (R.Table.number table)
            (R.Key.spelling key.now) (Some (R.spelling value.now))) }
        ensures fault { IfErr result (Fails K.kept self.old self.new (writes_of_one 1 server R.AREA)
            (AtServer server NoDamage)) }
    {
        let site = &mut self.list[server as usize];
        let buffers = &mut self.buffers;
        match put_record(server, &mut site.keeper, buffers, table, key, value) {
            Ok(()) => Ok(()),
            Err(e) => {
                self.rollback_all();
                Err(e)
            }
        }
    }

    /// The server's open transaction sees no record at the key. Answers whether there was one.
    pub fn remove<R: Stored>(
        &mut self,
        _alloc: Global,
        server: u32,
        table: R::Table,
        key: &R::Key,
    ) -> Result<bool, Fault>
        requires server { server < length (names self.old) }
        requires open { IsOpenAt (work K.kept self.old) server }
        ensures ok { OnOk result (Puts K.kept self.old self.new server R.AREA (R.Table.number table)
            (R.Key.spelling key.now) None) }
        ensures found { IfOk result (λ found. IfSome (sees K.kept self.old server)
            (WasThere R.AREA (R.Table.number table) (R.Key.spelling key.now) found)) }
        ensures fault { IfErr result (Fails K.kept self.old self.new (writes_of_one 1 server R.AREA)
            (AtServer server NoDamage)) }
    {
        let site = &mut self.list[server as usize];
        let buffers = &mut self.buffers;
        match remove_record::<K, R>(server, &mut site.keeper, buffers, table, key) {
            Ok(found) => Ok(found),
            Err(e) => {
                self.rollback_all();
                Err(e)
            }
        }
    }
}
