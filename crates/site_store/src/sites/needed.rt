//! Records that may be missing, that must be there, and that must fit.

ghost use Rattle.std.specs.Prelude.{◌≡◌, ◌<◌, Some, length, OnOk, IfOk, IfErr, IfSome};

use crate::records::get_needed_record;
use crate::sites::Sites;
use keep_core::Keeper;
use repl_types::{DamageCause, Fault, List};
use row_codec::Stored;
use std::alloc::{AllocError, Global};

/// The spelled key in a list of its own, since a fault keeps it.
fn spell_key<R: Stored>(alloc: Global, key: &R::Key) -> Result<List<u8>, AllocError>
    ensures { IfOk result (λ bytes. bytes ≡ R.Key.spelling key.now) }
{
    let mut spelled = Vec::new(alloc);
    R::put_key(key, &mut spelled)?;
    Ok(List::from_vec(spelled))
}

/// The spelled record in a list of its own, since a fault keeps it.
fn spell_row<R: Stored>(alloc: Global, row: &R) -> Result<List<u8>, AllocError>
    requires { R.has_spelling row.now }
    ensures { IfOk result (λ bytes. bytes ≡ R.spelling row.now) }
{
    let mut spelled = Vec::new(alloc);
    row.put(&mut spelled)?;
    Ok(List::from_vec(spelled))
}

impl<K: Keeper> Sites<K> {
    ghost use Rattle.repl_types.specs.declared.status.DamageCause.TheVariants.{Absent, Unfit};
    ghost use Rattle.repl_types.specs.declared.fault.Fault.TheVariants.{Damaged};
    ghost use Rattle.site_store.specs.Records.{RowIs, IsRecord, StateIs, Misread, Misspelt};
    ghost use Rattle.site_store.specs.Records.{MissesOrMisreads, IsMissing};
    ghost use Rattle.site_store.specs.Views.{names, sees};
    ghost use Rattle.site_store.specs.Calls.{no_access, reads_of_one, AtServer, Reads, ClosesAll};
    ghost use Rattle.site_store.specs.Calls.{Fails, IsMemoryOr};

    /// The record at the key, or this first state if there is none.
    pub fn get_state<R: Stored>(
        &mut self,
        alloc: Global,
        server: u32,
        table: R::Table,
        key: &R::Key,
        first: R,
    ) -> Result<R, Fault>
        requires { server < length (names self.old) }
        ensures ok { OnOk result (Reads K.kept self.old self.new server R.AREA) }
        ensures state { IfOk result (λ state. IfSome (sees K.kept self.old server)
            (StateIs R.spelling R.AREA (R.Table.number table)
            (R.Key.spelling key.now) first state)) }
        ensures fits { R.fits first → IfOk result (λ state. R.fits state) }
        ensures fault { let damaged = Misspelt R.fits R.spelling R.AREA (R.Table.number table)
            (R.Key.spelling key.now) (sees K.kept self.old server) in
            IfErr result (Fails K.kept self.old self.new (reads_of_one 1 server R.AREA)
            (AtServer server (Misread R.AREA damaged))) }
    {
        match self.get::<R>(alloc, server, table, key)? {
            None => Ok(first),
            Some(state) => Ok(state),
        }
    }

    /// The record at the key, which must be there: it is damage if there is none.
    pub fn get_needed<R: Stored>(
        &mut self,
        alloc: Global,
        server: u32,
        table: R::Table,
        key: &R::Key,
    ) -> Result<R, Fault>
        requires { server < length (names self.old) }
        ensures ok { OnOk result (Reads K.kept self.old self.new server R.AREA) }
        ensures row { IfOk result (λ row. IfSome (sees K.kept self.old server)
            (RowIs R.spelling R.AREA (R.Table.number table) (R.Key.spelling key.now) (Some row))) }
        ensures fits { IfOk result (λ row. IsRecord R.fits R.spelling row) }
        ensures fault { let damaged = Misspelt R.fits R.spelling R.AREA (R.Table.number table)
            (R.Key.spelling key.now) (sees K.kept self.old server) in
            let missing = IsMissing R.AREA (R.Table.number table) (R.Key.spelling key.now)
            (sees K.kept self.old server) in
            IfErr result (Fails K.kept self.old self.new (reads_of_one 1 server R.AREA)
            (AtServer server (MissesOrMisreads R.AREA missing damaged))) }
    {
        let site = &mut self.list[server as usize];
        let buffers = &mut self.buffers;
        match get_needed_record(alloc, server, &mut site.keeper, buffers, table, key) {
            Ok(row) => Ok(row),
            Err(e) => {
                self.rollback_all();
                Err(e)
            }
        }
    }

    /// The fault of a record that should be at the key and isn't. No transaction is open after it.
    pub fn missing<R: Stored>(&mut self, alloc: Global, server: u32, key: &R::Key) -> Fault
        ensures closes { ClosesAll K.kept self.old self.new no_access }
        ensures fault { IsMemoryOr (Damaged server R.AREA (Absent (R.Key.spelling key.now)))
            result }
    {
        self.rollback_all();
        match spell_key::<R>(alloc, key) {
            Ok(bytes) => Fault::Damaged {
                server,
                area: R::AREA,
                cause: DamageCause::Absent(bytes),
            },
            Err(_) => Fault::Memory,
        }
    }

    /// The fault of a record that was read and doesn't fit. No transaction is open after it.
    pub fn unfit<R: Stored>(&mut self, alloc: Global, server: u32, row: &R) -> Fault
        requires { R.has_spelling row.now }
        ensures closes { ClosesAll K.kept self.old self.new no_access }
        ensures fault { IsMemoryOr (Damaged server R.AREA (Unfit (R.spelling row.now))) result }
    {
        self.rollback_all();
        match spell_row(alloc, row) {
            Ok(bytes) => Fault::Damaged {
                server,
                area: R::AREA,
                cause: DamageCause::Unfit(bytes),
            },
            Err(_) => Fault::Memory,
        }
    }
}
