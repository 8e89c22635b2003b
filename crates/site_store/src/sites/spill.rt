//! Bytes of the Spill area of the servers, in its table 0. Each call is one of the keeper, and
//! takes no memory of its own.

ghost use Rattle.std.specs.Prelude.{◌≡◌, ◌<◌, Some, None, length, OnOk, IfOk, IfErr, IfSome};
ghost use Rattle.repl_types.specs.Sizes.{IsKeySize, IsValueSize};
ghost use Rattle.repl_types.specs.declared.area.Area.TheVariants.{Spill};
ghost use Rattle.keep_core.specs.Kept.{WasThere, NextIs, GivesNext};

use crate::records::{next_spill_at, put_spill_at, remove_spill_at};
use crate::sites::Sites;
use keep_core::Keeper;
use repl_types::Fault;

/// After a fault no transaction is open at any server, and each server holds what it held.
impl<K: Keeper> Sites<K> {
    ghost use Rattle.site_store.specs.Records.{NoDamage};
    ghost use Rattle.site_store.specs.Views.{names, work, sees, IsOpenAt};
    ghost use Rattle.site_store.specs.Calls.{reads_of_one, writes_of_one, AtServer, Reads, Puts};
    ghost use Rattle.site_store.specs.Calls.{Fails};

    /// The server's open transaction sees these bytes at the key.
    pub fn put_spill(&mut self, server: u32, key: &[u8], value: &[u8]) -> Result<(), Fault>
        requires server { server < length (names self.old) }
        requires open { IsOpenAt (work K.kept self.old) server }
        requires key { IsKeySize key.now }
        requires value { IsValueSize value.now }
        ensures ok { OnOk result (Puts K.kept self.old self.new server Spill 0 key.now
            (Some value.now)) }
        ensures fault { IfErr result (Fails K.kept self.old self.new (writes_of_one 1 server Spill)
            (AtServer server NoDamage)) }
    {
        let site = &mut self.list[server as usize];
        match put_spill_at(server, &mut site.keeper, key, value) {
            Ok(()) => Ok(()),
            Err(e) => {
                self.rollback_all();
                Err(e)
            }
        }
    }

    /// Whether there is a key above `after`, and the first one in `key`, with its bytes in
    /// `out`.
    pub fn next_spill(
        &mut self,
        server: u32,
        after: &[u8],
        key: &mut Vec<u8>,
        out: &mut Vec<u8>,
    ) -> Result<bool, Fault>
        requires { server < length (names self.old) }
        ensures ok { OnOk result (Reads K.kept self.old self.new server Spill) }
        ensures found { IfOk result (λ found. IfSome (sees K.kept self.old server)
            (NextIs Spill 0 after.now found key.new.items out.new.items)) }
        ensures gives { IfOk result (λ found. GivesNext after.now found key.new.items
            out.new.items) }
        ensures fault { IfErr result (Fails K.kept self.old self.new (reads_of_one 1 server Spill)
            (AtServer server NoDamage)) }
    {
        let site = &mut self.list[server as usize];
        match next_spill_at(server, &mut site.keeper, after, key, out) {
            Ok(found) => Ok(found),
            Err(e) => {
                self.rollback_all();
                Err(e)
            }
        }
    }

    /// The server's open transaction sees nothing at the key. Answers whether there was something.
    pub fn remove_spill(&mut self, server: u32, key: &[u8]) -> Result<bool, Fault>
        requires server { server < length (names self.old) }
        requires open { IsOpenAt (work K.kept self.old) server }
        ensures ok { OnOk result (Puts K.kept self.old self.new server Spill 0 key.now None) }
        ensures found { IfOk result (λ found. IfSome (sees K.kept self.old server)
            (WasThere Spill 0 key.now found)) }
        ensures fault { IfErr result (Fails K.kept self.old self.new (writes_of_one 1 server Spill)
            (AtServer server NoDamage)) }
    {
        let site = &mut self.list[server as usize];
        match remove_spill_at(server, &mut site.keeper, key) {
            Ok(found) => Ok(found),
            Err(e) => {
                self.rollback_all();
                Err(e)
            }
        }
    }
}
