//! The keeper of a server's contents.

ghost use Rattle.std.specs.Prelude.{◌≡◌, IfOk, OnOk, IfErr, IfSome};
ghost use Rattle.repl_types.specs.Sizes.{IsKeySize, IsValueSize};
ghost use Rattle.keep_core.specs.Kept.{Kept, IsOpen, IsClosed, opened, committed, after_read};
ghost use Rattle.keep_core.specs.Kept.{after_write, after_put, after_remove, seen, CallFails};
ghost use Rattle.keep_core.specs.Kept.{CommitFails, Closes, Found, NextIs, WasThere, GivesValue};
ghost use Rattle.keep_core.specs.Kept.{GivesNext};

use repl_types::Area;
use thiserror::Error;

/// Why a call of a keeper fails.
#[derive(Clone, Copy, Debug, PartialEq, Eq, Error)]
pub enum KeepError {
    #[error("out of memory")]
    Memory,
    #[error("the keeper failed")]
    Failed,
}

/// A keeper of a server's contents: it has numbered tables for each area, and a table is a map from
/// keys to values, in byte order of the keys. At most one transaction is open at a time, and every
/// change is made in one. A keeper reveals its contents always or never.
///
/// After `Memory` or `Failed` no transaction is open, and the keeper holds what it held before.
/// Only a commit that answers `Failed` may have taken place: the keeper then holds either what it
/// held before, or what the transaction saw.
pub trait Keeper {
    /// All that a clause sees of a keeper: what it holds, what its open transaction sees, and its
    /// counts.
    ghost kept: { Self → Kept };

    /// Opens a transaction, which sees what the keeper holds.
    fn begin(&mut self) -> Result<(), KeepError>
        requires { IsClosed (kept self.old) }
        ensures ok { OnOk result (kept self.new ≡ opened (kept self.old)) }
        ensures err { IfErr result (CallFails (kept self.old) (kept self.new)) };

    /// Answers whether the key is there, and puts its value in `out`, which is empty if it isn't.
    /// It reads what the open transaction sees, or what the keeper holds if none is open.
    fn get(
        &mut self,
        area: Area,
        table: u32,
        key: &[u8],
        out: &mut Vec<u8>,
    ) -> Result<bool, KeepError>
        ensures ok { OnOk result (kept self.new ≡ after_read (kept self.old) area) }
        ensures found { IfOk result (λ found. IfSome (seen (kept self.old))
            (Found area table key.now found out.new.items)) }
        // This holds even if the keeper reveals nothing.
        ensures gives { IfOk result (λ found. GivesValue found out.new.items) }
        ensures err { IfErr result (CallFails (after_read (kept self.old) area) (kept self.new)) };

    /// Answers whether the table has a key above `after`, and puts the least such key in `key` and
    /// its value in `out`. It reads what `get` reads. No key is empty, so an empty `after` asks for
    /// the first key.
    fn next(
        &mut self,
        area: Area,
        table: u32,
        after: &[u8],
        key: &mut Vec<u8>,
        out: &mut Vec<u8>,
    ) -> Result<bool, KeepError>
        ensures ok { OnOk result (kept self.new ≡ after_read (kept self.old) area) }
        ensures found { IfOk result (λ found. IfSome (seen (kept self.old))
            (NextIs area table after.now found key.new.items out.new.items)) }
        // This holds even if the keeper reveals nothing.
        ensures gives { IfOk result (λ found. GivesNext after.now found key.new.items
            out.new.items) }
        ensures err { IfErr result (CallFails (after_read (kept self.old) area) (kept self.new)) };

    /// Sets the value that the transaction sees at the key.
    fn put(&mut self, area: Area, table: u32, key: &[u8], value: &[u8]) -> Result<(), KeepError>
        requires open { IsOpen (kept self.old) }
        requires key { IsKeySize key.now }
        requires value { IsValueSize value.now }
        ensures ok { OnOk result (kept self.new
            ≡ after_put (kept self.old) area table key.now value.now) }
        ensures err { IfErr result (CallFails (after_write (kept self.old) area) (kept self.new)) };

    /// Removes the value that the transaction sees at the key, and answers whether there was one.
    fn remove(&mut self, area: Area, table: u32, key: &[u8]) -> Result<bool, KeepError>
        requires { IsOpen (kept self.old) }
        ensures ok { OnOk result (kept self.new ≡ after_remove (kept self.old) area table key.now) }
        ensures found { IfOk result (λ found. IfSome (seen (kept self.old))
            (WasThere area table key.now found)) }
        ensures err { IfErr result (CallFails (after_write (kept self.old) area) (kept self.new)) };

    /// Ends the transaction: the keeper holds what it saw.
    fn commit(&mut self) -> Result<(), KeepError>
        requires { IsOpen (kept self.old) }
        ensures ok { OnOk result (kept self.new ≡ committed (kept self.old)) }
        ensures err { IfErr result (CommitFails (kept self.old) (kept self.new)) };

    /// Ends the transaction, if one is open: the keeper holds what it held before. If the keeper
    /// can't roll back, it counts a fault.
    fn rollback(&mut self)
        ensures { Closes (kept self.old) (kept self.new) };
}
