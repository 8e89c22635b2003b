//! Kinds of records.

ghost use Rattle.std.specs.Prelude.{◌≡◌, ◌++◌, OnOk, IfOk};
ghost use Rattle.repl_types.specs.Sizes.{IsValueSize};
ghost use Rattle.repl_types.specs.declared.area.Area.{Area};
ghost use Rattle.row_codec.specs.Takes.{NoSpelling};

use crate::key::Key;
use crate::part::{Part, take_whole};
use crate::table_number::TableNumber;
use crate::take_error::TakeError;
use repl_types::Area;
use std::alloc::{AllocError, Global};

/// A kind of record: the area and the table where it is kept, its key and its value, each with one
/// spelling.
pub trait Stored: Part {
    /// The key of a record: no two records of one table have the same.
    type Key: Key;

    /// Which table of its area: a fixed one, or one by number.
    type Table: TableNumber;

    /// The area where records of this kind are kept.
    const AREA: Area;

    /// The same area, for clauses.
    ghost AREA: { Area };

    /// What a record must meet to be stored, beyond its type: nothing for kinds of bounded length,
    /// each of whose values has a spelling.
    ghost storable: { Self → Type 0 };

    /// A record that may be stored has a spelling.
    ghost spelled: { (x : Self) → storable x → Self.has_spelling x };

    /// A record that may be stored has no more bytes than a stored value may have.
    ghost sized: { (x : Self) → Self.fits x → storable x → IsValueSize (Self.spelling x) };

    /// A record that was taken from stored bytes can be stored again.
    ghost again_stored: { (x : Self) → Self.fits x → IsValueSize (Self.spelling x) → storable x };

    /// Appends the spelling of the record. If memory runs out, what `out` holds is unspecified.
    final fn put(&self, out: &mut Vec<u8>) -> Result<(), AllocError>
        requires { Self.has_spelling self.now }
        ensures ok { OnOk result (out.new.items ≡ out.old.items ++ Self.spelling self.now) }
        ensures fits { OnOk result (Self.fits self.now) }
    {
        self.put_part(out)
    }

    /// The record whose spelling the bytes are. `Spelling` is returned only if they are no
    /// record's.
    final fn take(alloc: Global, bytes: &[u8]) -> Result<Self, TakeError>
        ensures ok { IfOk result (λ value. Self.fits value × (bytes.now ≡ Self.spelling value)) }
        ensures spelling { result ≡ Err TakeError.Spelling
            → NoSpelling Self.fits Self.spelling bytes.now }
    {
        take_whole::<Self>(alloc, bytes)
    }

    /// Appends the spelling of the key. If memory runs out, what `out` holds is unspecified.
    final fn put_key(key: &Self::Key, out: &mut Vec<u8>) -> Result<(), AllocError>
        ensures ok { OnOk result (out.new.items ≡ out.old.items ++ Self.Key.spelling key.now) }
        ensures fits { OnOk result (Self.Key.fits key.now) }
    {
        key.put_key(out)
    }

    /// The key whose spelling the bytes are. `Spelling` is returned only if they are no key's.
    final fn take_key(alloc: Global, bytes: &[u8]) -> Result<Self::Key, TakeError>
        ensures ok { IfOk result (λ key. Self.Key.fits key × (bytes.now ≡ Self.Key.spelling key)) }
        ensures spelling { result ≡ Err TakeError.Spelling
            → NoSpelling Self.Key.fits Self.Key.spelling bytes.now }
    {
        Self::Key::take_key(alloc, bytes)
    }
}
