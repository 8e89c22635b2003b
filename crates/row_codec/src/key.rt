//! Keys: no two records of one table have the same.

ghost use Rattle.std.specs.Prelude.{◌≡◌, ◌++◌, ℕ, List, OnOk, IfOk};
ghost use Rattle.std.specs.Ordering.{nat_cmp};
ghost use Rattle.std.specs.declared.cmp.Ordering.{Ordering};
ghost use Rattle.repl_types.specs.Bytes.{bytes_cmp};
ghost use Rattle.repl_types.specs.Sizes.{IsKeySize};
ghost use Rattle.row_codec.specs.Order.{Ordered, name_cmp, set_cmp};
ghost use Rattle.row_codec.specs.Spelling.{Any, short_text, set_spelling, IsName, IsSet};
ghost use Rattle.row_codec.specs.Takes.{NoSpelling};
ghost use Rattle.row_codec.specs.laws.Names.{one_name, one_set};
ghost use Rattle.row_codec.specs.laws.Ones.{one_whole};
ghost use Rattle.row_codec.specs.laws.Orders.{order32, order64, order_name, order_set, whole_order};
ghost use Rattle.row_codec.specs.laws.Sizes.{key32, key64, key_name, key_set};

use crate::part::{Part, take_whole};
use crate::take_error::TakeError;
use repl_types::{Name, SetId};
use std::alloc::{AllocError, Global};

/// The key of a record: no two records of one table have the same. Byte order of spelled keys is
/// the order of keys.
pub trait Key: Sized + Drop {
    /// Which of the values that a clause can speak of are keys.
    ghost fits: { Self → Type 0 };

    /// The bytes of a key.
    ghost spelling: { Self → List ℕ };

    /// The order of keys.
    ghost cmp: { Self → Self → Ordering };

    /// What a key must meet to be stored, beyond its type: nothing for kinds of bounded length.
    ghost storable: { Self → Type 0 };

    /// Appends the spelling. If memory runs out, what `out` holds is unspecified.
    fn put_key(&self, out: &mut Vec<u8>) -> Result<(), AllocError>
        ensures ok { OnOk result (out.new.items ≡ out.old.items ++ spelling self.now) }
        ensures fits { OnOk result (fits self.now) };

    /// The key whose spelling the bytes are. `Spelling` is returned only if they are no key's.
    fn take_key(alloc: Global, bytes: &[u8]) -> Result<Self, TakeError>
        ensures ok { IfOk result (λ key. fits key × (bytes.now ≡ spelling key)) }
        ensures spelling { result ≡ Err TakeError.Spelling → NoSpelling fits spelling bytes.now };

    /// Two keys of one spelling are equal.
    ghost one: { (x y : Self) → fits x → fits y → spelling x ≡ spelling y → x ≡ y };

    /// Byte order of spelled keys is the order of keys.
    ghost order: { (x y : Self) → fits x → fits y → bytes_cmp (spelling x) (spelling y) ≡ cmp x y };

    /// A key that may be stored has the size of a stored key.
    ghost sized: { (k : Self) → fits k → storable k → IsKeySize (spelling k) };

    /// A key that was taken from stored bytes can be stored again.
    ghost again: { (k : Self) → fits k → IsKeySize (spelling k) → storable k };
}

/// A part that is a key too: each of its values has a spelling of the size of a key, and these are
/// in the order of the values, whatever follows them.
pub trait PartKey: Part {
    /// The order of values.
    ghost cmp: { Self → Self → Ordering };

    /// Each value has a spelling.
    ghost spelled: { (k : Self) → Self.has_spelling k };

    /// Spellings are in the order of values, whatever follows them.
    ghost ordered: { Ordered Self.fits Self.spelling cmp };

    /// Each spelling has the size of a stored key.
    ghost small: { (k : Self) → Self.fits k → IsKeySize (Self.spelling k) };
}

impl<T: PartKey> Key for T {
    ghost fits = { T.fits };

    ghost spelling = { T.spelling };

    ghost cmp = { T.cmp };

    ghost storable = { Any };

    ghost one = { one_whole T.fits T.spelling T.one };

    ghost order = { whole_order T.fits T.spelling T.cmp T.ordered };

    ghost sized = { λ k fits _. T.small k fits };

    ghost again = { λ _ _ _. tt };

    fn put_key(&self, out: &mut Vec<u8>) -> Result<(), AllocError> {
        self.put_part(out)
    }

    fn take_key(alloc: Global, bytes: &[u8]) -> Result<T, TakeError> {
        take_whole::<T>(alloc, bytes)
    }
}

impl PartKey for u32 {
    ghost cmp = { nat_cmp };

    ghost spelled = { λ _. tt };

    ghost ordered = { order32 };

    ghost small = { key32 };
}

impl PartKey for u64 {
    ghost cmp = { nat_cmp };

    ghost spelled = { λ _. tt };

    ghost ordered = { order64 };

    ghost small = { key64 };
}

// The names that are keys have implementations of their own: a kind of record in another crate
// whose key is a type of a third one can't take it from the implementation for all parts.
impl Key for Name {
    ghost fits = { IsName };

    ghost spelling = { short_text };

    ghost cmp = { name_cmp };

    ghost storable = { Any };

    ghost one = { one_whole IsName short_text one_name };

    ghost order = { whole_order IsName short_text name_cmp order_name };

    ghost sized = { λ key fits _. key_name key fits };

    ghost again = { λ _ _ _. tt };

    fn put_key(&self, out: &mut Vec<u8>) -> Result<(), AllocError> {
        self.put_part(out)
    }

    fn take_key(alloc: Global, bytes: &[u8]) -> Result<Name, TakeError> {
        take_whole::<Name>(alloc, bytes)
    }
}

impl Key for SetId {
    ghost fits = { IsSet };

    ghost spelling = { set_spelling };

    ghost cmp = { set_cmp };

    ghost storable = { Any };

    ghost one = { one_whole IsSet set_spelling one_set };

    ghost order = { whole_order IsSet set_spelling set_cmp order_set };

    ghost sized = { λ key fits _. key_set key fits };

    ghost again = { λ _ _ _. tt };

    fn put_key(&self, out: &mut Vec<u8>) -> Result<(), AllocError> {
        self.put_part(out)
    }

    fn take_key(alloc: Global, bytes: &[u8]) -> Result<SetId, TakeError> {
        take_whole::<SetId>(alloc, bytes)
    }
}
