//! Parts of records, read from the start of bytes.

ghost use Rattle.std.specs.Prelude.{◌≡◌, ◌++◌, ℕ, List, OnOk, IfOk};
ghost use Rattle.row_codec.specs.Takes.{NoPrefix, NoSpelling, One, PairFits, pair_spelling};
ghost use Rattle.row_codec.specs.laws.Again.{pair_again};
ghost use Rattle.row_codec.specs.laws.Ones.{one_pair};

use crate::take_error::TakeError;
use std::alloc::{AllocError, Global};

/// A part of a record. Each value has one spelling, and bytes that begin with a spelling begin with
/// no other, so parts can stand one after another.
pub trait Part: Sized + Drop {
    /// Which of the values that a clause can speak of are values of the type that have a spelling.
    ghost fits: { Self → Type 0 };

    /// What a value of the type must meet to have a spelling.
    ghost has_spelling: { Self → Type 0 };

    /// The bytes of a value.
    ghost spelling: { Self → List ℕ };

    /// Appends the spelling. If memory runs out, what `out` holds is unspecified.
    fn put_part(&self, out: &mut Vec<u8>) -> Result<(), AllocError>
        requires { has_spelling self.now }
        ensures ok { OnOk result (out.new.items ≡ out.old.items ++ spelling self.now) }
        ensures fits { OnOk result (fits self.now) };

    /// The value whose spelling the bytes begin with, and the bytes after it. `Spelling` is
    /// returned only if they begin with no value's.
    fn take_part(alloc: Global, bytes: &[u8]) -> Result<(Self, &[u8]), TakeError>
        ensures ok { IfOk result (λ part. fits part.0
            × (bytes.now ≡ spelling part.0 ++ part.1.now)) }
        ensures spelling { result ≡ Err TakeError.Spelling → NoPrefix fits spelling bytes.now };

    /// Bytes begin with the spelling of at most one value.
    ghost one: { One fits spelling };

    /// What was taken can be put again.
    ghost again: { (x : Self) → fits x → has_spelling x };
}

impl<A: Part, B: Part> Part for (A, B) {
    ghost fits = { PairFits A.fits B.fits };

    ghost has_spelling = { PairFits A.has_spelling B.has_spelling };

    ghost spelling = { pair_spelling A.spelling B.spelling };

    ghost one = { one_pair A.fits B.fits A.spelling B.spelling A.one B.one };

    ghost again = { pair_again A.fits B.fits A.has_spelling B.has_spelling A.again B.again };

    fn put_part(&self, out: &mut Vec<u8>) -> Result<(), AllocError> {
        self.0.put_part(out)?;
        self.1.put_part(out)
    }

    fn take_part(alloc: Global, bytes: &[u8]) -> Result<((A, B), &[u8]), TakeError> {
        let (first, rest) = A::take_part(alloc, bytes)?;
        let (second, rest) = B::take_part(alloc, rest)?;
        Ok(((first, second), rest))
    }
}

/// The value whose spelling the bytes are, up to the last. `Spelling` is returned only if they are
/// no value's.
pub fn take_whole<T: Part>(alloc: Global, bytes: &[u8]) -> Result<T, TakeError>
    ensures ok { IfOk result (λ value. T.fits value × (bytes.now ≡ T.spelling value)) }
    ensures spelling { result ≡ Err TakeError.Spelling → NoSpelling T.fits T.spelling bytes.now }
{
    let (value, rest) = T::take_part(alloc, bytes)?;
    if !rest.is_empty() {
        return Err(TakeError::Spelling);
    }
    Ok(value)
}
