//! Several parts, one after another.

ghost use Rattle.std.specs.Prelude.{◌≡◌, ◌≢◌, ◌++◌, ℕ, List, IfOk};

use crate::part::Part;
use crate::take_error::TakeError;
use std::alloc::Global;

/// Two parts from the start of the bytes, and the bytes after them.
pub fn take_two<A: Part, B: Part>(alloc: Global, bytes: &[u8]) -> Result<(A, B, &[u8]), TakeError>
    ensures ok { IfOk result (λ taken. (A.fits taken.0 × B.fits taken.1)
        × (bytes.now ≡ (A.spelling taken.0 ++ B.spelling taken.1) ++ taken.2.now)) }
    ensures spelling { result ≡ Err TakeError.Spelling
        → ((a : A) (b : B) (rest : List ℕ) → A.fits a → B.fits b
        → bytes.now ≢ (A.spelling a ++ B.spelling b) ++ rest) }
{
    let ((first, second), rest) = <(A, B)>::take_part(alloc, bytes)?;
    Ok((first, second, rest))
}

/// Three parts, likewise.
pub fn take_three<A: Part, B: Part, C: Part>(
    alloc: Global,
    bytes: &[u8],
) -> Result<(A, B, C, &[u8]), TakeError>
    ensures ok { IfOk result (λ taken. (A.fits taken.0 × B.fits taken.1 × C.fits taken.2)
        × (bytes.now ≡ (A.spelling taken.0 ++ B.spelling taken.1 ++ C.spelling taken.2)
        ++ taken.3.now)) }
    ensures spelling { result ≡ Err TakeError.Spelling
        → ((a : A) (b : B) (c : C) (rest : List ℕ) → A.fits a → B.fits b → C.fits c
        → bytes.now ≢ (A.spelling a ++ B.spelling b ++ C.spelling c) ++ rest) }
{
    let ((first, second), third, rest) = take_two::<(A, B), C>(alloc, bytes)?;
    Ok((first, second, third, rest))
}

/// Four parts, likewise.
pub fn take_four<A: Part, B: Part, C: Part, D: Part>(
    alloc: Global,
    bytes: &[u8],
) -> Result<(A, B, C, D, &[u8]), TakeError>
    ensures ok { IfOk result (λ taken. (A.fits taken.0 × B.fits taken.1 × C.fits taken.2
        × D.fits taken.3)
        × (bytes.now ≡ (A.spelling taken.0 ++ B.spelling taken.1 ++ C.spelling taken.2
        ++ D.spelling taken.3) ++ taken.4.now)) }
    ensures spelling { result ≡ Err TakeError.Spelling
        → ((a : A) (b : B) (c : C) (d : D) (rest : List ℕ) → A.fits a → B.fits b → C.fits c
        → D.fits d → bytes.now ≢ (A.spelling a ++ B.spelling b ++ C.spelling c ++ D.spelling d)
        ++ rest) }
{
    let ((first, second), third, fourth, rest) = take_three::<(A, B), C, D>(alloc, bytes)?;
    Ok((first, second, third, fourth, rest))
}

/// Five parts, likewise.
pub fn take_five<A: Part, B: Part, C: Part, D: Part, E: Part>(
    alloc: Global,
    bytes: &[u8],
) -> Result<(A, B, C, D, E, &[u8]), TakeError>
    ensures ok { IfOk result (λ taken. (A.fits taken.0 × B.fits taken.1 × C.fits taken.2
        × D.fits taken.3 × E.fits taken.4)
        × (bytes.now ≡ (A.spelling taken.0 ++ B.spelling taken.1 ++ C.spelling taken.2
        ++ D.spelling taken.3 ++ E.spelling taken.4) ++ taken.5.now)) }
    ensures spelling { result ≡ Err TakeError.Spelling
        → ((a : A) (b : B) (c : C) (d : D) (e : E) (rest : List ℕ) → A.fits a → B.fits b → C.fits c
        → D.fits d → E.fits e → bytes.now ≢ (A.spelling a ++ B.spelling b ++ C.spelling c
        ++ D.spelling d ++ E.spelling e) ++ rest) }
{
    let ((first, second), third, fourth, fifth, rest) = take_four::<(A, B), C, D, E>(alloc, bytes)?;
    Ok((first, second, third, fourth, fifth, rest))
}

/// Six parts, likewise.
pub fn take_six<A: Part, B: Part, C: Part, D: Part, E: Part, F: Part>(
    alloc: Global,
    bytes: &[u8],
) -> Result<(A, B, C, D, E, F, &[u8]), TakeError>
    ensures ok { IfOk result (λ taken. (A.fits taken.0 × B.fits taken.1 × C.fits taken.2
        × D.fits taken.3 × E.fits taken.4 × F.fits taken.5)
        × (bytes.now ≡ (A.spelling taken.0 ++ B.spelling taken.1 ++ C.spelling taken.2
        ++ D.spelling taken.3 ++ E.spelling taken.4 ++ F.spelling taken.5) ++ taken.6.now)) }
    ensures spelling { result ≡ Err TakeError.Spelling
        → ((a : A) (b : B) (c : C) (d : D) (e : E) (f : F) (rest : List ℕ) → A.fits a → B.fits b
        → C.fits c → D.fits d → E.fits e → F.fits f
        → bytes.now ≢ (A.spelling a ++ B.spelling b ++ C.spelling c ++ D.spelling d ++ E.spelling e
        ++ F.spelling f) ++ rest) }
{
    let ((first, second), third, fourth, fifth, sixth, rest) = take_five::<(A, B), C, D, E, F>(
        alloc, bytes,
    )?;
    Ok((first, second, third, fourth, fifth, sixth, rest))
}
