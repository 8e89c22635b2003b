//! The parts of commands: names, sets and numbers.

ghost use Rattle.std.specs.Prelude.{◌≡◌, ◌∷◌, [], ◌≤◌, ℕ, IfOk, IfErr, IsTrue, Option, codes};
ghost use Rattle.repl_types.specs.Name.{is_name};
ghost use Rattle.repl_types.specs.declared.record.SetId.{SetId};
ghost use Rattle.script_text.specs.Words.{texts};
ghost use Rattle.script_text.specs.Commands.{IsSetName, IsCount, IsMinutes, IsAmount, IsSeed};
ghost use Rattle.script_text.specs.Commands.{highest_number};
ghost use Rattle.script_text.specs.Readings.{IsRefusal, IsNumberWord, IsOption, AreLimits};

use crate::words::is_word;
use repl_commands::LineError;
use repl_types::{Name, SetId, read_number};
use std::alloc::Global;

/// The name that a word is.
pub(crate) fn read_name(alloc: Global, word: &[u8]) -> Result<Name, LineError>
    ensures ok { IfOk result (λ name. (name ≡ word.now) × IsTrue (is_name word.now)) }
    ensures refused { IfErr result (IsRefusal (IsTrue (is_name word.now))) }
{
    match Name::read(alloc, word)? {
        Some(name) => Ok(name),
        None => Err(LineError::BadLine),
    }
}

/// The set with this qualifier and this name.
pub(crate) fn read_set(alloc: Global, qual: &[u8], name: &[u8]) -> Result<SetId, LineError>
    ensures ok { IfOk result
        (λ set. (set.qual ≡ qual.now) × (set.name ≡ name.now) × IsSetName set) }
    ensures refused { IfErr result
        (IsRefusal (IsTrue (is_name qual.now) × IsTrue (is_name name.now))) }
{
    Ok(SetId {
        qual: read_name(alloc, qual)?,
        name: read_name(alloc, name)?,
    })
}

/// The set whose qualifier and name are all of these words.
pub(crate) fn read_one_set(alloc: Global, words: &[&[u8]]) -> Result<SetId, LineError>
    ensures ok { IfOk result (λ set. IsSetName set × (texts words.now ≡ set.qual ∷ set.name ∷ [])) }
    ensures refused { IfErr result (IsRefusal ((set : SetId) × IsSetName set
        × (texts words.now ≡ set.qual ∷ set.name ∷ []))) }
{
    match words {
        [qual, name] => read_set(alloc, qual, name),
        _ => Err(LineError::BadLine),
    }
}

/// The number from `low` to `high` that a word spells.
fn read_between(word: &[u8], low: u64, high: u64) -> Result<u64, LineError>
    ensures ok { IfOk result (IsNumberWord (λ n. (low ≤ n) × (n ≤ high)) word.now) }
    ensures refused { IfErr result (IsRefusal ((n : ℕ)
        × IsNumberWord (λ n. (low ≤ n) × (n ≤ high)) word.now n)) }
{
    match read_number(word, low, high) {
        Some(number) => Ok(number),
        None => Err(LineError::BadLine),
    }
}

/// The number of 32 bits, `low` or above, that a word spells.
fn read_u32(word: &[u8], low: u64) -> Result<u32, LineError>
    ensures ok { IfOk result (IsNumberWord (λ n. (low ≤ n) × (n ≤ highest_number)) word.now) }
    ensures refused { IfErr result (IsRefusal ((n : ℕ)
        × IsNumberWord (λ n. (low ≤ n) × (n ≤ highest_number)) word.now n)) }
{
    Ok(read_between(word, low, u64::from(u32::MAX))? as u32)
}

/// How many units to capture, or after how many to commit.
fn read_count(word: &[u8]) -> Result<u32, LineError>
    ensures ok { IfOk result (IsNumberWord IsCount word.now) }
    ensures refused { IfErr result (IsRefusal ((n : ℕ) × IsNumberWord IsCount word.now n)) }
{
    read_u32(word, 1)
}

/// A number of minutes.
pub(crate) fn read_minutes(word: &[u8]) -> Result<u32, LineError>
    ensures ok { IfOk result (IsNumberWord IsMinutes word.now) }
    ensures refused { IfErr result (IsRefusal ((n : ℕ) × IsNumberWord IsMinutes word.now n)) }
{
    read_u32(word, 0)
}

/// How many units to make, or how many changes in each.
pub(crate) fn read_amount(word: &[u8]) -> Result<u32, LineError>
    ensures ok { IfOk result (IsNumberWord IsAmount word.now) }
    ensures refused { IfErr result (IsRefusal ((n : ℕ) × IsNumberWord IsAmount word.now n)) }
{
    read_u32(word, 0)
}

/// A seed.
pub(crate) fn read_seed(word: &[u8]) -> Result<u64, LineError>
    ensures ok { IfOk result (IsNumberWord IsSeed word.now) }
    ensures refused { IfErr result (IsRefusal ((n : ℕ) × IsNumberWord IsSeed word.now n)) }
{
    read_between(word, 0, u64::MAX)
}

/// The number of `[every E]`.
fn read_every(words: &[&[u8]]) -> Result<Option<u32>, LineError>
    ensures ok { IfOk result (IsOption (codes "every") (texts words.now)) }
    ensures refused { IfErr result (IsRefusal ((every : Option ℕ)
        × IsOption (codes "every") (texts words.now) every)) }
{
    match words {
        [] => Ok(None),
        [word, every] if is_word(word, b"every") => Ok(Some(read_count(every)?)),
        _ => Err(LineError::BadLine),
    }
}

/// The numbers of `[units U] [every E]`.
pub(crate) fn read_limits(words: &[&[u8]]) -> Result<(Option<u32>, Option<u32>), LineError>
    ensures ok { IfOk result (λ limits. AreLimits (texts words.now) limits.0 limits.1) }
    ensures refused { IfErr result (IsRefusal ((units every : Option ℕ)
        × AreLimits (texts words.now) units every)) }
{
    match words {
        [word, units, rest @ ..] if is_word(word, b"units") => {
            Ok((Some(read_count(units)?), read_every(rest)?))
        }
        _ => Ok((None, read_every(words)?)),
    }
}
