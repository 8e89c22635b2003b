//! The words of the language of columns and predicates, and names of columns.

ghost use Rattle.std.specs.Prelude.{◌≡◌, ◌==◌, ℕ, ◌^◌, ◌≤◌, length, map, IfSome, IfNone};
ghost use Rattle.std.specs.List.{list_all, position, zip};
ghost use Rattle.std.specs.Str.{bytes_eq};
ghost use Rattle.repl_defs.specs.Words.{capital, is_reserved as is_reserved_lem, says as says_lem};
ghost use Rattle.repl_defs.specs.Words.{Names};

use repl_types::{ColumnDef, List};

/// Whether the letters of a word, as far as this one goes, are its letters as capital ones.
fn has_capitals(spelled: &[u8], word: &[u8]) -> bool
    ensures { result ≡ list_all (λ pair. pair.0 == capital pair.1) (zip word.now spelled.now) }
{
    word.iter()
        .zip(spelled)
        .all(|(letter, small)| *letter == small.saturating_sub(32))
}

/// Whether a word is this one in capital letters.
fn is_in_capitals(spelled: &[u8], word: &[u8]) -> bool
    ensures { result ≡ bytes_eq word.now (map capital spelled.now) }
{
    word.len() == spelled.len() && has_capitals(spelled, word)
}

/// Whether a word is this one, written in small or in capital letters.
pub(crate) fn says(spelled: &[u8], word: &[u8]) -> bool
    ensures { result ≡ says_lem spelled.now word.now }
{
    word == spelled || is_in_capitals(spelled, word)
}

/// Whether a word belongs to the language, and so names no column.
pub(crate) fn is_reserved(word: &[u8]) -> bool
    ensures { result ≡ is_reserved_lem word.now }
{
    says(b"and", word)
        || says(b"or", word)
        || says(b"is", word)
        || says(b"not", word)
        || says(b"null", word)
        || says(b"count", word)
        || says(b"sum", word)
        || says(b"min", word)
        || says(b"max", word)
}

/// The place of the first column with a name.
fn place_of(columns: &[ColumnDef], name: &[u8]) -> Option<usize>
    ensures { result ≡ position (λ column. bytes_eq name.now column.name) columns.now }
{
    columns
        .iter()
        .position(|column| name == column.name.as_str().as_bytes())
}

/// The place of the column that a word names.
pub(crate) fn column_named(columns: &List<ColumnDef>, word: &[u8]) -> Option<u32>
    requires { length columns.now ≤ 2 ^ 32 }
    ensures named { IfSome result (λ place. Names columns.now word.now place) }
    ensures none { IfNone result ((place : ℕ) → Names columns.now word.now place → ⊥) }
{
    if is_reserved(word) {
        return None;
    }
    let place = place_of(columns.as_slice(), word)?;
    Some(place as u32)
}
