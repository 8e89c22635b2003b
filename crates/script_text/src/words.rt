//! The words of a line.

ghost use Rattle.std.specs.Prelude.{◌≡◌, IfOk, take};
ghost use Rattle.std.specs.Bool.{Decides};
ghost use Rattle.script_text.specs.Words.{line_words, texts};

use std::alloc::{AllocError, Global};

/// How many words of a line are read: more than any command has.
pub(crate) const WORDS_READ: usize = 8;

/// The first words of a line. A line may have half a million, so those after the eighth are left
/// out.
pub(crate) fn first_words(alloc: Global, line: &[u8]) -> Result<Vec<&[u8]>, AllocError>
    ensures { IfOk result (λ words. texts words.items ≡ take WORDS_READ (line_words line.now)) }
{
    line.split(|byte| *byte == b' ')
        .filter(|word| !word.is_empty())
        .take(WORDS_READ)
        .collect(alloc)
}

/// Whether a word is this text.
pub(crate) fn is_word(word: &[u8], text: &[u8]) -> bool
    ensures { Decides result (word.now ≡ text.now) }
{
    word == text
}
