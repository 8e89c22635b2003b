//! The lines after which a body may come.

ghost use Rattle.std.specs.Prelude.{◌≡◌, option_copied};
ghost use Rattle.script_text.specs.Words.{first_word as first_word_lem};
ghost use Rattle.script_text.specs.Asked.{is_body_verb as is_body_verb_lem};
ghost use Rattle.script_text.specs.Asked.{takes_body as takes_body_lem};

use crate::words::is_word;
use std::str;

/// The first word of a line, if it has one. It takes no memory.
pub fn first_word(line: &[u8]) -> Option<&[u8]>
    ensures { option_copied result ≡ first_word_lem line.now }
{
    line.split(|byte| *byte == b' ')
        .find(|word| !word.is_empty())
}

/// Whether a word is the first of the commands that take a body.
fn is_body_verb(word: &[u8]) -> bool
    ensures { result ≡ is_body_verb_lem word.now }
{
    is_word(word, b"load") || is_word(word, b"feed")
}

/// Whether a body may come after a line: it may if the line is UTF-8 and its first word is `load`
/// or `feed`, whatever words follow. It takes no memory.
#[tactic(auto, using(crate::proofs::Answered::by_first_word, crate::proofs::Answered::no_body))]
pub fn takes_body(line: &[u8]) -> bool
    ensures { result ≡ takes_body_lem line.now }
{
    if str::from_utf8(line).is_err() {
        return false;
    }
    match first_word(line) {
        Some(word) => is_body_verb(word),
        None => false,
    }
}
