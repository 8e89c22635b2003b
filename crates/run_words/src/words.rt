//! What the words of a command line ask for.

ghost use Rattle.std.specs.Prelude.{◌≡◌, ◌↔◌, [], ◌∷◌, IsTrue, IfOk, codes, map, string_bytes};
ghost use Rattle.run_words.specs.declared.opening.Opening.{Opening};
ghost use Rattle.run_words.specs.Openings.{AreWordsOf};

use crate::cells::read_cells;
use crate::command::{cells_text, server_matches, server_texts, words_of_program};
use crate::opening::Opening;
use crate::servers::read_servers;
use repl_commands::WordsError;
use std::alloc::Global;

/// Whether the words are the one word `copy`.
fn asks_copy(words: &[String]) -> bool
    ensures { IsTrue result ↔ (map string_bytes words.now ≡ codes "copy" ∷ []) }
{
    match words {
        [word] => word.as_str() == "copy",
        _ => false,
    }
}

/// What the words ask for. `Usage` is returned only if they are the words of no opening.
pub fn server_words(alloc: Global, words: &[String]) -> Result<Opening, WordsError>
    ensures ok { IfOk result (λ opening. AreWordsOf (map string_bytes words.now) opening) }
    ensures usage { result ≡ Err WordsError.Usage
        → (opening : Opening) → ¬ (AreWordsOf (map string_bytes words.now) opening) }
{
    if asks_copy(words) {
        return Ok(Opening::Copy);
    }
    let all = words_of_program(alloc, words)?;
    let matches = server_matches(alloc, all.as_slice())?;
    let Some(cells) = read_cells(cells_text(&matches)) else {
        return Err(WordsError::Usage);
    };
    let Some(texts) = server_texts(&matches) else {
        return Err(WordsError::Usage);
    };
    let servers = read_servers(alloc, texts)?;
    Ok(Opening::Servers { cells, servers })
}
