//! The number of cells that words ask for.

ghost use Rattle.std.specs.Prelude.{◌≡◌, ℕ, MatchOption};
ghost use Rattle.std.specs.Option.{option_map};
ghost use Rattle.run_words.specs.Openings.{IsCellCount, SaysCells};

use crate::opening::{LEAST_CELLS, MOST_CELLS, USUAL_CELLS};
use repl_types::read_number;

/// The number that the text of `--cells` says, if it says one that a run may have.
pub fn read_cells(text: Option<&str>) -> Option<u32>
    ensures { let given = option_map (λ t. t.now) text.entry in MatchOption result
        ((cells : ℕ) → IsCellCount cells → ¬ (SaysCells given cells))
        (λ cells. IsCellCount cells × SaysCells given cells) }
{
    let Some(text) = text else {
        return Some(USUAL_CELLS);
    };
    let cells = read_number(
        text.as_bytes(),
        u64::from(LEAST_CELLS),
        u64::from(MOST_CELLS),
    )?;
    Some(cells as u32)
}
