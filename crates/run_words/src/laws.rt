//! What holds of the definitions that clauses cite. The function does nothing: its contract says
//! it.

ghost use Rattle.std.specs.Prelude.{◌≡◌, ℕ, List};
ghost use Rattle.run_words.specs.declared.opening.Opening.{Opening};
ghost use Rattle.run_words.specs.Openings.{AreWordsOf};

/// Words are those of one opening at most.
pub fn one_opening_of_words()
    ensures { (words : List (List ℕ)) (first second : Opening) → AreWordsOf words first
        → AreWordsOf words second → first ≡ second }
{}
