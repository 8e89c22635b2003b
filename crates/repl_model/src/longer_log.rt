//! Laws for every log that is made longer by further records.

ghost use Rattle.std.specs.Prelude.{◌≡◌, ◌++◌, ◌≤◌, ℕ, List};
ghost use Rattle.repl_definitions.specs.declared.member.Member.{Member};
ghost use Rattle.repl_model.specs.Selection.{SourceTable, selected_changes};
ghost use Rattle.repl_model.specs.History.{interval_entries};

/// The selected changes of an interval, and the entries that they make, are those of its two
/// halves.
pub fn changes_in_two_halves()
    ensures selected { (source : SourceTable) (member : Member) (low mid high : ℕ) → low ≤ mid
        → mid ≤ high → selected_changes source member low high
        ≡ selected_changes source member low mid ++ selected_changes source member mid high }
    ensures entries { (source : SourceTable) (member : Member) (low mid high : ℕ) → low ≤ mid
        → mid ≤ high → interval_entries source member low high
        ≡ interval_entries source member low mid ++ interval_entries source member mid high }
{}
