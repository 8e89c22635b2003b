//! Logs that were worked by hand: their units, their copies and their change rows.

ghost use Rattle.std.specs.Prelude.{◌≡◌, ◌∷◌, [], IsTrue, map, take, codes};
ghost use Rattle.std.specs.FinMap.{empty, insert};
ghost use Rattle.repl_types.specs.declared.change_row.Op.TheVariants.{I, U, D};
ghost use Rattle.repl_types.specs.declared.value.Value.TheVariants.{Null, Text};
ghost use Rattle.repl_model.specs.Units.{open_changes, units};
ghost use Rattle.repl_model.specs.ChangeRows.{changes_between};
ghost use Rattle.repl_model.specs.Copies.{copy_at, KeepsWholeRows, LeavesKeys, is_key_fixed};
ghost use Rattle.repl_model.specs.Worked.{items, item_key, item, plain_log, mixed_log};
ghost use Rattle.repl_model.specs.Worked.{as_they_come, taken_apart, change_row};

/// A small log, one transaction after another: its units, its copy and its change rows.
pub fn worked_log()
    ensures units { map (λ u. u.head.seq) (units plain_log) ≡ 3 ∷ 5 ∷ 7 ∷ [] }
    ensures copy { copy_at items plain_log 7
        ≡ insert empty (item_key 2) (item 2 (codes "red ink")) }
    ensures rows { changes_between plain_log as_they_come 0 7
        ≡ change_row 3 1 0 I (item 1 (codes "pen")) (Null ∷ [])
        ∷ change_row 3 2 0 I (item 2 (codes "ink")) (Null ∷ [])
        ∷ change_row 5 4 0 U (item 2 (codes "red ink")) (Text (codes "ink") ∷ [])
        ∷ change_row 7 6 0 D (item 1 (codes "pen")) (Text (codes "pen") ∷ [])
        ∷ [] }
    ensures keeps { KeepsWholeRows items as_they_come × LeavesKeys items plain_log
        × IsTrue (is_key_fixed items) }
{}

/// A small log of two transactions at a time: its units, what is in flight on the way, and its
/// change rows.
pub fn worked_mixed_log()
    ensures seqs { map (λ u. u.head.seq) (units mixed_log) ≡ 5 ∷ 8 ∷ [] }
    ensures changes { map (λ u. map (λ placed. placed.pos) u.changes) (units mixed_log)
        ≡ (2 ∷ []) ∷ (4 ∷ 6 ∷ 7 ∷ []) ∷ [] }
    ensures in_flight { map (λ placed. placed.pos) (open_changes 1 (take 6 mixed_log))
        ≡ 4 ∷ 6 ∷ [] }
    ensures rows { changes_between mixed_log taken_apart 0 8
        ≡ change_row 5 2 0 I (item 2 (codes "ink")) (Null ∷ [])
        ∷ change_row 8 4 0 I (item 3 (codes "cap")) (Null ∷ [])
        ∷ change_row 8 6 0 D (item 3 (codes "cap")) (Text (codes "cap") ∷ [])
        ∷ change_row 8 6 1 I (item 3 (codes "hat")) (Null ∷ [])
        ∷ [] }
{}
