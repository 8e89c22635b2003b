//! Laws of changes: change rows may be captured piece by piece, change rows alone make a copy, and
//! a change can be undone.

ghost use Rattle.std.specs.Prelude.{◌≡◌, ◌∷◌, [], ◌++◌, ◌≤◌, ℕ, IsTrue, List, Some};
ghost use Rattle.std.specs.FinMap.{empty};
ghost use Rattle.repl_types.specs.declared.record.Change.{Change};
ghost use Rattle.repl_types.specs.declared.record.LogRecord.{LogRecord};
ghost use Rattle.repl_types.specs.declared.table.TableDef.{TableDef};
ghost use Rattle.repl_types.specs.declared.change_row.Registration.{Registration};
ghost use Rattle.repl_model.specs.Tables.{Rows, applies, after_change, inverse};
ghost use Rattle.repl_model.specs.Units.{last_commit};
ghost use Rattle.repl_model.specs.ChangeRows.{changes_between, after_change_rows};
ghost use Rattle.repl_model.specs.Applicable.{table_named, is_applicable};
ghost use Rattle.repl_model.specs.Copies.{copy_at, KeepsWholeRows, LeavesKeys, is_key_fixed};

/// A copy that is kept only by the change rows of a registration, whole rows as they come, is the
/// source: from no rows up to the last commit, and from a copy at one point up to a later one. The
/// log's changes must leave the keys; if the key is fixed, one more applicable record keeps it so.
pub fn copy_by_change_rows()
    ensures whole { (def : TableDef) (reg : Registration) (log : List LogRecord)
        → KeepsWholeRows def reg → LeavesKeys def log
        → after_change_rows def (changes_between log reg 0 (last_commit log)) empty
        ≡ copy_at def log (last_commit log) }
    ensures onward { (def : TableDef) (reg : Registration) (low high : ℕ) (log : List LogRecord)
        → KeepsWholeRows def reg → LeavesKeys def log → low ≤ high
        → after_change_rows def (changes_between log reg low high) (copy_at def log low)
        ≡ copy_at def log high }
    ensures keys { (def : TableDef) (tables : List TableDef) (log : List LogRecord) (r : LogRecord)
        → table_named def.name tables ≡ Some def → IsTrue (is_key_fixed def) → LeavesKeys def log
        → IsTrue (is_applicable tables log r) → LeavesKeys def (log ++ r ∷ []) }
{}

/// If a change applies, the change and then its inverse leave the rows as they were.
pub fn undo()
    ensures { (def : TableDef) (change : Change) (rows : Rows) → IsTrue (applies def change rows)
        → after_change def (inverse change) (after_change def change rows) ≡ rows }
{}
