//! What user copies are.

ghost use Rattle.std.specs.Prelude.{◌≡◌, ℕ, None};
ghost use Rattle.std.specs.List.{AllByRecursion};
ghost use Rattle.std.specs.FinMap.{entries};
ghost use Rattle.repl_types.specs.Value.{Values};
ghost use Rattle.repl_types.specs.declared.table.TableDef.{TableDef};
ghost use Rattle.repl_definitions.specs.declared.member.Member.{Member};
ghost use Rattle.repl_model.specs.Copies.{copy_at, IsWhole, LeavesKeys};
ghost use Rattle.repl_model.specs.Selection.{SourceTable, target_row};
ghost use Rattle.repl_model.specs.MemberCopies.{user_copy};
ghost use Rattle.repl_model.specs.WholeMembers.{CopiesWholeRows};
ghost use Rattle.repl_model.specs.WorkedOrders.{orders};
ghost use Rattle.repl_model.specs.WorkedCopies.{changed_log, all_orders};

/// A user copy of all rows, each as it is, is the copy of the table. If the member has no predicate
/// and the table's columns in order, it copies whole rows as they are, and a log that leaves the
/// keys has only whole rows.
pub fn whole_member()
    ensures copy { (source : SourceTable) (member : Member) (point : ℕ) → member.filter ≡ None
        → AllByRecursion (λ r. target_row member r.1 ≡ r.1)
        (entries (copy_at source.def source.log point))
        → user_copy source member point ≡ entries (copy_at source.def source.log point) }
    ensures row { (def : TableDef) (member : Member) (row : Values) → CopiesWholeRows def member
        → IsWhole def row → target_row member row ≡ row }
    ensures whole { (source : SourceTable) (member : Member) (point : ℕ)
        → CopiesWholeRows source.def member → LeavesKeys source.def source.log
        → user_copy source member point ≡ entries (copy_at source.def source.log point) }
    ensures worked { CopiesWholeRows orders all_orders × LeavesKeys orders changed_log }
{}
