//! Expressions and predicates, node by node, and small ones that were worked by hand.

ghost use Rattle.std.specs.Prelude.{◌≡◌, ◌∷◌, [], ◌-◌, ◌^◌, ℕ, ℤ, pos, negsuc, List};
ghost use Rattle.std.specs.Prelude.{◌+ℤ◌, ◌-ℤ◌, ◌*ℤ◌, ◌&&◌, ◌||◌, not, true, false};
ghost use Rattle.std.specs.Prelude.{length, slice_index_or, codes};
ghost use Rattle.repl_types.specs.Value.{Values};
ghost use Rattle.repl_types.specs.declared.value.Value.TheVariants.{Null, Int, Text};
ghost use Rattle.repl_definitions.specs.declared.expr.Expr.{Expr};
ghost use Rattle.repl_definitions.specs.declared.expr.Expr.TheVariants as exprs;
ghost use Rattle.repl_definitions.specs.declared.predicate.CompareOp.{CompareOp};
ghost use Rattle.repl_definitions.specs.declared.predicate.CompareOp.TheVariants.{Eq, Ne, Lt};
ghost use Rattle.repl_definitions.specs.declared.predicate.CompareOp.TheVariants.{Le, Ge};
ghost use Rattle.repl_definitions.specs.declared.predicate.Operand.{Operand};
ghost use Rattle.repl_definitions.specs.declared.predicate.Operand.TheVariants as operands;
ghost use Rattle.repl_definitions.specs.declared.predicate.Predicate.{Predicate};
ghost use Rattle.repl_definitions.specs.declared.predicate.Predicate.TheVariants as predicates;
ghost use Rattle.repl_model.specs.Expressions.{is_null, of_integers, of_texts, value_of};
ghost use Rattle.repl_model.specs.Expressions.{operand_value, compares, is_true_of};
ghost use Rattle.repl_model.specs.WorkedExpressions.{mixed_row, column_is, value_is};

/// The value of an expression for a row is that of its node, given the values of the expressions
/// below it.
pub fn expressions_by_nodes()
    ensures column { (row : Values) (place : ℕ)
        → value_of row (exprs.Column place) ≡ slice_index_or row place Null }
    ensures int { (row : Values) (n : ℤ) → value_of row (exprs.Int n) ≡ Int n }
    ensures text { (row : Values) (t : List ℕ) → value_of row (exprs.Text t) ≡ Text t }
    ensures add { (row : Values) (left right : Expr) → value_of row (exprs.Add left right)
        ≡ of_integers ◌+ℤ◌ (value_of row left) (value_of row right) }
    ensures sub { (row : Values) (left right : Expr) → value_of row (exprs.Sub left right)
        ≡ of_integers ◌-ℤ◌ (value_of row left) (value_of row right) }
    ensures mul { (row : Values) (left right : Expr) → value_of row (exprs.Mul left right)
        ≡ of_integers ◌*ℤ◌ (value_of row left) (value_of row right) }
    ensures concat { (row : Values) (left right : Expr) → value_of row (exprs.Concat left right)
        ≡ of_texts (value_of row left) (value_of row right) }
{}

/// Whether a predicate is true of a row is decided by its node, given whether those below it are.
pub fn predicates_by_nodes()
    ensures compare { (row : Values) (left : Operand) (op : CompareOp) (right : Operand)
        → is_true_of row (predicates.Compare left op right)
        ≡ compares op (operand_value row left) (operand_value row right) }
    ensures null { (row : Values) (place : ℕ)
        → is_true_of row (predicates.IsNull place) ≡ is_null (slice_index_or row place Null) }
    ensures not_null { (row : Values) (place : ℕ) → is_true_of row (predicates.IsNotNull place)
        ≡ not (is_null (slice_index_or row place Null)) }
    ensures and { (row : Values) (left right : Predicate)
        → is_true_of row (predicates.And left right)
        ≡ (is_true_of row left && is_true_of row right) }
    ensures or { (row : Values) (left right : Predicate)
        → is_true_of row (predicates.Or left right)
        ≡ (is_true_of row left || is_true_of row right) }
{}

/// Expressions of a row that were worked by hand: an integer that 64 bits don't hold is NULL, also
/// inside an expression, and so is a text of over 1,000 bytes; an operation with NULL gives NULL.
pub fn worked_expressions()
    ensures sum { value_of mixed_row (exprs.Add (exprs.Column 0)
        (exprs.Mul (exprs.Int (pos 2)) (exprs.Int (pos 3)))) ≡ Int (pos 11) }
    ensures greatest { value_of mixed_row (exprs.Add (exprs.Int (pos (2 ^ 63 - 2)))
        (exprs.Int (pos 1))) ≡ Int (pos (2 ^ 63 - 1)) }
    ensures past_greatest { value_of mixed_row (exprs.Add (exprs.Int (pos (2 ^ 63 - 1)))
        (exprs.Int (pos 1))) ≡ Null }
    ensures least { value_of mixed_row (exprs.Sub (exprs.Int (negsuc (2 ^ 63 - 2)))
        (exprs.Int (pos 1))) ≡ Int (negsuc (2 ^ 63 - 1)) }
    ensures past_least { value_of mixed_row (exprs.Sub (exprs.Int (negsuc (2 ^ 63 - 1)))
        (exprs.Int (pos 1))) ≡ Null }
    ensures past_inside { value_of mixed_row (exprs.Sub (exprs.Add
        (exprs.Int (pos (2 ^ 63 - 1))) (exprs.Int (pos 1))) (exprs.Int (pos 1))) ≡ Null }
    ensures past_product { value_of mixed_row (exprs.Mul (exprs.Int (pos (2 ^ 62)))
        (exprs.Int (pos 2))) ≡ Null }
    ensures product { value_of mixed_row (exprs.Mul (exprs.Int (pos (2 ^ 62)))
        (exprs.Int (pos 1))) ≡ Int (pos (2 ^ 62)) }
    ensures null_sum { value_of mixed_row (exprs.Add (exprs.Column 2) (exprs.Int (pos 1))) ≡ Null }
    ensures null_text { value_of mixed_row (exprs.Concat (exprs.Column 1) (exprs.Column 2))
        ≡ Null }
    ensures joined { value_of mixed_row (exprs.Concat (exprs.Column 1) (exprs.Text (codes "c")))
        ≡ Text (codes "abc") }
    ensures longest { (t : List ℕ) → length t ≡ 1000
        → value_of mixed_row (exprs.Concat (exprs.Text t) (exprs.Text [])) ≡ Text t }
    ensures too_long { (t : List ℕ) (byte : ℕ) → length t ≡ 1000
        → value_of mixed_row (exprs.Concat (exprs.Text t) (exprs.Text (byte ∷ []))) ≡ Null }
{}

/// Predicates of a row that were worked by hand: a comparison with NULL on either side is false,
/// and another one goes by the order of the values.
pub fn worked_predicates()
    ensures null_equal { is_true_of mixed_row (column_is 2 Eq (Int (pos 5))) ≡ false }
    ensures null_unequal { is_true_of mixed_row (column_is 2 Ne (Int (pos 5))) ≡ false }
    ensures null_at_most { is_true_of mixed_row (column_is 2 Le (Int (pos 5))) ≡ false }
    ensures equal_null { is_true_of mixed_row (value_is (Int (pos 5)) Eq 2) ≡ false }
    ensures unequal_null { is_true_of mixed_row (value_is (Int (pos 5)) Ne 2) ≡ false }
    ensures at_most_null { is_true_of mixed_row (value_is (Int (pos 5)) Le 2) ≡ false }
    ensures at_least_null { is_true_of mixed_row (value_is (Int (pos 5)) Ge 2) ≡ false }
    ensures null_itself { is_true_of mixed_row (predicates.Compare (operands.Column 2) Eq
        (operands.Column 2)) ≡ false }
    ensures is_null { is_true_of mixed_row (predicates.IsNull 2) ≡ true }
    ensures less { is_true_of mixed_row (column_is 1 Lt (Text (codes "b"))) ≡ true }
    ensures at_least { is_true_of mixed_row (column_is 0 Ge (Int (pos 5))) ≡ true }
    ensures both { is_true_of mixed_row (predicates.And (column_is 0 Ge (Int (pos 5)))
        (column_is 1 Lt (Text (codes "b")))) ≡ true }
    ensures not_both { is_true_of mixed_row (predicates.And (column_is 0 Ge (Int (pos 5)))
        (column_is 2 Eq (Int (pos 5)))) ≡ false }
    ensures either { is_true_of mixed_row (predicates.Or (column_is 2 Eq (Int (pos 5)))
        (predicates.IsNull 2)) ≡ true }
    ensures neither { is_true_of mixed_row (predicates.Or (column_is 2 Eq (Int (pos 5)))
        (column_is 2 Ne (Int (pos 5)))) ≡ false }
{}
