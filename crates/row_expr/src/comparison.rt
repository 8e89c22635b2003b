//! Comparisons.

ghost use Rattle.std.specs.Prelude.{◌≡◌, unwrap_or};
ghost use Rattle.std.specs.Option.{option_copied};
ghost use Rattle.repl_types.specs.declared.value.Value.TheVariants.{Null};
ghost use Rattle.repl_model.specs.Expressions.{operand_value as operand_value_lem};
ghost use Rattle.repl_model.specs.Expressions.{is_ordered as is_ordered_lem, compares};

use crate::row_value::{is_null, value_at};
use repl_definitions::{CompareOp, Operand};
use repl_types::{Row, Value};
use std::cmp::Ordering;

/// The value of an operand for a row; None stands for NULL.
fn operand_value<'a>(operand: &'a Operand, row: &'a Row) -> Option<&'a Value>
    ensures { unwrap_or (option_copied result) Null ≡ operand_value_lem row.now operand.now }
{
    match operand {
        Operand::Column(place) => value_at(row, *place),
        Operand::Value(value) => Some(value),
    }
}

/// Whether values in this order compare so.
fn is_ordered(op: CompareOp, order: Ordering) -> bool
    ensures { result ≡ is_ordered_lem op order }
{
    match op {
        CompareOp::Eq => order.is_eq(),
        CompareOp::Ne => order.is_ne(),
        CompareOp::Lt => order.is_lt(),
        CompareOp::Le => order.is_le(),
        CompareOp::Gt => order.is_gt(),
        CompareOp::Ge => order.is_ge(),
    }
}

/// Whether a comparison of two values is true. One with NULL isn't.
fn compare_values(left: &Value, op: CompareOp, right: &Value) -> bool
    ensures { result ≡ compares op left.now right.now }
{
    !is_null(left) && !is_null(right) && is_ordered(op, left.cmp(right))
}

/// Whether a comparison is true of a row.
pub(crate) fn compare(left: &Operand, op: CompareOp, right: &Operand, row: &Row) -> bool
    ensures { result
        ≡ compares op (operand_value_lem row.now left.now) (operand_value_lem row.now right.now) }
{
    match (operand_value(left, row), operand_value(right, row)) {
        (Some(left), Some(right)) => compare_values(left, op, right),
        _ => false,
    }
}
