//! Operations on two values.

ghost use Rattle.std.specs.Prelude.{◌≡◌, IfOk};
ghost use Rattle.repl_types.specs.declared.value.Value.TheVariants as values;
ghost use Rattle.row_expr.specs.Operations.{result_of};

use repl_types::{TEXT_LIMIT, Text, Value};
use std::alloc::{AllocError, Global};

/// What joins two expressions.
#[derive(Clone, Copy)]
pub(crate) enum Operator {
    Add,
    Sub,
    Mul,
    Concat,
}

/// What an operator makes of two integers. An integer that 64 bits don't hold is NULL.
fn of_integers(operator: Operator, left: i64, right: i64) -> Value
    ensures { result ≡ result_of operator (values.Int left) (values.Int right) }
{
    let number = match operator {
        Operator::Add => left.checked_add(right),
        Operator::Sub => left.checked_sub(right),
        Operator::Mul => left.checked_mul(right),
        Operator::Concat => None,
    };
    match number {
        Some(number) => Value::Int(number),
        None => Value::Null,
    }
}

/// What an operator makes of two texts. A text of over 1,000 bytes is NULL.
fn of_texts(
    alloc: Global,
    operator: Operator,
    left: &Text,
    right: &Text,
) -> Result<Value, AllocError>
    ensures { IfOk result (λ value.
        value ≡ result_of operator (values.Text left.now) (values.Text right.now)) }
{
    let left = left.as_str();
    let right = right.as_str();
    match operator {
        Operator::Concat if left.len() + right.len() <= TEXT_LIMIT => {
            let mut text = String::from_str(alloc, left)?;
            text.push_str(right)?;
            Ok(Value::Text(Text::new(text)))
        }
        _ => Ok(Value::Null),
    }
}

impl Operator {
    /// What the operator makes of two values: NULL, if they aren't two of the kind that it takes.
    pub(crate) fn apply(
        self,
        alloc: Global,
        left: &Value,
        right: &Value,
    ) -> Result<Value, AllocError>
        ensures { IfOk result (λ value. value ≡ result_of self left.now right.now) }
    {
        match (left, right) {
            (Value::Int(left), Value::Int(right)) => Ok(of_integers(self, *left, *right)),
            (Value::Text(left), Value::Text(right)) => of_texts(alloc, self, left, right),
            _ => Ok(Value::Null),
        }
    }
}
