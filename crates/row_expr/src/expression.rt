//! Expressions.

ghost use Rattle.std.specs.Prelude.{◌≡◌, ◌≤◌, IfOk};
ghost use Rattle.repl_types.specs.Value.{Values};
ghost use Rattle.repl_model.specs.Expressions.{value_of};
ghost use Rattle.row_expr.specs.Evaluation.{IsTopOf, rest_sizes, whole_value, outcome, next_size};

use crate::operation::Operator;
use crate::row_value::value_at;
use repl_definitions::Expr;
use repl_model::expressions_by_nodes;
use repl_types::{Row, Value};
use std::alloc::{AllocError, Global};

/// What is at the top of an expression: a leaf with its value, or an operator and the sides that it
/// joins.
#[derive(Drop)]
enum Top<'a> {
    Leaf(Value),
    Joined(Operator, &'a Expr, &'a Expr),
}

/// The top of an expression.
fn top_of<'a>(expr: &'a Expr, row: &Row) -> Result<Top<'a>, AllocError>
    ensures { IfOk result (λ top. IsTopOf row.now expr.now top) }
{
    expressions_by_nodes();
    match expr {
        Expr::Column(place) => match value_at(row, *place) {
            Some(value) => Ok(Top::Leaf(value.clone()?)),
            None => Ok(Top::Leaf(Value::Null)),
        },
        Expr::Int(number) => Ok(Top::Leaf(Value::Int(*number))),
        Expr::Text(text) => Ok(Top::Leaf(Value::Text(text.clone()?))),
        Expr::Add(left, right) => Ok(Top::Joined(Operator::Add, left.get(), right.get())),
        Expr::Sub(left, right) => Ok(Top::Joined(Operator::Sub, left.get(), right.get())),
        Expr::Mul(left, right) => Ok(Top::Joined(Operator::Mul, left.get(), right.get())),
        Expr::Concat(left, right) => Ok(Top::Joined(Operator::Concat, left.get(), right.get())),
    }
}

/// An operation that waits for the value of a side.
#[derive(Drop)]
enum Waiting<'a> {
    /// It waits for the left side, and the right side isn't evaluated yet.
    ForLeft(Operator, &'a Expr),
    /// It has the value of the left side, and waits for the right side.
    ForRight(Operator, Value),
}

/// What comes next.
#[derive(Drop)]
enum Next<'a> {
    /// The last operation waits for this expression.
    Evaluate(&'a Expr),
    /// No operation waits, and this is the value.
    Finished(Value),
}

/// Gives a value to the last operation, and so on with what comes of it, up to an operation whose
/// right side is still to be evaluated.
fn settle<'a>(
    alloc: Global,
    waiting: &mut Vec<Waiting<'a>>,
    value: Value,
) -> Result<Next<'a>, AllocError>
    ensures same { IfOk result (λ next. (row : Values)
        → outcome row waiting.new.items next ≡ whole_value row waiting.old.items value) }
    ensures fewer { IfOk result (λ next.
        next_size waiting.new.items next ≤ rest_sizes waiting.old.items) }
{
    let mut value = value;
    while let Some(operation) = waiting.pop() {
        match operation {
            Waiting::ForLeft(operator, right) => {
                waiting.push(Waiting::ForRight(operator, value))?;
                return Ok(Next::Evaluate(right));
            }
            Waiting::ForRight(operator, left) => value = operator.apply(alloc, &left, &value)?,
        }
    }
    Ok(Next::Finished(value))
}

/// The value of an expression for a row.
///
/// A stored expression may be nested as deep as a stored value is long, so this doesn't recurse:
/// the operations that wait for the value of a side are in a list.
pub fn eval(alloc: Global, expr: &Expr, row: &Row) -> Result<Value, AllocError>
    ensures { IfOk result (λ value. value ≡ value_of row.now expr.now) }
{
    let mut waiting = Vec::new(alloc);
    let mut current = expr;
    loop {
        match top_of(current, row)? {
            Top::Joined(operator, left, right) => {
                waiting.push(Waiting::ForLeft(operator, right))?;
                current = left;
            }
            Top::Leaf(value) => match settle(alloc, &mut waiting, value)? {
                Next::Evaluate(expr) => current = expr,
                Next::Finished(value) => return Ok(value),
            },
        }
    }
}
