//! Expressions and predicates that are deep.

use repl_definitions::{Boxed, Expr, Predicate};
use repl_types::{List, Row, Value};
use row_expr::{eval, test};
use std::alloc::{AllocError, Global};
use std::test::Fail;

/// How deep a tree is nested whose nodes have a leaf at one side.
const DEPTH: u32 = 65_000;

/// How deep a tree is nested whose nodes have no leaf at either side.
const FORKS: u32 = 32_000;

/// The difference of two expressions.
fn minus(alloc: Global, left: Expr, right: Expr) -> Result<Expr, AllocError> {
    let left = Boxed::new(alloc, left)?;
    let right = Boxed::new(alloc, right)?;
    Ok(Expr::Sub(left, right))
}

#[test]
fn expressions_are_nested_65000_levels_deep(rt: HostRuntime) -> Result<(), Fail> {
    let alloc = rt.alloc();
    let row = List::new(alloc);
    let mut at_left = Expr::Int(1);
    let mut at_right = Expr::Int(1);
    for _ in 0..DEPTH {
        at_left = minus(alloc, at_left, Expr::Int(1))?;
        at_right = minus(alloc, Expr::Int(1), at_right)?;
    }
    assert_eq!(rt; eval(alloc, &at_left, &row)?, Value::Int(-64_999));
    assert_eq!(rt; eval(alloc, &at_right, &row)?, Value::Int(1));
    Ok(())
}

/// The row of NULL.
fn row_of_null(alloc: Global) -> Result<Row, Fail> {
    let mut row = List::new(alloc);
    row.push(Value::Null)?;
    Ok(row)
}

/// A predicate that is a leaf, and is true of a row of NULL or not.
fn leaf(truth: bool) -> Predicate {
    if truth {
        Predicate::IsNull(0)
    } else {
        Predicate::IsNotNull(0)
    }
}

/// Two predicates, joined by `and`, or else by `or`.
fn join(
    alloc: Global,
    is_and: bool,
    left: Predicate,
    right: Predicate,
) -> Result<Predicate, AllocError> {
    let left = Boxed::new(alloc, left)?;
    let right = Boxed::new(alloc, right)?;
    Ok(if is_and {
        Predicate::And(left, right)
    } else {
        Predicate::Or(left, right)
    })
}

/// A predicate that is nested in others, at the left or at the right, each of which is true if and
/// only if it is: `and` with what is true, and `or` with what is false, which are leaves or not.
fn nest(
    alloc: Global,
    levels: u32,
    at_left: bool,
    by_leaves: bool,
    innermost: bool,
) -> Result<Predicate, AllocError> {
    let mut predicate = leaf(innermost);
    for level in 0..levels {
        let is_and = level % 2 == 0;
        let beside = if by_leaves {
            leaf(is_and)
        } else {
            join(alloc, !is_and, leaf(is_and), leaf(!is_and))?
        };
        predicate = if at_left {
            join(alloc, is_and, predicate, beside)?
        } else {
            join(alloc, is_and, beside, predicate)?
        };
    }
    Ok(predicate)
}

#[test]
fn predicates_are_nested_65000_levels_deep(rt: HostRuntime) -> Result<(), Fail> {
    let alloc = rt.alloc();
    let row = row_of_null(alloc)?;
    for at_left in [true, false] {
        for innermost in [true, false] {
            let predicate = nest(alloc, DEPTH, at_left, true, innermost)?;
            assert_eq!(rt; test(&predicate, &row), innermost);
        }
    }
    Ok(())
}

#[test]
fn more_left_sides_are_pending_than_one_call_has_room_for(rt: HostRuntime) -> Result<(), Fail> {
    let alloc = rt.alloc();
    let row = row_of_null(alloc)?;
    for at_left in [true, false] {
        for innermost in [true, false] {
            let predicate = nest(alloc, FORKS, at_left, false, innermost)?;
            assert_eq!(rt; test(&predicate, &row), innermost);
        }
    }
    Ok(())
}
