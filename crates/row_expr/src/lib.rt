//! Expressions and predicates of a row: the value that an expression has, and whether a predicate
//! is true.
//!
//! It stands on `repl_definitions`, which has their types, and on `repl_model`, whose `value_of`
//! and `is_true_of` its contracts name. `apply_copies` stands on it. A stored expression or
//! predicate may be nested as deep as a stored value is long, so neither function calls itself for
//! each level: `eval` keeps a list of what waits for a value, and `test`, which takes no memory,
//! calls itself once in 256 levels at most.
//!
//! For example, for the row `(5, 'ab')` the value of `Add(Column(0), Int(2))` is 7, and the
//! predicate that compares column 1 with `'b'` by `Lt` is true. A column that the row lacks is read
//! as NULL.
#![tactic(auto)]

mod comparison;
mod expression;
mod operation;
mod pending;
mod predicate;
mod row_value;

pub use expression::eval;
pub use predicate::test;
