//! What a server stores of definitions: tables, registrations, and sets with their members,
//! columns, expressions and predicates, each a plain type with its one spelling.
//!
//! It stands on `row_codec`, which says what a kind of record is and spells its parts. On it stand
//! `repl_model`, which says what sets mean, `row_expr`, `repl_defs` and `world_store`. What would
//! be a `Box` in plain Rust is a `Boxed` here, which a clause sees as its value, so two trees are
//! equal in a clause if and only if they have the same nodes in the same places. A tree may be
//! nested as deep as a stored value is long, so no function that reads, writes, copies or drops one
//! recurses.
//!
//! For example, column 0 plus 1 is `Expr::Add` of `Expr::Column(0)` and `Expr::Int(1)`, spelled
//! `12 10 0000 11 01 8000000000000001`, two hexadecimal digits a byte.
#![tactic(auto)]

mod boxed;
mod defined;
mod expr;
mod member;
mod nested;
mod predicate;
mod set;

pub use boxed::Boxed;
pub use defined::{DefinedRegistration, DefinedTable};
pub use expr::Expr;
pub use member::{ColumnFrom, Member, TargetColumn, TargetKind};
pub use predicate::{CompareOp, Operand, Predicate};
pub use set::{SetDef, SourceSet, TargetSet};
