//! The columns that the texts of a member read.

ghost use Rattle.std.specs.Prelude.{◌≡◌};
ghost use Rattle.repl_model.specs.Rules.{columns_read, columns_tested};
ghost use Rattle.lists.specs.Lists.{are_among as are_among_lem};
ghost use Rattle.repl_model.specs.Rules.{operand_columns, columns_from, filter_columns};
ghost use Rattle.repl_model.specs.Rules.{just_column as just_column_lem};

use repl_definitions::{ColumnFrom, Expr, Member, Operand, Predicate};
use spelled_defs::is_among;

/// Whether an expression reads only columns at these places. It calls itself once for each
/// operation on the way down, of which a text of 4,096 bytes has few.
#[tactic(auto, using(crate::proofs::ReadsByNodes::reads_by_nodes))]
fn expr_reads_among(places: &[u32], expr: &Expr) -> bool
    ensures { result ≡ are_among_lem places.now (columns_read expr.now) }
{
    match expr {
        Expr::Column(place) => is_among(places, *place),
        Expr::Int(_) | Expr::Text(_) => true,
        Expr::Add(left, right)
        | Expr::Sub(left, right)
        | Expr::Mul(left, right)
        | Expr::Concat(left, right) => {
            expr_reads_among(places, left.get()) && expr_reads_among(places, right.get())
        }
    }
}

/// Whether an operand is a value, or a column at one of these places.
fn operand_reads_among(places: &[u32], operand: &Operand) -> bool
    ensures { result ≡ are_among_lem places.now (operand_columns operand.now) }
{
    match operand {
        Operand::Column(place) => is_among(places, *place),
        Operand::Value(_) => true,
    }
}

/// Whether a predicate reads only columns at these places. It calls itself as an expression does.
#[tactic(auto, using(crate::proofs::ReadsByNodes::reads_by_nodes))]
fn predicate_reads_among(places: &[u32], predicate: &Predicate) -> bool
    ensures { result ≡ are_among_lem places.now (columns_tested predicate.now) }
{
    match predicate {
        Predicate::Compare { left, op: _, right } => {
            operand_reads_among(places, left) && operand_reads_among(places, right)
        }
        Predicate::IsNull(place) | Predicate::IsNotNull(place) => is_among(places, *place),
        Predicate::And(left, right) | Predicate::Or(left, right) => {
            predicate_reads_among(places, left.get()) && predicate_reads_among(places, right.get())
        }
    }
}

/// Whether a column of a target comes only from columns at these places.
pub fn column_reads_among(places: &[u32], from: &ColumnFrom) -> bool
    ensures { result ≡ are_among_lem places.now (columns_from from.now) }
{
    match from {
        ColumnFrom::Plain(expr) => expr_reads_among(places, expr),
        ColumnFrom::Count => true,
        ColumnFrom::CountOf(place)
        | ColumnFrom::Sum(place)
        | ColumnFrom::Min(place)
        | ColumnFrom::Max(place) => is_among(places, *place),
    }
}

/// Whether the predicate of a member, if it has one, reads only columns at these places.
pub fn filter_reads_among(places: &[u32], member: &Member) -> bool
    ensures { result ≡ are_among_lem places.now (filter_columns member.now) }
{
    match &member.filter {
        Some(filter) => predicate_reads_among(places, filter),
        None => true,
    }
}

/// The column that a target's column is, if it is nothing more.
pub fn just_column(from: &ColumnFrom) -> Option<u32>
    ensures { result ≡ just_column_lem from.now }
{
    match from {
        ColumnFrom::Plain(Expr::Column(place)) => Some(*place),
        ColumnFrom::Plain(_) => None,
        ColumnFrom::Count => None,
        ColumnFrom::CountOf(_) | ColumnFrom::Sum(_) => None,
        ColumnFrom::Min(_) | ColumnFrom::Max(_) => None,
    }
}
