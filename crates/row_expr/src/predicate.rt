//! Predicates.

ghost use Rattle.std.specs.Prelude.{◌≡◌, ◌≤◌, ◌+◌, ◌<◌, ◌&&◌, ◌||◌, is_some, IfSome, length};
ghost use Rattle.repl_model.specs.Expressions.{is_true_of};
ghost use Rattle.row_expr.specs.PendingPredicates.{predicate_size, is_leaf, left_sizes};
ghost use Rattle.row_expr.specs.PendingPredicates.{whole_truth};
ghost use Rattle.row_expr.specs.Chains.{EndsAs};

use crate::comparison::compare;
use crate::pending::{LeftSide, Pending, ROOM};
use crate::row_value::is_null_at;
use repl_definitions::Predicate;
use repl_model::predicates_by_nodes;
use repl_types::Row;

/// Whether a leaf is true of a row; None if the predicate is no leaf.
fn leaf_truth(predicate: &Predicate, row: &Row) -> Option<bool>
    ensures leaf { is_some result ≡ is_leaf predicate.now }
    ensures truth { IfSome result (λ truth. truth ≡ is_true_of row.now predicate.now) }
{
    predicates_by_nodes();
    match predicate {
        Predicate::Compare { left, op, right } => Some(compare(left, *op, right, row)),
        Predicate::IsNull(place) => Some(is_null_at(row, *place)),
        Predicate::IsNotNull(place) => Some(!is_null_at(row, *place)),
        Predicate::And(_, _) | Predicate::Or(_, _) => None,
    }
}

/// Whether the side that is a leaf is true of a row, and the other side; None if neither side is a
/// leaf.
fn beside_leaf<'a>(
    left: &'a Predicate,
    right: &'a Predicate,
    row: &Row,
) -> Option<(bool, &'a Predicate)>
    ensures leaf { is_some result ≡ (is_leaf left.now || is_leaf right.now) }
    ensures and { IfSome result (λ found. (found.0 && is_true_of row.now found.1.now)
        ≡ (is_true_of row.now left.now && is_true_of row.now right.now)) }
    ensures or { IfSome result (λ found. (found.0 || is_true_of row.now found.1.now)
        ≡ (is_true_of row.now left.now || is_true_of row.now right.now)) }
    ensures smaller { IfSome result (λ found.
        predicate_size found.1.now ≤ predicate_size left.now + predicate_size right.now) }
{
    if let Some(truth) = leaf_truth(left, row) {
        return Some((truth, right));
    }
    match leaf_truth(right, row) {
        Some(truth) => Some((truth, left)),
        None => None,
    }
}

/// How a chain ends, each of whose predicates but the last has a leaf at one side.
enum ChainEnd<'a> {
    /// It is known whether the first of the chain is true.
    Known(bool),
    /// The first is true if and only if these sides are, joined, neither of which is a leaf.
    Fork(LeftSide<'a>, &'a Predicate),
}

/// The end of the chain that begins with a predicate.
fn chain_end<'a>(predicate: &'a Predicate, row: &Row) -> ChainEnd<'a>
    ensures { EndsAs row.now predicate.now result }
{
    predicates_by_nodes();
    let mut current = predicate;
    loop {
        match current {
            Predicate::And(left, right) => match beside_leaf(left.get(), right.get(), row) {
                Some((true, other)) => current = other,
                Some((false, _)) => return ChainEnd::Known(false),
                None => return ChainEnd::Fork(LeftSide::And(left.get()), right.get()),
            },
            Predicate::Or(left, right) => match beside_leaf(left.get(), right.get(), row) {
                Some((true, _)) => return ChainEnd::Known(true),
                Some((false, other)) => current = other,
                None => return ChainEnd::Fork(LeftSide::Or(left.get()), right.get()),
            },
            Predicate::Compare { left, op, right } => {
                return ChainEnd::Known(compare(left, *op, right, row));
            }
            Predicate::IsNull(place) => return ChainEnd::Known(is_null_at(row, *place)),
            Predicate::IsNotNull(place) => return ChainEnd::Known(!is_null_at(row, *place)),
        }
    }
}

/// Goes from a predicate down to the right, where each left side is added to those that are
/// pending, and answers whether the right side of the last of these is true.
#[cycle(truth)]
fn descend<'a>(predicate: &'a Predicate, row: &Row, pending: &mut Pending<'a>) -> bool
    requires { length pending.old < ROOM }
    ensures same { whole_truth row.now pending.new result
        ≡ whole_truth row.now pending.old (is_true_of row.now predicate.now) }
    ensures smaller { left_sizes pending.new
        < left_sizes pending.old + predicate_size predicate.now }
    ensures room { length pending.new ≤ ROOM }
{
    let mut current = predicate;
    loop {
        match chain_end(current, row) {
            ChainEnd::Known(truth) => return truth,
            ChainEnd::Fork(left, right) => {
                pending.push(left);
                if pending.is_full() {
                    return test_forks(right, row);
                }
                current = right;
            }
        }
    }
}

/// Whether a predicate is true of a row, with a place for the left sides that are pending.
#[cycle(truth)]
fn test_forks(predicate: &Predicate, row: &Row) -> bool
    ensures { result ≡ is_true_of row.now predicate.now }
{
    let mut pending = Pending::new(predicate);
    let mut current = predicate;
    loop {
        let truth = descend(current, row, &mut pending);
        match pending.resume(truth) {
            Some(left) => current = left,
            None => return truth,
        }
    }
}

/// Whether a predicate is true of a row. It takes no memory.
///
/// A stored predicate may be nested as deep as a stored value is long, so a call for each level
/// could run out of stack. If a side is a leaf, that is tested first, and the other side takes the
/// predicate's place. If neither is, the left side is pending while the right side is tested. A
/// stored value has room for fewer than 32,768 predicates neither of whose sides is a leaf, and a
/// call has room for 256 left sides, so at most 128 calls of `test_forks` are at work at a time.
/// Most predicates have no such place, and for these no room is made.
pub fn test(predicate: &Predicate, row: &Row) -> bool
    ensures { result ≡ is_true_of row.now predicate.now }
{
    match chain_end(predicate, row) {
        ChainEnd::Known(truth) => truth,
        ChainEnd::Fork(_, _) => test_forks(predicate, row),
    }
}
