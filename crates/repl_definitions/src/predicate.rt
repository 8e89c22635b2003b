//! Predicates.

ghost use Rattle.std.specs.Prelude.{◌≡◌, ◌+◌, ◌*◌, ◌<◌};
ghost use Rattle.repl_definitions.specs.Predicates.{compare_op_spelling, operand_spelling};
ghost use Rattle.repl_definitions.specs.Predicates.{IsOperand, HasOperandSpelling};
ghost use Rattle.repl_definitions.specs.Predicates.{predicate_node_spelling, IsPredicateNode};
ghost use Rattle.repl_definitions.specs.Predicates.{HasPredicateNodeSpelling, predicate_top};
ghost use Rattle.repl_definitions.specs.Predicates.{predicate_nodes, predicate_spelling};
ghost use Rattle.repl_definitions.specs.Predicates.{IsPredicate, HasPredicateSpelling};
ghost use Rattle.repl_definitions.specs.Weights.{predicate_weight};
ghost use Rattle.repl_definitions.specs.laws.Predicates.{one_compare_op, one_operand};
ghost use Rattle.repl_definitions.specs.laws.Predicates.{again_operand, one_predicate_node};
ghost use Rattle.repl_definitions.specs.laws.Predicates.{filled_predicate_node, predicate_forest};
ghost use Rattle.repl_definitions.specs.laws.Predicates.{predicate_first, same_predicate};
ghost use Rattle.repl_definitions.specs.laws.Predicates.{one_predicate, again_predicate};
ghost use Rattle.row_codec.specs.Spelling.{Any};

use crate::boxed::Boxed;
use crate::nested::{Nested, Root, clone_nested, put_nested, take_nested};
use repl_types::Value;
use row_codec::{Part, TakeError, take_three};
use std::alloc::{AllocError, Global};

/// Which rows a member takes.
#[derive(Debug, PartialEq, Eq)]
pub enum Predicate {
    Compare {
        left: Operand,
        op: CompareOp,
        right: Operand,
    },
    IsNull(u32),
    IsNotNull(u32),
    And(Boxed<Predicate>, Boxed<Predicate>),
    Or(Boxed<Predicate>, Boxed<Predicate>),
}

impl Drop for Predicate {
    // As with an expression: a tree at the left of another is moved to the right.
    fn drop(mut self) {
        loop {
            match self {
                Predicate::Compare {
                    left: _,
                    op: _,
                    right: _,
                } => return,
                Predicate::IsNull(_) | Predicate::IsNotNull(_) => return,
                Predicate::And(left, right) | Predicate::Or(left, right) => {
                    let mut place = left;
                    let first = place.replace(Predicate::IsNull(0));
                    self = first.rotate(place, right);
                }
            }
        }
    }
}

impl Predicate {
    /// A step of dropping a predicate: `self` was at its left, in `place`, and `right` at its
    /// right. What is left to drop weighs less.
    fn rotate(self, mut place: Boxed<Predicate>, right: Boxed<Predicate>) -> Predicate
        requires { place ≡ Predicate.IsNull 0 }
        ensures { predicate_weight result < 1 + 2 * predicate_weight self + predicate_weight right }
    {
        match self {
            Predicate::And(first, second) | Predicate::Or(first, second) => {
                place.replace(Predicate::And(second, right)).gone();
                Predicate::And(first, place)
            }
            Predicate::Compare {
                left: _,
                op: _,
                right: _,
            } => {
                place.into_inner().gone();
                right.into_inner()
            }
            Predicate::IsNull(_) | Predicate::IsNotNull(_) => {
                place.into_inner().gone();
                right.into_inner()
            }
        }
    }

    /// Drops the leaf that `drop` leaves in an empty place.
    fn gone(self)
        requires { self ≡ Predicate.IsNull 0 }
    {
        match self {
            Predicate::IsNull(_) => {}
            _ => unreachable!(),
        }
    }
}

/// One side of a comparison: a column, or a value other than NULL.
#[derive(Clone, Debug, Drop, PartialEq, Eq)]
pub enum Operand {
    Column(u32),
    Value(Value),
}

/// How two operands are compared.
#[derive(Clone, Copy, Debug, PartialEq, Eq)]
pub enum CompareOp {
    Eq,
    Ne,
    Lt,
    Le,
    Gt,
    Ge,
}

impl Part for CompareOp {
    ghost fits = { Any };

    ghost has_spelling = { Any };

    ghost spelling = { compare_op_spelling };

    ghost one = { one_compare_op };

    ghost again = { λ _ _. tt };

    fn put_part(&self, out: &mut Vec<u8>) -> Result<(), AllocError> {
        let number = match self {
            CompareOp::Eq => 0x01,
            CompareOp::Ne => 0x02,
            CompareOp::Lt => 0x03,
            CompareOp::Le => 0x04,
            CompareOp::Gt => 0x05,
            CompareOp::Ge => 0x06,
        };
        Ok(out.push(number)?)
    }

    fn take_part(_: Global, bytes: &[u8]) -> Result<(CompareOp, &[u8]), TakeError> {
        match bytes {
            [0x01, rest @ ..] => Ok((CompareOp::Eq, rest)),
            [0x02, rest @ ..] => Ok((CompareOp::Ne, rest)),
            [0x03, rest @ ..] => Ok((CompareOp::Lt, rest)),
            [0x04, rest @ ..] => Ok((CompareOp::Le, rest)),
            [0x05, rest @ ..] => Ok((CompareOp::Gt, rest)),
            [0x06, rest @ ..] => Ok((CompareOp::Ge, rest)),
            _ => Err(TakeError::Spelling),
        }
    }
}

impl Part for Operand {
    ghost fits = { IsOperand };

    ghost has_spelling = { HasOperandSpelling };

    ghost spelling = { operand_spelling };

    ghost one = { one_operand };

    ghost again = { again_operand };

    fn put_part(&self, out: &mut Vec<u8>) -> Result<(), AllocError> {
        match self {
            Operand::Column(place) => {
                out.push(0x30)?;
                (*place as u16).put_part(out)
            }
            Operand::Value(value) => {
                out.push(0x31)?;
                value.put_part(out)
            }
        }
    }

    fn take_part(alloc: Global, bytes: &[u8]) -> Result<(Operand, &[u8]), TakeError> {
        match bytes {
            [0x30, rest @ ..] => {
                let (place, rest) = u16::take_part(alloc, rest)?;
                Ok((Operand::Column(u32::from(place)), rest))
            }
            [0x31, rest @ ..] => {
                let (value, rest) = Value::take_part(alloc, rest)?;
                match value {
                    Value::Null => Err(TakeError::Spelling),
                    _ => Ok((Operand::Value(value), rest)),
                }
            }
            _ => Err(TakeError::Spelling),
        }
    }
}

/// A predicate that has no other below it.
#[derive(Drop)]
pub(crate) enum PredicateLeaf {
    Compare {
        left: Operand,
        op: CompareOp,
        right: Operand,
    },
    IsNull(u32),
    IsNotNull(u32),
}

/// What joins two predicates.
#[derive(Drop)]
pub(crate) enum PredicateJoint {
    And,
    Or,
}

impl Nested for Predicate {
    type Leaf = PredicateLeaf;

    type Joint = PredicateJoint;

    ghost node_fits = { IsPredicateNode };

    ghost has_node_spelling = { HasPredicateNodeSpelling };

    ghost node_spelling = { predicate_node_spelling };

    ghost top = { predicate_top };

    ghost nodes = { predicate_nodes };

    ghost one_node = { one_predicate_node };

    ghost filled = { filled_predicate_node };

    ghost forest = { predicate_forest };

    ghost first = { predicate_first };

    ghost same = { same_predicate };

    fn take_root(
        alloc: Global,
        bytes: &[u8],
    ) -> Result<(Root<PredicateLeaf, PredicateJoint>, &[u8]), TakeError> {
        match bytes {
            [0x20, rest @ ..] => {
                let (left, op, right, rest) = take_three::<Operand, CompareOp, Operand>(
                    alloc, rest,
                )?;
                let compare = PredicateLeaf::Compare { left, op, right };
                Ok((Root::Single(compare), rest))
            }
            [0x21, rest @ ..] => {
                let (place, rest) = u16::take_part(alloc, rest)?;
                Ok((Root::Single(PredicateLeaf::IsNull(u32::from(place))), rest))
            }
            [0x22, rest @ ..] => {
                let (place, rest) = u16::take_part(alloc, rest)?;
                Ok((
                    Root::Single(PredicateLeaf::IsNotNull(u32::from(place))),
                    rest,
                ))
            }
            [0x23, rest @ ..] => Ok((Root::Joined(PredicateJoint::And), rest)),
            [0x24, rest @ ..] => Ok((Root::Joined(PredicateJoint::Or), rest)),
            _ => Err(TakeError::Spelling),
        }
    }

    #[tactic(auto, using(crate::specs::laws::Predicates::predicate_views))]
    fn put_root(&self, out: &mut Vec<u8>) -> Result<Option<(&Predicate, &Predicate)>, AllocError> {
        match self {
            Predicate::Compare { left, op, right } => {
                out.push(0x20)?;
                left.put_part(out)?;
                op.put_part(out)?;
                right.put_part(out)?;
                Ok(None)
            }
            Predicate::IsNull(place) => {
                out.push(0x21)?;
                (*place as u16).put_part(out)?;
                Ok(None)
            }
            Predicate::IsNotNull(place) => {
                out.push(0x22)?;
                (*place as u16).put_part(out)?;
                Ok(None)
            }
            Predicate::And(left, right) => {
                out.push(0x23)?;
                Ok(Some((left.get(), right.get())))
            }
            Predicate::Or(left, right) => {
                out.push(0x24)?;
                Ok(Some((left.get(), right.get())))
            }
        }
    }

    #[tactic(auto, using(crate::specs::laws::Predicates::predicate_views))]
    fn branches(&self) -> Option<(PredicateJoint, &Predicate, &Predicate)> {
        match self {
            Predicate::Compare {
                left: _,
                op: _,
                right: _,
            } => None,
            Predicate::IsNull(_) | Predicate::IsNotNull(_) => None,
            Predicate::And(left, right) => Some((PredicateJoint::And, left.get(), right.get())),
            Predicate::Or(left, right) => Some((PredicateJoint::Or, left.get(), right.get())),
        }
    }

    #[tactic(auto, using(crate::specs::laws::Predicates::predicate_views))]
    fn copy_leaf(&self) -> Result<Predicate, AllocError> {
        match self {
            Predicate::Compare { left, op, right } => Ok(Predicate::Compare {
                left: left.clone()?,
                op: *op,
                right: right.clone()?,
            }),
            Predicate::IsNull(place) => Ok(Predicate::IsNull(*place)),
            Predicate::IsNotNull(place) => Ok(Predicate::IsNotNull(*place)),
            Predicate::And(_, _) | Predicate::Or(_, _) => unreachable!(),
        }
    }

    #[tactic(auto, using(crate::specs::laws::Predicates::predicate_views))]
    fn leaf(leaf: PredicateLeaf) -> Predicate {
        match leaf {
            PredicateLeaf::Compare { left, op, right } => Predicate::Compare { left, op, right },
            PredicateLeaf::IsNull(place) => Predicate::IsNull(place),
            PredicateLeaf::IsNotNull(place) => Predicate::IsNotNull(place),
        }
    }

    #[tactic(auto, using(crate::specs::laws::Predicates::predicate_views))]
    fn join(
        alloc: Global,
        joint: PredicateJoint,
        left: Predicate,
        right: Predicate,
    ) -> Result<Predicate, AllocError> {
        let left = Boxed::new(alloc, left)?;
        let right = Boxed::new(alloc, right)?;
        Ok(match joint {
            PredicateJoint::And => Predicate::And(left, right),
            PredicateJoint::Or => Predicate::Or(left, right),
        })
    }
}

impl Part for Predicate {
    ghost fits = { IsPredicate };

    ghost has_spelling = { HasPredicateSpelling };

    ghost spelling = { predicate_spelling };

    ghost one = { one_predicate };

    ghost again = { again_predicate };

    fn put_part(&self, out: &mut Vec<u8>) -> Result<(), AllocError> {
        put_nested::<Predicate>(self, out)
    }

    fn take_part(alloc: Global, bytes: &[u8]) -> Result<(Predicate, &[u8]), TakeError> {
        take_nested::<Predicate>(alloc, bytes)
    }
}

impl Clone for Predicate {
    ghost is_clone = { λ predicate copy. copy ≡ predicate };

    #[tactic(auto, using(crate::specs::laws::Predicates::predicate_views))]
    fn clone(&self) -> Result<Predicate, AllocError> {
        match self {
            Predicate::Compare {
                left: _,
                op: _,
                right: _,
            } => self.copy_leaf(),
            Predicate::IsNull(_) | Predicate::IsNotNull(_) => self.copy_leaf(),
            Predicate::And(left, _) | Predicate::Or(left, _) => {
                clone_nested::<Predicate>(left.allocator(), self)
            }
        }
    }
}
