//! Expressions.

ghost use Rattle.std.specs.Prelude.{◌≡◌, ◌+◌, ◌*◌, ◌<◌};
ghost use Rattle.repl_definitions.specs.Exprs.{expr_node_spelling, IsExprNode, HasExprNodeSpelling};
ghost use Rattle.repl_definitions.specs.Exprs.{expr_top, expr_nodes, expr_spelling, IsExpr};
ghost use Rattle.repl_definitions.specs.Exprs.{HasExprSpelling};
ghost use Rattle.repl_definitions.specs.Weights.{expr_weight};
ghost use Rattle.repl_definitions.specs.laws.Exprs.{one_expr_node, filled_expr_node, expr_forest};
ghost use Rattle.repl_definitions.specs.laws.Exprs.{expr_first, same_expr, one_expr, again_expr};

use crate::boxed::Boxed;
use crate::nested::{Nested, Root, clone_nested, put_nested, take_nested};
use repl_types::{Text, Value};
use row_codec::{Part, TakeError, put_text};
use std::alloc::{AllocError, Global};

/// An expression. A column is its place in the source table, counted from 0.
#[derive(Debug, PartialEq, Eq)]
pub enum Expr {
    Column(u32),
    Int(i64),
    Text(Text),
    Add(Boxed<Expr>, Boxed<Expr>),
    Sub(Boxed<Expr>, Boxed<Expr>),
    Mul(Boxed<Expr>, Boxed<Expr>),
    Concat(Boxed<Expr>, Boxed<Expr>),
}

impl Drop for Expr {
    // A tree may be nested as deep as a stored value is long, so dropping one doesn't recurse:
    // while a tree is at the left of another, it is moved to the right.
    fn drop(mut self) {
        loop {
            match self {
                Expr::Column(_) | Expr::Int(_) => return,
                Expr::Text(_) => return,
                Expr::Add(left, right)
                | Expr::Sub(left, right)
                | Expr::Mul(left, right)
                | Expr::Concat(left, right) => {
                    let mut place = left;
                    let first = place.replace(Expr::Column(0));
                    self = first.rotate(place, right);
                }
            }
        }
    }
}

impl Expr {
    /// A step of dropping an expression: `self` was at its left, in `place`, and `right` at its
    /// right. What is left to drop weighs less.
    fn rotate(self, mut place: Boxed<Expr>, right: Boxed<Expr>) -> Expr
        requires { place ≡ Expr.Column 0 }
        ensures { expr_weight result < 1 + 2 * expr_weight self + expr_weight right }
    {
        match self {
            Expr::Add(first, second)
            | Expr::Sub(first, second)
            | Expr::Mul(first, second)
            | Expr::Concat(first, second) => {
                place.replace(Expr::Add(second, right)).gone();
                Expr::Add(first, place)
            }
            Expr::Column(_) | Expr::Int(_) => {
                place.into_inner().gone();
                right.into_inner()
            }
            Expr::Text(_) => {
                place.into_inner().gone();
                right.into_inner()
            }
        }
    }

    /// Drops the leaf that `drop` leaves in an empty place.
    fn gone(self)
        requires { self ≡ Expr.Column 0 }
    {
        match self {
            Expr::Column(_) => {}
            _ => unreachable!(),
        }
    }
}

/// An expression that has no other below it.
#[derive(Drop)]
pub(crate) enum ExprLeaf {
    Column(u32),
    Int(i64),
    Text(Text),
}

/// What joins two expressions.
#[derive(Drop)]
pub(crate) enum ExprJoint {
    Add,
    Sub,
    Mul,
    Concat,
}

impl Nested for Expr {
    type Leaf = ExprLeaf;

    type Joint = ExprJoint;

    ghost node_fits = { IsExprNode };

    ghost has_node_spelling = { HasExprNodeSpelling };

    ghost node_spelling = { expr_node_spelling };

    ghost top = { expr_top };

    ghost nodes = { expr_nodes };

    ghost one_node = { one_expr_node };

    ghost filled = { filled_expr_node };

    ghost forest = { expr_forest };

    ghost first = { expr_first };

    ghost same = { same_expr };

    fn take_root(
        alloc: Global,
        bytes: &[u8],
    ) -> Result<(Root<ExprLeaf, ExprJoint>, &[u8]), TakeError> {
        match bytes {
            [0x10, rest @ ..] => {
                let (place, rest) = u16::take_part(alloc, rest)?;
                Ok((Root::Single(ExprLeaf::Column(u32::from(place))), rest))
            }
            [0x11, rest @ ..] => {
                let (value, rest) = Value::take_part(alloc, rest)?;
                match value {
                    Value::Null => Err(TakeError::Spelling),
                    Value::Int(number) => Ok((Root::Single(ExprLeaf::Int(number)), rest)),
                    Value::Text(text) => Ok((Root::Single(ExprLeaf::Text(text)), rest)),
                }
            }
            [0x12, rest @ ..] => Ok((Root::Joined(ExprJoint::Add), rest)),
            [0x13, rest @ ..] => Ok((Root::Joined(ExprJoint::Sub), rest)),
            [0x14, rest @ ..] => Ok((Root::Joined(ExprJoint::Mul), rest)),
            [0x15, rest @ ..] => Ok((Root::Joined(ExprJoint::Concat), rest)),
            _ => Err(TakeError::Spelling),
        }
    }

    #[tactic(auto, using(crate::specs::laws::Exprs::expr_views))]
    fn put_root(&self, out: &mut Vec<u8>) -> Result<Option<(&Expr, &Expr)>, AllocError> {
        match self {
            Expr::Column(place) => {
                out.push(0x10)?;
                (*place as u16).put_part(out)?;
                Ok(None)
            }
            Expr::Int(number) => {
                out.push(0x11)?;
                Value::Int(*number).put_part(out)?;
                Ok(None)
            }
            Expr::Text(text) => {
                out.push(0x11)?;
                put_text(text, out)?;
                Ok(None)
            }
            Expr::Add(left, right) => {
                out.push(0x12)?;
                Ok(Some((left.get(), right.get())))
            }
            Expr::Sub(left, right) => {
                out.push(0x13)?;
                Ok(Some((left.get(), right.get())))
            }
            Expr::Mul(left, right) => {
                out.push(0x14)?;
                Ok(Some((left.get(), right.get())))
            }
            Expr::Concat(left, right) => {
                out.push(0x15)?;
                Ok(Some((left.get(), right.get())))
            }
        }
    }

    #[tactic(auto, using(crate::specs::laws::Exprs::expr_views))]
    fn branches(&self) -> Option<(ExprJoint, &Expr, &Expr)> {
        match self {
            Expr::Column(_) | Expr::Int(_) => None,
            Expr::Text(_) => None,
            Expr::Add(left, right) => Some((ExprJoint::Add, left.get(), right.get())),
            Expr::Sub(left, right) => Some((ExprJoint::Sub, left.get(), right.get())),
            Expr::Mul(left, right) => Some((ExprJoint::Mul, left.get(), right.get())),
            Expr::Concat(left, right) => Some((ExprJoint::Concat, left.get(), right.get())),
        }
    }

    #[tactic(auto, using(crate::specs::laws::Exprs::expr_views))]
    fn copy_leaf(&self) -> Result<Expr, AllocError> {
        match self {
            Expr::Column(place) => Ok(Expr::Column(*place)),
            Expr::Int(number) => Ok(Expr::Int(*number)),
            Expr::Text(text) => Ok(Expr::Text(text.clone()?)),
            Expr::Add(_, _) | Expr::Sub(_, _) | Expr::Mul(_, _) | Expr::Concat(_, _) => {
                unreachable!()
            }
        }
    }

    #[tactic(auto, using(crate::specs::laws::Exprs::expr_views))]
    fn leaf(leaf: ExprLeaf) -> Expr {
        match leaf {
            ExprLeaf::Column(place) => Expr::Column(place),
            ExprLeaf::Int(number) => Expr::Int(number),
            ExprLeaf::Text(text) => Expr::Text(text),
        }
    }

    #[tactic(auto, using(crate::specs::laws::Exprs::expr_views))]
    fn join(alloc: Global, joint: ExprJoint, left: Expr, right: Expr) -> Result<Expr, AllocError> {
        let left = Boxed::new(alloc, left)?;
        let right = Boxed::new(alloc, right)?;
        Ok(match joint {
            ExprJoint::Add => Expr::Add(left, right),
            ExprJoint::Sub => Expr::Sub(left, right),
            ExprJoint::Mul => Expr::Mul(left, right),
            ExprJoint::Concat => Expr::Concat(left, right),
        })
    }
}

impl Part for Expr {
    ghost fits = { IsExpr };

    ghost has_spelling = { HasExprSpelling };

    ghost spelling = { expr_spelling };

    ghost one = { one_expr };

    ghost again = { again_expr };

    fn put_part(&self, out: &mut Vec<u8>) -> Result<(), AllocError> {
        put_nested::<Expr>(self, out)
    }

    fn take_part(alloc: Global, bytes: &[u8]) -> Result<(Expr, &[u8]), TakeError> {
        take_nested::<Expr>(alloc, bytes)
    }
}

impl Clone for Expr {
    ghost is_clone = { λ expr copy. copy ≡ expr };

    #[tactic(auto, using(crate::specs::laws::Exprs::expr_views))]
    fn clone(&self) -> Result<Expr, AllocError> {
        match self {
            Expr::Column(_) | Expr::Int(_) => self.copy_leaf(),
            Expr::Text(_) => self.copy_leaf(),
            Expr::Add(left, _) | Expr::Sub(left, _) | Expr::Mul(left, _) | Expr::Concat(left, _) =>
                clone_nested::<Expr>(left.allocator(), self),
        }
    }
}
