//! Expressions.

ghost use Rattle.std.specs.Prelude.{◌≡◌, Some, None, IfOk, IfNone};
ghost use Rattle.std.specs.Option.{option_map};
ghost use Rattle.repl_defs.specs.Grammar.{Level};
ghost use Rattle.repl_defs.specs.ReadingExpressions.{Fails, HasKind, IsJoined, IsRead, leaf_at};
ghost use Rattle.repl_defs.specs.ReadingExpressions.{joined_kind, sign_at};

use crate::error::TextError;
use crate::reader::Reader;
use crate::token::Token;
use repl_definitions::{Boxed, Expr};
use repl_types::Kind;
use std::alloc::{AllocError, Global};

/// An expression, and its kind, if its operations have operands of their kinds.
#[derive(Drop)]
pub(super) struct KindedExpr {
    pub(super) expr: Expr,
    pub(super) kind: Option<Kind>,
}

/// What joins two expressions.
#[derive(Clone, Copy)]
enum Operator {
    Add,
    Sub,
    Mul,
    Concat,
}

impl Operator {
    /// The kind of the result, if the operands have their kinds.
    fn kind(self, left: Option<Kind>, right: Option<Kind>) -> Option<Kind>
        ensures { result ≡ joined_kind self left right }
    {
        match (self, left, right) {
            (Operator::Concat, Some(Kind::Text), Some(Kind::Text)) => Some(Kind::Text),
            (Operator::Concat, _, _) => None,
            (_, Some(Kind::Int), Some(Kind::Int)) => Some(Kind::Int),
            _ => None,
        }
    }

    /// Two expressions, joined.
    fn join(
        self,
        alloc: Global,
        left: KindedExpr,
        right: KindedExpr,
    ) -> Result<KindedExpr, AllocError>
        ensures { IfOk result (IsJoined self left right) }
    {
        let kind = self.kind(left.kind, right.kind);
        let left = Boxed::new(alloc, left.expr)?;
        let right = Boxed::new(alloc, right.expr)?;
        let expr = match self {
            Operator::Add => Expr::Add(left, right),
            Operator::Sub => Expr::Sub(left, right),
            Operator::Mul => Expr::Mul(left, right),
            Operator::Concat => Expr::Concat(left, right),
        };
        Ok(KindedExpr { expr, kind })
    }
}

impl<'a> Reader<'a> {
    /// Takes the token that joins two terms, if it is next.
    fn sign(&mut self) -> Option<Operator>
        ensures sign { option_map (λ operator. (operator, self.new.rest.now)) result
            ≡ sign_at self.old.rest.now }
        ensures none { IfNone result (self.new.rest.now ≡ self.old.rest.now) }
        ensures same { self.new.columns.now ≡ self.old.columns.now }
    {
        match self.rest {
            [Token::Plus, rest @ ..] => {
                self.rest = rest;
                Some(Operator::Add)
            }
            [Token::Minus(_), rest @ ..] => {
                self.rest = rest;
                Some(Operator::Sub)
            }
            [Token::Joined, rest @ ..] => {
                self.rest = rest;
                Some(Operator::Concat)
            }
            _ => None,
        }
    }

    /// Reads a column, an integer or a text.
    fn leaf(&mut self) -> Result<KindedExpr, TextError>
        ensures ok { IfOk result (λ read.
            leaf_at self.old.columns.now self.old.rest.now ≡ Some (read.expr, self.new.rest.now)) }
        ensures kind { IfOk result (HasKind self.old.columns.now) }
        ensures refused { result ≡ Err TextError.BadText
            → leaf_at self.old.columns.now self.old.rest.now ≡ None }
        ensures same { self.new.columns.now ≡ self.old.columns.now }
    {
        match self.rest {
            [Token::Word(word), rest @ ..] => {
                let Some(place) = self.place(word.as_slice()) else {
                    return Err(TextError::BadText);
                };
                self.rest = rest;
                Ok(KindedExpr {
                    expr: Expr::Column(place),
                    kind: self.kind_at(place),
                })
            }
            [Token::Text(text), rest @ ..] => {
                let text = text.clone()?;
                self.rest = rest;
                Ok(KindedExpr {
                    expr: Expr::Text(text),
                    kind: Some(Kind::Text),
                })
            }
            _ => {
                let Some(number) = self.integer() else {
                    return Err(TextError::BadText);
                };
                Ok(KindedExpr {
                    expr: Expr::Int(number),
                    kind: Some(Kind::Int),
                })
            }
        }
    }

    /// Reads a column, an integer, a text or an expression in parentheses.
    #[cycle(expression)]
    fn factor(&mut self, alloc: Global) -> Result<KindedExpr, TextError>
        ensures ok { IfOk result
            (IsRead self.old.columns.now Level.factor self.old.rest.now self.new.rest.now) }
        ensures refused { result ≡ Err TextError.BadText
            → Fails self.old.columns.now Level.factor self.old.rest.now }
        ensures same { self.new.columns.now ≡ self.old.columns.now }
    {
        if !self.open() {
            return self.leaf();
        }
        let inner = self.expression(alloc)?;
        if !self.close() {
            return Err(TextError::BadText);
        }
        Ok(inner)
    }

    /// Reads factors with `*` between them.
    #[cycle(expression)]
    fn term(&mut self, alloc: Global) -> Result<KindedExpr, TextError>
        ensures ok { IfOk result
            (IsRead self.old.columns.now Level.term self.old.rest.now self.new.rest.now) }
        ensures refused { result ≡ Err TextError.BadText
            → Fails self.old.columns.now Level.term self.old.rest.now }
        ensures same { self.new.columns.now ≡ self.old.columns.now }
    {
        let mut left = self.factor(alloc)?;
        while self.times() {
            let right = self.factor(alloc)?;
            left = Operator::Mul.join(alloc, left, right)?;
        }
        Ok(left)
    }

    /// Reads terms with `+`, `-` or `||` between them.
    #[cycle(expression)]
    pub(super) fn expression(&mut self, alloc: Global) -> Result<KindedExpr, TextError>
        ensures ok { IfOk result
            (IsRead self.old.columns.now Level.whole self.old.rest.now self.new.rest.now) }
        ensures refused { result ≡ Err TextError.BadText
            → Fails self.old.columns.now Level.whole self.old.rest.now }
        ensures same { self.new.columns.now ≡ self.old.columns.now }
    {
        let mut left = self.term(alloc)?;
        while let Some(operator) = self.sign() {
            let right = self.term(alloc)?;
            left = operator.join(alloc, left, right)?;
        }
        Ok(left)
    }
}
