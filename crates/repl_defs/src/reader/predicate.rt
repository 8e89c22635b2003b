//! Predicates.

ghost use Rattle.std.specs.Prelude.{◌≡◌, false, Some, None, IfOk, IfNone};
ghost use Rattle.std.specs.Option.{option_map};
ghost use Rattle.repl_model.specs.Rules.{operand_kind};
ghost use Rattle.repl_defs.specs.Grammar.{Joint};
ghost use Rattle.repl_defs.specs.ReadingPredicates.{operand_at, comparison_at};
ghost use Rattle.repl_defs.specs.ReadingPredicates.{comparable as comparable_lem};
ghost use Rattle.repl_defs.specs.Reading.{open_follows};
ghost use Rattle.repl_defs.specs.ReadingPredicates.{FailsPredicate, IsPredicateRead};
ghost use Rattle.repl_defs.specs.ReadingPredicates.{Completes, NeverCompletes, wants, after_left};
ghost use Rattle.repl_defs.specs.ReadingPredicates.{wants_right};

use crate::error::TextError;
use crate::reader::Reader;
use crate::token::Token;
use repl_definitions::{Boxed, CompareOp, Operand, Predicate};
use repl_types::{Kind, Value};
use std::alloc::{AllocError, Global};

/// That both predicates are true.
fn both(alloc: Global, left: Predicate, right: Predicate) -> Result<Predicate, AllocError>
    ensures { IfOk result (λ p. p ≡ Predicate.And left right) }
{
    let left = Boxed::new(alloc, left)?;
    Ok(Predicate::And(left, Boxed::new(alloc, right)?))
}

/// That one of two predicates is true.
fn either(alloc: Global, left: Predicate, right: Predicate) -> Result<Predicate, AllocError>
    ensures { IfOk result (λ p. p ≡ Predicate.Or left right) }
{
    let left = Boxed::new(alloc, left)?;
    Ok(Predicate::Or(left, Boxed::new(alloc, right)?))
}

impl<'a> Reader<'a> {
    /// The kind of an operand.
    fn operand_kind(&self, operand: &Operand) -> Option<Kind>
        ensures { result ≡ operand_kind self.now.columns.now operand.now }
    {
        match operand {
            Operand::Column(place) => self.kind_at(*place),
            Operand::Value(Value::Null) => None,
            Operand::Value(Value::Int(_)) => Some(Kind::Int),
            Operand::Value(Value::Text(_)) => Some(Kind::Text),
        }
    }

    /// Whether two operands have one kind.
    fn comparable(&self, left: &Operand, right: &Operand) -> bool
        ensures { result ≡ comparable_lem self.now.columns.now left.now right.now }
    {
        match (self.operand_kind(left), self.operand_kind(right)) {
            (Some(Kind::Int), Some(Kind::Int)) => true,
            (Some(Kind::Text), Some(Kind::Text)) => true,
            _ => false,
        }
    }

    /// Takes how two operands are compared, if that is the next token.
    fn comparison(&mut self) -> Option<CompareOp>
        ensures comparison { option_map (λ op. (op, self.new.rest.now)) result
            ≡ comparison_at self.old.rest.now }
        ensures none { IfNone result (self.new.rest.now ≡ self.old.rest.now) }
        ensures same { self.new.columns.now ≡ self.old.columns.now }
    {
        match self.rest {
            [Token::Compare(op), rest @ ..] => {
                self.rest = rest;
                Some(*op)
            }
            _ => None,
        }
    }

    /// Reads an operand: a column, an integer or a text.
    fn operand(&mut self) -> Result<Operand, TextError>
        ensures ok { IfOk result (λ operand.
            operand_at self.old.columns.now self.old.rest.now ≡ Some (operand, self.new.rest.now)) }
        ensures refused { result ≡ Err TextError.BadText
            → operand_at self.old.columns.now self.old.rest.now ≡ None }
        ensures same { self.new.columns.now ≡ self.old.columns.now }
    {
        match self.rest {
            [Token::Word(word), rest @ ..] => {
                let Some(place) = self.place(word.as_slice()) else {
                    return Err(TextError::BadText);
                };
                self.rest = rest;
                Ok(Operand::Column(place))
            }
            [Token::Text(text), rest @ ..] => {
                let text = text.clone()?;
                self.rest = rest;
                Ok(Operand::Value(Value::Text(text)))
            }
            _ => {
                let Some(number) = self.integer() else {
                    return Err(TextError::BadText);
                };
                Ok(Operand::Value(Value::Int(number)))
            }
        }
    }

    /// Reads what follows a column in a test for NULL.
    fn null_test(&mut self, place: u32) -> Result<Predicate, TextError>
        ensures ok { IfOk result
            (Completes self.old.columns.now (after_left (Operand.Column place))
            self.old.rest.now self.new.rest.now) }
        ensures refused { result ≡ Err TextError.BadText → comparison_at self.old.rest.now ≡ None
            → NeverCompletes self.old.columns.now (after_left (Operand.Column place))
            self.old.rest.now }
        ensures same { self.new.columns.now ≡ self.old.columns.now }
    {
        if !self.word(b"is") {
            return Err(TextError::BadText);
        }
        let negated = self.word(b"not");
        if !self.word(b"null") {
            return Err(TextError::BadText);
        }
        if negated {
            Ok(Predicate::IsNotNull(place))
        } else {
            Ok(Predicate::IsNull(place))
        }
    }

    /// Reads the right side of a comparison.
    fn compared(&mut self, left: Operand, op: CompareOp) -> Result<Predicate, TextError>
        ensures ok { IfOk result
            (Completes self.old.columns.now (wants_right left op) self.old.rest.now
            self.new.rest.now) }
        ensures refused { result ≡ Err TextError.BadText
            → NeverCompletes self.old.columns.now (wants_right left op) self.old.rest.now }
        ensures same { self.new.columns.now ≡ self.old.columns.now }
    {
        let right = self.operand()?;
        if !self.comparable(&left, &right) {
            return Err(TextError::BadText);
        }
        Ok(Predicate::Compare { left, op, right })
    }

    /// Reads a comparison or a test for NULL.
    fn test(&mut self) -> Result<Predicate, TextError>
        ensures ok { IfOk result
            (Completes self.old.columns.now wants self.old.rest.now self.new.rest.now) }
        ensures refused { result ≡ Err TextError.BadText → open_follows self.old.rest.now ≡ false
            → NeverCompletes self.old.columns.now wants self.old.rest.now }
        ensures same { self.new.columns.now ≡ self.old.columns.now }
    {
        let left = self.operand()?;
        if let Some(op) = self.comparison() {
            return self.compared(left, op);
        }
        match left {
            Operand::Column(place) => self.null_test(place),
            Operand::Value(_) => Err(TextError::BadText),
        }
    }

    /// Reads a comparison, a test for NULL or a predicate in parentheses.
    #[cycle(predicate)]
    fn atom(&mut self, alloc: Global) -> Result<Predicate, TextError>
        ensures ok { IfOk result
            (IsPredicateRead self.old.columns.now Joint.atom self.old.rest.now self.new.rest.now) }
        ensures refused { result ≡ Err TextError.BadText
            → FailsPredicate self.old.columns.now Joint.atom self.old.rest.now }
        ensures same { self.new.columns.now ≡ self.old.columns.now }
    {
        if !self.open() {
            return self.test();
        }
        let inner = self.predicate(alloc)?;
        if !self.close() {
            return Err(TextError::BadText);
        }
        Ok(inner)
    }

    /// Reads atoms with `and` between them.
    #[cycle(predicate)]
    fn conjunction(&mut self, alloc: Global) -> Result<Predicate, TextError>
        ensures ok { IfOk result
            (IsPredicateRead self.old.columns.now Joint.conjunction self.old.rest.now
            self.new.rest.now) }
        ensures refused { result ≡ Err TextError.BadText
            → FailsPredicate self.old.columns.now Joint.conjunction self.old.rest.now }
        ensures same { self.new.columns.now ≡ self.old.columns.now }
    {
        let mut left = self.atom(alloc)?;
        while self.word(b"and") {
            let right = self.atom(alloc)?;
            left = both(alloc, left, right)?;
        }
        Ok(left)
    }

    /// Reads conjunctions with `or` between them.
    #[cycle(predicate)]
    pub(super) fn predicate(&mut self, alloc: Global) -> Result<Predicate, TextError>
        ensures ok { IfOk result
            (IsPredicateRead self.old.columns.now Joint.disjunction self.old.rest.now
            self.new.rest.now) }
        ensures refused { result ≡ Err TextError.BadText
            → FailsPredicate self.old.columns.now Joint.disjunction self.old.rest.now }
        ensures same { self.new.columns.now ≡ self.old.columns.now }
    {
        let mut left = self.conjunction(alloc)?;
        while self.word(b"or") {
            let right = self.conjunction(alloc)?;
            left = either(alloc, left, right)?;
        }
        Ok(left)
    }
}
