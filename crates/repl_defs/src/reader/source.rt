//! All the tokens of a text: what a column of a target comes from, or a predicate.

ghost use Rattle.std.specs.Prelude.{◌≡◌, Some, IfOk};
ghost use Rattle.repl_defs.specs.ReadingTexts.{function_named as function_named_lem, summary_of};
ghost use Rattle.repl_defs.specs.ReadingTexts.{IsFittingSource, IsFittingPredicate};

use crate::error::TextError;
use crate::reader::Reader;
use crate::reader::expression::KindedExpr;
use crate::token::Token;
use crate::words::says;
use repl_definitions::{ColumnFrom, Predicate};
use std::alloc::Global;

/// The function of this name, of a column.
fn function_named(word: &[u8], place: u32) -> Option<ColumnFrom>
    ensures { result ≡ function_named_lem word.now place }
{
    if says(b"count", word) {
        Some(ColumnFrom::CountOf(place))
    } else if says(b"sum", word) {
        Some(ColumnFrom::Sum(place))
    } else if says(b"min", word) {
        Some(ColumnFrom::Min(place))
    } else if says(b"max", word) {
        Some(ColumnFrom::Max(place))
    } else {
        None
    }
}

impl<'a> Reader<'a> {
    /// The function of rows that all the tokens are, if they are one.
    fn summary(&self) -> Option<ColumnFrom>
        ensures { result ≡ summary_of self.now.columns.now self.now.rest.now }
    {
        match self.rest {
            [Token::Word(word), Token::Open, Token::Times, Token::Close] => {
                if says(b"count", word.as_slice()) {
                    Some(ColumnFrom::Count)
                } else {
                    None
                }
            }
            [
                Token::Word(word),
                Token::Open,
                Token::Word(column),
                Token::Close,
            ] => function_named(word.as_slice(), self.place(column.as_slice())?),
            _ => None,
        }
    }

    /// Reads all the tokens as what a column of a target comes from.
    pub(crate) fn whole_source(&mut self, alloc: Global) -> Result<ColumnFrom, TextError>
        ensures ok { IfOk result (IsFittingSource self.old.columns.now self.old.rest.now) }
        ensures refused { result ≡ Err TextError.BadText → (from : ColumnFrom)
            → IsFittingSource self.old.columns.now self.old.rest.now from → ⊥ }
    {
        if let Some(summary) = self.summary() {
            return Ok(summary);
        }
        let KindedExpr { expr, kind } = self.expression(alloc)?;
        if !self.rest.is_empty() || kind.is_none() {
            return Err(TextError::BadText);
        }
        Ok(ColumnFrom::Plain(expr))
    }

    /// Reads all the tokens as a predicate.
    pub(crate) fn whole_predicate(&mut self, alloc: Global) -> Result<Predicate, TextError>
        ensures ok { IfOk result (IsFittingPredicate self.old.columns.now self.old.rest.now) }
        ensures refused { result ≡ Err TextError.BadText → (p : Predicate)
            → IsFittingPredicate self.old.columns.now self.old.rest.now p → ⊥ }
    {
        let predicate = self.predicate(alloc)?;
        if !self.rest.is_empty() {
            return Err(TextError::BadText);
        }
        Ok(predicate)
    }
}
