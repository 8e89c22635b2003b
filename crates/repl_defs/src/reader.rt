//! The reader of tokens: a method for each production of the grammar.
//!
//! If no tokens in front are of a production, its method refuses, and the reader stands at the
//! token at which reading failed. Operands whose kinds don't fit are refused once they have been
//! read: a comparison's at once, an expression's at its end.

ghost use Rattle.std.specs.Prelude.{◌≡◌, ◌^◌, ◌≤◌, false, ◌∷◌, length, MatchBool, IfOk, IfErr};
ghost use Rattle.repl_model.specs.Rules.{column_kind};
ghost use Rattle.repl_defs.specs.Reading.{place_named, times_follows, open_follows, close_follows};
ghost use Rattle.repl_defs.specs.Reading.{word_follows, TakesWord};

mod expression;
mod number;
mod predicate;
mod source;

use crate::error::TextError;
use crate::token::Token;
use crate::words::{column_named, says};
use repl_types::{ColumnDef, Kind, List};

/// The tokens that are left to read, and the columns that they may name.
#[derive(Drop)]
pub(crate) struct Reader<'a> {
    columns: &'a List<ColumnDef>,
    rest: &'a [Token],
    ghost few: { length columns.now ≤ 2 ^ 32 },
}

/// How many columns a place of 32 bits can name.
const COLUMN_LIMIT: usize = 1 << 32;

impl<'a> Reader<'a> {
    /// A reader of these tokens. A table with more columns than a place can name is too large for
    /// memory.
    pub(crate) fn new(
        columns: &'a List<ColumnDef>,
        tokens: &'a [Token],
    ) -> Result<Reader<'a>, TextError>
        ensures columns { IfOk result (λ reader. reader.columns.now ≡ columns.now) }
        ensures tokens { IfOk result (λ reader. reader.rest.now ≡ tokens.now) }
        ensures err { IfErr result (λ e. e ≡ TextError.Memory) }
    {
        if columns.len() > COLUMN_LIMIT {
            return Err(TextError::Memory);
        }
        Ok(Reader {
            columns,
            rest: tokens,
        })
    }

    /// The place of the column that a word names.
    fn place(&self, word: &[u8]) -> Option<u32>
        ensures { result ≡ place_named self.now.columns.now word.now }
    {
        column_named(self.columns, word)
    }

    /// The kind of the column at a place.
    fn kind_at(&self, place: u32) -> Option<Kind>
        ensures { result ≡ column_kind self.now.columns.now place }
    {
        self.columns
            .as_slice()
            .get(place as usize)
            .map(|column| column.kind)
    }

    /// Takes a `*`, if it is the next token.
    fn times(&mut self) -> bool
        ensures times { MatchBool result (self.old.rest.now ≡ Token.Times ∷ self.new.rest.now)
            ((times_follows self.old.rest.now ≡ false) × (self.new.rest.now ≡ self.old.rest.now)) }
        ensures same { self.new.columns.now ≡ self.old.columns.now }
    {
        match self.rest {
            [Token::Times, rest @ ..] => {
                self.rest = rest;
                true
            }
            _ => false,
        }
    }

    /// Takes a `(`, if it is the next token.
    fn open(&mut self) -> bool
        ensures opens { MatchBool result (self.old.rest.now ≡ Token.Open ∷ self.new.rest.now)
            ((open_follows self.old.rest.now ≡ false) × (self.new.rest.now ≡ self.old.rest.now)) }
        ensures same { self.new.columns.now ≡ self.old.columns.now }
    {
        match self.rest {
            [Token::Open, rest @ ..] => {
                self.rest = rest;
                true
            }
            _ => false,
        }
    }

    /// Takes a `)`, if it is the next token.
    fn close(&mut self) -> bool
        ensures closes { MatchBool result (self.old.rest.now ≡ Token.Close ∷ self.new.rest.now)
            ((close_follows self.old.rest.now ≡ false) × (self.new.rest.now ≡ self.old.rest.now)) }
        ensures same { self.new.columns.now ≡ self.old.columns.now }
    {
        match self.rest {
            [Token::Close, rest @ ..] => {
                self.rest = rest;
                true
            }
            _ => false,
        }
    }

    /// Takes the next token, if it is a word that says this.
    fn word(&mut self, spelled: &[u8]) -> bool
        ensures word { MatchBool result
            (TakesWord spelled.now self.old.rest.now self.new.rest.now)
            ((word_follows spelled.now self.old.rest.now ≡ false)
            × (self.new.rest.now ≡ self.old.rest.now)) }
        ensures same { self.new.columns.now ≡ self.old.columns.now }
    {
        match self.rest {
            [Token::Word(word), rest @ ..] => {
                let says_so = says(spelled, word.as_slice());
                if says_so {
                    self.rest = rest;
                }
                says_so
            }
            _ => false,
        }
    }
}
