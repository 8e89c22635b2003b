//! Integers.

ghost use Rattle.std.specs.Prelude.{◌≡◌, ◌∷◌, Some};
ghost use Rattle.std.specs.Option.{option_map};
ghost use Rattle.repl_types.specs.Numbers.{integer_of};
ghost use Rattle.repl_defs.specs.Reading.{integer_at};

use crate::reader::Reader;
use crate::token::Token;
use repl_types::read_number;

/// The integer that a `-` and these digits spell.
fn negative(digits: &[u8]) -> Option<i64>
    ensures { result ≡ integer_of (45 ∷ digits.now) }
{
    let number = read_number(digits, 1, 1 << 63)?;
    Some(-1 - (number - 1) as i64)
}

/// The integer that a word spells.
fn integer(word: &[u8]) -> Option<i64>
    ensures { result ≡ integer_of word.now }
{
    match word {
        [b'-', digits @ ..] => negative(digits),
        _ => Some(read_number(word, 0, i64::MAX as u64)? as i64),
    }
}

impl<'a> Reader<'a> {
    /// Takes an integer. If there is none, no token is taken.
    pub(super) fn integer(&mut self) -> Option<i64>
        ensures integer { option_map (λ n. (n, self.new.rest.now)) result
            ≡ integer_at self.old.rest.now }
        ensures same { self.new.columns.now ≡ self.old.columns.now }
    {
        match self.rest {
            [Token::Number(digits), rest @ ..] => {
                let number = integer(digits.as_slice())?;
                self.rest = rest;
                Some(number)
            }
            [Token::Minus(true), Token::Number(digits), rest @ ..] => {
                let number = negative(digits.as_slice())?;
                self.rest = rest;
                Some(number)
            }
            _ => None,
        }
    }
}
