//! The tokens of a text.

ghost use Rattle.std.specs.Prelude.{◌≡◌, ◌^◌, ◌<◌, ◌==◌, ◌&&◌, ◌||◌, false, nat_lt, nat_le, length};
ghost use Rattle.std.specs.Prelude.{drop, slice_index, IsTrue, MatchOption, IfOk};
ghost use Rattle.std.specs.List.{prefix_len};
ghost use Rattle.repl_types.specs.Name.{is_letter as is_letter_lem};
ghost use Rattle.repl_types.specs.ValueText.{backslash, quote};
ghost use Rattle.repl_defs.specs.Texts.{nesting, nesting_limit, open_after as open_after_lem};
ghost use Rattle.repl_defs.specs.Tokens.{is_capital, is_digit as is_digit_lem};
ghost use Rattle.repl_defs.specs.Tokens.{is_word_byte as is_word_byte_lem};
ghost use Rattle.repl_defs.specs.Tokens.{quoted_len as quoted_len_lem, tokens_of};
ghost use Rattle.repl_defs.specs.Tokens.{first_token as first_token_lem};

use crate::error::TextError;
use repl_definitions::CompareOp;
use repl_types::{List, Text, Value, read_value};
use std::alloc::{AllocError, Global};

/// A token of the text of a column or a predicate.
#[derive(Debug, Drop)]
pub enum Token {
    /// Letters, digits and `_`, the first a letter: a name or a word of the language.
    Word(List<u8>),
    /// Digits.
    Number(List<u8>),
    /// A text between quotes.
    Text(Text),
    /// `-`, and whether a digit follows at once.
    Minus(bool),
    Plus,
    Times,
    /// `||`.
    Joined,
    Open,
    Close,
    Compare(CompareOp),
}

/// The most parentheses that are open at a place.
const NESTING_LIMIT: usize = 64;

const MINUS: u8 = b'-';

const LESS: u8 = b'<';

const GREATER: u8 = b'>';

/// Whether a word begins with this byte.
fn is_letter(byte: u8) -> bool
    ensures { result ≡ (is_letter_lem byte || is_capital byte) }
{
    matches!(byte, b'a'..=b'z' | b'A'..=b'Z')
}

/// Whether a byte is a digit.
fn is_digit(byte: u8) -> bool
    ensures { result ≡ is_digit_lem byte }
{
    matches!(byte, b'0'..=b'9')
}

/// Whether a byte may stand in a word.
fn is_word_byte(byte: u8) -> bool
    ensures { result ≡ is_word_byte_lem byte }
{
    matches!(byte, b'a'..=b'z' | b'A'..=b'Z' | b'0'..=b'9' | b'_')
}

/// How many bytes of a word a text begins with.
fn word_len(text: &[u8]) -> usize
    ensures { result ≡ prefix_len is_word_byte_lem text.now }
{
    text.iter().take_while(|byte| is_word_byte(**byte)).count()
}

/// How many digits a text begins with.
fn number_len(text: &[u8]) -> usize
    ensures { result ≡ prefix_len is_digit_lem text.now }
{
    text.iter().take_while(|byte| is_digit(**byte)).count()
}

/// Whether a byte between quotes and the byte after it stand together: after a backslash, or as a
/// doubled quote.
fn is_pair(first: u8, after: &[u8]) -> bool
    ensures { result ≡ (nat_lt 0 (length after.now)
        && (first == backslash || first == quote && slice_index after.now 0 == quote)) }
{
    !after.is_empty() && (first == b'\\' || first == b'\'' && after[0] == b'\'')
}

/// How many bytes there are up to the closing quote of a text and with it, if it has one.
fn quoted_len(quoted: &[u8]) -> Option<usize>
    ensures { result ≡ quoted_len_lem quoted.now }
{
    let mut rest = quoted;
    while let Some((first, after)) = rest.split_first() {
        if is_pair(*first, after) {
            rest = &after[1..];
        } else if *first == b'\'' {
            return Some(quoted.len() - after.len());
        } else {
            rest = after;
        }
    }
    None
}

/// A list of these bytes.
fn copy(alloc: Global, bytes: &[u8]) -> Result<List<u8>, AllocError>
    ensures { IfOk result (λ list. list ≡ bytes.now) }
{
    Ok(List::from_vec(Vec::from_slice(alloc, bytes)?))
}

/// The word that a text begins with, and what follows it.
fn take_word(alloc: Global, text: &[u8]) -> Result<(Token, &[u8]), AllocError>
    requires { IsTrue (is_letter_lem (slice_index text.now 0)
        || is_capital (slice_index text.now 0)) }
    ensures { IfOk result (λ found. first_token_lem (slice_index text.now 0) (drop 1 text.now)
        ≡ Some (found.0, found.1.now)) }
{
    let (word, rest) = text.split_at(word_len(text));
    Ok((Token::Word(copy(alloc, word)?), rest))
}

/// The number that a text begins with, and what follows it.
fn take_number(alloc: Global, text: &[u8]) -> Result<(Token, &[u8]), AllocError>
    requires { IsTrue (is_digit_lem (slice_index text.now 0)) }
    ensures { IfOk result (λ found. first_token_lem (slice_index text.now 0) (drop 1 text.now)
        ≡ Some (found.0, found.1.now)) }
{
    let (digits, rest) = text.split_at(number_len(text));
    Ok((Token::Number(copy(alloc, digits)?), rest))
}

/// The text between quotes that a text begins with, and what follows it.
fn take_text(alloc: Global, text: &[u8]) -> Result<(Token, &[u8]), TextError>
    requires { slice_index text.now 0 ≡ quote }
    ensures ok { IfOk result (λ found. first_token_lem quote (drop 1 text.now)
        ≡ Some (found.0, found.1.now)) }
    ensures refused { result ≡ Err TextError.BadText
        → first_token_lem quote (drop 1 text.now) ≡ None }
{
    let Some(len) = quoted_len(&text[1..]) else {
        return Err(TextError::BadText);
    };
    let (word, rest) = text.split_at(len + 1);
    match read_value(alloc, word)? {
        Some(Value::Text(text)) => Ok((Token::Text(text), rest)),
        _ => Err(TextError::BadText),
    }
}

/// The token of a `-` before these bytes.
fn take_minus(rest: &[u8]) -> Token
    ensures { first_token_lem MINUS rest.now ≡ Some (result, rest.now) }
{
    match rest {
        [next, ..] => Token::Minus(is_digit(*next)),
        [] => Token::Minus(false),
    }
}

/// The symbol of a `<` before these bytes, and what follows it.
fn take_less(rest: &[u8]) -> (CompareOp, &[u8])
    ensures { first_token_lem LESS rest.now ≡ Some (Token.Compare result.0, result.1.now) }
{
    match rest {
        [b'=', rest @ ..] => (CompareOp::Le, rest),
        [b'>', rest @ ..] => (CompareOp::Ne, rest),
        _ => (CompareOp::Lt, rest),
    }
}

/// The symbol of a `>` before these bytes, and what follows it.
fn take_greater(rest: &[u8]) -> (CompareOp, &[u8])
    ensures { first_token_lem GREATER rest.now ≡ Some (Token.Compare result.0, result.1.now) }
{
    match rest {
        [b'=', rest @ ..] => (CompareOp::Ge, rest),
        _ => (CompareOp::Gt, rest),
    }
}

/// The symbol of a byte and the bytes after it, and what follows it.
fn take_symbol(first: u8, rest: &[u8]) -> Option<(Token, &[u8])>
    requires word { (is_letter_lem first || is_capital first) ≡ false }
    requires number { is_digit_lem first ≡ false }
    requires text { (first == quote) ≡ false }
    ensures { MatchOption result (first_token_lem first rest.now ≡ None)
        (λ found. first_token_lem first rest.now ≡ Some (found.0, found.1.now)) }
{
    match first {
        b'(' => Some((Token::Open, rest)),
        b')' => Some((Token::Close, rest)),
        b'*' => Some((Token::Times, rest)),
        b'+' => Some((Token::Plus, rest)),
        MINUS => Some((take_minus(rest), rest)),
        LESS => {
            let (op, rest) = take_less(rest);
            Some((Token::Compare(op), rest))
        }
        b'=' => Some((Token::Compare(CompareOp::Eq), rest)),
        GREATER => {
            let (op, rest) = take_greater(rest);
            Some((Token::Compare(op), rest))
        }
        b'|' => match rest {
            [b'|', rest @ ..] => Some((Token::Joined, rest)),
            _ => None,
        },
        _ => None,
    }
}

/// The token that a text begins with, and what follows it.
fn first_token(alloc: Global, text: &[u8]) -> Result<(Token, &[u8]), TextError>
    requires { 0 < length text.now }
    ensures ok { IfOk result (λ found. first_token_lem (slice_index text.now 0) (drop 1 text.now)
        ≡ Some (found.0, found.1.now)) }
    ensures refused { result ≡ Err TextError.BadText
        → first_token_lem (slice_index text.now 0) (drop 1 text.now) ≡ None }
{
    let first = text[0];
    if is_letter(first) {
        return Ok(take_word(alloc, text)?);
    }
    if is_digit(first) {
        return Ok(take_number(alloc, text)?);
    }
    if first == b'\'' {
        return take_text(alloc, text);
    }
    take_symbol(first, &text[1..]).ok_or(TextError::BadText)
}

/// The tokens of a text, with blanks between them or none.
pub(crate) fn tokens(alloc: Global, text: &[u8]) -> Result<List<Token>, TextError>
    ensures ok { IfOk result (λ ts. tokens_of text.now ≡ Some ts) }
    ensures refused { result ≡ Err TextError.BadText → tokens_of text.now ≡ None }
{
    let mut tokens = List::new(alloc);
    let mut rest = text;
    while !rest.is_empty() {
        if rest[0] == b' ' {
            rest = &rest[1..];
        } else {
            let (token, after) = first_token(alloc, rest)?;
            tokens.push(token)?;
            rest = after;
        }
    }
    Ok(tokens)
}

/// How many parentheses are open after a token, if so many were before it.
fn open_after(before: usize, token: &Token) -> usize
    requires { before < 2 ^ 63 }
    ensures { result ≡ open_after_lem before token.now }
{
    match token {
        Token::Open => before + 1,
        Token::Close => before.saturating_sub(1),
        _ => before,
    }
}

/// Whether no more parentheses are open at any place than may be.
pub(crate) fn nesting_within(tokens: &[Token]) -> bool
    ensures { result ≡ nat_le (nesting tokens.now) nesting_limit }
{
    let mut most = 0;
    let mut now_open = 0;
    for token in tokens {
        now_open = open_after(now_open, token);
        most = most.max(now_open);
    }
    most <= NESTING_LIMIT
}
