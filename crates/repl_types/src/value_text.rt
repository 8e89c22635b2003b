//! The texts of numbers and values: one spelling each.

ghost use Rattle.std.specs.Prelude.{◌≡◌, ◌++◌, MatchOption, OnOk, IfOk};
ghost use Rattle.std.specs.Option.{option_map, option_and_then};
ghost use Rattle.repl_types.specs.Numbers.{is_numeral as is_numeral_lem};
ghost use Rattle.repl_types.specs.Numbers.{is_integer as is_integer_lem, number_of, integer_of};
ghost use Rattle.repl_types.specs.ValueText.{escaped_byte, value_text, value_of, unescaped};
ghost use Rattle.repl_types.specs.ValueText.{text_at_end, IsNextByte, text_value};

use crate::sizes::TEXT_LIMIT;
use crate::text::Text;
use crate::value::Value;
use itoa::Buffer;
use std::alloc::{AllocError, Global};
use std::str;

/// Whether a word is decimal digits, the first of which isn't 0 except in `0` itself.
fn is_numeral(word: &[u8]) -> bool
    ensures { result ≡ is_numeral_lem word.now }
{
    match word {
        [] => false,
        [b'0', rest @ ..] => rest.is_empty(),
        _ => word.iter().all(|byte| byte.is_ascii_digit()),
    }
}

/// The number from `low` to `high` that a word spells: decimal digits, the first of which isn't 0
/// except in `0` itself.
pub fn read_number(word: &[u8], low: u64, high: u64) -> Option<u64>
    ensures { result ≡ number_of low high word.now }
{
    if !is_numeral(word) {
        return None;
    }
    let Ok(text) = str::from_utf8(word) else {
        return None;
    };
    let number = text.parse::<u64>().ok()?;
    (low <= number && number <= high).then_some(number)
}

/// Whether a word is a numeral, or `-` and a numeral that isn't 0.
fn is_integer(word: &[u8]) -> bool
    ensures { result ≡ is_integer_lem word.now }
{
    match word {
        [b'-', b'0', ..] => false,
        [b'-', digits @ ..] => is_numeral(digits),
        _ => is_numeral(word),
    }
}

/// The integer of 64 bits that a word spells.
fn read_integer(word: &[u8]) -> Option<i64>
    ensures { result ≡ integer_of word.now }
{
    if !is_integer(word) {
        return None;
    }
    let Ok(text) = str::from_utf8(word) else {
        return None;
    };
    text.parse::<i64>().ok()
}

/// The first byte that the bytes after an opening quote say, and the bytes that follow it; None if
/// these begin with the closing quote, or with nothing that says a byte.
fn next_byte(quoted: &[u8]) -> Option<(u8, &[u8])>
    ensures { MatchOption result (unescaped quoted.now ≡ text_at_end quoted.now)
        (λ next. IsNextByte quoted.now next.0 next.1.now) }
{
    let (first, after) = quoted.split_first()?;
    match first {
        b'\'' => match after {
            [b'\'', after @ ..] => Some((b'\'', after)),
            _ => None,
        },
        b'\\' => match after {
            [b'\\', after @ ..] => Some((b'\\', after)),
            [b'n', after @ ..] => Some((b'\n', after)),
            _ => None,
        },
        b'\n' => None,
        _ => Some((*first, after)),
    }
}

/// What the bytes after an opening quote say, if the closing quote is the last of them.
fn unescape(alloc: Global, quoted: &[u8]) -> Result<Option<Vec<u8>>, AllocError>
    ensures { IfOk result (λ text. option_map (λ t. t.items) text ≡ unescaped quoted.now) }
{
    let mut text = Vec::new(alloc);
    let mut rest = quoted;
    while let Some((byte, after)) = next_byte(rest) {
        text.push(byte)?;
        rest = after;
    }
    match rest {
        [b'\''] => Ok(Some(text)),
        _ => Ok(None),
    }
}

/// The value of the text that the bytes after an opening quote say, if they say one.
fn read_text(alloc: Global, quoted: &[u8]) -> Result<Option<Value>, AllocError>
    ensures { IfOk result (λ value. value ≡ option_and_then text_value (unescaped quoted.now)) }
{
    let Some(text) = unescape(alloc, quoted)? else {
        return Ok(None);
    };
    if text.len() > TEXT_LIMIT {
        return Ok(None);
    }
    match String::from_utf8(text) {
        Ok(text) => Ok(Some(Value::Text(Text::new(text)))),
        Err(_) => Ok(None),
    }
}

/// The value that a word spells: `null`, an integer of 64 bits, or a text of at most 1,000 bytes of
/// UTF-8 in quotes, in which a quote is doubled, and a backslash and a line feed are `\\` and `\n`.
#[tactic(auto, unfolding(crate::specs::ValueText::value_of))]
pub fn read_value(alloc: Global, word: &[u8]) -> Result<Option<Value>, AllocError>
    ensures { IfOk result (λ value. value ≡ value_of word.now) }
{
    if word == b"null".as_slice() {
        return Ok(Some(Value::Null));
    }
    match word {
        [b'\'', quoted @ ..] => read_text(alloc, quoted),
        _ => Ok(read_integer(word).map(Value::Int)),
    }
}

/// Appends a byte of a text as it stands between quotes.
fn write_byte(byte: u8, out: &mut Vec<u8>) -> Result<(), AllocError>
    ensures { OnOk result (out.new.items ≡ out.old.items ++ escaped_byte byte) }
{
    match byte {
        b'\'' => out.extend_from_slice(b"''"),
        b'\\' => out.extend_from_slice(b"\\\\"),
        b'\n' => out.extend_from_slice(b"\\n"),
        _ => Ok(out.push(byte)?),
    }
}

/// Appends a text in quotes.
fn write_text(text: &Text, out: &mut Vec<u8>) -> Result<(), AllocError>
    ensures { OnOk result (out.new.items ≡ out.old.items ++ value_text (Value.Text text.now)) }
{
    out.push(b'\'')?;
    for byte in text.as_str().as_bytes() {
        write_byte(*byte, out)?;
    }
    out.push(b'\'')?;
    Ok(())
}

/// Appends the text of a value, the one that `read_value` takes. If memory runs out, what `out`
/// holds is unspecified.
pub fn write_value(value: &Value, out: &mut Vec<u8>) -> Result<(), AllocError>
    ensures { OnOk result (out.new.items ≡ out.old.items ++ value_text value.now) }
{
    match value {
        Value::Null => out.extend_from_slice(b"null"),
        Value::Int(number) => out.extend_from_slice(Buffer::new().format(*number).as_bytes()),
        Value::Text(text) => write_text(text, out),
    }
}
