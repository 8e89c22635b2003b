//! Values.

ghost use Rattle.std.specs.Prelude.{◌≡◌, ◌≢◌, ◌++◌, ◌∷◌, ℕ, List, [], length, OnOk, IfOk, IfSome};
ghost use Rattle.repl_types.specs.ValueText.{IsValue};
ghost use Rattle.row_codec.specs.Spelling.{Any, marked_byte, zeros_marked, shifted, value_spelling};
ghost use Rattle.row_codec.specs.Spelling.{IsText};
ghost use Rattle.row_codec.specs.laws.Values.{one_value};

use crate::part::Part;
use crate::take_error::TakeError;
use repl_types::{TEXT_LIMIT, Text, Value};
use std::alloc::{AllocError, Global};

/// An integer plus 2^63: the integers in their order, as numbers from 0 on.
fn shift(number: i64) -> u64
    ensures { result ≡ shifted number }
{
    (i128::from(number) + (1 << 63)) as u64
}

/// The integer that `shift` makes this number of.
fn unshift(number: u64) -> i64
    ensures { shifted result ≡ number }
{
    (i128::from(number) - (1 << 63)) as i64
}

/// Appends a byte of a text: 0 is followed by 255.
fn put_byte(byte: u8, out: &mut Vec<u8>) -> Result<(), AllocError>
    ensures { OnOk result (out.new.items ≡ out.old.items ++ marked_byte byte) }
{
    out.push(byte)?;
    if byte == 0 {
        out.push(0xff)?;
    }
    Ok(())
}

/// Appends the spelling of the value that is this text.
pub fn put_text(text: &Text, out: &mut Vec<u8>) -> Result<(), AllocError>
    ensures ok { OnOk result (out.new.items ≡ out.old.items ++ 0x02 ∷ zeros_marked text.now
        ++ 0x00 ∷ 0x00 ∷ []) }
    ensures fits { OnOk result (IsText text.now) }
{
    out.push(0x02)?;
    for byte in text.as_str().as_bytes() {
        put_byte(*byte, out)?;
    }
    out.extend_from_slice(&[0x00, 0x00])
}

/// The byte of a text that the bytes begin with, and what follows it; None at the end of the text,
/// and if the bytes begin with no byte of a text.
fn next_byte(bytes: &[u8]) -> Option<(u8, &[u8])>
    ensures some { IfSome result (λ next. bytes.now ≡ marked_byte next.0 ++ next.1.now) }
    ensures none { result ≡ None → ((b : ℕ) (after : List ℕ) → bytes.now ≢ marked_byte b ++ after) }
{
    match bytes {
        [0x00, 0xff, after @ ..] => Some((0, after)),
        [0x00, ..] => None,
        [byte, after @ ..] => Some((*byte, after)),
        [] => None,
    }
}

/// What follows the end of a text, if the bytes begin with one.
fn after_end(bytes: &[u8]) -> Option<&[u8]>
    ensures some { IfSome result (λ rest. bytes.now ≡ 0x00 ∷ 0x00 ∷ rest.now) }
    ensures none { result ≡ None → ((rest : List ℕ) → bytes.now ≢ 0x00 ∷ 0x00 ∷ rest) }
{
    match bytes {
        [0x00, 0x00, rest @ ..] => Some(rest),
        _ => None,
    }
}

/// The bytes of the text that the bytes begin with, and what follows its end.
fn take_bytes(alloc: Global, bytes: &[u8]) -> Result<(Vec<u8>, &[u8]), TakeError>
    ensures ok { IfOk result (λ taken. bytes.now
        ≡ zeros_marked taken.0.items ++ 0x00 ∷ 0x00 ∷ taken.1.now) }
    ensures spelling { result ≡ Err TakeError.Spelling
        → ((text rest : List ℕ) → bytes.now ≢ zeros_marked text ++ 0x00 ∷ 0x00 ∷ rest) }
{
    let mut text = Vec::new(alloc);
    let mut left = bytes;
    while let Some((byte, after)) = next_byte(left) {
        text.push(byte)?;
        left = after;
    }
    match after_end(left) {
        Some(rest) => Ok((text, rest)),
        None => Err(TakeError::Spelling),
    }
}

/// The text of these bytes, if they are one.
fn text_of(bytes: Vec<u8>) -> Option<Text>
    ensures some { IfSome result (λ text. IsText text × (text ≡ bytes.items)) }
    ensures none { result ≡ None → ¬ (IsText bytes.items) }
{
    if bytes.len() > TEXT_LIMIT {
        return None;
    }
    match String::from_utf8(bytes) {
        Ok(text) => Some(Text::new(text)),
        Err(_) => None,
    }
}

/// The text that the bytes begin with, and what follows its end.
fn take_text(alloc: Global, bytes: &[u8]) -> Result<(Text, &[u8]), TakeError>
    ensures ok { IfOk result (λ taken. IsText taken.0
        × (bytes.now ≡ zeros_marked taken.0 ++ 0x00 ∷ 0x00 ∷ taken.1.now)) }
    ensures spelling { result ≡ Err TakeError.Spelling
        → ((text rest : List ℕ) → IsText text
        → bytes.now ≢ zeros_marked text ++ 0x00 ∷ 0x00 ∷ rest) }
{
    let (marked, rest) = take_bytes(alloc, bytes)?;
    match text_of(marked) {
        Some(text) => Ok((text, rest)),
        None => Err(TakeError::Spelling),
    }
}

impl Part for Value {
    ghost fits = { IsValue };

    ghost has_spelling = { Any };

    ghost spelling = { value_spelling };

    ghost one = { one_value };

    ghost again = { λ _ _. tt };

    fn put_part(&self, out: &mut Vec<u8>) -> Result<(), AllocError> {
        match self {
            Value::Null => Ok(out.push(0x00)?),
            Value::Int(number) => {
                out.push(0x01)?;
                shift(*number).put_part(out)
            }
            Value::Text(text) => put_text(text, out),
        }
    }

    fn take_part(alloc: Global, bytes: &[u8]) -> Result<(Value, &[u8]), TakeError> {
        match bytes {
            [0x00, rest @ ..] => Ok((Value::Null, rest)),
            [0x01, rest @ ..] => {
                let (number, rest) = u64::take_part(alloc, rest)?;
                Ok((Value::Int(unshift(number)), rest))
            }
            [0x02, rest @ ..] => {
                let (text, rest) = take_text(alloc, rest)?;
                Ok((Value::Text(text), rest))
            }
            _ => Err(TakeError::Spelling),
        }
    }
}
