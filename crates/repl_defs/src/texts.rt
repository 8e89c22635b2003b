//! The texts of columns and predicates.

ghost use Rattle.std.specs.Prelude.{◌≡◌, ◌↔◌, ℕ, List, Some, IfOk};
ghost use Rattle.repl_types.specs.declared.table.ColumnDef.{ColumnDef};
ghost use Rattle.repl_definitions.specs.declared.member.ColumnFrom.{ColumnFrom};
ghost use Rattle.repl_definitions.specs.declared.predicate.Predicate.{Predicate};
ghost use Rattle.repl_defs.specs.Texts.{IsSourceText, IsPredicateText};
ghost use Rattle.repl_defs.specs.ReadingTexts.{HasTokens};
ghost use Rattle.repl_defs.specs.Trees.{source_tree, predicate_tree};
ghost use Rattle.repl_defs.specs.declared.token.Token.{Token};

use crate::error::TextError;
use crate::reader::Reader;
use crate::token::{Token, nesting_within, tokens};
use repl_definitions::{ColumnFrom, Predicate};
use repl_types::{ColumnDef, List};
use std::alloc::{AllocError, Global};

/// The most bytes of a text, and of an entry of `columns`.
pub const DEFINITION_TEXT_LIMIT: usize = 4_096;

/// The tokens of a text that isn't too long, with parentheses that aren't nested too deep.
fn tokens_within_limits(alloc: Global, text: &[u8]) -> Result<List<Token>, TextError>
    ensures ok { IfOk result (HasTokens text.now) }
    ensures refused { result ≡ Err TextError.BadText
        → (ts : List Token) → HasTokens text.now ts → ⊥ }
{
    if text.len() > DEFINITION_TEXT_LIMIT {
        return Err(TextError::BadText);
    }
    let tokens = tokens(alloc, text)?;
    if !nesting_within(tokens.as_slice()) {
        return Err(TextError::BadText);
    }
    Ok(tokens)
}

/// What a column of a target comes from, by its text over the columns of the source.
fn source_of_text(
    alloc: Global,
    text: &[u8],
    columns: &List<ColumnDef>,
) -> Result<ColumnFrom, TextError>
    ensures ok { IfOk result (λ from. IsSourceText columns.now text.now from) }
    ensures refused { result ≡ Err TextError.BadText
        → (from : ColumnFrom) → IsSourceText columns.now text.now from → ⊥ }
{
    let tokens = tokens_within_limits(alloc, text)?;
    Reader::new(columns, tokens.as_slice())?.whole_source(alloc)
}

/// The predicate of a text over the columns of the source.
fn predicate_of_text(
    alloc: Global,
    text: &[u8],
    columns: &List<ColumnDef>,
) -> Result<Predicate, TextError>
    ensures ok { IfOk result (λ predicate. IsPredicateText columns.now text.now predicate) }
    ensures refused { result ≡ Err TextError.BadText
        → (predicate : Predicate) → IsPredicateText columns.now text.now predicate → ⊥ }
{
    let tokens = tokens_within_limits(alloc, text)?;
    Reader::new(columns, tokens.as_slice())?.whole_predicate(alloc)
}

/// What a column of a target comes from, by its text over the columns of the source; None if the
/// text is nothing of the kind.
pub fn find_source(
    alloc: Global,
    text: &[u8],
    columns: &List<ColumnDef>,
) -> Result<Option<ColumnFrom>, AllocError>
    ensures { IfOk result (λ tree. tree ≡ source_tree columns.now text.now) }
{
    match source_of_text(alloc, text, columns) {
        Ok(from) => Ok(Some(from)),
        Err(TextError::BadText) => Ok(None),
        Err(TextError::Memory) => Err(AllocError),
    }
}

/// The predicate of a text over the columns of the source; None if the text is no predicate.
pub fn find_predicate(
    alloc: Global,
    text: &[u8],
    columns: &List<ColumnDef>,
) -> Result<Option<Predicate>, AllocError>
    ensures { IfOk result (λ tree. tree ≡ predicate_tree columns.now text.now) }
{
    match predicate_of_text(alloc, text, columns) {
        Ok(predicate) => Ok(Some(predicate)),
        Err(TextError::BadText) => Ok(None),
        Err(TextError::Memory) => Err(AllocError),
    }
}

/// What a column of a target comes from, by its text over the columns of the source. `BadText` is
/// returned only if the text is nothing of the kind.
pub fn read_source(
    alloc: Global,
    text: &str,
    columns: &List<ColumnDef>,
) -> Result<ColumnFrom, TextError>
    ensures ok { IfOk result (λ from. IsSourceText columns.now text.now from) }
    ensures refused { result ≡ Err TextError.BadText
        → (from : ColumnFrom) → IsSourceText columns.now text.now from → ⊥ }
{
    source_of_text(alloc, text.as_bytes(), columns)
}

/// The predicate of a text over the columns of the source. `BadText` is returned only if the text
/// is no predicate.
pub fn read_predicate(
    alloc: Global,
    text: &str,
    columns: &List<ColumnDef>,
) -> Result<Predicate, TextError>
    ensures ok { IfOk result (λ predicate. IsPredicateText columns.now text.now predicate) }
    ensures refused { result ≡ Err TextError.BadText
        → (predicate : Predicate) → IsPredicateText columns.now text.now predicate → ⊥ }
{
    predicate_of_text(alloc, text.as_bytes(), columns)
}

/// What is found in a text is its tree, if it has one.
pub fn the_tree_of_a_text()
    ensures source { (columns : List ColumnDef) (text : List ℕ) (from : ColumnFrom)
        → (source_tree columns text ≡ Some from) ↔ IsSourceText columns text from }
    ensures predicate { (columns : List ColumnDef) (text : List ℕ) (p : Predicate)
        → (predicate_tree columns text ≡ Some p) ↔ IsPredicateText columns text p }
{}

/// A text has one tree at most.
pub fn a_text_has_one_tree()
    ensures source { (columns : List ColumnDef) (text : List ℕ) (x y : ColumnFrom)
        → IsSourceText columns text x → IsSourceText columns text y → x ≡ y }
    ensures predicate { (columns : List ColumnDef) (text : List ℕ) (x y : Predicate)
        → IsPredicateText columns text x → IsPredicateText columns text y → x ≡ y }
{}
