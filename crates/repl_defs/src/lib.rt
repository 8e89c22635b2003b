//! Definitions as a user writes them: the texts of columns and predicates.
//!
//! `read_source` and `read_predicate` give the tree of a text, or say that it has none;
//! `find_source` and `find_predicate` do so for bytes. What a text
//! means is in `specs/`: its tokens (`Tokens.antt`), the productions of the grammar, one case each
//! (`Grammar.antt`), and the limits (`Texts.antt`). A text has one tree at most
//! (`a_text_has_one_tree`). `Reading*.antt` are words for the contracts of the reader itself.
//! `split_column` and `split_target` split the entries in which such texts and forms of columns
//! stand (`Entries.antt`).
//!
//! It stands on `repl_definitions`, which has the trees, on `repl_model`, which says what kinds
//! operands may have, and on `repl_types`. On it stands `checked_defs`.
//!
//! For example, over the columns `id` and `qty` the text `qty + 1` is the sum of column 1 and the
//! integer 1, and `qty >= 10 and id <> 3` is both comparisons.
#![tactic(auto)]

mod entries;
mod error;
mod reader;
mod texts;
mod token;
mod words;

pub use entries::{split_column, split_target};
pub use error::TextError;
pub use texts::{
    DEFINITION_TEXT_LIMIT, a_text_has_one_tree, find_predicate, find_source, read_predicate,
    read_source, the_tree_of_a_text,
};
