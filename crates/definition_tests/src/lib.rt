//! Tests of definitions as a user writes them: documents, texts of columns, and the rules.
//!
//! It has no code but tests, of the calls of `raw_defs`, `repl_defs` and `checked_defs`. `specs/`
//! has lemmas: tables of texts of columns, predicates and entries, and what the definitions that
//! the contracts of `repl_defs` name say of each.
#![tactic(auto)]

#[cfg(test)]
mod breaks;
#[cfg(test)]
mod column_texts;
#[cfg(test)]
mod documents;
#[cfg(test)]
mod hostile_documents;
#[cfg(test)]
mod known;
#[cfg(test)]
mod members;
#[cfg(test)]
mod spelled;
#[cfg(test)]
mod texts;
