//! Values, rows, records and expressions that were worked out by hand.
//!
//! The tables are in `specs/`: each is proved of the definitions that the contracts name, so no
//! code has to run. The tests are of what stands in no table: trees that are deep, the order of
//! lists, and bytes that are no definitions. They are apart from the crates whose calls they make,
//! so that a proof of them proves no library again: `repl_types`, `row_codec`, `repl_definitions`,
//! `repl_records`, `repl_model` and `row_expr`.
#![tactic(auto)]

#[cfg(test)]
mod definitions;
#[cfg(test)]
mod expressions;
#[cfg(test)]
mod values;
