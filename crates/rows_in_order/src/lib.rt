//! What holds of a keeper's table that is made of rows in the order of their keys.
//!
//! A keeper's table is a function from keys to values, and both are bytes. A layer above stores
//! typed rows in it, and says which rows those are: a list of pairs of a key and a value whose
//! spelled keys rise (`IsRising`). The table is then `table_from_rows key value rows`, with the
//! two spellings.
//!
//! The crate has no code. Its definitions are in `specs/Rows.antt`, and for keys that are numbers
//! in `specs/Numbers.antt`. Its laws are the public lemmas of `specs/laws/`, for any spelling:
//! what a read gives (`Rising`, `Found`, `Fitting`), which rows lie between two keys or after one
//! (`Rising`, `After`), which list of rows a write makes (`Changed`, `Written`), and the same of
//! keys that begin with the same bytes (`Prefixed`) and of numbers (`ByNumber`, `BetweenNumbers`,
//! `ChangedNumbers`, `Numbered`). The proofs of the crates above cite them by name.
//!
//! An example is a loop that removes rows one after another, as `drop_upto` of `cd_tables` does.
//! It asks the keeper for the next key above `after`, from the empty key on, and its invariant
//! says that the table has the rows `rows_after key after rows`. By `next_after` and `fits_next`
//! the keeper's answer is the next row. By `written_first` and `after_next` the table without it
//! has the rows after it. If the keeper has no key above `after`, then by `no_row` no row is left.
//!
//! The crate stands on `keep_core`, which says what a keeper's table is, and on `repl_types`, for
//! the order of bytes. `site_store` and `world_store` stand on it.
#![tactic(auto)]
