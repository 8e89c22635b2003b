//! The lines of an input, each of which is a record that is fed at a server.
//!
//! `specs/FedInput.antt` says what is committed and written. A blank line is skipped, and after a
//! refusal the input is read to its end, and no further line is taken. It stands on `line_input`,
//! which reads the lines, and on `run_commands`, which feeds a record.
//!
//! For example, of the lines `insert 1 items 7 'pen'`, `commit 1 ann 100` and `words` the first two
//! are fed and committed, and the third is refused by the line `refused 9 BadLog line 3`.

mod feeding;
mod lines;

pub use feeding::feed_input;
