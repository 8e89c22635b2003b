//! The changes of transactions in flight, by transaction.
//!
//! A log has records of several transactions, one between another. Whoever reads it keeps the
//! changes of each transaction here until the transaction ends: its commit takes them, and its
//! abort drops them.
//!
//! It stands on `repl_types`, whose placed changes it keeps. Above it, `capture_core` keeps in a
//! buffer what is in flight in the log that it captures.
//!
//! For example, after `push` of a change at position 1 for transaction 7, of one at position 2 for
//! transaction 8, and of one at position 3 for transaction 7, `first` answers 1, `take` of 7 gives
//! the changes at 1 and 3, and then `first` answers 2.
#![tactic(auto)]

mod buffer;

pub use buffer::Buffer;
