//! Records as bytes: the one spelling of each value, row, key and log record, written and read.
//!
//! What a server keeps is bytes in a map that is ordered by bytes. This crate says what a spelling
//! is (`Part`), what a key is (`Key`), and what a kind of record is (`Stored`): the layers above
//! put and take typed records and never see a byte. Each value has one spelling, bytes that aren't
//! the spelling of a value are refused, and spelled keys are in the order of the keys.
//!
//! It stands on `repl_types` and spells that crate's types. `repl_records` and `repl_definitions`
//! have the other kinds of records, each with its spelling, and `site_store` keeps them.
//!
//! For example, the key `(20, 'pen')` is spelled `01 8000000000000014 02 70656e 0000`, two
//! hexadecimal digits a byte.
#![tactic(auto)]

mod key;
mod laws;
mod list;
mod log_record;
mod name;
mod number;
mod operation;
mod option;
mod part;
mod parts;
mod row;
mod sequence;
mod stored;
mod table;
mod table_number;
mod take_error;
mod value;

pub use key::{Key, PartKey};
pub use laws::{
    keys_in_byte_order, length_of_a_key, lengths_of_numbers, one_spelling_of_a_row,
    rows_of_64_values_are_storable, worked_row,
};
pub use part::{Part, take_whole};
pub use parts::{take_five, take_four, take_six, take_three, take_two};
pub use row::{put_key, put_row, take_row};
pub use stored::Stored;
pub use table_number::{Table0, Table1, Table2, Table3, TableNumber};
pub use take_error::TakeError;
pub use value::put_text;
