//! The types of the whole product: values and their texts, tables, log records, units, change rows,
//! refusals and statuses.
//!
//! It stands on no crate of this repository, and all others stand on it, if only through another.
//! What would be a `Vec` or a `String` in plain Rust is a `List`, a `Text` or a `Name` here: a
//! clause sees each of these as the list of what it holds, so two records are equal in a clause if
//! and only if they have the same contents.
//!
//! For example, the row `(1, 'pen')` is a `List` of two values, and a clause sees it as
//! `Int (pos 1) ∷ Text (112 ∷ 101 ∷ 110 ∷ []) ∷ []`.
#![tactic(auto)]

mod area;
mod call_errors;
mod change_row;
mod fault;
mod laws;
mod list;
mod name;
mod record;
mod refusal;
mod sequence;
mod sizes;
mod status;
mod table;
mod text;
mod unit;
mod value;
mod value_text;

pub use area::Area;
pub use call_errors::{AppendError, ShowError};
pub use change_row::{CdRow, Op, Registration};
pub use fault::{Counts, Fault, Stepped};
pub use laws::{keys_in_order, one_spelling_of_a_number, one_spelling_of_a_value, value_fits};
pub use list::{Bytes, List};
pub use name::{Name, NameError, is_name};
pub use record::{Change, LogRecord, SetId};
pub use refusal::{DefPlace, GapPlace, ItemName, LimitKind, Refusal};
pub use sequence::{Sequence, sequence_order, write_sequence};
pub use sizes::{KEY_LIMIT, ROW_LIMIT, TEXT_LIMIT, VALUE_LIMIT};
pub use status::{DamageCause, Status};
pub use table::{ColumnDef, Kind, TableDef};
pub use text::Text;
pub use unit::{Placed, Unit, UnitHead};
pub use value::{Row, Value};
pub use value_text::{read_number, read_value, write_value};
