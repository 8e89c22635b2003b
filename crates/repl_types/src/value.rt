//! Values and rows.

use crate::list::List;
use crate::text::Text;

/// A value of a column.
#[derive(Clone, Debug, Drop, PartialEq, Eq, PartialOrd, Ord)]
pub enum Value {
    Null,
    Int(i64),
    Text(Text),
}

/// The values of a row, one a column.
pub type Row = List<Value>;
