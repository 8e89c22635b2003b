//! Log records as lines of text: each record has one line, which is written and read.
//!
//! It stands on `repl_types`, whose records and texts of values it uses; `run_commands` reads the
//! lines of a feed by it, and `reply_text` writes those of a log. The reader takes only the records
//! that a user may give. Its contract compares it with definitions over a whole line
//! (`specs/Records.antt`), the writer's with the words of a record (`specs/RecordText.antt`), and a
//! law says that the two agree.
//!
//! For example, the line `insert 1 items 2 'red ink'` is the record of the transaction 1 that
//! inserts the row `(2, 'red ink')` into the table `items`.
#![tactic(auto)]

mod laws;
mod read;
mod words;
mod write;

pub use laws::{one_text_of_a_record, row_fits};
pub use read::{ReadLogError, read_record};
pub use write::write_record;
