//! What holds of the definitions that clauses cite. The functions do nothing: their contracts say
//! it.

ghost use Rattle.std.specs.Prelude.{◌≡◌, ℕ, List, Some};
ghost use Rattle.std.specs.List.{All};
ghost use Rattle.repl_types.specs.ValueText.{IsValue};
ghost use Rattle.repl_types.specs.declared.record.LogRecord.{LogRecord};
ghost use Rattle.log_text.specs.Words.{words};
ghost use Rattle.log_text.specs.Records.{record_of};
ghost use Rattle.log_text.specs.RecordText.{record_words, record_text, IsWritable};

use repl_types::{Row, value_fits};

/// A line that is read as a record has the words of the record's text, and the text of a user's
/// record is read as the record.
pub fn one_text_of_a_record()
    ensures found { (line : List ℕ) (entry : LogRecord) → record_of line ≡ Some entry
        → (words line ≡ record_words entry) × IsWritable entry }
    ensures words { (entry : LogRecord) → IsWritable entry
        → words (record_text entry) ≡ record_words entry }
    ensures again { (entry : LogRecord) → IsWritable entry
        → record_of (record_text entry) ≡ Some entry }
{}

/// The values of a row that the program holds have texts, as `IsWritable` asks.
pub fn row_fits(row: &Row)
    ensures { All IsValue row.now }
{
    for value in row.as_slice() {
        value_fits(value);
    }
}
