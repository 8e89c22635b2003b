//! The law that the proofs of this crate cite.

ghost use Rattle.std.specs.Prelude.{◌≡◌, List, ℕ, Some};
ghost use Rattle.repl_types.specs.declared.record.LogRecord.{LogRecord};
ghost use Rattle.log_text.specs.Records.{record_of};
ghost use Rattle.source_log.specs.Storing.{MayAppend};

use log_text::one_text_of_a_record;

/// A line that is read as a record is that of a user's, which may be appended.
pub fn records_of_lines_may_be_appended()
    ensures { (line : List ℕ) (r : LogRecord) → record_of line ≡ Some r → MayAppend r }
{
    one_text_of_a_record();
}
