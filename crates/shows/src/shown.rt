//! The kinds of records that are shown, and their lines.

ghost use Rattle.std.specs.Prelude.{◌≡◌, ◌++◌, ℕ, List, OnOk};
ghost use Rattle.reply_text.specs.Rows.{row_line, log_line};
ghost use Rattle.shows.specs.tables.Replies.{stored_change_line, stored_unit_line};

use repl_records::{CdKey, ChangeRow, CopyRow, SourceRow, UowRow};
use repl_types::{CdRow, List, LogRecord, UnitHead, Value};
use reply_text::{write_change_row, write_log_row, write_row, write_unit_row};
use row_codec::Stored;
use std::alloc::AllocError;

/// A kind of record of which each is shown as a line.
pub trait ShownRecord: Stored {
    /// The line of a record with its key.
    ghost line: { Self.Key → Self → List ℕ };

    /// Appends the line of the record, whose parts are used up. If memory runs out, what `out`
    /// holds is unspecified.
    fn write_shown(self, key: &Self::Key, out: &mut Vec<u8>) -> Result<(), AllocError>
        ensures { OnOk result (out.new.items ≡ out.old.items ++ line key.now self) };
}

impl ShownRecord for SourceRow {
    ghost line = { λ _ source. row_line source.row };

    fn write_shown(self, _: &List<Value>, out: &mut Vec<u8>) -> Result<(), AllocError> {
        write_row(&self.row, out)
    }
}

impl ShownRecord for CopyRow {
    ghost line = { λ _ copy. row_line copy.row };

    fn write_shown(self, _: &List<Value>, out: &mut Vec<u8>) -> Result<(), AllocError> {
        write_row(&self.row, out)
    }
}

impl ShownRecord for LogRecord {
    ghost line = { log_line };

    fn write_shown(self, position: &u64, out: &mut Vec<u8>) -> Result<(), AllocError> {
        write_log_row(*position, &self, out)
    }
}

impl ShownRecord for ChangeRow {
    ghost line = { stored_change_line };

    fn write_shown(self, key: &CdKey, out: &mut Vec<u8>) -> Result<(), AllocError> {
        let row = CdRow {
            commitseq: key.commitseq,
            intentseq: key.intentseq,
            op: self.op,
            after: self.after,
            before: self.before,
        };
        write_change_row(&row, out)
    }
}

impl ShownRecord for UowRow {
    ghost line = { stored_unit_line };

    fn write_shown(self, seq: &u64, out: &mut Vec<u8>) -> Result<(), AllocError> {
        let unit = UnitHead {
            seq: *seq,
            time: self.time,
            authid: self.authid,
            origin: self.origin,
            code: self.code,
        };
        write_unit_row(&unit, out)
    }
}
