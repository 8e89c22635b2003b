//! The lines of rows that are shown.

ghost use Rattle.std.specs.Prelude.{◌≡◌, ◌++◌, ◌∷◌, codes, map, OnOk};
ghost use Rattle.repl_types.specs.ValueText.{value_text};
ghost use Rattle.log_text.specs.RecordText.{spaced};
ghost use Rattle.reply_text.specs.Lines.{whole_line};
ghost use Rattle.reply_text.specs.Fields.{field_text};
ghost use Rattle.reply_text.specs.Rows.{op_text as op_text_lem, row_line, before_parts};
ghost use Rattle.reply_text.specs.Rows.{change_row_line, unit_line, log_line, rejected_line};
ghost use Rattle.reply_text.specs.Rows.{point_row_line, aggregate_row_line, recorded_line};
ghost use Rattle.reply_text.specs.Rows.{history_row_line, latest_row_line};

use crate::fields::{Field, write_end, write_fields, write_line, write_text, write_values};
use log_text::write_record;
use repl_records::{AggregateRow, HistoryRow, LatestRow, PointRow, RejectedUnit};
use repl_types::{CdRow, LogRecord, Op, Row, Sequence, UnitHead};
use std::alloc::AllocError;

/// The letter of an operation.
fn op_text(op: Op) -> &'static str
    ensures { result.now ≡ op_text_lem op }
{
    match op {
        Op::I => "I",
        Op::U => "U",
        Op::D => "D",
    }
}

/// Appends the line of a row: fields, and then the row's values.
fn write_row_after(fields: &[Field<'_>], row: &Row, out: &mut Vec<u8>) -> Result<(), AllocError>
    ensures { OnOk result (out.new.items ≡ out.old.items
        ++ whole_line (codes "row" ∷ map field_text fields.now ++ map value_text row.now)) }
{
    write_text("row", out)?;
    write_fields(fields, out)?;
    write_values(row, out)?;
    write_end(out)
}

/// Appends the line of a row of a source table or of a user copy.
pub fn write_row(row: &Row, out: &mut Vec<u8>) -> Result<(), AllocError>
    ensures { OnOk result (out.new.items ≡ out.old.items ++ row_line row.now) }
{
    write_row_after(&[], row, out)
}

/// Appends the before-images of a change row, if there are any.
fn write_before(before: &Row, out: &mut Vec<u8>) -> Result<(), AllocError>
    ensures { OnOk result (out.new.items
        ≡ out.old.items ++ spaced (before_parts before.now)) }
{
    if before.is_empty() {
        return Ok(());
    }
    write_fields(&[Field::Text("before")], out)?;
    write_values(before, out)
}

/// Appends the line of a change row. Its before-images are written only if there are some: a row
/// has one for each column whose before-images its registration keeps, so none if it keeps none.
pub fn write_change_row(row: &CdRow, out: &mut Vec<u8>) -> Result<(), AllocError>
    ensures { OnOk result (out.new.items ≡ out.old.items ++ change_row_line row.now) }
{
    let fields = [
        Field::Position(row.commitseq),
        Field::Place(row.intentseq),
        Field::Text(op_text(row.op)),
    ];
    write_text("row", out)?;
    write_fields(&fields, out)?;
    write_values(&row.after, out)?;
    write_before(&row.before, out)?;
    write_end(out)
}

/// Appends the line of a captured unit.
pub fn write_unit_row(unit: &UnitHead, out: &mut Vec<u8>) -> Result<(), AllocError>
    ensures { OnOk result (out.new.items ≡ out.old.items ++ unit_line unit.now) }
{
    let origin = match &unit.origin {
        Some(set) => Field::Set(set),
        None => Field::Text("-"),
    };
    let fields = [
        Field::Position(unit.seq),
        Field::Number(unit.time),
        Field::Name(&unit.authid),
        origin,
        Field::Number(u64::from(unit.code)),
    ];
    write_line("row", &fields, out)
}

/// Appends the line of a log record at its position.
pub fn write_log_row(position: u64, entry: &LogRecord, out: &mut Vec<u8>) -> Result<(), AllocError>
    ensures { OnOk result (out.new.items ≡ out.old.items ++ log_line position entry.now) }
{
    write_text("row", out)?;
    write_fields(&[Field::Position(position)], out)?;
    write_text(" ", out)?;
    write_record(entry, out)?;
    write_end(out)
}

/// Appends the line of a rejected unit by its seq.
pub fn write_rejected_unit(
    seq: u64,
    unit: &RejectedUnit,
    out: &mut Vec<u8>,
) -> Result<(), AllocError>
    ensures { OnOk result (out.new.items ≡ out.old.items ++ rejected_line seq unit.now) }
{
    let code = Field::Number(u64::from(unit.code));
    write_line("row", &[Field::Position(seq), code], out)
}

/// Appends the line of a row of a point-in-time copy.
pub fn write_point_row(point: &PointRow, out: &mut Vec<u8>) -> Result<(), AllocError>
    ensures { OnOk result (out.new.items ≡ out.old.items ++ point_row_line point.now) }
{
    write_row_after(&[Field::Number(point.marker)], &point.row, out)
}

/// Appends the line of a row of an aggregate.
pub fn write_aggregate_row(aggregate: &AggregateRow, out: &mut Vec<u8>) -> Result<(), AllocError>
    ensures { OnOk result (out.new.items ≡ out.old.items ++ aggregate_row_line aggregate.now) }
{
    let markers = [Field::Number(aggregate.low), Field::Number(aggregate.high)];
    write_row_after(&markers, &aggregate.row, out)
}

/// Appends the line of a change and of the row that it left.
fn write_recorded(
    intentseq: Sequence,
    op: Op,
    commitseq: u64,
    time: u64,
    row: &Row,
    out: &mut Vec<u8>,
) -> Result<(), AllocError>
    ensures { OnOk result (out.new.items
        ≡ out.old.items ++ recorded_line intentseq op commitseq time row.now) }
{
    let fields = [
        Field::Place(intentseq),
        Field::Text(op_text(op)),
        Field::Position(commitseq),
        Field::Number(time),
    ];
    write_row_after(&fields, row, out)
}

/// Appends the line of a row of a table that keeps every change.
pub fn write_history_row(history: &HistoryRow, out: &mut Vec<u8>) -> Result<(), AllocError>
    ensures { OnOk result (out.new.items ≡ out.old.items ++ history_row_line history.now) }
{
    write_recorded(
        history.intentseq,
        history.op,
        history.commitseq,
        history.time,
        &history.row,
        out,
    )
}

/// Appends the line of a row that keeps the latest change of its key.
pub fn write_latest_row(latest: &LatestRow, out: &mut Vec<u8>) -> Result<(), AllocError>
    ensures { OnOk result (out.new.items ≡ out.old.items ++ latest_row_line latest.now) }
{
    write_recorded(
        latest.intentseq,
        latest.op,
        latest.commitseq,
        latest.time,
        &latest.row,
        out,
    )
}
