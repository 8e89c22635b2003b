//! Rows of targets.

ghost use Rattle.std.specs.Prelude.{◌≡◌, ◌++◌, OnOk};
ghost use Rattle.repl_records.specs.TargetSide.{IsCopy, HasCopySpelling, copy_spelling, IsPoint};
ghost use Rattle.repl_records.specs.TargetSide.{HasPointSpelling, point_spelling, IsAggregate};
ghost use Rattle.repl_records.specs.TargetSide.{HasAggregateSpelling, aggregate_spelling};
ghost use Rattle.repl_records.specs.TargetSide.{IsRecorded, recorded_spelling, IsHistory};
ghost use Rattle.repl_records.specs.TargetSide.{HasHistorySpelling, history_spelling, IsLatest};
ghost use Rattle.repl_records.specs.TargetSide.{HasLatestSpelling, latest_spelling};
ghost use Rattle.repl_records.specs.laws.TargetSide.{one_copy, again_copy, one_point, again_point};
ghost use Rattle.repl_records.specs.laws.TargetSide.{one_aggregate, again_aggregate, one_history};
ghost use Rattle.repl_records.specs.laws.TargetSide.{again_history, one_latest, again_latest};
ghost use Rattle.repl_types.specs.declared.area.Area.TheVariants as areas;
ghost use Rattle.row_codec.specs.Spelling.{IsCounted};
ghost use Rattle.row_codec.specs.Storable.{IsStorable};

use repl_types::{Area, List, Op, Row, Sequence, Value};
use row_codec::{Part, Stored, TakeError, take_five, take_three, take_two};
use std::alloc::{AllocError, Global};

/// A row of a user copy, kept under its key.
#[derive(Clone, Debug, Drop, PartialEq, Eq)]
pub struct CopyRow {
    pub row: Row,
}

impl Part for CopyRow {
    ghost fits = { IsCopy };

    ghost has_spelling = { HasCopySpelling };

    ghost spelling = { copy_spelling };

    ghost one = { one_copy };

    ghost again = { again_copy };

    fn put_part(&self, out: &mut Vec<u8>) -> Result<(), AllocError> {
        self.row.put_part(out)
    }

    fn take_part(alloc: Global, bytes: &[u8]) -> Result<(CopyRow, &[u8]), TakeError> {
        let (row, rest) = Row::take_part(alloc, bytes)?;
        Ok((CopyRow { row }, rest))
    }
}

impl Stored for CopyRow {
    type Key = List<Value>;

    type Table = u32;

    const AREA: Area = Area::Target;

    ghost AREA = { areas.Target };

    ghost storable = { IsStorable HasCopySpelling copy_spelling };

    ghost spelled = { λ _ storable. storable.0 };

    ghost sized = { λ _ _ storable. storable.1 };

    ghost again_stored = { λ x fits sized. (again_copy x fits, sized) };
}

/// A row of a point-in-time copy, kept under its key. `marker` is the time, in seconds, of the unit
/// that wrote it.
#[derive(Clone, Debug, Drop, PartialEq, Eq)]
pub struct PointRow {
    pub marker: u64,
    pub row: Row,
}

impl Part for PointRow {
    ghost fits = { IsPoint };

    ghost has_spelling = { HasPointSpelling };

    ghost spelling = { point_spelling };

    ghost one = { one_point };

    ghost again = { again_point };

    fn put_part(&self, out: &mut Vec<u8>) -> Result<(), AllocError> {
        self.marker.put_part(out)?;
        self.row.put_part(out)
    }

    fn take_part(alloc: Global, bytes: &[u8]) -> Result<(PointRow, &[u8]), TakeError> {
        let (marker, row, rest) = take_two(alloc, bytes)?;
        Ok((PointRow { marker, row }, rest))
    }
}

impl Stored for PointRow {
    type Key = List<Value>;

    type Table = u32;

    const AREA: Area = Area::Target;

    ghost AREA = { areas.Target };

    ghost storable = { IsStorable HasPointSpelling point_spelling };

    ghost spelled = { λ _ storable. storable.0 };

    ghost sized = { λ _ _ storable. storable.1 };

    ghost again_stored = { λ x fits sized. (again_point x fits, sized) };
}

/// A row of an aggregate, kept under its number, which counts from 1. `low` and `high` bound what
/// it sums up.
#[derive(Clone, Debug, Drop, PartialEq, Eq)]
pub struct AggregateRow {
    pub low: u64,
    pub high: u64,
    pub row: Row,
}

impl Part for AggregateRow {
    ghost fits = { IsAggregate };

    ghost has_spelling = { HasAggregateSpelling };

    ghost spelling = { aggregate_spelling };

    ghost one = { one_aggregate };

    ghost again = { again_aggregate };

    fn put_part(&self, out: &mut Vec<u8>) -> Result<(), AllocError> {
        self.low.put_part(out)?;
        self.high.put_part(out)?;
        self.row.put_part(out)
    }

    fn take_part(alloc: Global, bytes: &[u8]) -> Result<(AggregateRow, &[u8]), TakeError> {
        let (low, high, row, rest) = take_three(alloc, bytes)?;
        Ok((AggregateRow { low, high, row }, rest))
    }
}

impl Stored for AggregateRow {
    type Key = u64;

    type Table = u32;

    const AREA: Area = Area::Target;

    ghost AREA = { areas.Target };

    ghost storable = { IsStorable HasAggregateSpelling aggregate_spelling };

    ghost spelled = { λ _ storable. storable.0 };

    ghost sized = { λ _ _ storable. storable.1 };

    ghost again_stored = { λ x fits sized. (again_aggregate x fits, sized) };
}

/// A row of a consistent-change-data table that keeps every change, under its number, which counts
/// from 1.
#[derive(Clone, Debug, Drop, PartialEq, Eq)]
pub struct HistoryRow {
    pub intentseq: Sequence,
    pub op: Op,
    pub commitseq: u64,
    pub time: u64,
    pub row: Row,
}

impl Part for HistoryRow {
    ghost fits = { IsHistory };

    ghost has_spelling = { HasHistorySpelling };

    ghost spelling = { history_spelling };

    ghost one = { one_history };

    ghost again = { again_history };

    fn put_part(&self, out: &mut Vec<u8>) -> Result<(), AllocError> {
        put_recorded(
            &self.intentseq,
            self.op,
            self.commitseq,
            self.time,
            &self.row,
            out,
        )
    }

    fn take_part(alloc: Global, bytes: &[u8]) -> Result<(HistoryRow, &[u8]), TakeError> {
        let (intentseq, op, commitseq, time, row, rest) = take_five(alloc, bytes)?;
        Ok((
            HistoryRow {
                intentseq,
                op,
                commitseq,
                time,
                row,
            },
            rest,
        ))
    }
}

impl Stored for HistoryRow {
    type Key = u64;

    type Table = u32;

    const AREA: Area = Area::Target;

    ghost AREA = { areas.Target };

    ghost storable = { IsStorable HasHistorySpelling history_spelling };

    ghost spelled = { λ _ storable. storable.0 };

    ghost sized = { λ _ _ storable. storable.1 };

    ghost again_stored = { λ x fits sized. (again_history x fits, sized) };
}

/// A row of a condensed consistent-change-data table, kept under its key.
#[derive(Clone, Debug, Drop, PartialEq, Eq)]
pub struct LatestRow {
    pub intentseq: Sequence,
    pub op: Op,
    pub commitseq: u64,
    pub time: u64,
    pub row: Row,
}

impl Part for LatestRow {
    ghost fits = { IsLatest };

    ghost has_spelling = { HasLatestSpelling };

    ghost spelling = { latest_spelling };

    ghost one = { one_latest };

    ghost again = { again_latest };

    fn put_part(&self, out: &mut Vec<u8>) -> Result<(), AllocError> {
        put_recorded(
            &self.intentseq,
            self.op,
            self.commitseq,
            self.time,
            &self.row,
            out,
        )
    }

    fn take_part(alloc: Global, bytes: &[u8]) -> Result<(LatestRow, &[u8]), TakeError> {
        let (intentseq, op, commitseq, time, row, rest) = take_five(alloc, bytes)?;
        Ok((
            LatestRow {
                intentseq,
                op,
                commitseq,
                time,
                row,
            },
            rest,
        ))
    }
}

impl Stored for LatestRow {
    type Key = List<Value>;

    type Table = u32;

    const AREA: Area = Area::Target;

    ghost AREA = { areas.Target };

    ghost storable = { IsStorable HasLatestSpelling latest_spelling };

    ghost spelled = { λ _ storable. storable.0 };

    ghost sized = { λ _ _ storable. storable.1 };

    ghost again_stored = { λ x fits sized. (again_latest x fits, sized) };
}

/// Appends the spelling of a change and of the row that it left.
fn put_recorded(
    intentseq: &Sequence,
    op: Op,
    commitseq: u64,
    time: u64,
    row: &Row,
    out: &mut Vec<u8>,
) -> Result<(), AllocError>
    requires { IsCounted row.now }
    ensures ok { OnOk result
        (out.new.items
        ≡ out.old.items ++ recorded_spelling intentseq.now op commitseq time row.now) }
    ensures fits { OnOk result (IsRecorded intentseq.now commitseq time row.now) }
{
    intentseq.put_part(out)?;
    op.put_part(out)?;
    commitseq.put_part(out)?;
    time.put_part(out)?;
    row.put_part(out)
}
