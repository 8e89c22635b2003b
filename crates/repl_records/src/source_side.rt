//! Records of a source: its tables, its changes in flight, and the end of its log.

ghost use Rattle.repl_records.specs.SourceSide.{IsSourceRow, HasSourceRowSpelling};
ghost use Rattle.repl_records.specs.SourceSide.{source_row_spelling, in_flight_spelling, IsHead};
ghost use Rattle.repl_records.specs.SourceSide.{head_spelling};
ghost use Rattle.repl_records.specs.laws.SourceSide.{one_source_row, again_source_row};
ghost use Rattle.repl_records.specs.laws.SourceSide.{one_in_flight, small_in_flight, one_head};
ghost use Rattle.repl_records.specs.laws.SourceSide.{small_head};
ghost use Rattle.repl_types.specs.declared.area.Area.TheVariants as areas;
ghost use Rattle.row_codec.specs.Spelling.{Any};
ghost use Rattle.row_codec.specs.Storable.{IsStorable};

use crate::record_keys::{InFlightKey, Single};
use repl_types::{Area, List, Row, Value};
use row_codec::{Part, Stored, Table0, TakeError, take_three};
use std::alloc::{AllocError, Global};

/// A row of a source table, kept under its key.
#[derive(Clone, Debug, Drop, PartialEq, Eq)]
pub struct SourceRow {
    pub row: Row,
}

impl Part for SourceRow {
    ghost fits = { IsSourceRow };

    ghost has_spelling = { HasSourceRowSpelling };

    ghost spelling = { source_row_spelling };

    ghost one = { one_source_row };

    ghost again = { again_source_row };

    fn put_part(&self, out: &mut Vec<u8>) -> Result<(), AllocError> {
        self.row.put_part(out)
    }

    fn take_part(alloc: Global, bytes: &[u8]) -> Result<(SourceRow, &[u8]), TakeError> {
        let (row, rest) = Row::take_part(alloc, bytes)?;
        Ok((SourceRow { row }, rest))
    }
}

impl Stored for SourceRow {
    type Key = List<Value>;

    type Table = u32;

    const AREA: Area = Area::Source;

    ghost AREA = { areas.Source };

    ghost storable = { IsStorable HasSourceRowSpelling source_row_spelling };

    ghost spelled = { λ _ storable. storable.0 };

    ghost sized = { λ _ _ storable. storable.1 };

    ghost again_stored = { λ x fits sized. (again_source_row x fits, sized) };
}

/// The record of a change of a transaction in flight. Its key says all.
#[derive(Clone, Copy, Debug, PartialEq, Eq)]
pub struct InFlight;

impl Part for InFlight {
    ghost fits = { Any };

    ghost has_spelling = { Any };

    ghost spelling = { in_flight_spelling };

    ghost one = { one_in_flight };

    ghost again = { λ _ _. tt };

    fn put_part(&self, out: &mut Vec<u8>) -> Result<(), AllocError> {
        Ok(out.push(0x00)?)
    }

    fn take_part(_: Global, bytes: &[u8]) -> Result<(InFlight, &[u8]), TakeError> {
        match bytes {
            [0x00, rest @ ..] => Ok((InFlight, rest)),
            _ => Err(TakeError::Spelling),
        }
    }
}

impl Stored for InFlight {
    type Key = InFlightKey;

    type Table = Table0;

    const AREA: Area = Area::Inflight;

    ghost AREA = { areas.Inflight };

    ghost storable = { Any };

    ghost spelled = { λ _ _. tt };

    ghost sized = { small_in_flight };

    ghost again_stored = { λ _ _ _. tt };
}

/// The end of a log: its last position, its last commit, 0 if there is none, and that commit's
/// time in seconds.
#[derive(Clone, Copy, Debug, PartialEq, Eq)]
pub struct Head {
    pub last: u64,
    pub commit: u64,
    pub time: u64,
}

impl Part for Head {
    ghost fits = { IsHead };

    ghost has_spelling = { Any };

    ghost spelling = { head_spelling };

    ghost one = { one_head };

    ghost again = { λ _ _. tt };

    fn put_part(&self, out: &mut Vec<u8>) -> Result<(), AllocError> {
        self.last.put_part(out)?;
        self.commit.put_part(out)?;
        self.time.put_part(out)
    }

    fn take_part(alloc: Global, bytes: &[u8]) -> Result<(Head, &[u8]), TakeError> {
        let (last, commit, time, rest) = take_three(alloc, bytes)?;
        Ok((Head { last, commit, time }, rest))
    }
}

impl Stored for Head {
    type Key = Single;

    type Table = Table0;

    const AREA: Area = Area::Head;

    ghost AREA = { areas.Head };

    ghost storable = { Any };

    ghost spelled = { λ _ _. tt };

    ghost sized = { small_head };

    ghost again_stored = { λ _ _ _. tt };
}
