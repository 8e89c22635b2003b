//! What capture keeps at a source.

ghost use Rattle.repl_records.specs.Capture.{IsChangeRow, HasChangeRowSpelling};
ghost use Rattle.repl_records.specs.Capture.{change_row_spelling, IsUow, HasUowSpelling};
ghost use Rattle.repl_records.specs.Capture.{uow_spelling, IsCapture, capture_spelling};
ghost use Rattle.repl_records.specs.Capture.{IsRegistrationState, registration_state_spelling};
ghost use Rattle.repl_records.specs.laws.Capture.{one_change_row, again_change_row, one_uow};
ghost use Rattle.repl_records.specs.laws.Capture.{again_uow, small_uow, one_capture, small_capture};
ghost use Rattle.repl_records.specs.laws.Capture.{one_registration_state, small_registration_state};
ghost use Rattle.repl_types.specs.declared.area.Area.TheVariants as areas;
ghost use Rattle.row_codec.specs.Spelling.{Any};
ghost use Rattle.row_codec.specs.Storable.{IsStorable};

use crate::code::Code;
use crate::record_keys::{CdKey, Single};
use repl_types::{Area, Name, Op, Row, SetId};
use row_codec::{Part, Stored, Table0, Table1, TakeError, take_four, take_three};
use std::alloc::{AllocError, Global};

/// What a change-data table keeps of a change: the images of the registered columns.
#[derive(Clone, Debug, Drop, PartialEq, Eq)]
pub struct ChangeRow {
    pub op: Op,
    pub after: Row,
    pub before: Row,
}

impl Part for ChangeRow {
    ghost fits = { IsChangeRow };

    ghost has_spelling = { HasChangeRowSpelling };

    ghost spelling = { change_row_spelling };

    ghost one = { one_change_row };

    ghost again = { again_change_row };

    fn put_part(&self, out: &mut Vec<u8>) -> Result<(), AllocError> {
        self.op.put_part(out)?;
        self.after.put_part(out)?;
        self.before.put_part(out)
    }

    fn take_part(alloc: Global, bytes: &[u8]) -> Result<(ChangeRow, &[u8]), TakeError> {
        let (op, after, before, rest) = take_three(alloc, bytes)?;
        Ok((ChangeRow { op, after, before }, rest))
    }
}

impl Stored for ChangeRow {
    type Key = CdKey;

    type Table = u32;

    const AREA: Area = Area::Cd;

    ghost AREA = { areas.Cd };

    ghost storable = { IsStorable HasChangeRowSpelling change_row_spelling };

    ghost spelled = { λ _ storable. storable.0 };

    ghost sized = { λ _ _ storable. storable.1 };

    ghost again_stored = { λ x fits sized. (again_change_row x fits, sized) };
}

/// What the unit-of-work table keeps of a captured unit, under its seq. `code` is the rejection
/// code, 0 to 4.
#[derive(Clone, Debug, Drop, PartialEq, Eq)]
pub struct UowRow {
    pub time: u64,
    pub authid: Name,
    pub origin: Option<SetId>,
    pub code: u8,
}

impl Part for UowRow {
    ghost fits = { IsUow };

    ghost has_spelling = { HasUowSpelling };

    ghost spelling = { uow_spelling };

    ghost one = { one_uow };

    ghost again = { again_uow };

    fn put_part(&self, out: &mut Vec<u8>) -> Result<(), AllocError> {
        self.time.put_part(out)?;
        self.authid.put_part(out)?;
        self.origin.put_part(out)?;
        self.code.put_part(out)
    }

    fn take_part(alloc: Global, bytes: &[u8]) -> Result<(UowRow, &[u8]), TakeError> {
        let (time, authid, origin, Code { code }, rest) = take_four(alloc, bytes)?;
        Ok((
            UowRow {
                time,
                authid,
                origin,
                code,
            },
            rest,
        ))
    }
}

impl Stored for UowRow {
    type Key = u64;

    type Table = Table0;

    const AREA: Area = Area::Uow;

    ghost AREA = { areas.Uow };

    ghost storable = { HasUowSpelling };

    ghost spelled = { λ _ storable. storable };

    ghost sized = { small_uow };

    ghost again_stored = { λ x fits _. again_uow x fits };
}

/// How far capture is: the units up to `captured` are captured, `restart` is where the log has to
/// be read from, and units up to `floor` are pruned from the unit-of-work table.
#[derive(Clone, Copy, Debug, PartialEq, Eq)]
pub struct CaptureState {
    pub captured: u64,
    pub restart: u64,
    pub floor: u64,
}

impl Part for CaptureState {
    ghost fits = { IsCapture };

    ghost has_spelling = { Any };

    ghost spelling = { capture_spelling };

    ghost one = { one_capture };

    ghost again = { λ _ _. tt };

    fn put_part(&self, out: &mut Vec<u8>) -> Result<(), AllocError> {
        self.captured.put_part(out)?;
        self.restart.put_part(out)?;
        self.floor.put_part(out)
    }

    fn take_part(alloc: Global, bytes: &[u8]) -> Result<(CaptureState, &[u8]), TakeError> {
        let (captured, restart, floor, rest) = take_three(alloc, bytes)?;
        Ok((
            CaptureState {
                captured,
                restart,
                floor,
            },
            rest,
        ))
    }
}

impl Stored for CaptureState {
    type Key = Single;

    type Table = Table0;

    const AREA: Area = Area::Capture;

    ghost AREA = { areas.Capture };

    ghost storable = { Any };

    ghost spelled = { λ _ _. tt };

    ghost sized = { small_capture };

    ghost again_stored = { λ _ _ _. tt };
}

/// The state of a registration: whether it is active, since which position, or last was, and up to
/// which commit its change rows are pruned.
#[derive(Clone, Copy, Debug, PartialEq, Eq)]
pub struct RegState {
    pub active: bool,
    pub start: u64,
    pub floor: u64,
}

impl Part for RegState {
    ghost fits = { IsRegistrationState };

    ghost has_spelling = { Any };

    ghost spelling = { registration_state_spelling };

    ghost one = { one_registration_state };

    ghost again = { λ _ _. tt };

    fn put_part(&self, out: &mut Vec<u8>) -> Result<(), AllocError> {
        self.active.put_part(out)?;
        self.start.put_part(out)?;
        self.floor.put_part(out)
    }

    fn take_part(alloc: Global, bytes: &[u8]) -> Result<(RegState, &[u8]), TakeError> {
        let (active, start, floor, rest) = take_three(alloc, bytes)?;
        Ok((
            RegState {
                active,
                start,
                floor,
            },
            rest,
        ))
    }
}

impl Stored for RegState {
    type Key = u32;

    type Table = Table1;

    const AREA: Area = Area::Capture;

    ghost AREA = { areas.Capture };

    ghost storable = { Any };

    ghost spelled = { λ _ _. tt };

    ghost sized = { small_registration_state };

    ghost again_stored = { λ _ _ _. tt };
}
