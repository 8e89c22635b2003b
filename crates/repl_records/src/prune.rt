//! What pruning and deciding keep at a source.

ghost use Rattle.repl_records.specs.Prune.{IsMark, mark_spelling, IsDecided, decided_spelling};
ghost use Rattle.repl_records.specs.Prune.{IsRejected, rejected_spelling};
ghost use Rattle.repl_records.specs.laws.Prune.{one_mark, small_mark, one_decided, small_decided};
ghost use Rattle.repl_records.specs.laws.Prune.{one_rejected, small_rejected};
ghost use Rattle.repl_types.specs.declared.area.Area.TheVariants as areas;
ghost use Rattle.row_codec.specs.Spelling.{Any};

use crate::record_keys::UnitKey;
use repl_types::Area;
use row_codec::{Part, Stored, Table0, Table1, Table2, TakeError, take_two};
use std::alloc::{AllocError, Global};

/// What the source of a set knows of it: the point that the target has reached, and the last
/// signal.
#[derive(Clone, Copy, Debug, PartialEq, Eq)]
pub struct SyncMark {
    pub mark: u64,
    pub signal: u64,
}

impl Part for SyncMark {
    ghost fits = { IsMark };

    ghost has_spelling = { Any };

    ghost spelling = { mark_spelling };

    ghost one = { one_mark };

    ghost again = { λ _ _. tt };

    fn put_part(&self, out: &mut Vec<u8>) -> Result<(), AllocError> {
        self.mark.put_part(out)?;
        self.signal.put_part(out)
    }

    fn take_part(alloc: Global, bytes: &[u8]) -> Result<(SyncMark, &[u8]), TakeError> {
        let (mark, signal, rest) = take_two(alloc, bytes)?;
        Ok((SyncMark { mark, signal }, rest))
    }
}

impl Stored for SyncMark {
    type Key = u32;

    type Table = Table0;

    const AREA: Area = Area::Prune;

    ghost AREA = { areas.Prune };

    ghost storable = { Any };

    ghost spelled = { λ _ _. tt };

    ghost sized = { small_mark };

    ghost again_stored = { λ _ _ _. tt };
}

/// How far the master of a replica set has decided: the replica's units up to `t`, its own up to
/// `d`.
#[derive(Clone, Copy, Debug, PartialEq, Eq)]
pub struct Decided {
    pub t: u64,
    pub d: u64,
}

impl Part for Decided {
    ghost fits = { IsDecided };

    ghost has_spelling = { Any };

    ghost spelling = { decided_spelling };

    ghost one = { one_decided };

    ghost again = { λ _ _. tt };

    fn put_part(&self, out: &mut Vec<u8>) -> Result<(), AllocError> {
        self.t.put_part(out)?;
        self.d.put_part(out)
    }

    fn take_part(alloc: Global, bytes: &[u8]) -> Result<(Decided, &[u8]), TakeError> {
        let (t, d, rest) = take_two(alloc, bytes)?;
        Ok((Decided { t, d }, rest))
    }
}

impl Stored for Decided {
    type Key = u32;

    type Table = Table1;

    const AREA: Area = Area::Prune;

    ghost AREA = { areas.Prune };

    ghost storable = { Any };

    ghost spelled = { λ _ _. tt };

    ghost sized = { small_decided };

    ghost again_stored = { λ _ _ _. tt };
}

/// The code that a rejected unit got, 1 to 4.
#[derive(Clone, Copy, Debug, PartialEq, Eq)]
pub struct RejectedUnit {
    pub code: u8,
}

impl Part for RejectedUnit {
    ghost fits = { IsRejected };

    ghost has_spelling = { IsRejected };

    ghost spelling = { rejected_spelling };

    ghost one = { one_rejected };

    ghost again = { λ _ fits. fits };

    fn put_part(&self, out: &mut Vec<u8>) -> Result<(), AllocError> {
        self.code.put_part(out)
    }

    fn take_part(_: Global, bytes: &[u8]) -> Result<(RejectedUnit, &[u8]), TakeError> {
        match bytes {
            [code @ 1..=4, rest @ ..] => Ok((RejectedUnit { code: *code }, rest)),
            _ => Err(TakeError::Spelling),
        }
    }
}

impl Stored for RejectedUnit {
    type Key = UnitKey;

    type Table = Table2;

    const AREA: Area = Area::Prune;

    ghost AREA = { areas.Prune };

    ghost storable = { IsRejected };

    ghost spelled = { λ _ storable. storable };

    ghost sized = { small_rejected };

    ghost again_stored = { λ _ fits _. fits };
}
