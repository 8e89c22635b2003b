//! How far sets are at their targets.

ghost use Rattle.std.specs.Prelude.{◌≡◌, ◌++◌, ◌↔◌, IsTrue, IfOk};
ghost use Rattle.repl_records.specs.SetState.{HasNumbers, IsState, ZeroIfAbsent, state_spelling};
ghost use Rattle.repl_records.specs.SetState.{IsLastNumber, last_number_spelling};
ghost use Rattle.repl_records.specs.laws.SetState.{one_state, small_state, one_last_number};
ghost use Rattle.repl_records.specs.laws.SetState.{small_last_number};
ghost use Rattle.repl_types.specs.declared.area.Area.TheVariants as areas;
ghost use Rattle.row_codec.specs.Spelling.{Any};
ghost use Rattle.row_codec.specs.Takes.{NoPrefix};

use crate::record_keys::MemberKey;
use repl_types::Area;
use row_codec::{Part, Stored, Table0, Table1, TakeError, take_five, take_six};
use std::alloc::{AllocError, Global};

/// How far a set is at its target. Points are positions of the log, and 0 if they are absent.
#[derive(Clone, Copy, Debug, PartialEq, Eq)]
pub enum SetState {
    /// `synchpoint` is the point of the source that the targets are copies of, `time` that commit's
    /// time in seconds, `base` the point of the last refresh, `flag` whether the next step is to be
    /// a refresh, and `entries` the number of entries in the trail.
    ReadOnly {
        has_points: bool,
        synchpoint: u64,
        time: u64,
        base: u64,
        flag: bool,
        entries: u64,
    },
    /// `m` and `f` are the points of master and replica at which the tables agree, and `signal` the
    /// seq of the signal at the replica, 0 for none.
    Replica {
        has_points: bool,
        m: u64,
        f: u64,
        signal: u64,
        entries: u64,
    },
}

/// The tag of a read-only set's state.
const READ_ONLY: u8 = 0x01;
/// The tag of a replica set's state.
const REPLICA: u8 = 0x02;

impl Part for SetState {
    ghost fits = { IsState };

    ghost has_spelling = { ZeroIfAbsent };

    ghost spelling = { state_spelling };

    ghost one = { one_state };

    ghost again = { λ _ fits. fits.1 };

    fn put_part(&self, out: &mut Vec<u8>) -> Result<(), AllocError> {
        match self {
            SetState::ReadOnly {
                has_points,
                synchpoint,
                time,
                base,
                flag,
                entries,
            } => {
                out.push(READ_ONLY)?;
                has_points.put_part(out)?;
                synchpoint.put_part(out)?;
                time.put_part(out)?;
                base.put_part(out)?;
                flag.put_part(out)?;
                entries.put_part(out)
            }
            SetState::Replica {
                has_points,
                m,
                f,
                signal,
                entries,
            } => {
                out.push(REPLICA)?;
                has_points.put_part(out)?;
                m.put_part(out)?;
                f.put_part(out)?;
                signal.put_part(out)?;
                entries.put_part(out)
            }
        }
    }

    #[tactic(auto, using(crate::specs::laws::SetState::no_other_state))]
    fn take_part(alloc: Global, bytes: &[u8]) -> Result<(SetState, &[u8]), TakeError> {
        let (state, rest) = take_state(alloc, bytes)?;
        if !is_zero_if_absent(&state) {
            return Err(TakeError::Spelling);
        }
        Ok((state, rest))
    }
}

/// Whether the numbers of absent points are 0.
fn is_zero_if_absent(state: &SetState) -> bool
    ensures { IsTrue result ↔ ZeroIfAbsent state.now }
{
    match state {
        SetState::ReadOnly {
            has_points,
            synchpoint,
            time,
            base,
            ..
        } => *has_points || (*synchpoint == 0 && *time == 0 && *base == 0),
        SetState::Replica {
            has_points,
            m,
            f,
            ..
        } => *has_points || (*m == 0 && *f == 0),
    }
}

/// A state of a set from the start of the bytes, with any numbers in the place of absent points,
/// and the bytes after it.
#[tactic(auto, using(crate::specs::laws::SetState::only_read_only, crate::specs::laws::SetState::only_replica))]
fn take_state(alloc: Global, bytes: &[u8]) -> Result<(SetState, &[u8]), TakeError>
    ensures ok { IfOk result (λ part. HasNumbers part.0
        × (bytes.now ≡ state_spelling part.0 ++ part.1.now)) }
    ensures spelling { result ≡ Err TakeError.Spelling
        → NoPrefix HasNumbers state_spelling bytes.now }
{
    match bytes {
        [READ_ONLY, rest @ ..] => {
            let (has_points, synchpoint, time, base, flag, entries, rest) = take_six(alloc, rest)?;
            let state = SetState::ReadOnly {
                has_points,
                synchpoint,
                time,
                base,
                flag,
                entries,
            };
            Ok((state, rest))
        }
        [REPLICA, rest @ ..] => {
            let (has_points, m, f, signal, entries, rest) = take_five(alloc, rest)?;
            let state = SetState::Replica {
                has_points,
                m,
                f,
                signal,
                entries,
            };
            Ok((state, rest))
        }
        _ => Err(TakeError::Spelling),
    }
}

impl Stored for SetState {
    type Key = u32;

    type Table = Table0;

    const AREA: Area = Area::SetState;

    ghost AREA = { areas.SetState };

    ghost storable = { ZeroIfAbsent };

    ghost spelled = { λ _ storable. storable };

    ghost sized = { small_state };

    ghost again_stored = { λ _ fits _. fits.1 };
}

/// The last number that was given to a row of a target whose rows are numbered.
#[derive(Clone, Copy, Debug, PartialEq, Eq)]
pub struct LastNumber {
    pub number: u64,
}

impl Part for LastNumber {
    ghost fits = { IsLastNumber };

    ghost has_spelling = { Any };

    ghost spelling = { last_number_spelling };

    ghost one = { one_last_number };

    ghost again = { λ _ _. tt };

    fn put_part(&self, out: &mut Vec<u8>) -> Result<(), AllocError> {
        self.number.put_part(out)
    }

    fn take_part(alloc: Global, bytes: &[u8]) -> Result<(LastNumber, &[u8]), TakeError> {
        let (number, rest) = u64::take_part(alloc, bytes)?;
        Ok((LastNumber { number }, rest))
    }
}

impl Stored for LastNumber {
    type Key = MemberKey;

    type Table = Table1;

    const AREA: Area = Area::SetState;

    ghost AREA = { areas.SetState };

    ghost storable = { Any };

    ghost spelled = { λ _ _. tt };

    ghost sized = { small_last_number };

    ghost again_stored = { λ _ _ _. tt };
}
