//! What a set's trail keeps of its steps.

ghost use Rattle.std.specs.Prelude.{◌≡◌, ◌∷◌, ◌++◌, IfOk, OnOk};
ghost use Rattle.repl_records.specs.Trail.{IsBase, base_spelling, IsEntry, entry_spelling};
ghost use Rattle.repl_records.specs.laws.Trail.{one_base, one_entry, small_entry};
ghost use Rattle.repl_types.specs.declared.area.Area.TheVariants as areas;
ghost use Rattle.row_codec.specs.Spelling.{Any, b64};
ghost use Rattle.row_codec.specs.Takes.{NoPrefix};

use repl_types::Area;
use row_codec::{Part, Stored, TakeError, take_four, take_six, take_three};
use std::alloc::{AllocError, Global};
use std::marker::Model;

/// The point of base aggregates, if some were read. A clause sees the point.
#[derive(Drop)]
pub(crate) struct Base {
    pub(crate) point: Option<u64>,
}

impl Model for Base {
    ghost use Rattle.std.specs.Prelude.{Option, ℕ};

    ghost Value = { Option ℕ };

    ghost view = { λ base. base.point };
}

impl Part for Base {
    ghost fits = { IsBase };

    ghost has_spelling = { Any };

    ghost spelling = { base_spelling };

    ghost one = { one_base };

    ghost again = { λ _ _. tt };

    fn put_part(&self, out: &mut Vec<u8>) -> Result<(), AllocError> {
        put_base(self.point, out)
    }

    #[tactic(auto, unfolding(row_codec::specs::Spelling::b64))]
    fn take_part(alloc: Global, bytes: &[u8]) -> Result<(Base, &[u8]), TakeError> {
        match bytes {
            [0x00, 0, 0, 0, 0, 0, 0, 0, 0, rest @ ..] => Ok((Base { point: None }, rest)),
            [0x01, rest @ ..] => {
                let (point, rest) = u64::take_part(alloc, rest)?;
                Ok((Base { point: Some(point) }, rest))
            }
            _ => Err(TakeError::Spelling),
        }
    }
}

/// Appends the spelling of the point of base aggregates.
fn put_base(point: Option<u64>, out: &mut Vec<u8>) -> Result<(), AllocError>
    ensures ok { OnOk result (out.new.items ≡ out.old.items ++ base_spelling point) }
    ensures fits { OnOk result (IsBase point) }
{
    point.is_some().put_part(out)?;
    point.unwrap_or(0).put_part(out)
}

/// The tag of a refresh's entry.
const REFRESH: u8 = 0x01;
/// The tag of a block's entry.
const BLOCK: u8 = 0x02;
/// The tag of a load's entry.
const LOAD: u8 = 0x03;
/// The tag of a settling's entry.
const SETTLE: u8 = 0x04;

/// What a set's trail keeps of a step, under its number, which counts from 1. `base` is the point
/// of base aggregates, if some were read.
#[derive(Clone, Copy, Debug, PartialEq, Eq)]
pub enum TrailEntry {
    Refresh {
        p: u64,
        rows: u64,
        base: Option<u64>,
    },
    Block {
        from: u64,
        to: u64,
        inserts: u64,
        updates: u64,
        deletes: u64,
        base: Option<u64>,
    },
    Load {
        m: u64,
        f: u64,
        rows: u64,
    },
    Settle {
        m: u64,
        f: u64,
        rejected: u64,
        applied: u64,
    },
}

impl Part for TrailEntry {
    ghost fits = { IsEntry };

    ghost has_spelling = { Any };

    ghost spelling = { entry_spelling };

    ghost one = { one_entry };

    ghost again = { λ _ _. tt };

    fn put_part(&self, out: &mut Vec<u8>) -> Result<(), AllocError> {
        match self {
            TrailEntry::Refresh { p, rows, base } => {
                out.push(REFRESH)?;
                p.put_part(out)?;
                rows.put_part(out)?;
                put_base(*base, out)
            }
            TrailEntry::Block {
                from,
                to,
                inserts,
                updates,
                deletes,
                base,
            } => {
                out.push(BLOCK)?;
                from.put_part(out)?;
                to.put_part(out)?;
                put_three(*inserts, *updates, *deletes, out)?;
                put_base(*base, out)
            }
            TrailEntry::Load { m, f, rows } => {
                out.push(LOAD)?;
                put_three(*m, *f, *rows, out)
            }
            TrailEntry::Settle {
                m,
                f,
                rejected,
                applied,
            } => {
                out.push(SETTLE)?;
                m.put_part(out)?;
                f.put_part(out)?;
                rejected.put_part(out)?;
                applied.put_part(out)
            }
        }
    }

    #[tactic(auto, using(crate::specs::laws::Trail::only_refresh, crate::specs::laws::Trail::only_load, crate::specs::laws::Trail::only_settle))]
    fn take_part(alloc: Global, bytes: &[u8]) -> Result<(TrailEntry, &[u8]), TakeError> {
        match bytes {
            [REFRESH, rest @ ..] => {
                let (p, rows, Base { point: base }, rest) = take_three(alloc, rest)?;
                Ok((TrailEntry::Refresh { p, rows, base }, rest))
            }
            [BLOCK, rest @ ..] => take_block(alloc, rest),
            [LOAD, rest @ ..] => {
                let (m, f, rows, rest) = take_three(alloc, rest)?;
                Ok((TrailEntry::Load { m, f, rows }, rest))
            }
            [SETTLE, rest @ ..] => {
                let (m, f, rejected, applied, rest) = take_four(alloc, rest)?;
                Ok((
                    TrailEntry::Settle {
                        m,
                        f,
                        rejected,
                        applied,
                    },
                    rest,
                ))
            }
            _ => Err(TakeError::Spelling),
        }
    }
}

/// Appends three numbers.
fn put_three(first: u64, second: u64, third: u64, out: &mut Vec<u8>) -> Result<(), AllocError>
    ensures { OnOk result (out.new.items ≡ out.old.items ++ b64 first ++ b64 second ++ b64 third) }
{
    first.put_part(out)?;
    second.put_part(out)?;
    third.put_part(out)
}

/// The entry of a block from the start of the bytes after its tag, and the bytes after it.
#[tactic(auto, using(crate::specs::laws::Trail::only_block))]
fn take_block(alloc: Global, bytes: &[u8]) -> Result<(TrailEntry, &[u8]), TakeError>
    ensures ok { IfOk result
        (λ taken. IsEntry taken.0 × (0x02 ∷ bytes.now ≡ entry_spelling taken.0 ++ taken.1.now)) }
    ensures spelling { result ≡ Err TakeError.Spelling
        → NoPrefix IsEntry entry_spelling (0x02 ∷ bytes.now) }
{
    let (from, to, inserts, updates, deletes, base, rest) = take_six::<
        u64,
        u64,
        u64,
        u64,
        u64,
        Base,
    >(alloc, bytes)?;
    let block = TrailEntry::Block {
        from,
        to,
        inserts,
        updates,
        deletes,
        base: base.point,
    };
    Ok((block, rest))
}

impl Stored for TrailEntry {
    type Key = u64;

    type Table = u32;

    const AREA: Area = Area::Trail;

    ghost AREA = { areas.Trail };

    ghost storable = { Any };

    ghost spelled = { λ _ _. tt };

    ghost sized = { small_entry };

    ghost again_stored = { λ _ _ _. tt };
}
