//! Keys of records.

ghost use Rattle.repl_records.specs.RecordKeys.{single_spelling, single_cmp};
ghost use Rattle.repl_records.specs.RecordKeys.{in_flight_key_spelling, IsInFlightKey};
ghost use Rattle.repl_records.specs.RecordKeys.{in_flight_key_cmp, change_key_spelling};
ghost use Rattle.repl_records.specs.RecordKeys.{IsChangeKey, change_key_cmp, unit_key_spelling};
ghost use Rattle.repl_records.specs.RecordKeys.{IsUnitKey, unit_key_cmp, member_key_spelling};
ghost use Rattle.repl_records.specs.RecordKeys.{IsMemberKey, member_key_cmp};
ghost use Rattle.repl_records.specs.laws.RecordKeys.{one_single, order_single, key_single};
ghost use Rattle.repl_records.specs.laws.RecordKeys.{one_in_flight_key, order_in_flight_key};
ghost use Rattle.repl_records.specs.laws.RecordKeys.{key_in_flight_key, one_change_key};
ghost use Rattle.repl_records.specs.laws.RecordKeys.{order_change_key, key_change_key};
ghost use Rattle.repl_records.specs.laws.RecordKeys.{one_unit_key, order_unit_key, key_unit_key};
ghost use Rattle.repl_records.specs.laws.RecordKeys.{one_member_key, order_member_key};
ghost use Rattle.repl_records.specs.laws.RecordKeys.{key_member_key};
ghost use Rattle.row_codec.specs.Spelling.{Any};

use repl_types::Sequence;
use row_codec::{Part, PartKey, TakeError, take_two};
use std::alloc::{AllocError, Global};

/// The key of a table that has one record.
#[derive(Clone, Copy, Debug, PartialEq, Eq)]
pub struct Single;

impl Part for Single {
    ghost fits = { Any };

    ghost has_spelling = { Any };

    ghost spelling = { single_spelling };

    ghost one = { one_single };

    ghost again = { λ _ _. tt };

    fn put_part(&self, out: &mut Vec<u8>) -> Result<(), AllocError> {
        Ok(out.push(0x00)?)
    }

    fn take_part(_: Global, bytes: &[u8]) -> Result<(Single, &[u8]), TakeError> {
        match bytes {
            [0x00, rest @ ..] => Ok((Single, rest)),
            _ => Err(TakeError::Spelling),
        }
    }
}

impl PartKey for Single {
    ghost cmp = { single_cmp };

    ghost spelled = { λ _. tt };

    ghost ordered = { order_single };

    ghost small = { key_single };
}

/// The key of a change in flight: the transaction, and the change's position.
#[derive(Clone, Copy, Debug, PartialEq, Eq)]
pub struct InFlightKey {
    pub tx: u32,
    pub pos: u64,
}

impl Part for InFlightKey {
    ghost fits = { IsInFlightKey };

    ghost has_spelling = { Any };

    ghost spelling = { in_flight_key_spelling };

    ghost one = { one_in_flight_key };

    ghost again = { λ _ _. tt };

    fn put_part(&self, out: &mut Vec<u8>) -> Result<(), AllocError> {
        self.tx.put_part(out)?;
        self.pos.put_part(out)
    }

    fn take_part(alloc: Global, bytes: &[u8]) -> Result<(InFlightKey, &[u8]), TakeError> {
        let (tx, pos, rest) = take_two(alloc, bytes)?;
        Ok((InFlightKey { tx, pos }, rest))
    }
}

impl PartKey for InFlightKey {
    ghost cmp = { in_flight_key_cmp };

    ghost spelled = { λ _. tt };

    ghost ordered = { order_in_flight_key };

    ghost small = { key_in_flight_key };
}

/// The key of a row of a change-data table: the seq of its unit, and the place of its change. So
/// rows are in the order of the log's units, and of the changes in each.
#[derive(Clone, Copy, Debug, PartialEq, Eq)]
pub struct CdKey {
    pub commitseq: u64,
    pub intentseq: Sequence,
}

impl Part for CdKey {
    ghost fits = { IsChangeKey };

    ghost has_spelling = { Any };

    ghost spelling = { change_key_spelling };

    ghost one = { one_change_key };

    ghost again = { λ _ _. tt };

    fn put_part(&self, out: &mut Vec<u8>) -> Result<(), AllocError> {
        self.commitseq.put_part(out)?;
        self.intentseq.put_part(out)
    }

    fn take_part(alloc: Global, bytes: &[u8]) -> Result<(CdKey, &[u8]), TakeError> {
        let (commitseq, intentseq, rest) = take_two(alloc, bytes)?;
        Ok((
            CdKey {
                commitseq,
                intentseq,
            },
            rest,
        ))
    }
}

impl PartKey for CdKey {
    ghost cmp = { change_key_cmp };

    ghost spelled = { λ _. tt };

    ghost ordered = { order_change_key };

    ghost small = { key_change_key };
}

/// The key of a decided unit: the set's number at its source, and the unit's seq.
#[derive(Clone, Copy, Debug, PartialEq, Eq)]
pub struct UnitKey {
    pub set: u32,
    pub seq: u64,
}

impl Part for UnitKey {
    ghost fits = { IsUnitKey };

    ghost has_spelling = { Any };

    ghost spelling = { unit_key_spelling };

    ghost one = { one_unit_key };

    ghost again = { λ _ _. tt };

    fn put_part(&self, out: &mut Vec<u8>) -> Result<(), AllocError> {
        self.set.put_part(out)?;
        self.seq.put_part(out)
    }

    fn take_part(alloc: Global, bytes: &[u8]) -> Result<(UnitKey, &[u8]), TakeError> {
        let (set, seq, rest) = take_two(alloc, bytes)?;
        Ok((UnitKey { set, seq }, rest))
    }
}

impl PartKey for UnitKey {
    ghost cmp = { unit_key_cmp };

    ghost spelled = { λ _. tt };

    ghost ordered = { order_unit_key };

    ghost small = { key_unit_key };
}

/// The key of a target: the set's number at the server, and the member's place in the set.
#[derive(Clone, Copy, Debug, PartialEq, Eq)]
pub struct MemberKey {
    pub set: u32,
    pub member: u32,
}

impl Part for MemberKey {
    ghost fits = { IsMemberKey };

    ghost has_spelling = { Any };

    ghost spelling = { member_key_spelling };

    ghost one = { one_member_key };

    ghost again = { λ _ _. tt };

    fn put_part(&self, out: &mut Vec<u8>) -> Result<(), AllocError> {
        self.set.put_part(out)?;
        self.member.put_part(out)
    }

    fn take_part(alloc: Global, bytes: &[u8]) -> Result<(MemberKey, &[u8]), TakeError> {
        let (set, member, rest) = take_two(alloc, bytes)?;
        Ok((MemberKey { set, member }, rest))
    }
}

impl PartKey for MemberKey {
    ghost cmp = { member_key_cmp };

    ghost spelled = { λ _. tt };

    ghost ordered = { order_member_key };

    ghost small = { key_member_key };
}
