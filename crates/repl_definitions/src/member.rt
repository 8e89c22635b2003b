//! Members of sets, and their columns.

ghost use Rattle.std.specs.Prelude.{◌≡◌, ◌∷◌, ◌++◌, OnOk};
ghost use Rattle.repl_definitions.specs.Members.{target_kind_spelling, source_spelling, IsSource};
ghost use Rattle.repl_definitions.specs.Members.{HasSourceSpelling, target_column_spelling};
ghost use Rattle.repl_definitions.specs.Members.{IsTargetColumn, HasTargetColumnSpelling};
ghost use Rattle.repl_definitions.specs.Members.{member_spelling, IsMember, HasMemberSpelling};
ghost use Rattle.repl_definitions.specs.laws.Members.{one_target_kind, one_source, again_source};
ghost use Rattle.repl_definitions.specs.laws.Members.{one_target_column, again_target_column};
ghost use Rattle.repl_definitions.specs.laws.Members.{one_member, again_member};
ghost use Rattle.row_codec.specs.Spelling.{Any, b16, Is16};

use crate::expr::Expr;
use crate::predicate::Predicate;
use repl_types::{List, Name};
use row_codec::{Part, TakeError, take_five, take_two};
use std::alloc::{AllocError, Global};

/// A member of a set: a source table, and the target that copies it.
#[derive(Clone, Debug, Drop, PartialEq, Eq)]
pub struct Member {
    pub source: Name,
    pub target: Name,
    pub kind: TargetKind,
    pub columns: List<TargetColumn>,
    pub filter: Option<Predicate>,
}

impl Part for Member {
    ghost fits = { IsMember };

    ghost has_spelling = { HasMemberSpelling };

    ghost spelling = { member_spelling };

    ghost one = { one_member };

    ghost again = { again_member };

    fn put_part(&self, out: &mut Vec<u8>) -> Result<(), AllocError> {
        self.source.put_part(out)?;
        self.target.put_part(out)?;
        self.kind.put_part(out)?;
        self.columns.put_part(out)?;
        self.filter.put_part(out)
    }

    fn take_part(alloc: Global, bytes: &[u8]) -> Result<(Member, &[u8]), TakeError> {
        let (source, target, kind, columns, filter, rest) = take_five::<
            Name,
            Name,
            TargetKind,
            List<TargetColumn>,
            Option<Predicate>,
        >(alloc, bytes)?;
        let member = Member {
            source,
            target,
            kind,
            columns,
            filter,
        };
        Ok((member, rest))
    }
}

/// What kind of copy of its source a target is.
#[derive(Clone, Copy, Debug, PartialEq, Eq)]
pub enum TargetKind {
    UserCopy,
    PointInTime,
    BaseAggregate,
    ChangeAggregate,
    /// A consistent-change-data table: `complete` if it holds rows that never changed,
    /// `condensed` if it has at most one row a key.
    Ccd { complete: bool, condensed: bool },
    Replica,
}

impl Part for TargetKind {
    ghost fits = { Any };

    ghost has_spelling = { Any };

    ghost spelling = { target_kind_spelling };

    ghost one = { one_target_kind };

    ghost again = { λ _ _. tt };

    fn put_part(&self, out: &mut Vec<u8>) -> Result<(), AllocError> {
        match self {
            TargetKind::UserCopy => Ok(out.push(0x01)?),
            TargetKind::PointInTime => Ok(out.push(0x02)?),
            TargetKind::BaseAggregate => Ok(out.push(0x03)?),
            TargetKind::ChangeAggregate => Ok(out.push(0x04)?),
            TargetKind::Ccd {
                complete,
                condensed,
            } => {
                out.push(0x05)?;
                complete.put_part(out)?;
                condensed.put_part(out)
            }
            TargetKind::Replica => Ok(out.push(0x06)?),
        }
    }

    fn take_part(alloc: Global, bytes: &[u8]) -> Result<(TargetKind, &[u8]), TakeError> {
        match bytes {
            [0x01, rest @ ..] => Ok((TargetKind::UserCopy, rest)),
            [0x02, rest @ ..] => Ok((TargetKind::PointInTime, rest)),
            [0x03, rest @ ..] => Ok((TargetKind::BaseAggregate, rest)),
            [0x04, rest @ ..] => Ok((TargetKind::ChangeAggregate, rest)),
            [0x05, rest @ ..] => {
                let (complete, condensed, rest) = take_two::<bool, bool>(alloc, rest)?;
                let kind = TargetKind::Ccd {
                    complete,
                    condensed,
                };
                Ok((kind, rest))
            }
            [0x06, rest @ ..] => Ok((TargetKind::Replica, rest)),
            _ => Err(TakeError::Spelling),
        }
    }
}

/// A column of a target.
#[derive(Clone, Debug, Drop, PartialEq, Eq)]
pub struct TargetColumn {
    pub name: Name,
    pub from: ColumnFrom,
}

impl Part for TargetColumn {
    ghost fits = { IsTargetColumn };

    ghost has_spelling = { HasTargetColumnSpelling };

    ghost spelling = { target_column_spelling };

    ghost one = { one_target_column };

    ghost again = { again_target_column };

    fn put_part(&self, out: &mut Vec<u8>) -> Result<(), AllocError> {
        self.name.put_part(out)?;
        self.from.put_part(out)
    }

    fn take_part(alloc: Global, bytes: &[u8]) -> Result<(TargetColumn, &[u8]), TakeError> {
        let (name, from, rest) = take_two::<Name, ColumnFrom>(alloc, bytes)?;
        Ok((TargetColumn { name, from }, rest))
    }
}

/// Where a column of a target comes from. Columns of the source are places of its table, counted
/// from 0.
#[derive(Clone, Debug, Drop, PartialEq, Eq)]
pub enum ColumnFrom {
    Plain(Expr),
    /// The number of rows.
    Count,
    /// The number of rows in which the column isn't NULL.
    CountOf(u32),
    Sum(u32),
    Min(u32),
    Max(u32),
}

impl Part for ColumnFrom {
    ghost fits = { IsSource };

    ghost has_spelling = { HasSourceSpelling };

    ghost spelling = { source_spelling };

    ghost one = { one_source };

    ghost again = { again_source };

    fn put_part(&self, out: &mut Vec<u8>) -> Result<(), AllocError> {
        match self {
            ColumnFrom::Plain(expr) => {
                out.push(0x01)?;
                expr.put_part(out)
            }
            ColumnFrom::Count => Ok(out.push(0x02)?),
            ColumnFrom::CountOf(place) => put_fold(0x03, *place, out),
            ColumnFrom::Sum(place) => put_fold(0x04, *place, out),
            ColumnFrom::Min(place) => put_fold(0x05, *place, out),
            ColumnFrom::Max(place) => put_fold(0x06, *place, out),
        }
    }

    fn take_part(alloc: Global, bytes: &[u8]) -> Result<(ColumnFrom, &[u8]), TakeError> {
        match bytes {
            [0x01, rest @ ..] => {
                let (expr, rest) = Expr::take_part(alloc, rest)?;
                Ok((ColumnFrom::Plain(expr), rest))
            }
            [0x02, rest @ ..] => Ok((ColumnFrom::Count, rest)),
            [0x03, rest @ ..] => {
                let (place, rest) = u16::take_part(alloc, rest)?;
                Ok((ColumnFrom::CountOf(u32::from(place)), rest))
            }
            [0x04, rest @ ..] => {
                let (place, rest) = u16::take_part(alloc, rest)?;
                Ok((ColumnFrom::Sum(u32::from(place)), rest))
            }
            [0x05, rest @ ..] => {
                let (place, rest) = u16::take_part(alloc, rest)?;
                Ok((ColumnFrom::Min(u32::from(place)), rest))
            }
            [0x06, rest @ ..] => {
                let (place, rest) = u16::take_part(alloc, rest)?;
                Ok((ColumnFrom::Max(u32::from(place)), rest))
            }
            _ => Err(TakeError::Spelling),
        }
    }
}

/// Appends the spelling of a count, sum, min or max of a column.
fn put_fold(tag: u8, place: u32, out: &mut Vec<u8>) -> Result<(), AllocError>
    requires { Is16 place }
    ensures { OnOk result (out.new.items ≡ out.old.items ++ tag ∷ b16 place) }
{
    out.push(tag)?;
    (place as u16).put_part(out)
}
