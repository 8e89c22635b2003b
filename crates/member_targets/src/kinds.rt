//! Which kinds of members are carried out.

ghost use Rattle.std.specs.Prelude.{◌≡◌};
ghost use Rattle.member_targets.specs.Kinds.{is_taken as is_taken_lem};

use repl_definitions::TargetKind;

/// Whether members of a kind are carried out.
pub fn is_taken(kind: &TargetKind) -> bool
    ensures { result ≡ is_taken_lem kind.now }
{
    match kind {
        TargetKind::UserCopy => true,
        TargetKind::PointInTime
        | TargetKind::BaseAggregate
        | TargetKind::ChangeAggregate
        | TargetKind::Ccd { .. }
        | TargetKind::Replica => false,
    }
}
