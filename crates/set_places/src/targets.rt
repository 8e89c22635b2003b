//! Which table of a server is the target of a member.

ghost use Rattle.std.specs.Prelude.{◌≡◌};
ghost use Rattle.set_places.specs.Targets.{target_number as target_number_lem};

use crate::placed_set::PlacedSet;

/// The number of the target of a member. No set of a server that stands for a world has a number
/// for which this would pass the greatest number.
pub fn target_number(set: &PlacedSet, member: u32) -> u32
    ensures { result ≡ target_number_lem set.now.at_target.number member }
{
    set.at_target
        .number
        .saturating_mul(64)
        .saturating_add(member)
}
