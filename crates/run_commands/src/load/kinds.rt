//! Which texts are carried out.

ghost use Rattle.std.specs.Prelude.{◌≡◌};
ghost use Rattle.run_commands.specs.load.LoadEvents.{bad_text as bad_text_lem};
ghost use Rattle.run_commands.specs.load.LoadEvents.{is_carried_out_member as is_carried_out_member_lem};
ghost use Rattle.run_commands.specs.load.LoadEvents.{is_carried_out_set as is_carried_out_set_lem};
ghost use Rattle.run_commands.specs.load.LoadEvents.{has_carried_out_sets as has_carried_out_sets_lem};

use member_targets::is_taken;
use repl_commands::{RawDefs, RawMember, RawSet};
use repl_types::{DefPlace, Refusal};
use spelled_defs::target_kind;

/// Whether a member is of a kind that is carried out.
fn is_carried_out_member(member: &RawMember) -> bool
    ensures { result ≡ is_carried_out_member_lem member.now }
{
    match target_kind(member) {
        Some(kind) => is_taken(&kind),
        None => false,
    }
}

/// Whether all members of a set are of such a kind.
fn is_carried_out_set(set: &RawSet) -> bool
    ensures { result ≡ is_carried_out_set_lem set.now }
{
    set.members
        .as_slice()
        .iter()
        .all(|member| is_carried_out_member(member))
}

/// Whether all members of all sets of a text are.
pub fn has_carried_out_sets(raw: &RawDefs) -> bool
    ensures { result ≡ has_carried_out_sets_lem raw.now }
{
    raw.sets
        .as_slice()
        .iter()
        .all(|set| is_carried_out_set(set))
}

/// Why a text is refused that isn't one of definitions that are carried out.
pub fn bad_text() -> Refusal
    ensures { result ≡ bad_text_lem }
{
    Refusal::BadDefinition {
        rule: 1,
        place: DefPlace::Whole,
    }
}
