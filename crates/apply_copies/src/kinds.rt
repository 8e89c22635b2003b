//! Which members of a set are user copies.

ghost use Rattle.std.specs.Prelude.{◌↔◌, IsTrue};
ghost use Rattle.apply_copies.specs.Copies.{IsCopyAt};

use repl_definitions::{SetDef, TargetKind};

/// Whether the member of a set at a place is a user copy.
pub fn is_copy_at(def: &SetDef, place: u32) -> bool
    ensures { IsTrue result ↔ IsCopyAt def.now place }
{
    match def.members.as_slice().get(place as usize) {
        Some(member) => member.kind == TargetKind::UserCopy,
        None => false,
    }
}
