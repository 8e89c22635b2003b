//! A small world that isn't empty, and is sound.

ghost use Rattle.std.specs.Prelude.{◌≡◌, ◌∷◌, []};
ghost use Rattle.repl_model.specs.World.{known_sets};
ghost use Rattle.repl_model.specs.Sound.{IsSound};
ghost use Rattle.repl_model.specs.WorkedWorld.{worked_world, copied};

/// The world is sound. It has one set that stands at both its ends: its source is the first server,
/// and its target the second.
pub fn worked_world_is_sound()
    ensures sound { IsSound worked_world }
    ensures known { known_sets worked_world ≡ copied ∷ [] }
{}
