//! Definitions for the contract of a run: the list of what it does, and how far it came.
//!
//! Below it is `keep_core`. `capture_core`, `load_defs`, `run_commands` and `session_core` state
//! their runs with these definitions. What a world is, and when contents represent it, is a
//! parameter.
//!
//! A run commits worlds and writes lines, of replies and of refusals (`Event`). Its contract says
//! at `Ok` that all its events happened (`Went`), and at an error that the first of them did, and
//! at most a part of the line that comes next (`Stopped`). A loop over parts of a run keeps
//! `Going`, and the laws of `specs/laws` put parts together: `goes_on` after a part that ended,
//! `stops_in` in a part that stopped, `going_end` when no part is left.
//!
//! For example, a call that commits `next w` and then writes `line` has the events `commits (next
//! w) ∷ writes line ∷ []`. If the write fails, the call stopped after the commit with a part of
//! the line, so the line never comes before its commit.
#![tactic(auto)]

ghost use Rattle.std.specs.Prelude.{◌≡◌, ◌++◌, ◌||◌, List};
ghost use Rattle.run_core.specs.Runs.{Event, last_world, lines_of, is_refused};

/// Two lists of events in turn. They lead to the world that the second leads to from the last world
/// of the first, and write the lines of the first and then those of the second. Something was
/// refused in them if it was in one of the two.
pub fn events_in_a_row<W>()
    ensures world { (w : W) (first second : List (Event W))
        → last_world w (first ++ second) ≡ last_world (last_world w first) second }
    ensures lines { (first second : List (Event W))
        → lines_of (first ++ second) ≡ lines_of first ++ lines_of second }
    ensures refused { (first second : List (Event W))
        → is_refused (first ++ second) ≡ (is_refused first || is_refused second) }
{}
