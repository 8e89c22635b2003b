//! What a capture of units makes of a world.
//!
//! `specs/captures/Captures.antt` says which units of a server's log a capture takes, and what it
//! makes of the server: it is captured up to the last of them, and its registrations are started
//! and stopped as the units say. The laws here show that the world stays sound.
//!
//! For example, a server has captured up to 5, and its log has commits at 3, 5, 8 and 9. A capture
//! of one unit takes that of the commit at 8, and the server is then captured up to 8. If that
//! unit starts the registration of a table, it is active from 8 on.

ghost use Rattle.std.specs.Prelude.{◌≡◌};
ghost use Rattle.world_commits.specs.captures.Captures.{with_units, all_rows_captured, taken_units};
ghost use Rattle.world_commits.specs.captures.WorkedCaptures.{uncaptured_hq, started_hq, captured_hq};

/// A capture worked out. Of two units the first starts the registration of a table, and the second
/// inserts a row there. A capture of one unit takes the first, and one of all takes both, or what
/// is left. One change row is captured, that of the insert.
pub fn worked_capture()
    ensures one { with_units (taken_units (Some 1) uncaptured_hq) uncaptured_hq ≡ started_hq }
    ensures all { with_units (taken_units None uncaptured_hq) uncaptured_hq ≡ captured_hq }
    ensures rest { with_units (taken_units None started_hq) started_hq ≡ captured_hq }
    ensures rows { all_rows_captured (taken_units None uncaptured_hq) uncaptured_hq ≡ 1 }
{}
