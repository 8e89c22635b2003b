//! What a longer log makes of a sound world.
//!
//! `specs/logs/LongerLogs.antt` says which records can follow at a server, and which units can
//! come to it. The laws here show that records of users, each applicable after those before it,
//! keep the server's log sound, and the world with it.
//!
//! For example, a user inserts in transaction 5 a row that fits its table and whose key is free,
//! and commits at a time that isn't below that of the last commit. A sound world is sound with
//! these two records too.

ghost use Rattle.world_commits.specs.logs.LongerLogs.{AllFollow};
ghost use Rattle.world_commits.specs.logs.WorkedRecords.{new_server, first_order};

/// Records worked out: the first order of a server can follow, and so can its commit.
pub fn worked_first_order()
    ensures { AllFollow new_server first_order }
{}
