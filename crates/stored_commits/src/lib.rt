//! What each commit makes of the tables that servers store: laws, and no code.
//!
//! `specs/records` has what one record of a log puts and removes, `units` one unit that is
//! captured, and `copies` one change row that is taken to a user copy: so code over stored rows can
//! carry out what `repl_model` says of logs, change rows and copies. `logs`, `captures` and
//! `actions` are of whole commits: a server whose changed tables are those that the next world
//! calls for, and whose other tables are as they were, holds what that world calls for, and the
//! other servers hold it as they are. `world_store` says what a world calls for, and
//! `world_commits` that the next world is sound.
#![tactic(auto)]
