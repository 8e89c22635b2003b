//! Keepers of servers in SQLite files.
//!
//! A `SqliteKeeper` keeps a server's contents in the one table `kv` of a database, by the crate
//! `sqlite`: a row for each key, with its area and its table. `SqliteKeeper::open` keeps it in a
//! file, where it stays after the run, and `open_in_memory` in memory, for tests. An `AnyKeeper` is
//! such a keeper or a `MapKeeper`, so that servers of both kinds can stand side by side in one run.
//!
//! Below it are `keep_core`, whose trait it implements, `keep_map`, for the other keeper and for
//! the counts of areas, and `repl_types`.
//!
//! A keeper over a database reveals nothing. Its clauses are those that every keeper has: what it
//! counts, whether a transaction is open, and the order and the sizes of what it gives. That a file
//! gives back what was committed is no clause: it is trusted, and tested.
//!
//! For example, after `let mut keeper = SqliteKeeper::open(rt, "shop.db")?`, the calls `begin`,
//! `put` and `commit` make a change that a later run finds, and `keeper.close()` moves it from
//! `shop.db-wal`, where it is safe too, into `shop.db`.
#![tactic(auto)]

mod any_keeper;
mod calls;
mod sqlite_keeper;
mod statements;
mod tally;

pub use any_keeper::AnyKeeper;
pub use sqlite_keeper::SqliteKeeper;
