//! Sources, sinks and keepers in memory, for tests: each call that a plan names fails, so a test
//! sees what each failure leaves.
//!
//! Below it are `keep_core`, whose traits it implements, `rows_in_runs`, and `repl_types`, whose
//! lists and areas it takes. Above it, `sqlrep` keeps its servers in it, the tests of the layers
//! between use it, and `keep_sqlite` counts by its `AreaCounts`. Its types reveal all that they
//! hold.
//!
//! A `MapKeeper` holds the rows of each table in a run of rising keys (`rows_in_runs`), and beside
//! the runs, in one tree, the rows whose keys came out of order. No key has a row in both, and a
//! transaction changes both in place. A changed row also keeps its value from before, until the
//! transaction ends. So `begin` takes constant time, the end of a transaction takes time by what it
//! changed, and only changes take memory.
//!
//! For example, after `keeper.fail_at` with the list 3, the calls `begin` and `put` succeed, and
//! `commit` answers `Err(Failed)`: the put is gone, unless `keeper.doubt_new(true)` was called
//! before.
#![tactic(auto)]

mod area_counts;
mod bytes_sink;
mod bytes_source;
mod map_keeper;
mod plan;
mod scattered_rows;
mod slot;
mod stored_row;
mod stored_rows;
mod table_id;
mod table_run;
mod table_runs;

pub use area_counts::AreaCounts;
pub use bytes_sink::BytesSink;
pub use bytes_source::BytesSource;
pub use map_keeper::MapKeeper;
