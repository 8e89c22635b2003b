//! A keeper in memory, or one in a database.

ghost use Rattle.keep_sqlite.specs.AnyKeepers.{any_kept};

use crate::SqliteKeeper;
use keep_core::{KeepError, Keeper};
use keep_map::MapKeeper;
use repl_types::Area;
use sqlite::{Alter, FileStore};
use sqlite_disk::Disk;

/// A keeper in memory, or one in a database. It does what the one that it is does.
#[derive(Drop)]
pub enum AnyKeeper<S: Alter> {
    Map(MapKeeper),
    Sqlite(SqliteKeeper<S>),
}

impl<D: Disk + Drop> AnyKeeper<FileStore<D>> {
    /// Ends the keeper. One in a file copies its log into it; one in memory has nothing to do.
    pub fn close(self) -> Result<(), KeepError> {
        match self {
            AnyKeeper::Map(_) => Ok(()),
            AnyKeeper::Sqlite(keeper) => keeper.close(),
        }
    }
}

impl<S: Alter> Keeper for AnyKeeper<S> {
    ghost kept = { any_kept };

    fn begin(&mut self) -> Result<(), KeepError> {
        match self {
            AnyKeeper::Map(keeper) => keeper.begin(),
            AnyKeeper::Sqlite(keeper) => keeper.begin(),
        }
    }

    fn get(
        &mut self,
        area: Area,
        table: u32,
        key: &[u8],
        out: &mut Vec<u8>,
    ) -> Result<bool, KeepError> {
        match self {
            AnyKeeper::Map(keeper) => keeper.get(area, table, key, out),
            AnyKeeper::Sqlite(keeper) => keeper.get(area, table, key, out),
        }
    }

    fn next(
        &mut self,
        area: Area,
        table: u32,
        after: &[u8],
        key: &mut Vec<u8>,
        out: &mut Vec<u8>,
    ) -> Result<bool, KeepError> {
        match self {
            AnyKeeper::Map(keeper) => keeper.next(area, table, after, key, out),
            AnyKeeper::Sqlite(keeper) => keeper.next(area, table, after, key, out),
        }
    }

    fn put(&mut self, area: Area, table: u32, key: &[u8], value: &[u8]) -> Result<(), KeepError> {
        match self {
            AnyKeeper::Map(keeper) => keeper.put(area, table, key, value),
            AnyKeeper::Sqlite(keeper) => keeper.put(area, table, key, value),
        }
    }

    fn remove(&mut self, area: Area, table: u32, key: &[u8]) -> Result<bool, KeepError> {
        match self {
            AnyKeeper::Map(keeper) => keeper.remove(area, table, key),
            AnyKeeper::Sqlite(keeper) => keeper.remove(area, table, key),
        }
    }

    fn commit(&mut self) -> Result<(), KeepError> {
        match self {
            AnyKeeper::Map(keeper) => keeper.commit(),
            AnyKeeper::Sqlite(keeper) => keeper.commit(),
        }
    }

    fn rollback(&mut self) {
        match self {
            AnyKeeper::Map(keeper) => keeper.rollback(),
            AnyKeeper::Sqlite(keeper) => keeper.rollback(),
        }
    }
}
