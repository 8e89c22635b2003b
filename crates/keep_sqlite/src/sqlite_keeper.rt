//! A keeper that holds its contents in a database.

ghost use Rattle.std.specs.Prelude.{◌≡◌, true, IfOk, IfErr, IsOk};
ghost use Rattle.keep_core.specs.Kept.{CallFails, GivesValue, GivesNext};
ghost use Rattle.keep_sqlite.specs.Keepers.{kept_of, kept_new};

use crate::calls;
use crate::statements::{BEGIN, COMMIT, CREATE};
use crate::tally::Tally;
use keep_core::{KeepError, Keeper};
use repl_types::Area;
use sqlite::{Alter, Connection, File, FileStore, MemStore};
use sqlite_disk::Disk;
use std::alloc::Global;
use std::marker::Model;

/// Contents in the table `kv` of a database, which it doesn't reveal.
///
/// A call answers `Memory` if memory runs out, and `Failed` for every other error of the database,
/// and for a row that no keeper wrote: one that isn't of BLOBs, is over the sizes of a key or a
/// value, or doesn't come in the order of the keys. After an error the transaction is rolled back.
/// Each statement that is refused counts as a fault, unless memory ran out. If a rollback is
/// refused, each later call fails.
#[derive(Drop)]
pub struct SqliteKeeper<S: Alter> {
    conn: Connection<S>,
    tally: Tally,
}

impl<S: Alter> Model for SqliteKeeper<S> {
    ghost use Rattle.keep_sqlite.specs.declared.tally.Tally.{Tally};

    ghost Value = { Tally };

    ghost view = { λ k. k.tally };
}

impl SqliteKeeper<MemStore> {
    /// A keeper in memory, which holds nothing. Its first change after a rollback takes time by all
    /// its rows, so it is for tests with few rows.
    pub fn open_in_memory(alloc: Global) -> Result<SqliteKeeper<MemStore>, KeepError>
        ensures { IfOk result (λ keeper. kept_of keeper ≡ kept_new) }
    {
        match Connection::open_in_memory(alloc) {
            Ok(conn) => SqliteKeeper::over(conn),
            Err(_) => Err(KeepError::Memory),
        }
    }
}

impl SqliteKeeper<FileStore<File>> {
    /// A keeper in a file, which is made if there is none. It answers `Memory` only if memory runs
    /// out, and `Failed` if the file can't be opened: the system refuses it, it isn't a database,
    /// its table `kv` is another one, or it is open elsewhere, in this process or in another.
    ///
    /// A second file, of the path with `-wal` after it, has what was committed since the last
    /// `close`. An open reads the whole of both.
    pub fn open(rt: &HostRuntime, path: &str) -> Result<SqliteKeeper<FileStore<File>>, KeepError>
        ensures { IfOk result (λ keeper. kept_of keeper ≡ kept_new) }
    {
        match Connection::open(rt, path) {
            Ok(conn) => SqliteKeeper::over(conn),
            Err(error) => Err(calls::keep_error(error)),
        }
    }
}

impl<D: Disk + Drop> SqliteKeeper<FileStore<D>> {
    /// Ends the keeper and copies the log into its file. A transaction that is open is rolled back.
    /// After an error what was committed stays in the two files.
    pub fn close(self) -> Result<(), KeepError> {
        let SqliteKeeper { conn, .. } = self;
        conn.close().map_err(calls::keep_error)
    }
}

impl<S: Alter + Drop> SqliteKeeper<S> {
    /// A keeper over a database that has just been opened. The table `kv` is made if there is none;
    /// one that the statements don't fit is refused.
    fn over(mut conn: Connection<S>) -> Result<SqliteKeeper<S>, KeepError>
        ensures { IfOk result (λ keeper. kept_of keeper ≡ kept_new) }
    {
        calls::run(&mut conn, CREATE)?;
        calls::try_table(&mut conn)?;
        Ok(SqliteKeeper {
            conn,
            tally: Tally::new(),
        })
    }
}

impl<S: Alter> SqliteKeeper<S> {
    /// Ends a call: if it failed, the transaction is rolled back, and the error counted.
    fn end<T>(&mut self, answer: Result<T, KeepError>) -> Result<T, KeepError>
        ensures same { result ≡ answer }
        ensures ok { IsOk answer → self.new ≡ self.old }
        ensures err { IfErr answer (CallFails (kept_of self.old) (kept_of self.new)) }
    {
        match answer {
            Ok(value) => Ok(value),
            Err(error) => {
                let undone = calls::roll_back(&mut self.conn);
                self.tally.fail(error, undone);
                Err(error)
            }
        }
    }

    /// `begin` at the database, or `Failed` if the keeper is dead.
    fn try_begin(&mut self) -> Result<(), KeepError>
        ensures same { self.new ≡ self.old }
        ensures dead { self.old.is_dead ≡ true → result ≡ Err KeepError.Failed }
    {
        self.tally.check_alive()?;
        calls::run(&mut self.conn, BEGIN)
    }

    /// `commit` at the database, or `Failed` if the keeper is dead.
    fn try_commit(&mut self) -> Result<(), KeepError>
        ensures same { self.new ≡ self.old }
        ensures dead { self.old.is_dead ≡ true → result ≡ Err KeepError.Failed }
    {
        self.tally.check_alive()?;
        calls::run(&mut self.conn, COMMIT)
    }

    /// `get` at the database, or `Failed` if the keeper is dead.
    fn try_get(
        &mut self,
        area: Area,
        table: u32,
        key: &[u8],
        out: &mut Vec<u8>,
    ) -> Result<bool, KeepError>
        ensures same { self.new ≡ self.old }
        ensures dead { self.old.is_dead ≡ true → result ≡ Err KeepError.Failed }
        ensures gives { IfOk result (λ found. GivesValue found out.new.items) }
    {
        self.tally.check_alive()?;
        calls::get(&mut self.conn, area, table, key, out)
    }

    /// `next` at the database, or `Failed` if the keeper is dead.
    fn try_next(
        &mut self,
        area: Area,
        table: u32,
        after: &[u8],
        key: &mut Vec<u8>,
        out: &mut Vec<u8>,
    ) -> Result<bool, KeepError>
        ensures same { self.new ≡ self.old }
        ensures dead { self.old.is_dead ≡ true → result ≡ Err KeepError.Failed }
        ensures gives { IfOk result (λ found. GivesNext after.now found key.new.items
            out.new.items) }
    {
        self.tally.check_alive()?;
        calls::next(&mut self.conn, area, table, after, key, out)
    }

    /// `put` at the database, or `Failed` if the keeper is dead.
    fn try_put(&mut self, area: Area, table: u32, key: &[u8], value: &[u8]) -> Result<(), KeepError>
        ensures same { self.new ≡ self.old }
        ensures dead { self.old.is_dead ≡ true → result ≡ Err KeepError.Failed }
    {
        self.tally.check_alive()?;
        calls::put(&mut self.conn, area, table, key, value)
    }

    /// `remove` at the database, or `Failed` if the keeper is dead.
    fn try_remove(&mut self, area: Area, table: u32, key: &[u8]) -> Result<bool, KeepError>
        ensures same { self.new ≡ self.old }
        ensures dead { self.old.is_dead ≡ true → result ≡ Err KeepError.Failed }
    {
        self.tally.check_alive()?;
        calls::remove(&mut self.conn, area, table, key)
    }
}

impl<S: Alter> Keeper for SqliteKeeper<S> {
    ghost kept = { kept_of };

    fn begin(&mut self) -> Result<(), KeepError> {
        let answer = self.try_begin();
        self.end(answer)?;
        self.tally.open();
        Ok(())
    }

    fn get(
        &mut self,
        area: Area,
        table: u32,
        key: &[u8],
        out: &mut Vec<u8>,
    ) -> Result<bool, KeepError> {
        self.tally.read(area);
        let answer = self.try_get(area, table, key, out);
        self.end(answer)
    }

    fn next(
        &mut self,
        area: Area,
        table: u32,
        after: &[u8],
        key: &mut Vec<u8>,
        out: &mut Vec<u8>,
    ) -> Result<bool, KeepError> {
        self.tally.read(area);
        let answer = self.try_next(area, table, after, key, out);
        self.end(answer)
    }

    fn put(&mut self, area: Area, table: u32, key: &[u8], value: &[u8]) -> Result<(), KeepError> {
        self.tally.write(area);
        let answer = self.try_put(area, table, key, value);
        self.end(answer)
    }

    fn remove(&mut self, area: Area, table: u32, key: &[u8]) -> Result<bool, KeepError> {
        self.tally.write(area);
        let answer = self.try_remove(area, table, key);
        self.end(answer)
    }

    fn commit(&mut self) -> Result<(), KeepError> {
        let answer = self.try_commit();
        self.end(answer)?;
        self.tally.commit();
        Ok(())
    }

    fn rollback(&mut self) {
        let undone = calls::roll_back(&mut self.conn);
        self.tally.close(undone);
    }
}
