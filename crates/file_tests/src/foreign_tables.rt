//! Tables `kv` that another program made or wrote to.

use crate::files::{is_refused, new_folder};
use keep_core::{KeepError, Keeper};
use keep_sqlite::SqliteKeeper;
use repl_types::{Area, KEY_LIMIT, VALUE_LIMIT};
use sqlite::types::ValueRef;
use sqlite::{Connection, Error};
use std::alloc::Global;
use std::fs;
use std::test::Fail;

/// Runs statements at a file.
fn run_at(rt: &HostRuntime, path: &str, text: &str) -> Result<(), Error> {
    let mut conn = Connection::open(rt, path)?;
    conn.execute_batch(text)?;
    conn.close()
}

#[test]
fn a_table_of_another_shape_is_refused(rt: HostRuntime) -> Result<(), Fail> {
    let folder = new_folder(&rt, "shapes")?;
    let shapes = [
        ("columns", "CREATE TABLE kv (k BLOB PRIMARY KEY, v BLOB)"),
        (
            "no_key",
            "CREATE TABLE kv (a INTEGER, t INTEGER, k BLOB, v BLOB)",
        ),
        (
            "view",
            "CREATE VIEW kv AS SELECT 11 AS a, 1 AS t, x'01' AS k, x'01' AS v",
        ),
    ];
    for (name, text) in shapes {
        let path = format!(in rt.alloc(); "{folder}/{name}.db")?;
        run_at(&rt, &path, text)?;
        assert!(rt; is_refused(&rt, &path), "{name}");
    }
    fs::remove_dir_all(&rt, &folder)?;
    Ok(())
}

/// Inserts a row into table 1 of targets of a file.
fn insert_at(
    rt: &HostRuntime,
    path: &str,
    key: ValueRef<'_>,
    value: ValueRef<'_>,
) -> Result<(), Error> {
    let mut conn = Connection::open(rt, path)?;
    let text = "INSERT INTO kv (a, t, k, v) VALUES (11, 1, ?1, ?2)";
    conn.execute(text, &[key, value])?;
    conn.close()
}

/// Whether a table of targets has a row.
fn has_row<K: Keeper>(keeper: &mut K, alloc: Global, table: u32) -> Result<bool, KeepError> {
    let mut key = Vec::new(alloc);
    let mut out = Vec::new(alloc);
    keeper.next(Area::Target, table, b"", &mut key, &mut out)
}

/// Puts a row into table 2 of targets, and then reads table 1 in the same transaction, which is to
/// fail. Answers whether it failed, and the put was rolled back.
fn fails_and_rolls_back(rt: &HostRuntime, path: &str) -> Result<bool, KeepError> {
    let mut keeper = SqliteKeeper::open(rt, path)?;
    keeper.begin()?;
    keeper.put(Area::Target, 2, b"k", b"v")?;
    let failed = has_row(&mut keeper, rt.alloc(), 1) == Err(KeepError::Failed);
    Ok(failed && !has_row(&mut keeper, rt.alloc(), 2)?)
}

#[test]
fn a_row_that_no_keeper_wrote_fails_the_transaction(rt: HostRuntime) -> Result<(), Fail> {
    let folder = new_folder(&rt, "rows")?;
    let long_key = Vec::from_elem(rt.alloc(), 7, KEY_LIMIT + 1)?;
    let long_value = Vec::from_elem(rt.alloc(), 7, VALUE_LIMIT + 1)?;
    let key = ValueRef::Blob(b"k");
    let rows = [
        ("text", key, ValueRef::Text(b"v")),
        ("number", key, ValueRef::Int(7)),
        ("long_key", ValueRef::Blob(&long_key), key),
        ("long_value", key, ValueRef::Blob(&long_value)),
    ];
    for (name, key, value) in rows {
        let path = format!(in rt.alloc(); "{folder}/{name}.db")?;
        SqliteKeeper::open(&rt, &path)?.close()?;
        insert_at(&rt, &path, key, value)?;
        assert_eq!(rt; fails_and_rolls_back(&rt, &path), Ok(true), "{name}");
    }
    fs::remove_dir_all(&rt, &folder)?;
    Ok(())
}
