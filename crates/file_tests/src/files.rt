//! Keepers in files, over several openings of one file.

use crate::calls::{commit_put, gives};
use keep_core::KeepError;
use keep_sqlite::{AnyKeeper, SqliteKeeper};
use std::test::Fail;
use std::{env, fs, io, process};

/// Makes a folder for one test, and answers its path.
pub fn new_folder(rt: &HostRuntime, test: &str) -> io::Result<String> {
    let place = env::temp_dir(rt)?;
    let number = process::id(rt.process());
    let folder = format!(in rt.alloc(); "{}/sqlrep_{test}_{number}", place.as_str())?;
    fs::create_dir(rt, &folder)?;
    Ok(folder)
}

/// Opens a file and commits a value at the key `k`. The file is closed, or the keeper dropped.
fn commit_in(rt: &HostRuntime, path: &str, closes: bool) -> Result<(), KeepError> {
    let mut keeper = SqliteKeeper::open(rt, path)?;
    commit_put(&mut keeper, b"k", b"v")?;
    if closes { keeper.close() } else { Ok(()) }
}

/// Opens a file as a keeper of either kind, and closes it. Answers whether it gives that value.
fn is_kept_in(rt: &HostRuntime, path: &str) -> Result<bool, KeepError> {
    let mut keeper = AnyKeeper::Sqlite(SqliteKeeper::open(rt, path)?);
    let answer = gives(&mut keeper, rt.alloc(), b"k", b"v")?;
    keeper.close()?;
    Ok(answer)
}

#[test]
fn what_one_run_commits_the_next_one_reads(rt: HostRuntime) -> Result<(), Fail> {
    let folder = new_folder(&rt, "next_run")?;
    for (name, closes) in [("closed.db", true), ("dropped.db", false)] {
        let path = format!(in rt.alloc(); "{folder}/{name}")?;
        assert_eq!(rt; is_kept_in(&rt, &path), Ok(false), "{name}");
        assert_eq!(rt; commit_in(&rt, &path, closes), Ok(()), "{name}");
        assert_eq!(rt; is_kept_in(&rt, &path), Ok(true), "{name}");
    }
    fs::remove_dir_all(&rt, &folder)?;
    Ok(())
}

/// Whether a file is refused, and not for want of memory.
pub fn is_refused(rt: &HostRuntime, path: &str) -> bool {
    match SqliteKeeper::open(rt, path) {
        Ok(_) => false,
        Err(error) => error == KeepError::Failed,
    }
}

#[test]
fn a_file_opens_once_at_a_time(rt: HostRuntime) -> Result<(), Fail> {
    let folder = new_folder(&rt, "once")?;
    let path = format!(in rt.alloc(); "{folder}/a.db")?;
    let other_path = format!(in rt.alloc(); "{folder}/./a.db")?;
    let keeper = SqliteKeeper::open(&rt, &path)?;
    assert!(rt; is_refused(&rt, &path));
    assert!(rt; is_refused(&rt, &other_path));
    keeper.close()?;
    assert!(rt; !is_refused(&rt, &path));
    fs::remove_dir_all(&rt, &folder)?;
    Ok(())
}

#[test]
fn paths_that_lead_to_no_file_are_refused(rt: HostRuntime) -> Result<(), Fail> {
    let folder = new_folder(&rt, "no_file")?;
    let missing = format!(in rt.alloc(); "{folder}/missing/a.db")?;
    let text = format!(in rt.alloc(); "{folder}/text")?;
    fs::write(&rt, &text, b"no database".as_slice())?;
    for path in [
        folder.as_str(),
        missing.as_str(),
        text.as_str(),
        "",
        ":memory:",
    ] {
        assert!(rt; is_refused(&rt, path), "{path}");
    }
    fs::remove_dir_all(&rt, &folder)?;
    Ok(())
}
