//! Scripts over databases in memory, which give what they give over maps.

ghost use Rattle.std.specs.Prelude.{IfOk};
ghost use Rattle.keep_core.specs.Kept.{IsClosed};
ghost use Rattle.keep_sqlite.specs.AnyKeepers.{any_kept};

use crate::runs::{NONE, new_servers, run_at};
use crate::{applies, captures, feeds, loads};
use keep_core::{KeepError, Keeper};
use keep_sqlite::{AnyKeeper, SqliteKeeper};
use repl_types::{List, Name};
use site_store::{Site, Sites};
use sqlite::MemStore;
use std::alloc::Global;
use std::process::Abort;
use std::test::Fail;

/// A keeper over a database in memory, as the program has those over files.
fn database(alloc: Global) -> Result<AnyKeeper<MemStore>, KeepError>
    ensures { IfOk result (λ keeper. IsClosed (any_kept keeper)) }
{
    match SqliteKeeper::open_in_memory(alloc) {
        Ok(keeper) => Ok(AnyKeeper::Sqlite(keeper)),
        Err(error) => Err(error),
    }
}

/// Servers of these names over databases that hold nothing.
fn databases(alloc: Global, names: &[&str]) -> Result<Sites<AnyKeeper<MemStore>>, Fail> {
    let mut list = List::new(alloc);
    for name in names {
        let name = Name::new(alloc, name)?;
        list.push(Site::open_site(name, database(alloc)?))?;
    }
    Ok(Sites::new(list)?)
}

/// Runs scripts one after another at servers of both kinds, which have to write the same and end in
/// the same status.
fn check_same<K: Keeper, L: Keeper>(
    rt: &impl Abort,
    alloc: Global,
    words: &str,
    maps: &mut Sites<K>,
    databases: &mut Sites<L>,
    scripts: &[&[u8]],
) -> Result<(), Fail> {
    for script in scripts {
        let (wanted, ends) = run_at(alloc, words, maps, script)?;
        let (output, status) = run_at(alloc, words, databases, script)?;
        assert!(rt; status == ends);
        assert_eq!(rt; output.bytes(), wanted.bytes());
    }
    Ok(())
}

/// The same at new servers of these names.
fn check_scripts(
    rt: &impl Abort,
    alloc: Global,
    words: &str,
    names: &[&str],
    scripts: &[&[u8]],
) -> Result<(), Fail> {
    let mut maps = new_servers(alloc, names, NONE)?;
    let mut others = databases(alloc, names)?;
    check_same(rt, alloc, words, &mut maps, &mut others, scripts)
}

#[test]
fn loads_over_databases_give_what_they_give_over_maps(rt: HostRuntime) -> Result<(), Fail> {
    let names = ["hq", "shop", "branch"];
    let words = "hq=:map: shop=:map: branch=:map:";
    check_scripts(
        &rt,
        rt.alloc(),
        words,
        &names,
        &[loads::SCRIPT, loads::SCRIPT],
    )
}

#[test]
fn feeds_over_databases_give_what_they_give_over_maps(rt: HostRuntime) -> Result<(), Fail> {
    let scripts = [feeds::WHOLE, feeds::SHOW];
    check_scripts(&rt, rt.alloc(), "hq=:map:", &["hq"], &scripts)
}

#[test]
fn captures_over_databases_give_what_they_give_over_maps(rt: HostRuntime) -> Result<(), Fail> {
    let scripts = [
        captures::LOAD,
        captures::FEED,
        captures::IN_FOUR_COMMITS,
        captures::SHOW,
    ];
    check_scripts(&rt, rt.alloc(), "hq=:map:", &["hq"], &scripts)
}

#[test]
fn applies_over_databases_give_what_they_give_over_maps(rt: HostRuntime) -> Result<(), Fail> {
    let scripts = [
        applies::BEGIN,
        applies::APPLY,
        applies::SHOW,
        applies::STATUS,
    ];
    check_scripts(
        &rt,
        rt.alloc(),
        "hq=:map: shop=:map:",
        &["hq", "shop"],
        &scripts,
    )
}
