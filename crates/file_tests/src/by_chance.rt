//! A keeper over a database beside one in memory, each as a keeper of either kind: many calls by
//! chance, and the longest key and value.

ghost use Rattle.std.specs.Prelude.{IfOk, OnOk};
ghost use Rattle.keep_core.specs.Kept.{IsOpen, IsClosed};
ghost use Rattle.keep_sqlite.specs.AnyKeepers.{any_kept};

use crate::calls::{commit_put, gives};
use keep_core::{KeepError, Keeper};
use keep_map::MapKeeper;
use keep_sqlite::{AnyKeeper, SqliteKeeper};
use repl_types::{Area, KEY_LIMIT, VALUE_LIMIT};
use sqlite::MemStore;
use std::alloc::Global;
use std::test::Fail;

/// How many transactions there are.
const TRANSACTIONS: u32 = 100;

/// How many values are put or removed in each; after each of them, two keys are read.
const CHANGES: u32 = 40;

/// A keeper of either kind, which is a map or over a database.
fn either(alloc: Global, is_map: bool) -> Result<AnyKeeper<MemStore>, KeepError>
    ensures { IfOk result (λ keeper. IsClosed (any_kept keeper)) }
{
    if is_map {
        return Ok(AnyKeeper::Map(MapKeeper::new(alloc)));
    }
    match SqliteKeeper::open_in_memory(alloc) {
        Ok(keeper) => Ok(AnyKeeper::Sqlite(keeper)),
        Err(error) => Err(error),
    }
}

/// The next number below the limit, from a simple generator.
fn below(state: &mut u64, limit: u16) -> u16 {
    *state = state
        .wrapping_mul(6_364_136_223_846_793_005)
        .wrapping_add(1_442_695_040_888_963_407);
    let bytes = state.to_be_bytes();
    u16::from_be_bytes([bytes[0], bytes[1]]) % limit.max(1)
}

/// An area by chance.
fn area(state: &mut u64) -> Area {
    match below(state, 3) {
        0 => Area::Log,
        1 => Area::Spill,
        _ => Area::Target,
    }
}

/// A byte of a key by chance. There are few, so that keys come again and begin with one another.
fn byte(state: &mut u64) -> u8 {
    match below(state, 4) {
        0 => 0,
        1 => b'a',
        2 => b'b',
        _ => 255,
    }
}

/// Puts or removes a value by chance, and notes whether one was removed.
fn change<K: Keeper>(keeper: &mut K, state: &mut u64, noted: &mut Vec<u8>) -> Result<(), Fail>
    requires { IsOpen (K.kept keeper.old) }
    ensures { OnOk result (IsOpen (K.kept keeper.new)) }
{
    let area = area(state);
    let table = below(state, 2) as u32;
    let key = [byte(state), byte(state), byte(state)];
    let key = &key[..1 + below(state, 3) as usize % 3];
    if below(state, 3) == 0 {
        let found = keeper.remove(area, table, key)?;
        noted.push(found as u8)?;
        return Ok(());
    }
    let value = [byte(state), byte(state)];
    keeper.put(area, table, key, &value[..below(state, 3) as usize % 3])?;
    Ok(())
}

/// Reads a value by chance, and then the next key with its value, and notes what is found.
fn look<K: Keeper>(
    keeper: &mut K,
    alloc: Global,
    state: &mut u64,
    noted: &mut Vec<u8>,
) -> Result<(), Fail>
    requires { IsOpen (K.kept keeper.old) }
    ensures { OnOk result (IsOpen (K.kept keeper.new)) }
{
    let area = area(state);
    let table = below(state, 2) as u32;
    let at = [byte(state), byte(state)];
    let mut key = Vec::new(alloc);
    let mut value = Vec::new(alloc);
    let found = keeper.get(area, table, at.as_slice(), &mut value)?;
    noted.push(found as u8)?;
    noted.extend_from_slice(&value)?;
    if keeper.next(area, table, at.as_slice(), &mut key, &mut value)? {
        noted.extend_from_slice(&key)?;
        noted.extend_from_slice(&value)?;
    }
    Ok(())
}

/// Makes a transaction of changes and looks, and commits it or rolls it back by chance.
fn transact<K: Keeper>(
    keeper: &mut K,
    alloc: Global,
    state: &mut u64,
    noted: &mut Vec<u8>,
) -> Result<(), Fail>
    requires { IsClosed (K.kept keeper.old) }
    ensures { OnOk result (IsClosed (K.kept keeper.new)) }
{
    keeper.begin()?;
    for _change in 0..CHANGES {
        change(keeper, state, noted)?;
        look(keeper, alloc, state, noted)?;
    }
    if below(state, 2) == 0 {
        keeper.commit()?;
    } else {
        keeper.rollback();
    }
    Ok(())
}

/// What is noted of all transactions.
fn noted_of<K: Keeper>(keeper: &mut K, alloc: Global) -> Result<Vec<u8>, Fail>
    requires { IsClosed (K.kept keeper.old) }
{
    let mut state = 1;
    let mut noted = Vec::new(alloc);
    for _transaction in 0..TRANSACTIONS {
        transact(keeper, alloc, &mut state, &mut noted)?;
    }
    Ok(noted)
}

/// What is noted at a keeper of one kind.
fn noted_at(alloc: Global, is_map: bool) -> Result<Vec<u8>, Fail> {
    let mut keeper = either(alloc, is_map)?;
    noted_of(&mut keeper, alloc)
}

#[test]
fn twelve_thousand_calls_of_a_database_are_answered_as_a_map_answers_them(
    rt: HostRuntime,
) -> Result<(), Fail> {
    let map = noted_at(rt.alloc(), true)?;
    let database = noted_at(rt.alloc(), false)?;
    assert!(rt; map.len() > 4_000 && map.as_slice() == database.as_slice());
    Ok(())
}

/// Commits the longest value at the longest key. Answers whether it comes back.
fn keeps_longest<K: Keeper>(keeper: &mut K, alloc: Global) -> Result<bool, KeepError>
    requires { IsClosed (K.kept keeper.old) }
{
    let key = [7; KEY_LIMIT];
    let Ok(value) = Vec::from_elem(alloc, 8, VALUE_LIMIT) else {
        return Err(KeepError::Memory);
    };
    commit_put(keeper, key.as_slice(), &value)?;
    gives(keeper, alloc, key.as_slice(), &value)
}

#[test]
fn the_longest_key_and_value_come_back_from_a_database(rt: HostRuntime) -> Result<(), Fail> {
    let mut keeper = either(rt.alloc(), false)?;
    assert_eq!(rt; keeps_longest(&mut keeper, rt.alloc()), Ok(true));
    Ok(())
}
