//! Bytes that are no definitions, and expressions and predicates that are deep.

use repl_definitions::{DefinedRegistration, DefinedTable, Expr, Predicate, SourceSet};
use row_codec::{Part, Stored, TakeError};
use std::alloc::Global;
use std::test::Fail;

fn is_refused<T: Stored>(alloc: Global, bytes: &[u8]) -> bool {
    matches!(T::take(alloc, bytes), Err(TakeError::Spelling))
}

#[test]
fn other_bytes_are_no_tables_or_registrations(rt: HostRuntime) {
    const TABLES: [&[u8]; 4] = [
        b"\0\0\0\x03\x05items\0\x01\x02id\x03\0\0\x01\0\0\0\0",
        b"\0\0\0\x03\x05items\0\x01\x02id\x01\x02\0\x01\0\0\0\0",
        b"\0\0\0\x03\x05items\0\x02\x02id\x01\0\0\x01\0\0\0\0",
        b"\0\0\0\x03\x05items\0\x01\x02Id\x01\0\0\x01\0\0\0\0",
    ];
    for table in TABLES {
        assert!(rt; is_refused::<DefinedTable>(rt.alloc(), table));
    }
    const REGISTRATIONS: [&[u8]; 2] = [
        b"\0\0\0\x03\x05items\0\x02\0\0\0\x01\0\0\x02\0\0",
        b"\0\0\0\x03\x05items\0\x03\0\0\0\x01\0\0\x01\0\0",
    ];
    for registration in REGISTRATIONS {
        assert!(rt; is_refused::<DefinedRegistration>(rt.alloc(), registration));
    }
}

/// The set q/s of the server hq with one member, whose bytes from its target's kind on are given.
fn set_with(alloc: Global, member: &[u8]) -> Result<Vec<u8>, Fail> {
    let mut bytes = Vec::from_slice(
        alloc,
        b"\0\0\0\0\x01q\x01s\x02hq\x04shop\0\0\0\x02\0\0\0\x3c\0\x01\x06orders\x04copy",
    )?;
    bytes.extend_from_slice(member)?;
    Ok(bytes)
}

#[test]
fn other_bytes_are_no_sets(rt: HostRuntime) -> Result<(), Fail> {
    let alloc = rt.alloc();
    const MEMBERS: [&[u8]; 11] = [
        b"\0\0\0\0",
        b"\x07\0\0\0",
        b"\x05\0\x02\0\0\0",
        b"\x01\0\0\x02",
        b"\x01\0\x01\x01x\x07\0\0\0",
        b"\x01\0\x01\x01x\x01\x11\0\0",
        b"\x01\0\x01\x01x\x01\x16\x10\0\0\x10\0\0\0",
        b"\x01\0\x01\x01x\x01\x12\x10\0\0\0",
        b"\x01\0\0\x01\x20\x31\0\x01\x30\0\0",
        b"\x01\0\0\x01\x20\x30\0\0\x07\x30\0\0",
        b"\x01\0\0\x01\x25\x21\0\0\x21\0\0",
    ];
    for member in MEMBERS {
        let set = set_with(alloc, member)?;
        assert!(rt; is_refused::<SourceSet>(alloc, set.as_slice()));
    }
    Ok(())
}

/// How many joints has a tree that fills a stored value: a joint takes a byte, and a leaf three.
const JOINTS: u32 = 65_535;

/// The spelling of a tree that is nested as deep at the left as a value can hold.
fn deep_left(alloc: Global, joint: u8, leaf: u8) -> Result<Vec<u8>, Fail> {
    let mut bytes = Vec::new(alloc);
    for _ in 0..JOINTS {
        bytes.push(joint)?;
    }
    for _ in 0..JOINTS {
        bytes.extend_from_slice(&[leaf, 0, 0])?;
    }
    bytes.extend_from_slice(&[leaf, 0, 0])?;
    Ok(bytes)
}

/// The same at the right.
fn deep_right(alloc: Global, joint: u8, leaf: u8) -> Result<Vec<u8>, Fail> {
    let mut bytes = Vec::new(alloc);
    for _ in 0..JOINTS {
        bytes.extend_from_slice(&[joint, leaf, 0, 0])?;
    }
    bytes.extend_from_slice(&[leaf, 0, 0])?;
    Ok(bytes)
}

/// Whether the bytes are an expression's of which a copy is put as these bytes again.
fn is_expr(alloc: Global, bytes: &[u8]) -> Result<bool, Fail> {
    let (expr, rest) = match Expr::take_part(alloc, bytes) {
        Ok(taken) => taken,
        Err(_) => return Ok(false),
    };
    let mut out = Vec::new(alloc);
    expr.clone()?.put_part(&mut out)?;
    Ok(rest.is_empty() && out.as_slice() == bytes)
}

/// Whether the bytes are a predicate's of which a copy is put as these bytes again.
fn is_predicate(alloc: Global, bytes: &[u8]) -> Result<bool, Fail> {
    let (predicate, rest) = match Predicate::take_part(alloc, bytes) {
        Ok(taken) => taken,
        Err(_) => return Ok(false),
    };
    let mut out = Vec::new(alloc);
    predicate.clone()?.put_part(&mut out)?;
    Ok(rest.is_empty() && out.as_slice() == bytes)
}

#[test]
fn expressions_may_be_deep(rt: HostRuntime) -> Result<(), Fail> {
    let alloc = rt.alloc();
    assert!(rt; is_expr(alloc, deep_left(alloc, 0x12, 0x10)?.as_slice())?);
    assert!(rt; is_expr(alloc, deep_right(alloc, 0x12, 0x10)?.as_slice())?);
    Ok(())
}

#[test]
fn predicates_may_be_deep(rt: HostRuntime) -> Result<(), Fail> {
    let alloc = rt.alloc();
    assert!(rt; is_predicate(alloc, deep_left(alloc, 0x23, 0x21)?.as_slice())?);
    assert!(rt; is_predicate(alloc, deep_right(alloc, 0x23, 0x21)?.as_slice())?);
    Ok(())
}
