//! Documents that are large or deep, or whose numbers are.

use crate::documents::is_refused;
use raw_defs::read_defs;
use std::alloc::Global;
use std::test::Fail;

/// A piece, so many times.
fn repeat(alloc: Global, piece: &str, count: u32) -> Result<Vec<u8>, Fail> {
    let mut bytes = Vec::new(alloc);
    for _ in 0..count {
        bytes.extend_from_slice(piece.as_bytes())?;
    }
    Ok(bytes)
}

/// Whether a document with this piece so many times, and what stands before it, is refused.
fn is_refused_with(alloc: Global, before: &str, piece: &str, count: u32) -> Result<bool, Fail> {
    let mut bytes = Vec::from_slice(alloc, before.as_bytes())?;
    bytes.extend_from_slice(repeat(alloc, piece, count)?.as_slice())?;
    Ok(is_refused(alloc, bytes.as_slice()))
}

#[test]
fn a_megabyte_of_brackets_is_refused(rt: HostRuntime) -> Result<(), Fail> {
    let alloc = rt.alloc();
    assert!(rt; is_refused_with(alloc, "", "[", 1_048_576)?);
    assert!(rt; is_refused_with(alloc, "table = ", "[", 1_048_568)?);
    assert!(rt; is_refused_with(alloc, "table = ", "{a=", 349_522)?);
    Ok(())
}

#[test]
fn a_key_of_a_megabyte_is_refused(rt: HostRuntime) -> Result<(), Fail> {
    let alloc = rt.alloc();
    let mut bytes = repeat(alloc, "a", 1_000_000)?;
    bytes.extend_from_slice(b" = 1\n")?;
    assert!(rt; is_refused(alloc, bytes.as_slice()));
    Ok(())
}

#[test]
fn a_number_beyond_64_bits_is_refused(rt: HostRuntime) {
    let alloc = rt.alloc();
    let set =
        "set = [{qual='q', name='s', source='a', target='b', commit_count=99999999999999999999, member=[{source='t', target='t', type='replica'}]}]\n";
    assert!(rt; is_refused(alloc, set.as_bytes()));
}

#[test]
fn ten_thousand_tables_are_read(rt: HostRuntime) -> Result<(), Fail> {
    let alloc = rt.alloc();
    let table = "[[table]]\nserver='s'\nname='t'\ncolumns=[]\nkey=[]\n";
    let bytes = repeat(alloc, table, 10_000)?;
    let defs = read_defs(alloc, bytes.as_slice())?;
    assert_eq!(rt; defs.tables.len(), 10_000);
    Ok(())
}
