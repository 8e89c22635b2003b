//! Small documents, with the definitions that they state or the refusal, worked out by hand.

use crate::texts::join;
use raw_defs::read_defs;
use repl_commands::{DefsError, RawDefs, RawMember, RawRegistration, RawSet, RawTable};
use repl_types::{Bytes, DefPlace};
use std::alloc::{AllocError, Global};
use std::test::Fail;

/// A set without its members.
const SET: &str = "[[set]]\nqual = 'Q'\nname = 'S'\nsource = 'hq'\ntarget = 'shop'\n";

/// A member of it up to its type.
const MEMBER: &str = "[[set.member]]\nsource = 'pens'\ntarget = 'pens'\ntype = ";

/// A list of members.
const REPLICA: &str = "member = [{ source = 'a', target = 'b', type = 'replica' }]\n";

/// Texts that make a document, and whether it is refused.
type Row<'a> = (&'a [&'a str], bool);

/// Whether the document breaks rule 1.
pub fn is_refused(alloc: Global, bytes: &[u8]) -> bool {
    matches!(
        read_defs(alloc, bytes),
        Err(DefsError::Broken {
            rule: 1,
            place: DefPlace::Whole
        })
    )
}

/// Whether the document that the texts make is refused.
fn are_refused(alloc: Global, texts: &[&str]) -> Result<bool, AllocError> {
    let document = join(alloc, texts)?;
    Ok(is_refused(alloc, document.as_bytes()))
}

/// Fails unless each document is refused, or isn't, as it is wanted.
fn expect_rows(alloc: Global, rows: &[Row]) -> Result<(), Fail> {
    for (texts, wanted) in rows {
        if are_refused(alloc, *texts)? != *wanted {
            return Err(Fail::new(format_args!("{texts:?}")));
        }
    }
    Ok(())
}

/// Whether the bytes are the text.
fn is_text(bytes: &Bytes, text: &str) -> bool {
    bytes.as_slice() == text.as_bytes()
}

/// Whether the document states nothing.
fn states_nothing(alloc: Global, text: &str) -> bool {
    match read_defs(alloc, text.as_bytes()) {
        Ok(defs) => {
            defs.tables.is_empty() && defs.registrations.is_empty() && defs.sets.is_empty()
        }
        Err(_) => false,
    }
}

#[test]
fn reads_an_empty_document(rt: HostRuntime) {
    assert!(rt; states_nothing(rt.alloc(), ""));
    assert!(rt; states_nothing(rt.alloc(), "table = []\n"));
}

/// Whether these are the columns of the pens.
fn are_pen_columns(columns: &[Bytes]) -> bool {
    match columns {
        [first, _] => is_text(first, "id int"),
        _ => false,
    }
}

/// Whether these are the pens.
fn are_pens(tables: &[RawTable]) -> bool {
    match tables {
        [table] => {
            is_text(&table.server, "hq")
                && is_text(&table.name, "pens")
                && are_pen_columns(table.columns.as_slice())
                && table.key.is_empty()
                && table.fixed.is_none()
        }
        _ => false,
    }
}

#[test]
fn reads_a_table(rt: HostRuntime) -> Result<(), Fail> {
    const PENS: &[u8] =
        b"[[table]]\nserver = 'hq'\nname = 'pens'\ncolumns = ['id int', 'ink text']\nkey = []\n";
    let defs = read_defs(rt.alloc(), PENS)?;
    assert!(rt; are_pens(defs.tables.as_slice()));
    Ok(())
}

/// Whether the first of them is the registration of the pens.
fn has_registration(registrations: &[RawRegistration]) -> bool {
    match registrations {
        [reg, ..] => {
            is_text(&reg.table, "pens")
                && reg.after.is_some()
                && reg.before.is_none()
                && matches!(reg.del_ins, Some(true))
                && reg.changes_only.is_none()
                && reg.disable_refresh.is_none()
        }
        [] => false,
    }
}

#[test]
fn reads_a_registration(rt: HostRuntime) -> Result<(), Fail> {
    const REGISTRATION: &[u8] =
        b"[[registration]]\nserver = 'hq'\ntable = 'pens'\nafter = ['ink']\ndel_ins = true\n";
    let defs = read_defs(rt.alloc(), REGISTRATION)?;
    assert!(rt; has_registration(defs.registrations.as_slice()));
    Ok(())
}

/// Whether this is the one member of the set.
fn are_members(members: &[RawMember]) -> bool {
    match members {
        [member] => {
            is_text(&member.kind, "replica")
                && member.columns.is_none()
                && member.filter.is_some()
                && member.complete.is_none()
        }
        _ => false,
    }
}

/// Whether the first of them is the set.
fn has_set(sets: &[RawSet]) -> bool {
    match sets {
        [set, ..] => {
            is_text(&set.qual, "Q")
                && is_text(&set.target, "shop")
                && set.commit_count.is_none()
                && are_members(set.members.as_slice())
        }
        [] => false,
    }
}

/// The definitions that the document states that the texts make.
fn read_joined(alloc: Global, texts: &[&str]) -> Result<RawDefs, Fail> {
    let document = join(alloc, texts)?;
    Ok(read_defs(alloc, document.as_bytes())?)
}

#[test]
fn reads_a_set(rt: HostRuntime) -> Result<(), Fail> {
    const TEXTS: &[&str] = &[SET, MEMBER, "'replica'\n", "where = 'ink > 1'\n"];
    let defs = read_joined(rt.alloc(), TEXTS)?;
    assert!(rt; has_set(defs.sets.as_slice()));
    Ok(())
}

#[test]
fn asks_of_a_member_what_its_type_needs(rt: HostRuntime) -> Result<(), Fail> {
    const ROWS: [Row<'static>; 11] = [
        (&[SET, MEMBER, "'user_copy'\n", "columns = []\n"], false),
        (&[SET, MEMBER, "'user_copy'\n"], true),
        (
            &[
                SET,
                MEMBER,
                "'user_copy'\n",
                "columns = []\ncomplete = true\n",
            ],
            true,
        ),
        (&[SET, MEMBER, "'replica'\n"], false),
        (&[SET, MEMBER, "'replica'\n", "condensed = true\n"], true),
        (
            &[
                SET,
                MEMBER,
                "'ccd'\n",
                "complete = true\ncondensed = false\n",
            ],
            true,
        ),
        (
            &[SET, MEMBER, "'ccd'\n", "columns = []\ncomplete = true\n"],
            true,
        ),
        (
            &[
                SET,
                MEMBER,
                "'ccd'\n",
                "columns = []\ncomplete = true\ncondensed = false\n",
            ],
            false,
        ),
        (&[SET, MEMBER, "'copy'\n", "columns = []\n"], true),
        (
            &[
                SET,
                MEMBER,
                "'point_in_time'\n",
                "columns = []\nother = 1\n",
            ],
            true,
        ),
        (&[SET, MEMBER, "'user_copy'\n", "columns = [1]\n"], true),
    ];
    expect_rows(rt.alloc(), &ROWS)
}

#[test]
fn refuses_other_keys_and_missing_ones(rt: HostRuntime) -> Result<(), Fail> {
    const ROWS: [Row<'static>; 7] = [
        (&["other = 1\n"], true),
        (&["table = 'pens'\n"], true),
        (&["table = ['pens']\n"], true),
        (
            &["[[table]]\nserver = 'hq'\nname = 'pens'\ncolumns = []\n"],
            true,
        ),
        (
            &["[[table]]\nserver = 'hq'\nname = 'pens'\ncolumns = []\nkey = []\nother = 1\n"],
            true,
        ),
        (&["[[registration]]\nserver = 'hq'\n"], true),
        (
            &["[[registration]]\nserver = 'hq'\ntable = 'pens'\nother = 1\n"],
            true,
        ),
    ];
    expect_rows(rt.alloc(), &ROWS)
}

/// Whether the first of them has the greatest limit of units, and none of minutes.
fn has_greatest_limit(sets: &[RawSet]) -> bool {
    match sets {
        [set, ..] => {
            matches!(set.commit_count, Some(4294967295)) && matches!(set.max_minutes, Some(0))
        }
        [] => false,
    }
}

#[test]
fn reads_the_greatest_limit(rt: HostRuntime) -> Result<(), Fail> {
    const TEXTS: &[&str] = &[SET, "commit_count = 4294967295\nmax_minutes = 0\n", REPLICA];
    let defs = read_joined(rt.alloc(), TEXTS)?;
    assert!(rt; has_greatest_limit(defs.sets.as_slice()));
    Ok(())
}

#[test]
fn refuses_sets_of_another_shape(rt: HostRuntime) -> Result<(), Fail> {
    const ROWS: [Row<'static>; 5] = [
        (&[SET], true),
        (&[SET, "member = []\n"], true),
        (&[SET, "commit_count = 4294967296\n", REPLICA], true),
        (&[SET, "max_minutes = -1\n", REPLICA], true),
        (&[SET, "other = 1\n", REPLICA], true),
    ];
    expect_rows(rt.alloc(), &ROWS)
}

#[test]
fn refuses_what_is_no_document(rt: HostRuntime) {
    assert!(rt; is_refused(rt.alloc(), b"table = \n"));
    assert!(rt; is_refused(rt.alloc(), b"# \xe9\n"));
}
