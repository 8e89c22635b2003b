//! Texts beside definitions that are known, worked out by hand.

use crate::texts::{
    BRANCH_STOCK, Break, DEPOT_STOCK, LARGE_ORDERS, MEMBER, ORDERS, ORDERS_BY_ITEM, PENS_AND_INKS,
    REGISTRATION, STOCK, STOCK_AT_BRANCH, STOCK_AT_DEPOT, TABLE, expect,
};
use repl_types::DefPlace;
use std::alloc::Global;
use std::test::Fail;

/// A table at the server and with the name of a copy of the orders.
const COPY_AS_TABLE: &str = "
[[table]]
server = 'shop'
name = 'orders_copy'
columns = ['id int']
key = ['id']
";

/// The table of the orders with another kind of items.
const NUMBERED_ITEMS: &str = "
[[table]]
server = 'hq'
name = 'orders'
columns = ['id int', 'item int', 'qty int null']
key = ['id']
fixed = ['id']
";

/// A registration of the orders without before-images.
const BARE_REGISTRATION: &str = "
[[registration]]
server = 'hq'
table = 'orders'
";

/// Known definitions and a text, each joined of others, a part of the text, what replaces it, and
/// which rule is broken then.
type KnownRow<'a> = (&'a [&'a str], &'a [&'a str], &'a str, &'a str, Break);

/// Fails unless each edited text breaks what is wanted beside what is known.
fn expect_known_rows(alloc: Global, rows: &[KnownRow]) -> Result<(), Fail> {
    for (known, texts, old, new, wanted) in rows {
        expect(alloc, *known, *texts, (*old, *new), *wanted)?;
    }
    Ok(())
}

#[test]
fn a_text_that_is_known_keeps_the_rules(rt: HostRuntime) -> Result<(), Fail> {
    const ORDERS_COPIED: &[&str] = &[ORDERS, LARGE_ORDERS];
    const STOCK_COPIED: &[&str] = &[STOCK, BRANCH_STOCK, STOCK_AT_BRANCH];
    const ROWS: [KnownRow<'static>; 3] = [
        (ORDERS_COPIED, ORDERS_COPIED, "'s'", "'s'", None),
        (STOCK_COPIED, STOCK_COPIED, "'b'", "'b'", None),
        (&[PENS_AND_INKS], &[PENS_AND_INKS], "'near'", "'near'", None),
    ];
    expect_known_rows(rt.alloc(), &ROWS)
}

#[test]
fn known_definitions_stand_beside_a_text(rt: HostRuntime) -> Result<(), Fail> {
    const COPIED: &[&str] = &[ORDERS, LARGE_ORDERS];
    const CLASHING: &[&str] = &[ORDERS, COPY_AS_TABLE];
    const NUMBERED: &[&str] = &[NUMBERED_ITEMS, LARGE_ORDERS];
    const BARE: &[&str] = &[BARE_REGISTRATION, LARGE_ORDERS];
    const TWO_SETS: &[&str] = &[ORDERS_BY_ITEM, LARGE_ORDERS];
    const SECOND_SET: DefPlace = DefPlace::Member { set: 2, member: 1 };
    const ROWS: [KnownRow<'static>; 18] = [
        // a set over a table and a registration that are known, or aren't
        (&[], &[LARGE_ORDERS], "'s'", "'t'", Some((9, MEMBER))),
        (&[ORDERS], &[LARGE_ORDERS], "'s'", "'t'", None),
        // another set with the target of a known one, with another target, and the set itself
        (COPIED, &[LARGE_ORDERS], "'s'", "'t'", Some((3, MEMBER))),
        (COPIED, TWO_SETS, "'s'", "'t'", Some((3, SECOND_SET))),
        (
            COPIED,
            &[LARGE_ORDERS],
            "'s'\nsource",
            "'s'\nmax_minutes = 1\nsource",
            None,
        ),
        (
            COPIED,
            &[LARGE_ORDERS],
            "'s'\nsource = 'hq'\ntarget = 'shop'",
            "'t'\nsource = 'hq'\ntarget = 'depot'",
            None,
        ),
        // a target with the name of a table
        (CLASHING, &[LARGE_ORDERS], "'s'", "'t'", Some((3, MEMBER))),
        (
            COPIED,
            &[COPY_AS_TABLE],
            "'id int'",
            "'id int'",
            Some((3, TABLE)),
        ),
        (COPIED, &[COPY_AS_TABLE], "'shop'", "'depot'", None),
        // a table that is known with other columns
        (
            &[ORDERS],
            NUMBERED,
            "'qty = qty'",
            "'qty = qty + item'",
            None,
        ),
        (
            &[ORDERS],
            NUMBERED,
            "'qty = qty'",
            "'qty = item || item'",
            Some((10, MEMBER)),
        ),
        (
            &[ORDERS],
            NUMBERED,
            "fixed = ['id']",
            "fixed = []",
            Some((11, MEMBER)),
        ),
        (COPIED, &[NUMBERED_ITEMS], ", 'qty int null'", "", None),
        // a registration that is known with other images, or isn't known
        (&[ORDERS], BARE, "'s'", "'t'", Some((11, MEMBER))),
        (
            &[ORDERS],
            BARE,
            "'orders'\n\n",
            "'orders'\nbefore = ['qty']\n\n",
            None,
        ),
        (COPIED, &[BARE_REGISTRATION], "'hq'", "'hq'", None),
        (
            &[ORDERS],
            &[BARE_REGISTRATION],
            "'orders'",
            "'orders'\nafter = ['nope']",
            Some((7, REGISTRATION)),
        ),
        (
            &[],
            &[BARE_REGISTRATION],
            "'orders'",
            "'orders'\nafter = ['nope']",
            Some((6, REGISTRATION)),
        ),
    ];
    expect_known_rows(rt.alloc(), &ROWS)
}

#[test]
fn known_replicas_stand_beside_a_text(rt: HostRuntime) -> Result<(), Fail> {
    const STOCKS: &[&str] = &[STOCK, BRANCH_STOCK, DEPOT_STOCK];
    const REPLICA: &[&str] = &[STOCK, BRANCH_STOCK, DEPOT_STOCK, STOCK_AT_BRANCH];
    const ROWS: [KnownRow<'static>; 7] = [
        (
            &[STOCK],
            &[STOCK_AT_BRANCH],
            "'r'",
            "'q'",
            Some((14, MEMBER)),
        ),
        (STOCKS, &[STOCK_AT_BRANCH], "'r'", "'q'", None),
        (REPLICA, &[STOCK_AT_BRANCH], "'r'", "'q'", Some((3, MEMBER))),
        (REPLICA, &[STOCK_AT_DEPOT], "'hq'", "'hq'", None),
        (
            REPLICA,
            &[STOCK_AT_DEPOT],
            "'hq'",
            "'branch'",
            Some((14, MEMBER)),
        ),
        (
            REPLICA,
            &[STOCK_AT_DEPOT],
            "source = 'hq'\ntarget = 'depot'",
            "source = 'depot'\ntarget = 'hq'",
            Some((14, MEMBER)),
        ),
        (
            REPLICA,
            &[STOCK_AT_BRANCH],
            "source = 'hq'\ntarget = 'branch'",
            "source = 'branch'\ntarget = 'depot'",
            None,
        ),
    ];
    expect_known_rows(rt.alloc(), &ROWS)
}
