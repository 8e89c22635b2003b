//! Texts that break a rule on members, and nearly the same texts that keep all, worked out by hand.

use crate::texts::{
    BRANCH_STOCK, Break, CHANGED_ORDERS, DEPOT_STOCK, ITEMS, LARGE_ORDERS, MEMBER, ORDERS,
    ORDERS_BY_ITEM, PARTS, PENS_AND_INKS, RowOfTwo, SECOND_MEMBER, SET, STOCK, STOCK_AT_BRANCH,
    STOCK_AT_DEPOT, Table, break_beside, expect, expect_rows_of_two, expect_tables, join, judge,
};
use repl_types::DefPlace;
use std::alloc::{AllocError, Global};
use std::test::Fail;

/// A registered table at the branch like the stock, of another name.
const BRANCH_SPARE: &str = "
[[table]]
server = 'branch'
name = 'spare'
columns = ['id int', 'qty int null']
key = ['id']
fixed = ['id']
[[registration]]
server = 'branch'
table = 'spare'
before = ['id', 'qty']
";

/// A table like the stock, with a key of both columns.
const PAIRS: &str = "
[[table]]
server = 'hq'
name = 'stock'
columns = ['id int', 'qty int']
key = ['id', 'qty']
fixed = ['id', 'qty']
[[registration]]
server = 'hq'
table = 'stock'
before = ['id', 'qty']
";

#[test]
fn the_texts_of_a_member_are_read(rt: HostRuntime) -> Result<(), Fail> {
    const TABLES: [Table<'static>; 2] = [
        (
            &[ORDERS, LARGE_ORDERS],
            &[
                ("target = 'shop'", "target = 'hq'", Some((9, SET))),
                ("source = 'hq'", "source = 'depot'", Some((9, MEMBER))),
                ("source = 'orders'", "source = 'order'", Some((9, MEMBER))),
                (
                    "[[registration]]\nserver = 'hq'\ntable = 'orders'\nbefore = ['qty']\n",
                    "",
                    Some((9, MEMBER)),
                ),
                ("'qty = qty'", "'qty'", Some((10, MEMBER))),
                ("'qty = qty'", "'qty = nope'", Some((10, MEMBER))),
                ("'qty = qty'", "'qty = Qty'", Some((10, MEMBER))),
                ("'qty = qty'", "'qty = qty +'", Some((10, MEMBER))),
                ("'qty = qty'", "'qty = qty + item'", Some((10, MEMBER))),
                ("'qty = qty'", "'qty = item || item'", None),
                ("'qty = qty'", "'qty = sum(nope)'", Some((10, MEMBER))),
                (
                    "columns = ['id = id', 'qty = qty']",
                    "columns = []",
                    Some((10, MEMBER)),
                ),
                ("'id = id'", "'id = id + 0'", Some((10, MEMBER))),
                ("'id = id'", "'number = (id)'", None),
                ("'qty = qty'", "'again = (id)'", Some((10, MEMBER))),
                ("'qty = qty'", "'again = id + 0'", None),
                ("qty >= 10", "nope >= 10", Some((10, MEMBER))),
                ("qty >= 10", "qty >= item", Some((10, MEMBER))),
                ("qty >= 10", "qty = null", Some((10, MEMBER))),
                ("qty >= 10", "", Some((10, MEMBER))),
                ("qty >= 10", "qty >= 10 And qty < 20", Some((10, MEMBER))),
                ("qty >= 10", "qty >= 10 AND qty < 20", None),
            ],
        ),
        (
            &[PENS_AND_INKS],
            &[
                ("'ink = ink'", "'ink = nib'", Some((10, MEMBER))),
                ("'ink = ink'", "'ink = count'", Some((10, MEMBER))),
                ("'ink = ink'", "'count = ink'", None),
                (
                    "'ink = ink']",
                    "'ink = ink']\nwhere = 'nib is null'",
                    Some((10, MEMBER)),
                ),
                (
                    "'colour = ink'",
                    "'colour = nib || ink'",
                    Some((10, DefPlace::Member { set: 2, member: 1 })),
                ),
                (
                    "'pen = (id)', ",
                    "",
                    Some((10, DefPlace::Member { set: 2, member: 1 })),
                ),
                (
                    "condensed = true\ncolumns = ['pen = (id)', ",
                    "condensed = false\ncolumns = [",
                    None,
                ),
            ],
        ),
    ];
    expect_tables(rt.alloc(), &TABLES)
}

/// A part of a text, the form of what replaces it, a count, and which rule is broken then. Each ~
/// of the form stands for so many blanks, and each < and > for so many parentheses.
type WideRow<'a> = (&'a str, &'a str, usize, Break);

/// The form with a piece repeated in place of a mark.
fn widen(
    alloc: Global,
    form: &str,
    mark: &str,
    piece: &str,
    count: usize,
) -> Result<String, AllocError> {
    let many = piece.repeat(alloc, count)?;
    form.replace(alloc, mark, many.as_str())
}

/// What a form stands for.
fn wide(alloc: Global, form: &str, count: usize) -> Result<String, AllocError> {
    let blank = widen(alloc, form, "~", " ", count)?;
    let opened = widen(alloc, blank.as_str(), "<", "(", count)?;
    widen(alloc, opened.as_str(), ">", ")", count)
}

/// Fails unless each wide edit of the orders breaks what is wanted.
fn expect_wide_rows(alloc: Global, rows: &[WideRow]) -> Result<(), Fail> {
    for (old, form, count, wanted) in rows {
        let new = wide(alloc, form, *count)?;
        expect(
            alloc,
            &[],
            &[ORDERS, LARGE_ORDERS],
            (*old, new.as_str()),
            *wanted,
        )?;
    }
    Ok(())
}

#[test]
fn a_text_has_4096_bytes_and_nests_64_deep_at_most(rt: HostRuntime) -> Result<(), Fail> {
    const ROWS: [WideRow<'static>; 11] = [
        ("'qty = qty'", "'qty = qty +~0'", 4084, None),
        ("'qty = qty'", "'qty = qty +~0'", 4085, Some((10, MEMBER))),
        ("'qty = qty'", "'qty~= qty'", 4088, None),
        ("'qty = qty'", "'qty~= qty'", 4089, Some((10, MEMBER))),
        ("'qty >= 10'", "'qty =~10'", 4089, None),
        ("'qty >= 10'", "'qty =~10'", 4090, Some((10, MEMBER))),
        ("'id = id'", "'id = <id>'", 64, None),
        ("'id = id'", "'id = <id>'", 65, Some((10, MEMBER))),
        ("'qty >= 10'", "'<qty = 10>'", 64, None),
        ("'qty >= 10'", "'<qty = 10>'", 65, Some((10, MEMBER))),
        ("'qty >= 10'", "\"qty = 1 or '<>' = ''\"", 65, None),
    ];
    expect_wide_rows(rt.alloc(), &ROWS)
}

#[test]
fn rows_may_move_only_if_the_changes_say_from_where(rt: HostRuntime) -> Result<(), Fail> {
    const TABLES: [Table<'static>; 5] = [
        (
            &[ORDERS, LARGE_ORDERS],
            &[
                ("before = ['qty']\n", "", Some((11, MEMBER))),
                (
                    "before = ['qty']",
                    "before = ['id', 'item']",
                    Some((11, MEMBER)),
                ),
                ("before = ['qty']", "del_ins = true", None),
                ("before = ['qty']", "del_ins = false", Some((11, MEMBER))),
                ("fixed = ['id']", "fixed = []", Some((11, MEMBER))),
                ("fixed = ['id']", "fixed = ['item']", Some((11, MEMBER))),
                ("qty >= 10", "item is null", Some((11, MEMBER))),
                ("qty >= 10", "id = 1 or qty = 2", None),
                (
                    "qty >= 10",
                    "id = 1 or qty = 2 and item is null",
                    Some((11, MEMBER)),
                ),
                (
                    "type = 'user_copy'\ncolumns = ['id = id', 'qty = qty']\nwhere = 'qty",
                    "type = 'point_in_time'\ncolumns = ['id = id']\nwhere = 'item is null or qty",
                    Some((11, MEMBER)),
                ),
                (
                    "type = 'user_copy'\ncolumns = ['id = id', 'qty = qty']\nwhere = 'qty",
                    "type = 'base_aggregate'\ncolumns = ['n = count(*)']\n\
                     where = 'item is null or qty",
                    None,
                ),
            ],
        ),
        (
            &[ITEMS],
            &[
                ("'name = name']", "'name = name']\nwhere = 'id > 1'", None),
                (
                    "'name = name']",
                    "'name = name']\nwhere = 'name is null'",
                    Some((11, MEMBER)),
                ),
            ],
        ),
        (
            &[PARTS],
            &[
                ("before = ['code']", "before = ['qty']", Some((11, MEMBER))),
                (
                    "before = ['code']",
                    "before = ['qty']\ndel_ins = true",
                    None,
                ),
                ("key = ['code']", "key = ['code']\nfixed = []", None),
            ],
        ),
        (
            &[ORDERS, CHANGED_ORDERS],
            &[
                (
                    "condensed = true",
                    "condensed = true\nwhere = 'qty > 1'",
                    Some((12, SECOND_MEMBER)),
                ),
                (
                    "condensed = true",
                    "condensed = true\nwhere = 'id > 1'",
                    None,
                ),
                (
                    "condensed = false",
                    "condensed = false\nwhere = 'qty > 1'",
                    None,
                ),
                (
                    "fixed = ['id']",
                    "fixed = ['qty']",
                    Some((12, SECOND_MEMBER)),
                ),
                (
                    "fixed = ['id']\n[[registration]]\nserver = 'hq'\ntable = 'orders'\n\
                     before = ['qty']",
                    "[[registration]]\nserver = 'hq'\ntable = 'orders'\nbefore = ['id']",
                    Some((12, SECOND_MEMBER)),
                ),
                (
                    "fixed = ['id']\n[[registration]]\nserver = 'hq'\ntable = 'orders'\n\
                     before = ['qty']",
                    "[[registration]]\nserver = 'hq'\ntable = 'orders'\ndel_ins = true",
                    None,
                ),
            ],
        ),
        // a predicate over a table whose updates are taken apart
        (
            &[PENS_AND_INKS],
            &[(
                "type = 'point_in_time'",
                "type = 'ccd'\ncomplete = true\ncondensed = true",
                None,
            )],
        ),
    ];
    expect_tables(rt.alloc(), &TABLES)
}

#[test]
fn sums_stand_in_aggregates(rt: HostRuntime) -> Result<(), Fail> {
    const TABLES: [Table<'static>; 2] = [
        (
            &[ORDERS, ORDERS_BY_ITEM],
            &[
                (
                    ", 'n = count(*)', 'total = sum(qty)'",
                    "",
                    Some((13, MEMBER)),
                ),
                (", 'total = sum(qty)'", "", None),
                ("'item = item', ", "", None),
                ("'item = item'", "'item = (item)'", None),
                ("'item = item'", "'more = qty + 1'", Some((13, MEMBER))),
                ("'item = item'", "'one = 1'", Some((13, MEMBER))),
                ("sum(qty)", "sum(item)", Some((13, MEMBER))),
                ("sum(qty)", "min(item)", None),
                ("sum(qty)", "count(item)", None),
                (
                    "type = 'change_aggregate'\ncolumns = ['item = item', 'n = count(*)', \
                     'total = sum(qty)']",
                    "type = 'base_aggregate'\ncolumns = ['item = item']",
                    Some((13, MEMBER)),
                ),
            ],
        ),
        (
            &[ORDERS, LARGE_ORDERS],
            &[("'qty = qty'", "'n = count(*)'", Some((13, MEMBER)))],
        ),
    ];
    const CHANGES: [RowOfTwo<'static>; 1] = [(
        (
            "condensed = false\ncolumns = ['id = id', 'qty = qty']",
            "condensed = false\ncolumns = ['id = id', 'n = count(*)']",
        ),
        ("'qty = qty'", "'n = count(*)'"),
        (13, MEMBER),
    )];
    expect_tables(rt.alloc(), &TABLES)?;
    expect_rows_of_two(rt.alloc(), &[ORDERS, CHANGED_ORDERS], &CHANGES)
}

#[test]
fn a_replica_set_has_only_replicas(rt: HostRuntime) -> Result<(), Fail> {
    const TABLES: [Table<'static>; 4] = [
        (
            &[STOCK, BRANCH_STOCK, STOCK_AT_BRANCH],
            &[
                (
                    "target = 'branch'",
                    "target = 'branch'\ncommit_count = 1",
                    Some((14, SET)),
                ),
                (
                    "target = 'branch'",
                    "target = 'branch'\nmax_minutes = 1",
                    Some((14, SET)),
                ),
                (
                    "target = 'branch'",
                    "target = 'branch'\nmax_minutes = 0\ncommit_count = 0",
                    None,
                ),
                (
                    "type = 'replica'",
                    "type = 'replica'\n[[set.member]]\nsource = 'stock'\ntarget = 'stock_copy'\n\
                     type = 'user_copy'\ncolumns = ['id = id']",
                    Some((14, SET)),
                ),
                (
                    "type = 'replica'",
                    "type = 'replica'\n[[set]]\nqual = 'q'\nname = 's'\nsource = 'branch'\n\
                     target = 'shop'\n[[set.member]]\nsource = 'stock'\ntarget = 'stock_copy'\n\
                     type = 'user_copy'\ncolumns = ['id = id']",
                    None,
                ),
                (
                    "type = 'replica'",
                    "type = 'replica'\n[[set.member]]\nsource = 'stock'\ntarget = 'rest'\n\
                     type = 'replica'",
                    Some((14, SECOND_MEMBER)),
                ),
                (
                    "type = 'replica'",
                    "type = 'user_copy'\ncolumns = ['id = id']",
                    Some((3, DefPlace::Table(2))),
                ),
                (
                    "source = 'hq'\ntarget = 'branch'",
                    "source = 'branch'\ntarget = 'hq'",
                    None,
                ),
                ("target = 'branch'", "target = 'depot'", Some((14, MEMBER))),
                (
                    "[[registration]]\nserver = 'branch'\ntable = 'stock'\n\
                     before = ['id', 'qty']\n",
                    "",
                    Some((14, MEMBER)),
                ),
            ],
        ),
        // lines of a replica member that only others may have
        (
            &[STOCK, BRANCH_STOCK, STOCK_AT_BRANCH],
            &[
                (
                    "type = 'replica'\n",
                    "type = 'replica'\ncolumns = ['id = id']",
                    Some((14, MEMBER)),
                ),
                (
                    "type = 'replica'\n",
                    "type = 'replica'\ncolumns = []",
                    Some((14, MEMBER)),
                ),
                (
                    "type = 'replica'\n",
                    "type = 'replica'\nwhere = 'qty > 1'",
                    Some((14, MEMBER)),
                ),
                (
                    "type = 'replica'\n",
                    "type = 'replica'\ncolumns = ['ID = id']",
                    Some((2, MEMBER)),
                ),
                (
                    "type = 'replica'\n",
                    "type = 'replica'\ncolumns = ['a = id', 'a = qty']",
                    Some((3, MEMBER)),
                ),
                (
                    "type = 'replica'\n",
                    "type = 'replica'\ncolumns = ['id = nope']",
                    Some((10, MEMBER)),
                ),
                (
                    "type = 'replica'\n",
                    "type = 'replica'\nwhere = 'qty >'",
                    Some((10, MEMBER)),
                ),
                (
                    "type = 'replica'\n",
                    "type = 'replica'\ncolumns = ['n = count(*)']",
                    Some((13, MEMBER)),
                ),
            ],
        ),
        // a target of another name
        (
            &[STOCK, BRANCH_SPARE, STOCK_AT_BRANCH],
            &[("target = 'stock'", "target = 'spare'", Some((14, MEMBER)))],
        ),
        (
            &[
                STOCK,
                BRANCH_STOCK,
                DEPOT_STOCK,
                STOCK_AT_BRANCH,
                STOCK_AT_DEPOT,
            ],
            &[
                ("name = 'd'", "name = 'e'", None),
                (
                    "source = 'hq'\ntarget = 'depot'",
                    "source = 'branch'\ntarget = 'depot'",
                    Some((14, MEMBER)),
                ),
                (
                    "source = 'hq'\ntarget = 'depot'",
                    "source = 'branch'\ntarget = 'hq'",
                    Some((14, MEMBER)),
                ),
                (
                    "source = 'hq'\ntarget = 'branch'",
                    "source = 'depot'\ntarget = 'branch'",
                    Some((14, MEMBER)),
                ),
                ("target = 'depot'", "target = 'branch'", Some((3, MEMBER))),
            ],
        ),
    ];
    expect_tables(rt.alloc(), &TABLES)
}

/// The text of a table, a part of it, what replaces it, and which rule a replica breaks that has
/// the one table at the master and the other at the replica.
type PairRow<'a> = (&'a str, &'a str, &'a str, Break);

/// What a replica breaks, given the texts of a table at the master and at the replica.
fn break_of_replica(alloc: Global, master: &str, replica: &str) -> Result<Break, Fail> {
    let replica = replica.replace(alloc, "hq", "branch")?;
    let text = join(alloc, &[master, replica.as_str(), STOCK_AT_BRANCH])?;
    Ok(break_beside(alloc, "", text.as_str())?)
}

/// The text with each such part replaced. There is one.
fn replace(alloc: Global, text: &str, old: &str, new: &str) -> Result<String, Fail> {
    if !text.contains(old) {
        return Err(Fail::new(format_args!("{old} doesn't stand there")));
    }
    Ok(text.replace(alloc, old, new)?)
}

/// Fails unless a replica breaks what is wanted, with the other table at the master, and then at
/// the replica.
fn expect_pair(
    alloc: Global,
    stock: &str,
    other: &str,
    edit: (&str, &str),
    wanted: Break,
) -> Result<(), Fail> {
    judge(break_of_replica(alloc, other, stock)?, wanted, edit)?;
    judge(break_of_replica(alloc, stock, other)?, wanted, edit)
}

/// Fails unless each pair breaks what is wanted.
fn expect_pairs(alloc: Global, rows: &[PairRow]) -> Result<(), Fail> {
    for (stock, old, new, wanted) in rows {
        let other = replace(alloc, stock, old, new)?;
        expect_pair(alloc, stock, other.as_str(), (*old, *new), *wanted)?;
    }
    Ok(())
}

#[test]
fn a_replica_has_a_table_like_its_source(rt: HostRuntime) -> Result<(), Fail> {
    const UNLIKE: Break = Some((14, MEMBER));
    const ROWS: [PairRow<'static>; 18] = [
        (STOCK, "qty", "amount", UNLIKE),
        (STOCK, "'qty int null'", "'qty text null'", UNLIKE),
        (STOCK, "'qty int null'", "'qty int'", UNLIKE),
        (
            STOCK,
            "'id int', 'qty int null'",
            "'qty int null', 'id int'",
            UNLIKE,
        ),
        (
            STOCK,
            "'qty int null'",
            "'qty int null', 'more int'",
            UNLIKE,
        ),
        (PAIRS, "key = ['id', 'qty']", "key = ['id', 'qty']", None),
        (PAIRS, "key = ['id', 'qty']", "key = ['qty', 'id']", UNLIKE),
        (PAIRS, "key = ['id', 'qty']", "key = ['id']", UNLIKE),
        (
            PAIRS,
            "fixed = ['id', 'qty']",
            "fixed = ['qty', 'id']",
            UNLIKE,
        ),
        (STOCK, "fixed = ['id']\n", "", UNLIKE),
        (STOCK, "fixed = ['id']", "fixed = ['id', 'qty']", UNLIKE),
        (STOCK, "before = ['id', 'qty']", "before = ['id']", UNLIKE),
        (
            STOCK,
            "before = ['id', 'qty']",
            "before = ['qty', 'id']",
            None,
        ),
        (
            STOCK,
            "before = ['id', 'qty']",
            "after = ['id']\nbefore = ['id']",
            UNLIKE,
        ),
        (STOCK, "before =", "after = ['qty', 'id']\nbefore =", None),
        (STOCK, "before =", "del_ins = true\nbefore =", UNLIKE),
        (STOCK, "before =", "changes_only = true\nbefore =", UNLIKE),
        (STOCK, "before =", "disable_refresh = true\nbefore =", None),
    ];
    expect_pairs(rt.alloc(), &ROWS)
}
