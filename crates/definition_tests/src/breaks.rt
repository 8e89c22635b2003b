//! Texts that break a rule on tables and registrations, or more than one rule, and nearly the same
//! texts that keep all, worked out by hand.

use crate::texts::{
    Edit, LARGE_ORDERS, MEMBER, ORDERS, PENS_AND_INKS, REGISTRATION, RowOfTwo, SECOND_MEMBER, SET,
    TABLE, Table, expect_rows_of_two, expect_tables,
};
use repl_types::DefPlace;
use std::test::Fail;

/// The second member of the second set of a text.
const LAST_MEMBER: DefPlace = DefPlace::Member { set: 2, member: 2 };

#[test]
fn a_name_is_spelled_as_a_name(rt: HostRuntime) -> Result<(), Fail> {
    const TABLES: [Table<'static>; 1] = [(
        &[ORDERS, LARGE_ORDERS],
        &[
            (
                "server = 'hq'\nname",
                "server = 'h q'\nname",
                Some((2, TABLE)),
            ),
            ("name = 'orders'", "name = 'Orders'", Some((2, TABLE))),
            ("'item text'", "'Item text'", Some((2, TABLE))),
            ("'item text'", "' item text'", Some((2, TABLE))),
            ("'item text'", "'item_2 text'", None),
            ("key = ['id']", "key = ['ID']", Some((2, TABLE))),
            ("fixed = ['id']", "fixed = ['id', '']", Some((2, TABLE))),
            (
                "server = 'hq'\ntable",
                "server = 'HQ'\ntable",
                Some((2, REGISTRATION)),
            ),
            (
                "table = 'orders'",
                "table = 'orders '",
                Some((2, REGISTRATION)),
            ),
            (
                "before = ['qty']",
                "after = ['id', '4']",
                Some((2, REGISTRATION)),
            ),
            (
                "before = ['qty']",
                "before = ['qty', 'é']",
                Some((2, REGISTRATION)),
            ),
            ("qual = 'q'", "qual = '_q'", Some((2, SET))),
            ("name = 's'", "name = ''", Some((2, SET))),
            (
                "name = 's'",
                "name = 'a23456789012345678901234567890123'",
                Some((2, SET)),
            ),
            (
                "name = 's'",
                "name = 'a2345678901234567890123456789012'",
                None,
            ),
            ("source = 'hq'", "source = 'h-q'", Some((2, SET))),
            ("target = 'shop'", "target = '1shop'", Some((2, SET))),
            ("source = 'orders'", "source = 'orderS'", Some((2, MEMBER))),
            (
                "target = 'orders_copy'",
                "target = 'orders.copy'",
                Some((2, MEMBER)),
            ),
            ("'id = id'", "'1d = id'", Some((2, MEMBER))),
            ("'id = id'", "'= id'", Some((2, MEMBER))),
            ("'id = id'", "'\tid = id'", Some((2, MEMBER))),
            ("'id = id'", "'id=id'", None),
            ("'id = id'", "' id  = id'", None),
            ("'qty = qty'", "'count = qty'", None),
        ],
    )];
    expect_tables(rt.alloc(), &TABLES)
}

#[test]
fn nothing_stands_twice(rt: HostRuntime) -> Result<(), Fail> {
    const TABLES: [Table<'static>; 2] = [
        (
            &[ORDERS, LARGE_ORDERS],
            &[
                ("'item text'", "'id text'", Some((3, TABLE))),
                ("key = ['id']", "key = ['id', 'id']", Some((3, TABLE))),
                ("fixed = ['id']", "fixed = ['id', 'id']", Some((3, TABLE))),
                ("fixed = ['id']", "fixed = ['id', 'item']", None),
                (
                    "before = ['qty']",
                    "before = ['qty', 'id', 'qty']",
                    Some((3, REGISTRATION)),
                ),
                ("before = ['qty']", "before = ['qty', 'id']", None),
                (
                    "before = ['qty']",
                    "after = ['id', 'qty', 'id']\nbefore = ['qty']",
                    Some((3, REGISTRATION)),
                ),
                ("'qty = qty'", "'id = qty'", Some((3, MEMBER))),
                ("'qty = qty'", "'id=id + 0'", Some((3, MEMBER))),
                (
                    "[[registration]]",
                    "[[table]]\nserver = 'shop'\nname = 'orders_copy'\ncolumns = ['a int']\n\
                     key = ['a']\n[[registration]]",
                    Some((3, DefPlace::Table(2))),
                ),
                (
                    "[[registration]]",
                    "[[table]]\nserver = 'hq'\nname = 'orders_copy'\ncolumns = ['a int']\n\
                     key = ['a']\n[[registration]]",
                    None,
                ),
            ],
        ),
        (
            &[PENS_AND_INKS],
            &[
                ("name = 'inks'", "name = 'pens'", Some((3, TABLE))),
                ("table = 'inks'", "table = 'pens'", Some((3, REGISTRATION))),
                ("name = 'far'", "name = 'near'", Some((3, SET))),
                (
                    "qual = 'q'\nname = 'far'",
                    "qual = 'p'\nname = 'near'",
                    None,
                ),
                (
                    "target = 'shop_inks'",
                    "target = 'shop_pens'",
                    Some((3, MEMBER)),
                ),
                ("target = 'depot_pens'", "target = 'shop_pens'", None),
                (
                    "target = 'depot'\n[[set.member]]\nsource = 'pens'\ntarget = 'depot_pens'",
                    "target = 'shop'\n[[set.member]]\nsource = 'pens'\ntarget = 'shop_pens'",
                    Some((3, MEMBER)),
                ),
                (
                    "target = 'depot_inks'",
                    "target = 'depot_pens'",
                    Some((3, DefPlace::Member { set: 2, member: 1 })),
                ),
            ],
        ),
    ];
    expect_tables(rt.alloc(), &TABLES)
}

#[test]
fn a_table_has_a_key_and_a_registration_a_table(rt: HostRuntime) -> Result<(), Fail> {
    const TABLES: [Table<'static>; 1] = [(
        &[ORDERS, LARGE_ORDERS],
        &[
            ("'item text'", "'item txt'", Some((4, TABLE))),
            ("'item text'", "'item  text'", Some((4, TABLE))),
            ("'item text'", "'item\ttext'", Some((4, TABLE))),
            ("'item text'", "'Item'", Some((4, TABLE))),
            ("'item text'", "'item text '", Some((4, TABLE))),
            ("'item text'", "'item text null'", None),
            (
                "columns = ['id int', 'item text', 'qty int null']",
                "columns = []",
                Some((4, TABLE)),
            ),
            ("key = ['id']", "key = []", Some((5, TABLE))),
            ("key = ['id']", "key = ['nope']", Some((5, TABLE))),
            (
                "'qty int null']\nkey = ['id']",
                "'qty int null']\nkey = ['qty']",
                Some((5, TABLE)),
            ),
            (
                "'qty int null']\nkey = ['id']",
                "'qty int']\nkey = ['qty']",
                None,
            ),
            ("fixed = ['id']", "fixed = ['id', 'nope']", Some((5, TABLE))),
            ("fixed = ['id']", "fixed = ['qty', 'id']", None),
            (
                "table = 'orders'",
                "table = 'order'",
                Some((6, REGISTRATION)),
            ),
            (
                "server = 'hq'\ntable",
                "server = 'shop'\ntable",
                Some((6, REGISTRATION)),
            ),
            (
                "before = ['qty']",
                "after = ['qty']\nbefore = ['qty']",
                Some((7, REGISTRATION)),
            ),
            ("before = ['qty']", "after = []", Some((7, REGISTRATION))),
            (
                "before = ['qty']",
                "after = ['id', 'nope']",
                Some((7, REGISTRATION)),
            ),
            (
                "before = ['qty']",
                "after = ['qty', 'id']\nbefore = ['qty']",
                None,
            ),
            (
                "before = ['qty']",
                "before = ['nope']",
                Some((8, REGISTRATION)),
            ),
            (
                "before = ['qty']",
                "after = ['id', 'qty']\nbefore = ['qty', 'item']",
                Some((8, REGISTRATION)),
            ),
            (
                "before = ['qty']",
                "after = ['qty', 'item', 'id']\nbefore = ['qty', 'item']",
                None,
            ),
        ],
    )];
    expect_tables(rt.alloc(), &TABLES)
}

#[test]
fn the_lowest_rule_is_answered_at_the_first_item(rt: HostRuntime) -> Result<(), Fail> {
    const FAR_COPY: Edit<'static> = (
        "target = 'depot_pens'\ntype = 'ccd'\ncomplete = true\ncondensed = true",
        "target = 'depot_pens'\ntype = 'user_copy'\nwhere = 'ink is null'",
    );
    const NEAR_CCD: Edit<'static> = (
        "target = 'shop_pens'\ntype = 'user_copy'",
        "target = 'shop_pens'\ntype = 'ccd'\ncomplete = true\ncondensed = true\n\
         where = 'ink is null'",
    );
    const NEAR_REPLICA: Edit<'static> = (
        "where = 'price >= 3 and label is not null'",
        "[[set.member]]\nsource = 'pens'\ntarget = 'pens'\ntype = 'replica'",
    );
    // rule by rule: a break of the rule, and one of the next rule that mostly stands before it
    const ROWS: [RowOfTwo<'static>; 20] = [
        (
            ("'top = max", "'Top = max"),
            ("'nib text'", "'ink text'"),
            (2, LAST_MEMBER),
        ),
        (("'far'", "'near'"), ("'nib text'", "'nib txt'"), (3, SET)),
        (
            ("'label text null'", "'label text nil'"),
            ("['id']\nfixed", "[]\nfixed"),
            (4, DefPlace::Table(2)),
        ),
        (
            ("key = ['shade']", "key = ['label']"),
            ("table = 'pens'", "table = 'pen'"),
            (5, DefPlace::Table(2)),
        ),
        (
            ("table = 'inks'", "table = 'ink'"),
            ("'ink', 'id'", "'ink'"),
            (6, DefPlace::Registration(2)),
        ),
        (
            ("del_ins = true", "after = ['price']"),
            ("'ink', 'id']", "'ink', 'id']\nbefore = ['nib']"),
            (7, DefPlace::Registration(2)),
        ),
        (
            ("changes_only = true", "before = ['dye']"),
            ("'shop'", "'hq'"),
            (8, DefPlace::Registration(2)),
        ),
        (
            ("'depot'", "'hq'"),
            ("'ink = ink'", "'ink = nib'"),
            (9, DefPlace::Set(2)),
        ),
        (
            ("max(price)", "max(cost)"),
            ("'ink = ink']", "'ink = ink']\nwhere = 'ink is null'"),
            (10, LAST_MEMBER),
        ),
        (
            FAR_COPY,
            NEAR_CCD,
            (11, DefPlace::Member { set: 2, member: 1 }),
        ),
        (
            ("'colour = ink']", "'colour = ink']\nwhere = 'ink is null'"),
            ("'ink = ink'", "'ink = max(ink)'"),
            (12, DefPlace::Member { set: 2, member: 1 }),
        ),
        (
            ("'n = count(*)'", "'n = 1'"),
            NEAR_REPLICA,
            (13, LAST_MEMBER),
        ),
        // two breaks of one rule, the second of which stands first or is the one at the set
        (
            ("table = 'pens'", "table = 'Pens'"),
            ("'price int'", "'Price int'"),
            (2, DefPlace::Table(2)),
        ),
        (
            ("'near'", "'Near'"),
            ("table = 'inks'", "table = 'Inks'"),
            (2, DefPlace::Registration(2)),
        ),
        (
            ("'far'", "'Far'"),
            ("'twice = price", "'2 = price"),
            (2, SECOND_MEMBER),
        ),
        (
            ("'colour = ink'", "'pen = ink'"),
            ("table = 'inks'", "table = 'pens'"),
            (3, REGISTRATION),
        ),
        (
            ("key = ['shade']", "key = []"),
            ("['id']\nfixed", "['ink']\nfixed"),
            (5, TABLE),
        ),
        (
            ("'depot'", "'hq'"),
            (
                "'inks'\ntarget = 'shop_inks'",
                "'ink'\ntarget = 'shop_inks'",
            ),
            (9, SECOND_MEMBER),
        ),
        (
            (
                "'inks'\ntarget = 'shop_inks'",
                "'ink'\ntarget = 'shop_inks'",
            ),
            ("'shop'", "'hq'"),
            (9, SET),
        ),
        (
            ("max(price)", "max(cost)"),
            ("price * 2", "price *"),
            (10, SECOND_MEMBER),
        ),
    ];
    expect_rows_of_two(rt.alloc(), &[PENS_AND_INKS], &ROWS)
}
