//! Definitions that texts spell, written out by hand.

use crate::texts::{
    BRANCH_STOCK, CHANGED_ORDERS, Edit, ITEMS, LARGE_ORDERS, NUMBERS, ORDERS, ORDERS_BY_ITEM,
    PARTS, PENS_AND_INKS, STOCK, STOCK_AT_BRANCH, check_alone, join_edited,
};
use repl_definitions::{
    ColumnFrom, CompareOp, Expr, Member, Operand, Predicate, SetDef, TargetColumn, TargetKind,
};
use repl_types::{ColumnDef, Kind, Value};
use spelled_defs::{Defs, RegistrationAt, TableAt};
use std::alloc::Global;
use std::test::Fail;

/// A column: its name, its kind and whether it is nullable.
type WantedColumn<'a> = (&'a str, Kind, bool);

/// A table: its server, its name, its columns, and the places of its key and of its fixed columns.
#[derive(Clone, Copy)]
struct WantedTable<'a> {
    server: &'a str,
    name: &'a str,
    columns: &'a [WantedColumn<'a>],
    key: &'a [u32],
    fixed: &'a [u32],
}

/// Whether a registration is captured with `del_ins`, `changes_only` and `disable_refresh`.
type Flags = (bool, bool, bool);

/// A registration: its server, its table, the places of its after-images and before-images, and
/// its flags.
#[derive(Clone, Copy)]
struct WantedRegistration<'a> {
    server: &'a str,
    table: &'a str,
    after: &'a [u32],
    before: &'a [u32],
    flags: Flags,
}

/// Where a column of a target comes from: a column, the product of a column and a number, the
/// number of rows, or the sum or the greatest of a column.
#[derive(Clone, Copy)]
enum Origin {
    Column(u32),
    Product(u32, i64),
    Count,
    Sum(u32),
    Max(u32),
}

/// A column of a target: its name, and where it comes from.
type WantedTargetColumn<'a> = (&'a str, Origin);

/// A member: its source and its target, the target's kind, its columns, and the column and the
/// least number that its predicate takes.
#[derive(Clone, Copy)]
struct WantedMember<'a> {
    source: &'a str,
    target: &'a str,
    kind: TargetKind,
    columns: &'a [WantedTargetColumn<'a>],
    least: Option<(u32, i64)>,
}

/// A set: its qualifier and name, its servers, its limits of units and of minutes, and its members.
#[derive(Clone, Copy)]
struct WantedSet<'a> {
    qual: &'a str,
    name: &'a str,
    source: &'a str,
    target: &'a str,
    limits: (u32, u32),
    members: &'a [WantedMember<'a>],
}

/// All definitions of a text.
#[derive(Clone, Copy)]
struct WantedDefs<'a> {
    tables: &'a [WantedTable<'a>],
    registrations: &'a [WantedRegistration<'a>],
    sets: &'a [WantedSet<'a>],
}

fn is_column(column: &ColumnDef, wanted: WantedColumn) -> bool {
    let (name, kind, nullable) = wanted;
    column.name.as_str() == name && column.kind == kind && column.nullable == nullable
}

fn are_columns(columns: &[ColumnDef], wanted: &[WantedColumn]) -> bool {
    columns.len() == wanted.len()
        && columns
            .iter()
            .zip(wanted.iter())
            .all(|(column, wanted)| is_column(column, *wanted))
}

fn is_table(table: &TableAt, wanted: &WantedTable) -> bool {
    table.server.as_str() == wanted.server
        && table.def.name.as_str() == wanted.name
        && are_columns(table.def.columns.as_slice(), wanted.columns)
        && table.def.key.as_slice() == wanted.key
        && table.def.fixed.as_slice() == wanted.fixed
}

fn are_tables(tables: &[TableAt], wanted: &[WantedTable]) -> bool {
    tables.len() == wanted.len()
        && tables
            .iter()
            .zip(wanted.iter())
            .all(|(table, wanted)| is_table(table, wanted))
}

fn is_registration(registration: &RegistrationAt, wanted: &WantedRegistration) -> bool {
    let def = &registration.def;
    let (del_ins, changes_only, disable_refresh) = wanted.flags;
    registration.server.as_str() == wanted.server
        && def.table.as_str() == wanted.table
        && def.after.as_slice() == wanted.after
        && def.before.as_slice() == wanted.before
        && def.del_ins == del_ins
        && def.changes_only == changes_only
        && def.disable_refresh == disable_refresh
}

fn are_registrations(registrations: &[RegistrationAt], wanted: &[WantedRegistration]) -> bool {
    registrations.len() == wanted.len()
        && registrations.iter().zip(wanted.iter()).all(|(registration, wanted)| is_registration(
            registration,
            wanted,
        ))
}

fn is_place(expr: &Expr, place: u32) -> bool {
    match expr {
        Expr::Column(at) => *at == place,
        _ => false,
    }
}

fn is_number(expr: &Expr, number: i64) -> bool {
    match expr {
        Expr::Int(n) => *n == number,
        _ => false,
    }
}

fn is_product(expr: &Expr, place: u32, number: i64) -> bool {
    match expr {
        Expr::Mul(left, right) => is_place(left.get(), place) && is_number(right.get(), number),
        _ => false,
    }
}

fn comes_from(from: &ColumnFrom, origin: Origin) -> bool {
    match (from, origin) {
        (ColumnFrom::Plain(expr), Origin::Column(place)) => is_place(expr, place),
        (ColumnFrom::Plain(expr), Origin::Product(place, number)) => {
            is_product(expr, place, number)
        }
        (ColumnFrom::Count, Origin::Count) => true,
        (ColumnFrom::Sum(at), Origin::Sum(place)) => *at == place,
        (ColumnFrom::Max(at), Origin::Max(place)) => *at == place,
        _ => false,
    }
}

fn is_target_column(column: &TargetColumn, wanted: WantedTargetColumn) -> bool {
    let (name, origin) = wanted;
    column.name.as_str() == name && comes_from(&column.from, origin)
}

fn are_target_columns(columns: &[TargetColumn], wanted: &[WantedTargetColumn]) -> bool {
    columns.len() == wanted.len()
        && columns
            .iter()
            .zip(wanted.iter())
            .all(|(column, wanted)| is_target_column(column, *wanted))
}

/// Whether a predicate takes the rows whose column at a place isn't below a number.
fn is_at_least(test: &Predicate, place: u32, number: i64) -> bool {
    match test {
        Predicate::Compare {
            left: Operand::Column(at),
            op: CompareOp::Ge,
            right: Operand::Value(Value::Int(n)),
        } => *at == place && *n == number,
        _ => false,
    }
}

fn is_filter(filter: &Option<Predicate>, least: Option<(u32, i64)>) -> bool {
    match (filter, least) {
        (None, None) => true,
        (Some(test), Some((place, number))) => is_at_least(test, place, number),
        _ => false,
    }
}

fn is_member(member: &Member, wanted: &WantedMember) -> bool {
    member.source.as_str() == wanted.source
        && member.target.as_str() == wanted.target
        && member.kind == wanted.kind
        && are_target_columns(member.columns.as_slice(), wanted.columns)
        && is_filter(&member.filter, wanted.least)
}

fn are_members(members: &[Member], wanted: &[WantedMember]) -> bool {
    members.len() == wanted.len()
        && members
            .iter()
            .zip(wanted.iter())
            .all(|(member, wanted)| is_member(member, wanted))
}

fn has_limits(set: &SetDef, limits: (u32, u32)) -> bool {
    let (units, minutes) = limits;
    set.commit_count == units && set.max_minutes == minutes
}

fn is_set(set: &SetDef, wanted: &WantedSet) -> bool {
    set.id.qual.as_str() == wanted.qual
        && set.id.name.as_str() == wanted.name
        && set.source.as_str() == wanted.source
        && set.target.as_str() == wanted.target
        && has_limits(set, wanted.limits)
        && are_members(set.members.as_slice(), wanted.members)
}

fn are_sets(sets: &[SetDef], wanted: &[WantedSet]) -> bool {
    sets.len() == wanted.len()
        && sets
            .iter()
            .zip(wanted.iter())
            .all(|(set, wanted)| is_set(set, wanted))
}

fn are_defs(defs: &Defs, wanted: &WantedDefs) -> bool {
    are_tables(defs.tables.as_slice(), wanted.tables)
        && are_registrations(defs.registrations.as_slice(), wanted.registrations)
        && are_sets(defs.sets.as_slice(), wanted.sets)
}

/// Texts that are joined, an edit if there is one, and the definitions that the text spells.
type Row<'a> = (&'a [&'a str], Option<Edit<'a>>, WantedDefs<'a>);

/// Whether an edited text spells these definitions, and no others.
fn spells(
    alloc: Global,
    texts: &[&str],
    edit: Option<Edit>,
    wanted: &WantedDefs,
) -> Result<bool, Fail> {
    let text = join_edited(alloc, texts, edit)?;
    let defs = check_alone(alloc, text.as_str())?;
    Ok(are_defs(&defs, wanted))
}

/// Fails unless each text spells its definitions.
fn expect_rows(alloc: Global, rows: &[Row]) -> Result<(), Fail> {
    for (texts, edit, wanted) in rows {
        if !spells(alloc, *texts, *edit, wanted)? {
            return Err(Fail::new(format_args!("{edit:?} in {texts:?}")));
        }
    }
    Ok(())
}

const ITEMS_TABLE: WantedTable<'static> = WantedTable {
    server: "src",
    name: "items",
    columns: &[("id", Kind::Int, false), ("name", Kind::Text, true)],
    key: &[0],
    fixed: &[0],
};

const ORDERS_TABLE: WantedTable<'static> = WantedTable {
    server: "hq",
    name: "orders",
    columns: &[
        ("id", Kind::Int, false),
        ("item", Kind::Text, false),
        ("qty", Kind::Int, true),
    ],
    key: &[0],
    fixed: &[0],
};

/// The orders with another key and other fixed columns.
const KEYED_ORDERS_TABLE: WantedTable<'static> = WantedTable {
    server: "hq",
    name: "orders",
    columns: &[
        ("id", Kind::Int, false),
        ("item", Kind::Text, false),
        ("qty", Kind::Int, true),
    ],
    key: &[1, 0],
    fixed: &[2, 1],
};

const PARTS_TABLE: WantedTable<'static> = WantedTable {
    server: "hq",
    name: "parts",
    columns: &[("code", Kind::Text, false), ("qty", Kind::Int, true)],
    key: &[0],
    fixed: &[],
};

const NUMBERS_TABLE: WantedTable<'static> = WantedTable {
    server: "hq",
    name: "nums",
    columns: &[
        ("id", Kind::Int, false),
        ("grp", Kind::Int, false),
        ("val", Kind::Int, true),
    ],
    key: &[0],
    fixed: &[0],
};

const STOCK_TABLE: WantedTable<'static> = WantedTable {
    server: "hq",
    name: "stock",
    columns: &[("id", Kind::Int, false), ("qty", Kind::Int, true)],
    key: &[0],
    fixed: &[0],
};

const BRANCH_STOCK_TABLE: WantedTable<'static> = WantedTable {
    server: "branch",
    name: "stock",
    columns: &[("id", Kind::Int, false), ("qty", Kind::Int, true)],
    key: &[0],
    fixed: &[0],
};

const ITEMS_REGISTRATION: WantedRegistration<'static> = WantedRegistration {
    server: "src",
    table: "items",
    after: &[0, 1],
    before: &[],
    flags: (false, false, false),
};

const ORDERS_REGISTRATION: WantedRegistration<'static> = WantedRegistration {
    server: "hq",
    table: "orders",
    after: &[0, 1, 2],
    before: &[2],
    flags: (false, false, false),
};

/// The registration of the orders if updates are taken apart.
const SPLIT_ORDERS_REGISTRATION: WantedRegistration<'static> = WantedRegistration {
    server: "hq",
    table: "orders",
    after: &[0, 1, 2],
    before: &[],
    flags: (true, false, false),
};

const PARTS_REGISTRATION: WantedRegistration<'static> = WantedRegistration {
    server: "hq",
    table: "parts",
    after: &[0, 1],
    before: &[0],
    flags: (false, false, false),
};

const NUMBERS_REGISTRATION: WantedRegistration<'static> = WantedRegistration {
    server: "hq",
    table: "nums",
    after: &[0, 1, 2],
    before: &[],
    flags: (false, false, false),
};

const STOCK_REGISTRATION: WantedRegistration<'static> = WantedRegistration {
    server: "hq",
    table: "stock",
    after: &[0, 1],
    before: &[0, 1],
    flags: (false, false, false),
};

const BRANCH_STOCK_REGISTRATION: WantedRegistration<'static> = WantedRegistration {
    server: "branch",
    table: "stock",
    after: &[0, 1],
    before: &[0, 1],
    flags: (false, false, false),
};

const LARGE_SET: WantedSet<'static> = WantedSet {
    qual: "q",
    name: "s",
    source: "hq",
    target: "shop",
    limits: (0, 0),
    members: &[WantedMember {
        source: "orders",
        target: "orders_copy",
        kind: TargetKind::UserCopy,
        columns: &[("id", Origin::Column(0)), ("qty", Origin::Column(2))],
        least: Some((2, 10)),
    }],
};

const COUNTED_SET: WantedSet<'static> = WantedSet {
    qual: "q",
    name: "c",
    source: "hq",
    target: "shop",
    limits: (2, 0),
    members: &[WantedMember {
        source: "orders",
        target: "by_item",
        kind: TargetKind::ChangeAggregate,
        columns: &[
            ("item", Origin::Column(1)),
            ("n", Origin::Count),
            ("total", Origin::Sum(2)),
        ],
        least: None,
    }],
};

const CHANGED_SET: WantedSet<'static> = WantedSet {
    qual: "q",
    name: "d",
    source: "hq",
    target: "shop",
    limits: (0, 0),
    members: &[
        WantedMember {
            source: "orders",
            target: "hist",
            kind: TargetKind::Ccd {
                complete: false,
                condensed: false,
            },
            columns: &[("id", Origin::Column(0)), ("qty", Origin::Column(2))],
            least: None,
        },
        WantedMember {
            source: "orders",
            target: "latest",
            kind: TargetKind::Ccd {
                complete: true,
                condensed: true,
            },
            columns: &[("id", Origin::Column(0)), ("qty", Origin::Column(2))],
            least: None,
        },
    ],
};

const ITEMS_SET: WantedSet<'static> = WantedSet {
    qual: "copy",
    name: "copy",
    source: "src",
    target: "dst",
    limits: (0, 0),
    members: &[WantedMember {
        source: "items",
        target: "items_copy",
        kind: TargetKind::UserCopy,
        columns: &[("id", Origin::Column(0)), ("name", Origin::Column(1))],
        least: None,
    }],
};

const PARTS_SET: WantedSet<'static> = WantedSet {
    qual: "q",
    name: "p",
    source: "hq",
    target: "shop",
    limits: (0, 0),
    members: &[WantedMember {
        source: "parts",
        target: "parts_pit",
        kind: TargetKind::PointInTime,
        columns: &[("code", Origin::Column(0)), ("qty", Origin::Column(1))],
        least: None,
    }],
};

const NUMBERS_SET: WantedSet<'static> = WantedSet {
    qual: "q",
    name: "g",
    source: "hq",
    target: "shop",
    limits: (0, 0),
    members: &[WantedMember {
        source: "nums",
        target: "nums_copy",
        kind: TargetKind::UserCopy,
        columns: &[("id", Origin::Column(0)), ("val", Origin::Column(2))],
        least: None,
    }],
};

const REPLICA_SET: WantedSet<'static> = WantedSet {
    qual: "r",
    name: "b",
    source: "hq",
    target: "branch",
    limits: (0, 0),
    members: &[WantedMember {
        source: "stock",
        target: "stock",
        kind: TargetKind::Replica,
        columns: &[],
        least: None,
    }],
};

#[test]
fn the_definitions_of_a_text_are_spelled(rt: HostRuntime) -> Result<(), Fail> {
    const KEYS: Edit<'static> = (
        "key = ['id']\nfixed = ['id']",
        "key = ['item', 'id']\nfixed = ['qty', 'item']",
    );
    const ROWS: [Row<'static>; 11] = [
        (
            &[ITEMS],
            None,
            WantedDefs {
                tables: &[ITEMS_TABLE],
                registrations: &[ITEMS_REGISTRATION],
                sets: &[ITEMS_SET],
            },
        ),
        (
            &[ORDERS],
            None,
            WantedDefs {
                tables: &[ORDERS_TABLE],
                registrations: &[ORDERS_REGISTRATION],
                sets: &[],
            },
        ),
        (
            &[ORDERS],
            Some(KEYS),
            WantedDefs {
                tables: &[KEYED_ORDERS_TABLE],
                registrations: &[ORDERS_REGISTRATION],
                sets: &[],
            },
        ),
        (
            &[PARTS],
            None,
            WantedDefs {
                tables: &[PARTS_TABLE],
                registrations: &[PARTS_REGISTRATION],
                sets: &[PARTS_SET],
            },
        ),
        (
            &[NUMBERS],
            None,
            WantedDefs {
                tables: &[NUMBERS_TABLE],
                registrations: &[NUMBERS_REGISTRATION],
                sets: &[NUMBERS_SET],
            },
        ),
        (
            &[STOCK, BRANCH_STOCK],
            None,
            WantedDefs {
                tables: &[STOCK_TABLE, BRANCH_STOCK_TABLE],
                registrations: &[STOCK_REGISTRATION, BRANCH_STOCK_REGISTRATION],
                sets: &[],
            },
        ),
        (
            &[ORDERS, LARGE_ORDERS],
            None,
            WantedDefs {
                tables: &[ORDERS_TABLE],
                registrations: &[ORDERS_REGISTRATION],
                sets: &[LARGE_SET],
            },
        ),
        (
            &[ORDERS, LARGE_ORDERS],
            Some(("before = ['qty']", "del_ins = true")),
            WantedDefs {
                tables: &[ORDERS_TABLE],
                registrations: &[SPLIT_ORDERS_REGISTRATION],
                sets: &[LARGE_SET],
            },
        ),
        (
            &[ORDERS, ORDERS_BY_ITEM],
            None,
            WantedDefs {
                tables: &[ORDERS_TABLE],
                registrations: &[ORDERS_REGISTRATION],
                sets: &[COUNTED_SET],
            },
        ),
        (
            &[ORDERS, CHANGED_ORDERS],
            None,
            WantedDefs {
                tables: &[ORDERS_TABLE],
                registrations: &[ORDERS_REGISTRATION],
                sets: &[CHANGED_SET],
            },
        ),
        (
            &[STOCK, BRANCH_STOCK, STOCK_AT_BRANCH],
            None,
            WantedDefs {
                tables: &[STOCK_TABLE, BRANCH_STOCK_TABLE],
                registrations: &[STOCK_REGISTRATION, BRANCH_STOCK_REGISTRATION],
                sets: &[REPLICA_SET],
            },
        ),
    ];
    expect_rows(rt.alloc(), &ROWS)
}

/// The last line of the registration of the orders, the places of its after-images and
/// before-images, and its flags.
type ImagesRow<'a> = (&'a str, &'a [u32], &'a [u32], Flags);

/// Whether the orders, registered with this line, have these images and flags.
fn have_images(alloc: Global, row: &ImagesRow) -> Result<bool, Fail> {
    let (line, after, before, flags) = *row;
    let registration = WantedRegistration {
        server: "hq",
        table: "orders",
        after,
        before,
        flags,
    };
    let wanted = WantedDefs {
        tables: &[ORDERS_TABLE],
        registrations: &[registration],
        sets: &[],
    };
    spells(alloc, &[ORDERS], Some(("before = ['qty']", line)), &wanted)
}

/// Fails unless the orders have the images and flags of each row.
fn expect_images(alloc: Global, rows: &[ImagesRow]) -> Result<(), Fail> {
    for row in rows {
        if !have_images(alloc, row)? {
            return Err(Fail::new(format_args!("{}", row.0)));
        }
    }
    Ok(())
}

#[test]
fn images_stand_in_the_order_of_the_table(rt: HostRuntime) -> Result<(), Fail> {
    const NONE: Flags = (false, false, false);
    const ROWS: [ImagesRow<'static>; 9] = [
        ("", &[0, 1, 2], &[], NONE),
        ("before = ['qty']", &[0, 1, 2], &[2], NONE),
        ("before = ['qty', 'id']", &[0, 1, 2], &[0, 2], NONE),
        ("before = []", &[0, 1, 2], &[], NONE),
        ("after = ['qty', 'id']", &[0, 2], &[], NONE),
        ("del_ins = true", &[0, 1, 2], &[], (true, false, false)),
        ("changes_only = true", &[0, 1, 2], &[], (false, true, false)),
        (
            "disable_refresh = true",
            &[0, 1, 2],
            &[],
            (false, false, true),
        ),
        ("del_ins = false", &[0, 1, 2], &[], NONE),
    ];
    expect_images(rt.alloc(), &ROWS)
}

/// Whether the column at a place of a target has this name and comes from this.
fn has_column(member: &Member, place: usize, wanted: WantedTargetColumn) -> bool {
    match member.columns.as_slice().get(place) {
        Some(column) => is_target_column(column, wanted),
        None => false,
    }
}

fn is_not_null(test: &Predicate, place: u32) -> bool {
    match test {
        Predicate::IsNotNull(at) => *at == place,
        _ => false,
    }
}

/// Whether the inks are taken whose price is at least 3 and whose label isn't NULL.
fn are_labelled(filter: &Option<Predicate>) -> bool {
    match filter {
        Some(Predicate::And(left, right)) => {
            is_at_least(left.get(), 1, 3) && is_not_null(right.get(), 2)
        }
        _ => false,
    }
}

fn is_near_set(set: &SetDef) -> bool {
    match set.members.as_slice() {
        [_, inks, ..] => {
            has_limits(set, (0, 5))
                && has_column(inks, 1, ("twice", Origin::Product(1, 2)))
                && are_labelled(&inks.filter)
        }
        _ => false,
    }
}

fn is_far_set(set: &SetDef) -> bool {
    match set.members.as_slice() {
        [_, inks, ..] => {
            inks.kind == TargetKind::BaseAggregate && has_column(inks, 2, ("top", Origin::Max(1)))
        }
        _ => false,
    }
}

fn are_near_and_far(sets: &[SetDef]) -> bool {
    match sets {
        [near, far, ..] => is_near_set(near) && is_far_set(far),
        _ => false,
    }
}

#[test]
fn trees_name_places_of_the_source(rt: HostRuntime) -> Result<(), Fail> {
    let defs = check_alone(rt.alloc(), PENS_AND_INKS)?;
    assert!(rt; are_near_and_far(defs.sets.as_slice()));
    Ok(())
}
