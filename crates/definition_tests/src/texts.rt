//! Texts of definitions that keep all rules, and what is answered for a text.

use checked_defs::check;
use raw_defs::read_defs;
use repl_commands::{DefsError, RawDefs};
use repl_types::{DefPlace, List};
use spelled_defs::Defs;
use std::alloc::{AllocError, Global};
use std::test::Fail;

/// The first table of a text.
pub const TABLE: DefPlace = DefPlace::Table(1);

/// The first registration of a text.
pub const REGISTRATION: DefPlace = DefPlace::Registration(1);

/// The first set of a text.
pub const SET: DefPlace = DefPlace::Set(1);

/// The first member of the first set of a text.
pub const MEMBER: DefPlace = DefPlace::Member { set: 1, member: 1 };

/// The second member of the first set of a text.
pub const SECOND_MEMBER: DefPlace = DefPlace::Member { set: 1, member: 2 };

/// A registered table.
pub const ORDERS: &str = "
[[table]]
server = 'hq'
name = 'orders'
columns = ['id int', 'item text', 'qty int null']
key = ['id']
fixed = ['id']
[[registration]]
server = 'hq'
table = 'orders'
before = ['qty']
";

/// A set that copies the orders of ten pieces and more.
pub const LARGE_ORDERS: &str = "
[[set]]
qual = 'q'
name = 's'
source = 'hq'
target = 'shop'
[[set.member]]
source = 'orders'
target = 'orders_copy'
type = 'user_copy'
columns = ['id = id', 'qty = qty']
where = 'qty >= 10'
";

/// A set that counts the orders of each item.
pub const ORDERS_BY_ITEM: &str = "
[[set]]
qual = 'q'
name = 'c'
source = 'hq'
target = 'shop'
commit_count = 2
[[set.member]]
source = 'orders'
target = 'by_item'
type = 'change_aggregate'
columns = ['item = item', 'n = count(*)', 'total = sum(qty)']
";

/// A set that keeps all changes of the orders, and the latest one of each.
pub const CHANGED_ORDERS: &str = "
[[set]]
qual = 'q'
name = 'd'
source = 'hq'
target = 'shop'
[[set.member]]
source = 'orders'
target = 'hist'
type = 'ccd'
complete = false
condensed = false
columns = ['id = id', 'qty = qty']
[[set.member]]
source = 'orders'
target = 'latest'
type = 'ccd'
complete = true
condensed = true
columns = ['id = id', 'qty = qty']
";

/// A copy of a table whose rows are all copied.
pub const ITEMS: &str = "
[[table]]
server = 'src'
name = 'items'
columns = ['id int', 'name text null']
key = ['id']
fixed = ['id']
[[registration]]
server = 'src'
table = 'items'
[[set]]
qual = 'copy'
name = 'copy'
source = 'src'
target = 'dst'
[[set.member]]
source = 'items'
target = 'items_copy'
type = 'user_copy'
columns = ['id = id', 'name = name']
";

/// A copy of a table whose key an update may change.
pub const PARTS: &str = "
[[table]]
server = 'hq'
name = 'parts'
columns = ['code text', 'qty int null']
key = ['code']
[[registration]]
server = 'hq'
table = 'parts'
before = ['code']
[[set]]
qual = 'q'
name = 'p'
source = 'hq'
target = 'shop'
[[set.member]]
source = 'parts'
target = 'parts_pit'
type = 'point_in_time'
columns = ['code = code', 'qty = qty']
";

/// A copy that leaves out a column.
pub const NUMBERS: &str = "
[[table]]
server = 'hq'
name = 'nums'
columns = ['id int', 'grp int', 'val int null']
key = ['id']
fixed = ['id']
[[registration]]
server = 'hq'
table = 'nums'
[[set]]
qual = 'q'
name = 'g'
source = 'hq'
target = 'shop'
[[set.member]]
source = 'nums'
target = 'nums_copy'
type = 'user_copy'
columns = ['id = id', 'val = val']
";

/// Two registered tables, and two sets with a member for each. One column isn't registered, and
/// one has the name of a word of the grammar.
pub const PENS_AND_INKS: &str = "
[[table]]
server = 'hq'
name = 'pens'
columns = ['id int', 'ink text null', 'count int', 'nib text']
key = ['id']
fixed = ['id']
[[table]]
server = 'hq'
name = 'inks'
columns = ['shade text', 'price int', 'label text null']
key = ['shade']
[[registration]]
server = 'hq'
table = 'pens'
after = ['count', 'ink', 'id']
[[registration]]
server = 'hq'
table = 'inks'
del_ins = true
changes_only = true
[[set]]
qual = 'q'
name = 'near'
source = 'hq'
target = 'shop'
max_minutes = 5
[[set.member]]
source = 'pens'
target = 'shop_pens'
type = 'user_copy'
columns = ['pen = id', 'ink = ink']
[[set.member]]
source = 'inks'
target = 'shop_inks'
type = 'point_in_time'
columns = ['shade = shade', 'twice = price * 2']
where = 'price >= 3 and label is not null'
[[set]]
qual = 'q'
name = 'far'
source = 'hq'
target = 'depot'
[[set.member]]
source = 'pens'
target = 'depot_pens'
type = 'ccd'
complete = true
condensed = true
columns = ['pen = (id)', 'colour = ink']
[[set.member]]
source = 'inks'
target = 'depot_inks'
type = 'base_aggregate'
columns = ['label = label', 'n = count(*)', 'top = max(price)']
";

/// A registered table with all images, as a replica and its master need it.
pub const STOCK: &str = "
[[table]]
server = 'hq'
name = 'stock'
columns = ['id int', 'qty int null']
key = ['id']
fixed = ['id']
[[registration]]
server = 'hq'
table = 'stock'
before = ['id', 'qty']
";

/// The stock at the branch.
pub const BRANCH_STOCK: &str = "
[[table]]
server = 'branch'
name = 'stock'
columns = ['id int', 'qty int null']
key = ['id']
fixed = ['id']
[[registration]]
server = 'branch'
table = 'stock'
before = ['id', 'qty']
";

/// The stock at the depot.
pub const DEPOT_STOCK: &str = "
[[table]]
server = 'depot'
name = 'stock'
columns = ['id int', 'qty int null']
key = ['id']
fixed = ['id']
[[registration]]
server = 'depot'
table = 'stock'
before = ['id', 'qty']
";

/// A set that makes the stock at the branch a replica.
pub const STOCK_AT_BRANCH: &str = "
[[set]]
qual = 'r'
name = 'b'
source = 'hq'
target = 'branch'
[[set.member]]
source = 'stock'
target = 'stock'
type = 'replica'
";

/// A second set of that kind, with another replica.
pub const STOCK_AT_DEPOT: &str = "
[[set]]
qual = 'r'
name = 'd'
source = 'hq'
target = 'depot'
[[set.member]]
source = 'stock'
target = 'stock'
type = 'replica'
";

/// The rule that a text breaks, and the place, if it breaks one.
pub type Break = Option<(u8, DefPlace)>;

/// A part of a text, which stands in it once, and what replaces it.
pub type Edit<'a> = (&'a str, &'a str);

/// A part of a text, what replaces it, and which rule is broken then.
pub type Row<'a> = (&'a str, &'a str, Break);

/// Texts that are joined, and rows over what they make.
pub type Table<'a> = (&'a [&'a str], &'a [Row<'a>]);

/// Two edits of a text, one after the other, and which rule is broken then.
pub type RowOfTwo<'a> = (Edit<'a>, Edit<'a>, (u8, DefPlace));

/// The texts one after the other.
pub fn join(alloc: Global, texts: &[&str]) -> Result<String, AllocError> {
    let mut joined = String::new(alloc);
    for text in texts {
        joined.push_str(text)?;
    }
    Ok(joined)
}

/// The text with one part of it replaced. The part stands in it once.
fn replace_once(alloc: Global, text: &str, edit: Edit) -> Result<String, Fail> {
    let (old, new) = edit;
    match text.split_once(old) {
        Some((before, after)) if !after.contains(old) => Ok(join(alloc, &[before, new, after])?),
        _ => Err(Fail::new(format_args!("{old} doesn't stand there once"))),
    }
}

/// The texts one after the other, edited if there is an edit.
pub fn join_edited(alloc: Global, texts: &[&str], edit: Option<Edit>) -> Result<String, Fail> {
    let joined = join(alloc, texts)?;
    match edit {
        None => Ok(joined),
        Some(edit) => replace_once(alloc, joined.as_str(), edit),
    }
}

/// The definitions of a text, if nothing is known.
pub fn check_alone(alloc: Global, text: &str) -> Result<Defs, DefsError> {
    let raw = read_defs(alloc, text.as_bytes())?;
    let known = Defs {
        tables: List::new(alloc),
        registrations: List::new(alloc),
        sets: List::new(alloc),
    };
    check(alloc, &raw, &known)
}

/// What definitions break beside known ones.
fn break_of(alloc: Global, raw: &RawDefs, known: &Defs) -> Result<Break, DefsError> {
    match check(alloc, raw, known) {
        Ok(_) => Ok(None),
        Err(DefsError::Broken { rule, place }) => Ok(Some((rule, place))),
        Err(DefsError::Memory) => Err(DefsError::Memory),
    }
}

/// What a text breaks, if the definitions of another text are known.
pub fn break_beside(alloc: Global, known: &str, text: &str) -> Result<Break, DefsError> {
    let known = check_alone(alloc, known)?;
    let raw = read_defs(alloc, text.as_bytes())?;
    break_of(alloc, &raw, &known)
}

/// What an edited text breaks, if the definitions of another text are known.
fn break_of_edited(
    alloc: Global,
    known: &[&str],
    texts: &[&str],
    edit: Edit,
) -> Result<Break, Fail> {
    let known = join(alloc, known)?;
    let text = join_edited(alloc, texts, Some(edit))?;
    Ok(break_beside(alloc, known.as_str(), text.as_str())?)
}

/// Fails unless an edited text breaks what is wanted.
pub fn judge(answer: Break, wanted: Break, edit: Edit) -> Result<(), Fail> {
    if answer == wanted {
        Ok(())
    } else {
        Err(Fail::new(format_args!("{answer:?} and not {wanted:?}: {edit:?}")))
    }
}

/// Fails unless an edited text breaks what is wanted, if the definitions of another text are known.
pub fn expect(
    alloc: Global,
    known: &[&str],
    texts: &[&str],
    edit: Edit,
    wanted: Break,
) -> Result<(), Fail> {
    let answer = break_of_edited(alloc, known, texts, edit)?;
    judge(answer, wanted, edit)
}

/// Fails unless each edit of a text breaks what is wanted.
fn expect_rows(alloc: Global, texts: &[&str], rows: &[Row]) -> Result<(), Fail> {
    for (old, new, wanted) in rows {
        expect(alloc, &[], texts, (*old, *new), *wanted)?;
    }
    Ok(())
}

/// Fails unless each edit of each text breaks what is wanted.
pub fn expect_tables(alloc: Global, tables: &[Table]) -> Result<(), Fail> {
    for (texts, rows) in tables {
        expect_rows(alloc, *texts, *rows)?;
    }
    Ok(())
}

/// What a text breaks after two edits, if nothing is known.
fn break_of_two(alloc: Global, texts: &[&str], first: Edit, second: Edit) -> Result<Break, Fail> {
    let once = join_edited(alloc, texts, Some(first))?;
    let twice = replace_once(alloc, once.as_str(), second)?;
    Ok(break_beside(alloc, "", twice.as_str())?)
}

/// Fails unless each two edits of a text break what is wanted.
pub fn expect_rows_of_two(alloc: Global, texts: &[&str], rows: &[RowOfTwo]) -> Result<(), Fail> {
    for (first, second, wanted) in rows {
        let answer = break_of_two(alloc, texts, *first, *second)?;
        judge(answer, Some(*wanted), *second)?;
    }
    Ok(())
}
