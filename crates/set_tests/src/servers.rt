//! Two servers in memory, scripts that are run there, and the rows of targets.

use keep_core::Keeper;
use keep_map::{BytesSink, BytesSource, MapKeeper};
use load_defs::load;
use raw_defs::read_defs;
use repl_records::CopyRow;
use repl_types::{List, Name, Row, Status};
use reply_text::write_row;
use session_core::session;
use site_store::{Site, Sites};
use std::alloc::{AllocError, Global};
use std::process::Abort;
use std::test::Fail;

/// The place of the source of the set.
pub const HQ: u32 = 0;

/// The place of its target.
pub const SHOP: u32 = 1;

/// The table `orders` of hq, with its registration.
pub const ORDERS: &str = "
[[table]]
server = 'hq'
name = 'orders'
columns = ['id int', 'shop int', 'qty int null']
key = ['id']
fixed = ['id']
[[registration]]
server = 'hq'
table = 'orders'
before = ['shop', 'qty']
";

/// More rows than a target has.
const ROWS: u32 = 100;

/// A server with this keeper, of which no transaction is open.
fn server_with(alloc: Global, name: &str, mut keeper: MapKeeper) -> Result<Site<MapKeeper>, Fail> {
    let name = Name::new(alloc, name)?;
    keeper.rollback();
    Ok(Site::open_site(name, keeper))
}

/// The servers hq and shop, with these keepers.
pub fn servers_with(
    alloc: Global,
    hq: MapKeeper,
    shop: MapKeeper,
) -> Result<Sites<MapKeeper>, Fail> {
    let mut list = List::new(alloc);
    list.push(server_with(alloc, "hq", hq)?)?;
    list.push(server_with(alloc, "shop", shop)?)?;
    Ok(Sites::new(list)?)
}

/// Loads the definitions of a text.
fn load_text(alloc: Global, sites: &mut Sites<MapKeeper>, text: &str) -> Result<(), Fail> {
    let raw = read_defs(alloc, text.as_bytes())?;
    sites.rollback_all();
    load(sites, alloc, &raw)?;
    Ok(())
}

/// The servers hq and shop, with the definitions of texts.
pub fn loaded_servers(alloc: Global, texts: &[&str]) -> Result<Sites<MapKeeper>, Fail> {
    let mut sites = servers_with(alloc, MapKeeper::new(alloc), MapKeeper::new(alloc))?;
    for text in texts {
        load_text(alloc, &mut sites, text)?;
    }
    Ok(sites)
}

/// The words that ask for a script at the two servers.
fn words_of_servers(alloc: Global) -> Result<Vec<String>, AllocError> {
    let mut words = Vec::new(alloc);
    words.push(String::from_str(alloc, "hq=:map:")?)?;
    words.push(String::from_str(alloc, "shop=:map:")?)?;
    Ok(words)
}

/// Runs a script at the servers, and answers its output and its status.
fn outcome_of(
    alloc: Global,
    sites: &mut Sites<MapKeeper>,
    script: &[u8],
) -> Result<(BytesSink, Status), AllocError> {
    let words = words_of_servers(alloc)?;
    let mut input = BytesSource::new(List::from_vec(Vec::from_slice(alloc, script)?));
    let mut output = BytesSink::new(alloc);
    sites.rollback_all();
    let status = session(alloc, words.as_slice(), sites, &mut input, &mut output);
    Ok((output, status))
}

/// Runs a script of which no line is refused.
pub fn run(
    rt: &impl Abort,
    alloc: Global,
    sites: &mut Sites<MapKeeper>,
    script: &[u8],
) -> Result<(), Fail> {
    let (_, status) = outcome_of(alloc, sites, script)?;
    assert_eq!(rt; status, Status::Ok);
    Ok(())
}

/// Captures all that hq has committed, which has to write this line.
pub fn capture_all(
    rt: &impl Abort,
    alloc: Global,
    sites: &mut Sites<MapKeeper>,
    line: &[u8],
) -> Result<(), Fail> {
    let (output, status) = outcome_of(alloc, sites, b"capture hq\n")?;
    assert_eq!(rt; status, Status::Ok);
    assert_eq!(rt; output.bytes(), line);
    Ok(())
}

/// The row of a target under the first key after this one.
fn next_row(
    alloc: Global,
    sites: &mut Sites<MapKeeper>,
    target: u32,
    after: Option<&Row>,
) -> Result<Option<(Row, CopyRow)>, Fail> {
    if SHOP >= sites.len() {
        return Ok(None);
    }
    Ok(sites.next::<CopyRow>(alloc, SHOP, target, after)?)
}

/// The lines of the rows of a target, each after the line of its key.
pub fn rows_of(alloc: Global, sites: &mut Sites<MapKeeper>, target: u32) -> Result<Vec<u8>, Fail> {
    let mut lines = Vec::new(alloc);
    let mut last = None;
    for _ in 0..ROWS {
        let Some((key, copy)) = next_row(alloc, sites, target, last.as_ref())? else {
            break;
        };
        write_row(&key, &mut lines)?;
        write_row(&copy.row, &mut lines)?;
        last = Some(key);
    }
    Ok(lines)
}
