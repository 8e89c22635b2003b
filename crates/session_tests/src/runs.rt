//! Runs of `session` at servers in memory, of which a call can fail.

ghost use Rattle.std.specs.Prelude.{OnOk};
ghost use Rattle.repl_types.specs.Sizes.{IsKeySize, IsValueSize};
ghost use Rattle.keep_core.specs.Kept.{IsClosed};

use keep_core::{KeepError, Keeper};
use keep_map::{BytesSink, BytesSource, MapKeeper};
use repl_types::{Area, List, Name, Status};
use session_core::session;
use site_store::{Site, Sites};
use std::alloc::{AllocError, Global};
use std::process::Abort;
use std::test::Fail;

/// Commits one record.
pub fn hold<K: Keeper>(
    keeper: &mut K,
    area: Area,
    table: u32,
    key: &[u8],
    value: &[u8],
) -> Result<(), KeepError>
    requires closed { IsClosed (K.kept keeper.old) }
    requires key { IsKeySize key.now }
    requires value { IsValueSize value.now }
    ensures { OnOk result (IsClosed (K.kept keeper.new)) }
{
    keeper.begin()?;
    keeper.put(area, table, key, value)?;
    keeper.commit()
}

/// The words of a line.
pub fn words_of(alloc: Global, line: &str) -> Result<Vec<String>, AllocError> {
    let mut words = Vec::new(alloc);
    for word in line.split_ascii_whitespace() {
        words.push(String::from_str(alloc, word)?)?;
    }
    Ok(words)
}

/// An input of these bytes.
pub fn source_of(alloc: Global, bytes: &[u8]) -> Result<BytesSource, AllocError> {
    Ok(BytesSource::new(List::from_vec(Vec::from_slice(alloc, bytes)?)))
}

/// More calls than a run makes at one server.
pub const CALLS: u64 = 1_000;

/// A call of the keeper of a server that fails, counted from 1; if it is a commit, it may take
/// place nevertheless. 0 is the number of none.
#[derive(Clone, Copy, Debug)]
pub struct Failure {
    pub server: u32,
    pub call: u64,
    pub takes_place: bool,
}

/// No call fails.
pub const NONE: Failure = Failure {
    server: 0,
    call: 0,
    takes_place: false,
};

/// A server with this keeper, of which no transaction is open and no call fails.
pub fn server_with(
    alloc: Global,
    name: &str,
    mut keeper: MapKeeper,
) -> Result<Site<MapKeeper>, Fail> {
    let name = Name::new(alloc, name)?;
    keeper.rollback();
    Ok(Site::open_site(name, keeper))
}

/// The keeper at a place among the servers, of which only the call fails that is one of that
/// server.
fn failing_keeper(
    alloc: Global,
    mut keeper: MapKeeper,
    place: usize,
    failure: Failure,
) -> Result<MapKeeper, AllocError> {
    let call = if place == failure.server as usize {
        failure.call
    } else {
        0
    };
    keeper.fail_at(List::from_vec(vec![in alloc; call]?));
    keeper.doubt_new(failure.takes_place);
    Ok(keeper)
}

/// Servers of these names, which hold nothing, with this failure.
pub fn new_servers(
    alloc: Global,
    names: &[&str],
    failure: Failure,
) -> Result<Sites<MapKeeper>, Fail> {
    let mut list = List::new(alloc);
    for (place, name) in names.iter().enumerate() {
        let keeper = failing_keeper(alloc, MapKeeper::new(alloc), place, failure)?;
        list.push(server_with(alloc, name, keeper)?)?;
    }
    Ok(Sites::new(list)?)
}

/// The servers of these names with the same keepers, with this failure from now on.
pub fn with_failure(
    alloc: Global,
    names: &[&str],
    sites: Sites<MapKeeper>,
    failure: Failure,
) -> Result<Sites<MapKeeper>, Fail> {
    let mut list = List::new(alloc);
    let sites = sites.into_list().into_vec();
    for (place, (name, site)) in names.iter().zip(sites).enumerate() {
        let keeper = failing_keeper(alloc, site.into_keeper(), place, failure)?;
        list.push(server_with(alloc, name, keeper)?)?;
    }
    Ok(Sites::new(list)?)
}

/// The server hq with this keeper, of which no transaction is open.
pub fn server_hq(alloc: Global, keeper: MapKeeper) -> Result<Sites<MapKeeper>, Fail> {
    let mut list = List::new(alloc);
    list.push(server_with(alloc, "hq", keeper)?)?;
    Ok(Sites::new(list)?)
}

/// The server hq, which holds nothing.
pub fn empty_server(alloc: Global) -> Result<Sites<MapKeeper>, Fail> {
    server_hq(alloc, MapKeeper::new(alloc))
}

/// The server hq with the same keeper, of which the call of this number fails from now on; 0 is the
/// number of none.
pub fn failing_at(
    alloc: Global,
    sites: Sites<MapKeeper>,
    call: u64,
    takes_place: bool,
) -> Result<Sites<MapKeeper>, Fail> {
    let failure = Failure {
        server: 0,
        call,
        takes_place,
    };
    with_failure(alloc, &["hq"], sites, failure)
}

/// Runs a script at the servers that these words name, and answers what it wrote and its status.
pub fn run_at<K: Keeper>(
    alloc: Global,
    servers: &str,
    sites: &mut Sites<K>,
    script: &[u8],
) -> Result<(BytesSink, Status), AllocError> {
    let words = words_of(alloc, servers)?;
    let mut input = source_of(alloc, script)?;
    let mut output = BytesSink::new(alloc);
    sites.rollback_all();
    let status = session(alloc, words.as_slice(), sites, &mut input, &mut output);
    Ok((output, status))
}

/// Runs a script at hq, and answers what it wrote and its status.
pub fn run(
    alloc: Global,
    sites: &mut Sites<MapKeeper>,
    script: &[u8],
) -> Result<(BytesSink, Status), AllocError> {
    run_at(alloc, "hq=:map:", sites, script)
}

/// Runs a script at hq that ends in Ok and writes this.
pub fn check(
    rt: &impl Abort,
    alloc: Global,
    sites: &mut Sites<MapKeeper>,
    script: &[u8],
    wanted: &[u8],
) -> Result<(), Fail> {
    let (output, status) = run(alloc, sites, script)?;
    assert_eq!(rt; status, Status::Ok);
    assert_eq!(rt; output.bytes(), wanted);
    Ok(())
}
