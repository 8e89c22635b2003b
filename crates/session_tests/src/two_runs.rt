//! Two runs over the same servers: the second begins with what the first left.

ghost use Rattle.std.specs.Prelude.{◌≡◌, map, string_bytes};
ghost use Rattle.repl_model.specs.World.{World};
ghost use Rattle.run_words.specs.declared.opening.Opening.{Opening};
ghost use Rattle.session_core.specs.Inputs.{OfInput};
ghost use Rattle.session_core.specs.Session.{Asks, run_events};
ghost use Rattle.session_tests.specs.TwoRuns.{GoesOnFrom};
ghost use Rattle.site_store.specs.Calls.{KeepsServers};
ghost use Rattle.site_store.specs.Servers.{AllClosed};
ghost use Rattle.site_store.specs.Views.{names, held, work};
ghost use Rattle.world_store.specs.Stands.{Stands};

use crate::runs::{NONE, new_servers, source_of, words_of};
use keep_core::{Keeper, Sink, Source};
use keep_map::BytesSink;
use repl_types::Status;
use session_core::session;
use site_store::Sites;
use std::alloc::Global;
use std::test::Fail;

/// Runs what the words ask for with one input and then with another, at the same servers, and
/// answers both statuses. However the first run ended, the second went on from a world that the
/// events of the first had reached.
fn run_twice<K: Keeper, I: Source, O: Sink>(
    alloc: Global,
    words: &[String],
    sites: &mut Sites<K>,
    first: &mut I,
    second: &mut I,
    output: &mut O,
) -> (Status, Status)
    requires { AllClosed (work K.kept sites.old) }
    ensures goes_on { (opening : Opening) (w : World)
        → Asks (map string_bytes words.now) (names sites.old) opening
        → Stands (names sites.old) (held K.kept sites.old) w
        → OfInput (I.left first.old) (λ bytes. OfInput (I.left second.old) (λ later. GoesOnFrom
        (Stands (names sites.old)) (run_events opening bytes w) (run_events opening later) w
        (held K.kept sites.new))) }
    ensures servers { KeepsServers K.kept sites.old sites.new }
{
    let one = session(alloc, words, sites, first, output);
    let two = session(alloc, words, sites, second, output);
    (one, two)
}

/// The first run ends in the middle of a transaction, which the second commits.
const FIRST: &[u8] = b"load
|[[table]]
|server = 'hq'
|name = 'orders'
|columns = ['id int', 'qty int']
|key = ['id']
feed hq
|insert 1 orders 1 20
";

const SECOND: &[u8] = b"feed hq
|commit 1 ann 100
show hq source orders
";

/// What both write.
const WRITTEN: &[u8] = b"ok loaded tables 1 registrations 0 sets 0
ok fed 1 last 00000000000000010000
ok fed 1 last 00000000000000020000
row 1 20
ok rows 1
";

#[test]
fn a_second_run_goes_on_where_the_first_ended(rt: HostRuntime) -> Result<(), Fail> {
    let alloc = rt.alloc();
    let words = words_of(alloc, "hq=:map:")?;
    let mut sites = new_servers(alloc, &["hq"], NONE)?;
    sites.rollback_all();
    let mut first = source_of(alloc, FIRST)?;
    let mut second = source_of(alloc, SECOND)?;
    let mut output = BytesSink::new(alloc);
    let statuses = run_twice(
        alloc,
        words.as_slice(),
        &mut sites,
        &mut first,
        &mut second,
        &mut output,
    );
    assert_eq!(rt; statuses, (Status::Ok, Status::Ok));
    assert_eq!(rt; output.bytes(), WRITTEN);
    Ok(())
}
