//! All records of a table are read.

ghost use Rattle.std.specs.Prelude.{◌≡◌, ◌<◌, ◌≤◌, length, OnOk, IfOk, IfErr, IfSome};
ghost use Rattle.std.specs.List.{AllByRecursion};
ghost use Rattle.site_store.specs.Servers.{AllClosed};
ghost use Rattle.site_store.specs.Views.{names, work, sees};
ghost use Rattle.site_store.specs.Calls.{reads_of_one, Stays, Fails};
ghost use Rattle.site_store.specs.Damage.{Damages};
ghost use Rattle.stored_defs.specs.Reading.{HasRecords, AllStand, table_rules};
ghost use Rattle.world_store.specs.SpelledRows.{definition_limit};

use keep_core::Keeper;
use repl_types::{Fault, List};
use row_codec::Stored;
use site_store::Sites;
use std::alloc::Global;

/// The most rows of a table of definitions: a server has at most this many tables, and sets at each
/// side.
const DEFINITION_LIMIT: usize = 256;

/// The records of a table of definitions, in the order of their keys. No more than 256 are read: a
/// server that stands for a world has no more.
pub fn read_records<K: Keeper, R: Stored>(
    sites: &mut Sites<K>,
    alloc: Global,
    server: u32,
    table: R::Table,
) -> Result<List<R>, Fault>
    requires server { server < length (names sites.old) }
    requires closed { AllClosed (work K.kept sites.old) }
    ensures ok { OnOk result (Stays K.kept sites.old sites.new
        (reads_of_one definition_limit server R.AREA)) }
    ensures records { IfOk result (λ records. IfSome (sees K.kept sites.old server)
        (HasRecords R.Key.fits R.Key.spelling R.fits R.spelling R.AREA (R.Table.number table)
        records)) }
    ensures stand { IfOk result (λ records. IfSome (sees K.kept sites.old server)
        (AllStand R.spelling R.AREA (R.Table.number table) records)) }
    ensures fit { IfOk result (λ records. AllByRecursion R.fits records) }
    ensures few { IfOk result (λ records. length records ≤ definition_limit) }
    ensures fault { let rules = table_rules R.Key.fits R.Key.spelling R.fits R.spelling R.AREA
        (R.Table.number table) in
        IfErr result (Fails K.kept sites.old sites.new (reads_of_one definition_limit server R.AREA)
        (Damages (λ s. s ≡ server) rules K.kept sites.old)) }
{
    let mut records = List::new(alloc);
    let mut last = None;
    for _read in 0..DEFINITION_LIMIT {
        let row = sites.next::<R>(alloc, server, table, last.as_ref())?;
        let Some((key, record)) = row else {
            return Ok(records);
        };
        records.push(record)?;
        last = Some(key);
    }
    Ok(records)
}
