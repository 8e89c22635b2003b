//! The records of a table are shown, one after another.

ghost use Rattle.std.specs.Prelude.{◌≡◌, ◌<◌, ◌≤◌, length, OnOk, OnErr, IfErr, IfSome};
ghost use Rattle.keep_core.specs.Revealed.{count_max};
ghost use Rattle.site_store.specs.Servers.{AllClosed};
ghost use Rattle.site_store.specs.Views.{names, work, sees};
ghost use Rattle.site_store.specs.Calls.{reads_of_one, Stays};
ghost use Rattle.site_store.specs.Damage.{Damages};
ghost use Rattle.stored_defs.specs.Reading.{table_rules};
ghost use Rattle.shows.specs.tables.Records.{TakesRows, TakesSomeRows};
ghost use Rattle.shows.specs.tables.Showing.{FailsShowing};

use crate::output::{show_count, show_record};
use crate::shown::ShownRecord;
use keep_core::{Keeper, Sink};
use repl_types::ShowError;
use site_store::Sites;
use std::alloc::Global;

/// Writes a line for each record of a table, in the order of their keys, and then how many they
/// are.
pub fn show_records<K: Keeper, O: Sink, R: ShownRecord>(
    sites: &mut Sites<K>,
    alloc: Global,
    output: &mut O,
    server: u32,
    table: R::Table,
) -> Result<(), ShowError>
    requires server { server < length (names sites.old) }
    requires closed { AllClosed (work K.kept sites.old) }
    ensures stays { OnOk result (Stays K.kept sites.old sites.new
        (reads_of_one count_max server R.AREA)) }
    ensures ok { OnOk result (IfSome (sees K.kept sites.old server)
        (TakesRows R.Key.fits R.Key.spelling R.fits R.spelling R.line R.AREA (R.Table.number table)
        (O.taken output.old) (O.taken output.new))) }
    ensures err { OnErr result (IfSome (sees K.kept sites.old server)
        (TakesSomeRows R.Key.fits R.Key.spelling R.fits R.spelling R.line R.AREA
        (R.Table.number table) (O.taken output.old) (O.taken output.new))) }
    ensures fault { let rules = table_rules R.Key.fits R.Key.spelling R.fits R.spelling R.AREA
        (R.Table.number table) in
        IfErr result (FailsShowing K.kept sites.old sites.new (reads_of_one count_max server R.AREA)
        (Damages (λ s. s ≡ server) rules K.kept sites.old)
        (O.faults output.old) (O.faults output.new)) }
    ensures counts { O.faults output.old ≤ O.faults output.new }
{
    let mut line = Vec::new(alloc);
    let mut last = None;
    for shown in 0..u64::MAX {
        let Some((key, record)) = sites.next::<R>(alloc, server, table, last.as_ref())? else {
            show_count(output, shown, &mut line)?;
            return Ok(());
        };
        show_record(output, &key, record, &mut line)?;
        last = Some(key);
    }
    show_count(output, u64::MAX, &mut line)?;
    Ok(())
}
