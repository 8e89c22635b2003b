//! Rows of definitions are put inside an open transaction.

ghost use Rattle.std.specs.Prelude.{◌≡◌, ◌<◌, length, OnOk, IfErr};
ghost use Rattle.std.specs.List.{AllByRecursion};
ghost use Rattle.site_store.specs.Views.{names, work, IsOpenAt};
ghost use Rattle.site_store.specs.Calls.{writes_of_one, AtServer, Fails};
ghost use Rattle.site_store.specs.Records.{NoDamage};
ghost use Rattle.site_store.specs.Steps.{WorksOn};
ghost use Rattle.load_defs.specs.Putting.{MayBePut, MayBePutAll, with_put, with_added};
ghost use Rattle.load_defs.specs.Putting.{added_written};

use crate::rows::AddedRows;
use keep_core::Keeper;
use repl_definitions::{DefinedRegistration, DefinedTable, SourceSet, TargetSet};
use repl_records::{RegState, SyncMark};
use repl_types::Fault;
use row_codec::{Stored, Table0, Table1, Table2, Table3};
use site_store::Sites;
use std::alloc::Global;

/// Puts rows into a table, one after another.
fn put_rows<K: Keeper, R: Stored>(
    sites: &mut Sites<K>,
    alloc: Global,
    server: u32,
    table: R::Table,
    rows: &[(R::Key, R)],
) -> Result<(), Fault>
    requires server { server < length (names sites.old) }
    requires open { IsOpenAt (work K.kept sites.old) server }
    requires rows { AllByRecursion (MayBePut R.Key.storable R.storable) rows.now }
    ensures ok { OnOk result (WorksOn K.kept sites.old sites.new server
        (writes_of_one (length rows.now) server R.AREA)
        (λ c d. d ≡ with_put R.Key.spelling R.spelling R.AREA (R.Table.number table) rows.now
        c)) }
    ensures fault { IfErr result (Fails K.kept sites.old sites.new
        (writes_of_one (length rows.now) server R.AREA) (AtServer server NoDamage)) }
{
    'rows: for (key, row) in rows {
        sites.put::<R>(alloc, server, table, key, row)?;
    }
    Ok(())
}

/// Puts all rows that a load puts at a server.
pub fn put_added<K: Keeper>(
    sites: &mut Sites<K>,
    alloc: Global,
    server: u32,
    rows: &AddedRows,
) -> Result<(), Fault>
    requires server { server < length (names sites.old) }
    requires open { IsOpenAt (work K.kept sites.old) server }
    requires rows { MayBePutAll rows.now }
    ensures ok { OnOk result (WorksOn K.kept sites.old sites.new server
        (added_written server rows.now) (λ c d. d ≡ with_added rows.now c)) }
    ensures fault { IfErr result (Fails K.kept sites.old sites.new
        (added_written server rows.now) (AtServer server NoDamage)) }
{
    put_rows::<K, DefinedTable>(sites, alloc, server, Table0, rows.tables.as_slice())?;
    put_rows::<K, DefinedRegistration>(
        sites,
        alloc,
        server,
        Table1,
        rows.registrations.as_slice(),
    )?;
    put_rows::<K, RegState>(sites, alloc, server, Table1, rows.states.as_slice())?;
    put_rows::<K, SourceSet>(sites, alloc, server, Table2, rows.sources.as_slice())?;
    put_rows::<K, SyncMark>(sites, alloc, server, Table0, rows.marks.as_slice())?;
    put_rows::<K, TargetSet>(sites, alloc, server, Table3, rows.targets.as_slice())
}
