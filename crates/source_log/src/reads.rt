//! The end of a server's log, and the rows of its source.

ghost use Rattle.std.specs.Prelude.{◌≡◌, ◌<◌, Some, length, OnOk, OnErr, IfOk, IfErr, IfSome};
ghost use Rattle.std.specs.Option.{option_copied, option_map};
ghost use Rattle.row_codec.specs.Spelling.{IsRow};
ghost use Rattle.repl_records.specs.SourceSide.{IsHead};
ghost use Rattle.repl_model.specs.Tables.{key_of as key_of_lem};
ghost use Rattle.repl_model.specs.World.{World, Server, server_in};
ghost use Rattle.keep_core.specs.Contents.{Contents};
ghost use Rattle.site_store.specs.Damage.{IsNoDamage};
ghost use Rattle.site_store.specs.Servers.{AllClosed};
ghost use Rattle.site_store.specs.Views.{names, work, sees};
ghost use Rattle.site_store.specs.one_server.Calls.{Looks, Stops};
ghost use Rattle.world_store.specs.LogRows.{head_of};
ghost use Rattle.source_log.specs.Rules.{EndIs, BreaksFirst};
ghost use Rattle.source_log.specs.Scanning.{IsSeenAs, HasCommitted, IsNextCommitted, ShowsBadRow};

use crate::appending::read_end;
use keep_core::Keeper;
use repl_definitions::DefinedTable;
use repl_records::{Head, SourceRow};
use repl_types::{Fault, Row};
use row_changes::key_of;
use site_store::Sites;
use std::alloc::{AllocError, Global};

/// The end of the log of a server: its last position, its last commit, and the time of that.
///
/// It reads what the server's open transaction sees, and if none is open, what the server holds.
/// After a fault no transaction is open at any server.
pub fn last_commit<K: Keeper>(
    sites: &mut Sites<K>,
    alloc: Global,
    server: u32,
) -> Result<Head, Fault>
    requires { server < length (names sites.old) }
    ensures ok { OnOk result (Looks K.kept sites.old sites.new) }
    ensures end { IfOk result (λ head. IfSome (sees K.kept sites.old server) (EndIs head)) }
    ensures fits { IfOk result IsHead }
    ensures world { IfOk result (λ head. (w : World) → IsSeenAs K.kept sites.old server w
        → head ≡ head_of (server_in w server)) }
    ensures fault { IfErr result (BreaksFirst K.kept sites.old sites.new server) }
    ensures closed { OnErr result (AllClosed (work K.kept sites.new)) }
    ensures undamaged { IfErr result (λ e. (w : World) → IsSeenAs K.kept sites.old server w
        → IsNoDamage e) }
{
    match read_end(sites, alloc, server) {
        Ok(head) => Ok(head),
        Err(e) => {
            sites.rollback_all();
            Err(e)
        }
    }
}

/// The key of a row of a table, if there is a row.
fn key_of_last(
    alloc: Global,
    table: &DefinedTable,
    after: Option<&Row>,
) -> Result<Option<Row>, AllocError>
    ensures { IfOk result (λ key. key
        ≡ option_map (key_of_lem table.now.def) (option_copied after.entry)) }
{
    match after {
        Some(row) => Ok(Some(key_of(alloc, &table.def, row)?)),
        None => Ok(None),
    }
}

/// The row of a table that stands under the first key after that of a row.
fn next_row<K: Keeper>(
    sites: &mut Sites<K>,
    alloc: Global,
    server: u32,
    table: &DefinedTable,
    after: Option<&Row>,
) -> Result<Option<Row>, Fault>
    requires { server < length (names sites.old) }
    ensures ok { OnOk result (Looks K.kept sites.old sites.new) }
    ensures row { IfOk result (λ found. IfSome (sees K.kept sites.old server)
        (IsNextCommitted table.now (option_copied after.entry) found)) }
    ensures fits { IfOk result (λ found. IfSome found IsRow) }
    ensures fault { IfErr result (Stops K.kept sites.old sites.new
        (ShowsBadRow K.kept sites.old server table.now.number)) }
{
    let last = key_of_last(alloc, table, after)?;
    let next = sites.next::<SourceRow>(alloc, server, table.number, last.as_ref())?;
    let Some((_key, stored)) = next else {
        return Ok(None);
    };
    Ok(Some(stored.row))
}

/// The first committed row of a table of the source whose key is after that of a row, or the first
/// of all if there is no such row.
///
/// It reads what the server's open transaction sees, and if none is open, what the server holds.
/// After a fault no transaction is open at any server.
pub fn scan_table<K: Keeper>(
    sites: &mut Sites<K>,
    alloc: Global,
    server: u32,
    table: &DefinedTable,
    after: Option<&Row>,
) -> Result<Option<Row>, Fault>
    requires { server < length (names sites.old) }
    ensures ok { OnOk result (Looks K.kept sites.old sites.new) }
    ensures row { IfOk result (λ found. IfSome (sees K.kept sites.old server)
        (IsNextCommitted table.now (option_copied after.entry) found)) }
    ensures fits { IfOk result (λ found. IfSome found IsRow) }
    ensures fault { IfErr result (Stops K.kept sites.old sites.new
        (ShowsBadRow K.kept sites.old server table.now.number)) }
    ensures closed { OnErr result (AllClosed (work K.kept sites.new)) }
    ensures undamaged { IfErr result (λ e. (s : Server) (c : Contents)
        → sees K.kept sites.old server ≡ Some c → HasCommitted s table.now c → IsNoDamage e) }
{
    match next_row(sites, alloc, server, table, after) {
        Ok(found) => Ok(found),
        Err(e) => {
            sites.rollback_all();
            Err(e)
        }
    }
}
