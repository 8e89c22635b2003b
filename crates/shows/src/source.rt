//! The rows of a table of the source, and the log.

ghost use Rattle.std.specs.Prelude.{◌≡◌, ◌<◌, ◌≤◌, false, is_some, length};
ghost use Rattle.std.specs.Prelude.{OnOk, OnErr, IfOk, IfErr};
ghost use Rattle.keep_core.specs.Revealed.{Takes, TakesPrefix};
ghost use Rattle.repl_model.specs.World.{World, server_table, server_in};
ghost use Rattle.site_store.specs.Servers.{AllClosed};
ghost use Rattle.site_store.specs.Views.{names, held, work};
ghost use Rattle.site_store.specs.Calls.{Stays};
ghost use Rattle.world_store.specs.Stands.{Stands};
ghost use Rattle.shows.specs.servers.Showing.{IsUndamagedShow};
ghost use Rattle.shows.specs.tables.Replies.{table_reply, log_text};
ghost use Rattle.shows.specs.tables.Rules.{source_reads, log_reads, ShowsDamage};
ghost use Rattle.shows.specs.tables.Showing.{FailsShowing};

use crate::records::show_records;
use keep_core::{Keeper, Sink};
use repl_definitions::DefinedTable;
use repl_records::SourceRow;
use repl_types::{LogRecord, Name, ShowError};
use row_codec::Table0;
use site_store::Sites;
use std::alloc::Global;

/// Writes the reply of `show S source T`: a line for each committed row of the table of a name, in
/// the order of the rows' keys, and the line that says how many they are. Answers whether there is
/// such a table; if there is none, nothing is written.
pub fn show_source<K: Keeper, O: Sink>(
    sites: &mut Sites<K>,
    alloc: Global,
    output: &mut O,
    server: u32,
    table: &Name,
) -> Result<bool, ShowError>
    requires server { server < length (names sites.old) }
    requires closed { AllClosed (work K.kept sites.old) }
    ensures stays { OnOk result (Stays K.kept sites.old sites.new (source_reads server)) }
    ensures ok { OnOk result ((world : World)
        → Stands (names sites.old) (held K.kept sites.old) world
        → Takes (O.taken output.old) (O.taken output.new)
        (table_reply table.now (server_in world server))) }
    ensures found { IfOk result (λ found. (world : World)
        → Stands (names sites.old) (held K.kept sites.old) world
        → found ≡ is_some (server_table table.now (server_in world server))) }
    ensures unwritten { IfOk result (λ found. found ≡ false → output.new ≡ output.old) }
    ensures err { OnErr result ((world : World)
        → Stands (names sites.old) (held K.kept sites.old) world
        → TakesPrefix (O.taken output.old) (O.taken output.new)
        (table_reply table.now (server_in world server))) }
    ensures fault { IfErr result (FailsShowing K.kept sites.old sites.new (source_reads server)
        (ShowsDamage K.kept sites.old) (O.faults output.old) (O.faults output.new)) }
    ensures undamaged { IfErr result (λ e. (world : World)
        → Stands (names sites.old) (held K.kept sites.old) world → IsUndamagedShow e) }
    ensures counts { O.faults output.old ≤ O.faults output.new }
{
    let Some(defined) = sites.get::<DefinedTable>(alloc, server, Table0, table)? else {
        return Ok(false);
    };
    show_records::<K, O, SourceRow>(sites, alloc, output, server, defined.number)?;
    Ok(true)
}

/// Writes the reply of `show S log`: a line for each record of the log, in the order of the
/// positions, and the line that says how many they are.
pub fn show_log<K: Keeper, O: Sink>(
    sites: &mut Sites<K>,
    alloc: Global,
    output: &mut O,
    server: u32,
) -> Result<(), ShowError>
    requires server { server < length (names sites.old) }
    requires closed { AllClosed (work K.kept sites.old) }
    ensures stays { OnOk result (Stays K.kept sites.old sites.new (log_reads server)) }
    ensures ok { OnOk result ((world : World)
        → Stands (names sites.old) (held K.kept sites.old) world
        → Takes (O.taken output.old) (O.taken output.new) (log_text (server_in world server))) }
    ensures err { OnErr result ((world : World)
        → Stands (names sites.old) (held K.kept sites.old) world
        → TakesPrefix (O.taken output.old) (O.taken output.new)
        (log_text (server_in world server))) }
    ensures fault { IfErr result (FailsShowing K.kept sites.old sites.new (log_reads server)
        (ShowsDamage K.kept sites.old) (O.faults output.old) (O.faults output.new)) }
    ensures undamaged { IfErr result (λ e. (world : World)
        → Stands (names sites.old) (held K.kept sites.old) world → IsUndamagedShow e) }
    ensures counts { O.faults output.old ≤ O.faults output.new }
{
    show_records::<K, O, LogRecord>(sites, alloc, output, server, Table0)?;
    Ok(())
}
