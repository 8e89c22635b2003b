//! What was captured of the source: change rows, and units.

ghost use Rattle.std.specs.Prelude.{◌≡◌, ◌<◌, ◌≤◌, false, is_some, length};
ghost use Rattle.std.specs.Prelude.{OnOk, OnErr, IfOk, IfErr};
ghost use Rattle.keep_core.specs.Revealed.{Takes, TakesPrefix};
ghost use Rattle.repl_model.specs.World.{World, server_in};
ghost use Rattle.site_store.specs.Servers.{AllClosed};
ghost use Rattle.site_store.specs.Views.{names, held, work};
ghost use Rattle.site_store.specs.Calls.{Stays};
ghost use Rattle.world_store.specs.Stands.{Stands};
ghost use Rattle.shows.specs.servers.Showing.{IsUndamagedShow};
ghost use Rattle.shows.specs.tables.Replies.{change_reply, registered_named, unit_text};
ghost use Rattle.shows.specs.tables.Rules.{change_reads, unit_reads, ShowsDamage};
ghost use Rattle.shows.specs.tables.Showing.{FailsShowing};

use crate::records::show_records;
use keep_core::{Keeper, Sink};
use repl_definitions::DefinedRegistration;
use repl_records::{ChangeRow, UowRow};
use repl_types::{Name, ShowError};
use row_codec::{Table0, Table1};
use site_store::Sites;
use std::alloc::Global;

/// Writes the reply of `show S cd T`: a line for each change row of the registration of the table
/// of a name, in the order of units and of places in the log, and the line that says how many they
/// are. Answers whether the table is registered; if it isn't, nothing is written.
pub fn show_changes<K: Keeper, O: Sink>(
    sites: &mut Sites<K>,
    alloc: Global,
    output: &mut O,
    server: u32,
    table: &Name,
) -> Result<bool, ShowError>
    requires server { server < length (names sites.old) }
    requires closed { AllClosed (work K.kept sites.old) }
    ensures stays { OnOk result (Stays K.kept sites.old sites.new (change_reads server)) }
    ensures ok { OnOk result ((world : World)
        → Stands (names sites.old) (held K.kept sites.old) world
        → Takes (O.taken output.old) (O.taken output.new)
        (change_reply table.now (server_in world server))) }
    ensures found { IfOk result (λ found. (world : World)
        → Stands (names sites.old) (held K.kept sites.old) world
        → found ≡ is_some (registered_named table.now (server_in world server))) }
    ensures unwritten { IfOk result (λ found. found ≡ false → output.new ≡ output.old) }
    ensures err { OnErr result ((world : World)
        → Stands (names sites.old) (held K.kept sites.old) world
        → TakesPrefix (O.taken output.old) (O.taken output.new)
        (change_reply table.now (server_in world server))) }
    ensures fault { IfErr result (FailsShowing K.kept sites.old sites.new (change_reads server)
        (ShowsDamage K.kept sites.old) (O.faults output.old) (O.faults output.new)) }
    ensures undamaged { IfErr result (λ e. (world : World)
        → Stands (names sites.old) (held K.kept sites.old) world → IsUndamagedShow e) }
    ensures counts { O.faults output.old ≤ O.faults output.new }
{
    let Some(defined) = sites.get::<DefinedRegistration>(alloc, server, Table1, table)? else {
        return Ok(false);
    };
    show_records::<K, O, ChangeRow>(sites, alloc, output, server, defined.number)?;
    Ok(true)
}

/// Writes the reply of `show S uow`: a line for each unit that is captured and isn't pruned, in the
/// order of the units, and the line that says how many they are.
pub fn show_units<K: Keeper, O: Sink>(
    sites: &mut Sites<K>,
    alloc: Global,
    output: &mut O,
    server: u32,
) -> Result<(), ShowError>
    requires server { server < length (names sites.old) }
    requires closed { AllClosed (work K.kept sites.old) }
    ensures stays { OnOk result (Stays K.kept sites.old sites.new (unit_reads server)) }
    ensures ok { OnOk result ((world : World)
        → Stands (names sites.old) (held K.kept sites.old) world
        → Takes (O.taken output.old) (O.taken output.new) (unit_text (server_in world server))) }
    ensures err { OnErr result ((world : World)
        → Stands (names sites.old) (held K.kept sites.old) world
        → TakesPrefix (O.taken output.old) (O.taken output.new)
        (unit_text (server_in world server))) }
    ensures fault { IfErr result (FailsShowing K.kept sites.old sites.new (unit_reads server)
        (ShowsDamage K.kept sites.old) (O.faults output.old) (O.faults output.new)) }
    ensures undamaged { IfErr result (λ e. (world : World)
        → Stands (names sites.old) (held K.kept sites.old) world → IsUndamagedShow e) }
    ensures counts { O.faults output.old ≤ O.faults output.new }
{
    show_records::<K, O, UowRow>(sites, alloc, output, server, Table0)?;
    Ok(())
}
