//! The lines of the sets whose source a server is.

ghost use Rattle.std.specs.Prelude.{◌≡◌, ◌<◌, ◌++◌, ◌==◌, ◌*◌, length, map, find, option_map};
ghost use Rattle.std.specs.Prelude.{OnOk, IfErr, IfSome};
ghost use Rattle.std.specs.List.{flat_map};
ghost use Rattle.repl_types.specs.declared.area.Area.TheVariants as areas;
ghost use Rattle.repl_definitions.specs.Sets.{source_set_spelling};
ghost use Rattle.repl_model.specs.World.{World, server_in};
ghost use Rattle.site_store.specs.Servers.{AllClosed};
ghost use Rattle.site_store.specs.Views.{names, held, work, sees};
ghost use Rattle.site_store.specs.Calls.{Stays, Fails};
ghost use Rattle.world_store.specs.Stands.{Stands};
ghost use Rattle.world_store.specs.DefinitionRows.{source_set_rows};
ghost use Rattle.stored_defs.specs.Reading.{AllStand};
ghost use Rattle.world_store.specs.SpelledRows.{definition_limit};
ghost use Rattle.shows.specs.servers.Status.{set_text, text_at};
ghost use Rattle.shows.specs.servers.Rules.{reads_at, ShowsDamage};

use crate::show::NUMBER_LIMIT;
use keep_core::Keeper;
use repl_definitions::SourceSet;
use repl_records::SyncMark;
use repl_types::Fault;
use reply_text::write_source_set;
use row_codec::{Table0, Table2};
use site_store::Sites;
use std::alloc::Global;
use stored_defs::read_records;

/// The set with a number.
fn find_set(rows: &[SourceSet], number: u32) -> Option<&SourceSet>
    ensures { option_map (λ row. row.now) result ≡ find (λ row. row.number == number) rows.now }
{
    rows.iter().find(|row| row.number == number)
}

/// Appends the line of the set with a number, if there is one.
fn add_set<K: Keeper>(
    sites: &mut Sites<K>,
    alloc: Global,
    server: u32,
    rows: &[SourceSet],
    number: u32,
    text: &mut Vec<u8>,
) -> Result<(), Fault>
    requires server { server < length (names sites.old) }
    requires closed { AllClosed (work K.kept sites.old) }
    requires stand { IfSome (sees K.kept sites.old server)
        (AllStand source_set_spelling areas.Defs 2 rows.now) }
    ensures ok { OnOk result (Stays K.kept sites.old sites.new (reads_at 1 server)) }
    ensures added { OnOk result ((world : World)
        → Stands (names sites.old) (held K.kept sites.old) world
        → rows.now ≡ map (λ row. row.1) (source_set_rows (server_in world server))
        → text.new.items ≡ text.old.items
        ++ text_at set_text (server_in world server).source_sets number) }
    ensures fault { IfErr result (Fails K.kept sites.old sites.new (reads_at 1 server)
        (ShowsDamage K.kept sites.old)) }
{
    let Some(row) = find_set(rows, number) else {
        return Ok(());
    };
    let known = sites.get_needed::<SyncMark>(alloc, server, Table0, &number)?;
    write_source_set(&row.def.id, &known, text)?;
    Ok(())
}

/// Appends the lines of all sets whose source the server is, in order.
pub fn add_sets<K: Keeper>(
    sites: &mut Sites<K>,
    alloc: Global,
    server: u32,
    text: &mut Vec<u8>,
) -> Result<(), Fault>
    requires server { server < length (names sites.old) }
    requires closed { AllClosed (work K.kept sites.old) }
    ensures ok { OnOk result (Stays K.kept sites.old sites.new
        (reads_at (2 * definition_limit) server)) }
    ensures added { OnOk result ((world : World)
        → Stands (names sites.old) (held K.kept sites.old) world
        → text.new.items ≡ text.old.items
        ++ flat_map set_text (server_in world server).source_sets) }
    ensures fault { IfErr result (Fails K.kept sites.old sites.new
        (reads_at (2 * definition_limit) server) (ShowsDamage K.kept sites.old)) }
{
    let rows = read_records::<K, SourceSet>(sites, alloc, server, Table2)?;
    for number in 0..NUMBER_LIMIT {
        add_set(sites, alloc, server, rows.as_slice(), number, text)?;
    }
    Ok(())
}
