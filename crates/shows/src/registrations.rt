//! The lines of the registrations of a server.

ghost use Rattle.std.specs.Prelude.{◌≡◌, ◌<◌, ◌++◌, ◌==◌, ◌*◌, length, map, find, option_map};
ghost use Rattle.std.specs.Prelude.{OnOk, IfErr, IfSome};
ghost use Rattle.std.specs.List.{flat_map};
ghost use Rattle.repl_types.specs.declared.area.Area.TheVariants as areas;
ghost use Rattle.repl_definitions.specs.Defined.{defined_registration_spelling};
ghost use Rattle.repl_model.specs.World.{World, server_in};
ghost use Rattle.site_store.specs.Servers.{AllClosed};
ghost use Rattle.site_store.specs.Views.{names, held, work, sees};
ghost use Rattle.site_store.specs.Calls.{Stays, Fails};
ghost use Rattle.world_store.specs.Stands.{Stands};
ghost use Rattle.world_store.specs.DefinitionRows.{registration_rows};
ghost use Rattle.stored_defs.specs.Reading.{AllStand};
ghost use Rattle.world_store.specs.SpelledRows.{definition_limit};
ghost use Rattle.shows.specs.servers.Status.{registration_text, text_at};
ghost use Rattle.shows.specs.servers.Rules.{reads_at, ShowsDamage};

use crate::show::NUMBER_LIMIT;
use keep_core::Keeper;
use repl_definitions::DefinedRegistration;
use repl_records::RegState;
use repl_types::Fault;
use reply_text::write_registration;
use row_codec::Table1;
use site_store::Sites;
use std::alloc::Global;
use stored_defs::read_records;

/// The registration with a number.
fn find_registration(rows: &[DefinedRegistration], number: u32) -> Option<&DefinedRegistration>
    ensures { option_map (λ row. row.now) result ≡ find (λ row. row.number == number) rows.now }
{
    rows.iter().find(|row| row.number == number)
}

/// Appends the line of the registration with a number, if there is one.
fn add_registration<K: Keeper>(
    sites: &mut Sites<K>,
    alloc: Global,
    server: u32,
    rows: &[DefinedRegistration],
    number: u32,
    text: &mut Vec<u8>,
) -> Result<(), Fault>
    requires server { server < length (names sites.old) }
    requires closed { AllClosed (work K.kept sites.old) }
    requires stand { IfSome (sees K.kept sites.old server)
        (AllStand defined_registration_spelling areas.Defs 1 rows.now) }
    ensures ok { OnOk result (Stays K.kept sites.old sites.new (reads_at 1 server)) }
    ensures added { OnOk result ((world : World)
        → Stands (names sites.old) (held K.kept sites.old) world
        → rows.now ≡ map (λ row. row.1) (registration_rows (server_in world server))
        → text.new.items ≡ text.old.items
        ++ text_at registration_text (server_in world server).tables number) }
    ensures fault { IfErr result (Fails K.kept sites.old sites.new (reads_at 1 server)
        (ShowsDamage K.kept sites.old)) }
{
    let Some(row) = find_registration(rows, number) else {
        return Ok(());
    };
    let state = sites.get_needed::<RegState>(alloc, server, Table1, &number)?;
    write_registration(&row.registration.table, &state, text)?;
    Ok(())
}

/// Appends the lines of all registrations, in the order of the tables.
pub fn add_registrations<K: Keeper>(
    sites: &mut Sites<K>,
    alloc: Global,
    server: u32,
    text: &mut Vec<u8>,
) -> Result<(), Fault>
    requires server { server < length (names sites.old) }
    requires closed { AllClosed (work K.kept sites.old) }
    ensures ok { OnOk result (Stays K.kept sites.old sites.new
        (reads_at (2 * definition_limit) server)) }
    ensures added { OnOk result ((world : World)
        → Stands (names sites.old) (held K.kept sites.old) world
        → text.new.items ≡ text.old.items
        ++ flat_map registration_text (server_in world server).tables) }
    ensures fault { IfErr result (Fails K.kept sites.old sites.new
        (reads_at (2 * definition_limit) server) (ShowsDamage K.kept sites.old)) }
{
    let rows = read_records::<K, DefinedRegistration>(sites, alloc, server, Table1)?;
    for number in 0..NUMBER_LIMIT {
        add_registration(sites, alloc, server, rows.as_slice(), number, text)?;
    }
    Ok(())
}
