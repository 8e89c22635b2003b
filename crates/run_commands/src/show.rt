//! The commands `show S source T`, `show S log`, `show S cd T` and `show S uow`, as parts of a
//! run.
//!
//! `specs/ShowEvents.antt` says which lines they write in a world. It stands on `shows`, which
//! writes them, and on `parts`, which has the words of its contracts. `session_core` carries out
//! these commands by it.
//!
//! For example, at a table that isn't defined the line `refused 7 NoSuchTable hq.nope` is written.

ghost use Rattle.site_store.specs.Servers.{AllClosed};
ghost use Rattle.site_store.specs.Views.{work};
ghost use Rattle.run_commands.specs.show.ShowEvents.{source_events, log_events};
ghost use Rattle.run_commands.specs.show.ShowEvents.{changes_events, units_events};
ghost use Rattle.run_commands.specs.parts.Parts.{IsPart};

use crate::parts::{RunError, error_of_reply, refuse};
use keep_core::{Keeper, Sink};
use repl_types::{Name, Refusal};
use shows::{show_changes, show_log, show_source, show_units};
use site_store::Sites;
use std::alloc::Global;

/// Writes the committed rows of the table of a name at the server of a name, and says whether the
/// one or the other was refused, as that of no server or of no table. Nothing is changed.
pub fn show_source_rows<K: Keeper, O: Sink>(
    alloc: Global,
    sites: &mut Sites<K>,
    output: &mut O,
    name: Name,
    table: Name,
) -> Result<bool, RunError>
    requires { AllClosed (work K.kept sites.old) }
    ensures { IsPart K.kept O.taken O.faults sites.old sites.new output.old output.new
        (source_events name table) (λ refused. refused) result }
{
    let Some(server) = sites.find(&name) else {
        return refuse(alloc, output, &Refusal::NoSuchServer(name));
    };
    let found = match show_source(sites, alloc, output, server, &table) {
        Ok(found) => found,
        Err(error) => return Err(error_of_reply(error)),
    };
    if found {
        return Ok(false);
    }
    let refusal = Refusal::NoSuchTable {
        server: name,
        table,
    };
    refuse(alloc, output, &refusal)
}

/// Writes the log of the server of a name, and says whether the name was refused, as that of no
/// server. Nothing is changed.
pub fn show_log_records<K: Keeper, O: Sink>(
    alloc: Global,
    sites: &mut Sites<K>,
    output: &mut O,
    name: Name,
) -> Result<bool, RunError>
    requires { AllClosed (work K.kept sites.old) }
    ensures { IsPart K.kept O.taken O.faults sites.old sites.new output.old output.new (log_events
        name) (λ refused. refused) result }
{
    let Some(server) = sites.find(&name) else {
        return refuse(alloc, output, &Refusal::NoSuchServer(name));
    };
    match show_log(sites, alloc, output, server) {
        Ok(()) => Ok(false),
        Err(error) => Err(error_of_reply(error)),
    }
}

/// Writes the change rows of the table of a name at the server of a name, and says whether the one
/// or the other was refused, as that of no server or of no registered table. Nothing is changed.
pub fn show_change_rows<K: Keeper, O: Sink>(
    alloc: Global,
    sites: &mut Sites<K>,
    output: &mut O,
    name: Name,
    table: Name,
) -> Result<bool, RunError>
    requires { AllClosed (work K.kept sites.old) }
    ensures { IsPart K.kept O.taken O.faults sites.old sites.new output.old output.new
        (changes_events name table) (λ refused. refused) result }
{
    let Some(server) = sites.find(&name) else {
        return refuse(alloc, output, &Refusal::NoSuchServer(name));
    };
    let registered = match show_changes(sites, alloc, output, server, &table) {
        Ok(registered) => registered,
        Err(error) => return Err(error_of_reply(error)),
    };
    if registered {
        return Ok(false);
    }
    let refusal = Refusal::NoSuchTable {
        server: name,
        table,
    };
    refuse(alloc, output, &refusal)
}

/// Writes the captured units of the server of a name, and says whether the name was refused, as
/// that of no server. Nothing is changed.
pub fn show_unit_rows<K: Keeper, O: Sink>(
    alloc: Global,
    sites: &mut Sites<K>,
    output: &mut O,
    name: Name,
) -> Result<bool, RunError>
    requires { AllClosed (work K.kept sites.old) }
    ensures { IsPart K.kept O.taken O.faults sites.old sites.new output.old output.new (units_events
        name) (λ refused. refused) result }
{
    let Some(server) = sites.find(&name) else {
        return refuse(alloc, output, &Refusal::NoSuchServer(name));
    };
    match show_units(sites, alloc, output, server) {
        Ok(()) => Ok(false),
        Err(error) => Err(error_of_reply(error)),
    }
}
