//! The command `status` of a server, as a part of a run.
//!
//! `specs/StatusEvents.antt` says which lines it writes in a world. It stands on `shows`, which
//! writes them, and on `parts`, which has the words of its contract. `session_core` carries out
//! commands by it.
//!
//! For example, at the name of no server the line `refused 6 NoSuchServer zz` is written.

ghost use Rattle.site_store.specs.Servers.{AllClosed};
ghost use Rattle.site_store.specs.Views.{work};
ghost use Rattle.run_commands.specs.status.StatusEvents.{status_events};
ghost use Rattle.run_commands.specs.parts.Parts.{IsPart};

use crate::parts::{RunError, error_of_reply, refuse};
use keep_core::{Keeper, Sink};
use repl_types::{Name, Refusal};
use shows::show_server;
use site_store::Sites;
use std::alloc::Global;

/// Writes how far the server of a name is, and says whether the name was refused, as that of no
/// server. Nothing is changed.
pub fn show_status<K: Keeper, O: Sink>(
    alloc: Global,
    sites: &mut Sites<K>,
    output: &mut O,
    name: Name,
) -> Result<bool, RunError>
    requires { AllClosed (work K.kept sites.old) }
    ensures { IsPart K.kept O.taken O.faults sites.old sites.new output.old output.new
        (status_events name) (λ refused. refused) result }
{
    let Some(server) = sites.find(&name) else {
        return refuse(alloc, output, &Refusal::NoSuchServer(name));
    };
    match show_server(sites, alloc, output, server) {
        Ok(()) => Ok(false),
        Err(error) => Err(error_of_reply(error)),
    }
}
