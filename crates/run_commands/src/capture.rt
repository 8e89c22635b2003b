//! The command `capture`, as a part of a run.
//!
//! `specs/CaptureEvents.antt` says what is committed and written in a world. It stands on
//! `capture_core`, which captures units of a server's log, and on `parts`, which has the words
//! of its contract. `session_core` carries out commands by it.
//!
//! For example, the log of `hq` has commits at 3 and 5, 3 is captured, and the unit of 5 gives one
//! change row. Then `capture hq` commits once and writes
//! `ok captured 00000000000000050000 units 1 rows 1`.

ghost use Rattle.std.specs.Prelude.{◌≡◌, false};
ghost use Rattle.site_store.specs.Servers.{AllClosed};
ghost use Rattle.site_store.specs.Views.{work};
ghost use Rattle.run_commands.specs.capture.CaptureEvents.{capture_events, counts_line};
ghost use Rattle.run_commands.specs.capture.CaptureEvents.{units_per_commit as units_per_commit_lem};
ghost use Rattle.run_commands.specs.parts.Parts.{IsPart, WritesLine};

use crate::parts::{RunError, error_of_fault, refuse, reply};
use capture_core::{Captured, capture};
use keep_core::{Keeper, Sink};
use repl_types::{Name, Refusal};
use reply_text::Reply;
use site_store::Sites;
use std::alloc::Global;

/// How many units are committed together, if the command doesn't say.
const UNITS_PER_COMMIT: u32 = 100;

/// How many units are committed together.
fn units_per_commit(every: Option<u32>) -> u32
    ensures { result ≡ units_per_commit_lem every }
{
    every.unwrap_or(UNITS_PER_COMMIT).max(1)
}

/// Writes the line that says how far a server is captured. After an error a prefix of it was taken.
fn write_counts<O: Sink>(
    alloc: Global,
    output: &mut O,
    captured: Captured,
) -> Result<bool, RunError>
    ensures { WritesLine O.taken O.faults output.old output.new (counts_line captured) false result }
{
    let counts = Reply::Captured {
        captured: captured.upto,
        units: captured.units,
        rows: captured.rows,
    };
    reply(alloc, output, &counts)?;
    Ok(false)
}

/// Captures the units of the log of the server of a name that aren't captured, or the first `units`
/// of them, with a commit after each `every` units and after the last one, and writes how far the
/// server is captured then and what was written. If `every` is left out, it is 100, and 0 is taken
/// as 1. Says whether the name was refused, as that of no server.
pub fn capture_server<K: Keeper, O: Sink>(
    alloc: Global,
    sites: &mut Sites<K>,
    output: &mut O,
    name: Name,
    units: Option<u32>,
    every: Option<u32>,
) -> Result<bool, RunError>
    requires { AllClosed (work K.kept sites.old) }
    ensures { IsPart K.kept O.taken O.faults sites.old sites.new output.old output.new
        (capture_events name units every) (λ refused. refused) result }
{
    let Some(server) = sites.find(&name) else {
        return refuse(alloc, output, &Refusal::NoSuchServer(name));
    };
    match capture(sites, alloc, server, units, units_per_commit(every)) {
        Ok(captured) => write_counts(alloc, output, captured),
        Err(fault) => Err(error_of_fault(fault)),
    }
}
