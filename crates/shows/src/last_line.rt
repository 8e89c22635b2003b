//! The line that says how far the log of a server is.

ghost use Rattle.std.specs.Prelude.{◌≡◌, ◌<◌, ◌++◌, length, OnOk, IfErr};
ghost use Rattle.repl_model.specs.World.{World, server_in};
ghost use Rattle.site_store.specs.Servers.{AllClosed};
ghost use Rattle.site_store.specs.Views.{names, held, work};
ghost use Rattle.site_store.specs.Calls.{Stays, Fails};
ghost use Rattle.world_store.specs.Stands.{Stands};
ghost use Rattle.shows.specs.servers.Status.{last_line};
ghost use Rattle.shows.specs.servers.Rules.{reads_at, ShowsDamage};

use keep_core::Keeper;
use repl_records::{CaptureState, Head, Single};
use repl_types::Fault;
use reply_text::{Reply, ServerStatus, write_reply};
use row_codec::Table0;
use site_store::Sites;
use std::alloc::Global;

/// What a missing end of a log stands for.
const FIRST_HEAD: Head = Head {
    last: 0,
    commit: 0,
    time: 0,
};

/// What a missing state of capture stands for.
const FIRST_CAPTURE: CaptureState = CaptureState {
    captured: 0,
    restart: 1,
    floor: 0,
};

/// Appends the line that says how far the log of the server is.
pub fn add_last_line<K: Keeper>(
    sites: &mut Sites<K>,
    alloc: Global,
    server: u32,
    text: &mut Vec<u8>,
) -> Result<(), Fault>
    requires server { server < length (names sites.old) }
    requires closed { AllClosed (work K.kept sites.old) }
    ensures ok { OnOk result (Stays K.kept sites.old sites.new (reads_at 2 server)) }
    ensures added { OnOk result ((world : World)
        → Stands (names sites.old) (held K.kept sites.old) world
        → text.new.items ≡ text.old.items ++ last_line (server_in world server)) }
    ensures fault { IfErr result (Fails K.kept sites.old sites.new (reads_at 2 server)
        (ShowsDamage K.kept sites.old)) }
{
    let head = sites.get_state::<Head>(alloc, server, Table0, &Single, FIRST_HEAD)?;
    let capture = sites.get_state::<CaptureState>(alloc, server, Table0, &Single, FIRST_CAPTURE)?;
    let status = ServerStatus {
        last: head.last,
        commit: head.commit,
        time: head.time,
        captured: capture.captured,
        restart: capture.restart,
        floor: capture.floor,
    };
    write_reply(&Reply::Server(status), text)?;
    Ok(())
}
