//! A capture begins, and what it has captured is committed.

ghost use Rattle.std.specs.Prelude.{◌≡◌, ◌<◌, length, OnOk, IfOk, IfErr};
ghost use Rattle.site_store.specs.Servers.{AllClosed};
ghost use Rattle.site_store.specs.Views.{names, work, IsOpenAt};
ghost use Rattle.site_store.specs.Calls.{ClosesOne};
ghost use Rattle.site_store.specs.one_server.Calls.{Breaks};
ghost use Rattle.cd_tables.specs.Reading.{ReadsNoLog};
ghost use Rattle.capture_core.specs.Rules.{rules};
ghost use Rattle.capture_core.specs.Reading.{KeepsTyped};
ghost use Rattle.capture_core.specs.Committing.{IsStart, Opens, ReadsState};
ghost use Rattle.capture_core.specs.Committing.{CommitsUnits, MayCommitUnits};

use crate::captured::Captured;
use crate::progress::Progress;
use keep_core::Keeper;
use repl_records::{CaptureState, Single};
use repl_types::Fault;
use row_codec::Table0;
use site_store::Sites;
use std::alloc::Global;
use txn_buffer::Buffer;

/// What a missing state of capture stands for.
const FIRST_STATE: CaptureState = CaptureState {
    captured: 0,
    restart: 1,
    floor: 0,
};

/// A capture that begins at the restart of this state.
fn start_at(alloc: Global, state: CaptureState) -> Progress
    ensures state { result.state ≡ state }
    ensures start { IsStart result }
    ensures typed { KeepsTyped result }
{
    Progress {
        buffer: Buffer::new(alloc),
        read: state.restart.saturating_sub(1),
        state,
        units: 0,
        rows: 0,
        waiting: 0,
    }
}

/// Opens a transaction, and reads how far the server is captured.
pub fn begin_capture<K: Keeper>(
    sites: &mut Sites<K>,
    alloc: Global,
    server: u32,
) -> Result<Progress, Fault>
    requires server { server < length (names sites.old) }
    requires closed { AllClosed (work K.kept sites.old) }
    ensures ok { IfOk result (λ progress. Opens K.kept sites.old sites.new server
        (ReadsState progress.state)) }
    ensures start { IfOk result IsStart }
    ensures typed { IfOk result KeepsTyped }
    ensures fault { IfErr result (Breaks rules K.kept sites.old sites.new server) }
    ensures reads { ReadsNoLog K.kept sites.old sites.new }
{
    sites.begin(server)?;
    let state = sites.get_state::<CaptureState>(alloc, server, Table0, &Single, FIRST_STATE)?;
    Ok(start_at(alloc, state))
}

/// Commits the units that wait, with how far the server is captured then.
pub fn commit_units<K: Keeper>(
    sites: &mut Sites<K>,
    alloc: Global,
    server: u32,
    state: &CaptureState,
) -> Result<(), Fault>
    requires server { server < length (names sites.old) }
    requires open { IsOpenAt (work K.kept sites.old) server }
    ensures ok { OnOk result (CommitsUnits K.kept sites.old sites.new server state.now) }
    ensures fault { IfErr result (MayCommitUnits K.kept sites.old sites.new server state.now) }
    ensures reads { ReadsNoLog K.kept sites.old sites.new }
{
    sites.put::<CaptureState>(alloc, server, Table0, &Single, state)?;
    sites.commit(server)?;
    Ok(())
}

/// Commits the units that wait, if there are some, and else only closes the transaction. It answers
/// how far the server is captured.
pub fn end_capture<K: Keeper>(
    sites: &mut Sites<K>,
    alloc: Global,
    server: u32,
    progress: &Progress,
) -> Result<Captured, Fault>
    requires server { server < length (names sites.old) }
    requires open { IsOpenAt (work K.kept sites.old) server }
    ensures none { OnOk result (progress.now.waiting ≡ 0
        → ClosesOne K.kept sites.old sites.new server) }
    ensures some { OnOk result ((0 < progress.now.waiting)
        → CommitsUnits K.kept sites.old sites.new server progress.now.state) }
    ensures answer { IfOk result (λ captured. captured ≡ record {
      upto = progress.now.state.captured;
      units = progress.now.units;
      rows = progress.now.rows;
    }) }
    ensures fault { IfErr result (λ e. (0 < progress.now.waiting)
        × MayCommitUnits K.kept sites.old sites.new server progress.now.state e) }
    ensures reads { ReadsNoLog K.kept sites.old sites.new }
{
    let captured = Captured {
        upto: progress.state.captured,
        units: progress.units,
        rows: progress.rows,
    };
    if progress.waiting == 0 {
        sites.rollback(server);
        return Ok(captured);
    }
    commit_units(sites, alloc, server, &progress.state)?;
    Ok(captured)
}
