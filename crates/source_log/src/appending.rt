//! Records are appended at the log of a server.

ghost use Rattle.std.specs.Prelude.{◌≡◌, ◌<◌, ◌≤◌, length, OnOk, IfOk, IfErr, IfSome};
ghost use Rattle.std.specs.List.{AllByRecursion};
ghost use Rattle.repl_types.specs.declared.area.Area.TheVariants.{Log};
ghost use Rattle.keep_core.specs.Contents.{IsLastKey};
ghost use Rattle.row_codec.specs.Spelling.{b64};
ghost use Rattle.repl_records.specs.SourceSide.{IsHead};
ghost use Rattle.repl_model.specs.World.{World};
ghost use Rattle.site_store.specs.Servers.{AllClosed};
ghost use Rattle.site_store.specs.Views.{names, held, work, sees, IsOpenAt};
ghost use Rattle.site_store.specs.one_server.Calls.{Looks, GoesOn, Breaks};
ghost use Rattle.world_store.specs.Stands.{Stands};
ghost use Rattle.source_log.specs.Rules.{rules, EndIs, ShowsDamage, BreaksFirst};
ghost use Rattle.source_log.specs.Storing.{MayAppend};
ghost use Rattle.site_store.specs.Calls.{ClosesOne, KeepsServers};
ghost use Rattle.source_log.specs.Appending.{TakesFirst, TakesAll, CommitsEnd, MayCommitEnd};
ghost use Rattle.source_log.specs.Appending.{HasAppended, HasNotAppended, BlamesOrStops, stop_at};

use crate::outcome::Outcome;
use crate::progress::Progress;
use crate::shared_table::SharedTable;
use crate::taking::{head_after, take_record};
use keep_core::Keeper;
use repl_records::{Head, Single};
use repl_types::{AppendError, Fault, LogRecord};
use row_codec::Table0;
use site_store::Sites;
use std::alloc::Global;

/// What a missing end of a log stands for.
const FIRST_HEAD: Head = Head {
    last: 0,
    commit: 0,
    time: 0,
};

/// The end of the log of a server. It is damage if the log has a record after it.
pub fn read_end<K: Keeper>(sites: &mut Sites<K>, alloc: Global, server: u32) -> Result<Head, Fault>
    requires { server < length (names sites.old) }
    ensures ok { OnOk result (Looks K.kept sites.old sites.new) }
    ensures end { IfOk result (λ head. IfSome (sees K.kept sites.old server)
        (λ c. EndIs head c × IsLastKey (c Log 0) (b64 head.last))) }
    ensures fits { IfOk result IsHead }
    ensures fault { IfErr result (BreaksFirst K.kept sites.old sites.new server) }
{
    let head = sites.get_state::<Head>(alloc, server, Table0, &Single, FIRST_HEAD)?;
    let next = sites.next::<LogRecord>(alloc, server, Table0, Some(&head.last))?;
    let Some((_key, logged)) = next else {
        return Ok(head);
    };
    Err(sites.unfit::<LogRecord>(alloc, server, &logged))
}

/// Takes records one after another, up to the first that isn't taken.
fn take_first<K: Keeper>(
    sites: &mut Sites<K>,
    alloc: Global,
    server: u32,
    head: Head,
    records: &[LogRecord],
) -> Result<Progress, Fault>
    requires server { server < length (names sites.old) }
    requires open { IsOpenAt (work K.kept sites.old) server }
    requires records { AllByRecursion MayAppend records.now }
    requires last { IfSome (sees K.kept sites.old server)
        (λ c. IsLastKey (c Log 0) (b64 head.last)) }
    ensures ok { IfOk result (λ progress. GoesOn K.kept sites.old sites.new server
        (TakesFirst head records.now progress)) }
    ensures few { IfOk result (λ progress. progress.taken ≤ length records.now) }
    ensures fault { IfErr result (Breaks rules K.kept sites.old sites.new server) }
{
    let mut end = head;
    let mut known: Option<SharedTable> = None;
    'records: for (taken, record) in records.iter().enumerate() {
        let outcome = take_record(sites, alloc, server, &end, record, &mut known)?;
        let Outcome::Taken = outcome else {
            return Ok(Progress {
                taken,
                end,
                outcome,
            });
        };
        end = head_after(record, &end);
    }
    Ok(Progress {
        taken: records.len(),
        end,
        outcome: Outcome::Taken,
    })
}

/// Takes records up to the first that isn't taken, after the end of the log is read.
fn take_all<K: Keeper>(
    sites: &mut Sites<K>,
    alloc: Global,
    server: u32,
    records: &[LogRecord],
) -> Result<Progress, Fault>
    requires server { server < length (names sites.old) }
    requires open { IsOpenAt (work K.kept sites.old) server }
    requires records { AllByRecursion MayAppend records.now }
    ensures ok { IfOk result (λ progress. GoesOn K.kept sites.old sites.new server
        (TakesAll records.now progress)) }
    ensures fault { IfErr result (BreaksFirst K.kept sites.old sites.new server) }
{
    let head = read_end(sites, alloc, server)?;
    let progress = take_first(sites, alloc, server, head, records)?;
    Ok(progress)
}

/// Commits what was taken, if something was.
fn commit_taken<K: Keeper>(
    sites: &mut Sites<K>,
    alloc: Global,
    server: u32,
    progress: &Progress,
) -> Result<(), Fault>
    requires server { server < length (names sites.old) }
    requires open { IsOpenAt (work K.kept sites.old) server }
    ensures none { OnOk result (progress.now.taken ≡ 0
        → ClosesOne K.kept sites.old sites.new server) }
    ensures some { OnOk result ((0 < progress.now.taken) → CommitsEnd K.kept sites.old sites.new
        server progress.now.end) }
    ensures fault { IfErr result (MayCommitEnd K.kept sites.old sites.new server
        progress.now.end) }
{
    if progress.taken == 0 {
        sites.rollback(server);
        return Ok(());
    }
    sites.put::<Head>(alloc, server, Table0, &Single, &progress.end)?;
    sites.commit(server)?;
    Ok(())
}

/// What an append answers that took so many records.
fn answer_of(progress: &Progress) -> Result<u64, AppendError>
    ensures ok { IfOk result (λ last. (stop_at progress.now.taken progress.now.outcome ≡ None)
        × (last ≡ progress.now.end.last)) }
    ensures refused { IfErr result (λ e. stop_at progress.now.taken progress.now.outcome
        ≡ Some e) }
{
    let taken = progress.taken as u64;
    match progress.outcome {
        Outcome::Taken => Ok(progress.end.last),
        Outcome::NotApplicable => Err(AppendError::NotApplicable(taken)),
        Outcome::Full => Err(AppendError::LogFull(taken)),
    }
}

/// Appends records at the log of a server, in one commit, and answers the last position of the log.
///
/// They are taken one after another. At the first that isn't applicable, or for which the log has
/// no room, those before it are committed, and its place is answered. If none is taken, nothing is
/// changed. After a fault no record was appended; but if the server's keeper failed, those that
/// were taken may have been, by a commit that failed and took place all the same. What is said of a
/// world holds if the servers stand for one and reveal what they hold.
pub fn append<K: Keeper>(
    sites: &mut Sites<K>,
    alloc: Global,
    server: u32,
    records: &[LogRecord],
) -> Result<u64, AppendError>
    requires server { server < length (names sites.old) }
    requires closed { AllClosed (work K.kept sites.old) }
    requires records { AllByRecursion MayAppend records.now }
    ensures ok { IfOk result (λ last. (w : World)
        → Stands (names sites.old) (held K.kept sites.old) w
        → HasAppended K.kept sites.old sites.new server records.now w last) }
    ensures refused { IfErr result (λ e. (w : World)
        → Stands (names sites.old) (held K.kept sites.old) w
        → HasNotAppended K.kept sites.old sites.new server records.now w e) }
    ensures blames { IfErr result (BlamesOrStops K.kept sites.old sites.new
        (ShowsDamage K.kept sites.old server)) }
    ensures servers { KeepsServers K.kept sites.old sites.new }
{
    sites.begin(server)?;
    let progress = match take_all(sites, alloc, server, records) {
        Ok(progress) => progress,
        Err(e) => {
            sites.rollback_all();
            return Err(AppendError::Fault(e));
        }
    };
    commit_taken(sites, alloc, server, &progress)?;
    answer_of(&progress)
}
