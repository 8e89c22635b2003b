//! The records of a feed that wait for their commit.

ghost use Rattle.std.specs.Prelude.{◌≡◌, IfOk, IfSome};
ghost use Rattle.std.specs.Prelude.{is_none, slice_index_or, None};
ghost use Rattle.repl_model.specs.World.{World};
ghost use Rattle.site_store.specs.Servers.{AllClosed};
ghost use Rattle.site_store.specs.Views.{names, held, work};
ghost use Rattle.world_store.specs.Stands.{Stands};
ghost use Rattle.run_commands.specs.feed.Feeds.{IsFeed};
ghost use Rattle.run_commands.specs.feed.FeedEvents.{batch_events, last_position};
ghost use Rattle.run_commands.specs.parts.Parts.{IsPart, WritesRefusal};

use crate::feed::feed::Feed;
use crate::parts::{RunError, error_of_fault, refuse};
use keep_core::{Keeper, Sink};
use repl_types::{AppendError, Refusal};
use site_store::Sites;
use source_log::append;
use std::alloc::Global;

/// The number of the line of a record that waits.
fn line_at(lines: &[u64], place: u64) -> u64
    ensures { result ≡ slice_index_or lines.now place 0 }
{
    match lines.get(place as usize) {
        Some(number) => *number,
        None => 0,
    }
}

/// Writes the line of a refusal as `refuse` does, and answers `None`.
pub fn refuse_none<T, O: Sink>(
    alloc: Global,
    output: &mut O,
    refusal: &Refusal,
) -> Result<Option<T>, RunError>
    ensures { WritesRefusal O.taken O.faults output.old output.new refusal.now None result }
{
    refuse(alloc, output, refusal)?;
    Ok(None)
}

/// Does the same. It takes the refusal, so that its caller has none to drop at each exit.
pub fn refuse_by<T, O: Sink>(
    alloc: Global,
    output: &mut O,
    refusal: Refusal,
) -> Result<Option<T>, RunError>
    ensures { WritesRefusal O.taken O.faults output.old output.new refusal None result }
{
    refuse_none(alloc, output, &refusal)
}

/// Commits the records that wait, and answers the last position of the log, or `None` if one was
/// refused.
pub fn commit_batch<K: Keeper, O: Sink>(
    alloc: Global,
    sites: &mut Sites<K>,
    output: &mut O,
    feed: &Feed,
) -> Result<Option<u64>, RunError>
    requires closed { AllClosed (work K.kept sites.old) }
    requires feed { IsFeed feed.now }
    ensures part { IsPart K.kept O.taken O.faults sites.old sites.new output.old output.new
        (batch_events feed.now) is_none result }
    ensures last { IfOk result (λ last. IfSome last (λ position. (w : World)
        → Stands (names sites.old) (held K.kept sites.old) w
        → position ≡ last_position feed.now w)) }
{
    let Some(server) = sites.find(&feed.server) else {
        return refuse_by(alloc, output, Refusal::NoSuchServer(feed.server.clone()?));
    };
    match append(sites, alloc, server, feed.records.as_slice()) {
        Ok(last) => Ok(Some(last)),
        Err(AppendError::NotApplicable(place)) => {
            let line = line_at(feed.lines.as_slice(), place);
            refuse_by(alloc, output, Refusal::NotApplicable { line })
        }
        Err(AppendError::LogFull(_)) => {
            refuse_by(alloc, output, Refusal::LogFull(feed.server.clone()?))
        }
        Err(AppendError::Fault(fault)) => Err(error_of_fault(fault)),
    }
}
