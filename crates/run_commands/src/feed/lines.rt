//! The lines of a feed, one after another.

ghost use Rattle.std.specs.Prelude.{◌≡◌, ◌<◌, ◌≤◌, ◌+◌, length};
ghost use Rattle.std.specs.Prelude.{IfOk, IfSome, None, false, is_none};
ghost use Rattle.line_input.specs.Limits.{input_limit};
ghost use Rattle.repl_types.specs.declared.refusal.Refusal.TheVariants.{BadLog};
ghost use Rattle.repl_model.specs.World.{World};
ghost use Rattle.site_store.specs.Servers.{AllClosed};
ghost use Rattle.site_store.specs.Views.{names, held, work};
ghost use Rattle.world_store.specs.Stands.{Stands};
ghost use Rattle.run_commands.specs.feed.Feeds.{IsFeed, ends_transaction as ends_transaction_lem};
ghost use Rattle.run_commands.specs.feed.Feeds.{with_record as with_record_lem};
ghost use Rattle.run_commands.specs.feed.Feeds.{committed as committed_lem};
ghost use Rattle.run_commands.specs.feed.FeedEvents.{begin_events, begun};
ghost use Rattle.run_commands.specs.feed.FeedEvents.{feed_line_events, feed_after};
ghost use Rattle.run_commands.specs.feed.FeedEvents.{record_events, after_record, refused_events};
ghost use Rattle.run_commands.specs.feed.FeedEvents.{feed_end_events, batch_events};
ghost use Rattle.reply_text.specs.Replies.{reply_line};
ghost use Rattle.reply_text.specs.declared.reply.Reply.TheVariants as replies;
ghost use Rattle.run_commands.specs.parts.Parts.{IsPart, WritesLine};
ghost use Rattle.source_log.specs.Storing.{MayAppend};

use crate::feed::batch::{commit_batch, refuse_by, refuse_none};
use crate::feed::feed::Feed;
use crate::feed::laws::records_of_lines_may_be_appended;
use crate::parts::{RunError, refuse, reply};
use keep_core::{Keeper, Sink};
use log_text::{ReadLogError, read_record};
use repl_types::{List, LogRecord, Name, Refusal};
use reply_text::Reply;
use site_store::Sites;
use std::alloc::{AllocError, Global};

/// How many records of changes are committed together at most.
const BATCH_LIMIT: usize = 1_000;

/// Whether a record ends its transaction.
fn ends_transaction(logged: &LogRecord) -> bool
    ensures { result ≡ ends_transaction_lem logged.now }
{
    match logged {
        LogRecord::Change { .. } => false,
        LogRecord::Commit { .. } | LogRecord::Abort { .. } => true,
    }
}

/// A feed with one more record that waits for its commit, and the number of its line.
fn with_record(feed: Feed, number: u64, logged: LogRecord) -> Result<Feed, AllocError>
    ensures { IfOk result (λ more. more ≡ with_record_lem number logged feed) }
{
    let Feed {
        server,
        fed,
        mut lines,
        mut records,
    } = feed;
    lines.push(number)?;
    records.push(logged)?;
    Ok(Feed {
        server,
        fed,
        lines,
        records,
    })
}

/// A feed after its records that waited were committed.
fn committed(alloc: Global, feed: Feed) -> Feed
    requires { IsFeed feed }
    ensures { result ≡ committed_lem feed }
{
    let Feed {
        server,
        fed,
        records,
        ..
    } = feed;
    Feed {
        server,
        fed: fed + records.len() as u64,
        lines: List::new(alloc),
        records: List::new(alloc),
    }
}

/// Begins a feed of the server of a name, and answers it, or `None` if the name is refused, as that
/// of no server. Nothing is changed.
pub fn begin_feed<K: Keeper, O: Sink>(
    alloc: Global,
    sites: &mut Sites<K>,
    output: &mut O,
    server: Name,
) -> Result<Option<Feed>, RunError>
    requires { AllClosed (work K.kept sites.old) }
    ensures part { IsPart K.kept O.taken O.faults sites.old sites.new output.old output.new
        (begin_events server) is_none result }
    ensures after { IfOk result (λ feed. (w : World)
        → Stands (names sites.old) (held K.kept sites.old) w → feed ≡ begun server w) }
    ensures feed { IfOk result (λ feed. IfSome feed (λ f. IsFeed f
        × (f.fed + length f.records ≡ 0))) }
{
    if sites.find(&server).is_none() {
        return refuse_by(alloc, output, Refusal::NoSuchServer(server));
    }
    Ok(Some(Feed {
        server,
        fed: 0,
        lines: List::new(alloc),
        records: List::new(alloc),
    }))
}

/// Refuses a line of a feed, after the records before it are committed, and answers `None`; the
/// rest of the body is to be skipped.
pub fn refuse_line<T, K: Keeper, O: Sink>(
    alloc: Global,
    sites: &mut Sites<K>,
    output: &mut O,
    feed: &Feed,
    refusal: &Refusal,
) -> Result<Option<T>, RunError>
    requires closed { AllClosed (work K.kept sites.old) }
    requires feed { IsFeed feed.now }
    ensures part { IsPart K.kept O.taken O.faults sites.old sites.new output.old output.new
        (refused_events feed.now refusal.now) is_none result }
    ensures none { IfOk result (λ after. after ≡ None) }
{
    match commit_batch(alloc, sites, output, feed)? {
        Some(_) => refuse_none(alloc, output, refusal),
        None => Ok(None),
    }
}

/// Commits the records of a feed that wait, and answers the feed after it, or `None` if one was
/// refused.
fn commit_waiting<K: Keeper, O: Sink>(
    alloc: Global,
    sites: &mut Sites<K>,
    output: &mut O,
    feed: Feed,
) -> Result<Option<Feed>, RunError>
    requires closed { AllClosed (work K.kept sites.old) }
    requires feed { IsFeed feed }
    ensures part { IsPart K.kept O.taken O.faults sites.old sites.new output.old output.new
        (batch_events feed) is_none result }
    ensures after { IfOk result (λ after. IfSome after (λ f. f ≡ committed_lem feed)) }
{
    match commit_batch(alloc, sites, output, &feed)? {
        Some(_) => Ok(Some(committed(alloc, feed))),
        None => Ok(None),
    }
}

/// Takes a record of a feed, and answers the feed after it, or `None` if something was refused.
fn feed_record<K: Keeper, O: Sink>(
    alloc: Global,
    sites: &mut Sites<K>,
    output: &mut O,
    feed: Feed,
    number: u64,
    logged: LogRecord,
) -> Result<Option<Feed>, RunError>
    requires closed { AllClosed (work K.kept sites.old) }
    requires feed { IsFeed feed }
    requires later { feed.fed + length feed.records < number }
    requires few { number ≤ input_limit }
    requires may { MayAppend logged }
    ensures part { IsPart K.kept O.taken O.faults sites.old sites.new output.old output.new
        (record_events feed number logged) is_none result }
    ensures after { IfOk result (λ after. IfSome after (λ f. f ≡ after_record feed number logged)) }
{
    let ends = ends_transaction(&logged);
    let more = with_record(feed, number, logged)?;
    if !ends && more.records.len() < BATCH_LIMIT {
        return Ok(Some(more));
    }
    commit_waiting(alloc, sites, output, more)
}

/// Refuses a line of a feed that isn't the text of a record, and answers `None`.
fn refuse_text<K: Keeper, O: Sink>(
    alloc: Global,
    sites: &mut Sites<K>,
    output: &mut O,
    feed: &Feed,
    number: u64,
) -> Result<Option<Feed>, RunError>
    requires closed { AllClosed (work K.kept sites.old) }
    requires feed { IsFeed feed.now }
    ensures part { IsPart K.kept O.taken O.faults sites.old sites.new output.old output.new
        (refused_events feed.now (BadLog number)) is_none result }
    ensures none { IfOk result (λ after. after ≡ None) }
{
    refuse_line(
        alloc,
        sites,
        output,
        feed,
        &Refusal::BadLog { line: number },
    )
}

/// Takes a body line of a feed, and answers the feed after it, or `None` if something was refused;
/// the rest of the body is then to be skipped.
pub fn feed_line<K: Keeper, O: Sink>(
    alloc: Global,
    sites: &mut Sites<K>,
    output: &mut O,
    feed: Feed,
    number: u64,
    text: &[u8],
) -> Result<Option<Feed>, RunError>
    requires closed { AllClosed (work K.kept sites.old) }
    requires feed { IsFeed feed }
    requires later { feed.fed + length feed.records < number }
    requires few { number ≤ input_limit }
    ensures part { IsPart K.kept O.taken O.faults sites.old sites.new output.old output.new
        (feed_line_events feed number text.now) is_none result }
    ensures after { IfOk result (λ after. (w : World)
        → Stands (names sites.old) (held K.kept sites.old) w
        → after ≡ feed_after feed number text.now w) }
    ensures feed { IfOk result (λ after. IfSome after (λ f. IsFeed f
        × (f.fed + length f.records ≤ number))) }
{
    records_of_lines_may_be_appended();
    match read_record(alloc, text) {
        Ok(logged) => feed_record(alloc, sites, output, feed, number, logged),
        Err(ReadLogError::Memory) => Err(RunError::Memory),
        Err(ReadLogError::BadLog) => refuse_text(alloc, sites, output, &feed, number),
    }
}

/// Writes the line that says how many records were fed, and what the last position of the log is.
/// After an error a prefix of it was taken.
fn write_counts<O: Sink>(
    alloc: Global,
    output: &mut O,
    records: u64,
    last: u64,
) -> Result<bool, RunError>
    ensures { WritesLine O.taken O.faults output.old output.new
        (reply_line (replies.Fed records last)) false result }
{
    reply(alloc, output, &Reply::Fed { records, last })?;
    Ok(false)
}

/// Ends a feed: commits the records that wait, and writes how many were fed. Says whether something
/// was refused.
pub fn end_feed<K: Keeper, O: Sink>(
    alloc: Global,
    sites: &mut Sites<K>,
    output: &mut O,
    feed: &Feed,
) -> Result<bool, RunError>
    requires closed { AllClosed (work K.kept sites.old) }
    requires feed { IsFeed feed.now }
    ensures { IsPart K.kept O.taken O.faults sites.old sites.new output.old output.new
        (feed_end_events feed.now) (λ refused. refused) result }
{
    let Some(last) = commit_batch(alloc, sites, output, feed)? else {
        return Ok(true);
    };
    let records = feed.fed + feed.records.len() as u64;
    write_counts(alloc, output, records, last)
}
