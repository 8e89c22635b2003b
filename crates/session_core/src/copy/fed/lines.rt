//! One line of an input, and its end.

ghost use Rattle.std.specs.Prelude.{◌≡◌, ◌<◌, ◌≤◌, ◌+◌, length, IfOk, IfSome, None};
ghost use Rattle.std.specs.Prelude.{is_none};
ghost use Rattle.line_input.specs.Limits.{input_limit};
ghost use Rattle.repl_types.specs.declared.refusal.Refusal.TheVariants.{LineTooLong};
ghost use Rattle.site_store.specs.Servers.{AllClosed};
ghost use Rattle.site_store.specs.Views.{work};
ghost use Rattle.run_commands.specs.feed.Feeds.{IsFeed};
ghost use Rattle.run_commands.specs.feed.FeedEvents.{refused_events};
ghost use Rattle.run_commands.specs.parts.Parts.{IsPart};
ghost use Rattle.session_core.specs.copy.fed.Lines.{read_events, read_after, FeedsOn, refuses_now};
ghost use Rattle.session_core.specs.copy.fed.Lines.{next_events, next_after, end_events};
ghost use Rattle.session_core.specs.copy.fed.Lines.{is_end as is_end_lem};

use crate::fed_lines::feed_short_line;
use keep_core::{Keeper, Sink};
use line_input::Next;
use repl_types::Refusal;
use run_commands::feed::{Feed, end_feed, refuse_line};
use run_commands::parts::RunError;
use site_store::Sites;
use std::alloc::Global;

/// Whether the input has ended.
pub fn is_end(next: Next) -> bool
    ensures { result ≡ is_end_lem next }
{
    matches!(next, Next::End)
}

/// Refuses a line over the limit, after the records before it are committed, and answers `None`.
fn refuse_long_line<K: Keeper, O: Sink>(
    alloc: Global,
    sites: &mut Sites<K>,
    output: &mut O,
    feed: &Feed,
    number: u64,
) -> Result<Option<Feed>, RunError>
    requires closed { AllClosed (work K.kept sites.old) }
    requires feed { IsFeed feed.now }
    ensures part { IsPart K.kept O.taken O.faults sites.old sites.new output.old output.new
        (refused_events feed.now (LineTooLong number)) is_none result }
    ensures none { IfOk result (λ after. after ≡ None) }
{
    refuse_line(
        alloc,
        sites,
        output,
        feed,
        &Refusal::LineTooLong { line: number },
    )
}

/// Feeds what was read of an input, of which these bytes are kept, and answers the feed after it,
/// or `None` if something was refused. At the end of the input nothing is done.
fn feed_read<K: Keeper, O: Sink>(
    alloc: Global,
    sites: &mut Sites<K>,
    output: &mut O,
    feed: Feed,
    number: u64,
    next: Next,
    line: &[u8],
) -> Result<Option<Feed>, RunError>
    requires closed { AllClosed (work K.kept sites.old) }
    requires feed { IsFeed feed }
    requires later { feed.fed + length feed.records < number }
    requires few { number ≤ input_limit }
    ensures part { IsPart K.kept O.taken O.faults sites.old sites.new output.old output.new
        (read_events feed number next line.now) is_none result }
    ensures after { IfOk result (FeedsOn K.kept sites.old
        (read_after feed number next line.now) number) }
{
    match next {
        Next::End => Ok(Some(feed)),
        Next::Line => feed_short_line(alloc, sites, output, feed, number, line),
        Next::LongLine => refuse_long_line(alloc, sites, output, &feed, number),
    }
}

/// Feeds what was read of an input, unless something was refused before.
pub fn feed_next<K: Keeper, O: Sink>(
    alloc: Global,
    sites: &mut Sites<K>,
    output: &mut O,
    feed: Option<Feed>,
    number: u64,
    next: Next,
    line: &[u8],
) -> Result<Option<Feed>, RunError>
    requires closed { AllClosed (work K.kept sites.old) }
    requires feed { IfSome feed (λ f. IsFeed f × (f.fed + length f.records < number)) }
    requires few { number ≤ input_limit }
    ensures part { IsPart K.kept O.taken O.faults sites.old sites.new output.old output.new
        (next_events feed number next line.now) (refuses_now feed) result }
    ensures after { IfOk result (FeedsOn K.kept sites.old
        (next_after feed number next line.now) number) }
{
    match feed {
        Some(feed) => feed_read(alloc, sites, output, feed, number, next, line),
        None => Ok(None),
    }
}

/// Ends the feed at the end of the input, unless something was refused before. Says whether
/// something is refused now.
pub fn end_lines<K: Keeper, O: Sink>(
    alloc: Global,
    sites: &mut Sites<K>,
    output: &mut O,
    feed: Option<Feed>,
) -> Result<bool, RunError>
    requires closed { AllClosed (work K.kept sites.old) }
    requires feed { IfSome feed IsFeed }
    ensures { IsPart K.kept O.taken O.faults sites.old sites.new output.old output.new
        (end_events feed) (λ refused. refused) result }
{
    match feed {
        Some(feed) => end_feed(alloc, sites, output, &feed),
        None => Ok(false),
    }
}
