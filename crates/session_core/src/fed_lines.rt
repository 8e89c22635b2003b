//! A line of a feed, be it a body line of a script or a line of the input that `copy` feeds.

ghost use Rattle.std.specs.Prelude.{◌≡◌, ◌<◌, ◌≤◌, ◌+◌, length, IfOk, is_none};
ghost use Rattle.line_input.specs.Limits.{input_limit};
ghost use Rattle.site_store.specs.Servers.{AllClosed};
ghost use Rattle.site_store.specs.Views.{work};
ghost use Rattle.run_commands.specs.feed.Feeds.{IsFeed};
ghost use Rattle.run_commands.specs.parts.Parts.{IsPart};
ghost use Rattle.session_core.specs.FedLines.{is_blank as is_blank_lem};
ghost use Rattle.session_core.specs.FedLines.{short_line_events, short_line_after};
ghost use Rattle.session_core.specs.copy.fed.Lines.{FeedsOn};

use keep_core::{Keeper, Sink};
use run_commands::feed::{Feed, feed_line};
use run_commands::parts::RunError;
use site_store::Sites;
use std::alloc::Global;

/// Whether a line consists of blanks, or is empty.
fn is_blank(line: &[u8]) -> bool
    ensures { result ≡ is_blank_lem line.now }
{
    line.iter().all(|byte| *byte == b' ')
}

/// Feeds a line within the limit, unless it is blank, and answers the feed after it, or `None` if
/// something was refused.
pub fn feed_short_line<K: Keeper, O: Sink>(
    alloc: Global,
    sites: &mut Sites<K>,
    output: &mut O,
    feed: Feed,
    number: u64,
    line: &[u8],
) -> Result<Option<Feed>, RunError>
    requires closed { AllClosed (work K.kept sites.old) }
    requires feed { IsFeed feed }
    requires later { feed.fed + length feed.records < number }
    requires few { number ≤ input_limit }
    ensures part { IsPart K.kept O.taken O.faults sites.old sites.new output.old output.new
        (short_line_events feed number line.now) is_none result }
    ensures after { IfOk result (FeedsOn K.kept sites.old
        (short_line_after feed number line.now) number) }
{
    if is_blank(line) {
        return Ok(Some(feed));
    }
    feed_line(alloc, sites, output, feed, number, line)
}
