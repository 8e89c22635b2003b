//! The body lines of a script, and the end of a body.

ghost use Rattle.std.specs.Prelude.{◌≤◌, ◌+◌, drop, IfOk};
ghost use Rattle.line_input.specs.Limits.{input_limit};
ghost use Rattle.site_store.specs.Servers.{AllClosed};
ghost use Rattle.site_store.specs.Views.{work};
ghost use Rattle.run_commands.specs.feed.Feeds.{IsFeed};
ghost use Rattle.run_commands.specs.parts.Parts.{IsPart};
ghost use Rattle.session_core.specs.Bodies.{IfFeed, KeepsBodies, after_body};
ghost use Rattle.session_core.specs.Bodies.{after_long_body as after_long_body_lem};
ghost use Rattle.session_core.specs.Talk.{end_events, body_events, long_body_events};
ghost use Rattle.session_core.specs.Answers.{Follows};

use crate::bodies::{Answer, Bodies, after_long_body, fed, gather, without_mark};
use crate::fed_lines::feed_short_line;
use keep_core::{Keeper, Sink};
use repl_types::Refusal;
use run_commands::feed::{Feed, end_feed, refuse_line};
use run_commands::load::load_text;
use run_commands::parts::{RunError, refuse};
use site_store::Sites;
use std::alloc::Global;

/// Ends a body: loads the text of a load, or commits what is left of a feed, and says whether
/// something was refused.
pub fn end_bodies<K: Keeper, O: Sink>(
    alloc: Global,
    sites: &mut Sites<K>,
    output: &mut O,
    bodies: &Bodies,
) -> Result<bool, RunError>
    requires closed { AllClosed (work K.kept sites.old) }
    requires bodies { IfFeed bodies.now IsFeed }
    ensures { IsPart K.kept O.taken O.faults sites.old sites.new output.old output.new (end_events
        bodies.now) (λ refused. refused) result }
{
    match bodies {
        Bodies::Refused | Bodies::Skipped => Ok(false),
        Bodies::Gathered(text) => load_text(alloc, sites, output, text),
        Bodies::Fed(feed) => end_feed(alloc, sites, output, feed),
    }
}

/// Answers a body line: refuses it, or takes it for the load or the feed that it belongs to. A
/// blank line of a feed is skipped.
pub fn answer_body<K: Keeper, O: Sink>(
    alloc: Global,
    sites: &mut Sites<K>,
    output: &mut O,
    bodies: Bodies,
    number: u64,
    text: &[u8],
) -> Result<Answer, RunError>
    requires closed { AllClosed (work K.kept sites.old) }
    requires bodies { KeepsBodies number bodies }
    requires few { number ≤ input_limit }
    ensures part { IsPart K.kept O.taken O.faults sites.old sites.new output.old output.new
        (body_events bodies number (drop 1 text.now)) (λ answer. answer.refused) result }
    ensures bodies { IfOk result (Follows K.kept sites.old (after_body bodies number (drop 1
        text.now)) (number + 1)) }
{
    let line = without_mark(text);
    match bodies {
        Bodies::Refused => Ok(Answer {
            refused: refuse(alloc, output, &Refusal::BadLine { line: number })?,
            bodies: Bodies::Refused,
        }),
        Bodies::Skipped => Ok(Answer {
            refused: false,
            bodies: Bodies::Skipped,
        }),
        Bodies::Gathered(text) => Ok(Answer {
            refused: false,
            bodies: Bodies::Gathered(gather(text, line)?),
        }),
        Bodies::Fed(feed) => {
            let after = feed_short_line(alloc, sites, output, feed, number, line)?;
            Ok(Answer {
                refused: after.is_none(),
                bodies: fed(after),
            })
        }
    }
}

/// Refuses a body line over the limit, unless it is skipped, and says whether something was
/// refused.
fn refuse_long_body<K: Keeper, O: Sink>(
    alloc: Global,
    sites: &mut Sites<K>,
    output: &mut O,
    bodies: &Bodies,
    number: u64,
) -> Result<bool, RunError>
    requires closed { AllClosed (work K.kept sites.old) }
    requires bodies { IfFeed bodies.now IsFeed }
    ensures { IsPart K.kept O.taken O.faults sites.old sites.new output.old output.new
        (long_body_events bodies.now number) (λ refused. refused) result }
{
    match bodies {
        Bodies::Skipped => Ok(false),
        Bodies::Refused | Bodies::Gathered(_) => {
            refuse(alloc, output, &Refusal::LineTooLong { line: number })
        }
        Bodies::Fed(feed) => {
            let refusal = Refusal::LineTooLong { line: number };
            let after: Option<Feed> = refuse_line(alloc, sites, output, feed, &refusal)?;
            Ok(after.is_none())
        }
    }
}

/// Answers a body line over the limit: the rest of a load or of a feed is skipped.
pub fn answer_long_body<K: Keeper, O: Sink>(
    alloc: Global,
    sites: &mut Sites<K>,
    output: &mut O,
    bodies: &Bodies,
    number: u64,
) -> Result<Answer, RunError>
    requires closed { AllClosed (work K.kept sites.old) }
    requires bodies { KeepsBodies number bodies.now }
    ensures part { IsPart K.kept O.taken O.faults sites.old sites.new output.old output.new
        (long_body_events bodies.now number) (λ answer. answer.refused) result }
    ensures bodies { IfOk result (Follows K.kept sites.old (λ w. after_long_body_lem bodies.now)
        (number + 1)) }
{
    let refused = refuse_long_body(alloc, sites, output, bodies, number)?;
    Ok(Answer {
        refused,
        bodies: after_long_body(bodies),
    })
}
