//! What a run does with body lines.

ghost use Rattle.std.specs.Prelude.{◌≡◌, drop, IfOk};
ghost use Rattle.std.specs.Option.{option_map_or};
ghost use Rattle.session_core.specs.Bodies.{gather as gather_lem, unfed as unfed_lem};
ghost use Rattle.session_core.specs.Bodies.{after_long_body as after_long_body_lem};
ghost use Rattle.session_core.specs.declared.bodies.Bodies.TheVariants.{Fed as FedBody, Skipped};

use repl_types::List;
use run_commands::feed::Feed;
use script_text::takes_body;
use std::alloc::AllocError;

/// How many bytes the text of a load may have.
const LOAD_LIMIT: usize = 1_048_576;

/// What a run does with body lines before the next line of a command.
#[derive(Debug, Drop)]
pub enum Bodies {
    /// Each is refused.
    Refused,
    /// They are skipped, with the load or the feed before them.
    Skipped,
    /// They are the text of a load, `None` once it has more bytes than it may have.
    Gathered(Option<List<u8>>),
    /// They are the records of a feed.
    Fed(Feed),
}

/// Whether something was refused at a line, and what a run does with body lines after it.
#[derive(Debug, Drop)]
pub struct Answer {
    pub refused: bool,
    pub bodies: Bodies,
}

/// The text of a load with one more line and a line feed, `None` if it has more bytes than it may
/// have.
pub fn gather(text: Option<List<u8>>, line: &[u8]) -> Result<Option<List<u8>>, AllocError>
    ensures { IfOk result (λ gathered. gathered ≡ gather_lem text line.now) }
{
    let Some(text) = text else {
        return Ok(None);
    };
    if LOAD_LIMIT < text.len() + line.len() + 1 {
        return Ok(None);
    }
    let mut bytes = text.into_vec();
    bytes.extend_from_slice(line)?;
    bytes.push(b'\n')?;
    Ok(Some(List::from_vec(bytes)))
}

/// A body line without its first byte, the mark.
pub fn without_mark(line: &[u8]) -> &[u8]
    ensures { result.now ≡ drop 1 line.now }
{
    match line {
        [_, rest @ ..] => rest,
        [] => &[],
    }
}

/// What a run does with body lines after a line of a command that begins no body.
pub fn unfed(line: &[u8]) -> Bodies
    ensures { result ≡ unfed_lem line.now }
{
    if takes_body(line) {
        return Bodies::Skipped;
    }
    Bodies::Refused
}

/// What a run does with body lines after a feed answered so: the rest is skipped if something was
/// refused.
pub fn fed(feed: Option<Feed>) -> Bodies
    ensures { result ≡ option_map_or FedBody feed Skipped }
{
    match feed {
        Some(feed) => Bodies::Fed(feed),
        None => Bodies::Skipped,
    }
}

/// What a run does with body lines after one over the limit.
pub fn after_long_body(bodies: &Bodies) -> Bodies
    ensures { result ≡ after_long_body_lem bodies.now }
{
    match bodies {
        Bodies::Refused => Bodies::Refused,
        Bodies::Skipped | Bodies::Gathered(_) | Bodies::Fed(_) => Bodies::Skipped,
    }
}
