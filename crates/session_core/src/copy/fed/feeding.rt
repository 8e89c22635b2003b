//! The lines of an input, fed one after another.

ghost use Rattle.site_store.specs.Servers.{AllClosed};
ghost use Rattle.site_store.specs.Views.{work};
ghost use Rattle.session_core.specs.copy.fed.FedInput.{input_events};
ghost use Rattle.session_core.specs.Reading.{IsReading};

use crate::copy::fed::lines::{end_lines, feed_next, is_end};
use keep_core::{Keeper, Sink, Source};
use line_input::Input;
use repl_types::Name;
use run_commands::feed::begin_feed;
use run_commands::parts::RunError;
use site_store::Sites;
use std::alloc::Global;

/// Reads the input to its end, feeds each of its lines at the server of a name until something is
/// refused, and says whether something was. After an error the feed stopped on its way. If the
/// servers stood for a world, they stand for one afterwards.
pub fn feed_input<K: Keeper, I: Source, O: Sink>(
    alloc: Global,
    sites: &mut Sites<K>,
    input: &mut I,
    output: &mut O,
    server: Name,
) -> Result<bool, RunError>
    requires { AllClosed (work K.kept sites.old) }
    ensures { IsReading K.kept I.left I.faults O.taken O.faults sites.old sites.new input.old
        input.new output.old output.new (input_events server) result }
{
    let mut lines = Input::new(alloc)?;
    let mut line = Vec::new(alloc);
    let mut feed = begin_feed(alloc, sites, output, server)?;
    let mut number = 1u64;
    loop {
        let next = lines.next_line(input, &mut line)?;
        if is_end(next) {
            break;
        }
        feed = feed_next(alloc, sites, output, feed, number, next, &line)?;
        number += 1;
    }
    let before = feed.is_none();
    let refused = end_lines(alloc, sites, output, feed)?;
    Ok(before | refused)
}
