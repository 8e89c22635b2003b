//! The run of `copy` at its servers.

ghost use Rattle.site_store.specs.Servers.{AllClosed};
ghost use Rattle.site_store.specs.Views.{work};
ghost use Rattle.session_core.specs.copy.CopyEvents.{fed_events, brought_events, copy_events};
ghost use Rattle.session_core.specs.Reading.{IsReading};

use crate::copy::fed::feed_input;
use crate::copy::given::source_name;
use crate::copy::showing::show_fed;
use crate::copy::silent::{apply_items, load_items};
use crate::copy::unwritten::KeptLines;
use keep_core::{Keeper, Sink, Source};
use run_commands::parts::RunError;
use site_store::Sites;
use std::alloc::Global;

/// Feeds the lines of the input, and brings what was fed to the copy and writes it. Says whether
/// something was refused.
fn feed_copy<K: Keeper, I: Source, O: Sink>(
    alloc: Global,
    sites: &mut Sites<K>,
    input: &mut I,
    output: &mut O,
) -> Result<bool, RunError>
    requires { AllClosed (work K.kept sites.old) }
    ensures { IsReading K.kept I.left I.faults O.taken O.faults sites.old sites.new input.old
        input.new output.old output.new fed_events result }
{
    let source = source_name(alloc)?;
    let mut lines = KeptLines::new(alloc);
    let refused = feed_input(alloc, sites, input, &mut lines, source)?;
    show_fed(alloc, sites, output, lines.bytes(), refused)
}

/// Applies the copy once before the feed, and then does the rest of `copy`.
fn bring_copy<K: Keeper, I: Source, O: Sink>(
    alloc: Global,
    sites: &mut Sites<K>,
    input: &mut I,
    output: &mut O,
) -> Result<bool, RunError>
    requires { AllClosed (work K.kept sites.old) }
    ensures { IsReading K.kept I.left I.faults O.taken O.faults sites.old sites.new input.old
        input.new output.old output.new brought_events result }
{
    apply_items(alloc, sites)?;
    feed_copy(alloc, sites, input, output)
}

/// Carries out `copy` at the servers, and says whether something was refused. After an error the
/// run stopped on its way.
pub fn copy_items<K: Keeper, I: Source, O: Sink>(
    alloc: Global,
    sites: &mut Sites<K>,
    input: &mut I,
    output: &mut O,
) -> Result<bool, RunError>
    requires { AllClosed (work K.kept sites.old) }
    ensures { IsReading K.kept I.left I.faults O.taken O.faults sites.old sites.new input.old
        input.new output.old output.new copy_events result }
{
    load_items(alloc, sites)?;
    bring_copy(alloc, sites, input, output)
}
