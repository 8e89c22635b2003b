//! The run that the words ask for.

ghost use Rattle.site_store.specs.Servers.{AllClosed};
ghost use Rattle.site_store.specs.Views.{work};
ghost use Rattle.session_core.specs.Session.{run_events};
ghost use Rattle.session_core.specs.Reading.{IsReading};

use crate::copy::copy_items;
use crate::script::run_script;
use keep_core::{Keeper, Sink, Source};
use run_commands::parts::RunError;
use run_words::Opening;
use site_store::Sites;
use std::alloc::Global;

/// Carries out a run, and says whether something was refused. After an error it stopped on its way.
/// A script is carried out in the same way whatever its number of cells.
pub fn run_opening<K: Keeper, I: Source, O: Sink>(
    alloc: Global,
    opening: &Opening,
    sites: &mut Sites<K>,
    input: &mut I,
    output: &mut O,
) -> Result<bool, RunError>
    requires { AllClosed (work K.kept sites.old) }
    ensures { IsReading K.kept I.left I.faults O.taken O.faults sites.old sites.new input.old
        input.new output.old output.new (run_events opening.now) result }
{
    match opening {
        Opening::Copy => copy_items(alloc, sites, input, output),
        Opening::Servers { .. } => run_script(alloc, sites, input, output),
    }
}
