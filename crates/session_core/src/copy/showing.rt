//! After the feed: what was fed is captured and applied, and the copy and what was refused are
//! written.

ghost use Rattle.std.specs.Prelude.{List, codes};
ghost use Rattle.repl_model.specs.World.{World};
ghost use Rattle.run_core.specs.Runs.{Event};
ghost use Rattle.site_store.specs.Servers.{AllClosed};
ghost use Rattle.site_store.specs.Views.{work};
ghost use Rattle.run_commands.specs.target.TargetEvents.{target_events};
ghost use Rattle.run_commands.specs.parts.Parts.{IsPart, WritesLine};
ghost use Rattle.session_core.specs.copy.CopyEvents.{written_events, applied_events, shown_events};
ghost use Rattle.session_core.specs.copy.Showing.{lines_if, KeepsRefusals};

use crate::copy::given::{copy_name, target_name};
use crate::copy::silent::{apply_items, capture_items};
use keep_core::{Keeper, Sink, write_line};
use run_commands::parts::RunError;
use run_commands::target::show_target_rows;
use site_store::Sites;
use std::alloc::Global;

/// Writes the rows of the copy, and says whether it was refused.
fn show_items<K: Keeper, O: Sink>(
    alloc: Global,
    sites: &mut Sites<K>,
    output: &mut O,
) -> Result<bool, RunError>
    requires { AllClosed (work K.kept sites.old) }
    ensures { IsPart K.kept O.taken O.faults sites.old sites.new output.old output.new
        (target_events 0 (codes "dst") (codes "items_copy")) (λ refused. refused) result }
{
    let target = target_name(alloc)?;
    let copy = copy_name(alloc)?;
    show_target_rows(alloc, sites, output, 0, target, copy)
}

/// Writes the lines of what was refused, if something was, and says whether it was. After an error a
/// prefix of them was taken.
fn write_refused<O: Sink>(output: &mut O, lines: &[u8], refused: bool) -> Result<bool, RunError>
    ensures { WritesLine O.taken O.faults output.old output.new (lines_if refused lines.now) refused
        result }
{
    if refused {
        write_line(output, lines)?;
    }
    Ok(refused)
}

/// Writes the rows of the copy, and then the lines of what the feed refused. Says whether something
/// was refused.
fn write_copy<K: Keeper, O: Sink>(
    alloc: Global,
    sites: &mut Sites<K>,
    output: &mut O,
    lines: &[u8],
    refused: bool,
) -> Result<bool, RunError>
    requires { AllClosed (work K.kept sites.old) }
    ensures { (fed : List (Event World)) → KeepsRefusals fed lines.now refused → IsPart K.kept
        O.taken O.faults sites.old sites.new output.old output.new (written_events fed) (λ any. any)
        result }
{
    let shown = show_items(alloc, sites, output)?;
    let written = write_refused(output, lines, refused)?;
    Ok(shown | written)
}

/// Applies the copy, and writes it and what the feed refused. Says whether something was refused.
fn apply_copy<K: Keeper, O: Sink>(
    alloc: Global,
    sites: &mut Sites<K>,
    output: &mut O,
    lines: &[u8],
    refused: bool,
) -> Result<bool, RunError>
    requires { AllClosed (work K.kept sites.old) }
    ensures { (fed : List (Event World)) → KeepsRefusals fed lines.now refused → IsPart K.kept
        O.taken O.faults sites.old sites.new output.old output.new (applied_events fed) (λ any. any)
        result }
{
    apply_items(alloc, sites)?;
    write_copy(alloc, sites, output, lines, refused)
}

/// Captures and applies what was fed, and writes the copy and what the feed refused. Says whether
/// something was refused.
pub fn show_fed<K: Keeper, O: Sink>(
    alloc: Global,
    sites: &mut Sites<K>,
    output: &mut O,
    lines: &[u8],
    refused: bool,
) -> Result<bool, RunError>
    requires { AllClosed (work K.kept sites.old) }
    ensures { (fed : List (Event World)) → KeepsRefusals fed lines.now refused → IsPart K.kept
        O.taken O.faults sites.old sites.new output.old output.new (shown_events fed) (λ any. any)
        result }
{
    capture_items(alloc, sites)?;
    apply_copy(alloc, sites, output, lines, refused)
}
