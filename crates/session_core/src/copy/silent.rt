//! The parts of `copy` whose lines aren't written.

ghost use Rattle.std.specs.Prelude.{ℕ, List, Option, Some, None, codes, false};
ghost use Rattle.site_store.specs.Servers.{AllClosed};
ghost use Rattle.site_store.specs.Views.{work};
ghost use Rattle.run_commands.specs.load.LoadEvents.{load_text_events};
ghost use Rattle.run_commands.specs.capture.CaptureEvents.{capture_events};
ghost use Rattle.run_commands.specs.apply.StepEvents.{apply_events};
ghost use Rattle.run_commands.specs.parts.Parts.{IsPart};
ghost use Rattle.session_core.specs.copy.CopyEvents.{copy_text as copy_text_lem};
ghost use Rattle.session_core.specs.copy.CopyEvents.{copy_set as copy_set_lem, silent};

use crate::copy::given::{copy_set, copy_text, source_name};
use crate::copy::unwritten::Unwritten;
use keep_core::Keeper;
use run_commands::apply::apply_set;
use run_commands::capture::capture_server;
use run_commands::load::load_text;
use run_commands::parts::RunError;
use site_store::Sites;
use std::alloc::Global;

/// Loads the definitions of the copy.
pub fn load_items<K: Keeper>(alloc: Global, sites: &mut Sites<K>) -> Result<(), RunError>
    requires { AllClosed (work K.kept sites.old) }
    ensures { (bytes : Option (List ℕ)) (count : ℕ) → IsPart K.kept (λ taken. taken) (λ _. count)
        sites.old sites.new bytes bytes (silent (load_text_events (Some copy_text_lem))) (λ _. false) result }
{
    let text = copy_text(alloc)?;
    let mut output = Unwritten;
    load_text(alloc, sites, &mut output, &text)?;
    Ok(())
}

/// Applies the copy until there is nothing to do.
pub fn apply_items<K: Keeper>(alloc: Global, sites: &mut Sites<K>) -> Result<(), RunError>
    requires { AllClosed (work K.kept sites.old) }
    ensures { (bytes : Option (List ℕ)) (count : ℕ) → IsPart K.kept (λ taken. taken) (λ _. count)
        sites.old sites.new bytes bytes (silent (apply_events 0 copy_set_lem)) (λ _. false) result }
{
    let set = copy_set(alloc)?;
    let mut output = Unwritten;
    apply_set(alloc, sites, &mut output, 0, &set)?;
    Ok(())
}

/// Captures what was fed.
pub fn capture_items<K: Keeper>(alloc: Global, sites: &mut Sites<K>) -> Result<(), RunError>
    requires { AllClosed (work K.kept sites.old) }
    ensures { (bytes : Option (List ℕ)) (count : ℕ) → IsPart K.kept (λ taken. taken) (λ _. count)
        sites.old sites.new bytes bytes (silent (capture_events (codes "src") None None)) (λ _. false) result }
{
    let source = source_name(alloc)?;
    let mut output = Unwritten;
    capture_server(alloc, sites, &mut output, source, None, None)?;
    Ok(())
}
