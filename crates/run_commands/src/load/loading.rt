//! The text of a load is read and loaded.

ghost use Rattle.std.specs.Prelude.{false};
ghost use Rattle.site_store.specs.Servers.{AllClosed};
ghost use Rattle.site_store.specs.Views.{work};
ghost use Rattle.load_laws.specs.texts.Texts.{IsWhole};
ghost use Rattle.run_commands.specs.load.LoadEvents.{counts_line, raw_events, load_text_events};
ghost use Rattle.run_commands.specs.parts.Parts.{IsPart, WritesLine};

use crate::load::kinds::{bad_text, has_carried_out_sets};
use crate::parts::{RunError, error_of_fault, refuse, reply};
use keep_core::{Keeper, Sink};
use load_defs::{Loaded, load};
use raw_defs::read_defs;
use repl_commands::{DefsError, RawDefs};
use repl_types::{Fault, LimitKind, List, Refusal};
use reply_text::Reply;
use site_store::Sites;
use std::alloc::Global;

/// Writes the line that says how many items were new. After an error a prefix of it was taken.
fn write_counts<O: Sink>(alloc: Global, output: &mut O, loaded: Loaded) -> Result<bool, RunError>
    ensures { WritesLine O.taken O.faults output.old output.new (counts_line loaded) false result }
{
    let counts = Reply::Loaded {
        tables: u64::from(loaded.tables),
        registrations: u64::from(loaded.registrations),
        sets: u64::from(loaded.sets),
    };
    reply(alloc, output, &counts)?;
    Ok(false)
}

/// Loads definitions and writes how many items were new, or the line that refuses them.
fn load_raw<K: Keeper, O: Sink>(
    alloc: Global,
    sites: &mut Sites<K>,
    output: &mut O,
    raw: &RawDefs,
) -> Result<bool, RunError>
    requires closed { AllClosed (work K.kept sites.old) }
    requires raw { IsWhole raw.now }
    ensures { IsPart K.kept O.taken O.faults sites.old sites.new output.old output.new (raw_events
        raw.now) (λ refused. refused) result }
{
    if !has_carried_out_sets(raw) {
        return refuse(alloc, output, &bad_text());
    }
    match load(sites, alloc, raw) {
        Ok(loaded) => write_counts(alloc, output, loaded),
        Err(Fault::Refused(refusal)) => refuse(alloc, output, &refusal),
        Err(fault) => Err(error_of_fault(fault)),
    }
}

/// Loads the text of a load, `None` if it has more bytes than it may have, and says whether it was
/// refused.
pub fn load_text<K: Keeper, O: Sink>(
    alloc: Global,
    sites: &mut Sites<K>,
    output: &mut O,
    text: &Option<List<u8>>,
) -> Result<bool, RunError>
    requires { AllClosed (work K.kept sites.old) }
    ensures { IsPart K.kept O.taken O.faults sites.old sites.new output.old output.new
        (load_text_events text.now) (λ refused. refused) result }
{
    let Some(text) = text else {
        return refuse(alloc, output, &Refusal::LimitReached(LimitKind::LoadBody));
    };
    match read_defs(alloc, text.as_slice()) {
        Ok(raw) => load_raw(alloc, sites, output, &raw),
        Err(DefsError::Memory) => Err(RunError::Memory),
        Err(DefsError::Broken { .. }) => refuse(alloc, output, &bad_text()),
    }
}
