//! The reply of `status` of a server.

ghost use Rattle.std.specs.Prelude.{◌≡◌, ◌<◌, ◌≤◌, length, OnOk, OnErr, IfOk, IfErr};
ghost use Rattle.keep_core.specs.Revealed.{Rises, Takes, TakesPrefix};
ghost use Rattle.repl_model.specs.World.{World, server_in};
ghost use Rattle.site_store.specs.Servers.{AllClosed};
ghost use Rattle.site_store.specs.Views.{names, held, work};
ghost use Rattle.site_store.specs.Calls.{Stays, Fails};
ghost use Rattle.world_store.specs.Stands.{Stands};
ghost use Rattle.shows.specs.servers.Status.{status_text as status_text_lem};
ghost use Rattle.shows.specs.servers.Rules.{reads_at, status_reads, ShowsDamage};
ghost use Rattle.shows.specs.servers.Showing.{FailsToShow, IsUndamagedShow};

use crate::last_line::add_last_line;
use crate::registrations::add_registrations;
use crate::sets::add_sets;
use keep_core::{Keeper, ReadError, Sink, write_line};
use repl_types::{Fault, ShowError};
use site_store::Sites;
use std::alloc::Global;

/// No table and no set has a number as high as this.
pub const NUMBER_LIMIT: u32 = 256;

/// The lines of the reply, one after another.
fn status_text<K: Keeper>(
    sites: &mut Sites<K>,
    alloc: Global,
    server: u32,
) -> Result<Vec<u8>, Fault>
    requires server { server < length (names sites.old) }
    requires closed { AllClosed (work K.kept sites.old) }
    ensures ok { OnOk result (Stays K.kept sites.old sites.new (reads_at status_reads server)) }
    ensures text { IfOk result (λ text. (world : World)
        → Stands (names sites.old) (held K.kept sites.old) world
        → text.items ≡ status_text_lem (server_in world server)) }
    ensures fault { IfErr result (Fails K.kept sites.old sites.new (reads_at status_reads server)
        (ShowsDamage K.kept sites.old)) }
{
    let mut text = Vec::new(alloc);
    add_registrations(sites, alloc, server, &mut text)?;
    add_sets(sites, alloc, server, &mut text)?;
    add_last_line(sites, alloc, server, &mut text)?;
    Ok(text)
}

/// How many bytes the first line of a text has, its line feed among them; all, if it has none.
fn first_line(text: &[u8]) -> usize
    ensures some { 0 < length text.now → 0 < result }
    ensures within { result ≤ length text.now }
{
    match text.iter().position(|byte| *byte == b'\n') {
        Some(place) => place + 1,
        None => text.len(),
    }
}

/// Writes the lines of a text one after another. After an error a prefix of the text was taken.
fn write_lines<O: Sink>(output: &mut O, text: &[u8]) -> Result<(), ReadError>
    ensures ok { OnOk result (Takes (O.taken output.old) (O.taken output.new) text.now) }
    ensures err { OnErr result (TakesPrefix (O.taken output.old) (O.taken output.new) text.now) }
    ensures cause { result ≡ Err ReadError.Failed
        → Rises (O.faults output.old) (O.faults output.new) }
    ensures counts { O.faults output.old ≤ O.faults output.new }
{
    let mut at = 0;
    while at < text.len() {
        let rest = &text[at..];
        let count = first_line(rest);
        write_line(output, &rest[..count])?;
        at += count;
    }
    Ok(())
}

/// Writes the reply of `status` of a server: the lines of its registrations, in the order of its
/// tables, the lines of the sets whose source it is, in order, and the line that says how far its
/// log is, one after another. All is read before the first byte is written, and nothing is changed.
pub fn show_server<K: Keeper, O: Sink>(
    sites: &mut Sites<K>,
    alloc: Global,
    output: &mut O,
    server: u32,
) -> Result<(), ShowError>
    requires server { server < length (names sites.old) }
    requires closed { AllClosed (work K.kept sites.old) }
    ensures stays { OnOk result (Stays K.kept sites.old sites.new
        (reads_at status_reads server)) }
    ensures ok { OnOk result ((world : World)
        → Stands (names sites.old) (held K.kept sites.old) world
        → Takes (O.taken output.old) (O.taken output.new)
        (status_text_lem (server_in world server))) }
    ensures err { OnErr result ((world : World)
        → Stands (names sites.old) (held K.kept sites.old) world
        → TakesPrefix (O.taken output.old) (O.taken output.new)
        (status_text_lem (server_in world server))) }
    ensures fault { IfErr result (FailsToShow K.kept sites.old sites.new
        (reads_at status_reads server) (O.faults output.old) (O.faults output.new)) }
    ensures undamaged { IfErr result (λ e. (world : World)
        → Stands (names sites.old) (held K.kept sites.old) world → IsUndamagedShow e) }
    ensures counts { O.faults output.old ≤ O.faults output.new }
{
    let text = status_text(sites, alloc, server)?;
    match write_lines(output, &text) {
        Ok(()) => Ok(()),
        Err(ReadError::Memory) => Err(ShowError::Fault(Fault::Memory)),
        Err(ReadError::Failed) => Err(ShowError::Output),
    }
}
