//! The lines of steps, and of the entries that a trail keeps of them.

ghost use Rattle.std.specs.Prelude.{◌≡◌, ◌++◌, OnOk};
ghost use Rattle.log_text.specs.RecordText.{spaced};
ghost use Rattle.reply_text.specs.Steps.{refresh_parts, block_parts, load_parts, settle_parts};
ghost use Rattle.reply_text.specs.Steps.{decide_parts, step_parts, step_line, base_parts};
ghost use Rattle.reply_text.specs.Steps.{entry_parts, trail_line};

use crate::fields::{Field, write_end, write_fields, write_text};
use repl_records::TrailEntry;
use repl_types::{Name, Stepped};
use std::alloc::AllocError;

/// Appends a refresh.
fn write_refresh(point: u64, rows: u64, out: &mut Vec<u8>) -> Result<(), AllocError>
    ensures { OnOk result (out.new.items ≡ out.old.items ++ spaced (refresh_parts point rows)) }
{
    write_fields(
        &[Field::At("refresh", point), Field::Count("rows", rows)],
        out,
    )
}

/// Appends a block.
fn write_block(
    from: u64,
    to: u64,
    inserts: u64,
    updates: u64,
    deletes: u64,
    out: &mut Vec<u8>,
) -> Result<(), AllocError>
    ensures { OnOk result (out.new.items
        ≡ out.old.items ++ spaced (block_parts from to inserts updates deletes)) }
{
    let fields = [
        Field::At("block", from),
        Field::Position(to),
        Field::Count("insert", inserts),
        Field::Count("update", updates),
        Field::Count("delete", deletes),
    ];
    write_fields(&fields, out)
}

/// Appends a load.
fn write_load(m: u64, f: u64, rows: u64, out: &mut Vec<u8>) -> Result<(), AllocError>
    ensures { OnOk result (out.new.items ≡ out.old.items ++ spaced (load_parts m f rows)) }
{
    let fields = [
        Field::At("load", m),
        Field::Position(f),
        Field::Count("rows", rows),
    ];
    write_fields(&fields, out)
}

/// Appends a settling.
fn write_settle(
    m: u64,
    f: u64,
    rejected: u64,
    applied: u64,
    out: &mut Vec<u8>,
) -> Result<(), AllocError>
    ensures { OnOk result (out.new.items
        ≡ out.old.items ++ spaced (settle_parts m f rejected applied)) }
{
    let fields = [
        Field::At("settle", m),
        Field::Position(f),
        Field::Count("rejected", rejected),
        Field::Count("applied", applied),
    ];
    write_fields(&fields, out)
}

/// Appends a decision.
fn write_decide(
    t: u64,
    d: u64,
    accepted: u64,
    rejected: u64,
    out: &mut Vec<u8>,
) -> Result<(), AllocError>
    ensures { OnOk result (out.new.items
        ≡ out.old.items ++ spaced (decide_parts t d accepted rejected)) }
{
    let fields = [
        Field::At("decide", t),
        Field::Position(d),
        Field::Count("accepted", accepted),
        Field::Count("rejected", rejected),
    ];
    write_fields(&fields, out)
}

/// Appends what a step did.
fn write_stepped(server: &Name, stepped: &Stepped, out: &mut Vec<u8>) -> Result<(), AllocError>
    ensures { OnOk result (out.new.items
        ≡ out.old.items ++ spaced (step_parts server.now stepped.now)) }
{
    match stepped {
        Stepped::Signal { seq, .. } => {
            let signal = [
                Field::Text("signal"),
                Field::Name(server),
                Field::Position(*seq),
            ];
            write_fields(&signal, out)
        }
        Stepped::Refresh { point, rows } => write_refresh(*point, *rows, out),
        Stepped::Block {
            from,
            to,
            inserts,
            updates,
            deletes,
        } => write_block(*from, *to, *inserts, *updates, *deletes, out),
        Stepped::Report { point } => write_fields(&[Field::At("report", *point)], out),
        Stepped::Load { m, f, rows } => write_load(*m, *f, *rows, out),
        Stepped::Decide {
            t,
            d,
            accepted,
            rejected,
        } => write_decide(*t, *d, *accepted, *rejected, out),
        Stepped::Settle {
            m,
            f,
            rejected,
            applied,
        } => write_settle(*m, *f, *rejected, *applied, out),
        Stepped::Idle => write_fields(&[Field::Text("idle")], out),
    }
}

/// Appends the line of a step. `server` is the name of the step's server; only a signal's line has
/// it.
pub fn write_step(server: &Name, stepped: &Stepped, out: &mut Vec<u8>) -> Result<(), AllocError>
    ensures { OnOk result (out.new.items
        ≡ out.old.items ++ step_line server.now stepped.now) }
{
    write_text("ok", out)?;
    write_stepped(server, stepped, out)?;
    write_end(out)
}

/// Appends the point of base aggregates, if some were read.
fn write_base(base: Option<u64>, out: &mut Vec<u8>) -> Result<(), AllocError>
    ensures { OnOk result (out.new.items ≡ out.old.items ++ spaced (base_parts base)) }
{
    match base {
        Some(point) => write_fields(&[Field::At("base", point)], out),
        None => Ok(()),
    }
}

/// Appends what an entry says.
fn write_entry(entry: &TrailEntry, out: &mut Vec<u8>) -> Result<(), AllocError>
    ensures { OnOk result (out.new.items ≡ out.old.items ++ spaced (entry_parts entry.now)) }
{
    match entry {
        TrailEntry::Refresh { p, rows, base } => {
            write_refresh(*p, *rows, out)?;
            write_base(*base, out)
        }
        TrailEntry::Block {
            from,
            to,
            inserts,
            updates,
            deletes,
            base,
        } => {
            write_block(*from, *to, *inserts, *updates, *deletes, out)?;
            write_base(*base, out)
        }
        TrailEntry::Load { m, f, rows } => write_load(*m, *f, *rows, out),
        TrailEntry::Settle {
            m,
            f,
            rejected,
            applied,
        } => write_settle(*m, *f, *rejected, *applied, out),
    }
}

/// Appends the line of an entry of a trail. Entries are numbered from 1.
pub fn write_trail_entry(
    number: u64,
    entry: &TrailEntry,
    out: &mut Vec<u8>,
) -> Result<(), AllocError>
    ensures { OnOk result (out.new.items ≡ out.old.items ++ trail_line number entry.now) }
{
    write_text("row", out)?;
    write_fields(&[Field::Number(number)], out)?;
    write_entry(entry, out)?;
    write_end(out)
}
