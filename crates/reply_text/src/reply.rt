//! The lines that close replies.

ghost use Rattle.std.specs.Prelude.{◌≡◌, ◌++◌, OnOk};
ghost use Rattle.reply_text.specs.Replies.{flag_text as flag_text_lem, reply_line};

use crate::fields::{Field, write_line};
use crate::status::{ReadOnlyStatus, ReplicaStatus, ServerStatus};
use repl_types::{Bytes, Name};
use std::alloc::AllocError;

/// The line that closes the reply of a command that isn't refused. Each says which command it is
/// of; that of `step` is the line of the step alone.
#[derive(Clone, Debug, Drop, PartialEq, Eq)]
pub enum Reply {
    /// `load`: how many tables, registrations and sets are new.
    Loaded {
        tables: u64,
        registrations: u64,
        sets: u64,
    },
    /// `feed`: how many records were taken, and the last position of the log.
    Fed {
        records: u64,
        last: u64,
    },
    /// `capture`: the point up to which the log is captured, how many units were taken, and how
    /// many change rows they gave.
    Captured {
        captured: u64,
        units: u64,
        rows: u64,
    },
    /// `prune`: how many change rows and how many captured units were removed.
    Pruned {
        change_rows: u64,
        units: u64,
    },
    /// `apply`: how many steps were made, the idle one not counted.
    Applied {
        steps: u64,
    },
    /// `refresh`.
    Flagged,
    /// `stop`: the seq of its unit.
    Stopped {
        seq: u64,
    },
    /// `generate`: how many units and changes were made, and the last position of the log.
    Generated {
        units: u64,
        changes: u64,
        last: u64,
    },
    /// `rounds`: how many sets there are, and how many units were accepted, rejected and applied.
    Rounds {
        sets: u64,
        accepted: u64,
        rejected: u64,
        applied: u64,
    },
    /// `audit`, if what is stored is as the logs say.
    AuditSame,
    /// `audit`, if it isn't: the table that differs, and the first key at which it does, as it is
    /// stored.
    AuditDiffers {
        table: Name,
        key: Bytes,
    },
    /// `show`: how many rows were shown.
    Shown {
        rows: u64,
    },
    /// `status` of a server.
    Server(ServerStatus),
    /// `status` of a read-only set.
    ReadOnlySet(ReadOnlyStatus),
    /// `status` of a replica set.
    ReplicaSet(ReplicaStatus),
}

/// Appends the line of a `load`.
fn write_loaded(
    tables: u64,
    registrations: u64,
    sets: u64,
    out: &mut Vec<u8>,
) -> Result<(), AllocError>
    ensures { OnOk result (out.new.items
        ≡ out.old.items ++ reply_line (Reply.Loaded tables registrations sets)) }
{
    let counts = [
        Field::Count("tables", tables),
        Field::Count("registrations", registrations),
        Field::Count("sets", sets),
    ];
    write_line("ok loaded", &counts, out)
}

/// Appends the line of a `feed`.
fn write_fed(records: u64, last: u64, out: &mut Vec<u8>) -> Result<(), AllocError>
    ensures { OnOk result (out.new.items
        ≡ out.old.items ++ reply_line (Reply.Fed records last)) }
{
    let fields = [Field::Number(records), Field::At("last", last)];
    write_line("ok fed", &fields, out)
}

/// Appends the line of a `capture`.
fn write_captured(captured: u64, units: u64, rows: u64, out: &mut Vec<u8>) -> Result<(), AllocError>
    ensures { OnOk result (out.new.items
        ≡ out.old.items ++ reply_line (Reply.Captured captured units rows)) }
{
    let fields = [
        Field::Position(captured),
        Field::Count("units", units),
        Field::Count("rows", rows),
    ];
    write_line("ok captured", &fields, out)
}

/// Appends the line of a `prune`.
fn write_pruned(change_rows: u64, units: u64, out: &mut Vec<u8>) -> Result<(), AllocError>
    ensures { OnOk result (out.new.items
        ≡ out.old.items ++ reply_line (Reply.Pruned change_rows units)) }
{
    let counts = [Field::Count("cd", change_rows), Field::Count("uow", units)];
    write_line("ok pruned", &counts, out)
}

/// Appends the line of a `generate`.
fn write_generated(units: u64, changes: u64, last: u64, out: &mut Vec<u8>) -> Result<(), AllocError>
    ensures { OnOk result (out.new.items
        ≡ out.old.items ++ reply_line (Reply.Generated units changes last)) }
{
    let fields = [
        Field::Count("units", units),
        Field::Count("changes", changes),
        Field::At("last", last),
    ];
    write_line("ok generated", &fields, out)
}

/// Appends the line of a `rounds`.
fn write_rounds(
    sets: u64,
    accepted: u64,
    rejected: u64,
    applied: u64,
    out: &mut Vec<u8>,
) -> Result<(), AllocError>
    ensures { OnOk result (out.new.items
        ≡ out.old.items ++ reply_line (Reply.Rounds sets accepted rejected applied)) }
{
    let counts = [
        Field::Count("sets", sets),
        Field::Count("accepted", accepted),
        Field::Count("rejected", rejected),
        Field::Count("applied", applied),
    ];
    write_line("ok rounds", &counts, out)
}

/// Appends the line of an `audit` that found a difference.
fn write_difference(table: &Name, key: &Bytes, out: &mut Vec<u8>) -> Result<(), AllocError>
    ensures { OnOk result (out.new.items
        ≡ out.old.items ++ reply_line (Reply.AuditDiffers table.now key.now)) }
{
    let fields = [Field::Name(table), Field::Bytes(key)];
    write_line("ok audit differs", &fields, out)
}

/// Appends the last line of a `status` of a server.
fn write_server(status: &ServerStatus, out: &mut Vec<u8>) -> Result<(), AllocError>
    ensures { OnOk result (out.new.items
        ≡ out.old.items ++ reply_line (Reply.Server status.now)) }
{
    let fields = [
        Field::At("last", status.last),
        Field::At("commit", status.commit),
        Field::Count("time", status.time),
        Field::At("captured", status.captured),
        Field::At("restart", status.restart),
        Field::At("floor", status.floor),
    ];
    write_line("ok", &fields, out)
}

/// 1 or 0.
fn flag_text(flag: bool) -> &'static str
    ensures { result.now ≡ flag_text_lem flag }
{
    if flag { "1" } else { "0" }
}

/// Appends the line of a `status` of a read-only set.
fn write_read_only_set(status: &ReadOnlyStatus, out: &mut Vec<u8>) -> Result<(), AllocError>
    ensures { OnOk result (out.new.items
        ≡ out.old.items ++ reply_line (Reply.ReadOnlySet status.now)) }
{
    let fields = [
        Field::Set(&status.set),
        Field::Point("synchpoint", status.synchpoint),
        Field::Point("base", status.base),
        Field::Text("flag"),
        Field::Text(flag_text(status.flag)),
        Field::Count("trail", status.entries),
        Field::At("mark", status.mark),
    ];
    write_line("ok set", &fields, out)
}

/// Appends the line of a `status` of a replica set.
fn write_replica_set(status: &ReplicaStatus, out: &mut Vec<u8>) -> Result<(), AllocError>
    ensures { OnOk result (out.new.items
        ≡ out.old.items ++ reply_line (Reply.ReplicaSet status.now)) }
{
    let fields = [
        Field::Set(&status.set),
        Field::Point("m", status.m),
        Field::Point("f", status.f),
        Field::At("t", status.t),
        Field::At("d", status.d),
        Field::Count("trail", status.entries),
        Field::At("mark", status.mark),
    ];
    write_line("ok set", &fields, out)
}

/// Appends the line of a reply.
pub fn write_reply(reply: &Reply, out: &mut Vec<u8>) -> Result<(), AllocError>
    ensures { OnOk result (out.new.items ≡ out.old.items ++ reply_line reply.now) }
{
    match reply {
        Reply::Loaded {
            tables,
            registrations,
            sets,
        } => write_loaded(*tables, *registrations, *sets, out),
        Reply::Fed { records, last } => write_fed(*records, *last, out),
        Reply::Captured {
            captured,
            units,
            rows,
        } => write_captured(*captured, *units, *rows, out),
        Reply::Pruned { change_rows, units } => write_pruned(*change_rows, *units, out),
        Reply::Applied { steps } => write_line("ok apply", &[Field::Count("steps", *steps)], out),
        Reply::Flagged => write_line("ok flagged", &[], out),
        Reply::Stopped { seq } => write_line("ok stop", &[Field::Position(*seq)], out),
        Reply::Generated {
            units,
            changes,
            last,
        } => write_generated(*units, *changes, *last, out),
        Reply::Rounds {
            sets,
            accepted,
            rejected,
            applied,
        } => write_rounds(*sets, *accepted, *rejected, *applied, out),
        Reply::AuditSame => write_line("ok audit same", &[], out),
        Reply::AuditDiffers { table, key } => write_difference(table, key, out),
        Reply::Shown { rows } => write_line("ok", &[Field::Count("rows", *rows)], out),
        Reply::Server(status) => write_server(status, out),
        Reply::ReadOnlySet(status) => write_read_only_set(status, out),
        Reply::ReplicaSet(status) => write_replica_set(status, out),
    }
}
