//! The lines of refusals.

ghost use Rattle.std.specs.Prelude.{◌≡◌, ◌++◌, ◌∷◌, [], codes, decimal, OnOk};
ghost use Rattle.log_text.specs.RecordText.{spaced};
ghost use Rattle.reply_text.specs.Refusals.{refusal_number, refusal_word, def_place, item_place};
ghost use Rattle.reply_text.specs.Refusals.{gap_place, limit_word as limit_word_lem};
ghost use Rattle.reply_text.specs.Refusals.{refusal_place, refusal_line};

use crate::fields::{Field, write_end, write_fields, write_text};
use repl_types::{DefPlace, GapPlace, ItemName, LimitKind, Name, Refusal};
use std::alloc::AllocError;

/// The number and the word of a refusal.
fn number_and_word(refusal: &Refusal) -> (u64, &'static str)
    ensures number { result.0 ≡ refusal_number refusal.now }
    ensures word { result.1.now ≡ refusal_word refusal.now }
{
    match refusal {
        Refusal::UnknownCommand { .. } => (1, "UnknownCommand"),
        Refusal::BadLine { .. } => (2, "BadLine"),
        Refusal::LineTooLong { .. } => (3, "LineTooLong"),
        Refusal::BadDefinition { .. } => (4, "BadDefinition"),
        Refusal::DefinitionDiffers(_) => (5, "DefinitionDiffers"),
        Refusal::NoSuchServer(_) => (6, "NoSuchServer"),
        Refusal::NoSuchTable { .. } => (7, "NoSuchTable"),
        Refusal::NoSuchSet { .. } => (8, "NoSuchSet"),
        Refusal::BadLog { .. } => (9, "BadLog"),
        Refusal::NotApplicable { .. } => (10, "NotApplicable"),
        Refusal::LogFull(_) => (11, "LogFull"),
        Refusal::RefreshDisabled(_) => (12, "RefreshDisabled"),
        Refusal::Behind { .. } => (13, "Behind"),
        Refusal::LimitReached(_) => (14, "LimitReached"),
    }
}

/// The word of a limit.
fn limit_word(kind: LimitKind) -> &'static str
    ensures { result.now ≡ limit_word_lem kind }
{
    match kind {
        LimitKind::Tables => "tables",
        LimitKind::Registrations => "registrations",
        LimitKind::Sets => "sets",
        LimitKind::Columns => "columns",
        LimitKind::Members => "members",
        LimitKind::LoadBody => "load_body",
        LimitKind::Definition => "definition",
        LimitKind::Generate => "generate",
    }
}

/// Appends a number after its label.
fn write_numbered(label: &str, number: u32, out: &mut Vec<u8>) -> Result<(), AllocError>
    ensures { OnOk result (out.new.items
        ≡ out.old.items ++ spaced (label.now ∷ decimal number ∷ [])) }
{
    write_fields(&[Field::Count(label, u64::from(number))], out)
}

/// Appends the item of a text of definitions that breaks a rule.
fn write_def_place(place: DefPlace, out: &mut Vec<u8>) -> Result<(), AllocError>
    ensures { OnOk result (out.new.items ≡ out.old.items ++ spaced (def_place place)) }
{
    match place {
        DefPlace::Whole => write_fields(&[Field::Text("-")], out),
        DefPlace::Table(number) => write_numbered("table", number, out),
        DefPlace::Registration(number) => write_numbered("registration", number, out),
        DefPlace::Set(number) => write_numbered("set", number, out),
        DefPlace::Member { set, member } => {
            write_numbered("set", set, out)?;
            write_numbered("member", member, out)
        }
    }
}

/// Appends a definition by name.
fn write_item(item: &ItemName, out: &mut Vec<u8>) -> Result<(), AllocError>
    ensures { OnOk result (out.new.items ≡ out.old.items ++ spaced (item_place item.now)) }
{
    match item {
        ItemName::Table { server, table } => {
            write_fields(&[Field::Text("table"), Field::Table(server, table)], out)
        }
        ItemName::Registration { server, table } => {
            write_fields(
                &[Field::Text("registration"), Field::Table(server, table)],
                out,
            )
        }
        ItemName::Set(set) => write_fields(&[Field::Text("set"), Field::Set(set)], out),
    }
}

/// Appends where a set has a gap, or that it is a replica set.
fn write_gap(gap: &GapPlace, out: &mut Vec<u8>) -> Result<(), AllocError>
    ensures { OnOk result (out.new.items ≡ out.old.items ++ spaced (gap_place gap.now)) }
{
    match gap {
        GapPlace::Inactive { server, table } => {
            write_fields(&[Field::Table(server, table), Field::Text("inactive")], out)
        }
        GapPlace::Above { server, table, seq } => {
            write_fields(&[Field::Table(server, table), Field::Position(*seq)], out)
        }
        GapPlace::Uow { server, seq } => {
            write_fields(&[Field::Name(server), Field::At("uow", *seq)], out)
        }
        GapPlace::Replica(set) => write_fields(&[Field::Set(set), Field::Text("replica")], out),
    }
}

/// Appends a broken rule, and the item that breaks it.
fn write_broken(rule: u8, place: DefPlace, out: &mut Vec<u8>) -> Result<(), AllocError>
    ensures { OnOk result (out.new.items
        ≡ out.old.items ++ spaced (refusal_place (Refusal.BadDefinition rule place))) }
{
    write_fields(&[Field::Rule(rule)], out)?;
    write_def_place(place, out)
}

/// Appends the name of a set, or a qualifier.
fn write_unknown_set(qual: &Name, name: &Option<Name>, out: &mut Vec<u8>) -> Result<(), AllocError>
    ensures { OnOk result (out.new.items
        ≡ out.old.items ++ spaced (refusal_place (Refusal.NoSuchSet qual.now name.now))) }
{
    write_fields(&[Field::Name(qual)], out)?;
    let Some(name) = name else {
        return Ok(());
    };
    write_text("/", out)?;
    write_text(name.as_str(), out)
}

/// Appends what a refusal speaks of.
fn write_place(refusal: &Refusal, out: &mut Vec<u8>) -> Result<(), AllocError>
    ensures { OnOk result (out.new.items ≡ out.old.items ++ spaced (refusal_place refusal.now)) }
{
    match refusal {
        Refusal::UnknownCommand { line }
        | Refusal::BadLine { line }
        | Refusal::LineTooLong { line }
        | Refusal::BadLog { line }
        | Refusal::NotApplicable { line } => write_fields(&[Field::Count("line", *line)], out),
        Refusal::BadDefinition { rule, place } => write_broken(*rule, *place, out),
        Refusal::DefinitionDiffers(item) => write_item(item, out),
        Refusal::NoSuchServer(server) | Refusal::LogFull(server) => {
            write_fields(&[Field::Name(server)], out)
        }
        Refusal::NoSuchTable { server, table } => write_fields(&[Field::Table(server, table)], out),
        Refusal::NoSuchSet { qual, name } => write_unknown_set(qual, name, out),
        Refusal::RefreshDisabled(gap) => write_gap(gap, out),
        Refusal::Behind {
            server,
            captured,
            last,
        } => {
            let fields = [
                Field::Name(server),
                Field::Position(*captured),
                Field::Position(*last),
            ];
            write_fields(&fields, out)
        }
        Refusal::LimitReached(kind) => write_fields(&[Field::Text(limit_word(*kind))], out),
    }
}

/// Appends the line of a refusal: its number, its word, and what it speaks of.
pub fn write_refusal(refusal: &Refusal, out: &mut Vec<u8>) -> Result<(), AllocError>
    ensures { OnOk result (out.new.items ≡ out.old.items ++ refusal_line refusal.now) }
{
    let (number, word) = number_and_word(refusal);
    write_text("refused", out)?;
    write_fields(&[Field::Number(number), Field::Text(word)], out)?;
    write_place(refusal, out)?;
    write_end(out)
}
