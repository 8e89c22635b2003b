//! The fields of a line, and how they are written.

ghost use Rattle.std.specs.Prelude.{◌≡◌, ◌++◌, ◌∷◌, [], codes, decimal, map, OnOk};
ghost use Rattle.repl_types.specs.ValueText.{value_text};
ghost use Rattle.log_text.specs.Words.{blank};
ghost use Rattle.log_text.specs.RecordText.{spaced};
ghost use Rattle.reply_text.specs.Lines.{whole_line, position_text, point_text, table_text};
ghost use Rattle.reply_text.specs.Lines.{set_text, bytes_text};
ghost use Rattle.reply_text.specs.Fields.{field_text};

use itoa::Buffer;
use repl_types::{Bytes, Name, Row, Sequence, SetId, write_sequence, write_value};
use std::alloc::AllocError;

/// What stands on a line after its first words. Fields have a blank between each two.
#[derive(Clone, Copy)]
pub(crate) enum Field<'a> {
    /// A text as it is.
    Text(&'a str),
    /// A number.
    Number(u64),
    /// A position of a log.
    Position(u64),
    /// A place in a log, with its sub-number.
    Place(Sequence),
    /// A name.
    Name(&'a Name),
    /// The name of a table: its server's name and its own.
    Table(&'a Name, &'a Name),
    /// The name of a set.
    Set(&'a SetId),
    /// Bytes in hexadecimal digits.
    Bytes(&'a Bytes),
    /// The name of a rule, by its number.
    Rule(u8),
    /// A number after its label.
    Count(&'a str, u64),
    /// A position after its label.
    At(&'a str, u64),
    /// A position, or `none`, after its label.
    Point(&'a str, Option<u64>),
}

/// The hexadecimal digits, from 0 on.
const HEX_DIGITS: &[u8; 16] = b"0123456789abcdef";

/// Appends a text.
pub(crate) fn write_text(text: &str, out: &mut Vec<u8>) -> Result<(), AllocError>
    ensures { OnOk result (out.new.items ≡ out.old.items ++ text.now) }
{
    out.extend_from_slice(text.as_bytes())
}

/// Appends a number.
fn write_number(number: u64, out: &mut Vec<u8>) -> Result<(), AllocError>
    ensures { OnOk result (out.new.items ≡ out.old.items ++ decimal number) }
{
    write_text(Buffer::new().format(number), out)
}

/// Appends a position.
fn write_position(position: u64, out: &mut Vec<u8>) -> Result<(), AllocError>
    ensures { OnOk result (out.new.items ≡ out.old.items ++ position_text position) }
{
    write_sequence(&Sequence { position, sub: 0 }, out)
}

/// Appends a position, or `none`.
fn write_point(point: Option<u64>, out: &mut Vec<u8>) -> Result<(), AllocError>
    ensures { OnOk result (out.new.items ≡ out.old.items ++ point_text point) }
{
    match point {
        Some(position) => write_position(position, out),
        None => write_text("none", out),
    }
}

/// Appends a name.
fn write_name(name: &Name, out: &mut Vec<u8>) -> Result<(), AllocError>
    ensures { OnOk result (out.new.items ≡ out.old.items ++ name.now) }
{
    write_text(name.as_str(), out)
}

/// Appends the name of a table.
fn write_table(server: &Name, table: &Name, out: &mut Vec<u8>) -> Result<(), AllocError>
    ensures { OnOk result (out.new.items ≡ out.old.items ++ table_text server.now table.now) }
{
    write_name(server, out)?;
    write_text(".", out)?;
    write_name(table, out)
}

/// Appends the name of a set.
fn write_set(set: &SetId, out: &mut Vec<u8>) -> Result<(), AllocError>
    ensures { OnOk result (out.new.items ≡ out.old.items ++ set_text set.now) }
{
    write_name(&set.qual, out)?;
    write_text("/", out)?;
    write_name(&set.name, out)
}

/// Appends bytes, two hexadecimal digits each.
fn write_bytes(bytes: &Bytes, out: &mut Vec<u8>) -> Result<(), AllocError>
    ensures { OnOk result (out.new.items ≡ out.old.items ++ bytes_text bytes.now) }
{
    for byte in bytes.as_slice() {
        out.push(HEX_DIGITS[(*byte / 16) as usize])?;
        out.push(HEX_DIGITS[(*byte % 16) as usize])?;
    }
    Ok(())
}

/// Appends a label, and a blank after it.
fn write_label(label: &str, out: &mut Vec<u8>) -> Result<(), AllocError>
    ensures { OnOk result (out.new.items ≡ out.old.items ++ label.now ++ blank ∷ []) }
{
    write_text(label, out)?;
    Ok(out.push(b' ')?)
}

/// Appends a field.
fn write_field(field: &Field<'_>, out: &mut Vec<u8>) -> Result<(), AllocError>
    ensures { OnOk result (out.new.items ≡ out.old.items ++ field_text field.now) }
{
    match field {
        Field::Text(text) => write_text(text, out),
        Field::Number(number) => write_number(*number, out),
        Field::Position(position) => write_position(*position, out),
        Field::Place(sequence) => write_sequence(sequence, out),
        Field::Name(name) => write_name(name, out),
        Field::Table(server, table) => write_table(server, table, out),
        Field::Set(set) => write_set(set, out),
        Field::Bytes(bytes) => write_bytes(bytes, out),
        Field::Rule(rule) => {
            write_text("V", out)?;
            write_number(u64::from(*rule), out)
        }
        Field::Count(label, number) => {
            write_label(label, out)?;
            write_number(*number, out)
        }
        Field::At(label, position) => {
            write_label(label, out)?;
            write_position(*position, out)
        }
        Field::Point(label, point) => {
            write_label(label, out)?;
            write_point(*point, out)
        }
    }
}

/// Appends fields, with a blank before each.
pub(crate) fn write_fields(fields: &[Field<'_>], out: &mut Vec<u8>) -> Result<(), AllocError>
    ensures { OnOk result (out.new.items ≡ out.old.items ++ spaced (map field_text fields.now)) }
{
    for field in fields {
        out.push(b' ')?;
        write_field(field, out)?;
    }
    Ok(())
}

/// Appends the texts of a row's values, with a blank before each.
pub(crate) fn write_values(row: &Row, out: &mut Vec<u8>) -> Result<(), AllocError>
    ensures { OnOk result (out.new.items ≡ out.old.items ++ spaced (map value_text row.now)) }
{
    for value in row.as_slice() {
        out.push(b' ')?;
        write_value(value, out)?;
    }
    Ok(())
}

/// Appends the end of a line.
pub(crate) fn write_end(out: &mut Vec<u8>) -> Result<(), AllocError>
    ensures { OnOk result (out.new.items ≡ out.old.items ++ codes "\n") }
{
    Ok(out.push(b'\n')?)
}

/// Appends a line: its first words, and fields.
pub(crate) fn write_line(
    start: &str,
    fields: &[Field<'_>],
    out: &mut Vec<u8>,
) -> Result<(), AllocError>
    ensures { OnOk result (out.new.items
        ≡ out.old.items ++ whole_line (start.now ∷ map field_text fields.now)) }
{
    write_text(start, out)?;
    write_fields(fields, out)?;
    write_end(out)
}
