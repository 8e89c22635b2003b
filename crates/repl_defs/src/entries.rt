//! The entries of the lists named `columns` in a text of definitions.

ghost use Rattle.std.specs.Prelude.{◌≡◌, ◌≤◌, length};
ghost use Rattle.std.specs.List.{prefix_len, suffix_len};
ghost use Rattle.std.specs.Option.{option_map, option_and_then};
ghost use Rattle.repl_defs.specs.Entries.{place_of as place_of_lem, part_before, part_after};
ghost use Rattle.repl_defs.specs.Entries.{is_blank, without_outer_blanks};
ghost use Rattle.repl_defs.specs.Entries.{form_of as form_of_lem, column_name, column_form};
ghost use Rattle.repl_defs.specs.Entries.{target_name, source_part};

use repl_types::Kind;

/// The place of the first byte with this value.
fn place_of(byte: u8, entry: &[u8]) -> Option<usize>
    ensures { result ≡ place_of_lem byte entry.now }
{
    entry.iter().position(|b| *b == byte)
}

/// The bytes before and after the first byte with this value, if there is one.
fn split_at_byte(byte: u8, entry: &[u8]) -> Option<(&[u8], &[u8])>
    ensures before { option_map (λ parts. parts.0.now) result ≡ part_before byte entry.now }
    ensures after { option_map (λ parts. parts.1.now) result ≡ part_after byte entry.now }
{
    let place = place_of(byte, entry)?;
    Some((&entry[..place], &entry[place + 1..]))
}

/// How many blanks bytes begin with.
fn first_blanks(bytes: &[u8]) -> usize
    ensures bound { result ≤ length bytes.now }
    ensures value { result ≡ prefix_len is_blank bytes.now }
{
    bytes.iter().take_while(|byte| **byte == b' ').count()
}

/// How many blanks bytes end with.
fn last_blanks(bytes: &[u8]) -> usize
    ensures bound { result ≤ length bytes.now }
    ensures value { result ≡ suffix_len is_blank bytes.now }
{
    bytes.iter().rev().take_while(|byte| **byte == b' ').count()
}

/// Bytes without the blanks at both ends.
fn trim_blanks(bytes: &[u8]) -> &[u8]
    ensures { result.now ≡ without_outer_blanks bytes.now }
{
    let from_first = &bytes[first_blanks(bytes)..];
    &from_first[..from_first.len() - last_blanks(from_first)]
}

/// The kind of a column and whether it may be NULL, if these bytes are one of the four forms.
fn form_of(form: &[u8]) -> Option<(Kind, bool)>
    ensures { result ≡ form_of_lem form.now }
{
    if form == b"int".as_slice() {
        Some((Kind::Int, false))
    } else if form == b"text".as_slice() {
        Some((Kind::Text, false))
    } else if form == b"int null".as_slice() {
        Some((Kind::Int, true))
    } else if form == b"text null".as_slice() {
        Some((Kind::Text, true))
    } else {
        None
    }
}

/// The name and the form of an entry of a table's columns: `NAME int`, `NAME text`,
/// `NAME int null` or `NAME text null`. `None` is returned if the entry has no blank.
pub fn split_column(entry: &[u8]) -> Option<(&[u8], Option<(Kind, bool)>)>
    ensures name { option_map (λ parts. parts.0.now) result ≡ column_name entry.now }
    ensures form { option_and_then (λ parts. parts.1) result ≡ column_form entry.now }
{
    let (name, form) = split_at_byte(b' ', entry)?;
    Some((name, form_of(form)))
}

/// The name and the source of an entry of a member's columns, `NAME = SOURCE`. `None` is returned
/// if the entry has no `=`.
pub fn split_target(entry: &[u8]) -> Option<(&[u8], &[u8])>
    ensures name { option_map (λ parts. parts.0.now) result ≡ target_name entry.now }
    ensures source { option_map (λ parts. parts.1.now) result ≡ source_part entry.now }
{
    let (name, source) = split_at_byte(b'=', entry)?;
    Some((trim_blanks(name), source))
}
