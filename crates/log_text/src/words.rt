//! The words of a line.

ghost use Rattle.std.specs.Prelude.{◌≡◌, ◌<◌, ◌≤◌, ◌∷◌, [], length, take, drop, IfSome};
ghost use Rattle.std.specs.Prelude.{MatchOption};
ghost use Rattle.log_text.specs.Words.{is_end as is_end_lem, quoted_after as quoted_after_lem};
ghost use Rattle.log_text.specs.Words.{words as words_lem, StartsNoBlank};

/// The line from its first byte that isn't blank.
fn skip_blanks(line: &[u8]) -> &[u8]
    ensures same { words_lem result.now ≡ words_lem line.now }
    ensures start { StartsNoBlank result.now }
    ensures shorter { length result.now ≤ length line.now }
{
    for (at, byte) in line.iter().enumerate() {
        if *byte != b' ' {
            return &line[at..];
        }
    }
    &line[line.len()..]
}

/// Whether a byte ends a word: a blank that doesn't stand between quotes.
fn is_end(quoted: bool, byte: u8) -> bool
    ensures { result ≡ is_end_lem quoted byte }
{
    byte == b' ' && !quoted
}

/// Whether the byte after this one stands between quotes: a quote opens, and the next one closes.
fn quoted_after(quoted: bool, byte: u8) -> bool
    ensures { result ≡ quoted_after_lem quoted byte }
{
    if byte == b'\'' { !quoted } else { quoted }
}

/// Where the word that a line begins with ends: at the first blank that doesn't stand between
/// quotes, or at the line's end.
fn word_end(line: &[u8]) -> usize
    requires start { StartsNoBlank line.now }
    requires some { 0 < length line.now }
    ensures within { result ≤ length line.now }
    ensures moves { 0 < result }
    ensures word { words_lem line.now ≡ take result line.now ∷ words_lem (drop result line.now) }
{
    let mut quoted = false;
    for (at, byte) in line.iter().enumerate() {
        if is_end(quoted, *byte) {
            return at;
        }
        quoted = quoted_after(quoted, *byte);
    }
    line.len()
}

/// The first word of a line, and what follows it. Words stand between blanks, but a blank between
/// quotes is part of its word.
pub fn next_word(line: &[u8]) -> Option<(&[u8], &[u8])>
    ensures words { MatchOption result (words_lem line.now ≡ []) (λ found. words_lem line.now
        ≡ found.0.now ∷ words_lem found.1.now) }
    ensures shorter { IfSome result (λ found. length found.1.now < length line.now) }
{
    let rest = skip_blanks(line);
    if rest.is_empty() {
        return None;
    }
    Some(rest.split_at(word_end(rest)))
}
