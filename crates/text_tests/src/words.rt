//! Words of a command line, by hand.

use repl_commands::WordsError;
use run_words::{LEAST_CELLS, MOST_CELLS, Opening, USUAL_CELLS, server_words};
use std::alloc::{AllocError, Global};
use std::test::Fail;

/// What these words ask for.
fn ask(alloc: Global, words: &[&str]) -> Result<Opening, WordsError> {
    let mut strings = Vec::new(alloc);
    for word in words {
        strings.push(String::from_str(alloc, word)?)?;
    }
    server_words(alloc, &strings)
}

/// Whether these words are Usage.
fn are_usage(alloc: Global, words: &[&str]) -> bool {
    matches!(ask(alloc, words), Err(WordsError::Usage))
}

/// Whether these words ask for these servers, each a name and a path, and for the usual number of
/// cells.
fn ask_for(alloc: Global, words: &[&str], servers: &[(&str, &str)]) -> bool {
    let Ok(
        Opening::Servers {
            cells,
            servers: found,
        },
    ) = ask(alloc, words)
    else {
        return false;
    };
    let mut pairs = found.as_slice().iter().zip(servers);
    cells == USUAL_CELLS
        && found.len() == servers.len()
        && pairs.all(|(server, (name, path))| {
            server.name.as_str() == *name && server.path.as_str() == *path
        })
}

/// How many cells these words ask for.
fn cells_of(alloc: Global, words: &[&str]) -> Option<u32> {
    match ask(alloc, words) {
        Ok(Opening::Servers { cells, .. }) => Some(cells),
        _ => None,
    }
}

/// A letter this many times, and then an end.
fn repeat(alloc: Global, letter: char, count: u32, end: &str) -> Result<String, AllocError> {
    let mut text = String::new(alloc);
    for _ in 0..count {
        text.push(letter)?;
    }
    text.push_str(end)?;
    Ok(text)
}

#[test]
fn copy_is_one_word(rt: HostRuntime) {
    let alloc = rt.alloc();
    assert!(rt; matches!(ask(alloc, &["copy"]), Ok(Opening::Copy)));
    assert!(rt; are_usage(alloc, &[]));
    assert!(rt; are_usage(alloc, &["copy", "copy"]));
    assert!(rt; are_usage(alloc, &["copy", "hq=:map:"]));
    assert!(rt; are_usage(alloc, &["Copy"]));
}

#[test]
fn a_word_is_split_at_its_first_equals_sign(rt: HostRuntime) {
    let alloc = rt.alloc();
    assert!(rt; ask_for(alloc, &["hq=:map:"], &[("hq", ":map:")]));
    assert!(rt; ask_for(alloc, &["hq=a=b"], &[("hq", "a=b")]));
    assert!(rt; ask_for(alloc, &["hq=="], &[("hq", "=")]));
    for word in ["hq=", "=a", "Hq=a", "hq =a", "hq", "=", ""] {
        assert!(rt; are_usage(alloc, &[word]), "{word}");
    }
}

#[test]
fn a_run_has_16_to_1048576_cells_and_usually_16384(rt: HostRuntime) {
    let alloc = rt.alloc();
    assert_eq!(rt;
        (LEAST_CELLS, MOST_CELLS, USUAL_CELLS),
        (16, 1_048_576, 16_384)
    );
    assert_eq!(rt; cells_of(alloc, &["hq=a"]), Some(16_384));
    for (text, cells) in [("16", 16), ("1048576", 1_048_576)] {
        assert_eq!(rt;
            cells_of(alloc, &["--cells", text, "hq=a"]),
            Some(cells),
            "{text}"
        );
    }
    for text in ["15", "1048577", "0", "4294967312", "18446744073709551632"] {
        assert!(rt; are_usage(alloc, &["--cells", text, "hq=a"]), "{text}");
    }
}

#[test]
fn cells_have_one_spelling(rt: HostRuntime) {
    let alloc = rt.alloc();
    for text in [
        "016", "+16", "-16", "-", "", " 16", "16 ", "1_6", "0x10", "16=17", "x",
    ] {
        assert!(rt; are_usage(alloc, &["--cells", text, "hq=a"]), "{text:?}");
    }
    for word in ["--cells=", "--cells=016", "--cells=+16", "--cells=16=17"] {
        assert!(rt; are_usage(alloc, &[word, "hq=a"]), "{word}");
    }
}

/// Words that ask for the server `hq` at `a`, and for 16 cells.
const OPTION_AT_ITS_PLACES: [&[&str]; 6] = [
    &["--cells", "16", "hq=a"],
    &["--cells=16", "hq=a"],
    &["hq=a", "--cells", "16"],
    &["hq=a", "--cells=16"],
    &["--cells", "16", "--", "hq=a"],
    &["--cells=16", "--", "hq=a"],
];

#[test]
fn the_option_stands_before_the_servers_or_after_them(rt: HostRuntime) {
    let alloc = rt.alloc();
    for words in OPTION_AT_ITS_PLACES {
        assert_eq!(rt; cells_of(alloc, words), Some(16), "{words:?}");
    }
    assert!(rt; ask_for(alloc, &["--", "hq=a"], &[("hq", "a")]));
    assert!(rt;
        ask_for(
            alloc,
            &["hq=a", "--", "shop=b"],
            &[("hq", "a"), ("shop", "b")]
        )
    );
}

/// Words that the command doesn't take, or of which a word that it takes for a server's is none.
const REFUSED_OPTIONS: [&[&str]; 18] = [
    &["--cells", "16"],
    &["--cells"],
    &["hq=a", "--cells"],
    &["--cells", "hq=a"],
    &["--cells", "--", "hq=a"],
    &["--cells", "16", "--cells", "17", "hq=a"],
    &["--cells", "16", "hq=a", "--cells=16"],
    &["hq=a", "--cells", "16", "shop=b"],
    &["hq=a", "--cells=16", "shop=b"],
    &["--", "--cells=16"],
    &["hq=a", "--", "--cells", "16"],
    &["--cell", "16", "hq=a"],
    &["-c", "16", "hq=a"],
    &["-cells", "16", "hq=a"],
    &["hq=a", "-"],
    &["--cells", "16", "copy"],
    &["--", "copy"],
    &["--"],
];

#[test]
fn other_uses_of_options_are_usage(rt: HostRuntime) {
    let alloc = rt.alloc();
    for words in REFUSED_OPTIONS {
        assert!(rt; are_usage(alloc, words), "{words:?}");
    }
}

#[test]
fn help_and_version_ask_for_no_run(rt: HostRuntime) {
    let alloc = rt.alloc();
    for word in ["--help", "-h", "--version", "-V"] {
        assert!(rt; are_usage(alloc, &[word]), "{word}");
        assert!(rt; are_usage(alloc, &["hq=a", word]), "{word}");
    }
}

#[test]
fn servers_have_names_and_paths_of_their_own(rt: HostRuntime) {
    let alloc = rt.alloc();
    assert!(rt; are_usage(alloc, &["hq=:map:", "hq=:map:"]));
    assert!(rt; are_usage(alloc, &["hq=a", "shop=b", "hq=c"]));
    assert!(rt; are_usage(alloc, &["hq=a", "shop=a"]));
    let in_memory = [("hq", ":map:"), ("shop", ":map:")];
    assert!(rt; ask_for(alloc, &["hq=:map:", "shop=:map:"], &in_memory));
    let apart = [("shop", "b"), ("hq", "a")];
    assert!(rt; ask_for(alloc, &["shop=b", "hq=a"], &apart));
}

#[test]
fn a_name_has_32_characters_and_a_path_1000_bytes(rt: HostRuntime) -> Result<(), Fail> {
    let alloc = rt.alloc();
    let path = repeat(alloc, 'p', 1000, "")?;
    let word = format!(in alloc; "hq={path}")?;
    assert!(rt; ask_for(alloc, &[word.as_str()], &[("hq", path.as_str())]));
    let longer = format!(in alloc; "hq={path}p")?;
    assert!(rt; are_usage(alloc, &[longer.as_str()]));
    let name = repeat(alloc, 'n', 32, "")?;
    let named = format!(in alloc; "{name}=:map:")?;
    assert!(rt; ask_for(alloc, &[named.as_str()], &[(name.as_str(), ":map:")]));
    let too_long = format!(in alloc; "n{name}=:map:")?;
    assert!(rt; are_usage(alloc, &[too_long.as_str()]));
    Ok(())
}

#[test]
fn there_are_16_servers(rt: HostRuntime) -> Result<(), Fail> {
    let alloc = rt.alloc();
    let mut words = Vec::new(alloc);
    for count in 1..=16 {
        words.push(repeat(alloc, 'a', count, "=:map:")?)?;
    }
    assert!(rt; matches!(server_words(alloc, &words), Ok(Opening::Servers { .. })));
    words.push(String::from_str(alloc, "z=:map:")?)?;
    assert!(rt; matches!(server_words(alloc, &words), Err(WordsError::Usage)));
    Ok(())
}
