//! The words of a script, as a command of `clap` takes them.

ghost use Rattle.std.specs.Prelude.{◌≡◌, ◌≢◌, [], false, IfOk, OnOk, codes, map, string_bytes};
ghost use Rattle.std.specs.Option.{option_map};
ghost use Rattle.clap.specs.Walk.{all_of, first_of, rows_of, rule_of, texts};
ghost use Rattle.clap.specs.Words.{app_of, fault_of, found_of, matches_of};
ghost use Rattle.run_words.specs.Command.{cells_rule, servers_rule, server_app, with_program};

use crate::servers::SERVER_LIMIT;
use clap::error::ErrorKind;
use clap::{Arg, ArgMatches, Command};
use repl_commands::WordsError;
use std::alloc::{AllocError, Global};

/// The option `--cells N`.
pub fn cells_arg<'a>(alloc: Global) -> Arg<'a>
    ensures rule { rule_of result ≡ cells_rule }
    ensures local { result.global ≡ false }
{
    Arg::new(alloc, "cells").long("cells")
}

/// The words of the servers, 1 to 16.
pub fn servers_arg<'a>(alloc: Global) -> Arg<'a>
    ensures rule { rule_of result ≡ servers_rule }
    ensures local { result.global ≡ false }
{
    Arg::new(alloc, "servers")
        .required(true)
        .num_args(1..=SERVER_LIMIT)
}

/// The command that takes both.
fn server_command<'a>(alloc: Global) -> Result<Command<'a>, AllocError>
    ensures { IfOk result (λ command. app_of command ≡ server_app) }
{
    Command::new(alloc, "sqlrep")
        .arg(cells_arg(alloc))?
        .arg(servers_arg(alloc))
}

/// The words, with the name of the program before them.
pub fn words_of_program<'a>(alloc: Global, words: &'a [String]) -> Result<Vec<&'a str>, AllocError>
    ensures { IfOk result (λ all. texts all.items ≡ with_program (map string_bytes words.now)) }
{
    let mut all = Vec::new(alloc);
    all.push("sqlrep")?;
    for word in words {
        all.push(word.as_str())?;
    }
    Ok(all)
}

/// What the command reads of these words, of which the first is the program's name. `Usage` is
/// returned only if it doesn't take them.
pub fn server_matches<'a>(alloc: Global, words: &'a [&'a str]) -> Result<ArgMatches<'a>, WordsError>
    ensures ok { OnOk result (fault_of server_app (texts words.entry.now) ≡ []) }
    ensures rows { IfOk result (λ matches. rows_of (found_of matches)
        ≡ matches_of server_app (texts words.entry.now)) }
    ensures usage { result ≡ Err WordsError.Usage
        → fault_of server_app (texts words.entry.now) ≢ [] }
{
    let command = server_command(alloc)?;
    match command.try_get_matches_from(words) {
        Ok(matches) => Ok(matches),
        Err(error) => match error.kind() {
            ErrorKind::OutOfMemory => Err(WordsError::Memory),
            _ => Err(WordsError::Usage),
        },
    }
}

/// The text of `--cells`, if it is given.
pub fn cells_text<'a>(matches: &ArgMatches<'a>) -> Option<&'a str>
    ensures { option_map (λ text. text.now) result
        ≡ first_of (codes "cells") (rows_of (found_of matches.now)) }
{
    matches.get_str("cells")
}

/// The words of the servers.
pub fn server_texts<'m, 'a>(matches: &'m ArgMatches<'a>) -> Option<&'m [&'a str]>
    ensures { option_map (λ words. texts words.now) result
        ≡ all_of (codes "servers") (rows_of (found_of matches.now)) }
{
    matches.get_strs("servers")
}
