//! What `--help` and `--version` print.

ghost use Rattle.std.specs.Prelude.{◌≡◌, false, map, string_bytes, IfOk, IsNone, IsSome, IsTrue};
ghost use Rattle.clap.specs.Words.{app_of, rule_of};
ghost use Rattle.run_words.specs.Command.{cells_rule, servers_rule};
ghost use Rattle.sqlrep.specs.Asked.{program_app, sqlrep_app, with_value_name};
ghost use Rattle.sqlrep.specs.Asked.{shows_text, shows_nothing, asks_text, asks_nothing};

use clap::error::ErrorKind;
use clap::{Arg, Command};
use run_words::{cells_arg, servers_arg};
use std::alloc::{AllocError, Global};

/// The words of the two commands.
const USAGE: &str = "\
sqlrep [--cells N] NAME=PATH...
       sqlrep copy";

/// What the help says of a script and its servers.
const AFTER_HELP: &str = "\
A script runs at 1 to 16 servers, each named by a word NAME=PATH:
  NAME   the name by which the script calls the server
  PATH   the SQLite file where the server is kept, which is made if there is
         none; :map: keeps the server in memory for this run

The script comes on standard input, one command on each line:
  load                 loads the definitions on the body lines, which begin with |
  feed S               appends the records on the body lines to the log of S
  capture S            captures the log of S
  step Q N  apply Q N  makes one step of a set, or all until there is nothing to do
  refresh Q N          asks for a refresh of a set, which its next steps make
  status               of a server or of a set
  show                 a source table, change rows, captured units, a log, a target
Sets of user copies are taken. Other forms of these commands, and prune, stop,
generate, rounds and audit, aren't carried out yet and are refused as unknown.";

/// The option of a script.
fn cells_with_help<'a>(alloc: Global) -> Arg<'a>
    ensures rule { rule_of result ≡ with_value_name cells_rule }
    ensures local { result.global ≡ false }
{
    cells_arg(alloc).value_name("N").help(
        "How many cells of 64 bytes a capture is to have for changes in flight:\n\
         16 to 1048576, usually 16384. Nothing uses it yet",
    )
}

/// The servers of a script.
fn servers_with_help<'a>(alloc: Global) -> Arg<'a>
    ensures rule { rule_of result ≡ with_value_name servers_rule }
    ensures local { result.global ≡ false }
{
    servers_arg(alloc)
        .value_name("NAME=PATH")
        .help("The servers at which the script on standard input is run")
}

/// The program, without its words.
fn program_command<'a>(alloc: Global) -> Result<Command<'a>, AllocError>
    ensures { IfOk result (λ command. app_of command ≡ program_app) }
{
    Ok(
        Command::new(alloc, "sqlrep")
            .bin_name("sqlrep")?
            .version("0.1.0")
            .about("Staged SQL replication")
            .override_usage(USAGE)
            .after_help(AFTER_HELP)
            .subcommand_negates_reqs(true)
            .disable_help_subcommand(true),
    )
}

/// The words that the program takes: those of a script, with the option and the servers that
/// `server_words` reads, or `copy`.
fn sqlrep_command<'a>(alloc: Global) -> Result<Command<'a>, AllocError>
    ensures { IfOk result (λ command. app_of command ≡ sqlrep_app) }
{
    let copy = Command::new(alloc, "copy").about(
        "Reads log records on standard input and prints the rows of the copy of items",
    );
    program_command(alloc)?
        .arg(cells_with_help(alloc))?
        .arg(servers_with_help(alloc))?
        .subcommand(copy)
}

/// The text that the words of a command line ask for somewhere, if they do.
fn shown_text(alloc: Global, words: &[String]) -> Result<Option<String>, AllocError>
    ensures asked { IsTrue (shows_text (map string_bytes words.now))
        → IfOk result (λ text. IsSome text) }
    ensures other { IsTrue (shows_nothing (map string_bytes words.now))
        → IfOk result (λ text. IsNone text) }
{
    let Err(error) = sqlrep_command(alloc)?.try_get_matches_from(words) else {
        return Ok(None);
    };
    match error.kind() {
        ErrorKind::OutOfMemory => Err(AllocError),
        _ if error.use_stderr() => Ok(None),
        _ => Ok(Some(format!(in alloc; "{error}")?)),
    }
}

/// The text that the words of a command line ask for, if the one word after the program's name asks
/// for help or for the version.
pub fn asked_text(alloc: Global, words: &[String]) -> Result<Option<String>, AllocError>
    ensures asked { IsTrue (asks_text (map string_bytes words.now))
        → IfOk result (λ text. IsSome text) }
    ensures other { IsTrue (asks_nothing (map string_bytes words.now))
        → IfOk result (λ text. IsNone text) }
{
    if words.len() == 2 {
        shown_text(alloc, words)
    } else {
        Ok(None)
    }
}
