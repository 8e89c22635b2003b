//! `sqlrep` runs a script at the servers that its words name, and `sqlrep copy` reads log records
//! on standard input and prints the copy of the items.
//!
//! The program stands on `session_core`, whose `session` does the work and says what a run
//! promises. What is here opens the servers, in memory or in files, gives `session` the words of the
//! command line and the standard streams, closes the servers, and hands the status to the caller.
//! `sqlrep --help` says which words it takes.
//!
//! For example, of the two lines `insert 1 items 1 'pen'` and `commit 1 ann 100` it prints, at the
//! word `copy`, `row 1 'pen'` and `ok rows 1`, and exits with 0.
#![tactic(auto)]

ghost use Rattle.std.specs.Prelude.{◌≡◌, ◌≢◌, ◌≤◌, ◌⊎◌, drop, map, string_bytes, IfOk, IfErr};
ghost use Rattle.std.specs.Prelude.{IsOk, IsTrue, IfSome, Some};
ghost use Rattle.std.specs.Option.{option_map};
ghost use Rattle.run_words.specs.declared.opening.Opening.{Opening};
ghost use Rattle.run_words.specs.Openings.{AreWordsOf};
ghost use Rattle.sqlrep.specs.Asked.{asks_text, asks_nothing};
ghost use Rattle.session_core.specs.Inputs.{OfInput};
ghost use Rattle.sqlrep.specs.Endings.{done_code, usage_code};
ghost use Rattle.site_store.specs.Views.{list_of};
ghost use Rattle.sqlrep.specs.Opened.{needed_servers as needed_servers_lem};
ghost use Rattle.sqlrep.specs.Opened.{AreOpened, all_in_memory};
ghost use Rattle.sqlrep.specs.Runs.{RanWhole};

mod ending;
mod help;
mod servers;

use crate::ending::{Ending, ending_of, ending_unopened, error_line, exit_status};
use crate::help::asked_text;
use crate::servers::{
    OpenError, close_servers, copy_servers, names_of_servers, needed_servers, open_servers,
};
use keep_core::{ReadError, Sink, Source, write_line};
use keep_sqlite::AnyKeeper;
use repl_commands::WordsError;
use repl_types::Status;
use run_words::{Opening, ServerWord, server_words};
use session_core::session;
use site_store::Sites;
use sqlite::Alter;
use standard_streams::{Reads, Writes};
use std::alloc::{AllocError, Global};
use std::io;
use std::process::ExitCode;
use world_store::empty_servers_stand;

/// The words of the command line, of which the first is the program's name. A word that isn't UTF-8
/// is `Usage`.
fn command_line(rt: &HostRuntime) -> Result<Vec<String>, Status>
    ensures { IfErr result (λ status. (status ≡ Status.Memory) ⊎ (status ≡ Status.Usage)) }
{
    match std::env::args(rt) {
        Ok(words) => words.collect(rt.alloc()).map_err(|_| Status::Memory),
        Err(error) => match error.kind() {
            io::ErrorKind::OutOfMemory => Err(Status::Memory),
            _ => Err(Status::Usage),
        },
    }
}

/// The words after the program's name.
fn after_name(words: &[String]) -> &[String]
    ensures { result.now ≡ drop 1 words.now }
{
    match words {
        [_, rest @ ..] => rest,
        [] => words,
    }
}

/// The status of a run that only prints a text.
fn print_status(answer: Result<(), ReadError>) -> Status
    ensures ok { IsOk answer → result ≡ Status.Ok }
    ensures memory { answer ≡ Err ReadError.Memory → result ≡ Status.Memory }
    ensures failed { answer ≡ Err ReadError.Failed → result ≡ Status.OutputFault }
    ensures told { result ≢ Status.Usage }
{
    match answer {
        Ok(()) => Status::Ok,
        Err(ReadError::Memory) => Status::Memory,
        Err(ReadError::Failed) => Status::OutputFault,
    }
}

/// Prints the help or the version if the one word of a command line asks for it, and else answers
/// `Usage`.
fn run_help(rt: &HostRuntime, words: &[String]) -> Status
    ensures asked { IsTrue (asks_text (map string_bytes words.now)) → result ≢ Status.Usage }
    ensures other { IsTrue (asks_nothing (map string_bytes words.now)) → (result ≡ Status.Usage)
        ⊎ (result ≡ Status.Memory) }
{
    match asked_text(rt.alloc(), words) {
        Ok(Some(text)) => print_status(write_line(
            &mut Writes::new(io::writer(rt)),
            text.as_bytes(),
        )),
        Ok(None) => Status::Usage,
        Err(_) => Status::Memory,
    }
}

/// Runs what an opening asks for at servers that were just opened for it, over these streams. If
/// all are in memory, they hold nothing, so the run begins with the empty world.
fn run_at<S: Alter, I: Source, O: Sink>(
    alloc: Global,
    words: &[String],
    opening: &Opening,
    servers: &[ServerWord],
    sites: &mut Sites<AnyKeeper<S>>,
    input: &mut I,
    output: &mut O,
) -> Result<Ending, AllocError>
    requires words { AreWordsOf (map string_bytes words.now) opening.now }
    requires servers { servers.now ≡ needed_servers_lem opening.now }
    requires opened { AreOpened servers.now (list_of sites.old) }
    ensures runs { IfOk result (λ ending. ending.code ≢ usage_code) }
    ensures whole { IsTrue (all_in_memory servers.now) → IfOk result (λ ending.
        ending.code ≤ done_code → OfInput (I.left input.old)
        (RanWhole opening.now (O.taken output.old) (O.taken output.new) ending.code)) }
{
    empty_servers_stand();
    let names = names_of_servers(alloc, servers)?;
    let status = session(alloc, words, sites, input, output);
    ending_of(alloc, &status, names.as_slice())
}

/// Runs what the words of a command line ask for, at the servers that it needs, and closes these.
/// If one can't be opened, nothing is read or written.
fn run_opening(rt: &HostRuntime, words: &[String], opening: &Opening) -> Result<Ending, AllocError>
    requires { AreWordsOf (map string_bytes (drop 1 words.now)) opening.now }
    ensures { IfOk result (λ ending. ending.code ≢ usage_code) }
{
    let alloc = rt.alloc();
    let copy = copy_servers(alloc)?;
    let servers = needed_servers(opening, copy.as_slice());
    let mut sites = match open_servers(rt, servers) {
        Ok(sites) => sites,
        Err(error) => return ending_unopened(alloc, &error),
    };
    let mut input = Reads::new(rt.reader());
    let mut output = Writes::new(io::writer(rt));
    let given = after_name(words);
    let answer = run_at(
        alloc,
        given,
        opening,
        servers,
        &mut sites,
        &mut input,
        &mut output,
    );
    close_servers(sites.into_list());
    answer
}

/// Does what the words of a command line ask for.
fn run_words_of(rt: &HostRuntime, words: &[String]) -> Result<Ending, AllocError>
    ensures asked { (opening : Opening) → AreWordsOf (map string_bytes (drop 1 words.now)) opening
        → IfOk result (λ ending. ending.code ≢ usage_code) }
    ensures text { IsTrue (asks_text (map string_bytes words.now))
        → IfOk result (λ ending. ending.code ≢ usage_code) }
{
    let alloc = rt.alloc();
    match server_words(alloc, after_name(words)) {
        Ok(opening) => run_opening(rt, words, &opening),
        Err(WordsError::Usage) => ending_of(alloc, &run_help(rt, words), &[]),
        Err(WordsError::Memory) => Err(AllocError),
    }
}

/// Does what the command line asks for.
fn run(rt: &HostRuntime) -> Result<Ending, AllocError> {
    match command_line(rt) {
        Ok(words) => run_words_of(rt, words.as_slice()),
        Err(status) => ending_of(rt.alloc(), &status, &[]),
    }
}

/// Runs the program, says in a line on standard error why it ended early, if it did, and exits with
/// the number of its status, whether that line could be written or not.
fn main(rt: HostRuntime) -> ExitCode {
    let answer = run(&rt);
    if let Some(line) = error_line(&answer) {
        let _ = rt.eprintln(line);
    }
    ExitCode::from(exit_status(&answer))
}
