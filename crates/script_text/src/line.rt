//! The reader of lines.

ghost use Rattle.std.specs.Prelude.{◌≡◌, ◌∷◌, false, true, IfOk, IfErr};
ghost use Rattle.std.specs.Str.{IsUtf8};
ghost use Rattle.repl_commands.specs.declared.command.Command.{Command};
ghost use Rattle.script_text.specs.Words.{line_words, texts};
ghost use Rattle.script_text.specs.Commands.{AreCommandWords, IsLineOf, names_a_command};
ghost use Rattle.script_text.specs.Asked.{asked_by, asks, unknown, bad};
ghost use Rattle.script_text.specs.Readings.{AreRefused};

use crate::commands::{
    read_apply, read_audit, read_capture, read_feed, read_generate, read_load, read_prune,
    read_refresh, read_rounds, read_show, read_status, read_step, read_stop,
};
use crate::words::{first_words, is_word};
use repl_commands::{Command, LineError};
use std::alloc::Global;
use std::str;

/// The command of a verb and the words after it.
fn read_command(alloc: Global, verb: &[u8], rest: &[&[u8]]) -> Result<Command, LineError>
    ensures ok { IfOk result (AreCommandWords (verb.now ∷ texts rest.now)) }
    ensures refused { IfErr result (AreRefused (verb.now ∷ texts rest.now)) }
{
    if is_word(verb, b"load") {
        read_load(rest)
    } else if is_word(verb, b"feed") {
        read_feed(alloc, rest)
    } else if is_word(verb, b"capture") {
        read_capture(alloc, rest)
    } else if is_word(verb, b"prune") {
        read_prune(alloc, rest)
    } else if is_word(verb, b"step") {
        read_step(alloc, rest)
    } else if is_word(verb, b"apply") {
        read_apply(alloc, rest)
    } else if is_word(verb, b"refresh") {
        read_refresh(alloc, rest)
    } else if is_word(verb, b"stop") {
        read_stop(alloc, rest)
    } else if is_word(verb, b"generate") {
        read_generate(alloc, rest)
    } else if is_word(verb, b"rounds") {
        read_rounds(alloc, rest)
    } else if is_word(verb, b"audit") {
        read_audit(alloc, rest)
    } else if is_word(verb, b"status") {
        read_status(alloc, rest)
    } else if is_word(verb, b"show") {
        read_show(alloc, rest)
    } else {
        Err(LineError::UnknownCommand)
    }
}

/// The command that has these words.
fn read_words(alloc: Global, words: &[&[u8]]) -> Result<Command, LineError>
    ensures ok { IfOk result (AreCommandWords (texts words.now)) }
    ensures refused { IfErr result (AreRefused (texts words.now)) }
{
    match words {
        [verb, rest @ ..] => read_command(alloc, verb, rest),
        [] => Err(LineError::UnknownCommand),
    }
}

/// The command that has the words of a line, be the line UTF-8 or not.
fn read_bytes(alloc: Global, line: &[u8]) -> Result<Command, LineError>
    ensures ok { IfOk result (IsLineOf line.now) }
    ensures refused { IfErr result (AreRefused (line_words line.now)) }
{
    let words = first_words(alloc, line)?;
    read_words(alloc, words.as_slice())
}

/// The command that a script's line asks for. `UnknownCommand` is returned only if the line is
/// UTF-8 and its first word is that of no command, or if it is UTF-8 and has no word. `BadLine` is
/// returned only if the line isn't UTF-8, or if its first word is that of a command and the other
/// words aren't.
#[tactic(auto, using(crate::proofs::Answered::answers))]
pub fn read_line(alloc: Global, line: &[u8]) -> Result<Command, LineError>
    ensures ok { IfOk result (IsLineOf line.now) }
    ensures asked { IfOk result (λ command. asked_by line.now ≡ asks command) }
    ensures unknown { result ≡ Err LineError.UnknownCommand → asked_by line.now ≡ unknown }
    ensures unknown_word { result ≡ Err LineError.UnknownCommand
        → IsUtf8 line.now × (names_a_command line.now ≡ false) }
    ensures bad { result ≡ Err LineError.BadLine → asked_by line.now ≡ bad }
    ensures no_command { result ≡ Err LineError.BadLine
        → (IsUtf8 line.now → names_a_command line.now ≡ true)
        × ((command : Command) → ¬ (IsLineOf line.now command)) }
{
    match read_bytes(alloc, line) {
        // The words of a command are ASCII, and any other line is bad if its first word is known.
        Err(LineError::UnknownCommand) if str::from_utf8(line).is_err() => Err(LineError::BadLine),
        read => read,
    }
}
