//! The run of the program: it takes the words of the command line, the servers, the input and the
//! output, and answers the status of the run.
//!
//! Below it are `run_words`, which reads the words, `line_input` and `script_text`, which read the
//! lines of a script, and `run_commands`, which has the commands and the contract that they share;
//! the module `copy` carries out `copy` by them. `world_store` and `run_core` have the definitions
//! that say what a run does to the servers. Above it, `sqlrep` calls `session` with the standard
//! streams. The contract of `session` is what the program promises; `docs/MODEL.md` says its
//! definitions in words.
//!
//! For example, at the word `copy` the input lines `insert 1 items 7 'pen'` and `commit 1 ann 100`
//! give the output lines `row 7 'pen'` and `ok rows 1`, and the status `Ok`. At the word
//! `hq=:map:` the input line `frob` gives the output line `refused 1 UnknownCommand line 1`, and
//! the status `Refused`. At the words `copy` and `x` the status is `Usage`, and nothing is read or
//! written.
#![tactic(auto)]

ghost use Rattle.std.specs.Prelude.{◌≡◌, ◌≢◌, ◌≤◌, [], length, map, string_bytes, IsTrue};
ghost use Rattle.std.specs.Prelude.{IfSome, Some, false};
ghost use Rattle.line_input.specs.Limits.{input_limit};
ghost use Rattle.repl_model.specs.World.{World};
ghost use Rattle.run_core.specs.Runs.{Stopped};
ghost use Rattle.run_words.specs.declared.opening.Opening.{Opening};
ghost use Rattle.site_store.specs.Calls.{KeepsServers};
ghost use Rattle.site_store.specs.Servers.{AllClosed};
ghost use Rattle.site_store.specs.Views.{names, held, work};
ghost use Rattle.run_commands.specs.parts.Causes.{HasCause};
ghost use Rattle.world_store.specs.Stands.{Stands};
ghost use Rattle.session_core.specs.Inputs.{OfInput};
ghost use Rattle.session_core.specs.Session.{Asks, run_events, is_done, Ran};

mod bodies;
mod body_lines;
mod commands;
mod copy;
mod fed_lines;
mod laws;
mod opening;
mod script;
mod words;

use crate::opening::run_opening;
use crate::words::asked_opening;
use keep_core::{Keeper, Sink, Source};
pub use laws::first_words_of_commands;
use repl_commands::WordsError;
use repl_types::Status;
use run_commands::parts::{done_status, error_status};
use run_words::one_opening_of_words;
use site_store::Sites;
use std::alloc::Global;

/// Does what the words of the command line ask for, at these servers: `copy`, or the script that it
/// reads.
///
/// `copy` loads a table `items` of the server `src`, and a set that copies it to the server `dst`,
/// and applies the set. It feeds the lines of the input at `src`, up to the first at which
/// something is refused, and reads the others. What was fed is captured and applied. It writes a
/// line for each row of the copy at `dst`, a line with the count of rows, and then a line that
/// reports what the feed refused, if there is something.
///
/// A script is read to its end, line by line. What it does doesn't depend on the number of cells
/// that the words say, which nothing uses yet. At `load` the definitions of its body are loaded when
/// the body ends, at the next line of a command or at the end of the input, and a line says how
/// many were new; sets of other targets than user copies aren't taken yet. At `feed` of a server
/// each body line that isn't blank is a record for the server's log. Records are appended together
/// at the end of a transaction, once 1,000 wait, before a line is refused, and when the body ends,
/// and then a line says how many there were. Once something is refused, the rest of the body is
/// skipped. At `capture` of a server its log is captured. At `step` of a set its next action is
/// made in one commit, and its line is written; at `apply` one after another, until there is
/// nothing to do or one is refused. At `refresh` of a set its flag is set, so that its next step is
/// that of a refresh. At `show` of a source table its committed rows are written, at
/// `show` of a log its records, at `show` of what is captured its change rows or its units, and at
/// `show` of a target its rows. At `status` of a server its lines are written, how far it is and
/// its registrations and sets among them, and at `status` of a set how far that is. For each line,
/// each record and each load that is refused a line with the cause is written. No other command is
/// carried out yet, so each is refused as unknown, and body lines after it are skipped.
///
/// At `Ok` and `Refused` the whole input was read, and all that the run does happened. At `Usage`
/// nothing was read or written. At any other status some of it happened, from its beginning on, and
/// of the next line at most a part was written. `Memory` may be answered whenever the machine runs
/// out of memory. What is said of events holds for an output that reveals what it took, and servers
/// that reveal what they hold and stand for a world. The events are those of the bytes that the
/// input has left, if it reveals them, and else those of some bytes.
pub fn session<K: Keeper, I: Source, O: Sink>(
    alloc: Global,
    words: &[String],
    sites: &mut Sites<K>,
    input: &mut I,
    output: &mut O,
) -> Status
    requires { AllClosed (work K.kept sites.old) }
    ensures usage { result ≡ Status.Usage → (opening : Opening)
        → ¬ (Asks (map string_bytes words.now) (names sites.old) opening) }
    ensures right { result ≢ Status.Usage → result ≢ Status.Memory
        → (opening : Opening) × Asks (map string_bytes words.now) (names sites.old) opening }
    ensures same { ((opening : Opening)
        → ¬ (Asks (map string_bytes words.now) (names sites.old) opening))
        → (sites.new ≡ sites.old) × (input.new ≡ input.old) × (output.new ≡ output.old) }
    ensures done { IsTrue (is_done result) → (opening : Opening) (w : World)
        → Asks (map string_bytes words.now) (names sites.old) opening
        → Stands (names sites.old) (held K.kept sites.old) w → OfInput (I.left input.old) (λ bytes.
        Ran (Stands (names sites.old)) (run_events opening bytes w) w (held K.kept sites.new)
        (O.taken output.old) (O.taken output.new) result) }
    ensures stopped { is_done result ≡ false → (opening : Opening) (w : World)
        → Asks (map string_bytes words.now) (names sites.old) opening
        → Stands (names sites.old) (held K.kept sites.old) w → OfInput (I.left input.old) (λ bytes.
        Stopped (Stands (names sites.old)) (run_events opening bytes w) w (held K.kept sites.new)
        (O.taken output.old) (O.taken output.new)) }
    ensures end { IsTrue (is_done result) → IfSome (I.left input.old) (λ bytes.
        (I.left input.new ≡ Some []) × (length bytes ≤ input_limit)) }
    ensures cause { HasCause K.kept sites.old sites.new (I.left input.old) (I.faults input.old)
        (I.faults input.new) (O.faults output.old) (O.faults output.new) result }
    ensures servers { KeepsServers K.kept sites.old sites.new }
{
    one_opening_of_words();
    let opening = match asked_opening(alloc, words, sites) {
        Ok(opening) => opening,
        Err(WordsError::Usage) => return Status::Usage,
        Err(WordsError::Memory) => return Status::Memory,
    };
    match run_opening(alloc, &opening, sites, input, output) {
        Ok(refused) => done_status(refused),
        Err(error) => error_status(error),
    }
}
