//! The lines that ask for commands.

ghost use Rattle.std.specs.Prelude.{◌≡◌, is_some, IfOk};
ghost use Rattle.std.specs.Option.{option_map_or};
ghost use Rattle.script_text.specs.Asked.{asked_by};
ghost use Rattle.site_store.specs.Servers.{AllClosed};
ghost use Rattle.site_store.specs.Views.{work};
ghost use Rattle.session_core.specs.Commands.{begins_with_carried_out_verb as begins_with_lem};
ghost use Rattle.session_core.specs.Commands.{bad_line_refusal as bad_line_refusal_lem};
ghost use Rattle.session_core.specs.Commands.{command_events, command_line_events};
ghost use Rattle.session_core.specs.Commands.{takes_no_body, talk_of};
ghost use Rattle.session_core.specs.Bodies.{after_asked, unfed as unfed_lem};
ghost use Rattle.session_core.specs.Bodies.{after_bodiless as after_bodiless_lem};
ghost use Rattle.session_core.specs.declared.bodies.Bodies.TheVariants.{Fed as FedBody, Skipped};
ghost use Rattle.session_core.specs.Answers.{Follows};
ghost use Rattle.run_commands.specs.parts.Refusing.{refused as refused_lem};
ghost use Rattle.run_commands.specs.feed.FeedEvents.{begin_events, begun};
ghost use Rattle.run_commands.specs.parts.Parts.{IsPart};

use crate::bodies::{Answer, Bodies, fed, unfed};
use keep_core::{Keeper, Sink};
use repl_commands::{Command, LineError};
use repl_types::{List, Name, Refusal};
use run_commands::apply::{apply_set, step_set};
use run_commands::capture::capture_server;
use run_commands::feed::begin_feed;
use run_commands::parts::{RunError, refuse};
use run_commands::refresh::refresh_set;
use run_commands::show::{show_change_rows, show_log_records, show_source_rows, show_unit_rows};
use run_commands::status::show_status;
use run_commands::target::{show_set_status, show_target_rows};
use script_text::{first_word, read_line};
use site_store::Sites;
use std::alloc::Global;
use std::str;

/// Whether the first word of a line is that of a command of which some form is carried out.
fn begins_with_carried_out_verb(line: &[u8]) -> bool
    ensures { result ≡ begins_with_lem line.now }
{
    match first_word(line) {
        Some(word) => {
            word == b"load".as_slice()
                || word == b"feed".as_slice()
                || word == b"capture".as_slice()
                || word == b"step".as_slice()
                || word == b"apply".as_slice()
                || word == b"refresh".as_slice()
                || word == b"show".as_slice()
                || word == b"status".as_slice()
        }
        None => false,
    }
}

/// Why a line is refused that isn't of the form of its command.
fn bad_line_refusal(number: u64, line: &[u8]) -> Refusal
    ensures { result ≡ bad_line_refusal_lem number line.now }
{
    if str::from_utf8(line).is_err() {
        return Refusal::BadLine { line: number };
    }
    if begins_with_carried_out_verb(line) {
        return Refusal::BadLine { line: number };
    }
    Refusal::UnknownCommand { line: number }
}

/// Whether a command is carried out.
fn is_carried_out(command: &Command) -> bool
    ensures { result ≡ is_some (talk_of command.now) }
{
    match command {
        Command::CaptureCold { .. }
        | Command::Prune { .. }
        | Command::PruneNormal { .. }
        | Command::Stop { .. }
        | Command::Generate { .. }
        | Command::Rounds { .. }
        | Command::Audit { .. }
        | Command::ShowTrail { .. }
        | Command::ShowRejected { .. } => false,
        Command::Load
        | Command::Feed { .. }
        | Command::Capture { .. }
        | Command::Step { .. }
        | Command::Apply { .. }
        | Command::Refresh { .. }
        | Command::StatusServer { .. }
        | Command::StatusSet { .. }
        | Command::ShowSource { .. }
        | Command::ShowCd { .. }
        | Command::ShowUow { .. }
        | Command::ShowLog { .. }
        | Command::ShowTarget { .. } => true,
    }
}

/// What a run does with body lines after the line of a command that takes no body: with one that
/// isn't carried out they are skipped.
fn after_bodiless(command: &Command, line: &[u8]) -> Bodies
    ensures { result ≡ after_bodiless_lem command.now line.now }
{
    if is_carried_out(command) {
        return unfed(line);
    }
    Bodies::Skipped
}

/// Carries out a command that takes no body, the one of the line with this number.
fn run_command<K: Keeper, O: Sink>(
    alloc: Global,
    sites: &mut Sites<K>,
    output: &mut O,
    number: u64,
    command: Command,
) -> Result<bool, RunError>
    requires closed { AllClosed (work K.kept sites.old) }
    requires bodiless { takes_no_body command }
    ensures { IsPart K.kept O.taken O.faults sites.old sites.new output.old output.new
        (command_events number command) (λ refused. refused) result }
{
    match command {
        Command::Capture {
            server,
            units,
            every,
        } => capture_server(alloc, sites, output, server, units, every),
        Command::Step { set } => step_set(alloc, sites, output, number, &set),
        Command::Apply { set } => apply_set(alloc, sites, output, number, &set),
        Command::Refresh { set } => refresh_set(alloc, sites, output, &set),
        Command::StatusServer { server } => show_status(alloc, sites, output, server),
        Command::StatusSet { set } => show_set_status(alloc, sites, output, number, &set),
        Command::ShowSource { server, table } => {
            show_source_rows(alloc, sites, output, server, table)
        }
        Command::ShowCd { server, table } => show_change_rows(alloc, sites, output, server, table),
        Command::ShowUow { server } => show_unit_rows(alloc, sites, output, server),
        Command::ShowLog { server } => show_log_records(alloc, sites, output, server),
        Command::ShowTarget { server, table } => {
            show_target_rows(alloc, sites, output, number, server, table)
        }
        _ => refuse(alloc, output, &Refusal::UnknownCommand { line: number }),
    }
}

/// Begins a feed at the server of a name: the body lines after it are its records, or are skipped
/// if there is no such server.
fn run_feed<K: Keeper, O: Sink>(
    alloc: Global,
    sites: &mut Sites<K>,
    output: &mut O,
    server: Name,
) -> Result<Answer, RunError>
    requires { AllClosed (work K.kept sites.old) }
    ensures part { IsPart K.kept O.taken O.faults sites.old sites.new output.old output.new
        (begin_events server) (λ answer. answer.refused) result }
    ensures bodies { IfOk result (Follows K.kept sites.old (λ w. option_map_or FedBody (begun server
        w) Skipped) 1) }
{
    let feed = begin_feed(alloc, sites, output, server)?;
    Ok(Answer {
        refused: feed.is_none(),
        bodies: fed(feed),
    })
}

/// Carries out the command of a line that begins no body.
fn run_unfed<K: Keeper, O: Sink>(
    alloc: Global,
    sites: &mut Sites<K>,
    output: &mut O,
    number: u64,
    line: &[u8],
    command: Command,
) -> Result<Answer, RunError>
    requires closed { AllClosed (work K.kept sites.old) }
    requires bodiless { takes_no_body command }
    ensures part { IsPart K.kept O.taken O.faults sites.old sites.new output.old output.new
        (command_events number command) (λ answer. answer.refused) result }
    ensures bodies { IfOk result (Follows K.kept sites.old (λ w. after_bodiless_lem command
        line.now) 1) }
{
    let bodies = after_bodiless(&command, line);
    let refused = run_command(alloc, sites, output, number, command)?;
    Ok(Answer { refused, bodies })
}

/// Refuses a line that asks for no command. Nothing is done at the servers.
fn refuse_unfed<K: Keeper, O: Sink>(
    alloc: Global,
    sites: &Sites<K>,
    output: &mut O,
    line: &[u8],
    refusal: &Refusal,
) -> Result<Answer, RunError>
    requires { AllClosed (work K.kept sites.now) }
    ensures part { IsPart K.kept O.taken O.faults sites.now sites.now output.old output.new
        (λ w. refused_lem refusal.now) (λ answer. answer.refused) result }
    ensures bodies { IfOk result (Follows K.kept sites.now (λ w. unfed_lem line.now) 1) }
{
    let refused = refuse(alloc, output, refusal)?;
    Ok(Answer {
        refused,
        bodies: unfed(line),
    })
}

/// Does what a line asks for that is no body line. The text of a load is loaded at its end, so
/// nothing is done at its line.
pub fn run_line<K: Keeper, O: Sink>(
    alloc: Global,
    sites: &mut Sites<K>,
    output: &mut O,
    number: u64,
    line: &[u8],
) -> Result<Answer, RunError>
    requires { AllClosed (work K.kept sites.old) }
    ensures part { IsPart K.kept O.taken O.faults sites.old sites.new output.old output.new
        (command_line_events number line.now) (λ answer. answer.refused) result }
    ensures bodies { IfOk result (Follows K.kept sites.old (after_asked line.now (asked_by
        line.now)) 1) }
{
    match read_line(alloc, line) {
        Ok(Command::Load) => Ok(Answer {
            refused: false,
            bodies: Bodies::Gathered(Some(List::new(alloc))),
        }),
        Ok(Command::Feed { server }) => run_feed(alloc, sites, output, server),
        Ok(command) => run_unfed(alloc, sites, output, number, line, command),
        Err(LineError::Memory) => Err(RunError::Memory),
        Err(LineError::UnknownCommand) => {
            let refusal = Refusal::UnknownCommand { line: number };
            refuse_unfed(alloc, sites, output, line, &refusal)
        }
        Err(LineError::BadLine) => {
            let refusal = bad_line_refusal(number, line);
            refuse_unfed(alloc, sites, output, line, &refusal)
        }
    }
}
