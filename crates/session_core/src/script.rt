//! The run of a script, line by line.

ghost use Rattle.std.specs.Prelude.{◌≤◌, ◌+◌, IfOk};
ghost use Rattle.line_input.specs.Limits.{input_limit};
ghost use Rattle.line_input.specs.Lines.{command, long_command};
ghost use Rattle.line_input.specs.Script.{line_of};
ghost use Rattle.site_store.specs.Servers.{AllClosed};
ghost use Rattle.site_store.specs.Views.{work};
ghost use Rattle.session_core.specs.Bodies.{KeepsBodies};
ghost use Rattle.session_core.specs.Talk.{line_events, bodies_after, script_events};
ghost use Rattle.session_core.specs.Answers.{Follows};
ghost use Rattle.session_core.specs.Reading.{IsReading};
ghost use Rattle.run_commands.specs.parts.Parts.{IsPart};

use crate::bodies::{Answer, Bodies};
use crate::body_lines::{answer_body, answer_long_body, end_bodies};
use crate::commands::run_line;
use keep_core::{Keeper, Sink, Source};
use line_input::{LineKind, Script};
use repl_types::Refusal;
use run_commands::parts::{RunError, refuse};
use site_store::Sites;
use std::alloc::Global;

/// Answers a line of a command: ends the body before it, and then does what it asks for.
fn answer_command<K: Keeper, O: Sink>(
    alloc: Global,
    sites: &mut Sites<K>,
    output: &mut O,
    bodies: &Bodies,
    number: u64,
    line: &[u8],
) -> Result<Answer, RunError>
    requires closed { AllClosed (work K.kept sites.old) }
    requires bodies { KeepsBodies number bodies.now }
    ensures part { IsPart K.kept O.taken O.faults sites.old sites.new output.old output.new
        (line_events bodies.now number (command line.now)) (λ answer. answer.refused) result }
    ensures bodies { IfOk result (Follows K.kept sites.old (bodies_after bodies.now number (command
        line.now)) (number + 1)) }
{
    let ended = end_bodies(alloc, sites, output, bodies)?;
    let answer = run_line(alloc, sites, output, number, line)?;
    let Answer { refused, bodies } = answer;
    Ok(Answer {
        refused: ended | refused,
        bodies,
    })
}

/// Answers a line of a command over the limit: ends the body before it, and then refuses the line.
fn answer_long_command<K: Keeper, O: Sink>(
    alloc: Global,
    sites: &mut Sites<K>,
    output: &mut O,
    bodies: &Bodies,
    number: u64,
) -> Result<Answer, RunError>
    requires closed { AllClosed (work K.kept sites.old) }
    requires bodies { KeepsBodies number bodies.now }
    ensures part { IsPart K.kept O.taken O.faults sites.old sites.new output.old output.new
        (line_events bodies.now number long_command) (λ answer. answer.refused) result }
    ensures bodies { IfOk result (Follows K.kept sites.old (bodies_after bodies.now number
        long_command) (number + 1)) }
{
    let ended = end_bodies(alloc, sites, output, bodies)?;
    let refused = refuse(alloc, output, &Refusal::LineTooLong { line: number })?;
    Ok(Answer {
        refused: ended | refused,
        bodies: Bodies::Refused,
    })
}

/// Answers a line, of whose text these bytes are kept.
fn answer_line<K: Keeper, O: Sink>(
    alloc: Global,
    sites: &mut Sites<K>,
    output: &mut O,
    bodies: Bodies,
    number: u64,
    kind: LineKind,
    text: &[u8],
) -> Result<Answer, RunError>
    requires closed { AllClosed (work K.kept sites.old) }
    requires bodies { KeepsBodies number bodies }
    requires few { number ≤ input_limit }
    ensures part { IsPart K.kept O.taken O.faults sites.old sites.new output.old output.new
        (line_events bodies number (line_of kind text.now)) (λ answer. answer.refused) result }
    ensures bodies { IfOk result (Follows K.kept sites.old (bodies_after bodies number (line_of kind
        text.now)) (number + 1)) }
{
    match kind {
        LineKind::Command => answer_command(alloc, sites, output, &bodies, number, text),
        LineKind::Body => answer_body(alloc, sites, output, bodies, number, text),
        LineKind::LongCommand => answer_long_command(alloc, sites, output, &bodies, number),
        LineKind::LongBody => answer_long_body(alloc, sites, output, &bodies, number),
    }
}

/// Runs a script at the servers to the end of the input, and says whether something was refused.
/// After an error the run stopped on its way.
pub fn run_script<K: Keeper, I: Source, O: Sink>(
    alloc: Global,
    sites: &mut Sites<K>,
    input: &mut I,
    output: &mut O,
) -> Result<bool, RunError>
    requires { AllClosed (work K.kept sites.old) }
    ensures { IsReading K.kept I.left I.faults O.taken O.faults sites.old sites.new input.old
        input.new output.old output.new script_events result }
{
    let mut script = Script::new(alloc)?;
    let mut bodies = Bodies::Refused;
    let mut refused = false;
    while let Some(kind) = script.peek(input)? {
        script.take();
        let number = script.number();
        let answer = answer_line(alloc, sites, output, bodies, number, kind, script.text())?;
        let Answer {
            refused: was_refused,
            bodies: next,
        } = answer;
        refused |= was_refused;
        bodies = next;
    }
    let ended = end_bodies(alloc, sites, output, &bodies)?;
    Ok(refused | ended)
}
