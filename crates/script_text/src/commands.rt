//! The readers of commands: each reads the words after a verb, or after a verb and a server.

ghost use Rattle.std.specs.Prelude.{◌≡◌, ◌∷◌, [], ◌⊎◌, ℕ, IfOk, IfErr, codes};
ghost use Rattle.script_text.specs.Words.{texts};
ghost use Rattle.script_text.specs.Commands.{AreCommandWords, IsMinutes};
ghost use Rattle.script_text.specs.Readings.{AreOfACommand, IsRefusal};
ghost use Rattle.script_text.specs.Readings.{ShowsServer, ShowsTable, ShowsSet};

use crate::parts::{
    read_amount, read_limits, read_minutes, read_name, read_one_set, read_seed, read_set,
};
use crate::words::is_word;
use repl_commands::{Command, LineError};
use repl_types::{Name, SetId};
use std::alloc::Global;

/// `load`
pub(crate) fn read_load(rest: &[&[u8]]) -> Result<Command, LineError>
    ensures ok { IfOk result (AreCommandWords (codes "load" ∷ texts rest.now)) }
    ensures refused { IfErr result (IsRefusal (AreOfACommand (codes "load" ∷ texts rest.now))) }
{
    match rest {
        [] => Ok(Command::Load),
        _ => Err(LineError::BadLine),
    }
}

/// `feed S`
pub(crate) fn read_feed(alloc: Global, rest: &[&[u8]]) -> Result<Command, LineError>
    ensures ok { IfOk result (AreCommandWords (codes "feed" ∷ texts rest.now)) }
    ensures refused { IfErr result (IsRefusal (AreOfACommand (codes "feed" ∷ texts rest.now))) }
{
    match rest {
        [server] => Ok(Command::Feed {
            server: read_name(alloc, server)?,
        }),
        _ => Err(LineError::BadLine),
    }
}

/// `capture S [units U] [every E]`, `capture S cold`, of which S is read.
fn read_capture_at(server: Name, limits: &[&[u8]]) -> Result<Command, LineError>
    ensures ok { IfOk result (AreCommandWords (codes "capture" ∷ server ∷ texts limits.now)) }
    ensures refused { IfErr result
        (IsRefusal (AreOfACommand (codes "capture" ∷ server ∷ texts limits.now))) }
{
    match limits {
        [word] if is_word(word, b"cold") => Ok(Command::CaptureCold { server }),
        _ => {
            let (units, every) = read_limits(limits)?;
            Ok(Command::Capture {
                server,
                units,
                every,
            })
        }
    }
}

/// `capture S [units U] [every E]`, `capture S cold`
pub(crate) fn read_capture(alloc: Global, rest: &[&[u8]]) -> Result<Command, LineError>
    ensures ok { IfOk result (AreCommandWords (codes "capture" ∷ texts rest.now)) }
    ensures refused { IfErr result (IsRefusal (AreOfACommand (codes "capture" ∷ texts rest.now))) }
{
    match rest {
        [server, limits @ ..] => read_capture_at(read_name(alloc, server)?, limits),
        [] => Err(LineError::BadLine),
    }
}

/// `prune S`, `prune S M`, `prune S normal`
pub(crate) fn read_prune(alloc: Global, rest: &[&[u8]]) -> Result<Command, LineError>
    ensures ok { IfOk result (AreCommandWords (codes "prune" ∷ texts rest.now)) }
    ensures refused { IfErr result (IsRefusal (AreOfACommand (codes "prune" ∷ texts rest.now))) }
{
    match rest {
        [server] => Ok(Command::Prune {
            server: read_name(alloc, server)?,
            minutes: None,
        }),
        [server, word] if is_word(word, b"normal") => Ok(Command::PruneNormal {
            server: read_name(alloc, server)?,
        }),
        [server, minutes] => Ok(Command::Prune {
            server: read_name(alloc, server)?,
            minutes: Some(read_minutes(minutes)?),
        }),
        _ => Err(LineError::BadLine),
    }
}

/// `step Q N`
pub(crate) fn read_step(alloc: Global, rest: &[&[u8]]) -> Result<Command, LineError>
    ensures ok { IfOk result (AreCommandWords (codes "step" ∷ texts rest.now)) }
    ensures refused { IfErr result (IsRefusal (AreOfACommand (codes "step" ∷ texts rest.now))) }
{
    Ok(Command::Step {
        set: read_one_set(alloc, rest)?,
    })
}

/// `apply Q N`
pub(crate) fn read_apply(alloc: Global, rest: &[&[u8]]) -> Result<Command, LineError>
    ensures ok { IfOk result (AreCommandWords (codes "apply" ∷ texts rest.now)) }
    ensures refused { IfErr result (IsRefusal (AreOfACommand (codes "apply" ∷ texts rest.now))) }
{
    Ok(Command::Apply {
        set: read_one_set(alloc, rest)?,
    })
}

/// `refresh Q N`
pub(crate) fn read_refresh(alloc: Global, rest: &[&[u8]]) -> Result<Command, LineError>
    ensures ok { IfOk result (AreCommandWords (codes "refresh" ∷ texts rest.now)) }
    ensures refused { IfErr result (IsRefusal (AreOfACommand (codes "refresh" ∷ texts rest.now))) }
{
    Ok(Command::Refresh {
        set: read_one_set(alloc, rest)?,
    })
}

/// `stop S T`
pub(crate) fn read_stop(alloc: Global, rest: &[&[u8]]) -> Result<Command, LineError>
    ensures ok { IfOk result (AreCommandWords (codes "stop" ∷ texts rest.now)) }
    ensures refused { IfErr result (IsRefusal (AreOfACommand (codes "stop" ∷ texts rest.now))) }
{
    match rest {
        [server, table] => Ok(Command::Stop {
            server: read_name(alloc, server)?,
            table: read_name(alloc, table)?,
        }),
        _ => Err(LineError::BadLine),
    }
}

/// `generate S T SEED UNITS CHANGES`
#[tactic(auto, using(crate::proofs::Slices::five_words))]
pub(crate) fn read_generate(alloc: Global, rest: &[&[u8]]) -> Result<Command, LineError>
    ensures ok { IfOk result (AreCommandWords (codes "generate" ∷ texts rest.now)) }
    ensures refused { IfErr result (IsRefusal (AreOfACommand (codes "generate" ∷ texts rest.now))) }
{
    match rest {
        [server, table, seed, units, changes] => Ok(Command::Generate {
            server: read_name(alloc, server)?,
            table: read_name(alloc, table)?,
            seed: read_seed(seed)?,
            units: read_amount(units)?,
            changes: read_amount(changes)?,
        }),
        _ => Err(LineError::BadLine),
    }
}

/// `rounds Q`
pub(crate) fn read_rounds(alloc: Global, rest: &[&[u8]]) -> Result<Command, LineError>
    ensures ok { IfOk result (AreCommandWords (codes "rounds" ∷ texts rest.now)) }
    ensures refused { IfErr result (IsRefusal (AreOfACommand (codes "rounds" ∷ texts rest.now))) }
{
    match rest {
        [qual] => Ok(Command::Rounds {
            qual: read_name(alloc, qual)?,
        }),
        _ => Err(LineError::BadLine),
    }
}

/// `audit Q N`
pub(crate) fn read_audit(alloc: Global, rest: &[&[u8]]) -> Result<Command, LineError>
    ensures ok { IfOk result (AreCommandWords (codes "audit" ∷ texts rest.now)) }
    ensures refused { IfErr result (IsRefusal (AreOfACommand (codes "audit" ∷ texts rest.now))) }
{
    Ok(Command::Audit {
        set: read_one_set(alloc, rest)?,
    })
}

/// `status S`, `status Q N`
pub(crate) fn read_status(alloc: Global, rest: &[&[u8]]) -> Result<Command, LineError>
    ensures ok { IfOk result (AreCommandWords (codes "status" ∷ texts rest.now)) }
    ensures refused { IfErr result (IsRefusal (AreOfACommand (codes "status" ∷ texts rest.now))) }
{
    match rest {
        [server] => Ok(Command::StatusServer {
            server: read_name(alloc, server)?,
        }),
        [qual, name] => Ok(Command::StatusSet {
            set: read_set(alloc, qual, name)?,
        }),
        _ => Err(LineError::BadLine),
    }
}

/// `show S uow`, `show S log`, of which S is read.
fn read_show_server(server: Name, shown: &[u8]) -> Result<Command, LineError>
    ensures ok { IfOk result (AreCommandWords (codes "show" ∷ server ∷ shown.now ∷ [])) }
    ensures refused { IfErr result (IsRefusal (ShowsServer shown.now)) }
{
    if is_word(shown, b"uow") {
        Ok(Command::ShowUow { server })
    } else if is_word(shown, b"log") {
        Ok(Command::ShowLog { server })
    } else {
        Err(LineError::BadLine)
    }
}

/// `show S source T`, `show S cd T`, `show S target T`, of which S and T are read.
fn read_show_table(server: Name, shown: &[u8], table: Name) -> Result<Command, LineError>
    ensures ok { IfOk result (AreCommandWords (codes "show" ∷ server ∷ shown.now ∷ table ∷ [])) }
    ensures refused { IfErr result (IsRefusal (ShowsTable shown.now)) }
{
    if is_word(shown, b"source") {
        Ok(Command::ShowSource { server, table })
    } else if is_word(shown, b"cd") {
        Ok(Command::ShowCd { server, table })
    } else if is_word(shown, b"target") {
        Ok(Command::ShowTarget { server, table })
    } else {
        Err(LineError::BadLine)
    }
}

/// `show S trail Q N`, `show S rejected Q N`, of which S, Q and N are read.
fn read_show_set(server: Name, shown: &[u8], set: SetId) -> Result<Command, LineError>
    ensures ok { IfOk result
        (AreCommandWords (codes "show" ∷ server ∷ shown.now ∷ set.qual ∷ set.name ∷ [])) }
    ensures refused { IfErr result (IsRefusal (ShowsSet shown.now)) }
{
    if is_word(shown, b"trail") {
        Ok(Command::ShowTrail { server, set })
    } else if is_word(shown, b"rejected") {
        Ok(Command::ShowRejected { server, set })
    } else {
        Err(LineError::BadLine)
    }
}

/// `show S` and one of `source T`, `cd T`, `uow`, `log`, `target T`, `trail Q N`, `rejected Q N`
#[tactic(auto, using(crate::proofs::Slices::four_words))]
pub(crate) fn read_show(alloc: Global, rest: &[&[u8]]) -> Result<Command, LineError>
    ensures ok { IfOk result (AreCommandWords (codes "show" ∷ texts rest.now)) }
    ensures refused { IfErr result (IsRefusal (AreOfACommand (codes "show" ∷ texts rest.now))) }
{
    match rest {
        [server, shown] => read_show_server(read_name(alloc, server)?, shown),
        [server, shown, table] => {
            read_show_table(read_name(alloc, server)?, shown, read_name(alloc, table)?)
        }
        [server, shown, qual, name] => {
            read_show_set(
                read_name(alloc, server)?,
                shown,
                read_set(alloc, qual, name)?,
            )
        }
        _ => Err(LineError::BadLine),
    }
}
