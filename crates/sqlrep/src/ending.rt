//! How the program ends: the exit status, and the line on standard error.

ghost use Rattle.std.specs.Prelude.{◌≡◌, [], slice_index_or, string_bytes, IfOk, OnErr, Some};
ghost use Rattle.std.specs.Option.{option_map};
ghost use Rattle.sqlrep.specs.Endings.{code_of, area_name as area_name_lem, status_line_of};
ghost use Rattle.sqlrep.specs.Endings.{memory_line, keeper_line as keeper_line_lem};
ghost use Rattle.sqlrep.specs.Endings.{damaged_line as damaged_line_lem};
ghost use Rattle.sqlrep.specs.Endings.{cannot_open_line as cannot_open_line_lem, unopened_line};

use crate::servers::OpenError;
use repl_types::{Area, Name, Status};
use std::alloc::{AllocError, Global};

/// The line if memory ran out.
const MEMORY_LINE: &str = "sqlrep: out of memory";

/// How the program ends.
#[derive(Debug, Drop)]
pub struct Ending {
    /// The exit status.
    pub code: u8,
    /// The line on standard error, if there is one.
    pub line: Option<String>,
}

/// The exit status of a run: each kind of status has its own.
fn exit_code(status: &Status) -> u8
    ensures { result ≡ code_of status.now }
{
    match status {
        Status::Ok => 0,
        Status::Refused => 1,
        Status::Usage => 2,
        Status::KeeperFault(_) => 3,
        Status::InputFault => 4,
        Status::OutputFault => 5,
        Status::Memory => 6,
        Status::InputTooLong => 7,
        Status::Damaged(..) => 8,
    }
}

/// The name of an area.
fn area_name(area: Area) -> &'static str
    ensures { result.now ≡ area_name_lem area }
{
    match area {
        Area::Log => "Log",
        Area::Source => "Source",
        Area::Inflight => "Inflight",
        Area::Head => "Head",
        Area::Defs => "Defs",
        Area::Cd => "Cd",
        Area::Uow => "Uow",
        Area::Capture => "Capture",
        Area::Prune => "Prune",
        Area::Spill => "Spill",
        Area::Target => "Target",
        Area::SetState => "SetState",
        Area::Trail => "Trail",
    }
}

/// The name of a server, an empty text if there is no such server.
fn server_name(names: &[Name], server: u32) -> &str
    ensures { result.now ≡ slice_index_or names.now server [] }
{
    match names.get(server as usize) {
        Some(name) => name.as_str(),
        None => "",
    }
}

/// A line that is the same at all servers.
fn plain_line(alloc: Global, text: &str) -> Result<Option<String>, AllocError>
    ensures { IfOk result (λ line. option_map string_bytes line ≡ Some text.now) }
{
    Ok(Some(String::from_str(alloc, text)?))
}

/// The line of a failed keeper.
fn keeper_line(alloc: Global, name: &str) -> Result<Option<String>, AllocError>
    ensures { IfOk result (λ line. option_map string_bytes line ≡ Some (keeper_line_lem name.now)) }
{
    Ok(Some(format!(in alloc; "sqlrep: keeper fault at {name}")?))
}

/// The line of damaged contents.
fn damaged_line(alloc: Global, name: &str, area: &str) -> Result<Option<String>, AllocError>
    ensures { IfOk result (λ line. option_map string_bytes line
        ≡ Some (damaged_line_lem name.now area.now)) }
{
    Ok(Some(format!(in alloc; "sqlrep: damaged {name} {area}")?))
}

/// The line on standard error of a run at servers of these names. A run to the end of its input has
/// none.
fn status_line(alloc: Global, status: &Status, names: &[Name]) -> Result<Option<String>, AllocError>
    ensures { IfOk result (λ line. option_map string_bytes line
        ≡ status_line_of names.now status.now) }
{
    match status {
        Status::Ok | Status::Refused => Ok(None),
        Status::Usage => plain_line(
            alloc,
            "sqlrep: usage: sqlrep [--cells N] NAME=PATH... | sqlrep copy",
        ),
        Status::KeeperFault(server) => keeper_line(alloc, server_name(names, *server)),
        Status::InputFault => plain_line(alloc, "sqlrep: input fault"),
        Status::OutputFault => plain_line(alloc, "sqlrep: output fault"),
        Status::Memory => plain_line(alloc, MEMORY_LINE),
        Status::InputTooLong => plain_line(alloc, "sqlrep: input too long"),
        Status::Damaged(server, area, _) => {
            damaged_line(alloc, server_name(names, *server), area_name(*area))
        }
    }
}

/// The line if a server can't be opened.
fn cannot_open_line(alloc: Global, name: &Name) -> Result<String, AllocError>
    ensures { IfOk result (λ line. string_bytes line ≡ cannot_open_line_lem name.now) }
{
    let name = name.as_str();
    format!(in alloc; "sqlrep: cannot open {name}")
}

/// The end of a run at servers of these names: the number of its status, and the line of that.
pub fn ending_of(alloc: Global, status: &Status, names: &[Name]) -> Result<Ending, AllocError>
    ensures code { IfOk result (λ ending. ending.code ≡ code_of status.now) }
    ensures line { IfOk result (λ ending. option_map string_bytes ending.line
        ≡ status_line_of names.now status.now) }
{
    let line = status_line(alloc, status, names)?;
    Ok(Ending {
        code: exit_code(status),
        line,
    })
}

/// The end of a run of which a server can't be opened; `Err` if that is for want of memory.
pub fn ending_unopened(alloc: Global, error: &OpenError) -> Result<Ending, AllocError>
    ensures code { IfOk result (λ ending. ending.code ≡ code_of (Status.KeeperFault 0)) }
    ensures line { IfOk result (λ ending. option_map string_bytes ending.line
        ≡ Some (unopened_line error.now)) }
{
    let name = match error {
        OpenError::Memory => return Err(AllocError),
        OpenError::CannotOpen(name) => name,
    };
    let line = cannot_open_line(alloc, name)?;
    Ok(Ending {
        code: exit_code(&Status::KeeperFault(0)),
        line: Some(line),
    })
}

/// The exit status of the program. If there was no memory to say how it ends, memory ran out.
pub fn exit_status(answer: &Result<Ending, AllocError>) -> u8
    ensures ended { IfOk answer.now (λ ending. result ≡ ending.code) }
    ensures memory { OnErr answer.now (result ≡ code_of Status.Memory) }
{
    match answer {
        Ok(ending) => ending.code,
        Err(_) => exit_code(&Status::Memory),
    }
}

/// The line on standard error, if there is one. That memory ran out is said without more memory.
pub fn error_line(answer: &Result<Ending, AllocError>) -> Option<&str>
    ensures ended { IfOk answer.now (λ ending. option_map (λ line. line.now) result
        ≡ option_map string_bytes ending.line) }
    ensures memory { OnErr answer.now
        (option_map (λ line. line.now) result ≡ Some memory_line) }
{
    match answer {
        Ok(ending) => match &ending.line {
            Some(line) => Some(line.as_str()),
            None => None,
        },
        Err(_) => Some(MEMORY_LINE),
    }
}
