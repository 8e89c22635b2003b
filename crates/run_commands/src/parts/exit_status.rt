//! The status that a run ends with.

ghost use Rattle.std.specs.Prelude.{◌≡◌};
ghost use Rattle.run_commands.specs.parts.ExitStatus.{status_of_done, status_of_error};

use crate::parts::run_error::RunError;
use repl_types::Status;

/// The status of a run that came to its end.
pub fn done_status(refused: bool) -> Status
    ensures { result ≡ status_of_done refused }
{
    if refused { Status::Refused } else { Status::Ok }
}

/// The status of a run that ended early.
pub fn error_status(error: RunError) -> Status
    ensures { result ≡ status_of_error error }
{
    match error {
        RunError::Memory => Status::Memory,
        RunError::InputFailed => Status::InputFault,
        RunError::InputTooLong => Status::InputTooLong,
        RunError::OutputFailed => Status::OutputFault,
        RunError::KeeperFailed { server } => Status::KeeperFault(server),
        RunError::Damaged {
            server,
            area,
            cause,
        } => Status::Damaged(server, area, cause),
    }
}
