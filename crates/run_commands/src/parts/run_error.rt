//! Why a run ends early.

ghost use Rattle.std.specs.Prelude.{◌≡◌, IsSome, Some};
ghost use Rattle.run_commands.specs.parts.RunErrors.{error_of_fault as error_of_fault_lem, error_of_show};

use keep_core::ReadError;
use line_input::InputError;
use repl_types::{Area, DamageCause, Fault, ShowError};
use std::alloc::AllocError;
use thiserror::Error;

/// Why a run ended before its end. Servers are named by their place, counted from 0.
#[derive(Debug, Drop, Error)]
pub enum RunError {
    #[error("out of memory")]
    Memory,
    #[error("the input failed")]
    InputFailed,
    #[error("the input is too long")]
    InputTooLong,
    #[error("the output failed")]
    OutputFailed,
    #[error("the keeper of server {server} failed")]
    KeeperFailed {
        server: u32,
    },
    #[error("server {server} holds damaged records")]
    Damaged {
        server: u32,
        area: Area,
        cause: DamageCause,
    },
}

impl From<AllocError> for RunError {
    ghost use Rattle.std.specs.Prelude.{◌≡◌};
    ghost use Rattle.run_commands.specs.declared.parts.run_error.RunError.TheVariants.{Memory};

    ghost from_gives = { λ _ e. e ≡ Memory };

    fn from(_: AllocError) -> RunError {
        RunError::Memory
    }
}

impl From<InputError> for RunError {
    ghost use Rattle.std.specs.Prelude.{◌≡◌};
    ghost use Rattle.run_commands.specs.parts.RunErrors.{error_of_input};

    ghost from_gives = { λ error e. e ≡ error_of_input error };

    fn from(error: InputError) -> RunError {
        match error {
            InputError::Memory => RunError::Memory,
            InputError::Failed => RunError::InputFailed,
            InputError::TooLong => RunError::InputTooLong,
        }
    }
}

impl From<ReadError> for RunError {
    ghost use Rattle.std.specs.Prelude.{◌≡◌};
    ghost use Rattle.run_commands.specs.parts.RunErrors.{error_of_output};

    ghost from_gives = { λ error e. e ≡ error_of_output error };

    /// The error of a write to the output.
    fn from(error: ReadError) -> RunError {
        match error {
            ReadError::Memory => RunError::Memory,
            ReadError::Failed => RunError::OutputFailed,
        }
    }
}

/// Why a run ends at a fault, unless something was refused: that is answered by a line, and ends no
/// run.
pub fn error_of_fault(fault: Fault) -> RunError
    requires { IsSome (error_of_fault_lem fault) }
    ensures { Some result ≡ error_of_fault_lem fault }
{
    match fault {
        Fault::Memory => RunError::Memory,
        Fault::Keeper { server } => RunError::KeeperFailed { server },
        Fault::Damaged {
            server,
            area,
            cause,
        } => RunError::Damaged {
            server,
            area,
            cause,
        },
        Fault::Refused(_) => unreachable!(),
    }
}

/// Why a run ends at a reply that wasn't written whole, unless something was refused.
pub fn error_of_reply(error: ShowError) -> RunError
    requires { IsSome (error_of_show error) }
    ensures { Some result ≡ error_of_show error }
{
    match error {
        ShowError::Output => RunError::OutputFailed,
        ShowError::Fault(fault) => error_of_fault(fault),
    }
}
