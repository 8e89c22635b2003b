//! Why a call that takes log records, or one that writes rows, failed.

use crate::fault::Fault;
use std::alloc::{AllocError, AllocFailed};
use thiserror::Error;

/// Why records were not all taken into a log. A record is named by its place among those that were
/// handed over, counted from 0; those before it were taken.
#[derive(Clone, Debug, Drop, PartialEq, Eq, Error)]
pub enum AppendError {
    #[error("{0}")]
    Fault(Fault),
    #[error("record {0} is not applicable")]
    NotApplicable(u64),
    #[error("the log is full at record {0}")]
    LogFull(u64),
}

impl From<AllocError> for AppendError {
    ghost use Rattle.std.specs.Prelude.{◌≡◌};
    ghost use Rattle.repl_types.specs.declared.fault.Fault.TheVariants.{Memory};
    ghost use Rattle.repl_types.specs.declared.call_errors.AppendError.TheVariants.{Fault as InFault};

    ghost from_gives = { λ _ e. e ≡ InFault Memory };

    fn from(_: AllocError) -> AppendError {
        AppendError::Fault(Fault::Memory)
    }
}

impl<T: Drop> From<AllocFailed<T>> for AppendError {
    ghost use Rattle.std.specs.Prelude.{◌≡◌};
    ghost use Rattle.repl_types.specs.declared.fault.Fault.TheVariants.{Memory};
    ghost use Rattle.repl_types.specs.declared.call_errors.AppendError.TheVariants.{Fault as InFault};

    ghost from_gives = { λ _ e. e ≡ InFault Memory };

    fn from(_: AllocFailed<T>) -> AppendError {
        AppendError::Fault(Fault::Memory)
    }
}

impl From<Fault> for AppendError {
    ghost use Rattle.std.specs.Prelude.{◌≡◌};
    ghost use Rattle.repl_types.specs.declared.call_errors.AppendError.TheVariants.{Fault as InFault};

    ghost from_gives = { λ fault e. e ≡ InFault fault };

    fn from(fault: Fault) -> AppendError {
        AppendError::Fault(fault)
    }
}

/// Why rows were not all written.
#[derive(Clone, Debug, Drop, PartialEq, Eq, Error)]
pub enum ShowError {
    #[error("{0}")]
    Fault(Fault),
    #[error("the output failed")]
    Output,
}

impl From<AllocError> for ShowError {
    ghost use Rattle.std.specs.Prelude.{◌≡◌};
    ghost use Rattle.repl_types.specs.declared.fault.Fault.TheVariants.{Memory};
    ghost use Rattle.repl_types.specs.declared.call_errors.ShowError.TheVariants.{Fault as InFault};

    ghost from_gives = { λ _ e. e ≡ InFault Memory };

    fn from(_: AllocError) -> ShowError {
        ShowError::Fault(Fault::Memory)
    }
}

impl<T: Drop> From<AllocFailed<T>> for ShowError {
    ghost use Rattle.std.specs.Prelude.{◌≡◌};
    ghost use Rattle.repl_types.specs.declared.fault.Fault.TheVariants.{Memory};
    ghost use Rattle.repl_types.specs.declared.call_errors.ShowError.TheVariants.{Fault as InFault};

    ghost from_gives = { λ _ e. e ≡ InFault Memory };

    fn from(_: AllocFailed<T>) -> ShowError {
        ShowError::Fault(Fault::Memory)
    }
}

impl From<Fault> for ShowError {
    ghost use Rattle.std.specs.Prelude.{◌≡◌};
    ghost use Rattle.repl_types.specs.declared.call_errors.ShowError.TheVariants.{Fault as InFault};

    ghost from_gives = { λ fault e. e ≡ InFault fault };

    fn from(fault: Fault) -> ShowError {
        ShowError::Fault(fault)
    }
}
