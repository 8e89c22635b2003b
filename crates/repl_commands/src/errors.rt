//! Why a text of a user, or the words of a command line, gave nothing.

use repl_types::DefPlace;
use std::alloc::{AllocError, AllocFailed};
use thiserror::Error;

/// Why a text of definitions was refused: the number of the rule that it breaks, and the place.
#[derive(Clone, Copy, Debug, PartialEq, Eq, Error)]
pub enum DefsError {
    #[error("out of memory")]
    Memory,
    #[error("rule {rule} of definitions is broken")]
    Broken { rule: u8, place: DefPlace },
}

impl From<AllocError> for DefsError {
    ghost use Rattle.std.specs.Prelude.{◌≡◌};
    ghost use Rattle.repl_commands.specs.declared.errors.DefsError.TheVariants.{Memory};

    ghost from_gives = { λ _ e. e ≡ Memory };

    fn from(_: AllocError) -> DefsError {
        DefsError::Memory
    }
}

impl<T: Drop> From<AllocFailed<T>> for DefsError {
    ghost use Rattle.std.specs.Prelude.{◌≡◌};
    ghost use Rattle.repl_commands.specs.declared.errors.DefsError.TheVariants.{Memory};

    ghost from_gives = { λ _ e. e ≡ Memory };

    fn from(_: AllocFailed<T>) -> DefsError {
        DefsError::Memory
    }
}

/// Why a line of a script gave no command.
#[derive(Clone, Copy, Debug, PartialEq, Eq, Error)]
pub enum LineError {
    #[error("out of memory")]
    Memory,
    /// The first word names no command.
    #[error("unknown command")]
    UnknownCommand,
    /// The words after the first are not those of the command.
    #[error("not a line of this command")]
    BadLine,
}

impl From<AllocError> for LineError {
    ghost use Rattle.std.specs.Prelude.{◌≡◌};
    ghost use Rattle.repl_commands.specs.declared.errors.LineError.TheVariants.{Memory};

    ghost from_gives = { λ _ e. e ≡ Memory };

    fn from(_: AllocError) -> LineError {
        LineError::Memory
    }
}

impl<T: Drop> From<AllocFailed<T>> for LineError {
    ghost use Rattle.std.specs.Prelude.{◌≡◌};
    ghost use Rattle.repl_commands.specs.declared.errors.LineError.TheVariants.{Memory};

    ghost from_gives = { λ _ e. e ≡ Memory };

    fn from(_: AllocFailed<T>) -> LineError {
        LineError::Memory
    }
}

/// Why the words of the command line were refused.
#[derive(Clone, Copy, Debug, PartialEq, Eq, Error)]
pub enum WordsError {
    #[error("out of memory")]
    Memory,
    #[error("wrong words on the command line")]
    Usage,
}

impl From<AllocError> for WordsError {
    ghost use Rattle.std.specs.Prelude.{◌≡◌};
    ghost use Rattle.repl_commands.specs.declared.errors.WordsError.TheVariants.{Memory};

    ghost from_gives = { λ _ e. e ≡ Memory };

    fn from(_: AllocError) -> WordsError {
        WordsError::Memory
    }
}

impl<T: Drop> From<AllocFailed<T>> for WordsError {
    ghost use Rattle.std.specs.Prelude.{◌≡◌};
    ghost use Rattle.repl_commands.specs.declared.errors.WordsError.TheVariants.{Memory};

    ghost from_gives = { λ _ e. e ≡ Memory };

    fn from(_: AllocFailed<T>) -> WordsError {
        WordsError::Memory
    }
}
