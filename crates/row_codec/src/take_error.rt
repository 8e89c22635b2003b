//! Why bytes gave no record.

use std::alloc::{AllocError, AllocFailed};
use thiserror::Error;

/// Why bytes gave no record.
#[derive(Clone, Copy, Debug, PartialEq, Eq, Error)]
pub enum TakeError {
    #[error("out of memory")]
    Memory,
    #[error("no spelling of a record")]
    Spelling,
}

impl From<AllocError> for TakeError {
    ghost use Rattle.std.specs.Prelude.{◌≡◌};
    ghost use Rattle.row_codec.specs.declared.take_error.TakeError.TheVariants.{Memory};

    ghost from_gives = { λ _ e. e ≡ Memory };

    fn from(_: AllocError) -> TakeError {
        TakeError::Memory
    }
}

impl<T: Drop> From<AllocFailed<T>> for TakeError {
    ghost use Rattle.std.specs.Prelude.{◌≡◌};
    ghost use Rattle.row_codec.specs.declared.take_error.TakeError.TheVariants.{Memory};

    ghost from_gives = { λ _ e. e ≡ Memory };

    fn from(_: AllocFailed<T>) -> TakeError {
        TakeError::Memory
    }
}
