//! Rejection codes.

ghost use Rattle.row_codec.specs.Spelling.{b8};
ghost use Rattle.repl_records.specs.Capture.{IsCode};
ghost use Rattle.repl_records.specs.laws.Capture.{one_code};

use row_codec::{Part, TakeError};
use std::alloc::{AllocError, Global};
use std::marker::Model;

/// The rejection code of a unit, 0 to 4. A clause sees the number.
#[derive(Drop)]
pub(crate) struct Code {
    pub(crate) code: u8,
}

impl Model for Code {
    ghost use Rattle.std.specs.Prelude.{ℕ};

    ghost Value = { ℕ };

    ghost view = { λ code. code.code };
}

impl Part for Code {
    ghost fits = { IsCode };

    ghost has_spelling = { IsCode };

    ghost spelling = { b8 };

    ghost one = { one_code };

    ghost again = { λ _ fits. fits };

    fn put_part(&self, out: &mut Vec<u8>) -> Result<(), AllocError> {
        self.code.put_part(out)
    }

    fn take_part(_: Global, bytes: &[u8]) -> Result<(Code, &[u8]), TakeError> {
        match bytes {
            [code @ 0..=4, rest @ ..] => Ok((Code { code: *code }, rest)),
            _ => Err(TakeError::Spelling),
        }
    }
}
