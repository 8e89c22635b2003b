//! The operations of change rows, each spelled by its letter.

ghost use Rattle.row_codec.specs.Spelling.{Any, op_spelling};
ghost use Rattle.row_codec.specs.laws.Names.{one_op};

use crate::part::Part;
use crate::take_error::TakeError;
use repl_types::Op;
use std::alloc::{AllocError, Global};

impl Part for Op {
    ghost fits = { Any };

    ghost has_spelling = { Any };

    ghost spelling = { op_spelling };

    ghost one = { one_op };

    ghost again = { λ _ _. tt };

    fn put_part(&self, out: &mut Vec<u8>) -> Result<(), AllocError> {
        let letter = match self {
            Op::I => b'I',
            Op::U => b'U',
            Op::D => b'D',
        };
        Ok(out.push(letter)?)
    }

    fn take_part(_: Global, bytes: &[u8]) -> Result<(Op, &[u8]), TakeError> {
        match bytes {
            [b'I', rest @ ..] => Ok((Op::I, rest)),
            [b'U', rest @ ..] => Ok((Op::U, rest)),
            [b'D', rest @ ..] => Ok((Op::D, rest)),
            _ => Err(TakeError::Spelling),
        }
    }
}
