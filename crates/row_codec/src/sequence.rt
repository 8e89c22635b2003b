//! Places in a log.

ghost use Rattle.row_codec.specs.Spelling.{Any, sequence_spelling, IsSequence};
ghost use Rattle.row_codec.specs.laws.Names.{one_sequence};

use crate::part::Part;
use crate::parts::take_two;
use crate::take_error::TakeError;
use repl_types::Sequence;
use std::alloc::{AllocError, Global};

impl Part for Sequence {
    ghost fits = { IsSequence };

    ghost has_spelling = { Any };

    ghost spelling = { sequence_spelling };

    ghost one = { one_sequence };

    ghost again = { λ _ _. tt };

    fn put_part(&self, out: &mut Vec<u8>) -> Result<(), AllocError> {
        self.position.put_part(out)?;
        self.sub.put_part(out)
    }

    fn take_part(alloc: Global, bytes: &[u8]) -> Result<(Sequence, &[u8]), TakeError> {
        let (position, sub, rest) = take_two(alloc, bytes)?;
        Ok((Sequence { position, sub }, rest))
    }
}
