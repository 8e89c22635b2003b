//! Values that may be absent.

ghost use Rattle.row_codec.specs.Spelling.{option_spelling, OptionFits};
ghost use Rattle.row_codec.specs.laws.Again.{option_again};
ghost use Rattle.row_codec.specs.laws.Names.{one_option};

use crate::part::Part;
use crate::take_error::TakeError;
use std::alloc::{AllocError, Global};

impl<T: Part> Part for Option<T> {
    ghost fits = { OptionFits T.fits };

    ghost has_spelling = { OptionFits T.has_spelling };

    ghost spelling = { option_spelling T.spelling };

    ghost one = { one_option T.fits T.spelling T.one };

    ghost again = { option_again T.fits T.has_spelling T.again };

    fn put_part(&self, out: &mut Vec<u8>) -> Result<(), AllocError> {
        match self {
            None => Ok(out.push(0x00)?),
            Some(value) => {
                out.push(0x01)?;
                value.put_part(out)
            }
        }
    }

    fn take_part(alloc: Global, bytes: &[u8]) -> Result<(Option<T>, &[u8]), TakeError> {
        match bytes {
            [0x00, rest @ ..] => Ok((None, rest)),
            [0x01, rest @ ..] => {
                let (value, rest) = T::take_part(alloc, rest)?;
                Ok((Some(value), rest))
            }
            _ => Err(TakeError::Spelling),
        }
    }
}
