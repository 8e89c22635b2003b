//! Numbers, from the highest byte to the lowest, and flags.

ghost use Rattle.row_codec.specs.Spelling.{b8, b16, b32, b64, flag, Is8, Is16, Is32, Is64, Any};
ghost use Rattle.row_codec.specs.laws.Numbers.{one8, one16, one32, one64, one_flag};

use crate::part::Part;
use crate::take_error::TakeError;
use std::alloc::{AllocError, Global};

impl Part for u8 {
    ghost fits = { Is8 };

    ghost has_spelling = { Any };

    ghost spelling = { b8 };

    ghost one = { one8 };

    ghost again = { λ _ _. tt };

    fn put_part(&self, out: &mut Vec<u8>) -> Result<(), AllocError> {
        Ok(out.push(*self)?)
    }

    fn take_part(_: Global, bytes: &[u8]) -> Result<(u8, &[u8]), TakeError> {
        match bytes {
            [number, rest @ ..] => Ok((*number, rest)),
            [] => Err(TakeError::Spelling),
        }
    }
}

impl Part for u16 {
    ghost fits = { Is16 };

    ghost has_spelling = { Any };

    ghost spelling = { b16 };

    ghost one = { one16 };

    ghost again = { λ _ _. tt };

    #[tactic(auto, unfolding(crate::specs::Spelling::b16))]
    fn put_part(&self, out: &mut Vec<u8>) -> Result<(), AllocError> {
        out.extend_from_slice(&self.to_be_bytes())
    }

    #[tactic(auto, unfolding(crate::specs::Spelling::b16))]
    fn take_part(_: Global, bytes: &[u8]) -> Result<(u16, &[u8]), TakeError> {
        match bytes {
            [a, b, rest @ ..] => Ok((u16::from_be_bytes([*a, *b]), rest)),
            _ => Err(TakeError::Spelling),
        }
    }
}

impl Part for u32 {
    ghost fits = { Is32 };

    ghost has_spelling = { Any };

    ghost spelling = { b32 };

    ghost one = { one32 };

    ghost again = { λ _ _. tt };

    #[tactic(auto, unfolding(crate::specs::Spelling::b32))]
    fn put_part(&self, out: &mut Vec<u8>) -> Result<(), AllocError> {
        out.extend_from_slice(&self.to_be_bytes())
    }

    #[tactic(auto, unfolding(crate::specs::Spelling::b32))]
    fn take_part(_: Global, bytes: &[u8]) -> Result<(u32, &[u8]), TakeError> {
        match bytes {
            [a, b, c, d, rest @ ..] => Ok((u32::from_be_bytes([*a, *b, *c, *d]), rest)),
            _ => Err(TakeError::Spelling),
        }
    }
}

impl Part for u64 {
    ghost fits = { Is64 };

    ghost has_spelling = { Any };

    ghost spelling = { b64 };

    ghost one = { one64 };

    ghost again = { λ _ _. tt };

    #[tactic(auto, unfolding(crate::specs::Spelling::b64))]
    fn put_part(&self, out: &mut Vec<u8>) -> Result<(), AllocError> {
        out.extend_from_slice(&self.to_be_bytes())
    }

    #[tactic(auto, unfolding(crate::specs::Spelling::b64))]
    fn take_part(_: Global, bytes: &[u8]) -> Result<(u64, &[u8]), TakeError> {
        match bytes {
            [a, b, c, d, e, f, g, h, rest @ ..] => {
                let number = u64::from_be_bytes([*a, *b, *c, *d, *e, *f, *g, *h]);
                Ok((number, rest))
            }
            _ => Err(TakeError::Spelling),
        }
    }
}

impl Part for bool {
    ghost fits = { Any };

    ghost has_spelling = { Any };

    ghost spelling = { flag };

    ghost one = { one_flag };

    ghost again = { λ _ _. tt };

    fn put_part(&self, out: &mut Vec<u8>) -> Result<(), AllocError> {
        Ok(out.push(u8::from(*self))?)
    }

    fn take_part(_: Global, bytes: &[u8]) -> Result<(bool, &[u8]), TakeError> {
        match bytes {
            [0x00, rest @ ..] => Ok((false, rest)),
            [0x01, rest @ ..] => Ok((true, rest)),
            _ => Err(TakeError::Spelling),
        }
    }
}
