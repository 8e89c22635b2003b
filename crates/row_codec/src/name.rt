//! Names, and the names of sets.

ghost use Rattle.row_codec.specs.Spelling.{Any, short_text, set_spelling, IsName, IsSet};
ghost use Rattle.row_codec.specs.laws.Names.{one_name, one_set};

use crate::part::Part;
use crate::parts::take_two;
use crate::take_error::TakeError;
use repl_types::{Name, SetId};
use std::alloc::{AllocError, Global};

impl Part for Name {
    ghost fits = { IsName };

    ghost has_spelling = { Any };

    ghost spelling = { short_text };

    ghost one = { one_name };

    ghost again = { λ _ _. tt };

    fn put_part(&self, out: &mut Vec<u8>) -> Result<(), AllocError> {
        let text = self.as_str();
        out.push(text.len() as u8)?;
        out.extend_from_slice(text.as_bytes())
    }

    fn take_part(alloc: Global, bytes: &[u8]) -> Result<(Name, &[u8]), TakeError> {
        let Some((length, rest)) = bytes.split_first() else {
            return Err(TakeError::Spelling);
        };
        let length = *length as usize;
        if rest.len() < length {
            return Err(TakeError::Spelling);
        }
        let (text, rest) = rest.split_at(length);
        match Name::read(alloc, text)? {
            Some(name) => Ok((name, rest)),
            None => Err(TakeError::Spelling),
        }
    }
}

impl Part for SetId {
    ghost fits = { IsSet };

    ghost has_spelling = { Any };

    ghost spelling = { set_spelling };

    ghost one = { one_set };

    ghost again = { λ _ _. tt };

    fn put_part(&self, out: &mut Vec<u8>) -> Result<(), AllocError> {
        self.qual.put_part(out)?;
        self.name.put_part(out)
    }

    fn take_part(alloc: Global, bytes: &[u8]) -> Result<(SetId, &[u8]), TakeError> {
        let (qual, name, rest) = take_two::<Name, Name>(alloc, bytes)?;
        Ok((SetId { qual, name }, rest))
    }
}
