//! Lists with their counts.

ghost use Rattle.row_codec.specs.Spelling.{list_spelling, ListFits};
ghost use Rattle.row_codec.specs.laws.Again.{list_again};
ghost use Rattle.row_codec.specs.laws.Values.{one_list};

use crate::part::Part;
use crate::take_error::TakeError;
use repl_types::List;
use std::alloc::{AllocError, Global};

impl<T: Part> Part for List<T> {
    ghost fits = { ListFits T.fits };

    ghost has_spelling = { ListFits T.has_spelling };

    ghost spelling = { list_spelling T.spelling };

    ghost one = { one_list T.fits T.spelling T.one };

    ghost again = { list_again T.fits T.has_spelling T.again };

    fn put_part(&self, out: &mut Vec<u8>) -> Result<(), AllocError> {
        (self.len() as u16).put_part(out)?;
        for item in self.as_slice() {
            item.put_part(out)?;
        }
        Ok(())
    }

    fn take_part(alloc: Global, bytes: &[u8]) -> Result<(List<T>, &[u8]), TakeError> {
        let (count, rest) = u16::take_part(alloc, bytes)?;
        let mut items = List::new(alloc);
        let mut left = rest;
        for _ in 0..count {
            let (item, after) = T::take_part(alloc, left)?;
            items.push(item)?;
            left = after;
        }
        Ok((items, left))
    }
}
