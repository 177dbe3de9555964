//! Iterating over the items that a decoder holds.

use crate::encoding::{Decoder, Item, ItemError};

/// An iterator over the items that a decoder holds, in order; each is taken as it is returned. It ends if no whole item
/// is left, and after an error: of a failed allocation, which takes nothing, so that a new iterator continues from
/// there; or of a message that is longer than the limit, which a new iterator returns again.
///
/// A contract sees it as its decoder, and whether it has failed.
#[derive(Drop)]
pub struct Items<'a> {
    pub(crate) decoder: &'a mut Decoder,
    pub(crate) has_failed: bool,
}

impl<'a> Iterator for Items<'a> {
    ghost use Rattle.std.specs.Iterator.{at_most};
    ghost use Rattle.shared_core_stream.specs.Iteration.{GivesItem, results_left};

    type Item = Result<Item, ItemError>;

    ghost next_gives = { GivesItem };

    ghost remaining = { λ items. at_most (results_left items) };

    #[inline(always)]
    fn next(&mut self) -> Option<Result<Item, ItemError>> {
        if self.has_failed {
            return None;
        }
        match self.decoder.next_item() {
            Ok(Some(item)) => Some(Ok(item)),
            Ok(None) => None,
            Err(error) => {
                self.has_failed = true;
                Some(Err(error))
            }
        }
    }
}
