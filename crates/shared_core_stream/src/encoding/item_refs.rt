//! Iterating over the items of a slice.

ghost use Rattle.std.specs.Prelude.{◌≡◌, length};
ghost use Rattle.shared_core_stream.specs.Borrowed.{too_long_for};

use crate::encoding::{ItemRef, MessageTooLong};
use shared_core_base::version::Version;

/// An iterator over the items of a slice, in order, each borrowed from it. It ends if no complete item is left, or
/// before the first message whose payload is longer than a limit. It copies nothing, does not allocate, and counts no
/// owners: for a stream that is in memory as a whole.
///
/// A contract sees it as its version, its limit, the number of all bytes, and those that it has not returned.
#[derive(Clone, Debug, Drop)]
pub struct ItemRefs<'a> {
    version: Version,
    limit: u32,
    count: usize,
    rest: &'a [u8],
}

impl<'a> ItemRefs<'a> {
    /// The items of these bytes.
    pub fn new(version: Version, bytes: &'a [u8]) -> ItemRefs<'a>
        ensures version { result.version ≡ version }
        ensures limit { result.limit ≡ 4294967295 }
        ensures count { result.count ≡ length bytes.now }
        ensures bytes { result.rest.now ≡ bytes.now }
    {
        ItemRefs::with_limit(version, u32::MAX, bytes)
    }

    /// The same as far as their payloads are not longer than a limit in bytes. A limit of `u32::MAX` is none.
    pub fn with_limit(version: Version, limit: u32, bytes: &'a [u8]) -> ItemRefs<'a>
        ensures version { result.version ≡ version }
        ensures limit { result.limit ≡ limit }
        ensures count { result.count ≡ length bytes.now }
        ensures bytes { result.rest.now ≡ bytes.now }
    {
        ItemRefs {
            version,
            limit,
            count: bytes.len(),
            rest: bytes,
        }
    }

    /// The bytes after the items that were returned: at the end those that no item within the limit begins.
    pub fn rest(&self) -> &'a [u8]
        ensures { result.now ≡ self.now.rest.now }
    {
        self.rest
    }

    /// The message that these bytes begin with, if it is longer than the limit, whatever is there of its payload: then
    /// the iterator has ended. It has the offset from the beginning of the slice.
    pub fn rejected(&self) -> Option<MessageTooLong>
        ensures { result ≡ too_long_for self.now }
    {
        let offset = self.count.saturating_sub(self.rest.len()) as u64;
        MessageTooLong::at_front(self.version, self.limit, offset, self.rest)
    }
}

impl<'a> Iterator for ItemRefs<'a> {
    ghost use Rattle.std.specs.Prelude.{length};
    ghost use Rattle.std.specs.Iterator.{at_most};
    ghost use Rattle.shared_core_stream.specs.Borrowed.{GivesBorrowed};

    type Item = ItemRef<'a>;

    ghost next_gives = { GivesBorrowed };

    ghost remaining = { λ items. at_most (length items.rest.now) };

    #[inline(always)]
    fn next(&mut self) -> Option<ItemRef<'a>> {
        let Ok((item, rest)) = ItemRef::first(self.version, self.rest) else {
            return None;
        };
        if item.payload.len() > self.limit as usize {
            return None;
        }
        self.rest = rest;
        Some(item)
    }
}
