//! The items of a stream that a reader gives.

ghost use Rattle.std.specs.Prelude.{◌≡◌, ◌≤◌, ℕ, List, IfOk};
ghost use Rattle.std.specs.Io.KnownBytes.{Consumes};
ghost use Rattle.shared_core_base.specs.Version.{version_number};
ghost use Rattle.shared_core_stream.specs.Items.{TakesItem};
ghost use Rattle.shared_core_stream.specs.declared.encoding.item.Item.{Item as AnyItem};
ghost use Rattle.shared_core_stream.specs.Unread.{fresh};
ghost use Rattle.shared_core_io.specs.Reading.{with_more, IsRead};

use crate::error::ReadError;
use crate::item_buffer::{CHUNK, ItemBuffer};
use shared_core_base::version::Version;
use shared_core_stream::encoding::Item;
use std::alloc::{AllocError, Global};
use std::io::Read;

/// Reads the items of a stream, in order.
#[derive(Drop)]
pub struct ItemReader<R> {
    reader: R,
    items: ItemBuffer,
}

impl<R: Read + Drop> ItemReader<R> {
    ghost use Rattle.shared_core_io.specs.Buffered.{held_in};

    /// Returns a reader of the items of a stream of this version, which is at least V5. Neither reads nor allocates.
    pub fn new(alloc: Global, version: Version, reader: R) -> ItemReader<R>
        requires { 5 ≤ version_number version }
        ensures reader { result.reader ≡ reader }
        ensures nothing_held { held_in result.items ≡ fresh version 4294967295 }
    {
        ItemReader::with_limit(alloc, version, u32::MAX, reader)
    }

    /// The same for a stream of whose messages none may have a payload of more bytes than a limit.
    pub fn with_limit(alloc: Global, version: Version, limit: u32, reader: R) -> ItemReader<R>
        requires { 5 ≤ version_number version }
        ensures reader { result.reader ≡ reader }
        ensures nothing_held { held_in result.items ≡ fresh version limit }
    {
        ItemReader {
            reader,
            items: ItemBuffer::new(alloc, version, limit, CHUNK),
        }
    }

    /// Returns the next item, or `None` if the stream ends before it. It reads only while what was read holds no
    /// complete item, into blocks of 65,536 bytes. A block is read into until less than 4,096 bytes of it are left.
    ///
    /// `TooLong` if the next message is longer than the limit. It comes as soon as the header was read. From then on
    /// nothing is held, and each call returns it. `Truncated` if the stream ends within an item; `Failed` if a read
    /// failed, though an interrupted one is repeated; `OutOfMemory`. After these three nothing that was read is lost: a
    /// later call goes on from there.
    pub fn next_item(&mut self) -> Result<Option<Item>, ReadError>
        ensures read { (read : List ℕ) × Consumes (R.remaining self.old.reader) (R.remaining self.new.reader) read
            × IsRead (with_more (held_in self.old.items) read) (R.remaining self.new.reader) result
            (held_in self.new.items) }
        // a complete item is returned before anything is read, so it does not wait for what comes after it
        ensures idle { (item : AnyItem) (rest : List ℕ) → TakesItem self.old.items.decoder.version
            (held_in self.old.items).bytes item rest → self.new.reader ≡ self.old.reader }
    {
        let Some((_, item)) = self.items.next_with_word(&mut self.reader)? else {
            return Ok(None);
        };
        Ok(Some(item))
    }

    /// Returns a copy of the bytes that were read and are in no item that was returned: after `Truncated` those of the
    /// item that is cut short, after `TooLong` none.
    pub fn copy_pending(&self) -> Result<Vec<u8>, AllocError>
        ensures { IfOk result (λ bytes. bytes.items ≡ (held_in self.now.items).bytes) }
    {
        self.items.copy_pending()
    }
}
