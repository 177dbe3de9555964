//! The items of a stream, as numbers.

ghost use Rattle.std.specs.Prelude.{◌≡◌, ◌+◌, ◌/◌, ◌^◌, ◌∷◌, [], length};
ghost use Rattle.shared_core_stream.specs.Borrowed.{item_borrowed};
ghost use Rattle.journal_c_api.specs.Items.{FindsItem, WritesItems, WritesNext, WritesNextWithin};
ghost use Rattle.journal_c_api.specs.Items.{borrowed_entry, item_ack, item_code, item_kind};

use crate::outcome::{CallError, version_of, write_over};
use shared_core::encoding::{ItemKind, ItemRef, ItemRefs};
use shared_core::header::MessageHeader;
use shared_core::version::Version;

/// The number of numbers that an item is written as.
const ITEM_NUMBERS: usize = 6;

/// The kind of a message.
const MESSAGE: u64 = 0;

/// The kind of an unassigned code. Only its header is skipped.
const UNKNOWN_CODE: u64 = 1;

/// The kind of a message of an unknown type, which is skipped with its payload.
const SKIPPED: u64 = 2;

/// An item of a stream as six numbers.
#[derive(Clone, Copy)]
#[repr(C)]
pub struct ItemEntry {
    /// Which of the three kinds it is.
    pub kind: u64,
    /// Its first eight bytes as one number.
    pub word: u64,
    /// The code of its type, or the one that denotes none.
    pub code: u64,
    /// Whether its header requests an acknowledgement: 1, otherwise 0.
    pub requested_ack: u64,
    /// Its size in bytes, header and payload.
    pub size: u64,
    /// Where its payload begins, in bytes from the item's first.
    pub payload: u64,
}

/// Finds the item that the bytes begin with, and writes its six numbers. They are its kind, its first eight bytes as a
/// number, its code, its flag, its size in bytes, and where its payload begins. Returns 0, or the least number of
/// missing bytes; then nothing is written. It copies nothing and does not allocate.
///
/// `UnknownVersion` if the number denotes no version, otherwise `NoRoom` if the slice has fewer than six numbers. A
/// reader that continues after the size of each item finds the items that the stream splits into, and stops at the rest
/// that begins with no item.
pub fn write_next(version: u32, bytes: &[u8], item: &mut [u64]) -> Result<usize, CallError>
    ensures { WritesNext version bytes.now item.old item.new result }
{
    let version = version_of(version)?;
    if item.len() < ITEM_NUMBERS {
        return Err(CallError::NoRoom);
    }
    Ok(write_item(version, bytes, item))
}

/// As `write_next`, if the payload of the item that the bytes begin with is not longer than the limit.
///
/// Otherwise `TooLong`, as soon as the eight bytes of its header are there: nothing is written. A limit of `u32::MAX`
/// is none.
#[tactic(auto, using(crate::proofs::FoundItems::item_found, crate::proofs::FoundItems::item_missing))]
pub fn write_next_within(
    version: u32,
    limit: u32,
    bytes: &[u8],
    item: &mut [u64],
) -> Result<usize, CallError>
    ensures { WritesNextWithin version limit bytes.now item.old item.new result }
{
    let version = version_of(version)?;
    if item.len() < ITEM_NUMBERS {
        return Err(CallError::NoRoom);
    }
    let mut items = ItemRefs::with_limit(version, limit, bytes);
    if let Some(found) = items.next() {
        write_over(&numbers_of(&found), item);
        return Ok(0);
    }
    if let Some(_) = items.rejected() {
        return Err(CallError::TooLong);
    }
    Ok(write_item(version, bytes, item))
}

/// Finds the items that the bytes begin with, one after another, and writes an entry for each, as many as there is room
/// for. Returns how many they are. It copies nothing and does not allocate.
///
/// They end before an item that is not whole, and before a message whose payload is longer than the limit: a call that
/// is given the bytes after them tells which. `UnknownVersion` if the number denotes no version; `TooLong` if the first
/// message is longer than the limit. A limit of `u32::MAX` is none.
pub fn write_items(
    version: u32,
    limit: u32,
    bytes: &[u8],
    items: &mut [ItemEntry],
) -> Result<usize, CallError>
    ensures { WritesItems version limit bytes.now items.old items.new result }
{
    let version = version_of(version)?;
    let mut found = ItemRefs::with_limit(version, limit, bytes);
    if let Some(_) = found.rejected() {
        return Err(CallError::TooLong);
    }
    let mut count = 0;
    while count < items.len() {
        let Some(item) = found.next() else {
            break;
        };
        items[count] = ItemEntry::of(&item);
        count += 1;
    }
    Ok(count)
}

/// Writes the numbers of the item that the bytes begin with, or returns the number of missing bytes.
#[tactic(auto, using(crate::proofs::FoundItems::item_found, crate::proofs::FoundItems::item_missing))]
fn write_item(version: Version, bytes: &[u8], item: &mut [u64]) -> usize
    ensures { FindsItem version bytes.now item.old item.new result }
{
    match ItemRef::first(version, bytes) {
        Ok((found, _)) => {
            write_over(&numbers_of(&found), item);
            0
        }
        Err(missing) => missing.count,
    }
}

/// The numbers of an item that is at the front of its bytes.
fn numbers_of(item: &ItemRef<'_>) -> [u64; ITEM_NUMBERS]
    requires { item_code (item_borrowed item.now) ≡ item.now.word / 2 ^ 48 }
    ensures { result ≡ item_kind (item_borrowed item.now) ∷ item.now.word ∷ item_code (item_borrowed item.now)
        ∷ item_ack (item_borrowed item.now) ∷ (8 + length item.now.payload.now) ∷ 8 ∷ [] }
{
    let entry = ItemEntry::of(item);
    [
        entry.kind,
        entry.word,
        entry.code,
        entry.requested_ack,
        entry.size,
        entry.payload,
    ]
}

impl ItemEntry {
    /// The entry of an item that is at the front of its bytes, so that its first number has its code: to look up the
    /// code of its type takes longer.
    fn of(item: &ItemRef<'_>) -> ItemEntry
        requires { item_code (item_borrowed item.now) ≡ item.now.word / 2 ^ 48 }
        ensures { result ≡ borrowed_entry item.now }
    {
        let (kind, asks_ack) = match item.kind {
            ItemKind::Message(header) => (MESSAGE, header.requested_ack().unwrap_or(false)),
            ItemKind::Unknown(_) => (UNKNOWN_CODE, false),
            ItemKind::Skipped(_) => (SKIPPED, false),
        };
        ItemEntry {
            kind,
            word: item.word,
            code: item.word >> 48,
            requested_ack: u64::from(asks_ack),
            size: item.size(),
            payload: MessageHeader::SIZE as u64,
        }
    }
}
