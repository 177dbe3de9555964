//! The items of a complete stream.

ghost use Rattle.std.specs.Prelude.{◌≡◌, ◌+◌, ◌++◌, ◌^◌, ◌≤◌, List, [], ℕ, length, IfOk, IsOk, OnOk, IsErrOf};
ghost use Rattle.std.specs.List.{concat};
ghost use Rattle.shared_core_base.specs.Version.{version_number};
ghost use Rattle.shared_core_stream.specs.Items.{NoItemBegins, IsItemsThen, SplitsInto, BeginsWithWritten};
ghost use Rattle.shared_core_stream.specs.Unread.{IsUnlimited};

use crate::encoding::{Decoder, Item, ItemError, PiecesError, PushError};
use bytes::Bytes;
use shared_core_base::version::Version;
use std::alloc::Global;

/// Returns the items of the stream that comes in these chunks, in order, and the decoder that holds what is left.
/// However the stream is split, the list is the items of the joined chunks, and the decoder holds the remaining bytes,
/// with which no item begins.
///
/// Whatever items were written at the beginning of the stream, the list begins with them. The version is at least V5.
/// `TooLong` comes only if the joined chunks are more than 2^64 - 1 bytes. An empty list of chunks does not allocate.
/// The chunks are shared and not copied.
pub fn decode_pieces(
    alloc: Global,
    version: Version,
    chunks: &[Bytes],
) -> Result<(Vec<Item>, Decoder), PiecesError>
    requires { 5 ≤ version_number version }
    ensures items { IfOk result (λ returned. SplitsInto version (concat chunks.now) returned.0.items returned.1.bytes) }
    ensures written { IfOk result (λ returned. BeginsWithWritten version (concat chunks.now) returned.0.items) }
    ensures version { IfOk result (λ returned. returned.1.version ≡ version) }
    ensures unlimited { IfOk result (λ returned. IsUnlimited returned.1) }
    ensures too_long { IsErrOf result PiecesError.TooLong → 2 ^ 64 ≤ length (concat chunks.now) }
    ensures none { chunks.now ≡ [] → IsOk result }
{
    let mut decoder = Decoder::new(alloc, version);
    let mut items = Vec::new(alloc);
    for chunk in chunks {
        feed(&mut decoder, &mut items, chunk)?;
    }
    Ok((items, decoder))
}

/// Pushes a chunk, and then moves each complete item to the list.
fn feed(decoder: &mut Decoder, items: &mut Vec<Item>, chunk: &Bytes) -> Result<(), PiecesError>
    requires { IsUnlimited decoder.old }
    ensures moved { OnOk result ((stream : List ℕ)
        → IsItemsThen decoder.old.version stream items.old.items decoder.old.bytes
        → IsItemsThen decoder.old.version (stream ++ chunk.now) items.new.items decoder.new.bytes) }
    ensures no_more { OnOk result (NoItemBegins decoder.old.version decoder.new.bytes) }
    ensures version { OnOk result (decoder.new.version ≡ decoder.old.version) }
    ensures unlimited { OnOk result (IsUnlimited decoder.new) }
    ensures too_long { IsErrOf result PiecesError.TooLong → 2 ^ 64 ≤ length decoder.old.bytes + length chunk.now }
{
    match decoder.push(chunk.clone()?) {
        Ok(()) => drain(decoder, items),
        Err(PushError::TooLong(_)) => Err(PiecesError::TooLong),
        Err(PushError::OutOfMemory(_)) => Err(PiecesError::OutOfMemory),
    }
}

/// Moves each complete item to the list.
fn drain(decoder: &mut Decoder, items: &mut Vec<Item>) -> Result<(), PiecesError>
    requires { IsUnlimited decoder.old }
    ensures moved { OnOk result ((stream : List ℕ)
        → IsItemsThen decoder.old.version stream items.old.items decoder.old.bytes
        → IsItemsThen decoder.old.version stream items.new.items decoder.new.bytes) }
    ensures no_more { OnOk result (NoItemBegins decoder.old.version decoder.new.bytes) }
    ensures version { OnOk result (decoder.new.version ≡ decoder.old.version) }
    ensures unlimited { OnOk result (IsUnlimited decoder.new) }
    ensures memory { IsErrOf result PiecesError.TooLong → ⊥ }
{
    loop {
        match decoder.next_item() {
            Ok(Some(item)) => items.push(item)?,
            Ok(None) => return Ok(()),
            Err(ItemError::OutOfMemory) => return Err(PiecesError::OutOfMemory),
            // the decoder has no limit
            Err(ItemError::TooLong) => unreachable!(),
        }
    }
}
