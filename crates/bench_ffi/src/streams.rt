//! Benchmark work: reading streams of frames in chunks.

use crate::messages::decode;
use bytes::Bytes;
use journal_c_api::outcome::{CallError, version_of};
use shared_core::encoding::{Decoder, Item, PushError};
use std::alloc::Global;

/// The numbers of the items of a stream, which is read this many times (0 counts as 1).
pub fn items(
    alloc: Global,
    version: u32,
    stream: &[u8],
    chunk_size: usize,
    rounds: usize,
    words: &mut [u64],
) -> Result<usize, CallError> {
    let stream = Bytes::copy_from_slice(alloc, stream)?;
    for _round in 1..rounds {
        write_words(alloc, version, &stream, chunk_size, words)?;
    }
    write_words(alloc, version, &stream, chunk_size, words)
}

/// The messages of named types of a stream, which is read this many times (0 counts as 1), each decoded to its record.
pub fn messages(
    alloc: Global,
    version: u32,
    stream: &[u8],
    chunk_size: usize,
    rounds: usize,
) -> Result<usize, CallError> {
    let stream = Bytes::copy_from_slice(alloc, stream)?;
    for _round in 1..rounds {
        decode_all(alloc, version, &stream, chunk_size)?;
    }
    decode_all(alloc, version, &stream, chunk_size)
}

/// Writes the number of each item, and returns how many items there are.
fn write_words(
    alloc: Global,
    version: u32,
    stream: &Bytes,
    chunk_size: usize,
    words: &mut [u64],
) -> Result<usize, CallError> {
    let mut decoder = Decoder::new(alloc, version_of(version)?);
    let mut unpushed = stream.clone()?;
    let mut count = 0;
    for _chunk in 0..chunks_of(stream, chunk_size) {
        push_chunk(&mut decoder, &mut unpushed, chunk_size)?;
        for item in decoder.items() {
            let Some(word) = words.get_mut(count) else {
                return Err(CallError::NoRoom);
            };
            // a decoder without a limit has no other error; `or` would be a call, which moves each item twice more
            let Ok(item) = item else {
                return Err(CallError::OutOfMemory);
            };
            *word = word_of(item);
            count += 1;
        }
    }
    Ok(count)
}

/// The number of an item.
fn word_of(item: Item) -> u64 {
    match item {
        Item::Message(message) => u64::from(message.header()),
        Item::Unknown(code) => u64::from(code) << 48,
        Item::Skipped(code, payload) => (u64::from(code) << 48) | payload.len() as u64,
    }
}

/// Decodes each message of a named type, and returns how many there are.
fn decode_all(
    alloc: Global,
    version: u32,
    stream: &Bytes,
    chunk_size: usize,
) -> Result<usize, CallError> {
    let mut decoder = Decoder::new(alloc, version_of(version)?);
    let mut unpushed = stream.clone()?;
    let mut count: usize = 0;
    for _chunk in 0..chunks_of(stream, chunk_size) {
        push_chunk(&mut decoder, &mut unpushed, chunk_size)?;
        for item in decoder.items() {
            let message = match item {
                Ok(Item::Message(message)) => message,
                Ok(_) => continue,
                Err(_) => return Err(CallError::OutOfMemory),
            };
            let records = decode(alloc, &message)?;
            count = count.checked_add(records).ok_or(CallError::TooLong)?;
        }
    }
    Ok(count)
}

/// How many chunks of this many bytes a stream has (0: one).
fn chunks_of(stream: &Bytes, chunk_size: usize) -> usize {
    if chunk_size == 0 {
        1
    } else {
        stream.len().div_ceil(chunk_size)
    }
}

/// Pushes the next chunk: this many bytes (0: all), or all if fewer are left.
fn push_chunk(
    decoder: &mut Decoder,
    unpushed: &mut Bytes,
    chunk_size: usize,
) -> Result<(), CallError> {
    let count = if chunk_size == 0 {
        unpushed.len()
    } else {
        chunk_size.min(unpushed.len())
    };
    push(decoder, unpushed.split_to(count)?)
}

/// Pushes bytes to a decoder.
pub fn push(decoder: &mut Decoder, bytes: Bytes) -> Result<(), CallError> {
    match decoder.push(bytes) {
        Ok(()) => Ok(()),
        Err(PushError::OutOfMemory(_)) => Err(CallError::OutOfMemory),
        Err(PushError::TooLong(_)) => Err(CallError::TooLong),
    }
}
