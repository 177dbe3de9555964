//! The calls of `bench/measure.h`, which repeat the work of the library so that it can be measured. They are a static
//! library of their own, so that the library for C holds none of them.
#![tactic(auto)]

mod commands;
mod fields;
mod frames;
mod item_refs;
mod messages;
mod payloads;
mod streams;

use crate::frames::{Buffer, Rounds};
use journal_c_api::outcome::outcome_of;
use std::alloc::Global;

/// Reads a stream of a version from 5 to 9, which comes in chunks of this many bytes (0: in one chunk), and writes a
/// number for each item. For a message it is the header. Otherwise it has the unknown code in bits 48 to 63 and, at
/// version 9, in bits 0 to 31 the length of the payload that is skipped with it. Returns the number of items.
///
/// The stream is copied once, and then read `rounds` times by a new decoder each (0 counts as 1); the numbers are those
/// of the last. Fails on an unsupported version, on a stream with more items than `words` has room for, and on
/// allocation failure.
#[unsafe(no_mangle)]
pub extern "C" fn measure_items(
    alloc: Global,
    version: u32,
    stream: &[u8],
    chunk_size: usize,
    rounds: usize,
    words: &mut [u64],
) -> i64 {
    outcome_of(streams::items(alloc, version, stream, chunk_size, rounds, words))
}

/// As `measure_items`, but the items are borrowed from the stream, which is not copied, and nothing allocates.
#[unsafe(no_mangle)]
pub extern "C" fn measure_item_refs(
    version: u32,
    stream: &[u8],
    rounds: usize,
    words: &mut [u64],
) -> i64 {
    outcome_of(item_refs::items(version, stream, rounds, words))
}

/// As `measure_items`, but each message of a named type is decoded to its record, and nothing is written. Returns the
/// number of these messages. `Malformed` if the payload of one is not well-formed for its type.
#[unsafe(no_mangle)]
pub extern "C" fn measure_messages(
    alloc: Global,
    version: u32,
    stream: &[u8],
    chunk_size: usize,
    rounds: usize,
) -> i64 {
    outcome_of(streams::messages(alloc, version, stream, chunk_size, rounds))
}

/// Decodes each command of a stream of a version from 5 to 9 twice, and compares the two `rounds` times (0: not at
/// all), which does not allocate. Payloads are compared, unless `ignore_payloads` is not 0. Returns the number of equal
/// comparisons: all of them. `Malformed` if the payload of a command is not well-formed for its type; other items are
/// skipped.
#[unsafe(no_mangle)]
pub extern "C" fn measure_compare(
    alloc: Global,
    version: u32,
    stream: &[u8],
    ignore_payloads: u32,
    rounds: usize,
) -> i64 {
    outcome_of(commands::compare(alloc, version, stream, ignore_payloads != 0, rounds))
}

/// Decodes a payload for the named message type that has the code, and writes the frame of that message at a version
/// from 5 to 9. Returns the frame's length in bytes. The payload is decoded once, and the message encoded `rounds`
/// times (0 counts as 1).
#[unsafe(no_mangle)]
pub extern "C" fn measure_frame(
    alloc: Global,
    version: u32,
    code: u16,
    payload: &[u8],
    rounds: usize,
    out: &mut [u8],
) -> i64 {
    let rounds = Rounds {
        count: rounds,
        buffer: Buffer::New,
    };
    outcome_of(frames::write_frame(alloc, version, code, payload, rounds, out))
}

/// As `measure_frame`, but each round's frame is a `Vec` of its own, which needs one allocation.
#[unsafe(no_mangle)]
pub extern "C" fn measure_frame_vec(
    alloc: Global,
    version: u32,
    code: u16,
    payload: &[u8],
    rounds: usize,
    out: &mut [u8],
) -> i64 {
    let rounds = Rounds {
        count: rounds,
        buffer: Buffer::Owned,
    };
    outcome_of(frames::write_frame(alloc, version, code, payload, rounds, out))
}

/// As `measure_frame`, but all rounds share one buffer, which is cleared before each: only the first, and a suspension
/// before V7, allocates.
#[unsafe(no_mangle)]
pub extern "C" fn measure_frame_into(
    alloc: Global,
    version: u32,
    code: u16,
    payload: &[u8],
    rounds: usize,
    out: &mut [u8],
) -> i64 {
    let rounds = Rounds {
        count: rounds,
        buffer: Buffer::Reused,
    };
    outcome_of(frames::write_frame(alloc, version, code, payload, rounds, out))
}

/// As `measure_frame_into`, but the buffer's spare room is initialized, so that no byte is written twice.
#[unsafe(no_mangle)]
pub extern "C" fn measure_frame_spare(
    alloc: Global,
    version: u32,
    code: u16,
    payload: &[u8],
    rounds: usize,
    out: &mut [u8],
) -> i64 {
    let rounds = Rounds {
        count: rounds,
        buffer: Buffer::Spare,
    };
    outcome_of(frames::write_frame(alloc, version, code, payload, rounds, out))
}

/// As `measure_frame`, but the frames of all rounds share the blocks of one buffer, and the last 1,024 are held.
#[unsafe(no_mangle)]
pub extern "C" fn measure_frame_shared(
    alloc: Global,
    version: u32,
    code: u16,
    payload: &[u8],
    rounds: usize,
    out: &mut [u8],
) -> i64 {
    let rounds = Rounds {
        count: rounds,
        buffer: Buffer::Shared,
    };
    outcome_of(frames::write_frame(alloc, version, code, payload, rounds, out))
}

/// As `measure_frame`, but all rounds append the frame to one list of chunks, which is cleared before each. Long bytes
/// are shared with the message, and all else is in one buffer. The chunks of the last round are joined.
#[unsafe(no_mangle)]
pub extern "C" fn measure_frame_chunks(
    alloc: Global,
    version: u32,
    code: u16,
    payload: &[u8],
    rounds: usize,
    out: &mut [u8],
) -> i64 {
    let rounds = Rounds {
        count: rounds,
        buffer: Buffer::Chunks,
    };
    outcome_of(frames::write_frame(alloc, version, code, payload, rounds, out))
}

/// As `journal_is_well_formed`, but repeated `rounds` times (0 counts as 1).
#[unsafe(no_mangle)]
pub extern "C" fn measure_well_formed(schema: u32, payload: &[u8], rounds: usize) -> i64 {
    outcome_of(payloads::is_well_formed(schema, payload, rounds))
}

/// As `journal_fields`, but a payload is checked and all of its fields are read this many times (0 counts as 1), and no
/// table is written. Returns the sum of what they hold, numbers and the lengths of texts and bytes, modulo 2^32.
#[unsafe(no_mangle)]
pub extern "C" fn measure_fields(schema: u32, payload: &[u8], rounds: usize) -> i64 {
    outcome_of(fields::sum(schema, payload, rounds))
}
