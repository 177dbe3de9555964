//! Benchmark work: encoding messages to frames.

use bytes::{Bytes, BytesMut};
use journal_c_api::outcome::{CallError, version_of, write_over};
use shared_core::encoding::{Encoder, FrameChunks};
use shared_core::header::MessageType;
use shared_core::messages::{MessageVisitor, RestateEncodableMessage, visit_message};
use std::alloc::Global;
use std::fmt::Debug;

/// The number of rounds, and the buffer.
#[derive(Clone, Copy, Debug, PartialEq, Eq)]
pub struct Rounds {
    /// The number of rounds. 0 counts as 1.
    pub count: usize,
    /// The buffer of a round.
    pub buffer: Buffer,
}

/// The buffer that a round encodes a message into.
#[derive(Clone, Copy, Debug, PartialEq, Eq)]
pub enum Buffer {
    /// A new one each, as `Bytes`.
    New,
    /// A new one each, as a `Vec`.
    Owned,
    /// That of the round before, cleared.
    Reused,
    /// That of the round before, cleared, with spare room that is initialized.
    Spare,
    /// One for many rounds, whose frames share its block; the last 1,024 of them are held.
    Shared,
    /// The list of chunks of the round before, cleared.
    Chunks,
}

/// The bytes of the block that frames share.
const BLOCK: usize = 65_536;

/// How many frames that share blocks are held.
const HELD: usize = 1024;

/// Writes the frame, at a version, of the message of a named type that a payload encodes.
pub fn write_frame(
    alloc: Global,
    version: u32,
    code: u16,
    payload: &[u8],
    rounds: Rounds,
    out: &mut [u8],
) -> Result<usize, CallError> {
    let frame = frame(alloc, version, code, payload, rounds)?;
    write_over(&frame, out);
    Ok(frame.len())
}

/// The frame, at a version, of the message of a named type that a payload encodes.
fn frame(
    alloc: Global,
    version: u32,
    code: u16,
    payload: &[u8],
    rounds: Rounds,
) -> Result<Bytes, CallError> {
    let encoder = Encoder::new(version_of(version)?);
    let ty = MessageType::try_from(code)?;
    frame_of(alloc, encoder, ty, payload, rounds)
}

/// The frame of the message of a type that a payload encodes.
fn frame_of(
    alloc: Global,
    encoder: Encoder,
    ty: MessageType,
    payload: &[u8],
    rounds: Rounds,
) -> Result<Bytes, CallError> {
    let framing = Framing {
        alloc,
        encoder,
        payload,
        rounds,
    };
    visit_message(ty, framing).ok_or(CallError::UnknownType)?
}

/// Decodes a payload to a record, and returns its frame.
#[derive(Drop)]
struct Framing<'a> {
    alloc: Global,
    encoder: Encoder,
    payload: &'a [u8],
    rounds: Rounds,
}

impl<'a> MessageVisitor for Framing<'a> {
    type Output = Result<Bytes, CallError>;

    fn visit<M: RestateEncodableMessage + Debug>(self) -> Result<Bytes, CallError> {
        let payload = Bytes::copy_from_slice(self.alloc, self.payload)?;
        let message = M::decode(self.alloc, payload)?;
        match self.rounds.buffer {
            Buffer::New => encode_new(self.alloc, self.encoder, &message, self.rounds.count),
            Buffer::Owned => encode_owned(self.alloc, self.encoder, &message, self.rounds.count),
            Buffer::Reused => encode_reused(self.alloc, self.encoder, &message, self.rounds.count),
            Buffer::Spare => encode_spare(self.alloc, self.encoder, &message, self.rounds.count),
            Buffer::Shared => encode_shared(self.alloc, self.encoder, &message, self.rounds.count),
            Buffer::Chunks => encode_chunks(self.alloc, self.encoder, &message, self.rounds.count),
        }
    }
}

/// The frame of a message, for which each round has a buffer of its own.
fn encode_new<M: RestateEncodableMessage>(
    alloc: Global,
    encoder: Encoder,
    message: &M,
    rounds: usize,
) -> Result<Bytes, CallError> {
    for _round in 1..rounds {
        encoder.encode(alloc, message)?;
    }
    Ok(encoder.encode(alloc, message)?)
}

/// The same, but the buffers are a `Vec` each.
fn encode_owned<M: RestateEncodableMessage>(
    alloc: Global,
    encoder: Encoder,
    message: &M,
    rounds: usize,
) -> Result<Bytes, CallError> {
    for _round in 1..rounds {
        encoder.encode_to_vec(alloc, message)?;
    }
    let Ok(frame) = Bytes::from_vec(encoder.encode_to_vec(alloc, message)?) else {
        return Err(CallError::OutOfMemory);
    };
    Ok(frame)
}

/// The same, but all rounds have one buffer, which is cleared before each.
fn encode_reused<M: RestateEncodableMessage>(
    alloc: Global,
    encoder: Encoder,
    message: &M,
    rounds: usize,
) -> Result<Bytes, CallError> {
    let mut frame = Vec::new(alloc);
    for _round in 1..rounds {
        frame.clear();
        encoder.encode_into(message, &mut frame)?;
    }
    frame.clear();
    encoder.encode_into(message, &mut frame)?;
    let Ok(frame) = Bytes::from_vec(frame) else {
        return Err(CallError::OutOfMemory);
    };
    Ok(frame)
}

/// The same, with a buffer whose spare room is initialized.
fn encode_spare<M: RestateEncodableMessage>(
    alloc: Global,
    encoder: Encoder,
    message: &M,
    rounds: usize,
) -> Result<Bytes, CallError> {
    let mut frame = BytesMut::new(alloc);
    for _round in 1..rounds {
        frame.clear();
        encoder.encode_into(message, &mut frame)?;
    }
    frame.clear();
    encoder.encode_into(message, &mut frame)?;
    let Ok(frame) = frame.freeze() else {
        return Err(CallError::OutOfMemory);
    };
    Ok(frame)
}

/// The same, but the frames of all rounds share the block of one buffer, and the last ones are held.
fn encode_shared<M: RestateEncodableMessage>(
    alloc: Global,
    encoder: Encoder,
    message: &M,
    rounds: usize,
) -> Result<Bytes, CallError> {
    let mut block = BytesMut::with_capacity(alloc, BLOCK)?;
    let mut held = Vec::with_capacity(alloc, HELD)?;
    for round in 1..rounds {
        let frame = shared_frame(&encoder, message, &mut block)?;
        if let Some(place) = held.get_mut(round % HELD) {
            *place = frame;
            continue;
        }
        let Ok(()) = held.push(frame) else {
            return Err(CallError::OutOfMemory);
        };
    }
    shared_frame(&encoder, message, &mut block)
}

/// The frame of a message, in the block of a buffer that is cleared before.
fn shared_frame<M: RestateEncodableMessage>(
    encoder: &Encoder,
    message: &M,
    block: &mut BytesMut,
) -> Result<Bytes, CallError> {
    block.clear();
    encoder.encode_into(message, block)?;
    Ok(block.freeze_to(block.len())?)
}

/// The frame of a message, for which all rounds have one list of chunks. The chunks of the last round are joined.
fn encode_chunks<M: RestateEncodableMessage>(
    alloc: Global,
    encoder: Encoder,
    message: &M,
    rounds: usize,
) -> Result<Bytes, CallError> {
    let mut frames = FrameChunks::new(alloc);
    for _round in 1..rounds {
        frames.clear();
        encoder.encode_into(message, &mut frames)?;
    }
    frames.clear();
    encoder.encode_into(message, &mut frames)?;
    let mut bytes = Vec::new(alloc);
    for _ in 0..u64::MAX {
        let Some(chunk) = frames.pop()? else {
            break;
        };
        bytes.extend_from_slice(chunk.as_slice())?;
    }
    let Ok(frame) = Bytes::from_vec(bytes) else {
        return Err(CallError::OutOfMemory);
    };
    Ok(frame)
}
