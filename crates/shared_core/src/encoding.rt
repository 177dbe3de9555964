//! Streams of frames: the decoder, which takes a stream in chunks; its items and messages, and messages decoded; the
//! items of a slice; the encoder, and the chunks of frames; and the items of a reader.

mod consume_next;
mod decode_message;
mod encoder;
mod error;

pub use crate::encoding::consume_next::ConsumeNext;
pub use crate::encoding::decode_message::DecodeMessage;
pub use crate::encoding::encoder::Encoder;
pub use crate::encoding::error::DecodingError;
pub use shared_core_frames::{FrameBuffer, FrameChunks};
pub use shared_core_io::{ItemReader, ReadError};
pub use shared_core_stream::encoding::{
    Decoder, Item, ItemError, ItemKind, ItemRef, ItemRefs, Items, MessageTooLong, MissingBytes,
    PiecesError, PushError, RawMessage, decode_pieces,
};
