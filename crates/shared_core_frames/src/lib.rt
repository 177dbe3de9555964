//! Messages written as frames: to a `Vec<u8>`, to a `BytesMut`, or as chunks, for a writer that takes several slices.
//! A long record is appended from its front, so that its `bytes` fields are copied once, or shared.
#![tactic(auto)]

pub mod buffer;
pub mod chunks;
pub mod copied;
pub mod encodable_message;
pub mod fields;
pub mod frame;
mod oneofs;
pub mod record;
mod records;
pub mod sink;
pub mod value;
pub mod vector_end;
pub mod versions;

pub use crate::buffer::FrameBuffer;
pub use crate::chunks::FrameChunks;
pub use crate::encodable_message::RestateEncodableMessage;
