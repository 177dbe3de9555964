//! The streams of the protocol: the decoder of a stream that comes in chunks, and its items.
#![tactic(auto)]

pub mod encoding;
pub mod laws;
mod pending_bytes;
mod shared_chunks;
