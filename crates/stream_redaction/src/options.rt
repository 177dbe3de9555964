//! The options of a redaction.

use crate::key::Key;
use shared_core_base::version::Version;

/// How a stream is read whose contents are replaced, and by which characters.
#[derive(Clone, Copy)]
pub struct Options {
    /// The version of the protocol, at least V5 where a stream is read.
    pub version: Version,
    /// The greatest length of a payload that is taken; `u32::MAX` means no limit.
    pub limit: u32,
    /// The number of bytes that are read at a time, from 1 to 65,536 where a stream is read.
    pub chunk_size: usize,
    /// What the characters depend on, besides the content.
    pub key: Key,
}
