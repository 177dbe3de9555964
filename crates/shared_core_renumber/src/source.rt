//! What is written again.

use std::alloc::Global;

/// The bytes of a message of a schema, whose records may be nested `left` deep.
#[derive(Clone, Copy)]
pub struct Source<'a> {
    /// What makes the room for what is written.
    pub alloc: Global,
    pub bytes: &'a [u8],
    pub schema: u64,
    pub left: u32,
}
