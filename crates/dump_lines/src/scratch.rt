//! The buffers of a printer, which are reused for each line.

use std::alloc::Global;

/// The buffers in which lines are made, one after the other.
#[derive(Drop)]
pub struct Scratch {
    /// A line's object. It has a buffer of its own, since a JSON writer writes ahead into its buffer.
    pub line: Vec<u8>,
    /// The canonical payload of a message.
    pub canonical: Vec<u8>,
    /// A number or a name in the line.
    pub text: String,
    /// Bytes in base64.
    pub base64: Vec<u8>,
}

impl Scratch {
    /// Empty buffers.
    pub fn new(alloc: Global) -> Scratch {
        Scratch {
            line: Vec::new(alloc),
            canonical: Vec::new(alloc),
            text: String::new(alloc),
            base64: Vec::new(alloc),
        }
    }
}
