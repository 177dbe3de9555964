//! Buffers that are reused for each item.

use std::alloc::Global;

/// The buffers in which the parts of a line are made.
#[derive(Drop)]
pub struct Scratch {
    /// The name of an item.
    pub name: String,
    /// What the line says of the other halves of the item.
    pub joining: Joining,
    /// The canonical payload of a message.
    pub canonical: Vec<u8>,
}

/// The texts by which an item is joined with its other halves.
#[derive(Drop)]
pub struct Joining {
    /// What it completes, or what completes it.
    pub joined: String,
    /// What names the id of the invocation that it calls.
    pub invocation: String,
}

impl Scratch {
    /// Empty buffers.
    pub fn new(alloc: Global) -> Scratch {
        Scratch {
            name: String::new(alloc),
            joining: Joining {
                joined: String::new(alloc),
                invocation: String::new(alloc),
            },
            canonical: Vec::new(alloc),
        }
    }
}
