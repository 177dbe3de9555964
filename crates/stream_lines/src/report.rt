//! The report on a stream.

use shared_core_base::header::MessageType;

/// What is wrong with an item.
#[derive(Clone, Copy, Debug, PartialEq, Eq, Drop)]
pub enum Trouble {
    /// The code of its header is unassigned.
    UnknownCode(u16),
    /// Its payload is not well-formed for its type.
    Malformed(MessageType),
}

/// What the printing of a whole stream found.
#[derive(Clone, Copy, Debug, PartialEq, Eq, Drop)]
pub struct Report {
    /// The first item with which something is wrong: the offset where it begins, and what is wrong.
    pub trouble: Option<(u128, Trouble)>,
    /// The offset of the trailing bytes.
    pub end: u128,
    /// The number of these bytes.
    pub rest: u64,
}
