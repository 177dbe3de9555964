//! Where an item is in its stream.

/// Where an item is in its stream.
#[derive(Clone, Copy, Debug, PartialEq, Eq, Drop)]
pub struct Place {
    /// The number of items before it.
    pub index: u128,
    /// The number of commands before it.
    pub command: u128,
    /// The number of bytes before it.
    pub offset: u128,
}
