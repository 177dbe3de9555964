//! The options of an explanation.

ghost use Rattle.std.specs.Prelude.{◌≡◌};
ghost use Rattle.explain_lines.specs.Items.{have_place};

use shared_core_base::version::Version;

/// How a stream is read that is explained, and what is explained of it.
#[derive(Clone, Copy)]
pub struct Options {
    /// The version of the protocol, at least V5 where a stream is explained.
    pub version: Version,
    /// The greatest length of a payload that is taken; `u32::MAX` means no limit.
    pub limit: u32,
    /// An offset: only the item with the byte there is explained; without it all are.
    pub at: Option<u64>,
    /// Whether payloads are explained without their schemas.
    pub raw: bool,
}

impl Options {
    /// Whether bytes that begin at an offset are explained, by how many they are.
    pub(crate) fn asks_for(&self, from: u128, size: u128) -> bool
        ensures { result ≡ have_place from size self.now.at }
    {
        match self.at {
            Some(place) => from <= u128::from(place) && u128::from(place) - from < size,
            None => true,
        }
    }
}
