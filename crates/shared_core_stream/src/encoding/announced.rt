//! Reading the first eight bytes of an item. Only this module knows what they announce at a version.

ghost use Rattle.std.specs.Prelude.{◌≡◌};
ghost use Rattle.shared_core_stream.specs.Borrowed.{Announces, announced_length, kind_announced};

use crate::encoding::item_ref::ItemKind;
use shared_core_base::header::{MessageHeader, UnknownMessageType};
use shared_core_base::version::Version;

/// What the first eight bytes of an item announce.
#[derive(Drop)]
pub(crate) enum Announced {
    Message(MessageHeader),
    /// An unassigned code, to which no payload belongs.
    Unknown(UnknownMessageType),
    /// An unassigned code, and the length of the payload that is skipped with it.
    Skipped(UnknownMessageType, u32),
}

impl Announced {
    /// What this word announces at a version.
    #[inline(always)]
    pub(crate) fn by(version: Version, word: u64) -> Announced
        ensures { Announces version word result }
    {
        match MessageHeader::try_from(word) {
            Ok(header) => Announced::Message(header),
            Err(unknown) if version.skips_unknown_messages() => {
                Announced::Skipped(unknown, (word & 0xFFFF_FFFF) as u32)
            }
            Err(unknown) => Announced::Unknown(unknown),
        }
    }

    /// The length of the payload in bytes.
    #[inline(always)]
    pub(crate) fn payload_len(&self) -> u32
        ensures { result ≡ announced_length self.now }
    {
        match self {
            Announced::Message(header) => header.message_length(),
            Announced::Unknown(_) => 0,
            Announced::Skipped(_, length) => *length,
        }
    }

    /// The kind of the item.
    #[inline(always)]
    pub(crate) fn kind(&self) -> ItemKind
        ensures { result ≡ kind_announced self.now }
    {
        match self {
            Announced::Message(header) => ItemKind::Message(*header),
            Announced::Unknown(unknown) => ItemKind::Unknown(unknown.code()),
            Announced::Skipped(unknown, _) => ItemKind::Skipped(unknown.code()),
        }
    }
}
