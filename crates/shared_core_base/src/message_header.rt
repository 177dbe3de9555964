//! The eight bytes before each payload.

ghost use Rattle.std.specs.Prelude.{◌≡◌, Some, None};
ghost use Rattle.std.specs.Int.{w64, to_be_bytes};
ghost use Rattle.shared_core_base.specs.MessageHeader.{word_of};

use crate::header::MessageType;
use crate::type_kinds::UnknownMessageType;

/// The header of a message: its type, the length of its payload in bytes, and whether an acknowledgement is requested.
/// A contract sees it as the record of these three parts.
#[derive(Clone, Copy, Debug, PartialEq, Eq)]
pub struct MessageHeader {
    ty: MessageType,
    length: u32,
    requested_ack: Option<bool>,
}

const REQUESTED_ACK_BIT: u32 = 47;

impl MessageHeader {
    /// The size of a header in bytes.
    pub const SIZE: usize = 8;

    /// A header without a flag, of a payload of `length` bytes.
    pub fn new(ty: MessageType, length: u32) -> MessageHeader
        ensures { result ≡ record { ty = ty; length = length; requested_ack = None } }
    {
        MessageHeader {
            ty,
            length,
            requested_ack: None,
        }
    }

    /// A header with a flag, of a payload of `length` bytes. The flag is written whatever the type, and read back if
    /// the type allows it.
    pub fn new_with_requested_ack(
        ty: MessageType,
        requested_ack: bool,
        length: u32,
    ) -> MessageHeader
        ensures { result ≡ record { ty = ty; length = length; requested_ack = Some requested_ack } }
    {
        MessageHeader {
            ty,
            length,
            requested_ack: Some(requested_ack),
        }
    }

    /// The type of the message.
    pub fn message_type(&self) -> MessageType
        ensures { result ≡ self.now.ty }
    {
        self.ty
    }

    /// The length of the payload in bytes.
    pub fn message_length(&self) -> u32
        ensures { result ≡ self.now.length }
    {
        self.length
    }

    /// Whether an acknowledgement is requested. A header that was read has a flag if and only if its type allows one.
    pub fn requested_ack(&self) -> Option<bool>
        ensures { result ≡ self.now.requested_ack }
    {
        self.requested_ack
    }

    /// The eight bytes of the header: its word, the most significant byte first.
    pub fn to_bytes(self) -> [u8; 8]
        ensures { result ≡ to_be_bytes w64 (word_of self) }
    {
        u64::from(self).to_be_bytes()
    }
}

impl TryFrom<u64> for MessageHeader {
    type Error = UnknownMessageType;

    ghost use Rattle.shared_core_base.specs.MessageHeader.{ReadsHeader};

    ghost try_from_gives = { ReadsHeader };

    #[tactic(auto, unfolding(crate::specs::MessageHeader::header_of))]
    fn try_from(word: u64) -> Result<MessageHeader, UnknownMessageType> {
        let ty = MessageType::try_from((word >> 48) as u16)?;
        let requested_ack = if ty.allows_ack() {
            Some((word >> REQUESTED_ACK_BIT) & 1 == 1)
        } else {
            None
        };
        Ok(MessageHeader {
            ty,
            length: (word & 0xFFFF_FFFF) as u32,
            requested_ack,
        })
    }
}

impl From<MessageHeader> for u64 {
    ghost use Rattle.std.specs.Prelude.{◌≡◌};
    ghost use Rattle.shared_core_base.specs.MessageHeader.{word_of};

    ghost from_gives = { λ header word. word ≡ word_of header };

    #[tactic(auto, unfolding(crate::specs::MessageHeader::word_of))]
    fn from(header: MessageHeader) -> u64 {
        let length = u64::from(header.length);
        let low = match header.requested_ack {
            Some(true) => (1 << REQUESTED_ACK_BIT) | length,
            _ => length,
        };
        (u64::from(u16::from(header.ty)) << 48) | low
    }
}
