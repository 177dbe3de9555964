//! The messages of a decoder, one after the other.

ghost use Rattle.std.specs.Prelude.{◌≡◌, ◌≤◌, length, IfSome, None, Ok};
ghost use Rattle.shared_core_stream.specs.Limits.{after_rejection, rejection};
ghost use Rattle.shared_core_stream.specs.Unread.{IsUnlimited, Unread};
ghost use Rattle.shared_core.specs.Items.{ReturnsNext, TakesEight};

use crate::encoding::DecodingError;
use shared_core_base::header::MessageType;
use shared_core_stream::encoding::{Decoder, Item, ItemError, RawMessage};

/// The messages that a decoder holds, where an item of another kind is an error. `Decoder` implements it.
pub trait ConsumeNext {
    /// The decoder as contracts see it.
    ghost unread: { Self → Unread };

    /// The next message, or `None` if and only if the pending bytes begin with no complete item. Then at most
    /// 4,294,967,302 bytes are pending, a header and all but one byte of its payload.
    ///
    /// A payload within one chunk shares its memory; one that straddles chunks is joined, once. If the next header's
    /// code is unassigned, the result depends on the version. Before V9 it is `UnknownMessageType`, and exactly the
    /// eight bytes of the header are taken. From V9 on it is `SkippedMessage` once the payload is complete, and the
    /// header and the payload are taken. `OutOfMemory` comes only if a complete payload would be taken, and takes
    /// nothing: a later call returns as if this one had not been made.
    ///
    /// With a limit the result is also `None` if the next message is longer, and from then on: `rejected` says so,
    /// nothing is held, and `push` returns each chunk. `next_item` returns an error there.
    fn consume_next(&mut self) -> Result<Option<RawMessage>, DecodingError>
        ensures next { rejection (unread self.old) ≡ None →
            ReturnsNext (unread self.old).version (unread self.old).bytes result (unread self.new).bytes }
        ensures too_long { IfSome (rejection (unread self.old)) (λ message. (result ≡ Ok None)
            × (unread self.new ≡ after_rejection (unread self.old) message)) }
        ensures accepted { rejection (unread self.old) ≡ None → (unread self.new).rejected ≡ None }
        ensures unlimited { IsUnlimited (unread self.old) → rejection (unread self.old) ≡ None }
        ensures version { (unread self.new).version ≡ (unread self.old).version }
        ensures limit { (unread self.new).limit ≡ (unread self.old).limit }
        ensures short { result ≡ Ok None → length (unread self.new).bytes ≤ 4294967302 }
        // what is taken is eight bytes at least, so a loop over the messages ends
        ensures shorter { TakesEight (unread self.old).bytes result (unread self.new).bytes };
}

impl ConsumeNext for Decoder {
    ghost unread = { λ decoder. decoder };

    fn consume_next(&mut self) -> Result<Option<RawMessage>, DecodingError> {
        let item = match self.next_item() {
            Ok(Some(item)) => item,
            Ok(None) => return Ok(None),
            Err(ItemError::TooLong) => return Ok(None),
            Err(ItemError::OutOfMemory) => return Err(DecodingError::OutOfMemory),
        };
        match item {
            Item::Message(message) => Ok(Some(message)),
            Item::Unknown(code) => {
                let Err(unknown) = MessageType::try_from(code) else {
                    unreachable!()
                };
                Err(DecodingError::UnknownMessageType(unknown))
            }
            Item::Skipped(code, payload) => Err(DecodingError::SkippedMessage(code, payload)),
        }
    }
}
