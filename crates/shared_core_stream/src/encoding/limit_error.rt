//! The message that ends a stream with a limit on the length of a payload.

ghost use Rattle.std.specs.Prelude.{◌≡◌};
ghost use Rattle.shared_core_stream.specs.Limits.{too_long_at, too_long_by};

use crate::encoding::announced::Announced;
use shared_core_base::header::MessageType;
use shared_core_base::version::Version;
use std::error::Error;
use std::fmt;

/// A message whose payload is longer than the limit.
#[derive(Clone, Copy, Debug, PartialEq, Eq, Drop)]
pub struct MessageTooLong {
    /// The code of its type; from V9 on it may be unassigned.
    pub code: u16,
    /// The length of its payload in bytes, by its header.
    pub length: u32,
    /// The greatest length that is taken.
    pub limit: u32,
    /// The offset of its header in the stream, or 2^64 - 1 from there on.
    pub offset: u64,
}

impl MessageTooLong {
    /// The message that a word announces at an offset, if it is longer than the limit.
    #[inline(always)]
    pub(crate) fn by(version: Version, limit: u32, offset: u64, word: u64) -> Option<MessageTooLong>
        ensures { result ≡ too_long_by version limit offset word }
    {
        let length = Announced::by(version, word).payload_len();
        if length <= limit {
            return None;
        }
        Some(MessageTooLong {
            code: (word >> 48) as u16,
            length,
            limit,
            offset,
        })
    }

    /// The message that the bytes at an offset begin with, if it is longer than the limit.
    #[inline(always)]
    pub(crate) fn at_front(
        version: Version,
        limit: u32,
        offset: u64,
        bytes: &[u8],
    ) -> Option<MessageTooLong>
        ensures { result ≡ too_long_at version limit offset bytes.now }
    {
        let (head, _) = bytes.split_first_chunk::<8>()?;
        MessageTooLong::by(version, limit, offset, u64::from_be_bytes(*head))
    }
}

/// Prints the name of the type, or the unknown code, and the three numbers.
impl fmt::Display for MessageTooLong {
    ghost use Rattle.std.specs.Prelude.{Some};
    ghost use Rattle.shared_core_stream.specs.Errors.{message_too_long_text};

    ghost output = { λ message. Some (message_too_long_text message) };

    fn fmt<W: fmt::Write>(&self, f: &mut fmt::Formatter<W>) -> fmt::Result {
        match MessageType::try_from(self.code) {
            Ok(ty) => write!(f, "{}", ty.debug_name())?,
            Err(unknown) => write!(f, "{unknown}")?,
        }
        let MessageTooLong {
            length,
            limit,
            offset,
            ..
        } = *self;
        write!(
            f,
            " at offset {offset}: {length} bytes of payload, more than the limit of {limit}"
        )
    }
}

impl Error for MessageTooLong {}
