//! The error of reading items.

use shared_core_stream::encoding::MessageTooLong;
use std::alloc::AllocError;
use std::error::Error;
use std::{fmt, io};

/// Why no item was read.
#[derive(Clone, Copy, Debug, Drop)]
pub enum ReadError {
    /// A read failed, for another reason than that it was interrupted. Nothing is lost: a later call reads again.
    Failed(io::Error),
    /// The next message is longer than the limit. Nothing is held any more, and each later call returns this error too.
    TooLong(MessageTooLong),
    /// The stream ended within an item, after this many of its bytes. Nothing is lost: a later call reads again.
    Truncated(u64),
    /// An allocation failed. Nothing is lost.
    OutOfMemory,
}

// std says nothing of the text of the reason, so this has no output that a contract could name
impl fmt::Display for ReadError {
    fn fmt<W: fmt::Write>(&self, f: &mut fmt::Formatter<W>) -> fmt::Result {
        match self {
            ReadError::Failed(reason) => write!(f, "reading failed: {reason}"),
            ReadError::TooLong(message) => write!(f, "{message}"),
            ReadError::Truncated(count) => {
                write!(f, "the stream ends {count} bytes after an item began")
            }
            ReadError::OutOfMemory => f.write_str("out of memory"),
        }
    }
}

impl Error for ReadError {}

impl From<AllocError> for ReadError {
    ghost use Rattle.std.specs.Prelude.{◌≡◌};
    ghost use Rattle.shared_core_io.specs.declared.error.ReadError.TheVariants.{OutOfMemory};

    ghost from_gives = { λ _ error. error ≡ OutOfMemory };

    fn from(_error: AllocError) -> ReadError {
        ReadError::OutOfMemory
    }
}
