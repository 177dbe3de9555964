//! Where the items of a journal come from.

ghost use Rattle.std.specs.Prelude.{◌≡◌, ℕ, Bool, List, Option, OnOk};
ghost use Rattle.shared_core_base.specs.declared.version.Version.{Version as AnyVersion};
ghost use Rattle.std.specs.Io.KnownBytes.{Keeps};
ghost use Rattle.replay_bench.specs.Sources.{IsNext, WithoutMemory};

use shared_core::encoding::{Item, MessageTooLong};
use std::alloc::AllocError;
use std::error::Error;
use std::fmt;

/// What comes next in a journal.
#[derive(Debug, PartialEq, Drop)]
pub enum Next {
    /// The next item.
    Item(Item),
    /// The journal has ended, and this many bytes after its last item are in none.
    End(u64),
}

/// Why a source gave no item. It is not read again, unless an allocation failed: then nothing was lost.
#[derive(Clone, Copy, Debug, PartialEq, Eq, Drop)]
pub enum SourceError {
    /// It could not be read, for another reason than that a read was interrupted.
    Failed,
    /// The next message is longer than the limit.
    MessageTooLong(MessageTooLong),
    /// More than 2^64 - 1 bytes are in no item yet.
    TooLong,
    /// An allocation failed.
    OutOfMemory,
}

impl fmt::Display for SourceError {
    ghost use Rattle.std.specs.Prelude.{Some};
    ghost use Rattle.replay_bench.specs.Texts.{source_error_text};

    ghost output = { λ error. Some (source_error_text error) };

    fn fmt<W: fmt::Write>(&self, f: &mut fmt::Formatter<W>) -> fmt::Result {
        match self {
            SourceError::Failed => f.write_str("reading failed"),
            SourceError::MessageTooLong(message) => write!(f, "{message}"),
            SourceError::TooLong => f.write_str("more than 2^64 - 1 bytes"),
            SourceError::OutOfMemory => f.write_str("out of memory"),
        }
    }
}

impl Error for SourceError {}

impl From<AllocError> for SourceError {
    ghost use Rattle.replay_bench.specs.declared.sources.SourceError.TheVariants.{OutOfMemory};

    ghost from_gives = { λ _ error. error ≡ OutOfMemory };

    fn from(_error: AllocError) -> SourceError {
        SourceError::OutOfMemory
    }
}

/// Gives the items of a journal, in order.
pub trait Source: Drop {
    // the version of the protocol at which they are read
    ghost version: { Self → AnyVersion };
    // the greatest length of a payload that it takes; 2^32 - 1 means no limit
    ghost limit: { Self → ℕ };
    // the pending bytes, where these are known
    ghost coming: { Self → Option (List ℕ) };
    // whether it may fail where no message is too long and no allocation fails
    ghost may_fail: { Bool };

    /// The next item, or the end of the journal.
    fn next(&mut self) -> Result<Next, SourceError>
        ensures next { IsNext (version self.old) (limit self.old) may_fail
            (coming self.old) result (coming self.new) }
        ensures version { OnOk result (version self.new ≡ version self.old) }
        ensures limit { OnOk result (limit self.new ≡ limit self.old) }
        // a failed allocation loses nothing
        ensures kept { WithoutMemory result ((version self.new ≡ version self.old) × (limit self.new ≡ limit self.old)
            × Keeps (coming self.old) (coming self.new)) };
}
