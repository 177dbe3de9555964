//! The items of a journal that a reader gives.

use crate::sources::{Next, Source, SourceError};
use shared_core_io::{ItemReader, ReadError};
use std::io::Read;

impl<R: Read + Drop> Source for ItemReader<R> {
    ghost use Rattle.std.specs.Prelude.{true};
    ghost use Rattle.shared_core_io.specs.Buffered.{held_in};
    ghost use Rattle.replay_bench.specs.Sources.{coming_of, limit_of};

    ghost version = { λ source. (held_in source.items).version };

    ghost limit = { λ source. limit_of (held_in source.items) };

    ghost coming = { λ source. coming_of (held_in source.items) (R.remaining source.reader) };

    ghost may_fail = { true };

    fn next(&mut self) -> Result<Next, SourceError> {
        match self.next_item() {
            Ok(Some(item)) => Ok(Next::Item(item)),
            Ok(None) => Ok(Next::End(0)),
            Err(ReadError::Truncated(count)) => Ok(Next::End(count)),
            Err(ReadError::Failed(_)) => Err(SourceError::Failed),
            Err(ReadError::TooLong(message)) => Err(SourceError::MessageTooLong(message)),
            Err(ReadError::OutOfMemory) => Err(SourceError::OutOfMemory),
        }
    }
}
