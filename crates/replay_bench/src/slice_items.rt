//! The items of a journal that lies in chunks.

ghost use Rattle.std.specs.Prelude.{◌≡◌, ◌≤◌, ◌++◌, IfErr, OnErr, OnOk, None};
ghost use Rattle.shared_core_base.specs.Version.{version_number};
ghost use Rattle.shared_core_stream.specs.Unread.{fresh, IsUnlimited};
ghost use Rattle.replay_bench.specs.Sources.{RejectsBytes};

use crate::sources::{Next, Source, SourceError};
use bytes::Bytes;
use shared_core::encoding::{Decoder, ItemError, PushError};
use shared_core::version::Version;
use std::alloc::Global;

/// The items of the chunks of a slice, which do not fail.
#[derive(Drop)]
pub struct SliceItems<'a> {
    decoder: Decoder,
    chunks: &'a [Bytes],
    ghost unlimited: { IsUnlimited decoder },
}

impl<'a> SliceItems<'a> {
    /// The journal of this version, at least V5, that lies in these chunks, split anywhere.
    pub fn new(alloc: Global, version: Version, chunks: &'a [Bytes]) -> SliceItems<'a>
        requires { 5 ≤ version_number version }
        ensures decoder { result.decoder ≡ fresh version 4294967295 }
        ensures chunks { result.chunks.now ≡ chunks.now }
    {
        SliceItems {
            decoder: Decoder::new(alloc, version),
            chunks,
        }
    }
}

impl<'a> Source for SliceItems<'a> {
    ghost use Rattle.std.specs.Prelude.{Some, false};
    ghost use Rattle.std.specs.List.{concat};

    ghost version = { λ items. items.decoder.version };

    ghost limit = { λ _. 4294967295 };

    ghost coming = { λ items. Some (items.decoder.bytes ++ concat items.chunks.now) };

    ghost may_fail = { false };

    fn next(&mut self) -> Result<Next, SourceError> {
        loop {
            match self.decoder.next_item() {
                Ok(Some(item)) => return Ok(Next::Item(item)),
                Ok(None) => {}
                Err(ItemError::OutOfMemory) => return Err(SourceError::OutOfMemory),
                // the decoder has no limit
                Err(ItemError::TooLong) => unreachable!(),
            }
            let Some((first, rest)) = self.chunks.split_first() else {
                return Ok(Next::End(self.decoder.pending()));
            };
            push(&mut self.decoder, first.clone()?)?;
            self.chunks = rest;
        }
    }
}

/// Gives a decoder the next chunk.
fn push(decoder: &mut Decoder, chunk: Bytes) -> Result<(), SourceError>
    requires { decoder.old.rejected ≡ None }
    ensures pushed { OnOk result (decoder.new ≡ record decoder.old { bytes = decoder.old.bytes ++ chunk }) }
    ensures rejected { IfErr result (RejectsBytes (decoder.old.bytes ++ chunk)) }
    ensures settings { (decoder.new.limit ≡ decoder.old.limit) × (decoder.new.rejected ≡ decoder.old.rejected) }
    ensures kept { OnErr result (decoder.new ≡ decoder.old) }
{
    match decoder.push(chunk) {
        Ok(()) => Ok(()),
        Err(PushError::OutOfMemory(_)) => Err(SourceError::OutOfMemory),
        Err(PushError::TooLong(_)) => Err(SourceError::TooLong),
    }
}
