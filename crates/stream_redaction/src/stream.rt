//! A stream with its contents replaced, from any reader to any writer.

ghost use Rattle.std.specs.Prelude.{◌≡◌, ◌≤◌, ◌++◌, ℕ, List, None, OnOk};
ghost use Rattle.std.specs.Io.KnownBytes.{Appends, Consumes};
ghost use Rattle.shared_core_base.specs.Version.{version_number};
ghost use Rattle.stream_redaction.specs.Streams.{redacted_body, IsRedacted};
ghost use Rattle.stream_redaction.specs.Streams as spec;

use crate::key::{Key, append_zeros};
use crate::options::Options;
use shared_core_base::version::Version;
use shared_core_stream::encoding::Item;
use std::alloc::{AllocError, Global};
use std::io::{Read, Write};
use stream_lines::{
    LinePrinter, PlacedItem, PrintError, Reading, Report, Rest, Trouble, print_lines,
};

/// The size of a header in bytes.
const HEADER: usize = 8;

/// Writes each item of a stream with its contents replaced, and then the trailing bytes as zeros, except a header among
/// them. As many bytes are written as are read.
///
/// It reads at most `chunk_size` bytes at a time, and ends as `print_lines` says. `TooLong` never comes, and
/// `MessageTooLong` at the first message that is longer than the limit of the options. The report has no error of an
/// item.
pub fn redact<R: Read, W: Write>(
    alloc: Global,
    options: &Options,
    input: &mut R,
    output: &mut W,
) -> Result<Report, PrintError>
    requires spoken { 5 ≤ version_number options.now.version }
    requires low { 1 ≤ options.now.chunk_size }
    requires high { options.now.chunk_size ≤ 65536 }
    ensures { (read : List ℕ) × (written : List ℕ)
        × Consumes (R.remaining input.old) (R.remaining input.new) read
        × Appends (W.contents output.old) (W.contents output.new) written
        × IsRedacted options.now.key options.now.version options.now.limit result read written
        (R.remaining input.new) }
{
    let redaction = Redaction {
        version: options.version,
        key: options.key,
    };
    let reading = Reading {
        alloc,
        version: options.version,
        limit: options.limit,
        chunk: options.chunk_size,
    };
    print_lines(reading, &redaction, input, output)
}

/// Writes items with their contents replaced.
#[derive(Drop)]
pub struct Redaction {
    /// The version of the protocol.
    pub version: Version,
    /// What replaces the contents.
    pub key: Key,
}

impl LinePrinter for Redaction {
    type Scratch = ();

    ghost item_line = { λ redaction at. spec.redacted_item redaction.key redaction.version };

    ghost rest_line = { λ redaction at. spec.redacted_rest };

    ghost is_long = { λ redaction item. ⊥ };

    ghost item_trouble = { λ redaction item. None };

    fn scratch(&self, _alloc: Global) {}

    fn trouble(&self, _item: &Item) -> Option<Trouble> {
        None
    }

    fn print_item(
        &self,
        placed: &PlacedItem,
        _scratch: &mut (),
        lines: &mut Vec<u8>,
    ) -> Result<(), PrintError> {
        lines.extend_from_slice(&placed.word.to_be_bytes())?;
        Ok(self.append_body(&placed.item, lines)?)
    }

    fn print_rest(&self, rest: Rest<'_>, lines: &mut Vec<u8>) -> Result<(), AllocError> {
        append_rest(rest.pending.copy_pending()?.as_slice(), lines)
    }
}

impl Redaction {
    /// Appends what an item has after its header, with its contents replaced.
    fn append_body(&self, item: &Item, lines: &mut Vec<u8>) -> Result<(), AllocError>
        ensures { OnOk result (lines.new.items
            ≡ lines.old.items ++ redacted_body self.now.key self.now.version item.now) }
    {
        match item {
            Item::Message(message) => {
                self.append_payload(message.ty(), message.payload().as_slice(), lines)
            }
            Item::Unknown(_) => Ok(()),
            Item::Skipped(_, payload) => self.key.append_replacement(payload.as_slice(), lines),
        }
    }
}

/// Appends trailing bytes: zeros, after the header if it is whole.
fn append_rest(rest: &[u8], lines: &mut Vec<u8>) -> Result<(), AllocError>
    ensures { OnOk result (lines.new.items ≡ lines.old.items ++ spec.redacted_rest rest.now) }
{
    if rest.len() < HEADER {
        return append_zeros(rest.len(), lines);
    }
    lines.extend_from_slice(&rest[..HEADER])?;
    append_zeros(rest.len() - HEADER, lines)
}
