//! A stream at other field numbers, from any reader to any writer.

ghost use Rattle.std.specs.Prelude.{◌≡◌, ◌≤◌, ◌^◌, ◌++◌, ℕ, List, IfErr, OnOk, IfOk, length};
ghost use Rattle.std.specs.Io.KnownBytes.{Appends, Consumes};
ghost use Rattle.shared_core_base.specs.Version.{version_number};
ghost use Rattle.stream_lines.specs.Printing.{IsLack};
ghost use Rattle.stream_renumbering.specs.Streams.{item_bytes, IsPayload, IsStream, message_payload};
ghost use Rattle.stream_renumbering.specs.Streams as spec;

use crate::options::Options;
use shared_core_base::version::Version;
use shared_core_message::schemas::schema_at;
use shared_core_renumber::{RenumberError, Renumbering, is_renumberable, renumbered};
use shared_core_stream::encoding::{Item, RawMessage};
use std::alloc::{AllocError, Global};
use std::io::{Read, Write};
use stream_lines::{
    LinePrinter, PlacedItem, PrintError, Reading, Report, Rest, Trouble, print_lines,
};

/// The greatest number of bytes that are read at a time.
const CHUNK: usize = 65536;

/// Writes each item of a stream with its payload at the other numbers of a table, under the same header except its
/// length, and then the trailing bytes as they are. Items whose type has no schema are written as they are, and so is a
/// message whose payload has no other numbers, since it is malformed: the report has the first one.
///
/// It reads at most 65,536 bytes at a time, and ends as `print_lines` says. `TooLong` comes at a payload that would
/// have more than 4,294,967,295 bytes, and `MessageTooLong` at the first message that is longer than the limit of the
/// options.
pub fn renumber<R: Read, W: Write>(
    alloc: Global,
    options: &Options<'_>,
    input: &mut R,
    output: &mut W,
) -> Result<Report, PrintError>
    requires { 5 ≤ version_number options.now.version }
    ensures { (read : List ℕ) × (written : List ℕ)
        × Consumes (R.remaining input.old) (R.remaining input.new) read
        × Appends (W.contents output.old) (W.contents output.new) written
        × IsStream options.now.entries.now options.now.version options.now.limit result read written
        (R.remaining input.new) }
{
    let writer = Writer {
        version: options.version,
        entries: options.entries,
    };
    let reading = Reading {
        alloc,
        version: options.version,
        limit: options.limit,
        chunk: CHUNK,
    };
    print_lines(reading, &writer, input, output)
}

/// Writes items at other field numbers.
#[derive(Clone, Copy)]
struct Writer<'a> {
    version: Version,
    entries: &'a [Renumbering],
}

impl<'a> LinePrinter for Writer<'a> {
    type Scratch = ();

    ghost item_line = { λ writer at. spec.item_bytes writer.entries.now writer.version };

    ghost rest_line = { λ writer at rest. rest };

    ghost is_long = { λ writer. spec.IsLong writer.entries.now writer.version };

    ghost item_trouble = { λ writer. spec.item_trouble writer.entries.now writer.version };

    fn scratch(&self, _alloc: Global) {}

    fn trouble(&self, item: &Item) -> Option<Trouble> {
        let Item::Message(message) = item else {
            return None;
        };
        let schema = schema_at(self.version, message.ty())?;
        if is_renumberable(
            self.entries,
            u64::from(schema),
            message.payload().as_slice(),
        ) {
            return None;
        }
        Some(Trouble::Malformed(message.ty()))
    }

    fn print_item(
        &self,
        placed: &PlacedItem,
        _scratch: &mut (),
        lines: &mut Vec<u8>,
    ) -> Result<(), PrintError> {
        let word = placed.word;
        match &placed.item {
            Item::Message(message) => {
                let payload = self.payload_of(*lines.allocator(), message)?;
                append_message(word, payload.as_slice(), lines)
            }
            Item::Unknown(_) => Ok(lines.extend_from_slice(&word.to_be_bytes())?),
            Item::Skipped(_, payload) => {
                lines.extend_from_slice(&word.to_be_bytes())?;
                Ok(lines.extend_from_slice(payload.as_slice())?)
            }
        }
    }

    fn print_rest(&self, rest: Rest<'_>, lines: &mut Vec<u8>) -> Result<(), AllocError> {
        lines.extend_from_slice(rest.pending.copy_pending()?.as_slice())
    }
}

impl<'a> Writer<'a> {
    /// The payload of a message at the other numbers, or as it is.
    #[tactic(auto, using(crate::proofs::Payloads::at_other_numbers, crate::proofs::Payloads::too_long))]
    fn payload_of(&self, alloc: Global, message: &RawMessage) -> Result<Vec<u8>, PrintError>
        ensures { IsPayload self.now.entries.now self.now.version message.now result }
    {
        let payload = message.payload().as_slice();
        let Some(schema) = schema_at(self.version, message.ty()) else {
            return copy_of(alloc, payload);
        };
        match renumbered(alloc, self.entries, u64::from(schema), payload) {
            Ok(bytes) => Ok(bytes),
            Err(RenumberError::Malformed) => copy_of(alloc, payload),
            Err(RenumberError::TooLong) => Err(PrintError::TooLong),
            Err(RenumberError::OutOfMemory) => Err(PrintError::OutOfMemory),
        }
    }
}

/// A copy of some bytes.
fn copy_of(alloc: Global, bytes: &[u8]) -> Result<Vec<u8>, PrintError>
    ensures copied { IfOk result (λ copy. copy.items ≡ bytes.now) }
    ensures lack { IfErr result (IsLack ⊥) }
{
    let mut copy = Vec::new(alloc);
    copy.extend_from_slice(bytes)?;
    Ok(copy)
}

/// Appends a message: the first half of its header's word, the length of its payload, and the payload. `TooLong` only
/// if that is longer than a header can say.
fn append_message(word: u64, payload: &[u8], lines: &mut Vec<u8>) -> Result<(), PrintError>
    ensures written { OnOk result (lines.new.items ≡ lines.old.items ++ spec.message_bytes word payload.now) }
    ensures lack { IfErr result (IsLack (2 ^ 32 ≤ length payload.now)) }
{
    let Ok(size) = u32::try_from(payload.len()) else {
        return Err(PrintError::TooLong);
    };
    lines.extend_from_slice(&word.to_be_bytes()[..4])?;
    lines.extend_from_slice(&size.to_be_bytes())?;
    Ok(lines.extend_from_slice(payload)?)
}
