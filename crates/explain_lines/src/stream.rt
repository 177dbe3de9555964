//! A stream explained, from any reader to any writer.

ghost use Rattle.std.specs.Prelude.{◌≡◌, ◌/◌, ◌≤◌, ◌++◌, [], ℕ, List, None, OnOk};
ghost use Rattle.std.specs.Io.KnownBytes.{Appends, Consumes};
ghost use Rattle.std.specs.String.{string_bytes};
ghost use Rattle.shared_core_base.specs.MessageType.{type_of};
ghost use Rattle.shared_core_base.specs.Version.{version_number};
ghost use Rattle.explain_lines.specs.Items.{asks_ack, item_lines, item_text, rest_lines, rest_text, schema_for};
ghost use Rattle.explain_lines.specs.Items.{title, IsExplained};
ghost use Rattle.explain_lines.specs.Lines.{lines_text};
ghost use Rattle.explain_lines.specs.State.{Adds};

use crate::lines::Lines;
use crate::options::Options;
use crate::payload::{RAW, explain_payload};
use crate::piece::Piece;
use shared_core_base::header::MessageType;
use shared_core_message::schemas::schema_at;
use shared_core_stream::encoding::Item;
use std::alloc::{AllocError, Global};
use std::io::{Read, Write};
use stream_lines::{
    LinePrinter, PlacedItem, PrintError, Reading, Report, Rest, Trouble, print_lines,
};

/// The number of bytes that are read at a time.
const CHUNK: usize = 65536;

/// The number of bytes of a header.
const HEADER: usize = 8;

/// What a code is multiplied by in the word of a header.
const CODE_UNIT: u64 = 1 << 48;

/// Writes the lines of the items of a stream, and at its end those of the trailing bytes: for each item its bytes in
/// order, and what they are. A malformed payload is explained up to the fault.
///
/// It reads at most 65,536 bytes at a time, and ends as `print_lines` says. `TooLong` never comes, and
/// `MessageTooLong` at the first message that is longer than the limit of the options. The report has no error of an
/// item.
pub fn explain<R: Read, W: Write>(
    alloc: Global,
    options: &Options,
    input: &mut R,
    output: &mut W,
) -> Result<Report, PrintError>
    requires spoken { 5 ≤ version_number options.now.version }
    ensures { (read : List ℕ) × (written : List ℕ)
        × Consumes (R.remaining input.old) (R.remaining input.new) read
        × Appends (W.contents output.old) (W.contents output.new) written
        × IsExplained options.now result read written (R.remaining input.new) }
{
    let explainer = Explainer { options: *options };
    let reading = Reading {
        alloc,
        version: options.version,
        limit: options.limit,
        chunk: CHUNK,
    };
    print_lines(reading, &explainer, input, output)
}

/// Prints the lines of an explanation.
#[derive(Drop)]
struct Explainer {
    options: Options,
}

/// Buffers that are reused for each item.
#[derive(Drop)]
struct Scratch {
    title: String,
    lines: Lines,
}

impl LinePrinter for Explainer {
    type Scratch = Scratch;

    ghost item_line = { λ explainer. item_text explainer.options };

    ghost rest_line = { λ explainer. rest_text explainer.options };

    ghost is_long = { λ explainer item. ⊥ };

    ghost item_trouble = { λ explainer item. None };

    fn scratch(&self, alloc: Global) -> Scratch {
        Scratch {
            title: String::new(alloc),
            lines: Lines::new(alloc),
        }
    }

    fn trouble(&self, _item: &Item) -> Option<Trouble> {
        None
    }

    fn print_item(
        &self,
        placed: &PlacedItem,
        scratch: &mut Scratch,
        text: &mut Vec<u8>,
    ) -> Result<(), PrintError> {
        if !self
            .options
            .asks_for(placed.offset, placed.item.size() as u128)
        {
            return Ok(());
        }
        self.explain_at(placed, scratch)?;
        text.extend_from_slice(scratch.title.as_bytes())?;
        text.extend_from_slice(scratch.lines.text.as_slice())?;
        Ok(())
    }

    fn print_rest(&self, rest: Rest<'_>, text: &mut Vec<u8>) -> Result<(), AllocError> {
        let bytes = rest.pending.copy_pending()?;
        if bytes.len() == 0 {
            return Ok(());
        }
        if !self.options.asks_for(rest.offset, bytes.len() as u128) {
            return Ok(());
        }
        text.extend_from_slice(b"rest\n")?;
        let mut lines = Lines::new(*text.allocator());
        self.explain_rest_at(rest.offset, bytes.as_slice(), &mut lines)?;
        text.extend_from_slice(lines.text.as_slice())
    }
}

impl Explainer {
    /// Overwrites the title and the lines with those of an item.
    #[tactic(auto, unfolding(crate::specs::Lines::lines_text))]
    fn explain_at(&self, placed: &PlacedItem, scratch: &mut Scratch) -> Result<(), AllocError>
        ensures title { OnOk result (string_bytes scratch.new.title ≡ title placed.now.item) }
        ensures lines { OnOk result (scratch.new.lines.text.items
            ≡ lines_text placed.now.offset (item_lines self.now.options placed.now.word placed.now.item)) }
    {
        scratch.title.clear();
        push_title(&mut scratch.title, &placed.item)?;
        scratch.lines.begin(placed.offset);
        self.explain_item(&mut scratch.lines, placed.word, &placed.item)
    }

    /// Overwrites the lines with those of trailing bytes at an offset.
    #[tactic(auto, unfolding(crate::specs::Lines::lines_text))]
    fn explain_rest_at(
        &self,
        offset: u128,
        bytes: &[u8],
        lines: &mut Lines,
    ) -> Result<(), AllocError>
        ensures { OnOk result (lines.new.text.items ≡ lines_text offset (rest_lines self.now.options bytes.now)) }
    {
        lines.begin(offset);
        self.explain_rest(lines, bytes)
    }

    /// Adds the lines of an item whose header is a word.
    fn explain_item(&self, lines: &mut Lines, word: u64, item: &Item) -> Result<(), AllocError>
        requires outside { lines.old.path.items ≡ [] }
        requires begun { lines.old.count ≡ 0 }
        ensures { Adds lines.old lines.new result (item_lines self.now.options word item.now) }
    {
        let header = word.to_be_bytes();
        match item {
            Item::Message(message) => {
                let asks = asks_ack(message.header().requested_ack());
                lines.add(&header, Piece::Header(word, asks))?;
                let schema = self.schema_for(Some(message.ty()));
                explain_payload(lines, schema, message.payload().as_slice())
            }
            Item::Unknown(_) => lines.add(&header, Piece::Header(word, false)),
            Item::Skipped(_, payload) => {
                lines.add(&header, Piece::Header(word, false))?;
                explain_payload(lines, self.schema_for(None), payload.as_slice())
            }
        }
    }

    /// The schema by which the payload of a type is explained; without one it is explained as it can be read.
    fn schema_for(&self, ty: Option<MessageType>) -> Option<u32>
        ensures { result ≡ schema_for self.now.options ty }
    {
        if self.options.raw {
            return Some(RAW);
        }
        schema_at(self.options.version, ty?)
    }

    /// Adds the lines of trailing bytes: of a part of a header, or of a header and a part of a payload.
    #[tactic(auto, unfolding(shared_core_stream::specs::Items::front_word))]
    fn explain_rest(&self, lines: &mut Lines, bytes: &[u8]) -> Result<(), AllocError>
        requires outside { lines.old.path.items ≡ [] }
        requires begun { lines.old.count ≡ 0 }
        ensures { Adds lines.old lines.new result (rest_lines self.now.options bytes.now) }
    {
        let Some((header, payload)) = bytes.split_first_chunk::<HEADER>() else {
            return lines.add(bytes, Piece::CutHeader);
        };
        let word = u64::from_be_bytes(*header);
        lines.add(header, Piece::Header(word, false))?;
        explain_payload(lines, self.schema_for(type_of(word)), payload)
    }
}

/// Whether an item requests an acknowledgement, by its header's flag.
fn asks_ack(flag: Option<bool>) -> bool
    ensures { result ≡ asks_ack flag }
{
    match flag {
        Some(asks) => asks,
        None => false,
    }
}

/// The type in the word of a header, if it is a known one.
fn type_of(word: u64) -> Option<MessageType>
    ensures { result ≡ type_of (word / 281474976710656) }
{
    MessageType::try_from((word / CODE_UNIT) as u16).ok()
}

/// Appends the title of an item: its type, or the code of an unknown one.
#[tactic(auto, unfolding(crate::specs::Items::title))]
fn push_title(text: &mut String, item: &Item) -> Result<(), AllocError>
    ensures { OnOk result (string_bytes text.new ≡ string_bytes text.old ++ title item.now) }
{
    match item {
        Item::Message(message) => {
            let name = message.ty().debug_name();
            writeln!(text, "{name}")
        }
        Item::Unknown(code) => writeln!(text, "unknown 0x{code:x}"),
        Item::Skipped(code, _) => writeln!(text, "skipped 0x{code:x}"),
    }
}
