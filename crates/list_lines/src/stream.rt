//! The listing of a stream, from any reader to any writer.

ghost use Rattle.std.specs.Prelude.{◌≡◌, ◌≤◌, ◌++◌, ℕ, List, None, length, OnOk};
ghost use Rattle.std.specs.Io.KnownBytes.{Appends, Consumes};
ghost use Rattle.std.specs.String.{string_bytes};
ghost use Rattle.shared_core_base.specs.Version.{version_number};
ghost use Rattle.list_lines.specs.Listing.{ack_text, code_text, line_of, IsListed};
ghost use Rattle.list_lines.specs.Listing as text;

use crate::names::{name_at, other_name};
use crate::options::{Options, OtherName};
use shared_core_stream::encoding::Item;
use std::alloc::{AllocError, Global};
use std::io::{Read, Write};
use stream_lines::{
    LinePrinter, PlacedItem, PrintError, Reading, Report, Rest, Trouble, print_lines,
};

/// Writes one line per item of a stream, and at its end the count of the trailing bytes.
///
/// It reads at most `chunk_size` bytes at a time, and ends as `print_lines` says. `TooLong` never comes, and
/// `MessageTooLong` at the first message that is longer than the limit of the options. The report has no error of an
/// item.
pub fn list<R: Read, W: Write>(
    alloc: Global,
    options: &Options<'_>,
    input: &mut R,
    output: &mut W,
) -> Result<Report, PrintError>
    requires spoken { 5 ≤ version_number options.now.version }
    requires low { 1 ≤ options.now.chunk_size }
    requires high { options.now.chunk_size ≤ 65536 }
    ensures { (read : List ℕ) × (written : List ℕ)
        × Consumes (R.remaining input.old) (R.remaining input.new) read
        × Appends (W.contents output.old) (W.contents output.new) written
        × IsListed options.now.names.now options.now.version options.now.limit result read written
        (R.remaining input.new) }
{
    let listing = Listing {
        names: options.names,
    };
    let reading = Reading {
        alloc,
        version: options.version,
        limit: options.limit,
        chunk: options.chunk_size,
    };
    print_lines(reading, &listing, input, output)
}

/// The printer of the lines of a listing.
#[derive(Clone, Copy)]
struct Listing<'a> {
    names: &'a [OtherName<'a>],
}

impl<'a> LinePrinter for Listing<'a> {
    /// The text of a line, which is reused.
    type Scratch = String;

    ghost item_line = { λ listing at word. text.line_of listing.names.now };

    ghost rest_line = { λ listing at rest. text.rest_line (length rest) };

    ghost is_long = { λ listing item. ⊥ };

    ghost item_trouble = { λ listing item. None };

    fn scratch(&self, alloc: Global) -> String {
        String::new(alloc)
    }

    fn trouble(&self, _item: &Item) -> Option<Trouble> {
        None
    }

    #[inline(always)]
    fn print_item(
        &self,
        placed: &PlacedItem,
        line: &mut String,
        lines: &mut Vec<u8>,
    ) -> Result<(), PrintError> {
        line.clear();
        write_item(line, self.names, &placed.item)?;
        lines.extend_from_slice(line.as_bytes())?;
        Ok(())
    }

    fn print_rest(&self, rest: Rest<'_>, lines: &mut Vec<u8>) -> Result<(), AllocError> {
        let count = rest.pending.pending();
        let mut line = String::new(*lines.allocator());
        writeln!(line, "rest {count}")?;
        lines.extend_from_slice(line.as_bytes())
    }
}

/// Appends an item's line.
fn write_item(text: &mut String, names: &[OtherName<'_>], item: &Item) -> Result<(), AllocError>
    ensures { OnOk result (string_bytes text.new ≡ string_bytes text.old ++ line_of names.now item.now) }
{
    match item {
        Item::Message(message) => {
            let length = message.payload().len();
            let mark = ack_mark(message.header().requested_ack());
            if let Some(name) = other_name(names, message.ty()) {
                return writeln!(text, "{name} {length}{mark}");
            }
            let name = message.ty().debug_name();
            writeln!(text, "{name} {length}{mark}")
        }
        Item::Unknown(code) => {
            text.push_str("unknown ")?;
            push_code(text, names, *code)?;
            text.push_str("\n")
        }
        Item::Skipped(code, payload) => {
            let length = payload.len();
            text.push_str("skipped ")?;
            push_code(text, names, *code)?;
            writeln!(text, " {length}")
        }
    }
}

/// Appends the name that is given for a code, or else the code.
fn push_code(text: &mut String, names: &[OtherName<'_>], code: u16) -> Result<(), AllocError>
    ensures { OnOk result (string_bytes text.new ≡ string_bytes text.old ++ code_text names.now code) }
{
    match name_at(names, code) {
        Some(name) => text.push_str(name),
        None => write!(text, "0x{code:x}"),
    }
}

/// What follows a message's length, by its header's flag.
fn ack_mark(requested_ack: Option<bool>) -> &'static str
    ensures { result.now ≡ ack_text requested_ack }
{
    match requested_ack {
        Some(true) => " ack",
        _ => "",
    }
}
