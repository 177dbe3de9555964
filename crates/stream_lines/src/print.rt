//! The loop that reads a stream and writes its lines.
//!
//! It stands on what the library holds of a stream. The lines of the items that a read completes are made in one text,
//! which is reused, and are written before anything more is read. If an allocation fails among them, none of them is
//! written, so that what is written is complete lines; the last line too is complete before any of it is written. An
//! item is taken in one place, so that all of that is compiled into the loop.
//!
//! What calls `print_lines` has its own lines of contract on what is read and written, each of its own reader and
//! writer. `ArePrinted` takes the four definitions of a printer one by one, since those below it take one or two.

ghost use Rattle.std.specs.Prelude.{◌≡◌, ◌+◌, ◌<◌, ◌≤◌, ◌++◌, ◌^◌, ℕ, List, length, IfOk, IfErr, OnOk, None};
ghost use Rattle.std.specs.Io.KnownBytes.{Appends, Consumes};
ghost use Rattle.std.specs.Option.{option_or};
ghost use Rattle.shared_core_base.specs.Version.{version_number};
ghost use Rattle.shared_core_stream.specs.Limits.{offset_after};
ghost use Rattle.shared_core_stream.specs.Unread.{fresh};
ghost use Rattle.shared_core_io.specs.Buffered.{held_in};
ghost use Rattle.stream_lines.specs.Printing.{item_size, trouble_at, ArePrinted, IsLack, IsLongIn};
ghost use Rattle.stream_lines.specs.Steps.{Added, IsAfter};

use crate::error::PrintError;
use crate::line_printer::{LinePrinter, PlacedItem, Rest};
use crate::output::write_whole;
use crate::report::{Report, Trouble};
use shared_core_base::version::Version;
use shared_core_io::{ItemBuffer, ReadError};
use shared_core_stream::encoding::MessageTooLong;
use std::alloc::Global;
use std::io::{Read, Write};

/// How a stream is read whose lines are printed.
#[derive(Clone, Copy)]
pub struct Reading {
    /// What chunks, items and lines are allocated by.
    pub alloc: Global,
    /// The version of the protocol, at least V5.
    pub version: Version,
    /// The greatest length of a payload that is taken, in bytes; `u32::MAX` means no limit.
    pub limit: u32,
    /// The number of bytes that are read at a time, from 1 to 65,536.
    pub chunk: usize,
}

/// Writes one line per item of a stream, and at its end a line for the trailing bytes.
///
/// It reads at most `chunk` bytes at a time, and writes the lines of the items that it has read before it reads on.
/// `Ok` comes only if the reader has no byte left, and then all is written. The report has the first error that the
/// printer finds in an item, and the trailing bytes. After `Input` the lines of all items of what was read are written;
/// after `Output` a prefix of these lines, or of all if the input had ended; after `OutOfMemory` and `TooLong` the
/// lines of the first items. `TooLong` comes only if one of the items after them is too long for a line.
/// `MessageTooLong` comes after the lines of the items before the first message whose payload is longer than the limit,
/// as soon as its header is received. Whatever is returned, no line is of a message that is longer, or of what comes
/// after one.
pub fn print_lines<P: LinePrinter, R: Read, W: Write>(
    reading: Reading,
    printer: &P,
    input: &mut R,
    output: &mut W,
) -> Result<Report, PrintError>
    requires spoken { 5 ≤ version_number reading.version }
    requires low { 1 ≤ reading.chunk }
    requires high { reading.chunk ≤ 65536 }
    ensures { (read : List ℕ) × (written : List ℕ)
        × Consumes (R.remaining input.old) (R.remaining input.new) read
        × Appends (W.contents output.old) (W.contents output.new) written
        × ArePrinted (P.item_line printer.now) (P.rest_line printer.now)
        (P.is_long printer.now) (P.item_trouble printer.now) reading.version reading.limit result read written
        (R.remaining input.new) }
{
    let alloc = reading.alloc;
    let items = ItemBuffer::new(alloc, reading.version, reading.limit, reading.chunk);
    let scratch = printer.scratch(alloc);
    let lines = Lines {
        text: Vec::new(alloc),
        offset: 0,
        trouble: None,
    };
    let mut printing = Printing {
        items,
        scratch,
        lines,
    };
    printing.print_all(printer, input, output)
}

/// What a printing has while it goes on. `print_lines` owns it, and has one place where it is dropped.
#[derive(Drop)]
struct Printing<S> {
    items: ItemBuffer,
    scratch: S,
    lines: Lines,
}

impl<S> Printing<S> {
    /// Does what `print_lines` says, where nothing is read yet.
    fn print_all<P: LinePrinter<Scratch = S>, R: Read, W: Write>(
        &mut self,
        printer: &P,
        input: &mut R,
        output: &mut W,
    ) -> Result<Report, PrintError>
        requires nothing { held_in self.old.items
            ≡ fresh self.old.items.decoder.version self.old.items.decoder.limit }
        requires start { self.old.lines.offset ≡ 0 }
        requires no_trouble { self.old.lines.trouble ≡ None }
        ensures { (read : List ℕ) × (written : List ℕ)
            × Consumes (R.remaining input.old) (R.remaining input.new) read
            × Appends (W.contents output.old) (W.contents output.new) written
            × ArePrinted (P.item_line printer.now) (P.rest_line printer.now)
            (P.is_long printer.now) (P.item_trouble printer.now) self.old.items.decoder.version
            self.old.items.decoder.limit result read written (R.remaining input.new) }
    {
        for _ in 0..u64::MAX {
            match self.items.fill(input) {
                Ok(true) => {}
                Ok(false) => {
                    self.lines.text.clear();
                    let pending = self.items.decoder();
                    let rest = Rest {
                        offset: self.lines.offset,
                        pending,
                    };
                    printer.print_rest(rest, &mut self.lines.text)?;
                    write_whole(output, self.lines.text.as_slice())?;
                    return Ok(Report {
                        trouble: self.lines.trouble,
                        end: self.lines.offset,
                        rest: pending.pending(),
                    });
                }
                Err(ReadError::Failed(_)) => return Err(PrintError::Input),
                Err(_) => return Err(PrintError::OutOfMemory),
            }
            self.lines.text.clear();
            let longer = self
                .lines
                .add_held(printer, &mut self.items, &mut self.scratch)?;
            write_whole(output, self.lines.text.as_slice())?;
            if let Some(message) = longer {
                return Err(PrintError::MessageTooLong(message));
            }
        }
        Err(PrintError::Input)
    }
}

/// The lines of items, and what all items so far have given.
#[derive(Drop)]
struct Lines {
    text: Vec<u8>,
    /// Where the next item begins. 2^64 - 1 reads may give more bytes than 64 bits can count.
    offset: u128,
    /// The first error.
    trouble: Option<(u128, Trouble)>,
}

impl Lines {
    /// Adds the lines of the items that were read. Returns the message after them, if it is longer than the limit.
    fn add_held<P: LinePrinter>(
        &mut self,
        printer: &P,
        items: &mut ItemBuffer,
        scratch: &mut P::Scratch,
    ) -> Result<Option<MessageTooLong>, PrintError>
        requires accepted { items.old.decoder.rejected ≡ None }
        requires placed { items.old.decoder.offset ≡ offset_after 0 self.old.offset }
        requires room { self.old.offset + length (held_in items.old).bytes < 2 ^ 128 }
        ensures added { IfOk result (λ longer. (rest : List ℕ) × Added (P.item_line printer.now)
            (P.item_trouble printer.now) items.old.decoder.version items.old.decoder.limit self.old.offset
            self.old.trouble self.old.text.items (held_in items.old).bytes self.new.offset self.new.trouble
            self.new.text.items rest
            × IsAfter items.old.decoder.version items.old.decoder.limit longer self.new.offset rest
            (held_in items.new)) }
        ensures lack { IfErr result (IsLack (IsLongIn (P.is_long printer.now) items.old.decoder.version
            (held_in items.old).bytes)) }
    {
        loop {
            match items.take_with_word() {
                Ok(Some((word, item))) => {
                    let offset = self.offset;
                    self.add(printer, PlacedItem { offset, word, item }, scratch)?;
                }
                Ok(None) => return Ok(None),
                Err(ReadError::TooLong(message)) => return Ok(Some(message)),
                Err(_) => return Err(PrintError::OutOfMemory),
            }
        }
    }

    /// Adds the line of the next item.
    #[inline(always)]
    fn add<P: LinePrinter>(
        &mut self,
        printer: &P,
        placed: PlacedItem,
        scratch: &mut P::Scratch,
    ) -> Result<(), PrintError>
        requires next { placed.offset ≡ self.old.offset }
        requires room { self.old.offset + item_size placed.item < 2 ^ 128 }
        ensures line { OnOk result (self.new.text.items
            ≡ self.old.text.items ++ P.item_line printer.now self.old.offset placed.word placed.item) }
        ensures place { OnOk result (self.new.offset ≡ self.old.offset + item_size placed.item) }
        ensures trouble { OnOk result (self.new.trouble
            ≡ option_or self.old.trouble (trouble_at (P.item_trouble printer.now) self.old.offset placed.item)) }
        ensures lack { IfErr result (IsLack (P.is_long printer.now placed.item)) }
    {
        self.trouble = first(printer, &placed, self.trouble);
        printer.print_item(&placed, scratch, &mut self.text)?;
        self.offset += placed.item.size() as u128;
        Ok(())
    }
}

/// The first error: the one that was found before, otherwise that of this item.
fn first<P: LinePrinter>(
    printer: &P,
    placed: &PlacedItem,
    found: Option<(u128, Trouble)>,
) -> Option<(u128, Trouble)>
    ensures { result
        ≡ option_or found (trouble_at (P.item_trouble printer.now) placed.now.offset placed.now.item) }
{
    match found {
        Some(_) => found,
        None => Some((placed.offset, printer.trouble(&placed.item)?)),
    }
}
