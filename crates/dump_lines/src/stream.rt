//! Dumping a stream, from any reader to any writer.

ghost use Rattle.std.specs.Prelude.{◌≤◌, ℕ, List};
ghost use Rattle.std.specs.Io.KnownBytes.{Appends, Consumes};
ghost use Rattle.shared_core_base.specs.Version.{version_number};
ghost use Rattle.stream_lines.specs.Printing.{ArePrinted};
ghost use Rattle.dump_lines.specs.Dump.{IsDumpedIn, IsLong, trouble_of};
ghost use Rattle.dump_lines.specs.Lines.{line_of_in};
ghost use Rattle.dump_lines.specs.Terminal.{IsShownIn, last_line};

use crate::message_table::MessageTable;
use crate::options::Options;
use crate::printer::Printer;
use std::alloc::Global;
use std::io::{Read, Write};
use stream_lines::{PrintError, Reading, Report, print_lines};

/// The number of bytes that are read at a time.
const CHUNK: usize = 65536;

/// How a stream is dumped.
#[derive(Drop)]
pub struct Dumping<'a, M> {
    /// What chunks and lines are allocated by.
    pub alloc: Global,
    /// Which items have lines, what these contain, and how the stream is read.
    pub options: Options<'a>,
    /// How payloads are read.
    pub messages: &'a M,
}

impl<'a, M: MessageTable> Dumping<'a, M> {
    /// Writes one line per selected item of a stream, and at its end, where the options have it, a line for the
    /// trailing bytes.
    ///
    /// It reads at most 65,536 bytes at a time, and ends as `print_lines` says. `TooLong` comes only if payloads are
    /// printed and one of the items after the written lines is a selected message whose canonical payload has more
    /// bytes than 32 bits can count. `MessageTooLong` comes at the first message that is longer than the limit of the
    /// options. If the options are strict, the report has the first item whose code is unassigned, or which is a
    /// selected message whose payload is not well-formed for its type at the version. `canonical_of` is called for each
    /// printed payload that is not canonical.
    pub fn dump<R: Read, W: Write>(
        &self,
        input: &mut R,
        output: &mut W,
    ) -> Result<Report, PrintError>
        requires spoken { 5 ≤ version_number self.now.options.version }
        ensures { (read : List ℕ) × (written : List ℕ)
            × Consumes (R.remaining input.old) (R.remaining input.new) read
            × Appends (W.contents output.old) (W.contents output.new) written
            × IsDumpedIn (M.reading self.now.messages.now) self.now.options result read written
            (R.remaining input.new) }
    {
        let printer = Printer {
            options: self.options,
            messages: self.messages,
            is_terminal: false,
        };
        print_stream(self.alloc, &printer, input, output)
    }

    /// Dumps a stream as `dump` does, except for the last line, which is without the trailing bytes if there are more
    /// of them than `MOST_SHOWN`.
    pub fn dump_on_terminal<R: Read, W: Write>(
        &self,
        input: &mut R,
        output: &mut W,
    ) -> Result<Report, PrintError>
        requires spoken { 5 ≤ version_number self.now.options.version }
        ensures { (read : List ℕ) × (written : List ℕ)
            × Consumes (R.remaining input.old) (R.remaining input.new) read
            × Appends (W.contents output.old) (W.contents output.new) written
            × IsShownIn (M.reading self.now.messages.now) self.now.options result read written (R.remaining input.new) }
    {
        let printer = Printer {
            options: self.options,
            messages: self.messages,
            is_terminal: true,
        };
        print_stream(self.alloc, &printer, input, output)
    }
}

/// Dumps a stream, on a terminal or not.
fn print_stream<M: MessageTable, R: Read, W: Write>(
    alloc: Global,
    printer: &Printer<'_, M>,
    input: &mut R,
    output: &mut W,
) -> Result<Report, PrintError>
    requires spoken { 5 ≤ version_number printer.now.options.version }
    ensures { (read : List ℕ) × (written : List ℕ)
        × Consumes (R.remaining input.old) (R.remaining input.new) read
        × Appends (W.contents output.old) (W.contents output.new) written
        × ArePrinted (line_of_in (M.reading printer.now.messages.now) printer.now.options)
        (last_line printer.now.is_terminal printer.now.options)
        (IsLong (M.reading printer.now.messages.now) printer.now.options)
        (trouble_of (M.reading printer.now.messages.now) printer.now.options)
        printer.now.options.version printer.now.options.limit result read written (R.remaining input.new) }
{
    let reading = Reading {
        alloc,
        version: printer.options.version,
        limit: printer.options.limit,
        chunk: CHUNK,
    };
    print_lines(reading, printer, input, output)
}
