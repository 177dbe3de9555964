//! The printer of a dump's lines.

ghost use Rattle.std.specs.Prelude.{◌≡◌, ◌++◌, codes, OnOk};
ghost use Rattle.std.specs.Str.{IsUtf8};
ghost use Rattle.json.specs.Lex.{tokens};
ghost use Rattle.json.specs.Print.{print};
ghost use Rattle.shared_core_stream.specs.declared.encoding.item.Item.TheVariants as variant;
ghost use Rattle.dump_lines.specs.Dump.{wrong_of};
ghost use Rattle.dump_lines.specs.Lines.{rest_line, unread_line};
ghost use Rattle.dump_lines.specs.Reading.{is_well_formed_for};
ghost use Rattle.dump_lines.specs.Spread.{AreGood, tokens_text};
ghost use Rattle.dump_lines.specs.Terminal.{rest_options};

use crate::lines::{ItemWriter, is_selected, item_code, write_rest};
use crate::message_table::MessageTable;
use crate::options::Options;
use crate::pretty::pretty_text;
use crate::scratch::Scratch;
use json::Writer;
use shared_core_codec::check::is_well_formed_in;
use shared_core_stream::encoding::{Item, RawMessage};
use std::alloc::{AllocError, Global};
use stream_lines::{LinePrinter, PlacedItem, PrintError, Rest, Trouble};

/// The most trailing bytes that the last line has on a terminal: more are not for people to read.
pub const MOST_SHOWN: u64 = 64;

/// Prints the lines of a dump.
#[derive(Drop)]
pub struct Printer<'a, M> {
    /// Which items have lines, and what these contain.
    pub options: Options<'a>,
    /// How payloads are read.
    pub messages: &'a M,
    /// Whether the last line is one of a terminal.
    pub is_terminal: bool,
}

impl<'a, M: MessageTable> LinePrinter for Printer<'a, M> {
    ghost use Rattle.dump_lines.specs.Dump.{IsLong, trouble_of};
    ghost use Rattle.dump_lines.specs.Lines.{line_of_in};
    ghost use Rattle.dump_lines.specs.Terminal.{last_line};

    type Scratch = Scratch;

    ghost item_line = { λ printer. line_of_in (M.reading printer.messages.now) printer.options };

    ghost rest_line = { λ printer. last_line printer.is_terminal printer.options };

    ghost is_long = { λ printer. IsLong (M.reading printer.messages.now) printer.options };

    ghost item_trouble = { λ printer. trouble_of (M.reading printer.messages.now) printer.options };

    fn scratch(&self, alloc: Global) -> Scratch {
        Scratch::new(alloc)
    }

    fn trouble(&self, item: &Item) -> Option<Trouble> {
        if !self.options.strict {
            return None;
        }
        match item {
            Item::Message(message) => message_trouble(self.messages, &self.options, message),
            Item::Unknown(code) => Some(Trouble::UnknownCode(*code)),
            Item::Skipped(code, _) => Some(Trouble::UnknownCode(*code)),
        }
    }

    fn print_item(
        &self,
        placed: &PlacedItem,
        scratch: &mut Scratch,
        lines: &mut Vec<u8>,
    ) -> Result<(), PrintError> {
        let options = &self.options;
        if !is_selected(options.codes, item_code(&placed.item)) {
            return Ok(());
        }
        let alloc = *lines.allocator();
        let writer = ItemWriter {
            alloc,
            options,
            messages: self.messages,
            placed,
        };
        writer.write_object(scratch)?;
        Ok(append_object(alloc, options.pretty, scratch.line.as_slice(), lines)?)
    }

    fn print_rest(&self, rest: Rest<'_>, lines: &mut Vec<u8>) -> Result<(), AllocError> {
        if self.is_terminal {
            let options = rest_options(&self.options, rest.pending.pending());
            return append_rest(&options, rest, lines);
        }
        append_rest(&self.options, rest, lines)
    }
}

/// The options of the last line on a terminal, for this many trailing bytes.
fn rest_options<'a>(options: &Options<'a>, count: u64) -> Options<'a>
    ensures { result ≡ rest_options options.now count }
{
    if count > MOST_SHOWN {
        Options {
            payloads: false,
            ..*options
        }
    } else {
        *options
    }
}

/// The error of a selected message whose payload is not well-formed.
fn message_trouble<M: MessageTable>(
    messages: &M,
    options: &Options<'_>,
    message: &RawMessage,
) -> Option<Trouble>
    ensures { result ≡ wrong_of (M.reading messages.now) options.now (variant.Message message.now) }
{
    let ty = message.ty();
    if !is_selected(options.codes, u16::from(ty)) {
        return None;
    }
    let schema = messages.schema_of(options.version, ty);
    if is_well_formed_for(messages, schema, message.payload().as_slice()) {
        return None;
    }
    Some(Trouble::Malformed(ty))
}

/// Whether a payload is well-formed for a schema of a table. Without a schema it is opaque, and always is.
fn is_well_formed_for<M: MessageTable>(messages: &M, schema: Option<u32>, payload: &[u8]) -> bool
    ensures { result ≡ is_well_formed_for (M.reading messages.now) schema payload.now }
{
    match schema {
        Some(schema) => is_well_formed_in(&messages.table(), schema, payload),
        None => true,
    }
}

/// Appends the last line, where the options have one.
fn append_rest(options: &Options<'_>, rest: Rest<'_>, lines: &mut Vec<u8>) -> Result<(), AllocError>
    ensures { OnOk result (lines.new.items
        ≡ lines.old.items ++ rest_line options.now rest.entry.offset rest.entry.pending.now.bytes) }
{
    if options.rest {
        append_unread(options, rest, lines)
    } else {
        Ok(())
    }
}

/// Appends the line of the trailing bytes.
#[tactic(auto, using(crate::proofs::Good::good_tokens))]
fn append_unread(
    options: &Options<'_>,
    rest: Rest<'_>,
    lines: &mut Vec<u8>,
) -> Result<(), AllocError>
    ensures { OnOk result (lines.new.items
        ≡ lines.old.items ++ unread_line options.now rest.entry.offset rest.entry.pending.now.bytes) }
{
    let alloc = *lines.allocator();
    let mut out = Writer::new(Vec::new(alloc));
    out.begin_object()?;
    write_rest(options, rest, &mut Scratch::new(alloc), &mut out)?;
    out.end_object()?;
    append_object(alloc, options.pretty, out.into_inner().as_slice(), lines)
}

/// Appends an object, on one line or on several.
fn append_object(
    alloc: Global,
    is_pretty: bool,
    object: &[u8],
    lines: &mut Vec<u8>,
) -> Result<(), AllocError>
    requires utf8 { IsUtf8 object.now }
    requires good { AreGood (tokens object.now) }
    requires printed { object.now ≡ print (tokens object.now) }
    ensures { OnOk result (lines.new.items ≡ lines.old.items
        ++ (tokens_text is_pretty (tokens object.now) ++ codes "\n")) }
{
    if is_pretty {
        return append_line(pretty_text(alloc, object)?.as_slice(), lines);
    }
    append_line(object, lines)
}

/// Appends a line.
fn append_line(line: &[u8], lines: &mut Vec<u8>) -> Result<(), AllocError>
    ensures line { OnOk result (lines.new.items ≡ lines.old.items ++ (line.now ++ codes "\n")) }
{
    lines.extend_from_slice(line)?;
    lines.extend_from_slice(b"\n")
}
