//! Showing a stream, from any reader to any writer.
//!
//! The lines of the items that a read completes are made in one text, which is reused, and are written before anything
//! more is read. If an allocation fails among them, none of them is written, so that what is written is whole lines.

ghost use Rattle.std.specs.Prelude.{◌≡◌, ◌+◌, ◌<◌, ◌≤◌, ◌++◌, ◌^◌, ℕ, List, codes, length, IfOk, IfErr, OnOk, None};
ghost use Rattle.std.specs.Io.KnownBytes.{Appends, Consumes};
ghost use Rattle.std.specs.String.{string_bytes};
ghost use Rattle.shared_core_base.specs.Version.{version_number};
ghost use Rattle.shared_core_io.specs.Buffered.{held_in};
ghost use Rattle.shared_core_stream.specs.Limits.{offset_after};
ghost use Rattle.stream_lines.specs.Printing.{item_size, IsLack, IsLongIn};
ghost use Rattle.stream_lines.specs.Steps.{IsAfter};
ghost use Rattle.show_lines.specs.Lines.{has_line, is_in_range, is_selected, item_facts, item_name, joins, last_lines};
ghost use Rattle.show_lines.specs.Lines.{line_of, nothing_known, place_after, then_known, waiting_then};
ghost use Rattle.show_lines.specs.Showing.{AreShown, IsLong};
ghost use Rattle.show_lines.specs.Steps.{Added, AreCounted, known_by, place_of, waiting_of};

use crate::facts::Facts;
use crate::held::Payloads;
use crate::line::write_name;
use crate::matching::Matcher;
use crate::options::Options;
use crate::place::Place;
use crate::scratch::Scratch;
use crate::waiting::{Named, Waiting};
use dump_lines::Canonicalizer;
use shared_core_io::{ItemBuffer, ReadError};
use shared_core_stream::encoding::{Item, MessageTooLong};
use std::alloc::{AllocError, Global};
use std::io::{Read, Write};
use stream_lines::output::write_whole;
use stream_lines::{PrintError, Report};

/// The number of bytes that are read at a time.
const CHUNK: usize = 65536;

/// How a stream is shown.
#[derive(Drop)]
pub struct Showing<'a, C> {
    /// What chunks and lines are allocated by.
    pub alloc: Global,
    /// Which items have lines, and how the stream is read.
    pub options: &'a Options<'a>,
    /// What payloads that are not canonical need.
    pub canonicalizer: &'a C,
}

impl<'a, C: Canonicalizer> Showing<'a, C> {
    /// Writes one line per item of a stream that has one by the options, and at its end, unless only failures have
    /// lines, one for each command that nothing has completed.
    ///
    /// The line of an item has its index, its type and the beginnings of its fields. A command and its completion
    /// belong together by an id: the line of the one that comes later names the other. It reads at most 65,536 bytes at
    /// a time, and writes the lines of the items that it has read before it reads on.
    ///
    /// `Ok` comes only if the reader has no byte left, and then all is written; the report has the trailing bytes, and
    /// no error. After `Input` the lines of all items of what was read are written; after `Output` a prefix of these
    /// lines, or of all if the input had ended; after `OutOfMemory` and `TooLong` the lines of the first items.
    /// `TooLong` comes only if one of the items after them is a message whose canonical payload has more bytes than 32
    /// bits can count. `MessageTooLong` comes after the lines of the items before the first message whose payload is
    /// longer than the limit, as soon as its header is read. The canonicalizer is called for each payload that is not
    /// canonical.
    pub fn show<R: Read, W: Write>(
        &self,
        input: &mut R,
        output: &mut W,
    ) -> Result<Report, PrintError>
        requires spoken { 5 ≤ version_number self.now.options.now.version }
        ensures { (read : List ℕ) × (written : List ℕ)
            × Consumes (R.remaining input.old) (R.remaining input.new) read
            × Appends (W.contents output.old) (W.contents output.new) written
            × AreShown self.now.options.now result read written (R.remaining input.new) }
    {
        let alloc = self.alloc;
        let options = self.options;
        let mut items = ItemBuffer::new(alloc, options.version, options.limit, CHUNK);
        let mut lines = Lines::new(alloc);
        for _ in 0..u64::MAX {
            match items.fill(input) {
                Ok(true) => {}
                Ok(false) => {
                    lines.text.clear();
                    lines.add_last(options)?;
                    write_whole(output, lines.text.as_slice())?;
                    return Ok(Report {
                        trouble: None,
                        end: lines.offset,
                        rest: items.decoder().pending(),
                    });
                }
                Err(ReadError::Failed(_)) => return Err(PrintError::Input),
                Err(_) => return Err(PrintError::OutOfMemory),
            }
            lines.text.clear();
            let longer = lines.add_held(self, &mut items)?;
            write_whole(output, lines.text.as_slice())?;
            if let Some(message) = longer {
                return Err(PrintError::MessageTooLong(message));
            }
        }
        Err(PrintError::Input)
    }

    /// What reads the payloads.
    fn payloads(&self) -> Payloads<'_, C>
        ensures { result.version ≡ self.now.options.now.version }
    {
        Payloads {
            alloc: self.alloc,
            version: self.options.version,
            canonicalizer: self.canonicalizer,
        }
    }

    /// Whether an item at a place is one of those that may have lines. `canonical` is a buffer that may be overwritten.
    fn selects(
        &self,
        place: Place,
        item: &Item,
        canonical: &mut Vec<u8>,
    ) -> Result<bool, PrintError>
        ensures selected { IfOk result (λ selected. selected
            ≡ is_selected self.now.options.now place item.now) }
        ensures lack { IfErr result (IsLack (IsLong self.now.options.now.version item.now)) }
    {
        if !is_in_range(self.options, place.index) {
            return Ok(false);
        }
        let payloads = self.payloads();
        let matcher = Matcher {
            payloads: &payloads,
            words: self.options.words,
        };
        matcher.matches(place, item, canonical)
    }
}

/// The lines of items, and what all items so far have given.
#[derive(Drop)]
struct Lines {
    text: Vec<u8>,
    /// Where the next item begins.
    offset: u128,
    /// The index of the next item.
    index: u128,
    /// The number of commands before the next item.
    commands: u128,
    waiting: Waiting,
    /// Buffers that are reused for each item.
    scratch: Scratch,
}

impl Lines {
    /// Those of no item.
    fn new(alloc: Global) -> Lines
        ensures known { known_by result ≡ nothing_known }
        ensures place { result.offset ≡ 0 }
        ensures counted { AreCounted result }
    {
        Lines {
            text: Vec::new(alloc),
            offset: 0,
            index: 0,
            commands: 0,
            waiting: Waiting::new(alloc),
            scratch: Scratch::new(alloc),
        }
    }

    /// Adds the lines of the items that were read. Returns the message after them, if it is longer than the limit.
    fn add_held<C: Canonicalizer>(
        &mut self,
        showing: &Showing<'_, C>,
        items: &mut ItemBuffer,
    ) -> Result<Option<MessageTooLong>, PrintError>
        requires version { items.old.decoder.version ≡ showing.now.options.now.version }
        requires accepted { items.old.decoder.rejected ≡ None }
        requires placed { items.old.decoder.offset ≡ offset_after 0 self.old.offset }
        requires room { self.old.offset + length (held_in items.old).bytes < 2 ^ 128 }
        requires counted { AreCounted self.old }
        ensures added { IfOk result (λ longer. (rest : List ℕ) × Added showing.now.options.now items.old.decoder.limit
            self.old.offset (known_by self.old) self.old.text.items (held_in items.old).bytes self.new.offset
            (known_by self.new) self.new.text.items rest
            × IsAfter items.old.decoder.version items.old.decoder.limit longer self.new.offset rest
            (held_in items.new)) }
        ensures counted { IfOk result (λ longer. AreCounted self.new) }
        ensures lack { IfErr result (IsLack (IsLongIn (IsLong showing.now.options.now.version)
            items.old.decoder.version (held_in items.old).bytes)) }
    {
        loop {
            match items.take_with_word() {
                Ok(Some((_, item))) => self.add(showing, &item)?,
                Ok(None) => return Ok(None),
                Err(ReadError::TooLong(message)) => return Ok(Some(message)),
                Err(_) => return Err(PrintError::OutOfMemory),
            }
        }
    }

    /// Adds the line of an item.
    fn add<C: Canonicalizer>(
        &mut self,
        showing: &Showing<'_, C>,
        item: &Item,
    ) -> Result<(), PrintError>
        requires room { self.old.offset + item_size item.now < 2 ^ 128 }
        requires counted { AreCounted self.old }
        ensures line { OnOk result (self.new.text.items
            ≡ self.old.text.items ++ line_of showing.now.options.now (known_by self.old) item.now) }
        ensures known { OnOk result (known_by self.new
            ≡ then_known showing.now.options.now (known_by self.old) item.now) }
        ensures place { OnOk result (self.new.offset ≡ self.old.offset + item_size item.now) }
        ensures counted { OnOk result (AreCounted self.new) }
        ensures lack { IfErr result (IsLack (IsLong showing.now.options.now.version item.now)) }
    {
        let place = Place {
            index: self.index,
            command: self.commands,
            offset: self.offset,
        };
        let facts = write_name(&showing.payloads(), self.index, item, &mut self.scratch)?;
        let is_selected = showing.selects(place, item, &mut self.scratch.canonical)?;
        self.join(&facts, is_selected)?;
        if has_line(showing.options, is_selected, &facts) {
            self.push_line()?;
        }
        self.count(&facts, item.size() as u128);
        Ok(())
    }

    /// Counts an item of this size.
    fn count(&mut self, facts: &Facts, size: u128)
        requires room { self.old.offset + size < 2 ^ 128 }
        requires sized { 1 ≤ size }
        requires counted { AreCounted self.old }
        ensures place { place_of self.new ≡ place_after facts.now size (place_of self.old) }
        ensures counted { AreCounted self.new }
        ensures waiting { self.new.waiting ≡ self.old.waiting }
        ensures text { self.new.text ≡ self.old.text }
    {
        if facts.is_command() {
            self.commands += 1;
        }
        self.index += 1;
        self.offset += size;
    }

    /// Overwrites what the line says of the other halves of the item whose name is there.
    fn join(&mut self, facts: &Facts, is_selected: bool) -> Result<(), AllocError>
        ensures joined { OnOk result (string_bytes self.new.scratch.joining.joined
            ≡ joins is_selected (waiting_of self.old) facts.now (string_bytes self.old.scratch.name)) }
        ensures waiting { OnOk result (waiting_of self.new
            ≡ waiting_then is_selected (waiting_of self.old) facts.now (string_bytes self.old.scratch.name)) }
        ensures name { self.new.scratch.name ≡ self.old.scratch.name }
        ensures text { self.new.text ≡ self.old.text }
        ensures place { place_of self.new ≡ place_of self.old }
    {
        let Scratch { name, joining, .. } = &mut self.scratch;
        let item = Named {
            is_selected,
            text: name.as_str(),
        };
        self.waiting.join_item(facts, item, joining)
    }

    /// Adds the line of the item whose parts are there.
    fn push_line(&mut self) -> Result<(), AllocError>
        ensures text { OnOk result (self.new.text.items ≡ self.old.text.items
            ++ (string_bytes self.old.scratch.name ++ (string_bytes self.old.scratch.joining.joined ++ codes "\n"))) }
        ensures waiting { self.new.waiting ≡ self.old.waiting }
        ensures place { place_of self.new ≡ place_of self.old }
    {
        self.text.extend_from_slice(self.scratch.name.as_bytes())?;
        self.text
            .extend_from_slice(self.scratch.joining.joined.as_bytes())?;
        self.text.extend_from_slice(b"\n")
    }

    /// Adds the last lines.
    fn add_last(&mut self, options: &Options<'_>) -> Result<(), AllocError>
        ensures text { OnOk result (self.new.text.items ≡ self.old.text.items
            ++ last_lines options.now (known_by self.old)) }
        ensures offset { self.new.offset ≡ self.old.offset }
    {
        if options.failures {
            return Ok(());
        }
        self.waiting.push_open(&mut self.text)
    }
}

/// Whether an item of this index is one of those that may have lines.
fn is_in_range(options: &Options<'_>, index: u128) -> bool
    ensures { result ≡ is_in_range options.now index }
{
    u128::from(options.from) <= index && index <= u128::from(options.to)
}

/// Whether an item has a line, if it may have one.
fn has_line(options: &Options<'_>, is_selected: bool, facts: &Facts) -> bool
    ensures { result ≡ has_line options.now is_selected facts.now }
{
    is_selected
        && (!options.commands || facts.is_command())
        && (!options.failures || facts.is_failure)
        && !options.open
}
