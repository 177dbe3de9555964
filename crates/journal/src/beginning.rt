//! How an input begins, for a hint if it is not a stream: the lines of a dump, compressed, or the text of a stream.
//!
//! It is found out by a reader around the input, in a cell. No contract can speak of a cell: it is tested.

ghost use Rattle.std.specs.Prelude.{◌≡◌};
ghost use Rattle.std.specs.Process.{exit_status};
ghost use Rattle.journal.specs.Statuses.{written_status};

use crate::call::Call;
use command_line::note;
use shared_core_base::version::Version;
use std::cell::Cell;
use std::io::{self, Read};
use std::process::ExitCode;
use stream_lines::Report;

/// How many of the first bytes are kept: those of the first header.
const SIZE: usize = 8;

/// The status if a stream has no message.
const LACKING: u8 = 1;

/// How the lines of a dump begin. In a stream this would be the code of a custom entry, like all below.
const DUMP: &[u8] = b"{\"";

/// How a file of gzip begins.
const GZIP: &[u8] = &[0x1F, 0x8B];

/// The first bytes of an input, as far as they are read.
#[derive(Drop)]
pub struct Beginning {
    first: Cell<[u8; SIZE]>,
    /// How many of them are read.
    read: Cell<usize>,
}

impl Beginning {
    /// That of an input of which nothing is read yet.
    pub fn new() -> Beginning {
        Beginning {
            first: Cell::new([0; SIZE]),
            read: Cell::new(0),
        }
    }

    /// Reports that no item comes before the trailing bytes: the stream may be something else.
    pub fn report_no_message(&self, call: &Call<'_>, version: Version) {
        let version = version.number();
        note(
            call.rt,
            call.name,
            format_args!("no message in it; is it a journal of version {version}?"),
        );
        self.report_hint(call);
    }

    /// Reports the trailing bytes after a stream was written, and returns the status. It is not that of success if no
    /// item comes before them.
    pub fn end_written(&self, call: &Call<'_>, version: Version, found: &Report) -> ExitCode
        ensures { exit_status result ≡ written_status found.now }
    {
        let (offset, count) = (found.end, found.rest);
        if count == 0 {
            return ExitCode::SUCCESS;
        }
        call.report_rest(offset, count);
        if offset > 0 {
            return ExitCode::SUCCESS;
        }
        self.report_no_message(call, version);
        ExitCode::from(LACKING)
    }

    /// Reports what the input seems to be, if it is known how a stream is made of it.
    pub fn report_hint(&self, call: &Call<'_>) {
        let first = self.first.get();
        if let Some(text) = hint(first.get(..self.read.get()).unwrap_or(&[])) {
            call.note(text);
        }
    }

    /// Keeps bytes that are read.
    fn note(&self, bytes: &[u8]) {
        let mut first = self.first.get();
        let mut read = self.read.get();
        for byte in bytes.iter().take(SIZE) {
            if let Some(place) = first.get_mut(read) {
                *place = *byte;
                read = read.saturating_add(1);
            }
        }
        self.first.set(first);
        self.read.set(read);
    }
}

/// What an input with these first bytes seems to be, if it is known how a stream is made of it.
fn hint(first: &[u8]) -> Option<&'static str> {
    if first.starts_with(DUMP) {
        return Some("this is a dump; journal make turns it into a stream");
    }
    if first.starts_with(GZIP) {
        return Some("this is compressed; gzip -dc turns it into a stream");
    }
    if first.len() < SIZE {
        return None;
    }
    // a header has zeros, which are the digit 0, and the letter A in base64
    let digits = after_prefix(first);
    if digits.iter().all(|byte| byte.is_ascii_hexdigit()) && digits.contains(&b'0') {
        return Some("this looks like hexadecimal digits; --input hex reads them");
    }
    if first.iter().all(|byte| is_base64(*byte)) {
        return Some("this looks like base64; --input base64 reads it");
    }
    None
}

/// The bytes after what may stand before hexadecimal digits, `0x` or `\x`.
fn after_prefix(first: &[u8]) -> &[u8] {
    let after = first.strip_prefix(b"0x").or(first.strip_prefix(b"\\x"));
    after.unwrap_or(first)
}

/// Whether a byte is a digit of base64.
fn is_base64(byte: u8) -> bool {
    byte.is_ascii_alphanumeric() || byte == b'+' || byte == b'/'
}

/// A reader whose beginning is kept. It reads what the reader in it does.
#[derive(Drop)]
pub struct Begun<'a, R> {
    reader: R,
    beginning: &'a Beginning,
}

impl<'a, R> Begun<'a, R> {
    /// Reads from this reader.
    pub fn new(reader: R, beginning: &'a Beginning) -> Begun<'a, R> {
        Begun { reader, beginning }
    }
}

impl<'a, R: Read> Read for Begun<'a, R> {
    ghost remaining = { λ begun. R.remaining begun.reader };

    fn read(&mut self, buf: &mut [u8]) -> io::Result<usize> {
        let read = self.reader.read(buf);
        if let Ok(count) = &read {
            self.beginning.note(buf.get(..*count).unwrap_or(&[]));
        }
        read
    }
}
