//! Inputs that may be text, and the value of the option `--input`.

ghost use Rattle.std.specs.Prelude.{◌≡◌, ◌<◌, length, None, Ok};
ghost use Rattle.std.specs.Io.{ReadsAtMost};
ghost use Rattle.std.specs.Io.KnownBytes.{ReadConsumes};
ghost use Rattle.clap.specs.Matches.{found_of};
ghost use Rattle.encoded_input.specs.Known.{first_position, IsFault, SameFault};
ghost use Rattle.command_line.specs.Decoding.{fault_to_read, left_to_read};
ghost use Rattle.command_line.specs.Input.{IsEncodingOf};

use crate::note;
use crate::progress::{Progress, Watched};
use clap::ArgMatches;
use encoded_input::{Decoded, Encoding};
use std::io::{self, Read};

/// What the option `--input` says: `hex`, `base64`, or else that the input is not text.
pub fn encoding_of(matches: &ArgMatches<'_>) -> Option<Encoding>
    ensures { IsEncodingOf (found_of matches.now) result }
{
    match matches.get_str("input") {
        Some("hex") => Some(Encoding::Hex),
        Some("base64") => Some(Encoding::Base64),
        _ => None,
    }
}

/// A reader whose progress is shown, and which is decoded if it is text. The fault of a text is reported once, on the
/// standard error, with the path of the file. What reads on then has no more to say of it.
#[derive(Drop)]
pub struct Decoding<'a, R> {
    decoded: Decoded<Watched<'a, R>>,
    path: &'a str,
    progress: &'a Progress<'a>,
    is_reported: bool,
}

impl<'a, R> Decoding<'a, R> {
    /// Reads from this reader, that of a path, which has text of this encoding, or else the bytes.
    pub fn new(
        reader: R,
        path: &'a str,
        encoding: Option<Encoding>,
        progress: &'a Progress<'a>,
    ) -> Decoding<'a, R>
        ensures reader { result.decoded.reader.reader ≡ reader }
        ensures position { result.decoded.position ≡ first_position encoding }
    {
        Decoding {
            decoded: Decoded::new(Watched::new(reader, progress), encoding),
            path,
            progress,
            is_reported: false,
        }
    }

    /// Reports the fault of the text, once.
    fn report(&mut self)
        ensures { self.new ≡ record self.old { is_reported = self.new.is_reported } }
    {
        if let Some(fault) = self.decoded.fault()
            && !self.is_reported
        {
            self.is_reported = true;
            let path = self.path;
            self.progress.report(format_args!("{path}: {fault}"));
        }
    }
}

impl<'a, R: Read> Read for Decoding<'a, R> {
    ghost remaining = { left_to_read R.remaining };

    fn read(&mut self, buf: &mut [u8]) -> io::Result<usize>
        ensures bound { ReadsAtMost result buf.new }
        ensures bytes { ReadConsumes (left_to_read R.remaining self.old) (left_to_read R.remaining self.new)
            result buf.new }
        // what is wrong with a text that is known stays the same, and the end comes only if there is nothing
        ensures same { SameFault (fault_to_read R.remaining self.old) (fault_to_read R.remaining self.new) }
        ensures sound { result ≡ Ok 0 → 0 < length buf.new → IsFault (fault_to_read R.remaining self.old) None }
    {
        let read = self.decoded.read(buf);
        if read.is_err() {
            self.report();
        }
        read
    }
}
