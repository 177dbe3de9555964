//! A reader of the bytes that another reader has, as they are or as text.

ghost use Rattle.std.specs.Prelude.{◌≡◌, ◌<◌, ◌≤◌, length, None, Some, Ok, IfOk, IfSome};
ghost use Rattle.std.specs.Io.{ReadsAtMost};
ghost use Rattle.std.specs.Io.KnownBytes.{IsAtEnd, ReadConsumes};
ghost use Rattle.encoded_input.specs.Known.{bytes_left, decoded_known, fault_known, fault_left, first_position};
ghost use Rattle.encoded_input.specs.Known.{input_end_fault, input_past_fault, IsFault, ReadGives, SameFault};
ghost use Rattle.encoded_input.specs.Text.{end_fault};

use crate::encoding::Encoding;
use crate::fault::Fault;
use crate::position::Position;
use std::io::{self, ErrorKind, Read};

/// A reader of the bytes that another reader has: as they are, or as text.
///
/// A text is decoded in the memory that a caller reads into. The bytes before its first fault are given. Then each read
/// fails with `InvalidData`, and `fault` returns the fault. A read that gives no byte for 2^64 reads has timed out.
#[derive(Drop)]
pub struct Decoded<R> {
    reader: R,
    /// How far the text is decoded, if it is text.
    position: Option<Position>,
}

impl<R> Decoded<R> {
    /// Reads from this reader, which has text of this encoding, or else the bytes.
    pub fn new(reader: R, encoding: Option<Encoding>) -> Decoded<R>
        ensures reader { result.reader ≡ reader }
        ensures position { result.position ≡ first_position encoding }
    {
        Decoded {
            reader,
            position: encoding.map(Position::new),
        }
    }

    /// The fault of the text, once a read has failed for it.
    pub fn fault(&self) -> Option<Fault>
        ensures { result ≡ input_past_fault self.now.position }
    {
        self.position.as_ref()?.past_fault()
    }
}

impl<R: Read> Read for Decoded<R> {
    ghost remaining = { bytes_left R.remaining };

    fn read(&mut self, buf: &mut [u8]) -> io::Result<usize>
        ensures bound { ReadsAtMost result buf.new }
        ensures bytes { ReadConsumes (bytes_left R.remaining self.old) (bytes_left R.remaining self.new)
            result buf.new }
        // what is wrong with a text that is known stays the same
        ensures same { SameFault (fault_left R.remaining self.old) (fault_left R.remaining self.new) }
        // it is what `fault` returns
        ensures fault { IfSome (input_past_fault self.new.position)
            (λ fault. IsFault (fault_left R.remaining self.old) (Some fault)) }
        // the end comes only of a text that is all read and has no fault
        ensures all { result ≡ Ok 0 → 0 < length buf.new → IsAtEnd (R.remaining self.new.reader) }
        ensures end { result ≡ Ok 0 → 0 < length buf.new → input_end_fault self.new.position ≡ None }
        ensures sound { result ≡ Ok 0 → 0 < length buf.new → IsFault (fault_left R.remaining self.old) None }
    {
        match &mut self.position {
            Some(position) => read_decoded(&mut self.reader, position, buf),
            None => self.reader.read(buf),
        }
    }
}

/// Reads text, and decodes it in the buffer. Returns how many bytes it means; none with room are the end of the text.
fn read_decoded<R: Read>(
    reader: &mut R,
    position: &mut Position,
    buf: &mut [u8],
) -> io::Result<usize>
    ensures bound { ReadsAtMost result buf.new }
    ensures bytes { ReadConsumes (decoded_known position.old (R.remaining reader.old))
        (decoded_known position.new (R.remaining reader.new)) result buf.new }
    ensures same { SameFault (fault_known position.old (R.remaining reader.old))
        (fault_known position.new (R.remaining reader.new)) }
    ensures all { result ≡ Ok 0 → 0 < length buf.new → IsAtEnd (R.remaining reader.new) }
    ensures end { result ≡ Ok 0 → 0 < length buf.new → end_fault position.new ≡ None }
{
    for _ in 0..u64::MAX {
        if let Some(count) = read_once(reader, position, buf)? {
            return Ok(count);
        }
    }
    Err(io::Error::from(ErrorKind::TimedOut))
}

/// Reads text once, and decodes it in the buffer. Returns how many bytes it means, or `None` if it completes none and
/// more text may come.
fn read_once<R: Read>(
    reader: &mut R,
    position: &mut Position,
    buf: &mut [u8],
) -> io::Result<Option<usize>>
    ensures length { length buf.new ≡ length buf.old }
    ensures bound { IfOk result (λ count. IfSome count (λ count. count ≤ length buf.new)) }
    ensures bytes { ReadGives (decoded_known position.old (R.remaining reader.old))
        (decoded_known position.new (R.remaining reader.new)) result buf.new }
    ensures same { SameFault (fault_known position.old (R.remaining reader.old))
        (fault_known position.new (R.remaining reader.new)) }
    ensures all { result ≡ Ok (Some 0) → 0 < length buf.new → IsAtEnd (R.remaining reader.new) }
    ensures end { result ≡ Ok (Some 0) → 0 < length buf.new → end_fault position.new ≡ None }
{
    if buf.is_empty() {
        return Ok(Some(0));
    }
    if position.past_fault().is_some() {
        return Err(io::Error::from(ErrorKind::InvalidData));
    }
    let count = reader.read(buf)?;
    if count == 0 {
        return match position.end() {
            Some(_) => Err(io::Error::from(ErrorKind::InvalidData)),
            None => Ok(Some(0)),
        };
    }
    let given = position.decode_front(buf, count);
    if given == 0 {
        return Ok(None);
    }
    Ok(Some(given))
}
