//! How far a text is decoded.

ghost use Rattle.std.specs.Prelude.{◌≡◌, ◌+◌, ◌<◌, ◌≤◌, ◌++◌, length, take, drop};
ghost use Rattle.encoded_input.specs.Text.{decoded, end_fault, ended, first_place, next_byte, next_position};
ghost use Rattle.encoded_input.specs.Text.{past_fault, position_after};

use crate::encoding::Encoding;
use crate::fault::Fault;
use crate::place::{Place, end_fault, next_step, past_fault};

/// How far a text is decoded: where its next character is, and at which offset.
#[derive(Clone, Copy, Debug, PartialEq, Eq, Drop)]
pub struct Position {
    place: Place,
    /// How many characters are read. It stays at the greatest number of 64 bits.
    offset: u64,
}

impl Position {
    /// The beginning of a text.
    pub fn new(encoding: Encoding) -> Position
        ensures { result ≡ record { place = first_place encoding; offset = 0 } }
    {
        Position {
            place: match encoding {
                Encoding::Hex => Place::Hex,
                Encoding::Base64 => Place::First,
            },
            offset: 0,
        }
    }

    /// Reads a character, and returns the byte that is complete with it.
    pub fn push(&mut self, c: u8) -> Option<u8>
        ensures byte { result ≡ next_byte self.old c }
        ensures position { self.new ≡ next_position self.old c }
    {
        let step = next_step(self.place, self.offset, c);
        self.place = step.place;
        self.offset = self.offset.saturating_add(1);
        step.byte
    }

    /// What is wrong with the text if it ends here.
    pub fn end_fault(&self) -> Option<Fault>
        ensures { result ≡ end_fault self.now }
    {
        end_fault(self.place, self.offset)
    }

    /// The fault that the text had before.
    pub fn past_fault(&self) -> Option<Fault>
        ensures { result ≡ past_fault self.now }
    {
        past_fault(self.place)
    }

    /// Ends the text, and returns what is wrong with it. That stays.
    pub fn end(&mut self) -> Option<Fault>
        ensures fault { result ≡ end_fault self.old }
        ensures position { self.new ≡ ended self.old (end_fault self.old) }
    {
        let fault = self.end_fault();
        if let Some(fault) = fault {
            self.place = Place::Failed(fault);
        }
        fault
    }

    /// Decodes a text in its place, and returns how many bytes it means, which are then its first ones.
    pub fn decode(&mut self, text: &mut [u8]) -> usize
        ensures few { result ≤ length text.new }
        ensures same { length text.new ≡ length text.old }
        ensures bytes { take result text.new ≡ decoded self.old text.old }
        ensures position { self.new ≡ position_after self.old text.old }
    {
        let mut given = 0;
        for index in 0..text.len() {
            given = self.decode_one(text, index, given);
        }
        given
    }

    /// Decodes the first bytes of a buffer in their place, this many, and returns how many bytes they mean.
    pub fn decode_front(&mut self, buf: &mut [u8], count: usize) -> usize
        requires within { count ≤ length buf.old }
        ensures few { result ≤ count }
        ensures same { length buf.new ≡ length buf.old }
        ensures bytes { take result buf.new ≡ decoded self.old (take count buf.old) }
        ensures position { self.new ≡ position_after self.old (take count buf.old) }
    {
        self.decode(&mut buf[..count])
    }

    /// Decodes the character at an index, after this many bytes, and returns how many there are then.
    fn decode_one(&mut self, text: &mut [u8], index: usize, given: usize) -> usize
        requires within { index < length text.old }
        requires before { given ≤ index }
        ensures few { result ≤ index + 1 }
        ensures same { length text.new ≡ length text.old }
        ensures bytes { take given text.old ++ decoded self.old (drop index text.old)
            ≡ take result text.new ++ decoded self.new (drop (index + 1) text.new) }
        ensures position { position_after self.old (drop index text.old)
            ≡ position_after self.new (drop (index + 1) text.new) }
    {
        match self.push(text[index]) {
            Some(byte) => {
                text[given] = byte;
                given + 1
            }
            None => given,
        }
    }
}
