//! Where in a text its next character is.
//!
//! A place tells which characters may come next. A character leads from one place to another, and may complete a byte.

ghost use Rattle.std.specs.Prelude.{◌≡◌, ◌+◌, ◌*◌, ◌%◌, ◌≤◌};
ghost use Rattle.hex.specs.Hex.{hex_digit_value};
ghost use Rattle.encoded_input.specs.Text.{after_blank, after_digit, after_sign, after_text, after_value};
ghost use Rattle.encoded_input.specs.Text.{at as at_place, digit_at, failed as failed_at, fault_at, fault_before};
ghost use Rattle.encoded_input.specs.Text.{base64_digit_value, given as given_at, is_blank as is_blank_at};
ghost use Rattle.encoded_input.specs.Text.{step_of};

use crate::fault::Fault;

/// Where in a text its next character is. The bits of digits that are in no byte yet are here, as a number.
#[derive(Clone, Copy, Debug, PartialEq, Eq, Drop)]
pub enum Place {
    /// Before hexadecimal digits, or before the prefix of these.
    Hex,
    /// After a first `0`, which is a digit unless an `x` follows at once.
    Zero,
    /// After a backslash, which an `x` follows at once.
    Backslash,
    /// Before the first digit of a byte.
    High,
    /// Before its second digit, after the first one.
    Low(u8),
    /// Before the first digit of a group of base64.
    First,
    /// Before the second digit, after six bits.
    Second(u8),
    /// Before the third digit or `==`, after a byte and four bits.
    Third(u8),
    /// Before the fourth digit or `=`, after two bytes and two bits.
    Fourth(u8),
    /// After the first of two `=`.
    Padding,
    /// After the last `=`.
    End,
    /// After a fault, at which it stays.
    Failed(Fault),
}

/// What a character leads to.
#[derive(Clone, Copy, Drop)]
pub struct Step {
    /// The next place.
    pub place: Place,
    /// The byte that is complete.
    pub byte: Option<u8>,
}

/// The place, and no byte is complete.
fn at(place: Place) -> Step
    ensures { result ≡ at_place place }
{
    Step { place, byte: None }
}

/// The place, after a byte.
fn given(place: Place, byte: u8) -> Step
    ensures { result ≡ given_at place byte }
{
    Step {
        place,
        byte: Some(byte),
    }
}

/// What a character leads to that may not come at the place: a fault, unless there was one before.
fn failed(place: Place, offset: u64) -> Step
    ensures { result ≡ failed_at place offset }
{
    match place {
        Place::Failed(_) => at(place),
        _ => at(Place::Failed(Fault::Character(offset))),
    }
}

/// The byte of bits before others, for which `scale` leaves room.
fn joined(bits: u8, scale: u16, others: u8) -> u8
    requires { scale ≤ 64 }
    ensures { result ≡ (bits * scale + others) % 256 }
{
    ((bits as u16 * scale + others as u16) % 256) as u8
}

/// Whether a character is a space, a tabulator or an end of a line.
fn is_blank(c: u8) -> bool
    ensures { result ≡ is_blank_at c }
{
    c == b' ' || c == b'\t' || c == b'\n' || c == b'\r'
}

/// The value of a hexadecimal digit.
fn hex_value(c: u8) -> Option<u8>
    ensures { result ≡ hex_digit_value c }
{
    match c {
        b'A'..=b'F' => Some(c - 55),
        b'a'..=b'f' => Some(c - 87),
        b'0'..=b'9' => Some(c - 48),
        _ => None,
    }
}

/// The value of a digit of base64, of the standard alphabet or of that for URLs.
fn base64_value(c: u8) -> Option<u8>
    ensures { result ≡ base64_digit_value c }
{
    match c {
        b'A'..=b'Z' => Some(c - 65),
        b'a'..=b'z' => Some(c - 71),
        b'0'..=b'9' => Some(c + 4),
        b'+' | b'-' => Some(62),
        b'/' | b'_' => Some(63),
        _ => None,
    }
}

/// The value of a character where a digit may come.
fn value_at(place: Place, c: u8) -> Option<u8>
    ensures { result ≡ digit_at place c }
{
    match place {
        Place::Hex | Place::Zero | Place::High | Place::Low(_) => hex_value(c),
        Place::First | Place::Second(_) | Place::Third(_) | Place::Fourth(_) => base64_value(c),
        _ => None,
    }
}

/// What a digit of this value leads to.
fn after_digit(place: Place, offset: u64, value: u8) -> Step
    ensures { result ≡ after_digit place offset value }
{
    match place {
        Place::Hex | Place::High => at(Place::Low(value)),
        Place::Zero => given(Place::High, value),
        Place::Low(high) => given(Place::High, joined(high, 16, value)),
        Place::First => at(Place::Second(value)),
        Place::Second(bits) => given(Place::Third(value % 16), joined(bits, 4, value / 16)),
        Place::Third(bits) => given(Place::Fourth(value % 4), joined(bits, 16, value / 4)),
        Place::Fourth(bits) => given(Place::First, joined(bits, 64, value)),
        _ => failed(place, offset),
    }
}

/// What a digit leads to, or a character that is none.
fn after_value(place: Place, offset: u64, value: Option<u8>) -> Step
    ensures { result ≡ after_value place offset value }
{
    match value {
        Some(value) => after_digit(place, offset, value),
        None => failed(place, offset),
    }
}

/// What a blank leads to. It may be anywhere in a text, except within the prefix.
fn after_blank(place: Place, offset: u64) -> Step
    ensures { result ≡ after_blank place offset }
{
    match place {
        Place::Zero => at(Place::Low(0)),
        Place::Backslash => failed(place, offset),
        _ => at(place),
    }
}

/// Where a sign leads: a character of a prefix or padding.
fn after_sign(place: Place, c: u8) -> Option<Place>
    ensures { result ≡ after_sign place c }
{
    match place {
        Place::Hex if c == b'\\' => Some(Place::Backslash),
        Place::Hex if c == b'0' => Some(Place::Zero),
        Place::Zero | Place::Backslash if c == b'x' || c == b'X' => Some(Place::High),
        Place::Third(0) if c == b'=' => Some(Place::Padding),
        Place::Fourth(0) | Place::Padding if c == b'=' => Some(Place::End),
        _ => None,
    }
}

/// What a character leads to, other than a blank: a sign or a digit.
fn after_text(place: Place, offset: u64, c: u8) -> Step
    ensures { result ≡ after_text place offset c (after_sign place c) }
{
    match after_sign(place, c) {
        Some(next) => at(next),
        None => after_value(place, offset, value_at(place, c)),
    }
}

/// What the character at an offset leads to.
pub fn next_step(place: Place, offset: u64, c: u8) -> Step
    ensures { result ≡ step_of place offset c }
{
    if is_blank(c) {
        return after_blank(place, offset);
    }
    after_text(place, offset, c)
}

/// What is wrong with a text that ends at a place and offset: it had a fault, a byte is begun, or bits that are in no
/// byte are not zeros of base64.
pub fn end_fault(place: Place, offset: u64) -> Option<Fault>
    ensures { result ≡ fault_at place offset }
{
    match place {
        Place::Failed(fault) => Some(fault),
        Place::Hex | Place::High | Place::First | Place::End => None,
        Place::Third(0) | Place::Fourth(0) => None,
        _ => Some(Fault::End(offset)),
    }
}

/// The fault that a text had before a place.
pub fn past_fault(place: Place) -> Option<Fault>
    ensures { result ≡ fault_before place }
{
    match place {
        Place::Failed(fault) => Some(fault),
        _ => None,
    }
}
