//! What a line says of its bytes.

ghost use Rattle.std.specs.Prelude.{◌≡◌, ◌++◌, decimal, length, OnOk};
ghost use Rattle.std.specs.String.{string_bytes};
ghost use Rattle.explain_lines.specs.Texts.{field_text, fixed_wire, flags_text, group_start_text, group_end_text};
ghost use Rattle.explain_lines.specs.Texts.{header_text, kind_seen};
ghost use Rattle.explain_lines.specs.Texts.{low_first_text};
ghost use Rattle.explain_lines.specs.Texts.{ack_text, after_space, dots, exceeds, front, low_text, piece_text};
ghost use Rattle.explain_lines.specs.Texts.{quoted_text};
ghost use Rattle.explain_lines.specs.Texts.{reading_text};
ghost use Rattle.explain_lines.specs.Texts.{field_name as name_of_field};

use crate::columns::hex_digit;
use itoa::Buffer;
use shared_core_codec::rows::Kind;
use shared_core_json::names::name_of;
use shared_core_wire::varint::low_32;
use std::alloc::{AllocError, Global};
use terminal_text::{Escapes, push_escaped};

/// The most bytes of a text or of bytes that a line shows.
const MOST_SHOWN: usize = 40;

/// A field of the message of a schema, by its number.
#[derive(Clone, Copy, Drop)]
pub struct FieldAt {
    pub schema: u32,
    pub number: u32,
}

/// What the bytes of a line are.
#[derive(Clone, Copy)]
pub enum Piece<'a> {
    /// A header with this word, and whether its message requests an acknowledgement.
    Header(u64, bool),
    /// A part of a header.
    CutHeader,
    /// A record that is a varint: its field, its number, and the field's kind if it is known.
    Number(FieldAt, u64, Option<Kind>),
    /// A record of four or eight bytes, which are these.
    Fixed(FieldAt, &'a [u8]),
    /// The key and the length of a record, before a number of bytes, and what these are.
    Length(FieldAt, usize, &'static str),
    /// The key by which a group begins.
    GroupStart(FieldAt),
    /// The key by which a group ends.
    GroupEnd(FieldAt),
    /// A text, or bytes that may be one.
    Quoted(&'a [u8]),
    /// A number of a packed field.
    Element(u64),
    /// What is after a fault, and is not explained.
    Rest,
}

/// Appends what a line says.
#[tactic(auto, using(crate::proofs::Shown::appended))]
pub fn push_piece(alloc: Global, text: &mut String, piece: Piece<'_>) -> Result<(), AllocError>
    ensures { OnOk result (string_bytes text.new ≡ string_bytes text.old ++ piece_text piece.entry) }
{
    match piece {
        Piece::Header(word, asks) => push_header(text, word, asks),
        Piece::CutHeader => text.push_str("a part of a header"),
        Piece::Number(field, number, kind) => {
            push_field(text, field, 0)?;
            text.push_str(": ")?;
            push_number(text, number)?;
            push_reading(text, number, kind)
        }
        Piece::Fixed(field, bytes) => {
            push_field(text, field, wire_of(bytes))?;
            text.push_str(": 0x")?;
            push_low_first(text, bytes)
        }
        Piece::Length(field, size, what) => {
            push_field(text, field, 2)?;
            text.push_str(", length ")?;
            push_number(text, size as u64)?;
            text.push_str(": ")?;
            text.push_str(what)
        }
        Piece::GroupStart(field) => push_group(text, field),
        Piece::GroupEnd(field) => push_group_end(text, field),
        Piece::Quoted(bytes) => push_quoted(alloc, text, bytes),
        Piece::Element(number) => push_number(text, number),
        Piece::Rest => text.push_str("not explained"),
    }
}

/// Appends a number. A format takes several times as long.
fn push_number(text: &mut String, number: u64) -> Result<(), AllocError>
    ensures { OnOk result (string_bytes text.new ≡ string_bytes text.old ++ decimal number) }
{
    let mut buffer = Buffer::new();
    text.push_str(buffer.format(number))
}

/// Appends the parts of a header.
#[tactic(auto, unfolding(crate::specs::Texts::header_text))]
fn push_header(text: &mut String, word: u64, asks: bool) -> Result<(), AllocError>
    ensures { OnOk result (string_bytes text.new ≡ string_bytes text.old ++ header_text word asks) }
{
    let code = word / 0x1_0000_0000_0000;
    write!(text, "type 0x{code:x}")?;
    push_flags(text, word / 0x1_0000_0000 % 0x1_0000)?;
    text.push_str(ack_words(asks))?;
    text.push_str(", length ")?;
    push_number(text, u64::from(low_32(word)))
}

/// What a header has of a request for an acknowledgement.
fn ack_words(asks: bool) -> &'static str
    ensures { result.now ≡ ack_text asks }
{
    if asks {
        ", acknowledgement requested"
    } else {
        ""
    }
}

/// Appends the flags of a header, if one is set.
fn push_flags(text: &mut String, flags: u64) -> Result<(), AllocError>
    ensures { OnOk result (string_bytes text.new ≡ string_bytes text.old ++ flags_text flags) }
{
    if flags == 0 {
        return Ok(());
    }
    write!(text, ", flags 0x{flags:x}")
}

/// Appends a field's number and its name, and a wire type.
#[tactic(auto, unfolding(crate::specs::Texts::field_text))]
fn push_field(text: &mut String, field: FieldAt, wire: u8) -> Result<(), AllocError>
    ensures { OnOk result (string_bytes text.new ≡ string_bytes text.old ++ field_text field wire) }
{
    text.push_str("field ")?;
    push_number(text, u64::from(field.number))?;
    push_after_space(text, name_of(field.schema, field.number))?;
    text.push_str(", wire type ")?;
    push_number(text, u64::from(wire))
}

/// Appends a name after a space, if it is not empty.
fn push_after_space(text: &mut String, name: &str) -> Result<(), AllocError>
    ensures { OnOk result (string_bytes text.new ≡ string_bytes text.old ++ after_space name.now) }
{
    if name.len() == 0 {
        return Ok(());
    }
    text.push_str(" ")?;
    text.push_str(name)
}

/// Appends a field's name, or its number if its schema does not have it.
pub fn push_name(text: &mut String, field: FieldAt) -> Result<(), AllocError>
    ensures { OnOk result (string_bytes text.new ≡ string_bytes text.old ++ name_of_field field) }
{
    let name = name_of(field.schema, field.number);
    if name.len() == 0 {
        push_number(text, u64::from(field.number))
    } else {
        text.push_str(name)
    }
}

/// Appends what a field of a kind, if it is known, has of a number that is not the number itself.
fn push_reading(text: &mut String, number: u64, kind: Option<Kind>) -> Result<(), AllocError>
    ensures { OnOk result (string_bytes text.new ≡ string_bytes text.old ++ reading_text number (kind_seen kind)) }
{
    match kind {
        Some(Kind::Boolean) => text.push_str(if number == 0 { ", false" } else { ", true" }),
        Some(Kind::U32) => push_low(text, number),
        Some(Kind::Enumeration) => push_low(text, number),
        _ => Ok(()),
    }
}

/// Appends what is said of the key by which a group begins.
fn push_group(text: &mut String, field: FieldAt) -> Result<(), AllocError>
    ensures { OnOk result (string_bytes text.new ≡ string_bytes text.old ++ group_start_text field) }
{
    push_field(text, field, 3)?;
    text.push_str(": a group")
}

/// Appends what is said of the key by which a group ends.
fn push_group_end(text: &mut String, field: FieldAt) -> Result<(), AllocError>
    ensures { OnOk result (string_bytes text.new ≡ string_bytes text.old ++ group_end_text field) }
{
    push_field(text, field, 4)?;
    text.push_str(": its end")
}

/// Whether a number has more than 32 bits.
#[tactic(auto, unfolding(crate::specs::Texts::exceeds))]
fn exceeds(number: u64) -> bool
    ensures { result ≡ exceeds number }
{
    number > 4_294_967_295
}

/// Appends the low 32 bits of a number that has more.
fn push_low(text: &mut String, number: u64) -> Result<(), AllocError>
    ensures { OnOk result (string_bytes text.new ≡ string_bytes text.old ++ low_text number) }
{
    if !exceeds(number) {
        return Ok(());
    }
    let low = low_32(number);
    write!(text, ", 32 bits: {low}")
}

/// The wire type of four or of eight bytes.
fn wire_of(bytes: &[u8]) -> u8
    ensures { result ≡ fixed_wire bytes.now }
{
    if bytes.len() == 4 { 5 } else { 1 }
}

/// Appends the number of bytes of which the first is the lowest, in hexadecimal digits.
fn push_low_first(text: &mut String, bytes: &[u8]) -> Result<(), AllocError>
    ensures { OnOk result (string_bytes text.new ≡ string_bytes text.old ++ low_first_text bytes.now) }
{
    let Some((byte, rest)) = bytes.split_first() else {
        return Ok(());
    };
    push_low_first(text, rest)?;
    text.push(char::from(hex_digit(byte / 16)))?;
    text.push(char::from(hex_digit(byte % 16)))
}

/// Appends the first bytes of a text, or of bytes that may be one, in quotes. Characters that a terminal may take as
/// commands are escaped, and two dots follow if it is not all.
#[tactic(auto, unfolding(crate::specs::Texts::quoted_text))]
fn push_quoted(alloc: Global, text: &mut String, bytes: &[u8]) -> Result<(), AllocError>
    ensures { OnOk result (string_bytes text.new ≡ string_bytes text.old ++ quoted_text bytes.now) }
{
    let shown = String::from_utf8_lossy(alloc, front(bytes, MOST_SHOWN))?;
    text.push_str("\"")?;
    push_escaped(text, Escapes::Text, shown.as_str())?;
    text.push_str("\"")?;
    text.push_str(dots(bytes, MOST_SHOWN))
}

/// The first bytes, at most this number.
pub fn front(bytes: &[u8], most: usize) -> &[u8]
    ensures { result.now ≡ front most bytes.now }
{
    if most < bytes.len() {
        &bytes[..most]
    } else {
        bytes
    }
}

/// Two dots if there are more bytes than this number.
pub fn dots(bytes: &[u8], most: usize) -> &'static str
    ensures { result.now ≡ dots most bytes.now }
{
    if most < bytes.len() { ".." } else { "" }
}
