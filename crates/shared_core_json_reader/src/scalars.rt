//! The numbers, texts and bytes that single JSON values mean.

ghost use Rattle.std.specs.Prelude.{◌≡◌, ◌<◌, ◌≤◌, ◌-◌, ◌*◌, ◌^◌, Some, None, map, option_map, decimal};
ghost use Rattle.std.specs.Prelude.{option_and_then};
ghost use Rattle.std.specs.Prelude.{IfOk, IfSome, IfErr, MatchResult};
ghost use Rattle.json.specs.Word.{after_minus};
ghost use Rattle.shared_core_codec.specs.ProgramRows.{kind_view};
ghost use Rattle.shared_core_json_reader.specs.Rows.{value_view, form_of};
ghost use Rattle.shared_core_json_reader.specs.Appended.{number_read};
ghost use Rattle.shared_core_wire.specs.Schema.{Enumeration};
ghost use Rattle.shared_core_wire.specs.Canonical.{written_number};
ghost use Rattle.shared_core_json_reader.specs.Scalars.{number_text, whole_of_text, whole_read};
ghost use Rattle.shared_core_json_reader.specs.Scalars.{boolean_read, signed_bits, u32_read, u64_read, unsigned_read};
ghost use Rattle.shared_core_json_reader.specs.Scalars.{zigzag_bits};
ghost use Rattle.shared_core_json.specs.declared.digits.Digits.TheVariants.{ZigZag};
ghost use Rattle.shared_core_json_reader.specs.Scalars.{value_named, enum_read, text_read};
ghost use Rattle.shared_core_json_reader.specs.Scalars.{only_text, marked_text};
ghost use Rattle.shared_core_json_reader.specs.FirstError.{number_text_reason, number_reason, enum_reason, kind_reason};
ghost use Rattle.shared_core_json_reader.specs.Views.{whole_view};

use crate::error::Reason;
use crate::readable::ReadableSchemas;
use crate::rows::EnumValue;
use fast_float::Numeral;
use json::is_number;
use json_table::{Members, Node, Shape};
use shared_core_codec::rows::{Field, Kind};
use shared_core_json::digits::Digits;

/// A whole number, by whether it has a minus and by its magnitude.
#[derive(Clone, Copy)]
pub struct Whole {
    pub negative: bool,
    pub magnitude: u64,
}

/// The text of a value that should be a number: that of a number, or a string.
fn number_text<'a>(value: &Node<'_, 'a>) -> Option<&'a str>
    ensures { option_map (λ s. s.now) result ≡ number_text value.now }
{
    match value.shape() {
        Shape::Number(text) | Shape::String(text) => Some(text),
        _ => None,
    }
}

/// What comes after a minus, if there is one.
fn skip_minus(text: &[u8]) -> &[u8]
    ensures { result.now ≡ after_minus text.now }
{
    if !text.is_empty() && text[0] == b'-' {
        &text[1..]
    } else {
        text
    }
}

/// How many digits a number may have that is surely below 2 ^ 64.
const SHORT: usize = 19;

/// The number that a text writes only with digits, as most numbers are written: with few, the first of them not 0.
#[inline(always)]
fn short_number(text: &[u8]) -> Option<u64>
    ensures { IfSome result (λ number. (number < 2 ^ 64) × (text.now ≡ decimal number)) }
{
    if text.is_empty() || text.len() > SHORT || text[0] == b'0' {
        return None;
    }
    let mut number: u64 = 0;
    for byte in text {
        if !byte.is_ascii_digit() {
            return None;
        }
        number = 10 * number + u64::from(*byte - b'0');
    }
    Some(number)
}

/// The whole number that a text writes.
fn whole_of(text: &str) -> Result<Whole, Reason>
    ensures value { MatchResult result (λ whole. whole_of_text text.now ≡ Some (whole_view whole))
        (λ _. whole_of_text text.now ≡ None) }
    ensures reason { MatchResult result (λ _. number_text_reason (Some text.now) ≡ Reason.OutOfRange)
        (λ reason. number_text_reason (Some text.now) ≡ reason) }
{
    if let Some(magnitude) = short_number(text.as_bytes()) {
        return Ok(Whole {
            negative: false,
            magnitude,
        });
    }
    if !is_number(text) {
        return Err(Reason::WrongKind);
    }
    let bytes = text.as_bytes();
    let digits = skip_minus(bytes);
    let Some(magnitude) = Numeral::scan(digits).whole_u64() else {
        return Err(Reason::OutOfRange);
    };
    Ok(Whole {
        negative: digits.len() < bytes.len(),
        magnitude,
    })
}

/// The whole number that a value is.
fn read_whole(value: &Node<'_, '_>) -> Result<Whole, Reason>
    ensures value { MatchResult result (λ whole. whole_read value.now ≡ Some (whole_view whole))
        (λ _. whole_read value.now ≡ None) }
    ensures reason { MatchResult result (λ _. number_reason value.now ≡ Reason.OutOfRange)
        (λ reason. number_reason value.now ≡ reason) }
{
    let Some(text) = number_text(value) else {
        return Err(Reason::WrongKind);
    };
    whole_of(text)
}

/// The number of 32 bits that a value is.
pub fn read_u32(value: &Node<'_, '_>) -> Result<u32, Reason>
    ensures value { MatchResult result (λ number. unsigned_read 4294967296 value.now ≡ Some number)
        (λ _. unsigned_read 4294967296 value.now ≡ None) }
    ensures reason { IfErr result (λ reason. number_reason value.now ≡ reason) }
{
    let whole = read_whole(value)?;
    if (!whole.negative || whole.magnitude == 0) && whole.magnitude < 4_294_967_296 {
        Ok(whole.magnitude as u32)
    } else {
        Err(Reason::OutOfRange)
    }
}

/// The number of 64 bits that a value is.
pub fn read_u64(value: &Node<'_, '_>) -> Result<u64, Reason>
    ensures value { MatchResult result
        (λ number. unsigned_read 18446744073709551616 value.now ≡ Some number)
        (λ _. unsigned_read 18446744073709551616 value.now ≡ None) }
    ensures reason { IfErr result (λ reason. number_reason value.now ≡ reason) }
{
    let whole = read_whole(value)?;
    if !whole.negative || whole.magnitude == 0 {
        Ok(whole.magnitude)
    } else {
        Err(Reason::OutOfRange)
    }
}

/// The bool that a value is, as 0 or 1.
pub fn read_boolean(value: &Node<'_, '_>) -> Result<u64, Reason>
    ensures value { MatchResult result (λ number. boolean_read value.now ≡ Some number)
        (λ _. boolean_read value.now ≡ None) }
    ensures reason { IfErr result (λ reason. reason ≡ Reason.WrongKind) }
{
    match value.shape() {
        Shape::Boolean(true) => Ok(1),
        Shape::Boolean(false) => Ok(0),
        _ => Err(Reason::WrongKind),
    }
}

/// The least number below zero by two's complement of 32 bits.
const HALF_32: u64 = 2_147_483_648;

/// The least number below zero by two's complement of 64 bits.
const HALF_64: u64 = 9_223_372_036_854_775_808;

/// A number with a sign by two's complement, where `half` is the size of the least number.
fn signed_bits(half: u64, whole: Whole) -> Result<u64, Reason>
    requires { half ≤ 2 ^ 63 }
    ensures value { MatchResult result (λ bits. signed_bits half (whole_view whole) ≡ Some bits)
        (λ _. signed_bits half (whole_view whole) ≡ None) }
    ensures below { IfOk result (λ bits. bits ≤ 2 * half - 1) }
    ensures reason { IfErr result (λ reason. reason ≡ Reason.OutOfRange) }
{
    if whole.negative {
        if whole.magnitude > half {
            return Err(Reason::OutOfRange);
        }
        if whole.magnitude == 0 {
            return Ok(0);
        }
        return Ok((half - whole.magnitude) + half);
    }
    if whole.magnitude >= half {
        return Err(Reason::OutOfRange);
    }
    Ok(whole.magnitude)
}

/// A number with a sign by zigzag, where `half` is the size of the least number by two's complement.
fn zigzag_bits(half: u64, whole: Whole) -> Result<u64, Reason>
    requires { half ≤ 2 ^ 63 }
    ensures value { MatchResult result (λ bits. zigzag_bits half (whole_view whole) ≡ Some bits)
        (λ _. zigzag_bits half (whole_view whole) ≡ None) }
    ensures below { IfOk result (λ bits. bits ≤ 2 * half - 1) }
    ensures reason { IfErr result (λ reason. reason ≡ Reason.OutOfRange) }
{
    if whole.negative {
        if whole.magnitude > half {
            return Err(Reason::OutOfRange);
        }
        if whole.magnitude == 0 {
            return Ok(0);
        }
        return Ok(whole.magnitude + (whole.magnitude - 1));
    }
    if whole.magnitude >= half {
        return Err(Reason::OutOfRange);
    }
    Ok(2 * whole.magnitude)
}

/// The number of 32 bits with a sign that a value is, as its low 32 bits.
fn read_signed(value: &Node<'_, '_>) -> Result<u32, Reason>
    ensures value { MatchResult result
        (λ bits. option_and_then (signed_bits (2 ^ 31)) (whole_read value.now) ≡ Some bits)
        (λ _. option_and_then (signed_bits (2 ^ 31)) (whole_read value.now) ≡ None) }
    ensures reason { IfErr result (λ reason. number_reason value.now ≡ reason) }
{
    let bits = signed_bits(HALF_32, read_whole(value)?)?;
    Ok(bits as u32)
}

/// The number of 32 bits that a value is by zigzag.
fn read_zigzag(value: &Node<'_, '_>) -> Result<u32, Reason>
    ensures value { MatchResult result (λ bits. u32_read ZigZag value.now ≡ Some bits)
        (λ _. u32_read ZigZag value.now ≡ None) }
    ensures reason { IfErr result (λ reason. number_reason value.now ≡ reason) }
{
    let bits = zigzag_bits(HALF_32, read_whole(value)?)?;
    Ok(bits as u32)
}

/// What is written for the number of 32 bits that a value is.
#[inline(always)]
pub fn read_bits_32(how: Digits, value: &Node<'_, '_>) -> Result<u32, Reason>
    ensures value { MatchResult result (λ bits. u32_read how value.now ≡ Some bits)
        (λ _. u32_read how value.now ≡ None) }
    ensures reason { IfErr result (λ reason. number_reason value.now ≡ reason) }
{
    match how {
        Digits::Unsigned => read_u32(value),
        Digits::Signed => read_signed(value),
        Digits::ZigZag => read_zigzag(value),
    }
}

/// What is written for the number of 64 bits that a value is.
#[inline(always)]
pub fn read_bits_64(how: Digits, value: &Node<'_, '_>) -> Result<u64, Reason>
    ensures value { MatchResult result (λ bits. u64_read how value.now ≡ Some bits)
        (λ _. u64_read how value.now ≡ None) }
    ensures reason { IfErr result (λ reason. number_reason value.now ≡ reason) }
{
    match how {
        Digits::Unsigned => read_u64(value),
        Digits::Signed => signed_bits(HALF_64, read_whole(value)?),
        Digits::ZigZag => zigzag_bits(HALF_64, read_whole(value)?),
    }
}

/// The number of the value of an enum that has a name.
pub fn value_named(values: &[EnumValue], name: &str) -> Option<u32>
    ensures { result ≡ value_named (map value_view values.now) name.now }
{
    for value in values {
        if name == value.0 {
            return Some(value.1);
        }
    }
    None
}

/// The value of the enum of a field that a value is, by a name or by a number, as its low 32 bits.
pub fn read_enumeration<T: ReadableSchemas>(
    schemas: &T,
    schema: u32,
    number: u32,
    value: &Node<'_, '_>,
) -> Result<u32, Reason>
    ensures value { MatchResult result
        (λ bits. enum_read ((T.format schemas.now).values schema number) value.now ≡ Some bits)
        (λ _. enum_read ((T.format schemas.now).values schema number) value.now ≡ None) }
    ensures reason { IfErr result (λ reason. enum_reason value.now ≡ reason) }
{
    let Some(name) = value.as_str() else {
        return read_signed(value);
    };
    if let Some(bits) = schemas.value_named(schema, number, name) {
        return Ok(bits);
    }
    match read_signed(value) {
        Ok(bits) => Ok(bits),
        Err(Reason::WrongKind) => Err(Reason::UnknownName),
        Err(reason) => Err(reason),
    }
}

/// The number that is written for the low 32 bits of an enum: a negative one is sign-extended to 64 bits.
pub fn extended(bits: u32) -> u64
    ensures { result ≡ written_number Enumeration bits }
{
    if bits < 2_147_483_648 {
        u64::from(bits)
    } else {
        u64::from(bits) + 18_446_744_069_414_584_320
    }
}

/// The number that is written for a value of a field of numbers.
pub fn read_number<T: ReadableSchemas>(
    schemas: &T,
    schema: u32,
    field: &Field,
    value: &Node<'_, '_>,
) -> Result<u64, Reason>
    ensures value { MatchResult result
        (λ number. number_read (kind_view field.now.kind) (form_of (T.format schemas.now) schema field.now.number)
        value.now ≡ Some number)
        (λ _. number_read (kind_view field.now.kind) (form_of (T.format schemas.now) schema field.now.number)
        value.now ≡ None) }
    ensures reason { IfErr result (λ reason. kind_reason (kind_view field.now.kind) value.now ≡ reason) }
{
    match field.kind {
        Kind::U32 => {
            let bits = read_bits_32(schemas.digits_of(schema, field.number), value)?;
            Ok(u64::from(bits))
        }
        Kind::U64 => read_bits_64(schemas.digits_of(schema, field.number), value),
        Kind::Boolean => read_boolean(value),
        Kind::Enumeration => {
            let bits = read_enumeration(schemas, schema, field.number, value)?;
            Ok(extended(bits))
        }
        _ => Err(Reason::WrongKind),
    }
}

/// The text of an object with the one member `text`.
pub fn marked_text<'a>(value: &Node<'_, 'a>) -> Result<&'a [u8], Reason>
    ensures value { MatchResult result (λ text. marked_text value.now ≡ Some text.now)
        (λ _. marked_text value.now ≡ None) }
    ensures reason { IfErr result (λ reason. reason ≡ Reason.WrongKind) }
{
    match value.shape() {
        Shape::Object(mut members) => only_text(&mut members),
        _ => Err(Reason::WrongKind),
    }
}

/// The text of the one member, which is to be `text`.
fn only_text<'a>(members: &mut Members<'_, 'a>) -> Result<&'a [u8], Reason>
    ensures value { MatchResult result (λ text. only_text members.old ≡ Some text.now)
        (λ _. only_text members.old ≡ None) }
    ensures reason { IfErr result (λ reason. reason ≡ Reason.WrongKind) }
{
    let Some((key, value)) = members.next() else {
        return Err(Reason::WrongKind);
    };
    if key != "text" || !members.is_empty() {
        return Err(Reason::WrongKind);
    }
    read_text(&value)
}

/// The bytes of the text that a value is.
pub fn read_text<'a>(value: &Node<'_, 'a>) -> Result<&'a [u8], Reason>
    ensures value { MatchResult result (λ text. text_read value.now ≡ Some text.now)
        (λ _. text_read value.now ≡ None) }
    ensures reason { IfErr result (λ reason. reason ≡ Reason.WrongKind) }
{
    let Some(text) = value.as_str() else {
        return Err(Reason::WrongKind);
    };
    Ok(text.as_bytes())
}
