//! Bytes, by their base64 or by their text: read, or appended to a payload. Base64 is decoded in its place.

ghost use Rattle.std.specs.Prelude.{◌≡◌, ◌≢◌, ◌&&◌, nat_eq, Some, None, option_map, IfErr, MatchResult};
ghost use Rattle.std.specs.Result.{result_ok};
ghost use Rattle.base64.specs.GeneralPurpose.{decode_of};
ghost use Rattle.base64.specs.Engines.{url_safe_pad_indifferent};
ghost use Rattle.shared_core_wire.specs.WrittenRecords.{content_record};
ghost use Rattle.shared_core_json_reader.specs.Scalars.{base64_bytes, marked_text, bytes_read};
ghost use Rattle.shared_core_json_reader.specs.Appended.{Appends};
ghost use Rattle.shared_core_json_reader.specs.FirstError.{bytes_reason};

use crate::error::Reason;
use crate::scalars::marked_text;
use crate::short::{append_content, append_prefix, put_length};
use base64::DecodeAllocError;
use base64::engine::general_purpose::{STANDARD_PAD_INDIFFERENT, URL_SAFE_PAD_INDIFFERENT};
use json_table::Node;
use std::alloc::Global;

/// The bytes that a value is: a string is their base64, and an object with the one member `text` has the text that they
/// are.
pub fn read_bytes(alloc: Global, value: &Node<'_, '_>) -> Result<Vec<u8>, Reason>
    ensures value { MatchResult result (λ bytes. bytes_read value.now ≡ Some bytes.items)
        (λ reason. reason ≢ Reason.OutOfMemory → bytes_read value.now ≡ None) }
    ensures reason { IfErr result (λ reason. reason ≢ Reason.OutOfMemory
        → bytes_reason value.now ≡ reason) }
{
    match value.as_str() {
        Some(text) => read_base64(alloc, text.as_bytes()),
        None => copy_marked(alloc, value),
    }
}

/// The bytes of the text that an object with the one member `text` has.
fn copy_marked(alloc: Global, value: &Node<'_, '_>) -> Result<Vec<u8>, Reason>
    ensures value { MatchResult result (λ bytes. marked_text value.now ≡ Some bytes.items)
        (λ reason. reason ≢ Reason.OutOfMemory → marked_text value.now ≡ None) }
    ensures reason { IfErr result (λ reason. reason ≢ Reason.OutOfMemory → reason ≡ Reason.WrongKind) }
{
    let text = marked_text(value)?;
    let mut bytes = Vec::new(alloc);
    bytes.extend_from_slice(text)?;
    Ok(bytes)
}

/// The bytes that a text encodes in base64.
fn read_base64(alloc: Global, text: &[u8]) -> Result<Vec<u8>, Reason>
    ensures value { MatchResult result (λ bytes. base64_bytes text.now ≡ Some bytes.items)
        (λ reason. reason ≢ Reason.OutOfMemory → base64_bytes text.now ≡ None) }
    ensures reason { IfErr result (λ reason. reason ≢ Reason.OutOfMemory → reason ≡ Reason.NotBase64) }
{
    let mut bytes = Vec::new(alloc);
    append_decoded(&mut bytes, text)?;
    Ok(bytes)
}

/// Appends the record of the bytes that a value is; no bytes are left out in a plain field.
pub fn append_bytes(
    out: &mut Vec<u8>,
    plain: bool,
    number: u32,
    value: &Node<'_, '_>,
) -> Result<(), Reason>
    ensures appended { Appends result (option_map (content_record plain number) (bytes_read value.now))
        out.old.items out.new.items }
    ensures reason { IfErr result (λ reason. reason ≢ Reason.OutOfMemory → bytes_reason value.now ≡ reason) }
{
    match value.as_str() {
        Some(text) => append_base64(out, plain, number, text.as_bytes()),
        None => append_marked(out, plain, number, value),
    }
}

/// Appends the record of the text that an object with the one member `text` has.
fn append_marked(
    out: &mut Vec<u8>,
    plain: bool,
    number: u32,
    value: &Node<'_, '_>,
) -> Result<(), Reason>
    ensures appended { Appends result (option_map (content_record plain number) (marked_text value.now))
        out.old.items out.new.items }
    ensures reason { IfErr result (λ reason. reason ≢ Reason.OutOfMemory → reason ≡ Reason.WrongKind) }
{
    let text = marked_text(value)?;
    append_content(out, plain, number, text)?;
    Ok(())
}

/// Appends the record of the bytes that a text encodes in base64.
fn append_base64(out: &mut Vec<u8>, plain: bool, number: u32, text: &[u8]) -> Result<(), Reason>
    ensures appended { Appends result (option_map (content_record plain number) (base64_bytes text.now))
        out.old.items out.new.items }
    ensures reason { IfErr result (λ reason. reason ≢ Reason.OutOfMemory → reason ≡ Reason.NotBase64) }
{
    let start = out.len();
    let place = append_prefix(out, number, decoded_len(text))?;
    let end = out.len();
    append_decoded(out, text)?;
    if is_left_out(plain, out.len(), end) {
        out.truncate(start);
        return Ok(());
    }
    put_length(out, place, end)?;
    Ok(())
}

/// Whether no record is written, as of a plain field if no bytes were appended after the room for their length.
fn is_left_out(plain: bool, len: usize, end: usize) -> bool
    ensures { result ≡ plain && nat_eq len end }
{
    plain && len == end
}

/// Appends the bytes that a text encodes in base64, in the standard alphabet or that of URLs.
fn append_decoded(out: &mut Vec<u8>, text: &[u8]) -> Result<(), Reason>
    ensures appended { Appends result (base64_bytes text.now) out.old.items out.new.items }
    ensures reason { IfErr result (λ reason. reason ≢ Reason.OutOfMemory → reason ≡ Reason.NotBase64) }
{
    match STANDARD_PAD_INDIFFERENT.decode_vec(text, out) {
        Ok(()) => Ok(()),
        Err(DecodeAllocError::OutOfMemory) => Err(Reason::OutOfMemory),
        Err(DecodeAllocError::DecodeError(_)) => append_decoded_url_safe(out, text),
    }
}

/// Appends the bytes that a text encodes in base64 by the alphabet of URLs.
fn append_decoded_url_safe(out: &mut Vec<u8>, text: &[u8]) -> Result<(), Reason>
    ensures appended { Appends result (result_ok (decode_of url_safe_pad_indifferent text.now))
        out.old.items out.new.items }
    ensures reason { IfErr result (λ reason. reason ≢ Reason.OutOfMemory → reason ≡ Reason.NotBase64) }
{
    match URL_SAFE_PAD_INDIFFERENT.decode_vec(text, out) {
        Ok(()) => Ok(()),
        Err(DecodeAllocError::OutOfMemory) => Err(Reason::OutOfMemory),
        Err(DecodeAllocError::DecodeError(_)) => Err(Reason::NotBase64),
    }
}

/// How many bytes a text of base64 encodes.
pub fn decoded_len(text: &[u8]) -> u64 {
    let mut digits = text.len();
    while digits > 0 && text[digits - 1] == b'=' {
        digits -= 1;
    }
    (digits / 4 * 3 + digits % 4 * 3 / 4) as u64
}
