//! Headers of messages.

ghost use Rattle.std.specs.Prelude.{◌≡◌};
ghost use Rattle.journal_c_api.specs.Outcomes.{Writes};
ghost use Rattle.journal_c_api.specs.Headers.{ReturnsHeader, flag_at, header_at};

use crate::outcome::{CallError, version_of, write_over};
use shared_core::header::{MessageHeader, MessageType};
use shared_core::version::Version;

/// Writes the eight bytes of the header that a message of a type has at a version, by the length of its payload in
/// bytes, and returns 8.
///
/// `UnknownVersion` if the number denotes no version, otherwise `UnknownType` if the code is that of no type.
pub fn write_header(
    version: u32,
    code: u16,
    payload_length: u32,
    out: &mut [u8],
) -> Result<usize, CallError>
    ensures { Writes (ReturnsHeader version code payload_length) out.old out.new result }
{
    let version = version_of(version)?;
    let ty = MessageType::try_from(code)?;
    let bytes = header_at(version, ty, payload_length).to_bytes();
    write_over(&bytes, out);
    Ok(bytes.len())
}

/// The header that a type's messages have at a version, by the length of the payload.
pub(crate) fn header_at(version: Version, ty: MessageType, payload_length: u32) -> MessageHeader
    ensures { result ≡ header_at version ty payload_length }
{
    match requested_ack(version, ty) {
        Some(flag) => MessageHeader::new_with_requested_ack(ty, flag, payload_length),
        None => MessageHeader::new(ty, payload_length),
    }
}

/// The flag of a type's headers at a version.
fn requested_ack(version: Version, ty: MessageType) -> Option<bool>
    ensures { result ≡ flag_at version ty }
{
    if ty.allows_ack() && version.requests_acknowledgement() {
        Some(true)
    } else {
        None
    }
}
