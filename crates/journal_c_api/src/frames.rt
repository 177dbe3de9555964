//! Frames of messages.

ghost use Rattle.std.specs.Prelude.{◌≡◌, ◌++◌, ◌+◌, ◌<◌, length};
ghost use Rattle.std.specs.Int.{w64, to_be_bytes};
ghost use Rattle.shared_core_base.specs.MessageHeader.{word_of};
ghost use Rattle.shared_core_message.specs.Messages.{message_schema};
ghost use Rattle.journal_c_api.specs.Outcomes.{Writes, bytes_of, written_over};
ghost use Rattle.journal_c_api.specs.Payloads.{ReturnsFrame, ReturnsFrameOf, EncodesFrame, EncodesFrameAt};
ghost use Rattle.journal_c_api.specs.Payloads.{CopiesFrame, is_flattened};

use crate::headers::header_at;
use crate::outcome::{CallError, version_of, write_outcome};
use crate::payloads::decoded;
use shared_core::encoding::Encoder;
use shared_core::header::{MessageHeader, MessageType};
use shared_core::messages::{MessageVisitor, RestateEncodableMessage, schema_at, visit_message};
use shared_core::version::Version;
use shared_core_fields::fields::CanonicalPayload;
use std::alloc::Global;
use std::fmt::Debug;

/// Writes the frame, at a version, of the message of a named type that a payload encodes. A payload that is canonical
/// is copied, if the version has no other record for the type: nothing is allocated then.
///
/// `UnknownVersion` if the number denotes no version, otherwise `UnknownType` if the code is that of no named type.
#[tactic(auto, using(crate::proofs::Writing::writes_outcome))]
pub fn write_frame(
    alloc: Global,
    version: u32,
    code: u16,
    payload: &[u8],
    out: &mut [u8],
) -> Result<usize, CallError>
    ensures { Writes (ReturnsFrame version code payload.now) out.old out.new result }
{
    if let Some(header) = header_of_copy(version, code, payload) {
        return Ok(write_copy(header, payload, out));
    }
    write_outcome(frame(alloc, version, code, payload), out)
}

/// The header of a payload that is in its frame as it is, at a version, for the named type of a code.
#[tactic(auto, using(crate::proofs::CopiedFrames::copied, crate::proofs::CopiedFrames::schema_kept))]
fn header_of_copy(version: u32, code: u16, payload: &[u8]) -> Option<MessageHeader>
    ensures { CopiesFrame version code payload.now result }
{
    let version = Version::from_number(version)?;
    let Ok(ty) = MessageType::try_from(code) else {
        return None;
    };
    if is_flattened(version, ty) {
        return None;
    }
    let schema = schema_at(version, ty)?;
    let payload = CanonicalPayload::check(schema, payload)?;
    Some(header_at(version, ty, payload.bytes.len() as u32))
}

/// Whether messages of a type are written as other records at a version.
fn is_flattened(version: Version, ty: MessageType) -> bool
    ensures { result ≡ is_flattened version ty }
{
    match ty {
        MessageType::Suspension => version.has_flat_suspensions(),
        _ => false,
    }
}

/// Writes a header and a payload at the front of a slice if it has room for both, otherwise nothing. Returns how many
/// bytes they are.
fn write_copy(header: MessageHeader, payload: &[u8], out: &mut [u8]) -> usize
    requires { length payload.now < 4294967296 }
    ensures written { out.new ≡ written_over (to_be_bytes w64 (word_of header) ++ payload.now) out.old }
    ensures count { result ≡ 8 + length payload.now }
{
    let length = MessageHeader::SIZE + payload.len();
    if length <= out.len() {
        fill_copy(header, payload, &mut out[..length]);
    }
    length
}

/// Writes a header and a payload into a slice of exactly their length.
fn fill_copy(header: MessageHeader, payload: &[u8], out: &mut [u8])
    requires { length out.old ≡ 8 + length payload.now }
    ensures { out.new ≡ to_be_bytes w64 (word_of header) ++ payload.now }
{
    let (head, rest) = out.split_at_mut(MessageHeader::SIZE);
    head.copy_from_slice(&header.to_bytes());
    rest.copy_from_slice(payload);
}

/// The frame, at a version, of the message of a named type that a payload encodes.
fn frame(alloc: Global, version: u32, code: u16, payload: &[u8]) -> Result<Vec<u8>, CallError>
    ensures { EncodesFrameAt version code payload.now (bytes_of result) }
{
    let encoder = Encoder::new(version_of(version)?);
    let ty = MessageType::try_from(code)?;
    frame_of(alloc, encoder, ty, payload)
}

/// The frame of the message of a type that a payload encodes.
fn frame_of(
    alloc: Global,
    encoder: Encoder,
    ty: MessageType,
    payload: &[u8],
) -> Result<Vec<u8>, CallError>
    ensures { ReturnsFrameOf ty (message_schema ty) encoder.version payload.now (bytes_of result) }
{
    let framing = Framing {
        alloc,
        encoder,
        payload,
    };
    visit_message(ty, framing).ok_or(CallError::UnknownType)?
}

/// Decodes a payload to a record, and returns its frame.
#[derive(Drop)]
struct Framing<'a> {
    alloc: Global,
    encoder: Encoder,
    payload: &'a [u8],
}

impl<'a> MessageVisitor for Framing<'a> {
    type Output = Result<Vec<u8>, CallError>;

    ghost results = { λ self ty schema output. EncodesFrame ty schema self.encoder.version self.payload.now
        (bytes_of output) };

    fn visit<M: RestateEncodableMessage + Debug>(self) -> Result<Vec<u8>, CallError> {
        let message = decoded::<M>(self.alloc, self.payload)?;
        let mut frame = Vec::new(self.alloc);
        self.encoder.encode_into(&message, &mut frame)?;
        Ok(frame)
    }
}
