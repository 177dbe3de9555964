//! Payloads of any schema, decoded and written again.

ghost use Rattle.std.specs.Prelude.{[], ◌∷◌};
ghost use Rattle.journal_c_api.specs.Outcomes.{Writes, bytes_of};
ghost use Rattle.journal_c_api.specs.Payloads.{ReturnsCanonical, ReturnsMerged, ReturnsJson, ReturnsMeaning};
ghost use Rattle.journal_c_api.specs.Payloads.{ReturnsWellFormed, MeansRecord, EncodesPayload, TellsParts};

use crate::outcome::{CallError, write_outcome, write_over};
use bytes::Bytes;
use json::Writer;
use shared_core::messages::{RecordVisitor, visit_record};
use shared_core::wire::{WireRecord, decode_parts};
use shared_core_codec::check;
use shared_core_fields::fields::CanonicalPayload;
use shared_core_json::{write_canonical as encode_canonical, write_payload};
use std::alloc::Global;
use std::fmt::Debug;

/// Of a payload with more bytes, the room for its JSON is not asked for at once.
const LONG: usize = 65_536;

/// Writes the canonical payload of what a payload means. One that is canonical is copied: nothing is allocated then,
/// and nothing can fail.
#[tactic(auto, using(crate::proofs::Writing::writes_outcome, crate::proofs::Copying::returns_canonical))]
pub fn write_canonical(
    alloc: Global,
    schema: u32,
    payload: &[u8],
    out: &mut [u8],
) -> Result<usize, CallError>
    ensures { Writes (ReturnsCanonical schema payload.now) out.old out.new result }
{
    if check::is_schema(schema) && CanonicalPayload::check(schema, payload).is_some() {
        write_over(payload, out);
        return Ok(payload.len());
    }
    write_outcome(canonical(alloc, schema, payload), out)
}

/// Writes the canonical payload of what two payloads mean, the second merged into the first.
#[tactic(auto, using(crate::proofs::Writing::writes_outcome))]
pub fn write_merged(
    alloc: Global,
    schema: u32,
    first: &[u8],
    second: &[u8],
    out: &mut [u8],
) -> Result<usize, CallError>
    ensures { Writes (ReturnsMerged schema first.now (second.now ∷ [])) out.old out.new result }
{
    write_outcome(merged(alloc, schema, first, second), out)
}

/// Writes the JSON of what a payload means.
#[tactic(auto, using(crate::proofs::Writing::writes_outcome))]
pub fn write_json(
    alloc: Global,
    schema: u32,
    payload: &[u8],
    out: &mut [u8],
) -> Result<usize, CallError>
    ensures { Writes (ReturnsJson schema payload.now) out.old out.new result }
{
    write_outcome(json(alloc, schema, payload), out)
}

/// 1 if a payload is well-formed for a schema, otherwise 0. Nothing is allocated.
pub fn is_well_formed(schema: u32, payload: &[u8]) -> Result<usize, CallError>
    ensures { ReturnsWellFormed schema payload.now result }
{
    if !check::is_schema(schema) {
        return Err(CallError::UnknownSchema);
    }
    if check::is_well_formed(schema, payload) {
        Ok(1)
    } else {
        Ok(0)
    }
}

/// The canonical payload of what a payload means.
#[tactic(auto, using(crate::proofs::Parts::only_part))]
fn canonical(alloc: Global, schema: u32, payload: &[u8]) -> Result<Vec<u8>, CallError>
    ensures { ReturnsMerged schema payload.now [] (bytes_of result) }
{
    visit_record(schema, Encoding { alloc, payload }).ok_or(CallError::UnknownSchema)?
}

/// Decodes a payload, and returns the canonical payload of what it means.
#[derive(Drop)]
struct Encoding<'a> {
    alloc: Global,
    payload: &'a [u8],
}

impl<'a> RecordVisitor for Encoding<'a> {
    type Output = Result<Vec<u8>, CallError>;

    ghost results = { λ self schema output. ReturnsMeaning schema self.payload.now [] (bytes_of output) };

    fn visit<M: WireRecord + Debug>(self) -> Result<Vec<u8>, CallError> {
        let record = decoded::<M>(self.alloc, self.payload)?;
        let mut canonical = Vec::new(self.alloc);
        record.encode_payload_into(&mut canonical)?;
        Ok(canonical)
    }
}

/// The canonical payload of what two payloads mean, the second merged into the first.
fn merged(alloc: Global, schema: u32, first: &[u8], second: &[u8]) -> Result<Vec<u8>, CallError>
    ensures { ReturnsMerged schema first.now (second.now ∷ []) (bytes_of result) }
{
    let merging = Merging {
        alloc,
        first,
        second,
    };
    match visit_record(schema, merging) {
        Some(merged) => tell_parts(schema, first, second, merged),
        None => Err(CallError::UnknownSchema),
    }
}

/// The error of two payloads of which one is malformed: which it is. Other results are returned as they are.
fn tell_parts(
    schema: u32,
    first: &[u8],
    _second: &[u8],
    merged: Result<Vec<u8>, CallError>,
) -> Result<Vec<u8>, CallError>
    requires { ReturnsMeaning schema first.now (_second.now ∷ []) (bytes_of merged) }
    ensures { TellsParts schema first.now (_second.now ∷ []) (bytes_of result) }
{
    match merged {
        Err(CallError::Malformed) if check::is_well_formed(schema, first) => {
            Err(CallError::MalformedSecond)
        }
        merged => merged,
    }
}

/// Decodes a payload that comes in two parts, and returns the canonical payload of what it means.
#[derive(Drop)]
struct Merging<'a> {
    alloc: Global,
    first: &'a [u8],
    second: &'a [u8],
}

impl<'a> RecordVisitor for Merging<'a> {
    type Output = Result<Vec<u8>, CallError>;

    ghost results = { λ self schema output. ReturnsMeaning schema self.first.now (self.second.now ∷ [])
        (bytes_of output) };

    fn visit<M: WireRecord + Debug>(self) -> Result<Vec<u8>, CallError> {
        let first = Bytes::copy_from_slice(self.alloc, self.first)?;
        let second = Bytes::copy_from_slice(self.alloc, self.second)?;
        let record = decode_parts::<M>(self.alloc, first, &[second])?;
        let mut canonical = Vec::new(self.alloc);
        record.encode_payload_into(&mut canonical)?;
        Ok(canonical)
    }
}

/// The JSON of what a payload means. One that is canonical is written as it is.
fn json(alloc: Global, schema: u32, payload: &[u8]) -> Result<Vec<u8>, CallError>
    ensures { ReturnsJson schema payload.now (bytes_of result) }
{
    if !check::is_schema(schema) {
        return Err(CallError::UnknownSchema);
    }
    let room = Vec::with_capacity(alloc, 2 * payload.len().min(LONG) + 128)?;
    let mut text = Writer::new(room);
    let mut base64 = Vec::new(alloc);
    if let Some(checked) = CanonicalPayload::check(schema, payload) {
        write_payload(&mut text, &mut base64, false, checked)?;
        return Ok(text.into_inner());
    }
    let printing = Printing { alloc, payload };
    let canonical = visit_record(schema, printing).ok_or(CallError::UnknownSchema)??;
    let known = CanonicalPayload::known(schema, canonical.as_slice());
    write_payload(&mut text, &mut base64, false, known)?;
    Ok(text.into_inner())
}

/// Decodes a payload, and returns the canonical payload of what it means, from which the JSON is made.
#[derive(Drop)]
struct Printing<'a> {
    alloc: Global,
    payload: &'a [u8],
}

impl<'a> RecordVisitor for Printing<'a> {
    type Output = Result<Vec<u8>, CallError>;

    ghost results = { λ self schema output. EncodesPayload schema self.payload.now output };

    fn visit<M: WireRecord + Debug>(self) -> Result<Vec<u8>, CallError> {
        let payload = Bytes::copy_from_slice(self.alloc, self.payload)?;
        let mut canonical = Vec::new(self.alloc);
        encode_canonical::<M>(self.alloc, &payload, &mut canonical)?;
        Ok(canonical)
    }
}

/// The record that a payload means.
pub(crate) fn decoded<M: WireRecord>(alloc: Global, payload: &[u8]) -> Result<M, CallError>
    ensures { MeansRecord M.schema M.parts payload.now result }
{
    let payload = Bytes::copy_from_slice(alloc, payload)?;
    Ok(M::decode(alloc, payload)?)
}
