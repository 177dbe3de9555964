//! The JSON of a payload, which is that of its canonical payload.

ghost use Rattle.std.specs.Prelude.{◌≡◌, ◌≤◌, ◌^◌, ◌<◌, length, IfOk, OnOk};
ghost use Rattle.std.specs.Result.{IsErrOf};
ghost use Rattle.std.specs.Str.{IsUtf8};
ghost use Rattle.shared_core_wire.specs.Canonical.{canonical_payload, size};
ghost use Rattle.shared_core_codec.specs.Table.{table};
ghost use Rattle.shared_core_codec.specs.Payloads.{IsAccepted, payload_meaning};
ghost use Rattle.json.specs.Lex.{tokens};
ghost use Rattle.json.specs.Tree.{json_tokens};
ghost use Rattle.shared_core_json.specs.Form.{json_text, value_json};
ghost use Rattle.shared_core_json.specs.Payloads.{IsCanonicalOf, IsTooLong};
ghost use Rattle.shared_core_json.specs.declared.error.JsonError.TheVariants.{Malformed, TooLong};

use crate::error::JsonError;
use crate::write::write_payload;
use bytes::Bytes;
use json::Writer;
use shared_core_codec::record::{WireRecord, decode_payload};
use shared_core_fields::fields::CanonicalPayload;
use std::alloc::Global;

/// Overwrites the buffer with the canonical payload of what a payload means. `Malformed` if the payload is not
/// well-formed for the message; `TooLong` if the canonical payload has more than 4,294,967,295 bytes; `OutOfMemory` if
/// an allocation fails.
pub fn write_canonical<M: WireRecord>(
    alloc: Global,
    payload: &Bytes,
    canonical: &mut Vec<u8>,
) -> Result<(), JsonError>
    ensures accepted { OnOk result (IsAccepted M.schema payload.now) }
    ensures canonical { OnOk result (IsCanonicalOf M.schema payload.now canonical.new.items) }
    ensures malformed { IsErrOf result Malformed → ¬ (IsAccepted M.schema payload.now) }
    ensures too_long { IsErrOf result TooLong → IsTooLong M.schema payload.now }
{
    let message: M = decode_payload(alloc, payload)?;
    encode_meaning(&message, payload.as_slice(), canonical)
}

/// Overwrites the buffer with the canonical payload of a record that a payload means.
fn encode_meaning<M: WireRecord>(
    message: &M,
    _payload: &[u8],
    canonical: &mut Vec<u8>,
) -> Result<(), JsonError>
    requires accepted { IsAccepted M.schema _payload.now }
    requires meaning { M.parts message.now ≡ payload_meaning M.schema _payload.now }
    ensures canonical { OnOk result (IsCanonicalOf M.schema _payload.now canonical.new.items) }
    ensures not_malformed { IsErrOf result Malformed → ⊥ }
    ensures too_long { IsErrOf result TooLong → IsTooLong M.schema _payload.now }
{
    encode_over(message, canonical)
}

/// Overwrites the buffer with the canonical payload of a record, which `encode_payload_into` appends.
fn encode_over<M: WireRecord>(message: &M, canonical: &mut Vec<u8>) -> Result<(), JsonError>
    ensures written { OnOk result (canonical.new.items ≡ canonical_payload table M.schema (M.parts message.now)) }
    ensures short { OnOk result (length canonical.new.items < 2 ^ 32) }
    ensures not_malformed { IsErrOf result Malformed → ⊥ }
    ensures too_long { IsErrOf result TooLong → 2 ^ 32 ≤ size table M.schema (M.parts message.now) }
{
    let Some(len) = message.encoded_len() else {
        return Err(JsonError::TooLong);
    };
    canonical.clear();
    canonical.resize(len as usize, 0)?;
    message.fill_payload(&mut canonical[..]);
    Ok(())
}

/// Returns the JSON of a payload of the message whose schema is at this index of the table, which is that of the record
/// `M`. A canonical payload is written as it is; any other is decoded and written canonically first. The errors are
/// those of `write_canonical`.
pub fn json_of<M: WireRecord>(
    alloc: Global,
    schema: u32,
    payload: &Bytes,
) -> Result<Vec<u8>, JsonError>
    requires { M.schema ≡ schema }
    ensures accepted { IfOk result (λ text. IsAccepted M.schema payload.now) }
    ensures text { IfOk result (λ text. text.items ≡ json_text M.schema (payload_meaning M.schema payload.now)) }
    ensures utf8 { IfOk result (λ text. IsUtf8 text.items) }
    // parsed as JSON, it is these tokens again
    ensures reads_back { IfOk result (λ text. tokens text.items
        ≡ json_tokens (value_json M.schema (payload_meaning M.schema payload.now))) }
    ensures malformed { IsErrOf result Malformed → ¬ (IsAccepted M.schema payload.now) }
    ensures too_long { IsErrOf result TooLong → IsTooLong M.schema payload.now }
{
    let mut encoding = Vec::new(alloc);
    let canonical = canonical_of::<M>(alloc, schema, payload, &mut encoding)?;
    let mut out = Writer::new(Vec::new(alloc));
    write_payload(&mut out, &mut Vec::new(alloc), false, canonical)?;
    Ok(out.into_inner())
}

/// The canonical payload of what a payload means: the payload itself, or else what the buffer then holds.
fn canonical_of<'a, M: WireRecord>(
    alloc: Global,
    schema: u32,
    payload: &'a Bytes,
    encoding: &'a mut Vec<u8>,
) -> Result<CanonicalPayload<'a>, JsonError>
    requires { M.schema ≡ schema }
    ensures accepted { IfOk result (λ canonical. IsAccepted M.schema payload.now) }
    ensures same { IfOk result (λ canonical. (canonical.schema ≡ M.schema)
        × (payload_meaning M.schema canonical.bytes.now ≡ payload_meaning M.schema payload.now)) }
    ensures malformed { IsErrOf result Malformed → ¬ (IsAccepted M.schema payload.now) }
    ensures too_long { IsErrOf result TooLong → IsTooLong M.schema payload.now }
{
    if let Some(canonical) = CanonicalPayload::check(schema, payload.as_slice()) {
        return Ok(canonical);
    }
    write_canonical::<M>(alloc, payload, encoding)?;
    Ok(CanonicalPayload::known(schema, encoding.as_slice()))
}
