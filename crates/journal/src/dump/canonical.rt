//! The canonical payloads of messages, by the records of their types.

ghost use Rattle.std.specs.Prelude.{IfOk};
ghost use Rattle.std.specs.Result.{IsErrOf};
ghost use Rattle.shared_core_codec.specs.Payloads.{IsAccepted};
ghost use Rattle.shared_core_json.specs.Payloads.{IsCanonicalOf, IsTooLong};
ghost use Rattle.shared_core_json.specs.declared.error.JsonError.TheVariants.{Malformed, TooLong};

use bytes::Bytes;
use dump_lines::{Canonicalizer, TypedPayload};
use shared_core::messages::{RecordVisitor, schema_at, visit_record};
use shared_core::wire::WireRecord;
use shared_core_json::{JsonError, write_canonical};
use std::alloc::Global;
use std::fmt::Debug;
use std::mem;

/// The records of all messages: a payload is decoded to its record, and encoded.
pub struct Records;

impl Canonicalizer for Records {
    fn canonical_of(
        &self,
        alloc: Global,
        payload: TypedPayload<'_>,
        canonical: &mut Vec<u8>,
    ) -> Result<Option<u32>, JsonError> {
        let Some(schema) = schema_at(payload.version, payload.ty) else {
            return Ok(None);
        };
        let writing = Writing {
            alloc,
            payload: payload.bytes,
            buffer: mem::replace(canonical, Vec::new(alloc)),
        };
        match visit_record(schema, writing) {
            Some(written) => {
                *canonical = written?;
                Ok(Some(schema))
            }
            // each index of a schema has a record
            None => unreachable!(),
        }
    }
}

/// Decodes a payload, and overwrites a buffer with the canonical payload of what it means.
#[derive(Drop)]
struct Writing<'a> {
    alloc: Global,
    payload: &'a Bytes,
    buffer: Vec<u8>,
}

impl<'a> RecordVisitor for Writing<'a> {
    type Output = Result<Vec<u8>, JsonError>;

    ghost results = { λ self schema output.
        IfOk output (λ buffer. IsAccepted schema self.payload.now
        × IsCanonicalOf schema self.payload.now buffer.items)
        × (IsErrOf output Malformed → ¬ (IsAccepted schema self.payload.now))
        × (IsErrOf output TooLong → IsTooLong schema self.payload.now) };

    fn visit<M: WireRecord + Debug>(self) -> Result<Vec<u8>, JsonError> {
        let mut buffer = self.buffer;
        write_canonical::<M>(self.alloc, self.payload, &mut buffer)?;
        Ok(buffer)
    }
}
