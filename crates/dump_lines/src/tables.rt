//! The tables by which the payloads of a stream are read.

ghost use Rattle.std.specs.Prelude.{◌≡◌};
ghost use Rattle.dump_lines.specs.Other.{schema_in};

use crate::canonicalizer::{Canonicalizer, TypedPayload};
use crate::message_table::MessageTable;
use shared_core_base::header::MessageType;
use shared_core_base::version::Version;
use shared_core_canonical::error::CanonicalError;
use shared_core_canonical::payload::canonical_payload_in;
use shared_core_codec::any_table::ProtocolSchemas;
use shared_core_fields::payload_table::TableRef;
use shared_core_json::JsonError;
use shared_core_json::named_schemas::NamedSchemas;
use shared_core_message::schemas::schema_at;
use std::alloc::Global;

/// The protocol's own table.
#[derive(Drop)]
pub struct ProtocolTable<'a, C> {
    /// What payloads that are not canonical need.
    pub canonicalizer: &'a C,
}

impl<'a, C: Canonicalizer> MessageTable for ProtocolTable<'a, C> {
    ghost use Rattle.dump_lines.specs.Reading.{protocol};

    type Table = ProtocolSchemas;

    ghost reading = { λ _. protocol };

    fn table(&self) -> ProtocolSchemas {
        ProtocolSchemas
    }

    fn schema_of(&self, version: Version, ty: MessageType) -> Option<u32> {
        schema_at(version, ty)
    }

    fn canonical_of(
        &self,
        alloc: Global,
        payload: TypedPayload<'_>,
        canonical: &mut Vec<u8>,
    ) -> Result<Option<u32>, JsonError> {
        self.canonicalizer.canonical_of(alloc, payload, canonical)
    }
}

/// Another table for the messages of the protocol, as one with other field numbers.
#[derive(Drop)]
pub struct OtherTable<'a, T> {
    /// The table.
    pub table: &'a T,
    /// For each schema of the protocol the index of the table's schema, or `None` if it has none.
    pub schemas: &'a [Option<u32>],
}

impl<'a, T: NamedSchemas> MessageTable for OtherTable<'a, T> {
    ghost use Rattle.dump_lines.specs.Other.{reading_by};

    type Table = TableRef<'a, T>;

    ghost reading = { λ other. reading_by (T.table other.table.now) (T.names other.table.now) other.schemas.now };

    fn table(&self) -> TableRef<'a, T> {
        TableRef { table: self.table }
    }

    fn schema_of(&self, version: Version, ty: MessageType) -> Option<u32> {
        other_schema(self.schemas, schema_at(version, ty))
    }

    fn canonical_of(
        &self,
        alloc: Global,
        payload: TypedPayload<'_>,
        canonical: &mut Vec<u8>,
    ) -> Result<Option<u32>, JsonError> {
        let Some(schema) = self.schema_of(payload.version, payload.ty) else {
            return Ok(None);
        };
        match canonical_payload_in(alloc, self.table, schema, payload.bytes.as_slice()) {
            Ok(written) => {
                *canonical = written;
                Ok(Some(schema))
            }
            Err(CanonicalError::Malformed) => Err(JsonError::Malformed),
            Err(CanonicalError::TooLong) => Err(JsonError::TooLong),
            Err(CanonicalError::OutOfMemory) => Err(JsonError::OutOfMemory),
        }
    }
}

/// The index of the table's schema for a schema of the protocol.
fn other_schema(schemas: &[Option<u32>], schema: Option<u32>) -> Option<u32>
    ensures { result ≡ schema_in schemas.now schema }
{
    match schemas.get(schema? as usize) {
        Some(other) => *other,
        None => None,
    }
}
