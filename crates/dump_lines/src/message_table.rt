//! How the payloads of a stream are read: by which table of schemas, and by which of its schemas those of each type.

ghost use Rattle.std.specs.Prelude.{◌≡◌};
ghost use Rattle.dump_lines.specs.Canonical.{ReturnsEncodingIn};
ghost use Rattle.dump_lines.specs.Reading.{Reading};

use crate::canonicalizer::TypedPayload;
use shared_core_base::header::MessageType;
use shared_core_base::version::Version;
use shared_core_fields::payload_table::PayloadTable;
use shared_core_json::JsonError;
use shared_core_json::named_schemas::NamedSchemas;
use std::alloc::Global;

/// A table of schemas, and which of them the payloads of message types have.
pub trait MessageTable {
    /// The table, with the names of fields.
    type Table: NamedSchemas + PayloadTable;

    /// What contracts speak of.
    ghost reading: { Self → Reading };

    /// The table.
    fn table(&self) -> Self::Table
        ensures table { Self.Table.table_of result ≡ (reading self.now).table }
        ensures names { Self.Table.names result ≡ (reading self.now).names };

    /// The index of the schema of a type's payloads at a version; `None` if they are opaque.
    fn schema_of(&self, version: Version, ty: MessageType) -> Option<u32>
        ensures schema { result ≡ (reading self.now).schema_at version ty };

    /// Overwrites the buffer with the canonical payload of what a message's payload means, and returns the index of its
    /// schema; `None` for an opaque payload. `Malformed` only if the payload is not well-formed, `TooLong` only if the
    /// canonical payload has more than 4,294,967,295 bytes.
    fn canonical_of(
        &self,
        alloc: Global,
        payload: TypedPayload<'_>,
        canonical: &mut Vec<u8>,
    ) -> Result<Option<u32>, JsonError>
        ensures returned { ReturnsEncodingIn (reading self.now)
            ((reading self.now).schema_at payload.entry.version payload.entry.ty) payload.entry.bytes.now
            canonical.new.items result };
}
