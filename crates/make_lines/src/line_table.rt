//! By which table the messages of lines are read.

ghost use Rattle.std.specs.Prelude.{◌≡◌};
ghost use Rattle.make_lines.specs.Making.{Messages, messages_by, protocol};

use shared_core_base::header::MessageType;
use shared_core_base::version::Version;
use shared_core_codec::any_table::ProtocolSchemas;
use shared_core_json_reader::readable::ReadableSchemas;
use shared_core_message::schemas::schema_at;

/// A table of schemas, and which of them the payloads of message types have.
pub trait LineTable {
    /// The table.
    type Table: ReadableSchemas;

    /// What contracts speak of.
    ghost messages: { Self → Messages };

    /// The table.
    fn table(&self) -> &Self::Table
        ensures { Self.Table.format result.now ≡ (messages self.now).format };

    /// The index of the schema of a type's payloads at a version; `None` if they are opaque.
    fn schema_of(&self, version: Version, ty: MessageType) -> Option<u32>
        ensures { result ≡ (messages self.now).schema_at version ty };
}

/// The protocol's own table.
impl LineTable for ProtocolSchemas {
    type Table = ProtocolSchemas;

    ghost messages = { λ _. protocol };

    #[inline(always)]
    fn table(&self) -> &ProtocolSchemas {
        self
    }

    #[inline(always)]
    fn schema_of(&self, version: Version, ty: MessageType) -> Option<u32> {
        schema_at(version, ty)
    }
}

/// Another table for the messages of the protocol, as one with other field numbers.
#[derive(Drop)]
pub struct OtherLines<'a, T> {
    /// The table.
    pub table: &'a T,
    /// For each schema of the protocol the index of the table's schema, or `None` if it has none.
    pub schemas: &'a [Option<u32>],
}

impl<'a, T: ReadableSchemas> LineTable for OtherLines<'a, T> {
    type Table = T;

    ghost messages = { λ other. messages_by (T.format other.table.now) other.schemas.now };

    fn table(&self) -> &T {
        self.table
    }

    fn schema_of(&self, version: Version, ty: MessageType) -> Option<u32> {
        match self.schemas.get(schema_at(version, ty)? as usize) {
            Some(other) => *other,
            None => None,
        }
    }
}
