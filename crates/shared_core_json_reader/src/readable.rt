//! Tables of schemas by which JSON is read.

ghost use Rattle.std.specs.Prelude.{◌≡◌, map};
ghost use Rattle.shared_core_wire.specs.Schema.{Row as AnyRow};
ghost use Rattle.shared_core_json.specs.Fields.{name_of, name_view};
ghost use Rattle.shared_core_json_reader.specs.Rows.{Format, protocol};
ghost use Rattle.shared_core_json_reader.specs.Places.{number_of, AreLikely};
ghost use Rattle.shared_core_json_reader.specs.Readable.{IsReadable, protocol_is_readable};
ghost use Rattle.shared_core_json_reader.specs.Scalars.{value_named};

use crate::rows::values_of;
use crate::{members, scalars};
use shared_core_codec::any_table::{ProtocolSchemas, SchemaRow};
use shared_core_codec::rows::{self, Row};
use shared_core_json::digits::Digits;
use shared_core_json::names::{self, Name, names_of};

/// A schema of a table, by its index.
#[derive(Drop)]
pub struct TableSchema<'a, T> {
    pub schemas: &'a T,
    pub schema: u32,
}

/// A table of schemas by which JSON is read. A key is a name of one field of its schema at most.
pub trait ReadableSchemas {
    /// How it holds a row.
    type Row: SchemaRow;

    /// The table that contracts speak of, with the names that JSON has.
    ghost format: { Self → Format };

    /// The rows of the schema at an index of the table; past its end there are none.
    fn rows_of(&self, schema: u32) -> &[Self::Row]
        ensures { map Self.Row.view result.now ≡ (format self.now).table schema };

    /// The name of the field of a schema that has a number; empty if none has it.
    fn name_of(&self, schema: u32, number: u32) -> &str
        ensures { result.now ≡ name_of ((format self.now).names schema) number };

    /// How the numbers of the field of a schema are written that has a number.
    fn digits_of(&self, schema: u32, number: u32) -> Digits
        ensures { result ≡ ((format self.now).names schema).digits number };

    /// The number of the field of a schema of which a key is a name.
    fn number_of(&self, schema: u32, key: &str) -> Option<u32>
        ensures { result ≡ number_of (format self.now) schema key.now };

    /// Names of fields of a schema with which keys are compared first, in the order in which most objects have them;
    /// it may lack any.
    fn likely_names(&self, schema: u32) -> &'static [Name]
        ensures { AreLikely (format self.now) schema (map name_view result.now) };

    /// The number of the value that has a name, of the enum of the field of a schema that has a number.
    fn value_named(&self, schema: u32, number: u32, name: &str) -> Option<u32>
        ensures { result ≡ value_named ((format self.now).values schema number) name.now };

    /// The names are those of the fields, and no two fields share one; the numbers of enums have 32 bits.
    ghost readable: { (schemas : Self) → IsReadable (format schemas) };
}

/// The protocol's messages, with the names of proto/journal.proto.
impl ReadableSchemas for ProtocolSchemas {
    type Row = Row;

    ghost format = { λ _. protocol };

    #[inline(always)]
    fn rows_of(&self, schema: u32) -> &[Row] {
        rows::rows_of(schema)
    }

    #[inline(always)]
    fn name_of(&self, schema: u32, number: u32) -> &str {
        names::name_of(schema, number)
    }

    #[inline(always)]
    fn digits_of(&self, _schema: u32, _number: u32) -> Digits {
        Digits::Unsigned
    }

    #[inline(always)]
    fn number_of(&self, schema: u32, key: &str) -> Option<u32> {
        members::number_of(schema, key)
    }

    #[inline(always)]
    fn likely_names(&self, schema: u32) -> &'static [Name] {
        names_of(schema)
    }

    #[inline(always)]
    fn value_named(&self, schema: u32, number: u32, name: &str) -> Option<u32> {
        scalars::value_named(values_of(schema, number), name)
    }

    ghost readable = { λ _. protocol_is_readable };
}
