//! Tables of schemas whose fields have names in JSON.

ghost use Rattle.std.specs.Prelude.{◌≡◌};
ghost use Rattle.shared_core_json.specs.Fields.{Names, names_of, name_of};

use crate::digits::Digits;
use crate::names;
use shared_core_codec::any_table::{ProtocolSchemas, Schemas};
use shared_core_fields::payload_table::TableRef;

/// A table of schemas, with the names that fields have in JSON, and how their numbers are written.
pub trait NamedSchemas: Schemas {
    /// The names that contracts speak of, and how numbers are written.
    ghost names: { Self → Names };

    /// The name of the field of a schema that has a number; empty if none has it.
    fn name_of(&self, schema: u32, number: u32) -> &str
        ensures { result.now ≡ name_of (names self.now schema) number };

    /// How the numbers of the field of a schema are written that has a number.
    fn digits_of(&self, schema: u32, number: u32) -> Digits
        ensures { result ≡ (names self.now schema).digits number };
}

/// The protocol's messages have the names of proto/journal.proto in lower camel case, and no number with a sign.
impl NamedSchemas for ProtocolSchemas {
    ghost names = { λ _. names_of };

    #[inline(always)]
    fn name_of(&self, schema: u32, number: u32) -> &str {
        names::name_of(schema, number)
    }

    #[inline(always)]
    fn digits_of(&self, _schema: u32, _number: u32) -> Digits {
        Digits::Unsigned
    }
}

/// A table by reference has the names of the table.
impl<'t, T: NamedSchemas> NamedSchemas for TableRef<'t, T> {
    ghost names = { λ borrowed. T.names borrowed.table.now };

    #[inline(always)]
    fn name_of(&self, schema: u32, number: u32) -> &str {
        self.table.name_of(schema, number)
    }

    #[inline(always)]
    fn digits_of(&self, schema: u32, number: u32) -> Digits {
        self.table.digits_of(schema, number)
    }
}
