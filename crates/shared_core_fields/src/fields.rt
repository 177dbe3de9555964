//! A canonical payload, and its fields one by one.

ghost use Rattle.std.specs.Prelude.{◌≡◌, ◌↔◌, ◌<◌, ◌≤◌, length, map, true, IfSome};
ghost use Rattle.shared_core_codec.specs.Canonicity.{is_canonical_payload_in};
ghost use Rattle.shared_core_wire.specs.Reader.{record_at};
ghost use Rattle.shared_core_wire.specs.ReadRecords.{records_past};
ghost use Rattle.shared_core_fields.specs.Coming.{are_coming_in};

use crate::check::is_canonical_in;
use crate::known::known_front;
use crate::next::known_next;
use crate::payload_table::{PayloadTable, Tabled};
use crate::runs::Run;
use crate::typed::{content_offset, known_value};
use shared_core_codec::any_table::{ProtocolSchemas, SchemaRow, Schemas};
use shared_core_codec::rows::rows_of;
use std::alloc::AllocError;

/// A payload that is canonical for a schema of a table: `check` makes one, and so does reading a message field, without
/// a second check. The table is the protocol's, or another one, by reference.
pub struct CanonicalPayload<'a, T: Tabled + Copy = ProtocolSchemas> {
    /// The table of its schema.
    pub schemas: T,
    /// The index of its schema in the table.
    pub schema: u32,
    /// The payload.
    pub bytes: &'a [u8],
    pub ghost short: { length bytes.now < 4294967296 },
    pub ghost canonical: { is_canonical_payload_in (T.table_of schemas) 100 schema bytes.now ≡ true },
}

impl<'a, T: Tabled + Copy> Clone for CanonicalPayload<'a, T> {
    ghost use Rattle.shared_core_fields.specs.Views.{IsSamePayload};

    ghost is_clone = { IsSamePayload };

    ghost is_infallible = { λ _. Unit {0} };

    // `Clone` is not derived for a struct with a ghost field and a type parameter
    fn clone(&self) -> Result<CanonicalPayload<'a, T>, AllocError> {
        Ok(CanonicalPayload {
            schemas: self.schemas,
            schema: self.schema,
            bytes: self.bytes,
        })
    }
}

impl<'a, T: Tabled + Copy> Copy for CanonicalPayload<'a, T> {}

/// What a field of a canonical payload holds. Texts, bytes, messages and runs borrow from the payload. `M` is what a
/// message is, a `CanonicalPayload` of the same table.
#[derive(Clone, Copy)]
pub enum FieldValue<'a, M = CanonicalPayload<'a>> {
    U32(u32),
    U64(u64),
    Boolean(bool),
    Enumeration(i32),
    Text(&'a str),
    ByteString(&'a [u8]),
    Message(M),
    /// All elements of a repeated field of numbers, which is packed.
    Numbers(Run<'a>),
}

/// A field of a canonical payload; of a repeated field one element, or all numbers.
#[derive(Clone, Copy)]
pub struct Field<'a, M = CanonicalPayload<'a>> {
    /// The field number, from 1 to 536,870,911.
    pub number: u32,
    /// Whether the schema has the field as a repeated one.
    pub is_repeated: bool,
    /// What it holds.
    pub value: FieldValue<'a, M>,
    /// Where the bytes of a text, bytes, a message or a run begin in the payload; 0 of other fields.
    pub offset: usize,
}

/// Iterates over the fields of a canonical payload, in order. It does not allocate, and makes one pass over the bytes;
/// those of nested messages are passed over.
#[derive(Drop)]
pub struct Fields<'a, 's, T: PayloadTable = ProtocolSchemas> {
    schemas: T,
    rest: &'a [u8],
    /// The length of the payload, in bytes.
    end: usize,
    /// The rows of which records may come next.
    rows: &'s [T::Row],
    ghost inside: { length rest.now ≤ end },
    ghost coming: { are_coming_in (T.table_of schemas) (map T.Row.view rows.now)
        (records_past (record_at 0) end 0 rest.now) ≡ true },
}

impl<'a> CanonicalPayload<'a> {
    ghost use Rattle.std.specs.Option.{is_some};
    ghost use Rattle.shared_core_codec.specs.Canonicity.{IsCanonical};
    ghost use Rattle.shared_core_codec.specs.Table.{table};
    ghost use Rattle.shared_core_codec.specs.Payloads.{payload_meaning};
    ghost use Rattle.shared_core_fields.specs.Views.{EachIsAt, fields_left, places_left};
    ghost use Rattle.shared_core_fields.specs.Fields.{message_fields};

    /// Checks a payload for the schema at an index of the protocol's table. Returns `None` if it is not canonical. Does
    /// not allocate, and makes one pass over the bytes, up to the first record that is not canonical.
    pub fn check(schema: u32, payload: &'a [u8]) -> Option<CanonicalPayload<'a>>
        ensures canonical { (is_some result ≡ true) ↔ IsCanonical schema payload.now }
        ensures same { IfSome result (λ c. (c.schema ≡ schema) × (c.bytes.now ≡ payload.now)) }
    {
        CanonicalPayload::check_in(ProtocolSchemas, schema, payload)
    }

    /// The canonical payload that bytes are known to be, as those that were just encoded: without a check.
    pub fn known(schema: u32, bytes: &'a [u8]) -> CanonicalPayload<'a>
        requires { IsCanonical schema bytes.now }
        ensures same { (result.schema ≡ schema) × (result.bytes.now ≡ bytes.now) }
    {
        CanonicalPayload::known_in(ProtocolSchemas, schema, bytes)
    }

    /// Returns an iterator over its fields: those of what it means, row by row in the order of the schema, without the
    /// fields within nested messages.
    pub fn fields(self) -> Fields<'a, 'a>
        ensures fields { fields_left result
            ≡ message_fields (table self.entry.schema) (payload_meaning self.entry.schema self.entry.bytes.now) }
        // the bytes of each are those of the payload at its offset
        ensures places { EachIsAt self.entry.bytes.now (places_left result) }
    {
        let rows = rows_of(self.schema);
        Fields::new(ProtocolSchemas, rows, self.schema, self.bytes)
    }
}

impl<'a, T: PayloadTable> CanonicalPayload<'a, T> {
    ghost use Rattle.std.specs.Option.{is_some};
    ghost use Rattle.shared_core_wire.specs.Overlay.{meaning};
    ghost use Rattle.shared_core_codec.specs.Canonicity.{IsCanonicalIn};
    ghost use Rattle.shared_core_fields.specs.Views.{EachIsAt, EachIsOf, fields_left, given_left, places_left};
    ghost use Rattle.shared_core_fields.specs.Fields.{message_fields};

    /// `check` for the schema at an index of a table.
    pub fn check_in(schemas: T, schema: u32, payload: &'a [u8]) -> Option<CanonicalPayload<'a, T>>
        ensures canonical { (is_some result ≡ true) ↔ IsCanonicalIn (T.table_of schemas) schema payload.now }
        ensures same { IfSome result (λ c. (c.schemas ≡ schemas) × (c.schema ≡ schema) × (c.bytes.now ≡ payload.now)) }
    {
        if is_canonical_in(&schemas, schema, payload) {
            Some(CanonicalPayload {
                schemas,
                schema,
                bytes: payload,
            })
        } else {
            None
        }
    }

    /// `known` for the schema at an index of a table.
    pub fn known_in(schemas: T, schema: u32, bytes: &'a [u8]) -> CanonicalPayload<'a, T>
        requires { IsCanonicalIn (T.table_of schemas) schema bytes.now }
        ensures same { (result.schemas ≡ schemas) × (result.schema ≡ schema) × (result.bytes.now ≡ bytes.now) }
    {
        CanonicalPayload {
            schemas,
            schema,
            bytes,
        }
    }

    /// `fields` of the payload of any table. Messages in its fields are of the same table.
    pub fn fields_in(&self) -> Fields<'a, '_, T>
        ensures fields { fields_left result ≡ message_fields (T.table_of self.now.schemas self.now.schema)
            (meaning (T.table_of self.now.schemas) 100 self.now.schema self.now.bytes.now) }
        ensures places { EachIsAt self.now.bytes.now (places_left result) }
        ensures schemas { EachIsOf self.now.schemas (given_left result) }
    {
        let rows = self.schemas.rows_of(self.schema);
        Fields::new(self.schemas, rows, self.schema, self.bytes)
    }
}

impl<'a, 's, T: PayloadTable> Fields<'a, 's, T> {
    ghost use Rattle.shared_core_wire.specs.Overlay.{meaning};
    ghost use Rattle.shared_core_fields.specs.Views.{EachIsAt, EachIsOf, fields_left, given_left, places_left};
    ghost use Rattle.shared_core_fields.specs.Fields.{message_fields};

    /// Returns an iterator over the fields of the bytes of a canonical payload, by the rows of its schema.
    fn new(schemas: T, rows: &'s [T::Row], schema: u32, bytes: &'a [u8]) -> Fields<'a, 's, T>
        requires short { length bytes.now < 4294967296 }
        requires canonical { is_canonical_payload_in (T.table_of schemas) 100 schema bytes.now ≡ true }
        requires rows { map T.Row.view rows.now ≡ T.table_of schemas schema }
        ensures fields { fields_left result ≡ message_fields (T.table_of schemas schema)
            (meaning (T.table_of schemas) 100 schema bytes.now) }
        ensures places { EachIsAt bytes.now (places_left result) }
        ensures schemas { EachIsOf schemas (given_left result) }
    {
        Fields {
            schemas,
            rest: bytes,
            end: bytes.len(),
            rows,
        }
    }
}

impl<'a, 's, T: PayloadTable> Iterator for Fields<'a, 's, T> {
    ghost use Rattle.std.specs.Iterator.{YieldsFirstBy, item_count};
    ghost use Rattle.shared_core_fields.specs.Views.{given_left, given_field};

    type Item = Field<'a, CanonicalPayload<'a, T>>;

    ghost next_gives = { YieldsFirstBy given_field given_left };

    ghost remaining = { item_count given_left };

    // so that a field need not be put together in memory
    #[inline(always)]
    fn next(&mut self) -> Option<Field<'a, CanonicalPayload<'a, T>>> {
        if self.rest.is_empty() {
            return None;
        }
        let (number, wire, first, bytes) = known_front(self.rest);
        let (found, _, rows) = known_next(self.rows, number);
        let (value, rest) = known_value(self.schemas, found, wire, first, bytes);
        let offset = content_offset(wire, bytes, self.end);
        self.rest = rest;
        self.rows = rows;
        Some(Field {
            number,
            is_repeated: found.is_repeated,
            value,
            offset,
        })
    }
}
