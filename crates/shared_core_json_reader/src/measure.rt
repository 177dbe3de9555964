//! How long messages that are nested deep will be, before they are written.
//!
//! The length of a message comes before its fields. Of one that is not deep a byte is left for it, and the fields are
//! moved if it takes more; in a deep tree a byte would be moved at each level above it. So the messages of the level
//! `SHALLOW` are measured, with those within them, and as much room is left as the lengths take.
//!
//! A wrong length costs a move, and changes no byte: the writer puts the length of what it has written. So nothing is
//! proved of these functions, and values that will be rejected are measured as if they were absent.

ghost use Rattle.shared_core_json_reader.specs.Places.{ArePlaces};

use crate::bytes::decoded_len;
use crate::lengths::{content_len, number_len};
use crate::members::{PLACES, Places, find_places, likely};
use crate::object::{Object, SingleField};
use crate::readable::{ReadableSchemas, TableSchema};
use crate::scalars::{marked_text, read_number};
use json_table::{Items, Members, Node, Place, Shape};
use shared_core_codec::any_table::{RowShape, SchemaRow};
use shared_core_codec::rows::{Field, Kind};
use shared_core_wire::records::LEVELS;
use shared_core_wire::varint::varint_len;
use std::alloc::{AllocError, Global};

/// The level whose messages are measured: above it few bytes are moved more than once.
const SHALLOW: u32 = 3;

/// The lengths that were measured, in the order in which the messages are written.
#[derive(Drop)]
pub struct Lengths {
    measured: Vec<u64>,
    /// How many of them have been asked for.
    used: usize,
}

impl Lengths {
    /// No lengths.
    pub fn new(alloc: Global) -> Lengths {
        Lengths {
            measured: Vec::new(alloc),
            used: 0,
        }
    }

    /// Returns how long the content of the message that is written next is likely to be: 0, if it is not nested deep.
    /// Messages may be nested `left` deep, itself included.
    pub fn next<'a, T: ReadableSchemas>(
        &mut self,
        of: &TableSchema<'a, T>,
        value: &Node<'_, 'a>,
        left: u32,
    ) -> Result<u64, AllocError> {
        if left > LEVELS - SHALLOW {
            return Ok(0);
        }
        if left == LEVELS - SHALLOW {
            self.measured.clear();
            self.used = 0;
            measure_message(&mut self.measured, of, value, left)?;
        }
        if self.used >= self.measured.len() {
            return Ok(0);
        }
        let length = self.measured[self.used];
        self.used += 1;
        Ok(length)
    }
}

/// Measures a message and those within it. Returns the length of its content.
#[cycle(measure)]
fn measure_message<'a, T: ReadableSchemas>(
    lengths: &mut Vec<u64>,
    of: &TableSchema<'a, T>,
    value: &Node<'_, 'a>,
    levels: u32,
) -> Result<u64, AllocError> {
    let index = lengths.len();
    lengths.push(0)?;
    if levels == 0 {
        return Ok(0);
    }
    let Shape::Object(members) = value.shape() else {
        return Ok(0);
    };
    let length = measure_members(lengths, of, members, levels - 1)?;
    if index < lengths.len() {
        lengths[index] = length;
    }
    Ok(length)
}

/// Measures the members of an object of a schema.
#[cycle(measure)]
fn measure_members<'t, 'a, T: ReadableSchemas>(
    lengths: &mut Vec<u64>,
    of: &TableSchema<'a, T>,
    members: Members<'t, 'a>,
    left: u32,
) -> Result<u64, AllocError> {
    let mut object = Object {
        schemas: of.schemas,
        members,
        places: Places {
            schema: of.schema,
            numbered: [Place::Absent; PLACES],
        },
        left,
    };
    let lent = &mut object;
    let Ok(()) = find_places(
        of.schemas,
        of.schema,
        &lent.members,
        &mut lent.places.numbered,
    ) else {
        return Ok(0);
    };
    let mut length: u64 = 0;
    for row in of.schemas.rows_of(of.schema) {
        length = length.saturating_add(measure_row(lengths, &object, row)?);
    }
    Ok(length)
}

/// Measures what an object gives a row of its schema.
#[cycle(measure)]
fn measure_row<'a, T: ReadableSchemas>(
    lengths: &mut Vec<u64>,
    object: &Object<'_, 'a, T>,
    row: &T::Row,
) -> Result<u64, AllocError>
    requires { ArePlaces (T.format object.now.schemas.now) object.now.members object.now.places }
{
    match row.shape() {
        RowShape::Plain(field) => measure_given(
            lengths,
            object,
            SingleField { field, plain: true },
        ),
        RowShape::Optional(field) | RowShape::Repeated(field) => {
            measure_given(
                lengths,
                object,
                SingleField {
                    field,
                    plain: false,
                },
            )
        }
        RowShape::OneOf(fields) => measure_oneof(lengths, object, fields),
    }
}

/// Measures what an object gives a oneof of its schema.
#[cycle(measure)]
fn measure_oneof<'a, T: ReadableSchemas>(
    lengths: &mut Vec<u64>,
    object: &Object<'_, 'a, T>,
    fields: &[Field],
) -> Result<u64, AllocError>
    requires { ArePlaces (T.format object.now.schemas.now) object.now.members object.now.places }
{
    let mut length: u64 = 0;
    for field in fields {
        let own = measure_given(
            lengths,
            object,
            SingleField {
                field,
                plain: false,
            },
        )?;
        length = length.saturating_add(own);
    }
    Ok(length)
}

/// Measures what an object gives a field; elements of a list have no defaults.
#[cycle(measure)]
fn measure_given<'a, T: ReadableSchemas>(
    lengths: &mut Vec<u64>,
    object: &Object<'_, 'a, T>,
    single: SingleField<'_>,
) -> Result<u64, AllocError>
    requires { ArePlaces (T.format object.now.schemas.now) object.now.members object.now.places }
{
    let field = single.field;
    let Some(value) = likely(object.schemas, &object.members, &object.places, field) else {
        return Ok(0);
    };
    let Shape::Array(mut items) = value.shape() else {
        return measure_value(lengths, object, single, &value);
    };
    if field.kind.is_number() {
        return Ok(content_len(true, field.number, run_len(object, field, &mut items)));
    }
    let element = SingleField {
        field,
        plain: false,
    };
    let mut length: u64 = 0;
    while let Some(item) = items.next() {
        length = length.saturating_add(measure_value(lengths, object, element, &item)?);
    }
    Ok(length)
}

/// Measures the record of a value of a field of an object's schema.
#[cycle(measure)]
fn measure_value<'a, T: ReadableSchemas>(
    lengths: &mut Vec<u64>,
    object: &Object<'_, 'a, T>,
    single: SingleField<'_>,
    value: &Node<'_, 'a>,
) -> Result<u64, AllocError> {
    if let Kind::Message(nested) = single.field.kind {
        let of = TableSchema {
            schemas: object.schemas,
            schema: nested,
        };
        let length = measure_message(lengths, &of, value, object.left)?;
        return Ok(content_len(false, single.field.number, length));
    }
    Ok(single_len(object, single, value))
}

/// The length of the record of a value that is not a message.
fn single_len<'a, T: ReadableSchemas>(
    object: &Object<'_, 'a, T>,
    single: SingleField<'_>,
    value: &Node<'_, 'a>,
) -> u64 {
    let SingleField { field, plain } = single;
    match field.kind {
        Kind::Text => content_len(plain, field.number, text_len(value)),
        Kind::ByteString => content_len(plain, field.number, bytes_len(value)),
        _ => match read_number(object.schemas, object.places.schema, field, value) {
            Ok(number) => number_len(plain, field.number, number),
            Err(_) => 0,
        },
    }
}

/// The length of a text.
fn text_len<'t, 'a>(value: &Node<'t, 'a>) -> u64 {
    match value.as_str() {
        Some(text) => text.len() as u64,
        None => 0,
    }
}

/// The length of bytes, which are base64 or a text.
fn bytes_len<'t, 'a>(value: &Node<'t, 'a>) -> u64 {
    if let Some(text) = value.as_str() {
        return decoded_len(text.as_bytes());
    }
    match marked_text(value) {
        Ok(text) => text.len() as u64,
        Err(_) => 0,
    }
}

/// The length of the varints of the numbers of an array.
fn run_len<'a, T: ReadableSchemas>(
    object: &Object<'_, 'a, T>,
    field: &Field,
    items: &mut Items<'_, 'a>,
) -> u64 {
    let mut length: u64 = 0;
    while let Some(item) = items.next() {
        if let Ok(number) = read_number(object.schemas, object.places.schema, field, &item) {
            length = length.saturating_add(varint_len(number));
        }
    }
    length
}
