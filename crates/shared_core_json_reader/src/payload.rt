//! The canonical payload of a JSON value, appended row by row in the order of the schema.
//!
//! Each function appends the records of what it is given. After an error, part of them may be there, and each function
//! that the error passes on its way out notes the step that it knows of: so only a rejected value costs a path.
//! The value that a text means is never made; a proof apart from the code (`message_agrees`) says that what is appended
//! is its canonical payload. The length of a nested message is written once its fields are there, into room that is
//! left before them: of a deep one as much as was measured before (`measure`), otherwise a byte.

ghost use Rattle.std.specs.Prelude.{◌≡◌, ◌≢◌, ◌++◌, [], ◌∷◌, Some, None, true, false, option_map, map, MatchResult};
ghost use Rattle.shared_core_wire.specs.Schema.{OneOf};
ghost use Rattle.shared_core_codec.specs.ProgramRows as codec;
ghost use Rattle.shared_core_json_reader.specs.Rows.{in_schema, named_row, named_members, named_rows};
ghost use Rattle.shared_core_json_reader.specs.Reading.{given};
ghost use Rattle.shared_core_json_reader.specs.Places.{ArePlaces, IsOf, IsRowOf};
ghost use Rattle.shared_core_wire.specs.WrittenRecords.{content_record};
ghost use Rattle.shared_core_json_reader.specs.Appended.{field_bytes, items_bytes, run_bytes};
ghost use Rattle.shared_core_json_reader.specs.Appended.{list_bytes, given_bytes, oneof_bytes, row_bytes, rows_bytes};
ghost use Rattle.shared_core_json_reader.specs.Appended.{members_bytes, object_bytes, message_bytes, Appends};
ghost use Rattle.shared_core_json_reader.specs.FirstError.{Member, trail_view, HasError};
ghost use Rattle.shared_core_json_reader.specs.FirstError.{field_error, items_error, run_error, list_error};
ghost use Rattle.shared_core_json_reader.specs.FirstError.{given_error, oneof_error, row_error, rows_error};
ghost use Rattle.shared_core_json_reader.specs.FirstError.{members_error, object_error, message_error};

use crate::bytes::append_bytes;
use crate::error::Reason;
use crate::measure::Lengths;
use crate::members::{PLACES, Places, find_places, given, is_absent, lacks};
use crate::object::{Object, SingleField};
use crate::readable::{ReadableSchemas, TableSchema};
use crate::rows::rows_of;
use crate::scalars::{
    extended, read_bits_32, read_bits_64, read_boolean, read_enumeration, read_number, read_text,
};
use crate::short::{append_content, append_number, append_prefix, put_length};
use json_table::{Items, Members, Node, Place, Shape};
use shared_core_canonical::append::append_varint;
use shared_core_codec::any_table::{RowShape, SchemaRow};
use shared_core_codec::rows::{Field, Kind};
use std::alloc::Global;

/// A step of the path to a value: a member by its name, or an element by its index.
#[derive(Clone, Copy, Drop)]
pub enum Step<'a> {
    Member(&'a str),
    Element(usize),
}

/// What a walk over a value makes: the bytes that it appends, and the path to the rejected value, from there outwards,
/// once there is one.
#[derive(Drop)]
pub struct Walk<'a> {
    pub out: Vec<u8>,
    pub trail: Vec<Step<'a>>,
    pub lengths: Lengths,
}

impl<'a> Walk<'a> {
    /// A walk that is to begin, and appends to these bytes.
    pub fn new(alloc: Global, out: Vec<u8>) -> Walk<'a>
        ensures out { result.out ≡ out }
        ensures trail { result.trail.items ≡ [] }
    {
        Walk {
            out,
            trail: Vec::new(alloc),
            lengths: Lengths::new(alloc),
        }
    }

    /// Notes that an error is one step further in, and returns its reason.
    #[cold]
    fn note(&mut self, step: Step<'a>, reason: Reason) -> Reason
        ensures { result ≢ Reason.OutOfMemory → (result ≡ reason)
            × (self.new.trail.items ≡ self.old.trail.items ++ step.entry ∷ []) }
    {
        match self.trail.push(step) {
            Ok(()) => reason,
            Err(_) => Reason::OutOfMemory,
        }
    }

    /// Notes that an error is in the value of a field of an object, and returns its reason.
    #[cold]
    #[tactic(auto, using(crate::proofs::FirstErrors::trail_more))]
    fn note_field<T: ReadableSchemas>(
        &mut self,
        object: &Object<'_, 'a, T>,
        field: &Field,
        reason: Reason,
    ) -> Reason
        ensures { result ≢ Reason.OutOfMemory → (result ≡ reason)
            × (trail_view self.new.trail.items
            ≡ Member (in_schema (T.format object.now.schemas.now) object.now.places.schema field.now).name
            ∷ trail_view self.old.trail.items) }
    {
        let name = object.schemas.name_of(object.places.schema, field.number);
        self.note(Step::Member(name), reason)
    }
}

/// Appends the payload of a message that may be nested this deep, itself included.
#[cycle(message)]
#[inline(always)]
pub fn append_message<'a, T: ReadableSchemas>(
    walk: &mut Walk<'a>,
    of: TableSchema<'a, T>,
    value: &Node<'_, 'a>,
    levels: u32,
) -> Result<(), Reason>
    requires trail { walk.old.trail.items ≡ [] }
    ensures appended { Appends result (message_bytes (T.format of.entry.schemas.now) levels of.entry.schema value.now)
        walk.old.out.items walk.new.out.items }
    ensures error { HasError result (message_error (T.format of.entry.schemas.now) levels of.entry.schema value.now)
        walk.new.trail.items }
{
    if levels == 0 {
        return Err(Reason::TooDeep);
    }
    append_object(walk, of, value, levels - 1)
}

/// Appends the records of an object of a schema.
#[cycle(message)]
#[inline(always)]
fn append_object<'a, T: ReadableSchemas>(
    walk: &mut Walk<'a>,
    of: TableSchema<'a, T>,
    value: &Node<'_, 'a>,
    left: u32,
) -> Result<(), Reason>
    requires trail { walk.old.trail.items ≡ [] }
    ensures appended { Appends result (object_bytes (message_bytes (T.format of.entry.schemas.now) left)
        (named_rows (T.format of.entry.schemas.now) of.entry.schema) value.now) walk.old.out.items walk.new.out.items }
    ensures error { HasError result (object_error (message_error (T.format of.entry.schemas.now) left)
        (named_rows (T.format of.entry.schemas.now) of.entry.schema) value.now) walk.new.trail.items }
{
    let Shape::Object(members) = value.shape() else {
        return Err(Reason::WrongKind);
    };
    append_members(walk, of, members, left)
}

/// Appends the records of the members of an object of a schema.
#[cycle(message)]
fn append_members<'t, 'a, T: ReadableSchemas>(
    walk: &mut Walk<'a>,
    of: TableSchema<'a, T>,
    members: Members<'t, 'a>,
    left: u32,
) -> Result<(), Reason>
    requires trail { walk.old.trail.items ≡ [] }
    ensures appended { Appends result (members_bytes (message_bytes (T.format of.entry.schemas.now) left)
        (named_rows (T.format of.entry.schemas.now) of.entry.schema) members.entry)
        walk.old.out.items walk.new.out.items }
    ensures error { HasError result (members_error (message_error (T.format of.entry.schemas.now) left)
        (named_rows (T.format of.entry.schemas.now) of.entry.schema) members.entry) walk.new.trail.items }
{
    let mut object = Object {
        schemas: of.schemas,
        members,
        places: Places {
            schema: of.schema,
            numbered: [Place::Absent; PLACES],
        },
        left,
    };
    let lent = &mut object;
    if let Err(key) = find_places(
        of.schemas,
        of.schema,
        &lent.members,
        &mut lent.places.numbered,
    ) {
        return Err(walk.note(Step::Member(key), Reason::UnknownMember));
    }
    append_rows(walk, &object)
}

/// Appends the records of the rows of an object's schema.
#[cycle(message)]
fn append_rows<'a, T: ReadableSchemas>(
    walk: &mut Walk<'a>,
    object: &Object<'_, 'a, T>,
) -> Result<(), Reason>
    requires trail { walk.old.trail.items ≡ [] }
    requires places { ArePlaces (T.format object.now.schemas.now) object.now.members object.now.places }
    ensures appended { Appends result (rows_bytes (message_bytes (T.format object.now.schemas.now) object.now.left)
        object.now.members (named_rows (T.format object.now.schemas.now) object.now.places.schema))
        walk.old.out.items walk.new.out.items }
    ensures error { HasError result (rows_error (message_error (T.format object.now.schemas.now) object.now.left)
        object.now.members (named_rows (T.format object.now.schemas.now) object.now.places.schema))
        walk.new.trail.items }
{
    let rows = rows_of(object.schemas, object.places.schema);
    for row in rows {
        append_row(walk, object, row)?;
    }
    Ok(())
}

/// Appends the records of a row of an object's schema.
#[cycle(message)]
fn append_row<'a, T: ReadableSchemas>(
    walk: &mut Walk<'a>,
    object: &Object<'_, 'a, T>,
    row: &T::Row,
) -> Result<(), Reason>
    requires trail { walk.old.trail.items ≡ [] }
    requires places { ArePlaces (T.format object.now.schemas.now) object.now.members object.now.places }
    requires row { IsRowOf (T.format object.now.schemas.now) object.now.places.schema (T.Row.view row.now) }
    ensures appended { Appends result (row_bytes (message_bytes (T.format object.now.schemas.now) object.now.left)
        object.now.members
        (named_row (T.format object.now.schemas.now) object.now.places.schema (T.Row.view row.now)))
        walk.old.out.items walk.new.out.items }
    ensures error { HasError result (row_error (message_error (T.format object.now.schemas.now) object.now.left)
        object.now.members
        (named_row (T.format object.now.schemas.now) object.now.places.schema (T.Row.view row.now)))
        walk.new.trail.items }
{
    if lacks(&object.places, row) {
        return Ok(());
    }
    match row.shape() {
        RowShape::Plain(field) => append_given(walk, object, SingleField { field, plain: true }),
        RowShape::Optional(field) => append_given(
            walk,
            object,
            SingleField {
                field,
                plain: false,
            },
        ),
        RowShape::Repeated(field) => append_list(walk, object, field),
        RowShape::OneOf(fields) => append_oneof(walk, object, fields),
    }
}

/// The value that an object gives a field of its schema. If it comes twice, the field is noted.
#[inline(always)]
fn given_or_noted<'t, 'a, T: ReadableSchemas>(
    walk: &mut Walk<'a>,
    object: &Object<'t, 'a, T>,
    field: &Field,
) -> Result<Option<Node<'t, 'a>>, Reason>
    requires trail { walk.old.trail.items ≡ [] }
    requires places { ArePlaces (T.format object.now.schemas.now) object.now.members object.now.places }
    requires field { IsOf (T.format object.now.schemas.now) object.now.places.schema
        (in_schema (T.format object.now.schemas.now) object.now.places.schema field.now) }
    ensures given { MatchResult result
        (λ found. given (in_schema (T.format object.now.schemas.now) object.now.places.schema field.now)
        object.now.members ≡ Some found)
        (λ reason. reason ≢ Reason.OutOfMemory
        → given (in_schema (T.format object.now.schemas.now) object.now.places.schema field.now)
        object.now.members ≡ None) }
    ensures walk { MatchResult result (λ _. walk.new ≡ walk.old)
        (λ reason. reason ≢ Reason.OutOfMemory → (reason ≡ Reason.RepeatedMember)
        × (trail_view walk.new.trail.items
        ≡ Member (in_schema (T.format object.now.schemas.now) object.now.places.schema field.now).name ∷ [])) }
{
    match given(object.schemas, &object.members, &object.places, field) {
        Ok(found) => Ok(found),
        Err(reason) => Err(walk.note_field(object, field, reason)),
    }
}

/// Appends the record of a field that is not repeated.
#[cycle(message)]
#[inline(always)]
fn append_given<'a, T: ReadableSchemas>(
    walk: &mut Walk<'a>,
    object: &Object<'_, 'a, T>,
    single: SingleField<'_>,
) -> Result<(), Reason>
    requires trail { walk.old.trail.items ≡ [] }
    requires places { ArePlaces (T.format object.now.schemas.now) object.now.members object.now.places }
    requires field { IsOf (T.format object.now.schemas.now) object.now.places.schema
        (in_schema (T.format object.now.schemas.now) object.now.places.schema single.field.now) }
    ensures appended { Appends result
        (given_bytes (field_bytes (message_bytes (T.format object.now.schemas.now) object.now.left) single.entry.plain
        (in_schema (T.format object.now.schemas.now) object.now.places.schema single.entry.field.now))
        (given (in_schema (T.format object.now.schemas.now) object.now.places.schema single.entry.field.now)
        object.now.members))
        walk.old.out.items walk.new.out.items }
    ensures error { HasError result
        (given_error (field_error (message_error (T.format object.now.schemas.now) object.now.left)
        (in_schema (T.format object.now.schemas.now) object.now.places.schema single.entry.field.now))
        (in_schema (T.format object.now.schemas.now) object.now.places.schema single.entry.field.now)
        (given (in_schema (T.format object.now.schemas.now) object.now.places.schema single.entry.field.now)
        object.now.members))
        walk.new.trail.items }
{
    let field = single.field;
    let value = match given(object.schemas, &object.members, &object.places, field) {
        Ok(Some(value)) => value,
        Ok(None) => return Ok(()),
        Err(reason) => return Err(walk.note_field(object, field, reason)),
    };
    match append_value(walk, object, single, &value) {
        Ok(()) => Ok(()),
        Err(reason) => Err(walk.note_field(object, field, reason)),
    }
}

/// Appends the record of a oneof of an object's schema.
#[cycle(message)]
fn append_oneof<'a, T: ReadableSchemas>(
    walk: &mut Walk<'a>,
    object: &Object<'_, 'a, T>,
    fields: &[Field],
) -> Result<(), Reason>
    requires trail { walk.old.trail.items ≡ [] }
    requires places { ArePlaces (T.format object.now.schemas.now) object.now.members object.now.places }
    requires row { IsRowOf (T.format object.now.schemas.now) object.now.places.schema
        (OneOf (map codec.field_view fields.now)) }
    ensures appended { Appends result (oneof_bytes (message_bytes (T.format object.now.schemas.now) object.now.left)
        object.now.members false
        (named_members (T.format object.now.schemas.now) object.now.places.schema fields.now))
        walk.old.out.items walk.new.out.items }
    ensures error { HasError result (oneof_error (message_error (T.format object.now.schemas.now) object.now.left)
        object.now.members false
        (named_members (T.format object.now.schemas.now) object.now.places.schema fields.now))
        walk.new.trail.items }
{
    let mut held = false;
    for field in fields {
        if is_absent(&object.places, field) {
            continue;
        }
        let Some(value) = given_or_noted(walk, object, field)? else {
            continue;
        };
        if held {
            return Err(walk.note_field(object, field, Reason::SeveralMembers));
        }
        if let Err(reason) = append_value(
            walk,
            object,
            SingleField {
                field,
                plain: false,
            },
            &value,
        ) {
            return Err(walk.note_field(object, field, reason));
        }
        held = true;
    }
    Ok(())
}

/// Appends the records of a repeated field.
#[cycle(message)]
fn append_list<'a, T: ReadableSchemas>(
    walk: &mut Walk<'a>,
    object: &Object<'_, 'a, T>,
    field: &Field,
) -> Result<(), Reason>
    requires trail { walk.old.trail.items ≡ [] }
    requires places { ArePlaces (T.format object.now.schemas.now) object.now.members object.now.places }
    requires field { IsOf (T.format object.now.schemas.now) object.now.places.schema
        (in_schema (T.format object.now.schemas.now) object.now.places.schema field.now) }
    ensures appended { Appends result
        (given_bytes (list_bytes (message_bytes (T.format object.now.schemas.now) object.now.left)
        (in_schema (T.format object.now.schemas.now) object.now.places.schema field.now))
        (given (in_schema (T.format object.now.schemas.now) object.now.places.schema field.now) object.now.members))
        walk.old.out.items walk.new.out.items }
    ensures error { HasError result
        (given_error (list_error (message_error (T.format object.now.schemas.now) object.now.left)
        (in_schema (T.format object.now.schemas.now) object.now.places.schema field.now))
        (in_schema (T.format object.now.schemas.now) object.now.places.schema field.now)
        (given (in_schema (T.format object.now.schemas.now) object.now.places.schema field.now) object.now.members))
        walk.new.trail.items }
{
    let Some(value) = given_or_noted(walk, object, field)? else {
        return Ok(());
    };
    match append_array(walk, object, field, &value) {
        Ok(()) => Ok(()),
        Err(reason) => Err(walk.note_field(object, field, reason)),
    }
}

/// Appends the records of a value of a repeated field, which has to be an array.
#[cycle(message)]
fn append_array<'a, T: ReadableSchemas>(
    walk: &mut Walk<'a>,
    object: &Object<'_, 'a, T>,
    field: &Field,
    value: &Node<'_, 'a>,
) -> Result<(), Reason>
    requires trail { walk.old.trail.items ≡ [] }
    ensures appended { Appends result (list_bytes (message_bytes (T.format object.now.schemas.now) object.now.left)
        (in_schema (T.format object.now.schemas.now) object.now.places.schema field.now) value.now)
        walk.old.out.items walk.new.out.items }
    ensures error { HasError result (list_error (message_error (T.format object.now.schemas.now) object.now.left)
        (in_schema (T.format object.now.schemas.now) object.now.places.schema field.now) value.now)
        walk.new.trail.items }
{
    let Shape::Array(mut items) = value.shape() else {
        return Err(Reason::WrongKind);
    };
    if field.kind.is_number() {
        return append_run(walk, object, field, &mut items);
    }
    append_items(walk, object, field, &mut items)
}

/// Appends the records of the elements of an array.
#[cycle(message)]
fn append_items<'a, T: ReadableSchemas>(
    walk: &mut Walk<'a>,
    object: &Object<'_, 'a, T>,
    field: &Field,
    items: &mut Items<'_, 'a>,
) -> Result<(), Reason>
    requires trail { walk.old.trail.items ≡ [] }
    ensures appended { Appends result (items_bytes (message_bytes (T.format object.now.schemas.now) object.now.left)
        (in_schema (T.format object.now.schemas.now) object.now.places.schema field.now) items.old)
        walk.old.out.items walk.new.out.items }
    ensures error { HasError result (items_error (message_error (T.format object.now.schemas.now) object.now.left)
        (in_schema (T.format object.now.schemas.now) object.now.places.schema field.now) 0 items.old)
        walk.new.trail.items }
{
    let single = SingleField {
        field,
        plain: false,
    };
    for index in 0..items.upper_bound() {
        let Some(item) = items.next() else {
            return Ok(());
        };
        if let Err(reason) = append_value(walk, object, single, &item) {
            return Err(walk.note(Step::Element(index), reason));
        }
    }
    Ok(())
}

/// Appends the numbers of an array, packed into one record.
fn append_run<'a, T: ReadableSchemas>(
    walk: &mut Walk<'a>,
    object: &Object<'_, 'a, T>,
    field: &Field,
    items: &mut Items<'_, 'a>,
) -> Result<(), Reason>
    requires trail { walk.old.trail.items ≡ [] }
    ensures appended { Appends result (option_map (content_record true field.now.number)
        (run_bytes (in_schema (T.format object.now.schemas.now) object.now.places.schema field.now) items.old))
        walk.old.out.items walk.new.out.items }
    ensures error { HasError result
        (run_error (in_schema (T.format object.now.schemas.now) object.now.places.schema field.now) 0 items.old)
        walk.new.trail.items }
{
    if items.is_empty() {
        return Ok(());
    }
    let place = append_prefix(&mut walk.out, field.number, 0)?;
    let end = walk.out.len();
    append_numbers(walk, object, field, items)?;
    put_length(&mut walk.out, place, end)?;
    Ok(())
}

/// Appends the varints of the numbers of an array.
fn append_numbers<'a, T: ReadableSchemas>(
    walk: &mut Walk<'a>,
    object: &Object<'_, 'a, T>,
    field: &Field,
    items: &mut Items<'_, 'a>,
) -> Result<(), Reason>
    requires trail { walk.old.trail.items ≡ [] }
    ensures appended { Appends result
        (run_bytes (in_schema (T.format object.now.schemas.now) object.now.places.schema field.now) items.old)
        walk.old.out.items walk.new.out.items }
    ensures error { HasError result
        (run_error (in_schema (T.format object.now.schemas.now) object.now.places.schema field.now) 0 items.old)
        walk.new.trail.items }
{
    for index in 0..items.upper_bound() {
        let Some(item) = items.next() else {
            return Ok(());
        };
        let number = match read_number(object.schemas, object.places.schema, field, &item) {
            Ok(number) => number,
            Err(reason) => return Err(walk.note(Step::Element(index), reason)),
        };
        append_varint(&mut walk.out, number)?;
    }
    Ok(())
}

/// Appends the record of a single value of a field of an object's schema.
#[cycle(message)]
#[inline(always)]
fn append_value<'a, T: ReadableSchemas>(
    walk: &mut Walk<'a>,
    object: &Object<'_, 'a, T>,
    single: SingleField<'_>,
    value: &Node<'_, 'a>,
) -> Result<(), Reason>
    requires trail { walk.old.trail.items ≡ [] }
    ensures appended { Appends result
        (field_bytes (message_bytes (T.format object.now.schemas.now) object.now.left) single.entry.plain
        (in_schema (T.format object.now.schemas.now) object.now.places.schema single.entry.field.now) value.now)
        walk.old.out.items walk.new.out.items }
    ensures error { HasError result (field_error (message_error (T.format object.now.schemas.now) object.now.left)
        (in_schema (T.format object.now.schemas.now) object.now.places.schema single.entry.field.now) value.now)
        walk.new.trail.items }
{
    let SingleField { field, plain } = single;
    match field.kind {
        Kind::U32 => {
            let how = object.schemas.digits_of(object.places.schema, field.number);
            let bits = u64::from(read_bits_32(how, value)?);
            append_number(&mut walk.out, plain, field.number, bits)?;
        }
        Kind::U64 => {
            let how = object.schemas.digits_of(object.places.schema, field.number);
            append_number(
                &mut walk.out,
                plain,
                field.number,
                read_bits_64(how, value)?,
            )?;
        }
        Kind::Boolean => append_number(&mut walk.out, plain, field.number, read_boolean(value)?)?,
        Kind::Enumeration => {
            let bits = read_enumeration(object.schemas, object.places.schema, field.number, value)?;
            append_number(&mut walk.out, plain, field.number, extended(bits))?;
        }
        Kind::Text => append_content(&mut walk.out, plain, field.number, read_text(value)?)?,
        Kind::ByteString => append_bytes(&mut walk.out, plain, field.number, value)?,
        Kind::Message(nested) => {
            let of = TableSchema {
                schemas: object.schemas,
                schema: nested,
            };
            let room = walk.lengths.next(&of, value, object.left)?;
            let place = append_prefix(&mut walk.out, field.number, room)?;
            let end = walk.out.len();
            append_message(walk, of, value, object.left)?;
            put_length(&mut walk.out, place, end)?;
        }
    }
    Ok(())
}
