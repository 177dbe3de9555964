//! The messages of descriptor.proto, protobuf's description of descriptions, as far as a set is read: the schemas by
//! which the engine checks a set.

ghost use Rattle.std.specs.Prelude.{◌≡◌};
ghost use Rattle.descriptor_set.specs.Descriptors.{descriptors, descriptors_are_table};
ghost use Rattle.shared_core_codec.specs.ProgramRows.{rows_view};

use shared_core_codec::any_table::Schemas;
use shared_core_codec::rows::{Field, Kind, Row};

/// The index of FileDescriptorSet.
pub const SET: u32 = 0;
/// The index of FileDescriptorProto.
pub const FILE: u32 = 1;
/// The index of DescriptorProto, a message.
pub const MESSAGE: u32 = 2;
/// The index of FieldDescriptorProto.
pub const FIELD: u32 = 3;

/// A field by its number and its kind. It is a macro, since the value of a static calls no function.
macro_rules! field {
    ($number:literal, $kind:expr) => {
        Field {
            number: $number,
            kind: $kind,
        }
    };
}

/// FileDescriptorSet: file.
static SET_ROWS: [Row; 1] = [Row::Repeated(field!(1, Kind::Message(1)))];

/// FileDescriptorProto: name, package, message_type, enum_type, source_code_info, syntax.
static FILE_ROWS: [Row; 6] = [
    Row::Optional(field!(1, Kind::Text)),
    Row::Optional(field!(2, Kind::Text)),
    Row::Repeated(field!(4, Kind::Message(2))),
    Row::Repeated(field!(5, Kind::Message(5))),
    Row::Optional(field!(9, Kind::Message(7))),
    Row::Optional(field!(12, Kind::Text)),
];

/// DescriptorProto: name, field, nested_type, enum_type, options.
static MESSAGE_ROWS: [Row; 5] = [
    Row::Optional(field!(1, Kind::Text)),
    Row::Repeated(field!(2, Kind::Message(3))),
    Row::Repeated(field!(3, Kind::Message(2))),
    Row::Repeated(field!(4, Kind::Message(5))),
    Row::Optional(field!(7, Kind::Message(4))),
];

/// FieldDescriptorProto: name, number, label, type, type_name, oneof_index, json_name, proto3_optional. The number and
/// the index of the oneof are int32, which is written as an enum is.
static FIELD_ROWS: [Row; 8] = [
    Row::Optional(field!(1, Kind::Text)),
    Row::Optional(field!(3, Kind::Enumeration)),
    Row::Optional(field!(4, Kind::Enumeration)),
    Row::Optional(field!(5, Kind::Enumeration)),
    Row::Optional(field!(6, Kind::Text)),
    Row::Optional(field!(9, Kind::Enumeration)),
    Row::Optional(field!(10, Kind::Text)),
    Row::Optional(field!(17, Kind::Boolean)),
];

/// MessageOptions: map_entry.
static OPTIONS_ROWS: [Row; 1] = [Row::Optional(field!(7, Kind::Boolean))];

/// EnumDescriptorProto: name, value.
static ENUM_ROWS: [Row; 2] = [
    Row::Optional(field!(1, Kind::Text)),
    Row::Repeated(field!(2, Kind::Message(6))),
];

/// EnumValueDescriptorProto: name, number.
static VALUE_ROWS: [Row; 2] = [
    Row::Optional(field!(1, Kind::Text)),
    Row::Optional(field!(2, Kind::Enumeration)),
];

/// SourceCodeInfo: location.
static SOURCE_ROWS: [Row; 1] = [Row::Repeated(field!(1, Kind::Message(8)))];

/// SourceCodeInfo.Location: path, leading_comments, trailing_comments. A comment may be of any encoding.
static LOCATION_ROWS: [Row; 3] = [
    Row::Repeated(field!(1, Kind::U32)),
    Row::Optional(field!(3, Kind::ByteString)),
    Row::Optional(field!(4, Kind::ByteString)),
];

/// The rows of the schema at an index; past the last one there are none.
fn rows_of(schema: u32) -> &'static [Row]
    ensures { rows_view result ≡ descriptors schema }
{
    match schema {
        0 => &SET_ROWS,
        1 => &FILE_ROWS,
        2 => &MESSAGE_ROWS,
        3 => &FIELD_ROWS,
        4 => &OPTIONS_ROWS,
        5 => &ENUM_ROWS,
        6 => &VALUE_ROWS,
        7 => &SOURCE_ROWS,
        8 => &LOCATION_ROWS,
        _ => &[],
    }
}

/// The table of descriptor.proto's messages.
#[derive(Clone, Copy)]
pub struct DescriptorSchemas;

impl Schemas for DescriptorSchemas {
    type Row = Row;

    ghost table = { λ _. descriptors };

    #[inline(always)]
    fn rows_of(&self, schema: u32) -> &[Row] {
        rows_of(schema)
    }

    ghost valid = { λ _. descriptors_are_table };
}
