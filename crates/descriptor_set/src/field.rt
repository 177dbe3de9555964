//! The fields of messages.

ghost use Rattle.std.specs.Prelude.{◌≡◌, IfOk};
ghost use Rattle.descriptor_set.specs.FieldReading.{kind_of};
ghost use Rattle.descriptor_set.specs.Tables.{is_among, is_oneof, oneof_of, with_oneof};

use std::alloc::AllocError;

/// The type of a field, by the name that .proto files have for it.
#[derive(Clone, Copy, Debug, PartialEq, Eq)]
pub enum FieldKind {
    Double,
    Float,
    Int64,
    Uint64,
    Int32,
    Fixed64,
    Fixed32,
    Boolean,
    Text,
    /// A group of proto2.
    Group,
    Message,
    ByteString,
    Uint32,
    Enumeration,
    Sfixed32,
    Sfixed64,
    Sint32,
    Sint64,
    /// An unassigned number.
    Unknown,
}

impl FieldKind {
    /// The type of a number of FieldDescriptorProto.Type.
    pub fn from_number(number: u64) -> FieldKind
        ensures { result ≡ kind_of number }
    {
        match number {
            1 => FieldKind::Double,
            2 => FieldKind::Float,
            3 => FieldKind::Int64,
            4 => FieldKind::Uint64,
            5 => FieldKind::Int32,
            6 => FieldKind::Fixed64,
            7 => FieldKind::Fixed32,
            8 => FieldKind::Boolean,
            9 => FieldKind::Text,
            10 => FieldKind::Group,
            11 => FieldKind::Message,
            12 => FieldKind::ByteString,
            13 => FieldKind::Uint32,
            14 => FieldKind::Enumeration,
            15 => FieldKind::Sfixed32,
            16 => FieldKind::Sfixed64,
            17 => FieldKind::Sint32,
            18 => FieldKind::Sint64,
            _ => FieldKind::Unknown,
        }
    }

    /// The name that .proto files have for it; of a message and an enum the word.
    pub fn name(self) -> &'static str {
        match self {
            FieldKind::Double => "double",
            FieldKind::Float => "float",
            FieldKind::Int64 => "int64",
            FieldKind::Uint64 => "uint64",
            FieldKind::Int32 => "int32",
            FieldKind::Fixed64 => "fixed64",
            FieldKind::Fixed32 => "fixed32",
            FieldKind::Boolean => "bool",
            FieldKind::Text => "string",
            FieldKind::Group => "group",
            FieldKind::Message => "message",
            FieldKind::ByteString => "bytes",
            FieldKind::Uint32 => "uint32",
            FieldKind::Enumeration => "enum",
            FieldKind::Sfixed32 => "sfixed32",
            FieldKind::Sfixed64 => "sfixed64",
            FieldKind::Sint32 => "sint32",
            FieldKind::Sint64 => "sint64",
            FieldKind::Unknown => "unknown type",
        }
    }
}

/// How a field is there.
#[derive(Clone, Copy, Debug, PartialEq, Eq)]
pub enum Presence {
    /// It has its default value where no record has it.
    Plain,
    /// It is there or not: `optional`, each message, and each single field of a file that is not proto3.
    Optional,
    Repeated,
    /// A member of the oneof of this index.
    Member(u32),
}

impl Presence {
    /// The index of the oneof of a field, if it is in one.
    pub fn oneof(self) -> Option<u32>
        ensures { result ≡ oneof_of self }
    {
        match self {
            Presence::Member(oneof) => Some(oneof),
            _ => None,
        }
    }

    /// Whether a field is a member of the oneof of an index.
    pub fn is_member_of(self, oneof: u32) -> bool
        ensures { result ≡ is_oneof oneof (oneof_of self) }
    {
        match self.oneof() {
            Some(other) => other == oneof,
            None => false,
        }
    }

    /// Whether a field is a member of one of the oneofs of these indices.
    pub fn is_among(self, oneofs: &[u32]) -> bool
        ensures { result ≡ is_among oneofs.now (oneof_of self) }
    {
        match self.oneof() {
            Some(oneof) => oneofs.contains(&oneof),
            None => false,
        }
    }

    /// Appends the index of the oneof of a field, if it is in one.
    pub fn append_oneof(self, oneofs: &mut Vec<u32>) -> Result<(), AllocError>
        ensures { IfOk result (λ _. oneofs.new.items ≡ with_oneof oneofs.old.items (oneof_of self)) }
    {
        if let Some(oneof) = self.oneof() {
            oneofs.push(oneof)?;
        }
        Ok(())
    }
}

/// A field of a message.
#[derive(Debug, Drop)]
pub struct FieldDescriptor {
    /// The field number; what is not one is kept, and rejected when a table is made.
    pub number: u32,
    /// Its name in the .proto file.
    pub name: String,
    /// Its name in JSON: what the set says, or else its name in lower camel case.
    pub json_name: String,
    pub kind: FieldKind,
    pub presence: Presence,
    /// The full name of its message or enum, without the dot before it; empty for other kinds.
    pub type_name: String,
}
