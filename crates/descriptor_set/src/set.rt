//! What is read of a set.

ghost use Rattle.std.specs.Prelude.{◌≡◌};
ghost use Rattle.std.specs.String.{string_bytes};
ghost use Rattle.descriptor_set.specs.Found.{AreSorted, first_index, index_of};
ghost use Rattle.descriptor_set.specs.Tables.{message_names};

use crate::codes::SaidCode;
use crate::field::FieldDescriptor;
use crate::names::{Named, find};

/// A message of a set.
#[derive(Debug, Drop)]
pub struct MessageDescriptor {
    /// Its full name, without a dot before it.
    pub name: String,
    /// The index of its file.
    pub file: usize,
    /// Its fields, in the order of their numbers.
    pub fields: Vec<FieldDescriptor>,
    /// Whether it is the entry of a map.
    pub is_map_entry: bool,
    /// The codes of its type that a comment says: the one above it, or else the one after its opening brace, or else
    /// the one above its first field. There are none if the set has no comments.
    pub codes: Vec<SaidCode>,
}

impl Named for MessageDescriptor {
    ghost name_bytes = { λ message. string_bytes message.name };

    fn full_name(&self) -> &str {
        self.name.as_str()
    }
}

/// A value of an enum.
#[derive(Debug, Drop)]
pub struct EnumValue {
    pub number: i32,
    pub name: String,
}

/// An enum: its full name, without a dot before it, and its values, as the file has them.
#[derive(Debug, Drop)]
pub struct EnumDescriptor {
    pub name: String,
    pub values: Vec<EnumValue>,
}

impl Named for EnumDescriptor {
    ghost name_bytes = { λ descriptor. string_bytes descriptor.name };

    fn full_name(&self) -> &str {
        self.name.as_str()
    }
}

/// The messages and enums of all files of a set.
#[derive(Debug, Drop)]
pub struct DescriptorSet {
    /// The names of the files, in the order of the set.
    pub files: Vec<String>,
    /// The messages of all files and levels, in the order of their full names.
    pub messages: Vec<MessageDescriptor>,
    /// The enums of all files and levels, in the order of their full names.
    pub enums: Vec<EnumDescriptor>,
}

impl DescriptorSet {
    /// The index of the message of a full name, without a dot before it. Halves the list at each step.
    pub fn message_index(&self, name: &str) -> Option<usize>
        ensures index { result ≡ index_of (message_names self.now.messages.items) name.now }
        ensures first { AreSorted (message_names self.now.messages.items) →
            result ≡ first_index (message_names self.now.messages.items) name.now }
    {
        find(self.messages.as_slice(), name)
    }
}
