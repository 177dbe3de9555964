//! Reading the files of a set, with their messages and enums.

ghost use Rattle.std.specs.Prelude.{◌≡◌, ◌≤◌, [], ◌∷◌, ◌++◌, IfErr, IfOk, OnOk, length, string_bytes};
ghost use Rattle.descriptor_set.specs.Comments.{AreCommentsOf};
ghost use Rattle.descriptor_set.specs.Reading.{Blames, BlamesName, Reads, around};
ghost use Rattle.descriptor_set.specs.Sets.{AllTwo, IsEnum, IsValue, enum_at, enums_at, enums_within, file_enums};
ghost use Rattle.descriptor_set.specs.Sets.{file_messages, full_name, message_named, messages_at, messages_within};
ghost use Rattle.descriptor_set.specs.Sets.{nested_enums};
ghost use Rattle.descriptor_set.specs.Values.{contents_in, text_in};

use crate::codes::SaidCode;
use crate::comments::Comments;
use crate::contents::Contents;
use crate::error::{DescriptorError, Place};
use crate::fields::{fields_of, sort_fields};
use crate::read::{MOST_FIELDS, MOST_NAME_BYTES, place_in};
use crate::set::{EnumDescriptor, EnumValue, MessageDescriptor};
use crate::values::{is_map_entry, number_in, text_in};
use shared_core_wire::records::LEVELS;
use shared_core_wire::varint::low_32;
use std::alloc::{AllocError, Global};

/// What a message or an enum is within: its file, and the full name of its message, or its package.
#[derive(Clone, Copy)]
pub(crate) struct Scope<'a> {
    /// The index of the file.
    file: usize,
    file_bytes: &'a [u8],
    is_proto3: bool,
    name: &'a str,
    /// The path of its message in the file; empty if it is in none.
    path: &'a [u32],
    /// Those of the file.
    comments: &'a Comments,
}

/// The path of the message at an index of a field of messages, within a scope.
fn path_of(alloc: Global, scope: &Scope<'_>, field: u32, index: u32) -> Result<Vec<u32>, AllocError>
    ensures { IfOk result (λ path. path.items ≡ scope.now.path.now ++ field ∷ index ∷ []) }
{
    let mut path = Vec::new(alloc);
    path.extend_from_slice(scope.path)?;
    path.push(field)?;
    path.push(index)?;
    Ok(path)
}

/// The values of an enum.
fn values_of(alloc: Global, bytes: &[u8]) -> Result<Vec<EnumValue>, AllocError>
    ensures { IfOk result (λ values. AllTwo IsValue (contents_in 2 bytes.now) values.items) }
{
    let mut values = Vec::new(alloc);
    for content in Contents::of(bytes, 2) {
        let value = value_of(alloc, content)?;
        values.push(value)?;
    }
    Ok(values)
}

/// A value of an enum.
fn value_of(alloc: Global, bytes: &[u8]) -> Result<EnumValue, AllocError>
    ensures { IfOk result (λ value. IsValue bytes.now value) }
{
    let name = String::from_str(alloc, text_in(bytes, 1))?;
    Ok(EnumValue {
        number: low_32(number_in(bytes, 2)).cast_signed(),
        name,
    })
}

/// What is read so far.
#[derive(Drop)]
pub(crate) struct Reading {
    pub(crate) alloc: Global,
    pub(crate) files: Vec<String>,
    pub(crate) messages: Vec<MessageDescriptor>,
    pub(crate) enums: Vec<EnumDescriptor>,
}

impl Reading {
    pub(crate) fn new(alloc: Global) -> Reading
        ensures files { result.files.items ≡ [] }
        ensures messages { result.messages.items ≡ [] }
        ensures enums { result.enums.items ≡ [] }
    {
        Reading {
            alloc,
            files: Vec::new(alloc),
            messages: Vec::new(alloc),
            enums: Vec::new(alloc),
        }
    }

    /// Appends what a file has.
    pub(crate) fn append_file(&mut self, bytes: &[u8]) -> Result<(), DescriptorError>
        ensures read { OnOk result (Reads (text_in 1 bytes.now ∷ [])
            (file_messages (length self.old.files.items) bytes.now) (file_enums bytes.now) self.old self.new) }
        ensures blamed { IfErr result (λ error. Blames error
            (file_messages (length self.old.files.items) bytes.now) (file_enums bytes.now)) }
    {
        let comments = Comments::of(self.alloc, bytes)?;
        let scope = Scope {
            file: self.files.len(),
            file_bytes: bytes,
            is_proto3: text_in(bytes, 12) == "proto3",
            name: text_in(bytes, 2),
            path: &[],
            comments: &comments,
        };
        let name = String::from_str(self.alloc, text_in(bytes, 1))?;
        self.files.push(name)?;
        self.append_messages(&scope, 4, bytes, LEVELS)?;
        self.append_enums(&scope, 5, bytes)
    }

    /// Appends the messages of a field within a scope, each after those within it, which may be `left` levels.
    #[cycle(left)]
    fn append_messages(
        &mut self,
        scope: &Scope<'_>,
        field: u32,
        bytes: &[u8],
        left: u32,
    ) -> Result<(), DescriptorError>
        requires { AreCommentsOf scope.now.file_bytes.now scope.now.comments.now }
        ensures read { OnOk result (Reads [] (messages_within left (around scope.now) field bytes.now)
            (nested_enums left scope.now.name.now field bytes.now) self.old self.new) }
        ensures blamed { IfErr result (λ error. Blames error (messages_within left (around scope.now) field bytes.now)
            (nested_enums left scope.now.name.now field bytes.now)) }
    {
        if left == 0 {
            return Ok(());
        }
        let below = left - 1;
        let mut index: u32 = 0;
        for content in Contents::of(bytes, field) {
            let path = path_of(self.alloc, scope, field, index)?;
            self.append_message(scope, path, content, below)?;
            index = index.saturating_add(1);
        }
        Ok(())
    }

    /// Appends a message of a path, after those within it, which may be `left` levels.
    #[cycle(left)]
    fn append_message(
        &mut self,
        scope: &Scope<'_>,
        path: Vec<u32>,
        bytes: &[u8],
        left: u32,
    ) -> Result<(), DescriptorError>
        requires { AreCommentsOf scope.now.file_bytes.now scope.now.comments.now }
        ensures read { OnOk result (Reads [] (messages_at left (around scope.now) path.items bytes.now)
            (enums_at left scope.now.name.now bytes.now) self.old self.new) }
        ensures blamed { IfErr result (λ error. Blames error
            (messages_at left (around scope.now) path.items bytes.now) (enums_at left scope.now.name.now bytes.now)) }
    {
        let name = self.full_name(scope, text_in(bytes, 1))?;
        let within = Scope {
            file: scope.file,
            file_bytes: scope.file_bytes,
            is_proto3: scope.is_proto3,
            name: name.as_str(),
            path: path.as_slice(),
            comments: scope.comments,
        };
        self.append_messages(&within, 3, bytes, left)?;
        self.append_enums(&within, 4, bytes)?;
        let codes = scope.comments.codes_of(self.alloc, &path)?;
        self.push_message(scope, name, codes, bytes)
    }

    /// Appends one message of a full name, with its codes.
    fn push_message(
        &mut self,
        scope: &Scope<'_>,
        name: String,
        codes: Vec<SaidCode>,
        bytes: &[u8],
    ) -> Result<(), DescriptorError>
        requires { length (string_bytes name) ≤ 1024 }
        ensures read { OnOk result (Reads []
            (message_named (around scope.now) (string_bytes name) codes.items bytes.now ∷ []) [] self.old self.new) }
        ensures blamed { IfErr result (λ error. Blames error
            (message_named (around scope.now) (string_bytes name) codes.items bytes.now ∷ []) []) }
    {
        let mut fields = fields_of(self.alloc, scope.is_proto3, bytes)?;
        if fields.len() > MOST_FIELDS {
            return Err(DescriptorError::TooManyFields(self.place(scope, name.as_str())?));
        }
        sort_fields(&mut fields)?;
        self.messages.push(MessageDescriptor {
            name,
            file: scope.file,
            fields,
            is_map_entry: is_map_entry(bytes),
            codes,
        })?;
        Ok(())
    }

    /// Appends the enums of a field within a scope.
    fn append_enums(
        &mut self,
        scope: &Scope<'_>,
        field: u32,
        bytes: &[u8],
    ) -> Result<(), DescriptorError>
        ensures read { OnOk result (Reads [] []
            (enums_within scope.now.name.now field bytes.now) self.old self.new) }
        ensures blamed { IfErr result (λ error. Blames error []
            (enums_within scope.now.name.now field bytes.now)) }
    {
        for content in Contents::of(bytes, field) {
            let found = self.enum_of(scope, content)?;
            self.enums.push(found)?;
        }
        Ok(())
    }

    /// An enum within a scope.
    fn enum_of(&self, scope: &Scope<'_>, bytes: &[u8]) -> Result<EnumDescriptor, DescriptorError>
        ensures read { IfOk result (λ read. IsEnum (enum_at scope.now.name.now bytes.now) read) }
        ensures blamed { IfErr result (λ error. Blames error [] (enum_at scope.now.name.now bytes.now ∷ [])) }
    {
        let name = self.full_name(scope, text_in(bytes, 1))?;
        let values = values_of(self.alloc, bytes)?;
        Ok(EnumDescriptor { name, values })
    }

    /// The full name of what is called so within a scope.
    fn full_name(&self, scope: &Scope<'_>, name: &str) -> Result<String, DescriptorError>
        ensures named { IfOk result (λ full. string_bytes full ≡ full_name scope.now.name.now name.now) }
        ensures short { OnOk result (length (full_name scope.now.name.now name.now) ≤ 1024) }
        ensures blamed { IfErr result (λ error. BlamesName error (full_name scope.now.name.now name.now)) }
    {
        let mut full = String::from_str(self.alloc, scope.name)?;
        if !full.is_empty() {
            full.push_str(".")?;
        }
        full.push_str(name)?;
        if full.len() > MOST_NAME_BYTES {
            return Err(DescriptorError::NameTooLong(self.place(scope, "")?));
        }
        Ok(full)
    }

    /// The place of a message of a file.
    fn place(&self, scope: &Scope<'_>, message: &str) -> Result<Place, AllocError> {
        place_in(self.alloc, self.files.as_slice(), scope.file, message)
    }
}
