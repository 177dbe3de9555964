//! What fields are in a table of schemas.

ghost use Rattle.std.specs.Prelude.{◌≡◌, slice_get};
ghost use Rattle.descriptor_set.specs.Tables.{digits_of, form_of, found_form, is_entry, is_repeated, message_form};

use crate::field::{FieldDescriptor, FieldKind, Presence};
use crate::set::DescriptorSet;
use shared_core_codec::rows::Kind;
use shared_core_json::digits::Digits;

/// Why a table has no row for a field.
#[derive(Clone, Copy, Debug, PartialEq, Eq)]
pub enum NoForm {
    /// The engine has no form for its type.
    Kind,
    /// It is a map.
    Map,
}

/// What a field is in a table.
#[derive(Clone, Copy)]
pub(crate) enum Form {
    Kind(Kind),
    None(NoForm),
    /// A message that the set does not have.
    Unknown,
}

/// Whether a field is repeated.
fn is_repeated(presence: Presence) -> bool
    ensures { result ≡ is_repeated presence }
{
    match presence {
        Presence::Repeated => true,
        _ => false,
    }
}

/// Whether the message of an index is the entry of a map.
fn is_entry(set: &DescriptorSet, index: usize) -> bool
    ensures { result ≡ is_entry (slice_get set.now.messages.items index) }
{
    match set.messages.get(index) {
        Some(message) => message.is_map_entry,
        None => false,
    }
}

/// What a field of this presence is in a table, whose message has an index.
fn found_form(set: &DescriptorSet, presence: Presence, index: usize) -> Form
    ensures { result ≡ found_form set.now presence index }
{
    if is_repeated(presence) && is_entry(set, index) {
        return Form::None(NoForm::Map);
    }
    match u32::try_from(index) {
        Ok(schema) => Form::Kind(Kind::Message(schema)),
        Err(_) => Form::Unknown,
    }
}

/// What a message field is in a table.
fn message_form(set: &DescriptorSet, field: &FieldDescriptor) -> Form
    ensures { result ≡ message_form set.now field.now }
{
    match set.message_index(field.type_name.as_str()) {
        Some(index) => found_form(set, field.presence, index),
        None => Form::Unknown,
    }
}

/// What a field is in a table. Lists of numbers are read packed and one by one, whatever the set says, and written
/// packed, as each reader accepts them. A number with a sign is of the kind of its bytes; its digits tell it apart in
/// JSON.
pub(crate) fn form_of(set: &DescriptorSet, field: &FieldDescriptor) -> Form
    ensures { result ≡ form_of set.now field.now }
{
    match field.kind {
        FieldKind::Uint32 | FieldKind::Sint32 => Form::Kind(Kind::U32),
        FieldKind::Uint64 | FieldKind::Int64 | FieldKind::Sint64 => Form::Kind(Kind::U64),
        FieldKind::Boolean => Form::Kind(Kind::Boolean),
        // int32 is written as an enum is
        FieldKind::Enumeration | FieldKind::Int32 => Form::Kind(Kind::Enumeration),
        FieldKind::Text => Form::Kind(Kind::Text),
        FieldKind::ByteString => Form::Kind(Kind::ByteString),
        FieldKind::Message => message_form(set, field),
        _ => Form::None(NoForm::Kind),
    }
}

/// How the numbers of a field are written in JSON.
pub(crate) fn digits_of(kind: FieldKind) -> Digits
    ensures { result ≡ digits_of kind }
{
    match kind {
        FieldKind::Int64 => Digits::Signed,
        FieldKind::Sint32 | FieldKind::Sint64 => Digits::ZigZag,
        _ => Digits::Unsigned,
    }
}
