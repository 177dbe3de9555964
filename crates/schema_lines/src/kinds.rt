//! How fields are shown, and whether two are of one kind.

ghost use Rattle.std.specs.Prelude.{◌≡◌, IfSome, Some, map};
ghost use Rattle.std.specs.Option.{option_copied, option_map};
ghost use Rattle.std.specs.String.{string_bytes};
ghost use Rattle.shared_core_codec.specs.ProgramRows.{kind_view, row_view};
ghost use Rattle.schema_lines.specs.Kinds.{is_message, is_of_kind, is_same_kind, is_same_label, is_their_message};
ghost use Rattle.schema_lines.specs.Kinds.{message_at};
ghost use Rattle.schema_lines.specs.Kinds.{label_by, label_of, our_field, our_view, row_label, their_label};
ghost use Rattle.schema_lines.specs.Numberings.{nested_at, nested_of};

use crate::message_names::MESSAGE_NAMES;
use crate::names::{is_same, last_name};
use crate::pairs::Pairs;
use descriptor_set::{DescriptorSet, FieldDescriptor, FieldKind, MessageDescriptor, Presence};
use shared_core_codec::any_table::{RowShape, SchemaRow};
use shared_core_codec::rows::{Kind, Row, find_field, rows_of};

/// How a field is there, as the language has it: neither for a member of a oneof, nor for a message.
#[derive(Clone, Copy, Debug, PartialEq, Eq)]
pub(crate) enum Label {
    None,
    Optional,
    Repeated,
}

impl Label {
    /// The word before its kind.
    pub(crate) fn word(self) -> &'static str {
        match self {
            Label::None => "",
            Label::Optional => "optional ",
            Label::Repeated => "repeated ",
        }
    }
}

/// A field of the protocol.
#[derive(Clone, Copy)]
pub(crate) struct Ours {
    pub(crate) number: u32,
    pub(crate) kind: Kind,
    pub(crate) label: Label,
}

/// The field of a number of a schema of the protocol.
#[tactic(auto, unfolding(crate::specs::Kinds::our_field))]
pub(crate) fn our_field(schema: u32, number: u32) -> Option<Ours>
    ensures nested { IfSome result (λ ours. nested_at schema ours.number ≡ Some (nested_of (kind_view ours.kind))) }
    ensures exact { option_map our_view result ≡ our_field schema number }
{
    let rows = rows_of(schema);
    let found = find_field(rows, number)?;
    Some(Ours {
        number,
        kind: found.kind,
        label: label_of(rows, number, found.kind),
    })
}

/// Whether a kind is a message.
fn is_message(kind: Kind) -> bool
    ensures { result ≡ is_message (kind_view kind) }
{
    match kind {
        Kind::Message(_) => true,
        _ => false,
    }
}

/// The label of the field of a number and a kind in a row, if that has it repeated, or optional and not a message.
fn row_label(row: &Row, number: u32, kind: Kind) -> Option<Label>
    ensures { result ≡ row_label (row_view row.now) number (kind_view kind) }
{
    match row.shape() {
        RowShape::Repeated(field) if field.number == number => Some(Label::Repeated),
        RowShape::Optional(field) if field.number == number && !is_message(kind) => {
            Some(Label::Optional)
        }
        _ => None,
    }
}

/// The label of the field of a number and a kind among some rows, `optional` for one that may be absent.
#[tactic(auto, using(crate::proofs::Steps::drop_item))]
fn label_of(rows: &[Row], number: u32, kind: Kind) -> Label
    ensures { result ≡ label_of (map row_view rows.now) number (kind_view kind) }
{
    for row in rows {
        if let Some(label) = row_label(row, number, kind) {
            return label;
        }
    }
    Label::None
}

/// The name of a message of the protocol.
pub(crate) fn message_name(schema: u32) -> &'static str {
    match MESSAGE_NAMES.get(schema as usize) {
        Some(name) => *name,
        None => "",
    }
}

/// The name of a kind of the protocol.
pub(crate) fn kind_name(kind: Kind) -> &'static str {
    match kind {
        Kind::U32 => "uint32",
        Kind::U64 => "uint64",
        Kind::Boolean => "bool",
        Kind::Enumeration => "enum",
        Kind::Text => "string",
        Kind::ByteString => "bytes",
        Kind::Message(schema) => message_name(schema),
    }
}

/// Whether a kind of a set is a message.
fn is_their_message(kind: FieldKind) -> bool
    ensures { result ≡ is_their_message kind }
{
    match kind {
        FieldKind::Message => true,
        _ => false,
    }
}

/// The label of a field of a set.
pub(crate) fn their_label(field: &FieldDescriptor) -> Label
    ensures { result ≡ their_label field.now }
{
    label_by(field.presence, is_their_message(field.kind))
}

/// The label of a field by its presence.
fn label_by(presence: Presence, is_message: bool) -> Label
    ensures { result ≡ label_by presence is_message }
{
    match presence {
        Presence::Plain | Presence::Member(_) => Label::None,
        Presence::Optional => {
            if is_message {
                Label::None
            } else {
                Label::Optional
            }
        }
        Presence::Repeated => Label::Repeated,
    }
}

/// Whether two labels are the same.
fn is_same_label(one: Label, other: Label) -> bool
    ensures { result ≡ is_same_label one other }
{
    match (one, other) {
        (Label::None, Label::None)
        | (Label::Optional, Label::Optional)
        | (Label::Repeated, Label::Repeated) => true,
        _ => false,
    }
}

/// Whether the message of a field is the entry of a map.
pub(crate) fn is_map(set: &DescriptorSet, field: &FieldDescriptor) -> bool {
    if field.kind != FieldKind::Message {
        return false;
    }
    match set.message_index(field.type_name.as_str()) {
        Some(index) => set
            .messages
            .get(index)
            .is_some_and(|message| message.is_map_entry),
        None => false,
    }
}

/// The name of the kind of a field of a set: of a message its last name.
pub(crate) fn their_kind(field: &FieldDescriptor) -> &str {
    match field.kind {
        FieldKind::Message => last_name(field.type_name.as_str()),
        kind => kind.name(),
    }
}

/// Whether a field of the protocol and one of a set are of one kind: their bytes mean the same.
#[tactic(auto, unfolding(crate::specs::Kinds::is_same_kind))]
pub(crate) fn is_same_kind(
    set: &DescriptorSet,
    pairs: &Pairs,
    ours: &Ours,
    theirs: &FieldDescriptor,
) -> bool
    ensures { result ≡ is_same_kind set.now pairs.now.named.items (our_view ours.now) theirs.now }
{
    is_same_label(ours.label, their_label(theirs)) && is_of_kind(set, pairs, ours.kind, theirs)
}

/// Whether bytes of a kind of the protocol and of a field of a set mean the same.
fn is_of_kind(set: &DescriptorSet, pairs: &Pairs, kind: Kind, theirs: &FieldDescriptor) -> bool
    ensures { result ≡ is_of_kind set.now pairs.now.named.items (kind_view kind) theirs.now.kind
        (string_bytes theirs.now.type_name) }
{
    match (kind, theirs.kind) {
        (Kind::U32, FieldKind::Uint32)
        | (Kind::U64, FieldKind::Uint64)
        | (Kind::Boolean, FieldKind::Boolean)
        | (Kind::Enumeration, FieldKind::Enumeration)
        | (Kind::Text, FieldKind::Text)
        | (Kind::ByteString, FieldKind::ByteString) => true,
        (Kind::Message(schema), FieldKind::Message) => {
            match message_at(set, pairs.theirs(schema)) {
                Some(message) => is_same(message.name.as_str(), theirs.type_name.as_str()),
                None => false,
            }
        }
        _ => false,
    }
}

/// The message of an index, if there is one.
pub(crate) fn message_at(set: &DescriptorSet, found: Option<usize>) -> Option<&MessageDescriptor>
    ensures { option_copied result ≡ message_at set.now found }
{
    match found {
        Some(index) => set.messages.get(index),
        None => None,
    }
}
