//! Reading a field of a message.

ghost use Rattle.std.specs.Prelude.{◌≡◌, ◌==◌, IfOk, None, not};
ghost use Rattle.std.specs.List.{last_or};
ghost use Rattle.std.specs.Option.{option_map};
ghost use Rattle.std.specs.String.{string_bytes};
ghost use Rattle.descriptor_set.specs.FieldReading.{camel_case, cased, IsField, json_name_of, low_bits, presence_by};
ghost use Rattle.descriptor_set.specs.FieldReading.{without_dot};
ghost use Rattle.descriptor_set.specs.Values.{content_in, contents_at, last_of, number_in, numbers_at, numbers_in};
ghost use Rattle.descriptor_set.specs.Values.{record_view};

use crate::field::{FieldDescriptor, FieldKind, Presence};
use crate::values::text_of;
use shared_core_wire::record::WireValue;
use shared_core_wire::records::{LEVELS, Record, Records};
use shared_core_wire::varint::low_32;
use std::alloc::{AllocError, Global};

/// What a field has, as its records come: contents, and varints of 64 bits.
#[derive(Clone, Copy)]
struct FieldParts<'a> {
    name: &'a [u8],
    number: u64,
    label: u64,
    kind: u64,
    type_name: &'a [u8],
    oneof: Option<u64>,
    json_name: &'a [u8],
    optional: u64,
}

impl<'a> FieldParts<'a> {
    /// These parts after a record.
    fn after(self, found: Record<'a>) -> FieldParts<'a>
        ensures name { result.name.now ≡ last_of self.entry.name.now (contents_at 1 (record_view found.entry)) }
        ensures number { result.number ≡ last_of self.entry.number (numbers_at 3 (record_view found.entry)) }
        ensures label { result.label ≡ last_of self.entry.label (numbers_at 4 (record_view found.entry)) }
        ensures kind { result.kind ≡ last_of self.entry.kind (numbers_at 5 (record_view found.entry)) }
        ensures type_name { result.type_name.now
            ≡ last_of self.entry.type_name.now (contents_at 6 (record_view found.entry)) }
        ensures oneof { result.oneof ≡ last_or self.entry.oneof (numbers_at 9 (record_view found.entry)) }
        ensures json_name { result.json_name.now
            ≡ last_of self.entry.json_name.now (contents_at 10 (record_view found.entry)) }
        ensures optional { result.optional ≡ last_of self.entry.optional (numbers_at 17 (record_view found.entry)) }
    {
        let mut parts = self;
        match found.value {
            WireValue::Length(content) => match found.number {
                1 => parts.name = content,
                6 => parts.type_name = content,
                10 => parts.json_name = content,
                _ => {}
            },
            WireValue::Varint(number) => match found.number {
                3 => parts.number = number,
                4 => parts.label = number,
                5 => parts.kind = number,
                9 => parts.oneof = Some(number),
                17 => parts.optional = number,
                _ => {}
            },
            _ => {}
        }
        parts
    }
}

/// The parts of a field; the last record of each counts.
#[tactic(auto, using(crate::proofs::LastValues::last_of_more, crate::proofs::LastValues::last_or_more))]
fn parts_of(bytes: &[u8]) -> FieldParts<'_>
    ensures name { result.name.now ≡ content_in 1 bytes.now }
    ensures number { result.number ≡ number_in 3 bytes.now }
    ensures label { result.label ≡ number_in 4 bytes.now }
    ensures kind { result.kind ≡ number_in 5 bytes.now }
    ensures type_name { result.type_name.now ≡ content_in 6 bytes.now }
    ensures oneof { result.oneof ≡ last_or None (numbers_in 9 bytes.now) }
    ensures json_name { result.json_name.now ≡ content_in 10 bytes.now }
    ensures optional { result.optional ≡ number_in 17 bytes.now }
{
    let mut parts = FieldParts {
        name: &[],
        number: 0,
        label: 0,
        kind: 0,
        type_name: &[],
        oneof: None,
        json_name: &[],
        optional: 0,
    };
    for item in Records::within(bytes, LEVELS) {
        if let Ok(found) = item {
            parts = parts.after(found);
        }
    }
    parts
}

/// How a field of these parts is there.
fn presence_of(parts: &FieldParts<'_>, is_proto3: bool, kind: FieldKind) -> Presence
    ensures { result ≡ presence_by (low_bits parts.now.label) (not (parts.now.optional == 0))
        (option_map low_bits parts.now.oneof) is_proto3 kind }
{
    if low_32(parts.label) == 3 {
        return Presence::Repeated;
    }
    let is_optional = parts.optional != 0;
    match parts.oneof {
        Some(oneof) if !is_optional => Presence::Member(low_32(oneof)),
        _ if is_optional || !is_proto3 || matches!(kind, FieldKind::Message) => Presence::Optional,
        _ => Presence::Plain,
    }
}

/// The field of some bytes.
pub(crate) fn field_of(
    alloc: Global,
    is_proto3: bool,
    bytes: &[u8],
) -> Result<FieldDescriptor, AllocError>
    ensures { IfOk result (λ field. IsField is_proto3 bytes.now field) }
{
    let parts = parts_of(bytes);
    let kind = FieldKind::from_number(u64::from(low_32(parts.kind)));
    let name = text_of(parts.name);
    Ok(FieldDescriptor {
        number: low_32(parts.number),
        name: String::from_str(alloc, name)?,
        json_name: json_name_of(alloc, text_of(parts.json_name), name)?,
        kind,
        presence: presence_of(&parts, is_proto3, kind),
        type_name: String::from_str(alloc, without_dot(text_of(parts.type_name)))?,
    })
}

/// A full name without the dot before it.
fn without_dot(name: &str) -> &str
    ensures { result.now ≡ without_dot name.now }
{
    match name.strip_prefix(".") {
        Some(rest) => rest,
        None => name,
    }
}

/// The name in JSON of a field of a name: what the set says, or else the one that the name has.
fn json_name_of(alloc: Global, said: &str, name: &str) -> Result<String, AllocError>
    ensures { IfOk result (λ text. string_bytes text ≡ json_name_of said.now name.now) }
{
    if said.is_empty() {
        camel_case(alloc, name)
    } else {
        String::from_str(alloc, said)
    }
}

/// A character of a name in JSON, after an underscore or not.
fn cased(is_after: bool, c: char) -> char
    ensures { result ≡ cased is_after c }
{
    if is_after { c.to_ascii_uppercase() } else { c }
}

/// The name in JSON of a field of a name, which a set that a program holds of itself does not say: without underscores,
/// and each letter after one is a capital (proto3).
fn camel_case(alloc: Global, name: &str) -> Result<String, AllocError>
    ensures { IfOk result (λ text. string_bytes text ≡ camel_case name.now) }
{
    let mut text = String::new(alloc);
    let mut is_after = false;
    for c in name.chars() {
        if c == '_' {
            is_after = true;
        } else {
            text.push(cased(is_after, c))?;
            is_after = false;
        }
    }
    Ok(text)
}
