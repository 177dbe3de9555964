//! Payloads whose contents are replaced.

ghost use Rattle.std.specs.Prelude.{◌≡◌, ◌++◌, option_map, OnOk};
ghost use Rattle.shared_core_wire.specs.View.{value_of};
ghost use Rattle.shared_core_codec.specs.ProgramRows.{field_numbered, found_view, rows_view};
ghost use Rattle.stream_redaction.specs.Redaction.{after_varint, content_of_field, redacted_bytes};
ghost use Rattle.stream_redaction.specs.Redaction.{redacted_nested, redacted_payload, redacted_records};

use crate::key::{Key, append_zeros};
use crate::stream::Redaction;
use shared_core_base::header::MessageType;
use shared_core_codec::check::is_well_formed;
use shared_core_codec::rows::{Found, Kind, Row, find_field, rows_of};
use shared_core_message::schemas::schema_at;
use shared_core_wire::record::WireValue;
use shared_core_wire::records::{LEVELS, Record, Records};
use shared_core_wire::varint::read_varint;
use std::alloc::AllocError;

/// Where records are, and what replaces their contents.
#[derive(Clone, Copy)]
struct Level<'a> {
    key: &'a Key,
    /// The rows of their message; none for a group.
    rows: &'static [Row],
    /// How deep they may be nested.
    left: u32,
}

impl Redaction {
    /// Appends the payload of a type, with its contents replaced. It has the same length. One that is not well-formed
    /// becomes zeros, which are not well-formed either, and that of a custom entry characters.
    pub fn append_payload(
        &self,
        ty: MessageType,
        payload: &[u8],
        out: &mut Vec<u8>,
    ) -> Result<(), AllocError>
        ensures { OnOk result (out.new.items
            ≡ out.old.items ++ redacted_payload self.now.key self.now.version ty payload.now) }
    {
        let Some(schema) = schema_at(self.version, ty) else {
            return self.key.append_replacement(payload, out);
        };
        if !is_well_formed(schema, payload) {
            return append_zeros(payload.len(), out);
        }
        let level = Level {
            key: &self.key,
            rows: rows_of(schema),
            left: LEVELS,
        };
        append_records(level, payload, out)
    }
}

/// Appends the records of a message or of a group, with their contents replaced.
#[cycle(payload)]
#[tactic(auto, using(crate::proofs::Redacting::going_end, crate::proofs::Redacting::going_next, crate::proofs::Redacting::going_record, crate::proofs::Redacting::going_stop))]
fn append_records(level: Level<'_>, payload: &[u8], out: &mut Vec<u8>) -> Result<(), AllocError>
    ensures { OnOk result (out.new.items
        ≡ out.old.items
        ++ redacted_records level.entry.key.now level.entry.left (rows_view level.entry.rows) payload.now) }
{
    let mut rest = payload;
    for item in Records::within(payload, level.left) {
        let Ok(found) = item else {
            return append_zeros(rest.len(), out);
        };
        let (bytes, after) = rest.split_at(found.span.1 - found.span.0);
        append_record(level, &found, bytes, out)?;
        rest = after;
    }
    Ok(())
}

/// Appends these bytes of a record, with its content replaced.
#[cycle(payload)]
fn append_record(
    level: Level<'_>,
    found: &Record<'_>,
    bytes: &[u8],
    out: &mut Vec<u8>,
) -> Result<(), AllocError>
    ensures { OnOk result (out.new.items ≡ out.old.items ++ redacted_bytes level.entry.key.now
        (redacted_nested level.entry.key.now level.entry.left)
        (field_numbered (rows_view level.entry.rows) found.now.number) (value_of found.now.value) bytes.now) }
{
    match found.value {
        WireValue::Length(content) => {
            out.extend_from_slice(&bytes[..bytes.len().saturating_sub(content.len())])?;
            append_content(level, find_field(level.rows, found.number), content, out)
        }
        WireValue::Group(content) => {
            let after = after_varint(bytes);
            out.extend_from_slice(&bytes[..bytes.len().saturating_sub(after.len())])?;
            append_nested(Level { rows: &[], ..level }, content, out)?;
            out.extend_from_slice(after.get(content.len()..).unwrap_or(&[]))
        }
        _ => out.extend_from_slice(bytes),
    }
}

/// Appends what replaces length-delimited bytes of a field, if the record's number is that of one.
#[cycle(payload)]
fn append_content(
    level: Level<'_>,
    field: Option<Found>,
    content: &[u8],
    out: &mut Vec<u8>,
) -> Result<(), AllocError>
    ensures { OnOk result (out.new.items ≡ out.old.items
        ++ content_of_field level.entry.key.now (redacted_nested level.entry.key.now level.entry.left)
        (option_map found_view field) content.now) }
{
    let Some(field) = field else {
        return level.key.append_replacement(content, out);
    };
    match field.kind {
        Kind::U32 => out.extend_from_slice(content),
        Kind::U64 => out.extend_from_slice(content),
        Kind::Boolean => out.extend_from_slice(content),
        Kind::Enumeration => out.extend_from_slice(content),
        Kind::Message(schema) => {
            let rows = rows_of(schema);
            append_nested(Level { rows, ..level }, content, out)
        }
        _ => level.key.append_replacement(content, out),
    }
}

/// Appends a nested message or the content of a group, where the record that holds it is at this level.
#[cycle(payload)]
fn append_nested(level: Level<'_>, content: &[u8], out: &mut Vec<u8>) -> Result<(), AllocError>
    ensures { OnOk result (out.new.items
        ≡ out.old.items
        ++ redacted_nested level.entry.key.now level.entry.left (rows_view level.entry.rows) content.now) }
{
    if level.left == 0 {
        return append_zeros(content.len(), out);
    }
    let below = Level {
        left: level.left - 1,
        ..level
    };
    append_records(below, content, out)
}

/// The bytes after a varint.
fn after_varint(bytes: &[u8]) -> &[u8]
    ensures { result.now ≡ after_varint bytes.now }
{
    match read_varint(bytes) {
        Some((_, after)) => after,
        None => &[],
    }
}
