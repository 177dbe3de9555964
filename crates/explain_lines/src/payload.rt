//! The lines of a payload.

ghost use Rattle.std.specs.Prelude.{◌≡◌, ◌-◌, ◌<◌, ◌≤◌, ◌^◌, drop, ◌++◌, ◌∷◌, [], Some, codes, decimal, length, take};
ghost use Rattle.shared_core_codec.specs.ProgramRows.{field_numbered, kind_view};
ghost use Rattle.shared_core_codec.specs.Table.{table};
ghost use Rattle.shared_core_wire.specs.Acceptance.{accepts_payload};
ghost use Rattle.shared_core_wire.specs.Reader.{varint_at};
ghost use Rattle.shared_core_wire.specs.View.{value_of};
ghost use Rattle.explain_lines.specs.Explanation.{after_varint, group_explained};
ghost use Rattle.explain_lines.specs.Explanation.{all_lines, content_explained, element_explained, explained};
ghost use Rattle.explain_lines.specs.Explanation.{found_explained, front_line, guess_explained, guess_text};
ghost use Rattle.explain_lines.specs.Explanation.{message_explained, misplaced, nested_explained, no_record};
ghost use Rattle.explain_lines.specs.Explanation.{number_explained, numbers_past, one_line, opaque_lines};
ghost use Rattle.explain_lines.specs.Explanation.{fault, payload_lines, raw, reads_as_message, run_explained};
ghost use Rattle.explain_lines.specs.Explanation.{list_explained, taken, text_explained};
ghost use Rattle.explain_lines.specs.Explanation.{unknown_explained, value_explained};
ghost use Rattle.explain_lines.specs.Reasons.{reason_text};
ghost use Rattle.explain_lines.specs.State.{Adds, Explains};
ghost use Rattle.explain_lines.specs.Texts.{piece_text};

use crate::fault::{fault_of, varint_fault};
use crate::lines::Lines;
use crate::piece::{FieldAt, Piece};
use crate::reason::Reason;
use shared_core_codec::rows::{Kind, find_field, rows_of};
use shared_core_codec::utf8::is_text;
use shared_core_wire::record::{WireValue, read_record};
use shared_core_wire::records::LEVELS;
use shared_core_wire::varint::read_varint;
use std::alloc::AllocError;

/// The schema of payloads that have none. It is past the end of the table, so it has no fields.
pub const RAW: u32 = 4_294_967_295;

/// A record with its bytes.
#[derive(Clone, Copy)]
struct Known<'a> {
    field: FieldAt,
    value: WireValue<'a>,
    /// All bytes of it, key included.
    bytes: &'a [u8],
    /// How deep messages and groups may be nested in it.
    left: u32,
}

/// Adds the lines of a payload, by its schema at an index of the table if it has one.
pub fn explain_payload(
    lines: &mut Lines,
    schema: Option<u32>,
    payload: &[u8],
) -> Result<(), AllocError>
    requires outside { lines.old.path.items ≡ [] }
    requires header { lines.old.count ≤ 8 }
    ensures { Adds lines.old lines.new result (payload_lines schema payload.now) }
{
    match schema {
        Some(schema) => explain_all(lines, schema, payload),
        None => explain_opaque(lines, payload),
    }
}

/// Adds the lines of a payload without a schema.
fn explain_opaque(lines: &mut Lines, payload: &[u8]) -> Result<(), AllocError>
    requires outside { lines.old.path.items ≡ [] }
    requires header { lines.old.count ≤ 8 }
    ensures { Adds lines.old lines.new result (opaque_lines payload.now) }
{
    if payload.len() == 0 {
        return Ok(());
    }
    if is_message(payload, LEVELS) {
        return explain_all(lines, RAW, payload);
    }
    lines.add(payload, Piece::Quoted(payload))
}

/// Adds the lines of a payload of a schema, and at last one of the bytes after a fault.
fn explain_all(lines: &mut Lines, schema: u32, payload: &[u8]) -> Result<(), AllocError>
    requires outside { lines.old.path.items ≡ [] }
    requires header { lines.old.count ≤ 8 }
    ensures { Adds lines.old lines.new result (all_lines (explained 100 [] schema payload.now) payload.now) }
{
    let before = lines.count;
    explain_records(lines, schema, payload, LEVELS)?;
    let rest = rest_after(payload, lines.count.saturating_sub(before));
    if rest.len() == 0 {
        return Ok(());
    }
    lines.add(rest, Piece::Rest)
}

/// The bytes after the first ones.
fn rest_after(bytes: &[u8], size: u128) -> &[u8]
    ensures rest { result.now ≡ drop size bytes.now }
    ensures short { length bytes.now < 2 ^ 64 }
{
    let length = bytes.len();
    if size < length as u128 {
        &bytes[size as usize..]
    } else {
        &bytes[length..]
    }
}

/// Adds the lines of the records of a message, which may be nested `left` deep, up to a fault. Returns whether there is
/// one.
#[cycle(payload)]
fn explain_records(
    lines: &mut Lines,
    schema: u32,
    payload: &[u8],
    left: u32,
) -> Result<bool, AllocError>
    ensures { Explains lines.old lines.new result (explained left lines.old.path.items schema payload.now) }
{
    let mut rest = payload;
    while !rest.is_empty() {
        let Some((number, value, after)) = read_record(rest, left) else {
            return explain_fault(lines, schema, rest, left);
        };
        let known = Known {
            field: FieldAt { schema, number },
            value,
            bytes: taken(rest, after),
            left,
        };
        if explain_record(lines, &known)? {
            return Ok(true);
        }
        rest = after;
    }
    Ok(false)
}

/// Adds the line of the fault in bytes that do not begin with a record.
fn explain_fault(
    lines: &mut Lines,
    schema: u32,
    bytes: &[u8],
    left: u32,
) -> Result<bool, AllocError>
    ensures { Explains lines.old lines.new result (no_record left lines.old.path.items schema bytes.now) }
{
    let (number, reason) = fault_of(bytes, left);
    match number {
        None => lines.add_fault(reason),
        Some(number) => add_fault_in(lines, FieldAt { schema, number }, reason),
    }
}

/// Adds the line of a fault in a field.
fn add_fault_in(lines: &mut Lines, field: FieldAt, reason: Reason) -> Result<bool, AllocError>
    ensures { Explains lines.old lines.new result
        (fault (lines.old.path.items ++ field ∷ []) (reason_text reason)) }
{
    lines.enter(field)?;
    lines.add_fault(reason)?;
    lines.leave();
    Ok(true)
}

/// Adds the lines of a record. Returns whether they end at a fault.
#[cycle(payload)]
fn explain_record(lines: &mut Lines, known: &Known<'_>) -> Result<bool, AllocError>
    ensures { Explains lines.old lines.new result
        (found_explained (nested_explained known.now.left) known.now.left lines.old.path.items known.now.field
        (field_numbered (table known.now.field.schema) known.now.field.number) (value_of known.now.value)
        known.now.bytes.now) }
{
    let Some(field) = find_field(rows_of(known.field.schema), known.field.number) else {
        return explain_unknown(lines, known);
    };
    if field.is_repeated {
        explain_element(lines, known, field.kind)
    } else {
        explain_value(lines, known, field.kind)
    }
}

/// Adds the lines of a record of a repeated field of a kind.
#[cycle(payload)]
fn explain_element(lines: &mut Lines, known: &Known<'_>, kind: Kind) -> Result<bool, AllocError>
    ensures { Explains lines.old lines.new result
        (element_explained (nested_explained known.now.left) lines.old.path.items known.now.field (kind_view kind)
        (value_of known.now.value) known.now.bytes.now) }
{
    if kind.is_number() {
        explain_list(lines, known, kind)
    } else {
        explain_value(lines, known, kind)
    }
}

/// Adds the lines of a record of a list of numbers of a kind, which may be packed.
fn explain_list(lines: &mut Lines, known: &Known<'_>, kind: Kind) -> Result<bool, AllocError>
    ensures { Explains lines.old lines.new result
        (list_explained lines.old.path.items known.now.field (kind_view kind) (value_of known.now.value)
        known.now.bytes.now) }
{
    match known.value {
        WireValue::Length(run) => explain_run(lines, known, run),
        WireValue::Varint(number) => explain_number(lines, known, kind, number),
        WireValue::Fixed64(_) => add_misplaced(lines, known, kind),
        WireValue::Fixed32(_) => add_misplaced(lines, known, kind),
        WireValue::Group(_) => add_misplaced(lines, known, kind),
    }
}

/// Adds the lines of a record of a field of a kind.
#[cycle(payload)]
fn explain_value(lines: &mut Lines, known: &Known<'_>, kind: Kind) -> Result<bool, AllocError>
    ensures { Explains lines.old lines.new result
        (value_explained (nested_explained known.now.left) lines.old.path.items known.now.field (kind_view kind)
        (value_of known.now.value) known.now.bytes.now) }
{
    match known.value {
        WireValue::Varint(number) => explain_number(lines, known, kind, number),
        WireValue::Length(bytes) => match kind {
            Kind::Text => explain_text(lines, known, bytes),
            Kind::ByteString => add_content(lines, known, "bytes", bytes),
            Kind::Message(schema) => explain_message(lines, known, schema, bytes),
            Kind::U32 => add_misplaced(lines, known, kind),
            Kind::U64 => add_misplaced(lines, known, kind),
            Kind::Boolean => add_misplaced(lines, known, kind),
            Kind::Enumeration => add_misplaced(lines, known, kind),
        },
        WireValue::Fixed64(_) => add_misplaced(lines, known, kind),
        WireValue::Fixed32(_) => add_misplaced(lines, known, kind),
        WireValue::Group(_) => add_misplaced(lines, known, kind),
    }
}

/// Adds the line of a record that is a varint, of a field of a kind.
fn explain_number(
    lines: &mut Lines,
    known: &Known<'_>,
    kind: Kind,
    number: u64,
) -> Result<bool, AllocError>
    ensures { Explains lines.old lines.new result
        (number_explained lines.old.path.items known.now.field (kind_view kind) number known.now.bytes.now) }
{
    if !kind.is_number() {
        return add_misplaced(lines, known, kind);
    }
    lines.add(known.bytes, Piece::Number(known.field, number, Some(kind)))?;
    Ok(false)
}

/// Adds the lines of a record of a message field.
#[cycle(payload)]
fn explain_message(
    lines: &mut Lines,
    known: &Known<'_>,
    schema: u32,
    bytes: &[u8],
) -> Result<bool, AllocError>
    ensures { Explains lines.old lines.new result (message_explained (nested_explained known.now.left)
        lines.old.path.items known.now.field (codes "a message") schema bytes.now known.now.bytes.now) }
{
    add_front(lines, known, "a message", bytes)?;
    explain_nested(lines, known, schema, bytes)
}

/// Adds the lines of a nested message.
#[cycle(payload)]
fn explain_nested(
    lines: &mut Lines,
    known: &Known<'_>,
    schema: u32,
    bytes: &[u8],
) -> Result<bool, AllocError>
    ensures { Explains lines.old lines.new result (nested_explained known.now.left
        (lines.old.path.items ++ known.now.field ∷ []) schema bytes.now) }
{
    if known.left == 0 {
        return add_fault_in(lines, known.field, Reason::TooDeep);
    }
    lines.enter(known.field)?;
    let ended = explain_records(lines, schema, bytes, known.left - 1)?;
    lines.leave();
    Ok(ended)
}

/// Adds the lines of a record of no field of its schema.
#[cycle(payload)]
fn explain_unknown(lines: &mut Lines, known: &Known<'_>) -> Result<bool, AllocError>
    ensures { Explains lines.old lines.new result
        (unknown_explained (nested_explained known.now.left) known.now.left lines.old.path.items known.now.field
        (value_of known.now.value) known.now.bytes.now) }
{
    match known.value {
        WireValue::Varint(number) => add_line(
            lines,
            known,
            Piece::Number(known.field, number, None),
        ),
        WireValue::Fixed64(bytes) => add_line(lines, known, Piece::Fixed(known.field, bytes)),
        WireValue::Fixed32(bytes) => add_line(lines, known, Piece::Fixed(known.field, bytes)),
        WireValue::Length(bytes) => explain_guess(lines, known, bytes),
        WireValue::Group(content) => explain_group(lines, known, content),
    }
}

/// Adds the lines of a group: its first key, its records, and its last key.
#[cycle(payload)]
fn explain_group(lines: &mut Lines, known: &Known<'_>, content: &[u8]) -> Result<bool, AllocError>
    ensures { Explains lines.old lines.new result (group_explained (nested_explained known.now.left)
        lines.old.path.items known.now.field content.now known.now.bytes.now) }
{
    let after = after_varint(known.bytes);
    lines.add(taken(known.bytes, after), Piece::GroupStart(known.field))?;
    explain_nested(lines, known, RAW, content)?;
    let end = rest_after(after, content.len() as u128);
    lines.add(end, Piece::GroupEnd(known.field))?;
    Ok(false)
}

/// The bytes after the varint that bytes begin with.
fn after_varint(bytes: &[u8]) -> &[u8]
    ensures { result.now ≡ after_varint (varint_at bytes.now) }
{
    match read_varint(bytes) {
        Some((_, rest)) => rest,
        None => &[],
    }
}

/// Adds the line of a whole record.
fn add_line(lines: &mut Lines, known: &Known<'_>, piece: Piece<'_>) -> Result<bool, AllocError>
    ensures { Explains lines.old lines.new result
        (one_line lines.old.path.items known.now.bytes.now (piece_text piece.entry)) }
{
    lines.add(known.bytes, piece)?;
    Ok(false)
}

/// Adds the lines of a record whose content is a message, if it can be read as one, or else a text or bytes.
#[cycle(payload)]
fn explain_guess(lines: &mut Lines, known: &Known<'_>, bytes: &[u8]) -> Result<bool, AllocError>
    ensures { Explains lines.old lines.new result
        (guess_explained (nested_explained known.now.left) known.now.left lines.old.path.items known.now.field
        bytes.now known.now.bytes.now) }
{
    if !reads_as_message(bytes, known.left) {
        return add_content(lines, known, guess(bytes), bytes);
    }
    add_front(lines, known, "read as a message", bytes)?;
    explain_nested(lines, known, RAW, bytes)
}

/// Adds the lines of a record of a text.
fn explain_text(lines: &mut Lines, known: &Known<'_>, bytes: &[u8]) -> Result<bool, AllocError>
    ensures { Explains lines.old lines.new result
        (text_explained lines.old.path.items known.now.field bytes.now known.now.bytes.now) }
{
    if is_text(bytes) {
        add_content(lines, known, "a text", bytes)
    } else {
        add_fault_in(lines, known.field, Reason::NotUtf8)
    }
}

/// Adds the lines of a record of a packed field: one for each number.
fn explain_run(lines: &mut Lines, known: &Known<'_>, run: &[u8]) -> Result<bool, AllocError>
    ensures { Explains lines.old lines.new result
        (run_explained lines.old.path.items known.now.field run.now known.now.bytes.now) }
{
    add_front(lines, known, "numbers", run)?;
    lines.enter(known.field)?;
    let ended = explain_numbers(lines, run)?;
    lines.leave();
    Ok(ended)
}

/// Adds one line per varint of a run, up to a fault. Returns whether there is one.
fn explain_numbers(lines: &mut Lines, run: &[u8]) -> Result<bool, AllocError>
    ensures { Explains lines.old lines.new result (numbers_past lines.old.path.items 0 run.now) }
{
    let mut rest = run;
    while !rest.is_empty() {
        let Some((number, after)) = read_varint(rest) else {
            return lines.add_fault(varint_fault(rest));
        };
        lines.add(taken(rest, after), Piece::Element(number))?;
        rest = after;
    }
    Ok(false)
}

/// Adds the line of a record whose wire type is not that of its field, which is of a kind.
fn add_misplaced(lines: &mut Lines, known: &Known<'_>, kind: Kind) -> Result<bool, AllocError>
    ensures { Explains lines.old lines.new result
        (misplaced lines.old.path.items known.now.field (kind_view kind)) }
{
    add_fault_in(lines, known.field, Reason::WireType(kind))
}

/// Adds the lines of a record with this content, which is a text or bytes.
fn add_content(
    lines: &mut Lines,
    known: &Known<'_>,
    what: &'static str,
    content: &[u8],
) -> Result<bool, AllocError>
    ensures { Explains lines.old lines.new result
        (content_explained lines.old.path.items known.now.field what.now content.now known.now.bytes.now) }
{
    add_front(lines, known, what, content)?;
    if content.len() == 0 {
        return Ok(false);
    }
    lines.enter(known.field)?;
    lines.add(content, Piece::Quoted(content))?;
    lines.leave();
    Ok(false)
}

/// Adds the line of the bytes before the content of a record.
fn add_front(
    lines: &mut Lines,
    known: &Known<'_>,
    what: &'static str,
    content: &[u8],
) -> Result<(), AllocError>
    ensures { Adds lines.old lines.new result
        (front_line lines.old.path.items known.now.field what.now content.now known.now.bytes.now ∷ []) }
{
    lines.add(
        taken(known.bytes, content),
        Piece::Length(known.field, content.len(), what),
    )
}

/// The bytes before others, which are the end of the same.
fn taken<'a>(bytes: &'a [u8], rest: &[u8]) -> &'a [u8]
    ensures { result.now ≡ taken bytes.now rest.now }
{
    &bytes[..bytes.len().saturating_sub(rest.len())]
}

/// Whether bytes are read as a message, whose records may be nested one less than `left` deep.
fn reads_as_message(bytes: &[u8], left: u32) -> bool
    ensures { result ≡ reads_as_message left bytes.now }
{
    if bytes.len() == 0 {
        return false;
    }
    if left == 0 {
        return false;
    }
    is_message(bytes, left - 1)
}

/// Whether bytes are the records of a message, in which messages and groups may be nested `left` deep.
fn is_message(bytes: &[u8], left: u32) -> bool
    ensures { result ≡ accepts_payload table left raw bytes.now }
{
    let mut rest = bytes;
    while !rest.is_empty() {
        let Some((_, _, after)) = read_record(rest, left) else {
            return false;
        };
        rest = after;
    }
    true
}

/// What bytes are that are not those of a message.
fn guess(bytes: &[u8]) -> &'static str
    ensures { result.now ≡ guess_text bytes.now }
{
    if is_text(bytes) { "a text" } else { "bytes" }
}
