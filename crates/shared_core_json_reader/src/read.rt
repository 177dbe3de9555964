//! Reading a text: its JSON value is read into a table, and the payload is appended by the table. Each step is a call
//! of its own, for a text of which a message is a part.

ghost use Rattle.std.specs.Prelude.{◌≡◌, ◌≢◌, ◌++◌, ℕ, List, [], true, Some, None, IfOk, IfErr, IfSome, OnOk};
ghost use Rattle.std.specs.Prelude.{MatchOption, MatchResult};
ghost use Rattle.std.specs.String.{string_bytes};
ghost use Rattle.shared_core_codec.specs.Payloads.{IsAccepted, payload_meaning};
ghost use Rattle.shared_core_json_reader.specs.Rows.{protocol};
ghost use Rattle.shared_core_json_reader.specs.Reading.{only_value, json_of_text, message_read, Means};
ghost use Rattle.shared_core_json_reader.specs.Reading.{value_payload, value_payload_in, text_meaning, text_payload};
ghost use Rattle.shared_core_json_reader.specs.FirstError.{offset_of, step_text, path_text, step_view, trail_view};
ghost use Rattle.shared_core_json_reader.specs.FirstError.{message_error, value_error, value_error_in};
ghost use Rattle.shared_core_json_reader.specs.FirstError.{HasError, SaysError, IsNotJson};

use crate::error::{JsonReadError, Reason};
use crate::payload::{Step, Walk, append_message};
use crate::readable::{ReadableSchemas, TableSchema};
use json::{Reader, Scratch};
use json_table::{Node, Table};
use shared_core_codec::any_table::ProtocolSchemas;
use shared_core_wire::records::LEVELS;
use std::alloc::{AllocError, Global};
use std::mem;

/// How deep arrays and objects may be nested in a text; a message one hundred levels deep needs 202 at most.
const MAX_DEPTH: usize = 1000;

/// How many bytes a text has at most that is parsed at once, for which the buffers grow to five bytes for each.
const SHORT: usize = 65536;

/// How many bytes of a payload there is room for before it grows: most have fewer.
const ROOM: usize = 256;

/// Room for an entry of the table is made for each eight bytes of a text, and for four more, which short texts need; a
/// table with more entries grows.
const BYTES_OF_ENTRY: usize = 8;

const MORE_ENTRIES: usize = 4;

/// The one value of a text.
fn parse<'a>(alloc: Global, reader: &mut Reader<'a>, room: usize) -> Result<Table<'a>, Reason>
    ensures value { MatchResult result (λ table. only_value reader.old ≡ Some table)
        (λ reason. reason ≢ Reason.OutOfMemory → only_value reader.old ≡ None) }
    ensures reason { IfErr result (λ reason. reason ≢ Reason.OutOfMemory → reason ≡ Reason.NotJson) }
{
    let table = match Table::read(alloc, reader, MAX_DEPTH, room) {
        Ok(table) => table,
        Err(json::Error::Invalid) => return Err(Reason::NotJson),
        // its other errors do not come here
        Err(_) => return Err(Reason::OutOfMemory),
    };
    match reader.next() {
        Some(_) => Err(Reason::NotJson),
        None => Ok(table),
    }
}

/// Appends the text of a step; a name has a point before it, unless it is first.
fn push_step(text: &mut String, is_first: bool, step: &Step<'_>) -> Result<(), AllocError>
    ensures { OnOk result (string_bytes text.new ≡ string_bytes text.old ++ step_text is_first (step_view step.now)) }
{
    match step {
        Step::Member(name) => {
            if !is_first {
                text.push('.')?;
            }
            text.push_str(name)
        }
        Step::Element(index) => write!(text, "[{index}]"),
    }
}

/// The text of a path whose steps were noted from the rejected value outwards, as `headers[2].key`.
fn path_text(alloc: Global, trail: &mut Vec<Step<'_>>) -> Result<String, AllocError>
    ensures { IfOk result (λ text. string_bytes text ≡ path_text true (trail_view trail.old.items)) }
{
    let mut text = String::new(alloc);
    let mut is_first = true;
    while let Some(step) = trail.pop() {
        push_step(&mut text, is_first, &step)?;
        is_first = false;
    }
    Ok(text)
}

/// The error for a reason, at an offset if the text is not JSON.
fn error_at(alloc: Global, reason: Reason, offset: usize) -> JsonReadError
    ensures { (result.reason ≡ reason) × (string_bytes result.path ≡ [])
        × (result.offset ≡ offset_of reason offset) }
{
    JsonReadError {
        reason,
        offset: if reason == Reason::NotJson {
            Some(offset)
        } else {
            None
        },
        path: String::new(alloc),
    }
}

/// The error for a value, and the path to it by the steps that were noted.
fn error_on(alloc: Global, reason: Reason, trail: &mut Vec<Step<'_>>) -> JsonReadError
    ensures { result.reason ≢ Reason.OutOfMemory → (result.reason ≡ reason) × (result.offset ≡ None)
        × (string_bytes result.path ≡ path_text true (trail_view trail.old.items)) }
{
    match path_text(alloc, trail) {
        Ok(path) => JsonReadError {
            reason,
            offset: None,
            path,
        },
        Err(_) => error_at(alloc, Reason::OutOfMemory, 0),
    }
}

/// Returns the table of the JSON value that a text is, if the text has at most 65,536 bytes, and its arrays and objects
/// are nested at most 128 deep. The table borrows from the text and from the buffers. `None` says nothing;
/// `table_of_text`, which takes longer, takes any text.
#[inline]
pub fn short_table<'a>(alloc: Global, text: &'a [u8], scratch: &'a mut Scratch) -> Option<Table<'a>>
    ensures { IfSome result (λ table. json_of_text text.now ≡ Some table) }
{
    if text.len() > SHORT {
        return None;
    }
    let Ok(text) = simdutf8::compat::from_utf8(text) else {
        return None;
    };
    Table::parse(alloc, text, scratch).ok()
}

/// Returns the table of the JSON value that a text is, which borrows from the text and from the buffers. The only
/// errors are `NotJson`, with the offset at which the text stops being JSON, and `OutOfMemory`.
pub fn table_of_text<'a>(
    alloc: Global,
    text: &'a [u8],
    scratch: &'a mut Scratch,
) -> Result<Table<'a>, JsonReadError>
    ensures ok { IfOk result (λ table. json_of_text text.now ≡ Some table) }
    ensures rejected { IfErr result (λ error. error.reason ≢ Reason.OutOfMemory → json_of_text text.now ≡ None) }
    ensures place { IfErr result (λ error. error.reason ≢ Reason.OutOfMemory → IsNotJson error text.now) }
{
    let text = match simdutf8::compat::from_utf8(text) {
        Ok(text) => text,
        Err(error) => return Err(error_at(alloc, Reason::NotJson, error.valid_up_to())),
    };
    let Ok(mut reader) = Reader::new(text, scratch) else {
        return Err(error_at(alloc, Reason::OutOfMemory, 0));
    };
    match parse(
        alloc,
        &mut reader,
        text.len() / BYTES_OF_ENTRY + MORE_ENTRIES,
    ) {
        Ok(table) => Ok(table),
        Err(reason) => Err(error_at(alloc, reason, reader.offset().min(text.len()))),
    }
}

/// Appends the canonical payload of what a value means for a schema of a table to the bytes of a walk that is to begin.
fn append_payload<'a, T: ReadableSchemas>(
    walk: &mut Walk<'a>,
    of: TableSchema<'a, T>,
    node: &Node<'_, 'a>,
) -> Result<(), Reason>
    requires out { walk.old.out.items ≡ [] }
    requires trail { walk.old.trail.items ≡ [] }
    ensures ok { OnOk result (value_payload_in (T.format of.entry.schemas.now) of.entry.schema node.now
        ≡ Some walk.new.out.items) }
    ensures means { OnOk result (Means (T.format of.entry.schemas.now) of.entry.schema node.now walk.new.out.items) }
    ensures rejected { IfErr result (λ reason. reason ≢ Reason.OutOfMemory
        → value_payload_in (T.format of.entry.schemas.now) of.entry.schema node.now ≡ None) }
    ensures error { HasError result (message_error (T.format of.entry.schemas.now) 101 of.entry.schema node.now)
        walk.new.trail.items }
{
    append_message(walk, of, node, LEVELS + 1)?;
    Ok(())
}

/// Puts the canonical payload of what a JSON value means for a schema of a table into a buffer, which is emptied first
/// and grows where it has too little room. The error is the reason of that of `payload_of_node_in`, without the path;
/// part of the payload may be in the buffer then.
pub fn payload_into_in<'a, T: ReadableSchemas>(
    alloc: Global,
    of: TableSchema<'a, T>,
    node: &Node<'_, 'a>,
    payload: &mut Vec<u8>,
) -> Result<(), Reason>
    ensures ok { OnOk result (value_payload_in (T.format of.entry.schemas.now) of.entry.schema node.now
        ≡ Some payload.new.items) }
    // the payload is accepted, and means what the value means
    ensures means { OnOk result (Means (T.format of.entry.schemas.now) of.entry.schema node.now payload.new.items) }
    ensures rejected { IfErr result (λ reason. reason ≢ Reason.OutOfMemory
        → value_payload_in (T.format of.entry.schemas.now) of.entry.schema node.now ≡ None) }
    // the reason of the first error of the value
    ensures error { MatchResult result
        (λ _. value_error_in (T.format of.entry.schemas.now) of.entry.schema node.now ≡ None)
        (λ reason. reason ≢ Reason.OutOfMemory
        → (path : List ℕ)
        × (value_error_in (T.format of.entry.schemas.now) of.entry.schema node.now ≡ Some (reason, path))) }
{
    payload.clear();
    let mut walk = Walk::new(alloc, mem::replace(payload, Vec::new(alloc)));
    let result = append_payload(&mut walk, of, node);
    *payload = walk.out;
    result
}

/// The same for a schema of the protocol.
pub fn payload_into(
    alloc: Global,
    schema: u32,
    node: &Node<'_, '_>,
    payload: &mut Vec<u8>,
) -> Result<(), Reason>
    ensures ok { OnOk result (value_payload schema node.now ≡ Some payload.new.items) }
    // the payload is accepted, and means what the value means
    ensures means { OnOk result (IsAccepted schema payload.new.items
        × (message_read protocol 101 schema node.now ≡ Some (payload_meaning schema payload.new.items))) }
    ensures rejected { IfErr result (λ reason. reason ≢ Reason.OutOfMemory
        → value_payload schema node.now ≡ None) }
    // the reason of the first error of the value
    ensures error { MatchResult result (λ _. value_error schema node.now ≡ None)
        (λ reason. reason ≢ Reason.OutOfMemory
        → (path : List ℕ) × (value_error schema node.now ≡ Some (reason, path))) }
{
    let of = TableSchema {
        schemas: &ProtocolSchemas,
        schema,
    };
    payload_into_in(alloc, of, node, payload)
}

/// Returns the canonical payload of what a JSON value means for a schema of a table, as `payload_of` does for a text.
/// Its errors are those of `Reason` except for `NotJson`, with a path that begins in the value.
pub fn payload_of_node_in<'a, T: ReadableSchemas>(
    alloc: Global,
    of: TableSchema<'a, T>,
    node: &Node<'_, 'a>,
) -> Result<Vec<u8>, JsonReadError>
    ensures ok { IfOk result (λ payload. value_payload_in (T.format of.entry.schemas.now) of.entry.schema node.now
        ≡ Some payload.items) }
    // the payload is accepted, and means what the value means
    ensures means { IfOk result
        (λ payload. Means (T.format of.entry.schemas.now) of.entry.schema node.now payload.items) }
    ensures rejected { IfErr result (λ error. error.reason ≢ Reason.OutOfMemory
        → value_payload_in (T.format of.entry.schemas.now) of.entry.schema node.now ≡ None) }
    // the first error of the value, and the path to the rejected value
    ensures error { MatchResult result
        (λ _. value_error_in (T.format of.entry.schemas.now) of.entry.schema node.now ≡ None)
        (λ error. error.reason ≢ Reason.OutOfMemory
        → SaysError error (value_error_in (T.format of.entry.schemas.now) of.entry.schema node.now)) }
{
    let Ok(room) = Vec::with_capacity(alloc, ROOM) else {
        return Err(error_at(alloc, Reason::OutOfMemory, 0));
    };
    let mut walk = Walk::new(alloc, room);
    match append_payload(&mut walk, of, node) {
        Ok(()) => Ok(walk.out),
        Err(reason) => Err(error_on(alloc, reason, &mut walk.trail)),
    }
}

/// The same for a schema of the protocol.
pub fn payload_of_node(
    alloc: Global,
    schema: u32,
    node: &Node<'_, '_>,
) -> Result<Vec<u8>, JsonReadError>
    ensures ok { IfOk result (λ payload. value_payload schema node.now ≡ Some payload.items) }
    // the payload is accepted, and means what the value means
    ensures means { IfOk result (λ payload. IsAccepted schema payload.items
        × (message_read protocol 101 schema node.now ≡ Some (payload_meaning schema payload.items))) }
    ensures rejected { IfErr result (λ error. error.reason ≢ Reason.OutOfMemory
        → value_payload schema node.now ≡ None) }
    // the first error of the value, and the path to the rejected value
    ensures error { MatchResult result (λ _. value_error schema node.now ≡ None)
        (λ error. error.reason ≢ Reason.OutOfMemory
        → SaysError error (value_error schema node.now)) }
{
    let of = TableSchema {
        schemas: &ProtocolSchemas,
        schema,
    };
    payload_of_node_in(alloc, of, node)
}

/// Returns the canonical payload of what a JSON text means for the schema at this index of the table.
///
/// The text is proto3's JSON form of the message. It is an object with the members of its fields in any order, by their
/// names in lower camel case or by their original ones. A number is a number or a string of one, also with a point or
/// an exponent if it is an integer. A value of an enum is its number or its name. Bytes are base64, in the standard
/// alphabet or that of URLs, with padding or without; `null` is absent. The errors are those of `Reason`.
pub fn payload_of(alloc: Global, schema: u32, text: &[u8]) -> Result<Vec<u8>, JsonReadError>
    ensures ok { IfOk result (λ payload. text_payload schema text.now ≡ Some payload.items) }
    // the payload is accepted, and means what the text means
    ensures means { IfOk result (λ payload. IsAccepted schema payload.items
        × (text_meaning schema text.now ≡ Some (payload_meaning schema payload.items))) }
    ensures rejected { IfErr result (λ error. error.reason ≢ Reason.OutOfMemory → text_payload schema text.now ≡ None) }
    // where the text stops being JSON, or the first error of its value
    ensures error { IfErr result (λ error. error.reason ≢ Reason.OutOfMemory
        → MatchOption (json_of_text text.now) (IsNotJson error text.now)
        (λ value. SaysError error (value_error schema value))) }
{
    let mut scratch = Scratch::new(alloc);
    if let Some(table) = short_table(alloc, text, &mut scratch) {
        return payload_of_node(alloc, schema, &table.root());
    }
    let table = match table_of_text(alloc, text, &mut scratch) {
        Ok(table) => table,
        Err(error) => return Err(error),
    };
    payload_of_node(alloc, schema, &table.root())
}
