//! The errors of lines, with the paths to the rejected values.
//!
//! What reads the members of a line hands back a `Fault`, which is a few bytes and copied at each step; the error, with
//! its texts, is made of it once.

ghost use Rattle.std.specs.Prelude.{◌≡◌, ◌≢◌, ℕ, List, [], codes, Some, None, option_map, IfOk};
ghost use Rattle.std.specs.String.{string_bytes};
ghost use Rattle.make_lines.specs.Errors.{LineFault, lack, fault_of, at, inside as fault_inside, path_inside};
ghost use Rattle.make_lines.specs.declared.error.LineReason.TheVariants as variant;
ghost use Rattle.make_lines.specs.Places.{name_at};
ghost use Rattle.make_lines.specs.Appending.{said_of, untyped, text_fault, message_error, reason_of, IsSaid};

use crate::error::{LineError, LineReason};
use crate::members::{LINE, Line, MESSAGE, TYPE, name_at};
use crate::text::is_cut_off;
use shared_core_json_reader::readable::{ReadableSchemas, TableSchema};
use shared_core_json_reader::{JsonReadError, Reason, payload_of_node_in};
use std::alloc::{AllocError, Global};

/// Why a line is rejected: for the value of the member of a place, or for itself if the place is `LINE`. If no type has
/// its type's name, the line has that name.
#[derive(Clone, Copy, Drop)]
pub struct Fault {
    pub reason: LineReason,
    pub place: u8,
}

impl Fault {
    /// The fault of the value of a place.
    #[inline(always)]
    pub fn at(place: u8, reason: LineReason) -> Fault
        ensures { (result.reason ≡ reason) × (result.place ≡ place) }
    {
        Fault { reason, place }
    }

    /// The fault of a failed allocation.
    pub fn out_of_memory() -> Fault
        ensures { result.reason ≡ lack }
    {
        Fault::at(LINE, LineReason::Json(Reason::OutOfMemory))
    }
}

/// Why the item of a line is rejected. The path to a value inside its message is found where the error is made.
#[derive(Clone, Copy, Drop)]
pub enum ItemFault {
    Line(Fault),
    /// For a value inside its message, which is of this schema, by its index.
    Message(u32, Reason),
}

impl From<Fault> for ItemFault {
    ghost use Rattle.std.specs.Prelude.{◌≡◌};
    ghost use Rattle.make_lines.specs.declared.reject.ItemFault.TheVariants.{Line};

    ghost from_gives = { λ fault item. item ≡ Line fault };

    fn from(fault: Fault) -> ItemFault {
        ItemFault::Line(fault)
    }
}

/// The error of a failed allocation.
pub fn out_of_memory(alloc: Global) -> LineError
    ensures { result.reason ≡ lack }
{
    without_path(alloc, LineReason::Json(Reason::OutOfMemory), None)
}

/// The error for a line, at an offset if it stops being JSON there.
fn without_path(alloc: Global, reason: LineReason, offset: Option<usize>) -> LineError
    ensures { fault_of result ≡ record { reason = reason; offset = offset; path = []; name = None } }
{
    LineError {
        reason,
        offset,
        path: String::new(alloc),
        name: None,
    }
}

/// A copy of a text.
fn copied(alloc: Global, text: &str) -> Result<String, AllocError>
    ensures { IfOk result (λ copy. string_bytes copy ≡ text.now) }
{
    let mut copy = String::new(alloc);
    copy.push_str(text)?;
    Ok(copy)
}

/// The text of a path to what is inside a member.
fn path_inside(alloc: Global, member: &str, inside: &str) -> Result<String, AllocError>
    ensures { IfOk result (λ path. string_bytes path ≡ path_inside member.now inside.now) }
{
    let mut path = String::new(alloc);
    path.push_str(member)?;
    if !member.is_empty() && !inside.is_empty() {
        path.push('.')?;
    }
    path.push_str(inside)?;
    Ok(path)
}

/// The error for a member, or for the line if the name is empty.
pub fn reject(alloc: Global, reason: LineReason, member: &str) -> LineError
    ensures reason { result.reason ≢ lack → result.reason ≡ reason }
    ensures fault { result.reason ≢ lack → fault_of result ≡ at member.now reason }
{
    match copied(alloc, member) {
        Ok(path) => LineError {
            reason,
            offset: None,
            path,
            name: None,
        },
        Err(_) => out_of_memory(alloc),
    }
}

/// A copy of the name that no type has, if that is the reason.
fn untyped(
    alloc: Global,
    reason: LineReason,
    line: &Line<'_, '_>,
) -> Result<Option<String>, AllocError>
    ensures { IfOk result (λ name. option_map string_bytes name ≡ untyped reason line.now) }
{
    if reason != LineReason::UnknownType {
        return Ok(None);
    }
    let Some(ty) = line.given(TYPE) else {
        return Ok(None);
    };
    match ty.as_str() {
        Some(name) => Ok(Some(copied(alloc, name)?)),
        None => Ok(None),
    }
}

/// The error that a fault of a line is.
#[cold]
pub fn error_of(alloc: Global, line: &Line<'_, '_>, fault: Fault) -> LineError
    ensures reason { result.reason ≢ lack → result.reason ≡ fault.reason }
    ensures fault { result.reason ≢ lack → fault_of result ≡ said_of line.now fault }
{
    let Ok(path) = copied(alloc, name_at(fault.place)) else {
        return out_of_memory(alloc);
    };
    match untyped(alloc, fault.reason, line) {
        Ok(name) => LineError {
            reason: fault.reason,
            offset: None,
            path,
            name,
        },
        Err(_) => out_of_memory(alloc),
    }
}

/// The error for a rejected value inside a member.
pub fn reject_inside(alloc: Global, error: &JsonReadError, member: &str) -> LineError
    ensures reason { result.reason ≢ lack → result.reason ≡ variant.Json error.now.reason }
    ensures fault { result.reason ≢ lack
        → fault_of result ≡ fault_inside member.now error.now.reason (string_bytes error.now.path) }
{
    match path_inside(alloc, member, error.path.as_str()) {
        Ok(path) => LineError {
            reason: LineReason::Json(error.reason),
            offset: None,
            path,
            name: None,
        },
        Err(_) => out_of_memory(alloc),
    }
}

/// The error for a line that stops being JSON at an offset.
pub fn reject_text(alloc: Global, line: &[u8], offset: usize) -> LineError
    ensures { fault_of result ≡ text_fault line.now offset }
{
    if is_cut_off(line, offset) {
        return without_path(alloc, LineReason::CutOff, None);
    }
    without_path(alloc, LineReason::Json(Reason::NotJson), Some(offset))
}

/// The error for a rejected value inside the message of a line, which is of a schema. The message is read again for the
/// path to the value: of a stream that is one message at most.
#[cold]
fn message_error<T: ReadableSchemas>(
    alloc: Global,
    of: TableSchema<'_, T>,
    line: &Line<'_, '_>,
    reason: Reason,
) -> LineError
    requires { reason ≢ Reason.OutOfMemory
        → (path : List ℕ) × (message_error (T.format of.schemas.now) of.schema line.now
        ≡ Some (reason, path)) }
    ensures reason { result.reason ≢ lack → result.reason ≡ variant.Json reason }
    ensures fault { result.reason ≢ lack
        → (path : List ℕ) × (message_error (T.format of.entry.schemas.now) of.entry.schema line.now
        ≡ Some (reason, path))
        × (fault_of result ≡ fault_inside (codes "message") reason path) }
{
    if reason == Reason::OutOfMemory {
        return out_of_memory(alloc);
    }
    let Some(message) = line.given(MESSAGE) else {
        unreachable!();
    };
    match payload_of_node_in(alloc, of, &message) {
        Ok(_) => unreachable!(),
        Err(error) => reject_inside(alloc, &error, "message"),
    }
}

/// The error that the fault of an item is.
#[cold]
pub fn item_error<T: ReadableSchemas>(
    alloc: Global,
    schemas: &T,
    line: &Line<'_, '_>,
    fault: ItemFault,
) -> LineError
    requires { reason_of fault ≢ lack → (said : LineFault) × IsSaid (T.format schemas.now) line.now fault said }
    ensures reason { result.reason ≢ lack → result.reason ≡ reason_of fault }
    ensures fault { result.reason ≢ lack → IsSaid (T.format schemas.now) line.now fault (fault_of result) }
{
    match fault {
        ItemFault::Line(fault) => error_of(alloc, line, fault),
        ItemFault::Message(schema, reason) => {
            message_error(alloc, TableSchema { schemas, schema }, line, reason)
        }
    }
}
