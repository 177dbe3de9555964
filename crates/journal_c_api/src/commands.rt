//! Comparing two commands, given by their payloads.

ghost use Rattle.std.specs.Prelude.{◌≡◌, length, IfErr, IfOk};
ghost use Rattle.replay_bench.specs.Fields.{texts_of};
ghost use Rattle.journal_c_api.specs.declared.outcome.CallError.TheVariants.{OutOfMemory};
ghost use Rattle.journal_c_api.specs.Outcomes.{Writes, bytes_of};
ghost use Rattle.journal_c_api.specs.Commands.{ReturnsDifference, ReturnsSameness};
ghost use Rattle.journal_c_api.specs.Commands.{ComparesPayloads, IsDifference, IsOneWhereSame};
ghost use Rattle.journal_c_api.specs.Commands.{AreChangedFields, ReturnsChangedField, ReturnsChangedFields};
ghost use Rattle.journal_c_api.specs.Commands.{WritesChangedField, WritesFound, field_bytes, field_numbers, fields_of};
ghost use Rattle.journal_c_api.specs.Payloads.{MeansSecond};

use crate::outcome::{CallError, write_outcome, write_over};
use crate::payloads::decoded;
use replay_bench::{FieldDifference, has_same_bytes, list_fields};
use shared_core::fmt::Difference;
use shared_core::header::{CommandType, MessageType};
use shared_core::messages::{CommandMessage, CommandVisitor, visit_command};
use shared_core::wire::WireRecord;
use std::alloc::Global;

/// The number of numbers that a changed field is written as.
const CHANGED_FIELD_NUMBERS: usize = 3;

/// 1 if the commands that two payloads of a code mean are the same for a replay, otherwise 0. If payloads are ignored,
/// the content of user data is not compared, but that of a signal is.
///
/// `UnknownType` if the code is that of no command, otherwise `Malformed` if the first payload is not well-formed for
/// the type, otherwise `MalformedSecond` if the second is not. Payloads with the same bytes need no heap: nothing can
/// fail then.
pub fn header_eq(
    alloc: Global,
    code: u16,
    first: &[u8],
    second: &[u8],
    ignore_payloads: bool,
) -> Result<usize, CallError>
    ensures { ReturnsSameness code ignore_payloads first.now second.now result }
{
    let ty = MessageType::try_from(code)?;
    if CommandType::try_from(ty).is_ok() && has_same_bytes(ty, first, second) {
        return Ok(1);
    }
    let comparing = Comparing {
        alloc,
        first,
        second,
        ignore_payloads,
    };
    visit_command(ty, comparing).ok_or(CallError::UnknownType)?
}

/// Writes one line per printed field in which the commands that two payloads of a code mean differ: a line feed, three
/// spaces and `name: first != second`.
///
/// The errors are those of `header_eq`.
#[tactic(auto, using(crate::proofs::Writing::writes_outcome))]
pub fn write_difference(
    alloc: Global,
    code: u16,
    first: &[u8],
    second: &[u8],
    out: &mut [u8],
) -> Result<usize, CallError>
    ensures { Writes (ReturnsDifference code first.now second.now) out.old out.new result }
{
    write_outcome(difference(alloc, code, first, second), out)
}

/// The lines of the printed fields in which the commands that two payloads of a code mean differ.
fn difference(alloc: Global, code: u16, first: &[u8], second: &[u8]) -> Result<Vec<u8>, CallError>
    ensures { ReturnsDifference code first.now second.now (bytes_of result) }
{
    let ty = MessageType::try_from(code)?;
    let printing = Printing {
        alloc,
        first,
        second,
    };
    visit_command(ty, printing).ok_or(CallError::UnknownType)?
}

/// Writes one of the printed fields in which the commands that two payloads of a code mean differ, the one of this
/// index: as numbers how many bytes its name has, and what the first and the second one has; and as bytes these three,
/// one after the other. Returns how many they are, which is never 0; or 0 if there are fewer fields, and nothing is
/// written. If there is no room for the bytes, the numbers are written nevertheless.
///
/// `NoRoom` if the slice has fewer than three numbers, otherwise the errors of `header_eq`.
pub fn write_changed_field(
    alloc: Global,
    code: u16,
    index: u32,
    first: &[u8],
    second: &[u8],
    numbers: &mut [u64],
    out: &mut [u8],
) -> Result<usize, CallError>
    ensures { WritesChangedField (ReturnsChangedField code index (length numbers.old) first.now second.now)
        numbers.old numbers.new out.old out.new result }
{
    if numbers.len() < CHANGED_FIELD_NUMBERS {
        return Err(CallError::NoRoom);
    }
    let fields = changed_fields(alloc, code, first, second)?;
    match fields.as_slice().get(index as usize) {
        Some(field) => write_field(alloc, field, numbers, out),
        None => Ok(0),
    }
}

/// Writes a field as numbers and as bytes. Returns how many bytes they are.
fn write_field(
    alloc: Global,
    field: &FieldDifference,
    numbers: &mut [u64],
    out: &mut [u8],
) -> Result<usize, CallError>
    ensures { WritesFound (texts_of field.now) numbers.old numbers.new out.old out.new result }
{
    let bytes = field_bytes(alloc, field)?;
    write_over(&field_numbers(field), numbers);
    write_over(bytes.as_slice(), out);
    Ok(bytes.len())
}

/// The bytes of a field: its name, and what each of the two commands has.
fn field_bytes(alloc: Global, field: &FieldDifference) -> Result<Vec<u8>, CallError>
    ensures ok { IfOk result (λ bytes. bytes.items ≡ field_bytes (texts_of field.now)) }
    ensures err { IfErr result (λ error. error ≡ OutOfMemory) }
{
    let mut bytes = Vec::new(alloc);
    bytes.extend_from_slice(field.name.as_bytes())?;
    bytes.extend_from_slice(field.recorded.as_bytes())?;
    bytes.extend_from_slice(field.replayed.as_bytes())?;
    Ok(bytes)
}

/// How many of them are which.
fn field_numbers(field: &FieldDifference) -> [u64; CHANGED_FIELD_NUMBERS]
    ensures { result ≡ field_numbers (texts_of field.now) }
{
    [
        field.name.len() as u64,
        field.recorded.len() as u64,
        field.replayed.len() as u64,
    ]
}

/// The printed fields in which the commands that two payloads of a code mean differ.
fn changed_fields(
    alloc: Global,
    code: u16,
    first: &[u8],
    second: &[u8],
) -> Result<Vec<FieldDifference>, CallError>
    ensures { ReturnsChangedFields code first.now second.now (fields_of result) }
{
    let ty = MessageType::try_from(code)?;
    let listing = Listing {
        alloc,
        first,
        second,
    };
    visit_command(ty, listing).ok_or(CallError::UnknownType)?
}

/// Decodes two payloads, and returns 1 if the commands are the same, otherwise 0.
#[derive(Drop)]
struct Comparing<'a> {
    alloc: Global,
    first: &'a [u8],
    second: &'a [u8],
    ignore_payloads: bool,
}

impl<'a> CommandVisitor for Comparing<'a> {
    type Output = Result<usize, CallError>;

    ghost results = { λ self ty schema output. ComparesPayloads
        (IsOneWhereSame schema self.ignore_payloads) schema self.first.now self.second.now output };

    fn visit<M: CommandMessage>(self) -> Result<usize, CallError> {
        let first = decoded::<M>(self.alloc, self.first)?;
        let second = decoded_second::<M>(self.alloc, self.second)?;
        Ok(usize::from(first.header_eq(&second, self.ignore_payloads)))
    }
}

/// Decodes two payloads, and returns the lines of the printed fields in which the commands differ.
#[derive(Drop)]
struct Printing<'a> {
    alloc: Global,
    first: &'a [u8],
    second: &'a [u8],
}

impl<'a> CommandVisitor for Printing<'a> {
    type Output = Result<Vec<u8>, CallError>;

    ghost results = { λ self ty schema output. ComparesPayloads
        (IsDifference schema) schema self.first.now self.second.now (bytes_of output) };

    fn visit<M: CommandMessage>(self) -> Result<Vec<u8>, CallError> {
        let actual = decoded::<M>(self.alloc, self.first)?;
        let expected = decoded_second::<M>(self.alloc, self.second)?;
        let difference = Difference {
            actual: &actual,
            expected: &expected,
        };
        Ok(difference.to_string(self.alloc)?.into_bytes())
    }
}

/// Decodes two payloads, and returns the printed fields in which the commands differ.
#[derive(Drop)]
struct Listing<'a> {
    alloc: Global,
    first: &'a [u8],
    second: &'a [u8],
}

impl<'a> CommandVisitor for Listing<'a> {
    type Output = Result<Vec<FieldDifference>, CallError>;

    ghost results = { λ self ty schema output. ComparesPayloads
        (AreChangedFields schema) schema self.first.now self.second.now (fields_of output) };

    fn visit<M: CommandMessage>(self) -> Result<Vec<FieldDifference>, CallError> {
        let recorded = decoded::<M>(self.alloc, self.first)?;
        let replayed = decoded_second::<M>(self.alloc, self.second)?;
        match list_fields(self.alloc, true, &recorded, &replayed) {
            Ok(fields) => Ok(fields),
            Err(_) => Err(CallError::OutOfMemory),
        }
    }
}

/// The record that the second of two payloads means.
fn decoded_second<M: WireRecord>(alloc: Global, payload: &[u8]) -> Result<M, CallError>
    ensures { MeansSecond M.schema M.parts payload.now result }
{
    match decoded::<M>(alloc, payload) {
        Err(CallError::Malformed) => Err(CallError::MalformedSecond),
        outcome => outcome,
    }
}
