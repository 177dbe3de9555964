//! Two commands compared.

ghost use Rattle.std.specs.Prelude.{◌≡◌, ◌↔◌, ◌<◌, ◌^◌, Err, IfErr, IfOk, IsSome, IsTrue, Some};
ghost use Rattle.std.specs.Option.{IsSomeAnd};
ghost use Rattle.shared_core_base.specs.CommandType.{command_type_of};
ghost use Rattle.shared_core_codec.specs.Payloads.{IsAccepted};
ghost use Rattle.shared_core_message.specs.Messages.{message_schema};
ghost use Rattle.shared_core.specs.Typed.{MeansParts};
ghost use Rattle.replay_bench.specs.Verdicts.{ReturnsPair, IsPair, bench_error_of, command_message};

use crate::erase::{Erase, EraseVisitor, are_same};
use crate::erasures::visit_erased;
use crate::fields::{FieldDifference, list_fields};
use crate::journals::Ignored;
use crate::verdicts::{BenchError, Side, Verdict};
use bytes::Bytes;
use shared_core::encoding::RawMessage;
use shared_core::errors::{CommandMismatchError, CommandTypeMismatchError};
use shared_core::messages::{CommandMessage, schema_at};
use shared_core::version::Version;
use shared_core::wire::{WireError, is_well_formed};
use shared_core_base::header::MessageType;
use shared_core_codec::record::decode_payload;
use std::alloc::Global;

/// A command that is compared: its type and its payload.
#[derive(Clone, Copy, Drop)]
pub struct CommandPayload<'a> {
    /// The type in its header.
    pub ty: MessageType,
    /// The bytes after the header.
    pub payload: &'a Bytes,
}

impl<'a> CommandPayload<'a> {
    /// Those of a message.
    pub fn of(message: &'a RawMessage) -> CommandPayload<'a>
        ensures ty { result.ty ≡ message.now.header.ty }
        ensures payload { result.payload.now ≡ message.now.payload }
    {
        CommandPayload {
            ty: message.ty(),
            payload: message.payload(),
        }
    }
}

/// Two commands at the same index of two journals, what is ignored of them, and whether the fields in which they differ
/// are listed.
#[derive(Drop)]
pub struct Pair<'a> {
    /// Where the text of a mismatch and its fields are allocated.
    pub alloc: Global,
    /// The index of both, from 0.
    pub index: u64,
    /// The recorded command.
    pub recorded: CommandPayload<'a>,
    /// The command of the replay.
    pub replayed: CommandPayload<'a>,
    /// In what they may differ and be the same.
    pub ignore: Ignored,
    /// Whether `Found` lists the fields.
    pub is_listed: bool,
}

/// A verdict on two commands, and the fields in which they differ, if it is a `HeaderMismatch` and they are listed.
#[derive(Drop)]
pub struct Found {
    /// The verdict: a mismatch of types, or of two commands of one type.
    pub verdict: Verdict,
    /// The fields of the lines of its text, in their order.
    pub fields: Vec<FieldDifference>,
}

/// The result for two commands, or `None` if they are the same. Those of one type whose payloads are the same bytes are
/// the same.
///
/// `Malformed` if they are of one type, and a payload is not well-formed: that of the recorded one, otherwise that of
/// the replayed one.
pub fn compare_commands(pair: Pair<'_>) -> Result<Option<Found>, BenchError>
    requires index { pair.index < 2 ^ 63 }
    requires command { IsSome (command_type_of pair.recorded.ty) }
    ensures { ReturnsPair pair.entry.ignore pair.entry.is_listed pair.entry.index
        (command_message pair.entry.recorded) (command_message pair.entry.replayed) result }
{
    let recorded = pair.recorded.ty;
    let replayed = pair.replayed.ty;
    if recorded == replayed {
        // most commands of a replay have the same bytes: then neither is decoded
        if has_same_bytes(recorded, pair.recorded.payload, pair.replayed.payload) {
            return Ok(None);
        }
        return match visit_erased(recorded, pair) {
            Some(found) => found,
            // the type is a command's
            None => unreachable!(),
        };
    }
    let mismatch = CommandTypeMismatchError::new(pair.index as i64, recorded, replayed);
    let text = mismatch.to_string(pair.alloc)?;
    let verdict = Verdict::TypeMismatch {
        index: pair.index,
        text,
    };
    let fields = Vec::new(pair.alloc);
    Ok(Some(Found { verdict, fields }))
}

/// Whether two payloads are the same bytes, which are well-formed for this type of commands.
pub fn has_same_bytes(ty: MessageType, recorded: &[u8], replayed: &[u8]) -> bool
    ensures { IsTrue result ↔ (recorded.now ≡ replayed.now)
        × IsSomeAnd (message_schema ty) (λ s. IsAccepted s recorded.now) }
{
    recorded == replayed && is_well_formed_command(ty, recorded)
}

/// Whether a payload is well-formed for this type of commands.
#[tactic(auto, using(crate::proofs::EqualForms::at_v7))]
fn is_well_formed_command(ty: MessageType, payload: &[u8]) -> bool
    ensures { IsTrue result ↔ IsSomeAnd (message_schema ty) (λ s. IsAccepted s payload.now) }
{
    // a command has one schema at all versions
    match schema_at(Version::V7, ty) {
        Some(schema) => is_well_formed(schema, payload),
        None => false,
    }
}

impl<'a> Pair<'a> {
    /// Both commands, the recorded one first, as records of their type.
    fn decode<M: CommandMessage>(&self) -> Result<(M, M), BenchError>
        requires allowed { IsPair self.now.index (command_message self.now.recorded)
            (command_message self.now.replayed) M.message_type }
        requires own { message_schema M.message_type ≡ Some M.schema }
        ensures recorded { IfOk result (λ both.
            MeansParts M.schema self.now.recorded.payload.now (M.parts both.0)) }
        ensures replayed { IfOk result (λ both.
            MeansParts M.schema self.now.replayed.payload.now (M.parts both.1)) }
        ensures rejected { IfErr result (λ error. ReturnsPair self.now.ignore self.now.is_listed self.now.index
            (command_message self.now.recorded) (command_message self.now.replayed) (Err error)) }
    {
        let recorded = match decode_payload::<M>(self.alloc, self.recorded.payload) {
            Ok(recorded) => recorded,
            Err(error) => return Err(bench_error(Side::Recorded, self.index, error)),
        };
        let replayed = match decode_payload::<M>(self.alloc, self.replayed.payload) {
            Ok(replayed) => replayed,
            Err(error) => return Err(bench_error(Side::Replayed, self.index, error)),
        };
        Ok((recorded, replayed))
    }
}

impl<'a> EraseVisitor for Pair<'a> {
    type Output = Result<Option<Found>, BenchError>;

    ghost may_visit = { λ self ty.
        IsPair self.index (command_message self.recorded) (command_message self.replayed) ty };

    ghost results = { λ self ty schema output.
        ReturnsPair self.ignore self.is_listed self.index (command_message self.recorded)
        (command_message self.replayed) output };

    fn visit<M: Erase + CommandMessage>(self) -> Result<Option<Found>, BenchError> {
        let (recorded, replayed) = self.decode::<M>()?;
        if are_same(recorded, replayed, self.ignore) {
            return Ok(None);
        }
        // once for all commands that are compared, and with their ids, which the text has too
        let (actual, expected) = self.decode::<M>()?;
        let fields = list_fields(self.alloc, self.is_listed, &actual, &expected)?;
        let mismatch = CommandMismatchError::new(self.index as i64, actual, expected);
        // made at once, so that a verdict holds no payload
        let text = mismatch.to_string(self.alloc)?;
        let verdict = Verdict::HeaderMismatch {
            index: self.index,
            text,
        };
        Ok(Some(Found { verdict, fields }))
    }
}

/// Why the command of a side at an index is not decoded.
fn bench_error(side: Side, index: u64, error: WireError) -> BenchError
    ensures { result ≡ bench_error_of side index error }
{
    match error {
        WireError::Malformed => BenchError::Malformed { side, index },
        WireError::OutOfMemory => BenchError::OutOfMemory,
    }
}
