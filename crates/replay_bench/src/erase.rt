//! Commands without what is not compared of them: each with its canonical payload, by which it is compared.

ghost use Rattle.std.specs.Prelude.{◌≡◌, ◌↔◌, ℕ, [], IfOk, IsTrue, Some, true};
ghost use Rattle.shared_core_base.specs.declared.header.MessageType.{MessageType as AnyType};
ghost use Rattle.shared_core_message.specs.Messages.{message_schema};
ghost use Rattle.shared_core_compare.specs.Erasure.{erased};
ghost use Rattle.replay_bench.specs.Forms.{HasForm, is_shallow};
ghost use Rattle.replay_bench.specs.Ids.{seen, without_ids, AreSameBut};

use crate::forms::Form;
use crate::journals::Ignored;
use bytes::Bytes;
use shared_core::encoding::{DecodeMessage, RawMessage};
use shared_core::messages::{CommandMessage, EncodingError, RestateMessage, Value};
use shared_core::wire::{WireError, WireRecord};
use std::alloc::{AllocError, Global};

/// Commands that are compared.
pub(crate) trait Erase: RestateMessage {
    /// The command with everything erased that is not compared.
    fn erase(self, alloc: Global, ignore: bool) -> Self
        ensures { Self.parts result ≡ erased Self.schema ignore (Self.parts self) };

    /// The command with its completion ids erased.
    fn without_ids(self) -> Self
        ensures { Self.parts result ≡ without_ids Self.schema (Self.parts self) };

    /// Its messages are not nested deep.
    ghost shallow: { is_shallow 4 Self.schema ≡ true };
}

/// What is done with the record of a command's type, as a `CommandVisitor` does it.
pub(crate) trait EraseVisitor: Sized + Drop {
    /// The result.
    type Output;

    /// Whether it may be called for a type: for every type, unless an impl says otherwise.
    ghost may_visit: { Self → AnyType → Type 0 } = { λ visitor ty. Unit {0} };

    /// What it returns for a type whose payloads have this schema: anything, unless an impl says otherwise.
    ghost results: { Self → AnyType → ℕ → Self.Output → Type 0 } = { λ visitor ty schema output. Unit {0} };

    /// Visits the record of this type.
    fn visit<M: Erase + CommandMessage>(self) -> Self::Output
        requires allowed { may_visit self M.message_type }
        // its payloads have the record's schema
        requires own { message_schema M.message_type ≡ Some M.schema }
        ensures { results self M.message_type M.schema result };
}

/// A command, without its completion ids if these are ignored.
fn seen<M: Erase>(command: M, ids: bool) -> M
    ensures { M.parts result ≡ seen ids M.schema (M.parts command) }
{
    if ids { command.without_ids() } else { command }
}

/// Whether two commands of a type are the same.
pub(crate) fn are_same<M: Erase + CommandMessage>(recorded: M, replayed: M, ignore: Ignored) -> bool
    ensures { IsTrue result ↔ AreSameBut ignore M.schema (M.parts recorded) (M.parts replayed) }
{
    let recorded = seen(recorded, ignore.ids);
    let replayed = seen(replayed, ignore.ids);
    recorded.header_eq(&replayed, ignore.payloads)
}

/// The form of a command of this type.
pub(crate) fn form_as<M: Erase>(
    alloc: Global,
    command: &RawMessage,
    ignore: Ignored,
) -> Result<Form, AllocError>
    requires typed { command.now.header.ty ≡ M.message_type }
    requires own { message_schema M.message_type ≡ Some M.schema }
    ensures { IfOk result (HasForm ignore command.now) }
{
    let decoded = match command.decode_as::<M>(alloc) {
        Ok(decoded) => decoded,
        Err(WireError::Malformed) => return Ok(Form::Malformed),
        Err(WireError::OutOfMemory) => return Err(AllocError),
    };
    let compared = seen(decoded, ignore.ids).erase(alloc, ignore.payloads);
    // it says too that the command fits its schema
    let Some(_) = compared.encoded_len() else {
        return Ok(Form::Unknown);
    };
    match compared.encode_payload(alloc) {
        Ok(form) => Ok(Form::Known(form)),
        Err(EncodingError::PayloadTooLong) => Ok(Form::Unknown),
        Err(EncodingError::OutOfMemory) => Err(AllocError),
    }
}

/// A value without its content.
pub(crate) fn empty_value() -> Value
    ensures { result.content ≡ [] }
{
    Value {
        content: Bytes::new(),
    }
}
