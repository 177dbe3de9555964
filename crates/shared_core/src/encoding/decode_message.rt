//! Messages decoded: as records of their types, and as notifications.

ghost use Rattle.std.specs.Prelude.{◌≡◌, ◌≢◌, ◌≤◌, ◌<◌, ℕ, IfOk, IfErr, MatchResult, Err, Some};
ghost use Rattle.std.specs.Result.{IsErrOf};
ghost use Rattle.shared_core_codec.specs.Payloads.{IsAccepted};
ghost use Rattle.shared_core_wire.specs.Value.{Parts};
ghost use Rattle.shared_core_base.specs.MessageType.{code_of};
ghost use Rattle.shared_core_codec.specs.Table.{notification_template};
ghost use Rattle.shared_core_message.specs.Messages.{message_schema};
ghost use Rattle.shared_core_stream.specs.declared.encoding.raw_message.RawMessage.{RawMessage as AnyMessage};
ghost use Rattle.shared_core.specs.Typed.{MeansParts, IsCanonical, RejectsPayload, RejectsTyped, mismatch_of};
ghost use Rattle.shared_core.specs.View.{notification_parts, lacking_field, AgreesWithType, ReturnsLacking};
ghost use Rattle.shared_core.specs.View.{IsMissing, IsOfNotification, RejectsNotification};
ghost use Rattle.shared_core.specs.declared.encoding.error.DecodingError.TheVariants as error;
ghost use Rattle.shared_core_wire.specs.declared.error.WireError.TheVariants as wire;

use crate::encoding::DecodingError;
use crate::errors::CommandTypeMismatchError;
use shared_core_codec::record::{self, WireRecord};
use shared_core_message::restate_message::RestateMessage;
use shared_core_parts::notification::Notification;
use shared_core_parts::notification_template::NotificationTemplate;
use shared_core_stream::encoding::RawMessage;
use shared_core_wire::error::WireError;
use std::alloc::Global;

/// A message of a stream decoded: as a record of its type, or as a notification. `RawMessage` implements it.
pub trait DecodeMessage {
    /// The message as it is in the stream.
    ghost raw: { Self → AnyMessage };

    /// The message as a record of its type.
    ///
    /// First the types are compared, without allocating and whatever the payload. If they differ, the result is
    /// `UnexpectedMessageType` with the index, this message's type as the actual and the record's as the expected one.
    /// Then `DecodeMessage` if the payload is not well-formed, `OutOfMemory` if an allocation fails, and if both are
    /// the case either. Bytes fields share the payload.
    fn decode_to<M: RestateMessage>(
        &self,
        alloc: Global,
        command_index: i64,
    ) -> Result<M, DecodingError>
        ensures typed { IfOk result (λ message. (raw self.now).header.ty ≡ M.message_type) }
        ensures ok { IfOk result (λ message. MeansParts M.schema (raw self.now).payload (M.parts message)) }
        ensures err { IfErr result (RejectsTyped M.message_type M.schema (raw self.now) command_index) }
        // whatever the payload
        ensures unexpected { (raw self.now).header.ty ≢ M.message_type
            → result ≡ Err (error.UnexpectedMessageType (mismatch_of M.message_type (raw self.now) command_index)) }
        // what was written is read again
        ensures written { (v : Parts) → (raw self.now).header.ty ≡ M.message_type
            → IsCanonical M.schema v (raw self.now).payload
            → MatchResult result (λ message. M.parts message ≡ v) (λ failure. failure ≡ error.OutOfMemory) };

    /// The message as a record of its type, which the caller knows: what `decode_to` returns if the types are the same.
    ///
    /// `Malformed` if the payload is not well-formed, `OutOfMemory` if an allocation fails, and if both are the case
    /// either. Bytes fields share the payload.
    fn decode_as<M: RestateMessage>(&self, alloc: Global) -> Result<M, WireError>
        requires { (raw self.now).header.ty ≡ M.message_type }
        ensures ok { IfOk result (λ message. MeansParts M.schema (raw self.now).payload (M.parts message)) }
        ensures malformed { IsErrOf result wire.Malformed → ¬ (IsAccepted M.schema (raw self.now).payload) }
        // what was written is read again
        ensures written { (v : Parts) → IsCanonical M.schema v (raw self.now).payload
            → MatchResult result (λ message. M.parts message ≡ v) (λ failure. failure ≡ wire.OutOfMemory) };

    /// The message as a notification of any type: its id and its result, decoded with the template of notifications.
    /// The type must be that of a notification.
    ///
    /// First `DecodeMessage` if the payload is not well-formed for the template of notifications, then `MissingField`
    /// with the field `id` if there is none, then with `result`. `OutOfMemory` if an allocation fails. Bytes fields
    /// share the payload.
    fn decode_as_notification(&self, alloc: Global) -> Result<Notification, DecodingError>
        requires first { 0x8000 ≤ code_of (raw self.now).header.ty }
        requires last { code_of (raw self.now).header.ty < 0xFC00 }
        ensures ok { IfOk result (λ found.
            MeansParts notification_template (raw self.now).payload (notification_parts found)) }
        ensures err { IfErr result (RejectsNotification (raw self.now)) }
        // what the notification's own type accepts is not an error, and the view holds what its meaning holds
        ensures accepts { (s : ℕ) → message_schema (raw self.now).header.ty ≡ Some s
            → IsOfNotification s (raw self.now).payload → IsAccepted notification_template (raw self.now).payload }
        ensures agrees { IfOk result (λ found. (s : ℕ) → message_schema (raw self.now).header.ty ≡ Some s
            → IsOfNotification s (raw self.now).payload
            → AgreesWithType s (raw self.now).payload (notification_parts found)) }
        // a field is missing if and only if no record is one
        ensures lacking { IsAccepted notification_template (raw self.now).payload
            → ReturnsLacking (raw self.now) (lacking_field (raw self.now).payload) result };
}

impl DecodeMessage for RawMessage {
    ghost raw = { λ message. message };

    fn decode_to<M: RestateMessage>(
        &self,
        alloc: Global,
        command_index: i64,
    ) -> Result<M, DecodingError> {
        let actual = self.ty();
        let expected = M::ty();
        if actual == expected {
            return decode_payload(self, alloc);
        }
        Err(DecodingError::UnexpectedMessageType(CommandTypeMismatchError::new(
            command_index,
            actual,
            expected,
        )))
    }

    #[tactic(auto, using(crate::proofs::TypedPayloads::written_means))]
    fn decode_as<M: RestateMessage>(&self, alloc: Global) -> Result<M, WireError> {
        record::decode_payload(alloc, self.payload())
    }

    #[tactic(auto, using(crate::proofs::Views::view_accepts, crate::proofs::Views::view_agrees))]
    fn decode_as_notification(&self, alloc: Global) -> Result<Notification, DecodingError> {
        let template: NotificationTemplate = decode_payload(self, alloc)?;
        let NotificationTemplate { id, result } = template;
        let Some(id) = id else {
            return Err(missing(self, "id"));
        };
        let Some(result) = result else {
            return Err(missing(self, "result"));
        };
        Ok(Notification { id, result })
    }
}

/// The error of a missing field of a notification.
fn missing(message: &RawMessage, field: &'static str) -> DecodingError
    ensures { IsMissing message.now field.now result }
{
    DecodingError::MissingField {
        expected: message.ty(),
        field,
    }
}

/// The payload as a record, whatever the message's type.
#[tactic(auto, using(crate::proofs::TypedPayloads::written_means))]
fn decode_payload<M: WireRecord>(message: &RawMessage, alloc: Global) -> Result<M, DecodingError>
    ensures ok { IfOk result (λ found. MeansParts M.schema message.now.payload (M.parts found)) }
    ensures err { IfErr result (RejectsPayload M.schema message.now) }
    ensures written { (v : Parts) → IsCanonical M.schema v message.now.payload
        → MatchResult result (λ found. M.parts found ≡ v) (λ failure. failure ≡ error.OutOfMemory) }
{
    match record::decode_payload(alloc, message.payload()) {
        Ok(found) => Ok(found),
        Err(WireError::Malformed) => {
            Err(DecodingError::DecodeMessage(message.ty(), WireError::Malformed))
        }
        Err(WireError::OutOfMemory) => Err(DecodingError::OutOfMemory),
    }
}
