//! Laws of the definitions of this crate, and of the traits that its types derive. Each is the contract of a function
//! that does nothing, or that makes only the calls that it is about.

ghost use Rattle.std.specs.Prelude.{◌≡◌, ◌↔◌, ◌==◌, ◌≢◌, ℕ, IsTrue, false, Ok, Some, None, find, bit_and};
ghost use Rattle.std.specs.Option.{ok_or};
ghost use Rattle.std.specs.Ordering.{nat_cmp};
ghost use Rattle.shared_core_base.specs.MessageType.{code_of, type_of, named_types, IsNamed};
ghost use Rattle.shared_core_base.specs.CommandType.{command_type_of};
ghost use Rattle.shared_core_base.specs.Version.{version_number};
ghost use Rattle.shared_core_base.specs.Error.{command_parts, notification_parts, error_parts};
ghost use Rattle.shared_core_base.specs.Values.{failure_parts, value_parts, header_parts, relationship_parts};
ghost use Rattle.shared_core_base.specs.declared.header.MessageType.{MessageType as AnyType};
ghost use Rattle.shared_core_base.specs.declared.header.MessageType.TheVariants.{CustomEntry};

use crate::command_type::CommandType;
use crate::error::codes::{
    AWAITING_TWO_ASYNC_RESULTS, BAD_REQUEST, CLOSED, INTERNAL, JOURNAL_MISMATCH,
    PROTOCOL_VIOLATION, SUSPENDED, UNSUPPORTED_FEATURE, UNSUPPORTED_MEDIA_TYPE,
};
use crate::error::{
    CommandMetadata, Error, ErrorBehavior, InvocationErrorCode, NotificationMetadata,
};
use crate::header::{MessageHeader, MessageType};
use crate::values::{CommandRelationship, Header, PayloadOptions, TerminalFailure, Value};
use crate::version::{ContentTypeError, Version};
use std::alloc::{AllocError, Global};
use std::cmp::Ordering;

/// A named type's code denotes it, and a custom entry's if and only if no named type has the code and one of its upper
/// six bits is set. The type that a code denotes has that code.
#[tactic(auto, using(crate::proofs::Types::code_of_type, crate::proofs::Types::type_of_code, crate::proofs::Types::type_of_custom))]
pub fn codes_convert_back()
    ensures named { (ty : AnyType) → IsNamed ty → type_of (code_of ty) ≡ Some ty }
    ensures custom { (code : ℕ) → (type_of code ≡ Some (CustomEntry code))
        ↔ ((find (λ ty. code_of ty == code) named_types ≡ None) × (bit_and code 0xFC00 ≢ 0)) }
    ensures read { (code : ℕ) (ty : AnyType) → type_of code ≡ Some ty → code_of ty ≡ code }
{}

/// Every command type is recovered from its message type, but `CancelInvocation`, which is sent as a signal and
/// becomes `SendSignal`.
pub fn command_types_convert_back(command: CommandType) -> Result<CommandType, MessageType>
    ensures sent { command ≢ CommandType.CancelInvocation → result ≡ Ok command }
    ensures cancelled { command ≡ CommandType.CancelInvocation → result ≡ Ok CommandType.SendSignal }
{
    CommandType::try_from(MessageType::from(command))
}

/// A message type that has a command type converts to it; one that has none is rejected, and is returned unchanged.
pub fn rejected_types_come_back(ty: MessageType) -> Result<CommandType, MessageType>
    ensures { result ≡ ok_or (command_type_of ty) ty }
{
    CommandType::try_from(ty)
}

/// Versions are ordered by their numbers.
pub fn compare_versions(a: Version, b: Version) -> Ordering
    ensures { result ≡ nat_cmp (version_number a) (version_number b) }
{
    a.cmp(&b)
}

/// Each version is read again from its content type.
pub fn content_types_convert_back(
    alloc: Global,
    version: Version,
) -> Result<Version, ContentTypeError>
    ensures { result ≡ Ok version }
{
    Version::from_str(alloc, version.content_type())
}

/// The codes have the numbers that the protocol gives them.
// a law, since a constant has no contract
pub fn codes_have_their_numbers()
    ensures bad_request { BAD_REQUEST.0 ≡ 400 }
    ensures unsupported_media_type { UNSUPPORTED_MEDIA_TYPE.0 ≡ 415 }
    ensures internal { INTERNAL.0 ≡ 500 }
    ensures journal_mismatch { JOURNAL_MISMATCH.0 ≡ 570 }
    ensures protocol_violation { PROTOCOL_VIOLATION.0 ≡ 571 }
    ensures awaiting_two_async_results { AWAITING_TWO_ASYNC_RESULTS.0 ≡ 572 }
    ensures unsupported_feature { UNSUPPORTED_FEATURE.0 ≡ 573 }
    ensures closed { CLOSED.0 ≡ 598 }
    ensures suspended { SUSPENDED.0 ≡ 599 }
{}

/// `==` of message types is equality.
// proved by a test over all pairs of named types, which the prover computes: case by case it is past its limits
pub fn equal_types(a: MessageType, b: MessageType) -> bool
    ensures { IsTrue result ↔ (a ≡ b) }
{
    a == b
}

/// `==` of command types is equality.
pub fn equal_command_types(a: CommandType, b: CommandType) -> bool
    ensures { IsTrue result ↔ (a ≡ b) }
{
    a == b
}

/// `==` of headers compares all three parts.
pub fn equal_headers(a: MessageHeader, b: MessageHeader) -> bool
    ensures { IsTrue result ↔ (a ≡ b) }
{
    a == b
}

/// `==` of versions compares their numbers.
pub fn equal_versions(a: Version, b: Version) -> bool
    ensures { IsTrue result ↔ (version_number a ≡ version_number b) }
{
    a == b
}

/// A clone equals its source, and does not allocate.
pub fn clone_each(
    ty: &MessageType,
    header: &MessageHeader,
    version: &Version,
) -> Result<(MessageType, MessageHeader, Version), AllocError>
    ensures { result ≡ Ok (ty.now, header.now, version.now) }
{
    Ok((ty.clone()?, header.clone()?, version.clone()?))
}

/// A clone of a command type equals its source, and does not allocate.
pub fn clone_command_type(command: &CommandType) -> Result<CommandType, AllocError>
    ensures { result ≡ Ok command.now }
{
    command.clone()
}

/// `==` of codes compares their numbers.
pub fn equal_codes(a: InvocationErrorCode, b: InvocationErrorCode) -> bool
    ensures { IsTrue result ↔ (a ≡ b) }
{
    a == b
}

/// `==` of behaviors is equality.
pub fn equal_behaviors(a: ErrorBehavior, b: ErrorBehavior) -> bool
    ensures { IsTrue result ↔ (a ≡ b) }
{
    a == b
}

/// `==` of commands' metadata compares all three parts.
#[tactic(auto, using(crate::proofs::Equality::commands_decide))]
pub fn equal_command_metadata(a: &CommandMetadata, b: &CommandMetadata) -> bool
    ensures { IsTrue result ↔ (command_parts a.now ≡ command_parts b.now) }
{
    a == b
}

/// `==` of notifications' metadata compares the variants and all that is in them.
#[tactic(auto, using(crate::proofs::Equality::notifications_decide))]
pub fn equal_notification_metadata(a: &NotificationMetadata, b: &NotificationMetadata) -> bool
    ensures { IsTrue result ↔ (notification_parts a.now ≡ notification_parts b.now) }
{
    a == b
}

/// `==` of errors compares all five parts.
#[tactic(auto, using(crate::proofs::Equality::errors_decide))]
pub fn equal_errors(a: &Error, b: &Error) -> bool
    ensures { IsTrue result ↔ (error_parts a.now ≡ error_parts b.now) }
{
    a == b
}

/// `==` of values compares the variants and all that is in them.
#[tactic(auto, using(crate::proofs::Equality::values_decide))]
pub fn equal_values(a: &Value, b: &Value) -> bool
    ensures { IsTrue result ↔ (value_parts a.now ≡ value_parts b.now) }
{
    a == b
}

/// `==` of terminal failures compares all three parts.
#[tactic(auto, using(crate::proofs::Equality::failures_decide))]
pub fn equal_failures(a: &TerminalFailure, b: &TerminalFailure) -> bool
    ensures { IsTrue result ↔ (failure_parts a.now ≡ failure_parts b.now) }
{
    a == b
}

/// `==` of a request's headers compares both parts.
pub fn equal_request_headers(a: &Header, b: &Header) -> bool
    ensures { IsTrue result ↔ (header_parts a.now ≡ header_parts b.now) }
{
    a == b
}

/// `==` of commands that an error is about compares the variants and all that is in them.
#[tactic(auto, using(crate::proofs::Equality::relationships_decide))]
pub fn equal_relationships(a: &CommandRelationship, b: &CommandRelationship) -> bool
    ensures { IsTrue result ↔ (relationship_parts a.now ≡ relationship_parts b.now) }
{
    a == b
}

/// A clone of a code, a behavior or options equals its source, and does not allocate.
pub fn clone_small(
    code: &InvocationErrorCode,
    behavior: &ErrorBehavior,
    options: &PayloadOptions,
) -> Result<(InvocationErrorCode, ErrorBehavior, PayloadOptions), AllocError>
    ensures { result ≡ Ok (code.now, behavior.now, options.now) }
{
    Ok((code.clone()?, behavior.clone()?, options.clone()?))
}

/// By default a payload's bytes are the same each time.
pub fn default_options() -> PayloadOptions
    ensures { result ≡ record { unstable_serialization = false } }
{
    PayloadOptions::default()
}
