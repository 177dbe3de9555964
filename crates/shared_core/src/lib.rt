//! The journal wire protocol of the Restate SDKs: the decoder of a stream that comes in chunks, headers and versions,
//! the messages with their payloads, commands compared, and the errors and values of the SDK state machine.
//!
//! Some names are alike. `error` has the error that an invocation ends with, `errors` those that convert to it.
//! `header` has the types of messages and the header before each, `headers` those of a request. `Value` and `Header` at
//! the root are what the SDK state machine takes and gives; those of `messages` are records.
#![tactic(auto)]

pub mod encoding;
pub mod error;
pub mod errors;
pub mod fmt;
pub mod laws;
pub mod messages;
pub mod wire;

pub use shared_core_base::command_type::CommandType;
pub use shared_core_base::error::{Error, OutOfMemory};
pub use shared_core_base::headers::HeaderMap;
pub use shared_core_base::values::{
    CommandRelationship, Header, NonEmptyValue, PayloadOptions, TerminalFailure, Value,
};
pub use shared_core_base::version::Version;
pub use shared_core_base::{header, headers, version};
