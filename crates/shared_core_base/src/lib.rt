//! What every part of the journal wire protocol depends on: message types, command types, headers, versions, errors,
//! the lines of differences, and the values that the SDK state machine takes and gives.
#![tactic(auto)]

pub mod command_type;
pub mod error;
pub mod fmt;
pub mod header;
pub mod headers;
pub mod laws;
pub mod message_header;
pub mod text;
pub mod type_kinds;
pub mod values;
pub mod version;
