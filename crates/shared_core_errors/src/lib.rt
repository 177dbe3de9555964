//! The errors of the protocol besides those of decoding: constant ones, and types with fields that convert to the error
//! of an invocation.
#![tactic(auto)]

pub mod closed;
pub mod command_type_mismatch;
pub mod constants;
pub mod laws;
pub mod typed;
pub mod uncompleted;
