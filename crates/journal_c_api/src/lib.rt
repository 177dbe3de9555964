//! What the calls of `journal_ffi` do, over slices of bytes and numbers.
#![tactic(auto)]

pub mod commands;
pub mod field_payloads;
pub mod fields;
pub mod frames;
pub mod headers;
pub mod items;
pub mod journals;
pub mod json_payloads;
pub mod laws;
pub mod names;
pub mod notifications;
pub mod numberings;
pub mod outcome;
pub mod payloads;
pub mod records;
pub mod replays;
