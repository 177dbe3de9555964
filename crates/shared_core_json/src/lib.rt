//! The JSON of the protocol's messages: proto3's JSON form, by the names of proto/journal.proto.
//!
//! A canonical payload is written as JSON field by field (`write_payload`), as `shared_core_fields` reads it, with the
//! names of a table. Another payload is decoded and written canonically first (`write_canonical`).
//!
//! What proto3's JSON form has for other types (`NaN`, well-known types, maps) does not occur: no field has them.
//! Messages nest up to one hundred levels deep, and JSON twice as deep, since elements of a list are in an array.
#![tactic(auto)]

mod canonical;
pub mod digits;
mod error;
pub mod loaded_names;
pub mod name_error;
mod name_table;
pub mod named_schemas;
pub mod named_table;
pub mod names;
mod write;

pub use canonical::{json_of, write_canonical};
pub use error::JsonError;
pub use write::{write_byte_string, write_payload, write_run, write_u32, write_u64};
