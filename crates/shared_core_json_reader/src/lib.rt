//! JSON read as payloads: the canonical payload that a text of proto3's JSON form means, by the names of
//! proto/journal.proto.
//!
//! A text is read into a table of JSON (`json_table`), and the table is traversed once, by the rows of schemas that
//! `shared_core_codec` has. What each row is given is appended as records, in the order of the schema (`payload`).
#![tactic(auto)]

mod bytes;
mod enum_values;
mod error;
pub mod laws;
mod lengths;
mod loaded_enums;
mod loaded_table;
mod measure;
mod members;
mod name_checks;
mod object;
mod payload;
mod read;
pub mod readable;
mod readable_error;
mod rows;
mod scalars;
mod short;

pub use bytes::read_bytes;
pub use error::{JsonReadError, Reason};
pub use loaded_enums::{LoadedEnumField, LoadedEnums, LoadedValue};
pub use loaded_table::{ReadableTable, readable_table};
pub use read::{
    payload_into, payload_into_in, payload_of, payload_of_node, payload_of_node_in, short_table,
    table_of_text,
};
pub use readable_error::ReadableError;
pub use scalars::{read_u32, read_u64};
