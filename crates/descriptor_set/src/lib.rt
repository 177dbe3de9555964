//! A FileDescriptorSet, which `protoc -o` and `buf build -o` write: its messages with their fields, its enums, and the
//! table of schemas of its messages, also with the names of their fields in JSON.
#![tactic(auto)]

mod codes;
mod comments;
mod contents;
mod error;
mod fault;
mod field;
mod fields;
mod form;
pub mod laws;
mod names;
mod read;
mod read_field;
mod reading;
mod schemas;
mod set;
mod sorting;
mod table;
mod table_enums;
mod table_names;
mod table_rows;
mod values;

pub use codes::SaidCode;
pub use error::{DescriptorError, Place};
pub use field::{FieldDescriptor, FieldKind, Presence};
pub use form::NoForm;
pub use read::{MOST_BYTES, MOST_FIELDS, MOST_NAME_BYTES, read_set};
pub use set::{DescriptorSet, EnumDescriptor, EnumValue, MessageDescriptor};
pub use table::{PassedOver, passed_over, table_of};
pub use table_enums::readable_table_of;
pub use table_names::named_table_of;
