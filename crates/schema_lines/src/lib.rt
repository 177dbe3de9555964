//! A descriptor set compared with the protocol: which of its messages and fields are the same by their names, and what
//! differs, as a table in text. Which of its messages are the protocol's, as a list for those who read payloads by it;
//! which of its fields, as a table for those who write payloads again at the other numbers.
#![tactic(auto)]

mod codes;
mod error;
mod fields;
mod kinds;
mod message_names;
mod messages;
mod named;
mod names;
mod numbering;
mod pairs;
mod renames;
mod rows;
mod said_types;
mod write;

pub use error::SchemaError;
pub use message_names::MESSAGE_NAMES;
pub use names::last_name;
pub use numbering::{Direction, numbering_of};
pub use pairs::schemas_of;
pub use renames::{Rename, RenameFault};
pub use said_types::{OtherType, other_types};
pub use write::write_schema;
