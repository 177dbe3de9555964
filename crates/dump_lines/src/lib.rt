//! The lines of a dump: a stream as JSON, one object per line for each of its items, and last one for the bytes in
//! none.
#![tactic(auto)]

mod canonicalizer;
mod lines;
mod message_table;
mod options;
mod pretty;
mod printer;
mod scratch;
mod stream;
mod tables;

pub use crate::canonicalizer::{Canonicalizer, TypedPayload};
pub use crate::message_table::MessageTable;
pub use crate::options::Options;
pub use crate::printer::MOST_SHOWN;
pub use crate::stream::Dumping;
pub use crate::tables::{OtherTable, ProtocolTable};
