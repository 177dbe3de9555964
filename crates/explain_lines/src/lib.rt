//! The bytes of a stream explained, line by line: headers, and the records of payloads, also of malformed ones and
//! without a schema.
#![tactic(auto)]

mod columns;
mod fault;
pub mod laws;
mod lines;
mod options;
mod payload;
mod piece;
mod reason;
mod stream;

pub use crate::options::Options;
pub use crate::stream::explain;
