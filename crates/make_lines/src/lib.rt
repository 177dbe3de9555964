//! A stream made of lines of JSON, as a dump has them: an item of each line, and of the last one the bytes in none.
#![tactic(auto)]

mod code;
mod error;
mod header;
pub mod laws;
mod line;
mod line_table;
mod maker;
mod members;
mod payload;
mod reject;
mod stream;
mod text;

pub use crate::error::{LineError, LineReason, MakeError};
pub use crate::line_table::{LineTable, OtherLines};
pub use crate::maker::Maker;
