//! A stream at other field numbers: each payload is written again with the numbers that a table gives to its fields.
#![tactic(auto)]

pub mod options;
pub mod stream;

pub use crate::options::Options;
pub use crate::stream::renumber;
