//! The lines of a listing: for each item of a stream its type and its length, and last one for the bytes in none.
#![tactic(auto)]

mod names;
mod options;
mod stream;

pub use crate::options::{Options, OtherName};
pub use crate::stream::list;
