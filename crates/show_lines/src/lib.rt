//! A stream as readable lines: one for each item, with what it says and which command or completion it belongs to.
#![tactic(auto)]

mod contents;
pub mod excerpt;
pub mod facts;
mod filter;
pub mod held;
pub mod line;
mod matching;
mod options;
mod place;
mod range;
pub mod scratch;
mod stream;
pub mod waiting;

pub use crate::filter::{Filter, FilterError, Test, Word};
pub use crate::options::Options;
pub use crate::stream::Showing;
