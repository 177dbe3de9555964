//! What a stream is: its invocation and how that stands, counts, what failed, its longest payloads and what is open.
#![tactic(auto)]

mod about;
mod count;
mod describing;
mod labels;
mod largest;
pub mod laws;
mod summary;

pub use crate::describing::describe;
pub use stream_visits::Options;
