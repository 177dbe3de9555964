//! Payloads at other field numbers: a payload is written again with the numbers that a table gives to its fields. No
//! record is made.
#![tactic(auto)]

mod check;
mod entries;
pub mod error;
mod found;
pub mod laws;
pub mod payload;
mod source;
mod write;

pub use entries::Renumbering;
pub use error::RenumberError;
pub use payload::{is_renumberable, renumbered};
