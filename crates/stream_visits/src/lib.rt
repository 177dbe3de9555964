//! The items of a stream, from any reader to any visitor.
#![tactic(auto)]

pub mod reading;
pub mod visitor;

pub use crate::reading::{Options, item_at, visit};
pub use crate::visitor::Visitor;
