//! The canonical payload of any payload that a table of schemas accepts, by the rows of its schema: no record is made.
#![tactic(auto)]

pub mod append;
mod canonical;
mod elements;
pub mod error;
mod found;
pub mod payload;
pub mod places;
mod single;
mod source;
