//! Reading the records of a payload, and the definitions of what a payload means for a schema.
#![tactic(auto)]

pub mod error;
pub mod examples;
pub mod laws;
pub mod record;
pub mod records;
pub mod varint;
