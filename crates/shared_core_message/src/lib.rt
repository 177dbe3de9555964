//! Messages: the traits of the records that have a type, the schemas of their types, and the frames that they are
//! written as.
#![tactic(auto)]

pub mod frame;
pub mod restate_message;
pub mod schemas;
pub mod well_formed;
