//! The fields of canonical payloads, read without a record and without allocating. A payload is checked once; reading
//! it has no error. Those of all levels are written into the caller's table, while the payload is checked.
#![tactic(auto)]

pub mod check;
pub mod fields;
mod known;
pub mod laws;
mod next;
pub mod payload_table;
pub mod runs;
mod shortest;
pub mod table;
mod typed;
