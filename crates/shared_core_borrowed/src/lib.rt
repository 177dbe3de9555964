//! The records of the protocol as a caller in C has them: structs of slices, which are only written.
//!
//! What the crates of records do for records that own what they hold, this one does for records that a caller owns: it
//! measures a payload and writes it from its end. A text is bytes here, and a oneof's member a number, so that a record
//! may have no payload: that is found out while it is measured.
#![tactic(auto)]

pub mod measure;
pub mod oneof;
mod optional;
mod packed;
mod plain;
pub mod record;
pub mod records;
mod repeated;
pub mod value;
