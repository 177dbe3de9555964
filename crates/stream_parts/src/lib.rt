//! Parts of a stream: where the commands of a range are, and their bytes copied.
//!
//! A stream is read twice: first its items, to know where a part begins and ends and what is in it, and then its bytes.
//! So the start message, which is written before all others, can have the number of the entries that are kept, nothing
//! is written of a range that is not there, and no payload is copied within the program.
#![tactic(auto)]

pub mod copy;
pub mod error;
pub mod laws;
pub mod located;
pub mod range;
pub mod reading;
mod scan;

pub use crate::copy::{Part, copy_part};
pub use crate::error::{CopyError, LocateError};
pub use crate::located::{Located, Totals};
pub use crate::range::Range;
pub use crate::reading::{Options, locate};
