//! Which versions of the protocol a stream fits: whether each byte is in an item of a known code, and each payload is
//! well-formed for its type. The laws of the versions that fit.
#![tactic(auto)]

mod fit;
pub mod laws;

pub use crate::fit::{check, fits};
pub use stream_visits::Options;
