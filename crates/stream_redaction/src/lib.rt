//! A stream whose contents are replaced, so that it can be shown to others: each text and each run of bytes by as many
//! characters as it has bytes. Types, numbers, lengths and the structure of payloads stay.
#![tactic(auto)]

pub mod key;
pub mod laws;
pub mod options;
pub mod payload;
pub mod stream;

pub use crate::key::Key;
pub use crate::options::Options;
pub use crate::stream::redact;
