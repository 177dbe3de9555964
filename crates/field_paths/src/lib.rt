//! A field of a message by its path, as `value.content` or `headers[0].value`, and its bytes.
#![tactic(auto)]

pub mod find;
pub mod getting;
pub mod label;
pub mod value;

pub use crate::find::{Lookup, find_field};
pub use crate::getting::{Answer, Request, get};
pub use crate::value::bytes_of;
