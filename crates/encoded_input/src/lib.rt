//! Inputs that are text in hexadecimal digits or in base64, as databases and logs print bytes.
#![tactic(auto)]

mod decoded;
mod encoding;
mod fault;
pub mod laws;
mod place;
mod position;

pub use crate::decoded::Decoded;
pub use crate::encoding::Encoding;
pub use crate::fault::Fault;
pub use crate::place::Place;
pub use crate::position::Position;
