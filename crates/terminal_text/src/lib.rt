//! Texts on a terminal: characters that it may take as commands, escaped, and parts of a text in colors.
#![tactic(auto)]

mod colors;
mod texts;

pub use crate::colors::{Style, paint};
pub use crate::texts::{Escapes, Escaping, push_escaped};
