//! Streams over any `Read` and `Write`: the items that a reader gives, and bytes written whole.
#![tactic(auto)]

pub mod error;
pub mod item_buffer;
pub mod item_reader;
pub mod one_read;
pub mod output;

pub use crate::error::ReadError;
pub use crate::item_buffer::ItemBuffer;
pub use crate::item_reader::ItemReader;
pub use crate::one_read::read_some;
pub use crate::output::{WriteError, write_whole};
