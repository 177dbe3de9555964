//! Streams of frames: the decoder, which takes a stream in chunks; its items and messages; the items of a slice.

mod announced;
mod chunks;
mod decoder;
mod error;
mod item;
mod item_ref;
mod item_refs;
mod items;
mod limit_error;
mod raw_message;

pub use crate::encoding::chunks::decode_pieces;
pub use crate::encoding::decoder::Decoder;
pub use crate::encoding::error::{ItemError, PiecesError, PushError};
pub use crate::encoding::item::Item;
pub use crate::encoding::item_ref::{ItemKind, ItemRef, MissingBytes};
pub use crate::encoding::item_refs::ItemRefs;
pub use crate::encoding::items::Items;
pub use crate::encoding::limit_error::MessageTooLong;
pub use crate::encoding::raw_message::RawMessage;
