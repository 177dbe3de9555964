//! The trait of printers, which make the lines of items.

ghost use Rattle.std.specs.Prelude.{◌≡◌, ◌++◌, ℕ, List, Option, IfErr, OnOk};
ghost use Rattle.shared_core_stream.specs.declared.encoding.item.Item.{Item as AnyItem};
ghost use Rattle.stream_lines.specs.Printing.{IsLack};
ghost use Rattle.stream_lines.specs.declared.report.Trouble.{Trouble as AnyTrouble};

use crate::error::PrintError;
use crate::report::Trouble;
use shared_core_stream::encoding::{Decoder, Item};
use std::alloc::{AllocError, Global};

/// An item of a stream, and where it is.
#[derive(Drop)]
pub struct PlacedItem {
    /// The offset of its header in the stream, in bytes.
    pub offset: u128,
    /// The eight bytes of its header as a number, the first byte highest.
    pub word: u64,
    /// The item.
    pub item: Item,
}

/// The trailing bytes of a stream, which are in none of its items.
#[derive(Clone, Copy)]
pub struct Rest<'a> {
    /// The offset of the first of them in the stream, in bytes.
    pub offset: u128,
    /// The decoder that has them pending.
    pub pending: &'a Decoder,
}

/// Makes the lines of items. What it allocates is allocated as the text of the lines is.
pub trait LinePrinter {
    /// Buffers in which lines are made, one after the other. Their contents do not matter.
    type Scratch: Drop;

    /// The line of an item, by its offset, its word and the item; nothing if it is not printed.
    ghost item_line: { Self → ℕ → ℕ → AnyItem → List ℕ };

    /// The last line, by the offset of the trailing bytes, and these bytes.
    ghost rest_line: { Self → ℕ → List ℕ → List ℕ };

    /// Holds of the items for which `print_item` may return `TooLong`.
    ghost is_long: { Self → AnyItem → Type 0 };

    /// The error of an item, if a report has it.
    ghost item_trouble: { Self → AnyItem → Option AnyTrouble };

    /// Returns empty buffers.
    fn scratch(&self, alloc: Global) -> Self::Scratch;

    /// The error of an item, if the report is to have it.
    fn trouble(&self, item: &Item) -> Option<Trouble>
        ensures trouble { result ≡ item_trouble self.now item.now };

    /// Appends the line of an item. Returns `TooLong` only if the item is too long for a line.
    fn print_item(
        &self,
        placed: &PlacedItem,
        scratch: &mut Self::Scratch,
        lines: &mut Vec<u8>,
    ) -> Result<(), PrintError>
        ensures line { OnOk result (lines.new.items
            ≡ lines.old.items ++ item_line self.now placed.now.offset placed.now.word placed.now.item) }
        ensures lack { IfErr result (IsLack (is_long self.now placed.now.item)) };

    /// Appends the last line.
    fn print_rest(&self, rest: Rest<'_>, lines: &mut Vec<u8>) -> Result<(), AllocError>
        ensures line { OnOk result (lines.new.items
            ≡ lines.old.items ++ rest_line self.now rest.entry.offset rest.entry.pending.now.bytes) };
}
