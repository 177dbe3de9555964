//! Counts of items.

ghost use Rattle.std.specs.Prelude.{◌≡◌, ◌+◌, ◌<◌, ◌++◌, ◌^◌, OnOk};
ghost use Rattle.std.specs.String.{string_bytes};
ghost use Rattle.stream_summary.specs.Counts.{count_line, count_with, no_items};

use std::alloc::AllocError;

/// How many items there are, and how many bytes they have with their headers.
#[derive(Clone, Copy, Debug, PartialEq, Eq, Drop)]
pub struct Count {
    pub items: u128,
    pub bytes: u128,
}

impl Count {
    /// That of no item.
    pub fn none() -> Count
        ensures { result ≡ no_items }
    {
        Count { items: 0, bytes: 0 }
    }

    /// The count with one more item of this size, if that is one of those that are counted.
    pub fn with(self, is_counted: bool, size: u128) -> Count
        requires items { self.items + 1 < 2 ^ 128 }
        requires bytes { self.bytes + size < 2 ^ 128 }
        ensures { result ≡ count_with is_counted size self }
    {
        if !is_counted {
            return self;
        }
        Count {
            items: self.items + 1,
            bytes: self.bytes + size,
        }
    }

    /// Appends its line.
    pub fn push(self, name: &str, text: &mut String) -> Result<(), AllocError>
        ensures { OnOk result (string_bytes text.new ≡ string_bytes text.old ++ count_line name.now self) }
    {
        let (items, bytes) = (self.items, self.bytes);
        write!(text, "{name}: {items} of {bytes} bytes\n")
    }
}
