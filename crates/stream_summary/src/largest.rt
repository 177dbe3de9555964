//! The items with the longest payloads.

ghost use Rattle.std.specs.Prelude.{◌≡◌, ◌++◌, [], OnOk};
ghost use Rattle.std.specs.String.{string_bytes};
ghost use Rattle.stream_summary.specs.Largest.{large_line, large_view, largest_lines, largest_view, largest_with};
ghost use Rattle.stream_summary.specs.Largest.{nothing_large};

use std::alloc::{AllocError, Global};
use std::mem::swap;

/// An item with a long payload.
#[derive(Drop)]
pub struct Large {
    /// The number of bytes of its payload; 0 of no item.
    size: u64,
    /// The text by which lines name it.
    text: String,
}

impl Large {
    /// No item.
    fn none(alloc: Global) -> Large
        ensures size { result.size ≡ 0 }
        ensures text { string_bytes result.text ≡ [] }
    {
        Large {
            size: 0,
            text: String::new(alloc),
        }
    }
}

/// The three items with the longest payloads: the longer ones first, and of equal ones the earlier ones.
#[derive(Drop)]
pub struct Largest {
    first: Large,
    second: Large,
    third: Large,
}

impl Largest {
    /// Those of no item.
    pub fn new(alloc: Global) -> Largest
        ensures { largest_view result ≡ nothing_large }
    {
        Largest {
            first: Large::none(alloc),
            second: Large::none(alloc),
            third: Large::none(alloc),
        }
    }

    /// Notes the next item, which has a payload of this size and which lines name by this text.
    pub fn note(&mut self, size: u64, text: &str) -> Result<(), AllocError>
        ensures { OnOk result (largest_view self.new
            ≡ largest_with (record { size = size; text = text.now }) (largest_view self.old)) }
    {
        if size <= self.third.size {
            return Ok(());
        }
        self.third.size = size;
        self.third.text.clear();
        self.third.text.push_str(text)?;
        if size <= self.second.size {
            return Ok(());
        }
        swap(&mut self.second, &mut self.third);
        if size <= self.first.size {
            return Ok(());
        }
        swap(&mut self.first, &mut self.second);
        Ok(())
    }

    /// Appends their lines.
    pub fn push(&self, text: &mut String) -> Result<(), AllocError>
        ensures { OnOk result (string_bytes text.new
            ≡ string_bytes text.old ++ largest_lines (largest_view self.now)) }
    {
        push_large(text, &self.first)?;
        push_large(text, &self.second)?;
        push_large(text, &self.third)
    }
}

/// Appends the line of an item; nothing of none.
fn push_large(text: &mut String, large: &Large) -> Result<(), AllocError>
    ensures { OnOk result (string_bytes text.new ≡ string_bytes text.old ++ large_line (large_view large.now)) }
{
    if large.size == 0 {
        return Ok(());
    }
    let (size, name) = (large.size, large.text.as_str());
    write!(text, "large: {size} bytes, {name}\n")
}
