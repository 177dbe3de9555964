//! The contents of the records of one number.

ghost use Rattle.std.specs.Prelude.{◌≡◌};

use shared_core_wire::record::WireValue;
use shared_core_wire::records::{LEVELS, Records};

/// Iterates over the contents of the records of a number, in order: the messages or texts of a field.
#[derive(Drop)]
pub(crate) struct Contents<'a> {
    records: Records<'a>,
    number: u32,
}

impl<'a> Contents<'a> {
    ghost use Rattle.descriptor_set.specs.Reading.{contents_left};
    ghost use Rattle.descriptor_set.specs.Values.{contents_in};

    /// Those of a number in a message.
    pub(crate) fn of(message: &'a [u8], number: u32) -> Contents<'a>
        ensures { contents_left result ≡ contents_in number message.now }
    {
        Contents {
            records: Records::within(message, LEVELS),
            number,
        }
    }
}

impl<'a> Iterator for Contents<'a> {
    ghost use Rattle.std.specs.Iterator.{YieldsFirstBy, item_count};
    ghost use Rattle.descriptor_set.specs.Reading.{contents_left};

    type Item = &'a [u8];

    ghost next_gives = { YieldsFirstBy (λ content. content.now) contents_left };

    ghost remaining = { item_count contents_left };

    fn next(&mut self) -> Option<&'a [u8]> {
        while let Some(item) = self.records.next() {
            if let Ok(found) = item {
                if found.number == self.number {
                    if let WireValue::Length(content) = found.value {
                        return Some(content);
                    }
                }
            }
        }
        None
    }
}
