//! Where the commands of a range are in a stream.

ghost use Rattle.std.specs.Prelude.{◌≡◌};

use crate::copy::Part;
use shared_core_stream::encoding::RawMessage;

/// What some items amount to.
#[derive(Clone, Copy, Debug, PartialEq, Eq, Drop)]
pub struct Totals {
    /// How many of them are commands: messages whose type has a command type, as `journal diff` counts them.
    pub commands: u64,
    /// How many of them are entries: commands, notifications and custom entries, as their codes say.
    pub entries: u64,
    /// The number of their bytes, which is the offset of what is after them.
    pub size: u128,
}

impl Totals {
    /// The totals of no item.
    pub const NONE: Totals = Totals {
        commands: 0,
        entries: 0,
        size: 0,
    };
}

/// Where the commands of a range are in a stream, and what is in it.
#[derive(Debug, PartialEq, Drop)]
pub struct Located {
    /// The start message: the first item, if it is of that type.
    pub start: Option<RawMessage>,
    /// The items before the first command.
    pub front: Totals,
    /// The items before the first command of the range; all, if there is none.
    pub from: Totals,
    /// The items before the first command after the range; all, if there is none.
    pub until: Totals,
    /// All items.
    pub all: Totals,
    /// The number of trailing bytes.
    pub rest: u64,
}

impl Located {
    ghost use Rattle.stream_parts.specs.Parts.{kept_entries, part_of};

    /// How many entries are kept: those before the first command, and those of the range.
    pub fn entries(&self) -> u128
        ensures { result ≡ kept_entries self.now }
    {
        let within = self.until.entries.saturating_sub(self.from.entries);
        u128::from(self.front.entries) + u128::from(within)
    }

    /// The bytes that are kept: those before the first command, without the start message, and those of the range.
    pub fn part(&self) -> Part
        ensures { result ≡ part_of self.now }
    {
        let after = match &self.start {
            Some(start) => 8 + start.payload().len() as u128,
            None => 0,
        };
        Part {
            after,
            front: self.front.size,
            from: self.from.size,
            until: self.until.size,
        }
    }
}
