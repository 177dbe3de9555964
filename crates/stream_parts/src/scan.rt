//! The items of a stream so far, and where a range of its commands is among them.

ghost use Rattle.std.specs.Prelude.{◌≡◌, ◌-◌, ◌^◌, ◌<◌, ◌++◌, ◌∷◌, [], List, if◌then◌else◌, nat_le, ◌==◌, ◌&&◌};
ghost use Rattle.shared_core_stream.specs.declared.encoding.item.Item.{Item as AnyItem};
ghost use Rattle.stream_parts.specs.Parts.{located_in, start_of_item, totals_with};
ghost use Rattle.stream_parts.specs.Parts.{IsSmall};
ghost use Rattle.stream_parts.specs.Parts as test;

use crate::located::{Located, Totals};
use crate::range::Range;
use shared_core_base::header::{CommandType, MessageType};
use shared_core_stream::encoding::{Item, RawMessage};

/// The least code of a command. Those of notifications and of custom entries are greater.
const FIRST_ENTRY: u16 = 0x0400;

/// The items of a stream so far.
#[derive(Drop)]
pub(crate) struct Scan {
    range: Range,
    located: Located,
}

impl Scan {
    /// No item yet.
    pub(crate) fn new(range: Range) -> Scan
        ensures range { result.range ≡ range }
        ensures none { result.located ≡ located_in range [] 0 }
    {
        Scan {
            range,
            located: Located {
                start: None,
                front: Totals::NONE,
                from: Totals::NONE,
                until: Totals::NONE,
                all: Totals::NONE,
                rest: 0,
            },
        }
    }

    /// Takes the next item.
    #[tactic(auto, using(crate::proofs::Counting::has_room))]
    pub(crate) fn note(&mut self, item: Item)
        requires { (items : List AnyItem) × (self.old.located ≡ located_in self.old.range items 0) × IsSmall items }
        ensures range { self.new.range ≡ self.old.range }
        ensures noted { (items : List AnyItem) → self.old.located ≡ located_in self.old.range items 0
            → self.new.located ≡ located_in self.old.range (items ++ item ∷ []) 0 }
    {
        let located = &mut self.located;
        let all = with_item(located.all, &item);
        let is_start = starts(located.all, all);
        located.front = up_to(0, all, located.front);
        located.from = up_to(self.range.from, all, located.from);
        located.until = up_to(self.range.until, all, located.until);
        located.all = all;
        located.start = start_with(located.start.take(), is_start, item);
    }

    /// What was found in a whole stream, with this many trailing bytes.
    pub(crate) fn finish(self, rest: u64) -> Located
        ensures { result ≡ record self.located { rest = rest } }
    {
        Located {
            rest,
            ..self.located
        }
    }
}

/// The totals with one more item.
fn with_item(totals: Totals, item: &Item) -> Totals
    requires commands { totals.commands < 2 ^ 64 - 1 }
    requires entries { totals.entries < 2 ^ 64 - 1 }
    requires size { totals.size < 2 ^ 127 }
    ensures { result ≡ totals_with totals item.now }
{
    Totals {
        commands: totals.commands + u64::from(is_command(item)),
        entries: totals.entries + u64::from(is_entry(item)),
        size: totals.size + u128::from(item.size()),
    }
}

/// The totals of the items before the command of an index, by those of all items so far and by what they were without
/// the last of these.
fn up_to(index: u64, all: Totals, before: Totals) -> Totals
    ensures { result ≡ (if nat_le all.commands index then all else before) }
{
    if all.commands <= index { all } else { before }
}

/// Whether an item is a command.
fn is_command(item: &Item) -> bool
    ensures { result ≡ test.is_command item.now }
{
    let Item::Message(message) = item else {
        return false;
    };
    CommandType::try_from(message.ty()).is_ok()
}

/// Whether an item is an entry of a journal.
fn is_entry(item: &Item) -> bool
    ensures { result ≡ test.is_entry item.now }
{
    let Item::Message(message) = item else {
        return false;
    };
    u16::from(message.ty()) >= FIRST_ENTRY
}

/// Whether an item is the first one and no command, by the totals without it and with it.
fn starts(before: Totals, all: Totals) -> bool
    ensures { result ≡ (before.size == 0 && all.commands == 0) }
{
    before.size == 0 && all.commands == 0
}

/// The start message, by that of the items before the last one, which comes first or not.
fn start_with(before: Option<RawMessage>, is_first: bool, item: Item) -> Option<RawMessage>
    ensures { result ≡ (if is_first then start_of_item item else before) }
{
    if is_first {
        start_message(item)
    } else {
        before
    }
}

/// The start message that an item is, if it is one.
fn start_message(item: Item) -> Option<RawMessage>
    ensures { result ≡ start_of_item item }
{
    let Item::Message(message) = item else {
        return None;
    };
    match message.ty() {
        MessageType::Start => Some(message),
        _ => None,
    }
}
