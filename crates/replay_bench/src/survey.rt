//! The items of a stream, counted.

ghost use Rattle.std.specs.Prelude.{◌≡◌, ◌+◌, ◌<◌, ◌^◌, ◌++◌, ◌∷◌, [], Bool, List, Some, if◌then◌else◌};
ghost use Rattle.shared_core_base.specs.declared.version.Version.{Version as AnyVersion};
ghost use Rattle.shared_core_stream.specs.declared.encoding.item.Item.{Item as AnyItem};
ghost use Rattle.stream_lines.specs.Printing.{items_size};
ghost use Rattle.replay_bench.specs.Survey.{fault_with, survey_of, trouble_of};
ghost use Rattle.replay_bench.specs.Survey as test;

use crate::faults::{Fault, FaultReason, fault_at, is_malformed};
use shared_core::CommandType;
use shared_core::encoding::Item;
use shared_core::version::Version;

/// What a stream has: its items, counted by what they are, the bytes that are in none, and, if it is looked for, the
/// first fault.
#[derive(Clone, Copy, Debug, PartialEq, Eq, Drop)]
pub struct Survey {
    /// Whether faults of items are looked for, which takes the time of checking each payload.
    pub is_strict: bool,
    /// The number of bytes of all items together, which is the offset of the bytes that are in none.
    pub size: u128,
    /// The number of messages that are commands.
    pub commands: u128,
    /// The offset of the last command, in bytes.
    pub last_command: Option<u128>,
    /// The number of messages that are not commands: control messages, notifications and custom entries.
    pub others: u128,
    /// The number of headers of an unknown type, before V9.
    pub unknown: u128,
    /// The number of messages of an unknown type that are skipped, from V9 on.
    pub skipped: u128,
    /// The number of messages whose payload is not well-formed for their type, if faults are looked for.
    pub malformed: u128,
    /// The number of bytes after the last complete item.
    pub rest: u64,
    /// The first item that has an unknown header, or a payload that is not well-formed, if faults are looked for.
    pub fault: Option<Fault>,
}

impl Survey {
    /// The survey of no item.
    pub fn new(is_strict: bool) -> Survey
        ensures { (version : AnyVersion) → result ≡ survey_of version is_strict [] 0 }
    {
        Survey {
            is_strict,
            size: 0,
            commands: 0,
            last_command: None,
            others: 0,
            unknown: 0,
            skipped: 0,
            malformed: 0,
            rest: 0,
            fault: None,
        }
    }

    /// Counts the item that comes next in a stream of this version. Those before it, which this survey has counted, are
    /// fewer than 2^127 bytes together.
    pub fn note(&mut self, version: Version, item: &Item)
        requires { (is_strict : Bool) × (items : List AnyItem)
            × (self.old ≡ survey_of version is_strict items 0) × (items_size items < 2 ^ 127) }
        ensures noted { (is_strict : Bool) (items : List AnyItem) → self.old ≡ survey_of version is_strict items 0
            → self.new ≡ survey_of version is_strict (items ++ item.now ∷ []) 0 }
        ensures strict { self.new.is_strict ≡ self.old.is_strict }
    {
        let is_next_command = is_command(item);
        let is_next_malformed = is_malformed(version, self.is_strict, item);
        self.note_fault(is_next_malformed, item);
        self.last_command = last_of(is_next_command, self.size, self.last_command);
        count(&mut self.commands, is_next_command);
        count(&mut self.others, is_other(item));
        count(&mut self.unknown, is_unknown(item));
        count(&mut self.skipped, is_skipped(item));
        count(&mut self.malformed, is_next_malformed);
        self.size += item.size() as u128;
    }

    /// The survey of a whole stream, at whose end this many bytes are trailing.
    pub fn with_rest(self, rest: u64) -> Survey
        ensures { result ≡ record self { rest = rest } }
    {
        Survey { rest, ..self }
    }

    /// What is wrong with the stream: the first fault that was found, or else the trailing bytes.
    pub fn trouble(&self) -> Option<Fault>
        ensures { result ≡ trouble_of self.now }
    {
        if self.fault.is_some() {
            return self.fault;
        }
        if self.rest == 0 {
            return None;
        }
        Some(Fault {
            offset: self.size,
            reason: FaultReason::Rest(self.rest),
        })
    }

    /// Keeps the first fault of the items so far and one more, which is malformed or not.
    fn note_fault(&mut self, is_malformed: bool, item: &Item)
        ensures { self.new ≡ record self.old { fault = fault_with self.old is_malformed item.now } }
    {
        if self.is_strict && self.fault.is_none() {
            self.fault = fault_at(self.size, is_malformed, item);
        }
    }
}

/// Whether an item is a command.
fn is_command(item: &Item) -> bool
    ensures { result ≡ test.is_command item.now }
{
    let Item::Message(message) = item else {
        return false;
    };
    match CommandType::try_from(message.ty()) {
        Ok(_) => true,
        Err(_) => false,
    }
}

/// Whether an item is a message that is not a command.
fn is_other(item: &Item) -> bool
    ensures { result ≡ test.is_other item.now }
{
    let Item::Message(message) = item else {
        return false;
    };
    match CommandType::try_from(message.ty()) {
        Ok(_) => false,
        Err(_) => true,
    }
}

/// Whether an item is a header of an unknown type.
fn is_unknown(item: &Item) -> bool
    ensures { result ≡ test.is_unknown item.now }
{
    matches!(item, Item::Unknown(_))
}

/// Whether an item is a message that is skipped.
fn is_skipped(item: &Item) -> bool
    ensures { result ≡ test.is_skipped item.now }
{
    matches!(item, Item::Skipped(_, _))
}

/// The offset of the last command, with one more item at this offset, which is a command or not.
fn last_of(is_command: bool, offset: u128, before: Option<u128>) -> Option<u128>
    ensures { result ≡ (if is_command then Some offset else before) }
{
    if is_command { Some(offset) } else { before }
}

/// Adds one to a count, or nothing: most counts stay as they are, and are not written again.
fn count(count: &mut u128, is_counted: bool)
    requires { count.old + (if is_counted then 1 else 0) < 2 ^ 128 }
    ensures { count.new ≡ count.old + (if is_counted then 1 else 0) }
{
    if is_counted {
        *count += 1;
    }
}
