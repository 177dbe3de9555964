//! The codes that messages of a set say, and which message the payloads of a type are read by.

ghost use Rattle.std.specs.Prelude.{◌≡◌, ◌||◌, IfOk, nat_lt, ◌++◌};
ghost use Rattle.schema_lines.specs.Chosen.{choice, choices, chosen, first_saying, kind_of, says, says_kind};
ghost use Rattle.schema_lines.specs.Sayings.{code_by, has_letter, has_letters, is_same, same_count, said_by};
ghost use Rattle.schema_lines.specs.Sayings.{said_from, sayings_of};
ghost use Rattle.schema_lines.specs.MessageNames.{message_codes};

use crate::message_names::message_codes;
use descriptor_set::{MessageDescriptor, SaidCode};
use std::alloc::{AllocError, Global};

/// A code that a message of a set says.
#[derive(Clone, Copy, Debug, PartialEq, Eq, Drop)]
pub struct Saying {
    /// The index of the message.
    pub message: usize,
    pub code: u32,
}

/// The code that is said, whose second number is hexadecimal or decimal.
fn code_by(said: &SaidCode, is_hexadecimal: bool) -> u32
    ensures { result ≡ code_by is_hexadecimal said.now }
{
    if is_hexadecimal {
        return said.hexadecimal;
    }
    match said.decimal {
        Some(code) => code,
        None => said.hexadecimal,
    }
}

/// Appends the codes that a message says.
fn append_said(
    sayings: &mut Vec<Saying>,
    message: usize,
    said: &[SaidCode],
    is_hexadecimal: bool,
) -> Result<(), AllocError>
    ensures { IfOk result (λ _. sayings.new.items ≡ sayings.old.items ++ said_by is_hexadecimal message said.now) }
{
    let mut rest = said;
    while let Some((first, after)) = rest.split_first() {
        sayings.push(Saying {
            message,
            code: code_by(first, is_hexadecimal),
        })?;
        rest = after;
    }
    Ok(())
}

/// The codes that messages say, in their order.
fn sayings_by(
    alloc: Global,
    messages: &[MessageDescriptor],
    is_hexadecimal: bool,
) -> Result<Vec<Saying>, AllocError>
    ensures { IfOk result (λ sayings. sayings.items ≡ said_from is_hexadecimal 0 messages.now) }
{
    let mut sayings = Vec::new(alloc);
    let mut rest = messages;
    let mut index: usize = 0;
    while let Some((message, after)) = rest.split_first() {
        append_said(
            &mut sayings,
            index,
            message.codes.as_slice(),
            is_hexadecimal,
        )?;
        rest = after;
        index += 1;
    }
    Ok(sayings)
}

/// Whether a second number of a message has a hexadecimal digit above 9.
fn has_letter(message: &MessageDescriptor) -> bool
    ensures { result ≡ has_letter message.now }
{
    message.codes.iter().any(|said| said.decimal.is_none())
}

/// Whether a second number of some message has one.
fn has_letters(messages: &[MessageDescriptor]) -> bool
    ensures { result ≡ has_letters messages.now }
{
    messages.iter().any(has_letter)
}

/// How many of the messages with a name of the protocol say the code of their type.
fn same_count(sayings: &[Saying], named: &[Option<usize>], codes: &[Option<u32>]) -> usize
    ensures { result ≡ same_count sayings.now named.now codes.now }
{
    let mut count: usize = 0;
    let mut rest = named;
    let mut left = codes;
    while let Some((message, after)) = rest.split_first() {
        let Some((code, others)) = left.split_first() else {
            return count;
        };
        if is_same(sayings, *message, *code) {
            count += 1;
        }
        rest = after;
        left = others;
    }
    count
}

/// Whether a message with a name of the protocol says the code of its type.
fn is_same(sayings: &[Saying], message: Option<usize>, code: Option<u32>) -> bool
    ensures { result ≡ is_same sayings.now message code }
{
    match (message, code) {
        (Some(message), Some(code)) => says(sayings, message, code),
        _ => false,
    }
}

/// Whether second numbers are hexadecimal, by the codes that are said if they are not and if they are: one of them has
/// a digit above 9, or more of the messages with a name of the protocol have the codes of their types then.
fn is_hexadecimal(
    messages: &[MessageDescriptor],
    named: &[Option<usize>],
    decimal: &[Saying],
    hexadecimal: &[Saying],
) -> bool
    ensures { result ≡ (has_letters messages.now || nat_lt (same_count decimal.now named.now message_codes)
        (same_count hexadecimal.now named.now message_codes)) }
{
    let codes = message_codes();
    has_letters(messages)
        || same_count(decimal, named, codes) < same_count(hexadecimal, named, codes)
}

/// The codes that the messages of a set say, by those that have a name of the protocol.
#[tactic(auto, unfolding(crate::specs::Sayings::sayings_of))]
pub(crate) fn sayings_of(
    alloc: Global,
    messages: &[MessageDescriptor],
    named: &[Option<usize>],
) -> Result<Vec<Saying>, AllocError>
    ensures { IfOk result (λ sayings. sayings.items ≡ sayings_of messages.now named.now) }
{
    let decimal = sayings_by(alloc, messages, false)?;
    let hexadecimal = sayings_by(alloc, messages, true)?;
    if is_hexadecimal(messages, named, decimal.as_slice(), hexadecimal.as_slice()) {
        Ok(hexadecimal)
    } else {
        Ok(decimal)
    }
}

/// What a code is of: the core, commands, notifications, or nothing.
fn kind_of(code: u32) -> u32
    ensures { result ≡ kind_of code }
{
    if code < 0x400 {
        0
    } else if code < 0x8000 {
        1
    } else if code < 0xfc00 {
        2
    } else {
        3
    }
}

/// Whether a message says a code.
fn says(sayings: &[Saying], message: usize, code: u32) -> bool
    ensures { result ≡ says sayings.now message code }
{
    let mut rest = sayings;
    while let Some((saying, after)) = rest.split_first() {
        if saying.message == message && saying.code == code {
            return true;
        }
        rest = after;
    }
    false
}

/// Whether a message says a code of this one's kind.
fn says_kind(sayings: &[Saying], message: usize, code: u32) -> bool
    ensures { result ≡ says_kind sayings.now message code }
{
    let mut rest = sayings;
    while let Some((saying, after)) = rest.split_first() {
        if saying.message == message && kind_of(saying.code) == kind_of(code) {
            return true;
        }
        rest = after;
    }
    false
}

/// The first message that says a code.
fn first_saying(sayings: &[Saying], code: u32) -> Option<usize>
    ensures { result ≡ first_saying sayings.now code }
{
    let mut rest = sayings;
    while let Some((saying, after)) = rest.split_first() {
        if saying.code == code {
            return Some(saying.message);
        }
        rest = after;
    }
    None
}

/// The message for the payloads of a type of this code: the one of its name, unless that says another code of its kind;
/// otherwise the first one that says the code.
fn chosen(sayings: &[Saying], named: Option<usize>, code: u32) -> Option<usize>
    ensures { result ≡ chosen sayings.now named code }
{
    if let Some(message) = named {
        if says(sayings, message, code) || !says_kind(sayings, message, code) {
            return Some(message);
        }
    }
    first_saying(sayings, code)
}

/// The message for the payloads of a schema with a code, or without one.
fn choice(sayings: &[Saying], code: Option<u32>, named: Option<usize>) -> Option<usize>
    ensures { result ≡ choice sayings.now code named }
{
    match code {
        Some(code) => chosen(sayings, named, code),
        None => named,
    }
}

/// The messages for the payloads of schemas with these codes, each with the one of its name.
pub(crate) fn choices(
    alloc: Global,
    sayings: &[Saying],
    codes: &[Option<u32>],
    named: &[Option<usize>],
) -> Result<Vec<Option<usize>>, AllocError>
    ensures { IfOk result (λ found. found.items ≡ choices sayings.now codes.now named.now) }
{
    let mut found = Vec::new(alloc);
    let mut rest = codes;
    let mut left = named;
    while let Some((code, after)) = rest.split_first() {
        let Some((first, others)) = left.split_first() else {
            return Ok(found);
        };
        found.push(choice(sayings, *code, *first))?;
        rest = after;
        left = others;
    }
    Ok(found)
}
