//! Benchmark work: comparing commands with their second decodings.

ghost use Rattle.std.specs.Prelude.{◌≡◌};

use crate::streams::push;
use bytes::Bytes;
use journal_c_api::outcome::{CallError, version_of};
use shared_core::encoding::{DecodeMessage, Decoder, Item, RawMessage};
use shared_core::messages::{
    CommandMessage, CommandMessageHeaderEq, CommandVisitor, visit_command,
};
use std::alloc::Global;

/// Decodes each command of a stream twice, compares the two this many times, and returns the number of equal
/// comparisons.
pub fn compare(
    alloc: Global,
    version: u32,
    stream: &[u8],
    ignore_payloads: bool,
    rounds: usize,
) -> Result<usize, CallError> {
    let mut decoder = Decoder::new(alloc, version_of(version)?);
    push(&mut decoder, Bytes::copy_from_slice(alloc, stream)?)?;
    let mut count: usize = 0;
    for item in decoder.items() {
        let Item::Message(message) = item.or(Err(CallError::OutOfMemory))? else {
            continue;
        };
        let equal = compare_message(alloc, &message, ignore_payloads, rounds)?;
        count = count.checked_add(equal).ok_or(CallError::TooLong)?;
    }
    Ok(count)
}

/// Compares a message that is a command, by the record of its type.
fn compare_message(
    alloc: Global,
    message: &RawMessage,
    ignore_payloads: bool,
    rounds: usize,
) -> Result<usize, CallError> {
    let comparing = Comparing {
        alloc,
        message,
        ignore_payloads,
        rounds,
    };
    match visit_command(message.ty(), comparing) {
        Some(outcome) => outcome,
        None => Ok(0),
    }
}

/// Decodes a command twice, and returns how many of this many comparisons of the two hold.
#[derive(Drop)]
struct Comparing<'a> {
    alloc: Global,
    message: &'a RawMessage,
    ignore_payloads: bool,
    rounds: usize,
}

impl<'a> CommandVisitor for Comparing<'a> {
    type Output = Result<usize, CallError>;

    ghost may_visit = { λ self ty. self.message.now.header.ty ≡ ty };

    fn visit<M: CommandMessage>(self) -> Result<usize, CallError> {
        let first = self.message.decode_as::<M>(self.alloc)?;
        let second = self.message.decode_as::<M>(self.alloc)?;
        Ok(count_same(&first, &second, self.ignore_payloads, self.rounds))
    }
}

/// How many of this many comparisons of two commands hold.
fn count_same<M: CommandMessageHeaderEq>(
    first: &M,
    second: &M,
    ignore_payloads: bool,
    rounds: usize,
) -> usize {
    // they take turns, so that no round repeats the one before it
    let (mut current, mut other) = (first, second);
    let mut count: usize = 0;
    for _round in 0..rounds {
        if current.header_eq(other, ignore_payloads) {
            // at most `rounds`
            count = count.wrapping_add(1);
        }
        (current, other) = (other, current);
    }
    count
}
