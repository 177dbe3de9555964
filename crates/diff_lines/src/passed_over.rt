//! What a comparison passes over, and which of it is reported or an error.

ghost use Rattle.std.specs.Prelude.{◌≡◌};
ghost use Rattle.diff_lines.specs.PassedOver.{bytes_word, empty_note, found_trouble, headers_word, no_item_note};
ghost use Rattle.diff_lines.specs.PassedOver.{rest_note, unknown_note, wrong_with};

use replay_bench::{Fault, FaultReason, Side, Survey};
use shared_core_base::version::Version;
use std::fmt;

/// What is wrong with the journal of a side.
#[derive(Debug, Clone, Copy, PartialEq, Eq, Drop)]
pub struct Trouble {
    /// The journal.
    pub side: Side,
    /// What is wrong, and where.
    pub fault: Fault,
}

/// Prints the side, the offset and the reason.
impl fmt::Display for Trouble {
    ghost use Rattle.std.specs.Prelude.{Some};
    ghost use Rattle.diff_lines.specs.PassedOver.{trouble_text};

    ghost output = { λ trouble. Some (trouble_text trouble) };

    fn fmt<W: fmt::Write>(&self, f: &mut fmt::Formatter<W>) -> fmt::Result {
        let side = self.side;
        let fault = self.fault;
        write!(f, "the {side} journal, {fault}")
    }
}

/// What is wrong with two journals of these surveys, the recorded one first. It is that one has bytes and no complete
/// item, or, if the comparison is strict, all that may be wrong.
pub fn found_trouble(is_strict: bool, recorded: &Survey, replayed: &Survey) -> Option<Trouble>
    ensures { result ≡ found_trouble is_strict recorded.now replayed.now }
{
    if let Some(fault) = wrong_with(is_strict, recorded) {
        return Some(Trouble {
            side: Side::Recorded,
            fault,
        });
    }
    let fault = wrong_with(is_strict, replayed)?;
    Some(Trouble {
        side: Side::Replayed,
        fault,
    })
}

/// What is wrong with a journal of this survey.
fn wrong_with(is_strict: bool, survey: &Survey) -> Option<Fault>
    ensures { result ≡ wrong_with is_strict survey.now }
{
    if is_strict || survey.size == 0 {
        survey.trouble()
    } else {
        None
    }
}

/// What is reported of a journal that is compared.
#[derive(Debug, Clone, Copy, PartialEq, Eq, Drop)]
pub enum Note {
    /// It has this many headers of an unknown type.
    UnknownHeaders(Side, u128),
    /// This many bytes of it are after the last complete item.
    Rest(Side, u64),
    /// It has no byte.
    Empty(Side),
    /// It has bytes and no complete item, as if it were not a journal of the version of this number.
    NoItem(Side, u32),
}

/// Prints a sentence without a line feed.
impl fmt::Display for Note {
    ghost use Rattle.std.specs.Prelude.{Some};
    ghost use Rattle.diff_lines.specs.PassedOver.{note_text};

    ghost output = { λ note. Some (note_text note) };

    fn fmt<W: fmt::Write>(&self, f: &mut fmt::Formatter<W>) -> fmt::Result {
        match self {
            Note::UnknownHeaders(side, count) => {
                let word = headers_word(*count);
                write!(f, "the {side} journal has {count} unknown {word}")
            }
            Note::Rest(side, count) => {
                let word = bytes_word(*count);
                write!(
                    f,
                    "the {side} journal has {count} {word} after its last whole item"
                )
            }
            Note::Empty(side) => write!(f, "the {side} journal is empty"),
            Note::NoItem(side, number) => {
                write!(
                    f,
                    "no message in the {side} journal; is it a journal of version {number}?"
                )
            }
        }
    }
}

/// `header` or `headers`, by their number.
fn headers_word(count: u128) -> &'static str
    ensures { result.now ≡ headers_word count }
{
    if count == 1 { "header" } else { "headers" }
}

/// `byte` or `bytes`, by their number.
fn bytes_word(count: u64) -> &'static str
    ensures { result.now ≡ bytes_word count }
{
    if count == 1 { "byte" } else { "bytes" }
}

/// The note on the unknown headers of the journal of a side, if it has any.
pub fn unknown_note(side: Side, survey: &Survey) -> Option<Note>
    ensures { result ≡ unknown_note side survey.now }
{
    if survey.unknown == 0 {
        return None;
    }
    Some(Note::UnknownHeaders(side, survey.unknown))
}

/// The note on the bytes after the last complete item of the journal of a side, if it has any.
pub fn rest_note(side: Side, survey: &Survey) -> Option<Note>
    ensures { result ≡ rest_note side survey.now }
{
    if survey.rest == 0 {
        return None;
    }
    Some(Note::Rest(side, survey.rest))
}

/// The note on the journal of a side that has no byte.
pub fn empty_note(side: Side, survey: &Survey) -> Option<Note>
    ensures { result ≡ empty_note side survey.now }
{
    if survey.size > 0 || survey.rest > 0 {
        return None;
    }
    Some(Note::Empty(side))
}

/// The note on what is wrong with a journal of this version, if it is that it has bytes and no complete item.
pub fn no_item_note(version: Version, trouble: &Trouble) -> Option<Note>
    ensures { result ≡ no_item_note version trouble.now }
{
    if trouble.fault.offset > 0 {
        return None;
    }
    match trouble.fault.reason {
        FaultReason::Rest(_) => Some(Note::NoItem(trouble.side, version.number())),
        FaultReason::UnknownHeader(_) | FaultReason::Malformed(_) => None,
    }
}
