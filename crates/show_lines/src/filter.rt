//! The words of a filter, and how a text says them.

ghost use Rattle.std.specs.Prelude.{◌≡◌, ◌≢◌, ◌<◌, ◌==◌, false, Some, Err, [], IfOk, IfErr, OnOk, length, map};
ghost use Rattle.std.specs.Prelude.{eqb};
ghost use Rattle.std.specs.List.{starts_with, before_first, after_first};
ghost use Rattle.std.specs.StrCase.Lower.{str_to_lowercase};
ghost use Rattle.show_lines.specs.Ranges.{range_said};
ghost use Rattle.show_lines.specs.Words.{Adds, Asks, AsksNothing, LacksNumber, LacksState, Reads, Refuses};
ghost use Rattle.show_lines.specs.Words.{end_of, field_said, fields, first_said, named_field, said_of};
ghost use Rattle.show_lines.specs.Words.{says_nothing, says_open, state_name, without_mark};
ghost use Rattle.show_lines.specs.declared.filter.FilterError.TheVariants.{OutOfMemory};

use crate::range::{Range, range_of};
use std::alloc::{AllocError, Global};
use std::fmt::{self, Display, Formatter, Write};

/// A word of a filter.
#[derive(Drop)]
pub struct Word {
    /// Whether it is of the items that do not pass its test.
    pub is_without: bool,
    /// What it asks.
    pub test: Test,
}

/// What a word asks of an item. Its texts are in lower case, and are searched for without regard to case.
#[derive(Drop)]
pub enum Test {
    /// A part of the type, or of a text, of bytes or of a number.
    Anywhere(String),
    /// A part of the type.
    Type(String),
    /// A part of a name or of a key.
    Name(String),
    /// A state.
    Is(State),
    /// The index among the commands.
    OfCommand(Range),
    /// The index among the items.
    OfItem(Range),
    /// An id of a completion or of a signal.
    OfId(Range),
    /// The number of bytes, with the header.
    OfSize(Range),
    /// Where the item begins in the stream, in bytes.
    OfOffset(Range),
}

/// What an item may be.
#[derive(Clone, Copy, Debug, PartialEq, Eq, Drop)]
pub enum State {
    /// A message with a failure.
    Failure,
    /// A message whose payload is not well-formed.
    Malformed,
    /// A command.
    Command,
    /// A notification.
    Notification,
    /// Another message of the protocol.
    Core,
    /// A custom entry.
    Custom,
    /// An unassigned code, before version 9.
    Unknown,
    /// A message with an unassigned code, from version 9 on.
    Skipped,
    /// Trailing bytes, which are never one.
    Rest,
}

/// The words of a text.
#[derive(Drop)]
pub struct Filter {
    /// All but `is:open`.
    pub words: Vec<Word>,
    /// Whether one of them is `is:open`: a journal has to be read to its end to know what nothing completes.
    pub open: bool,
}

/// Why a text is not a filter.
#[derive(Debug, Drop)]
pub enum FilterError {
    /// A field, as `size:`, that is not followed by a number.
    NoNumber(&'static str),
    /// What `is:` is followed by, and no item may be.
    NoState(String),
    /// `-is:open`.
    NotOpen,
    /// An allocation failed.
    OutOfMemory,
}

impl From<AllocError> for FilterError {
    ghost use Rattle.std.specs.Prelude.{◌≡◌};
    ghost use Rattle.show_lines.specs.declared.filter.FilterError.TheVariants.{OutOfMemory};

    ghost from_gives = { λ _ error. error ≡ OutOfMemory };

    fn from(_: AllocError) -> FilterError {
        FilterError::OutOfMemory
    }
}

impl Display for FilterError {
    fn fmt<W: Write>(&self, f: &mut Formatter<W>) -> fmt::Result {
        match self {
            FilterError::NoNumber(field) => write!(
                f,
                "{field} is followed by a number, as {field}49, {field}>49 or {field}40-60"
            ),
            FilterError::NoState(state) => write!(f, "is: is not followed by {state}"),
            FilterError::NotOpen => {
                f.write_str("-is:open: what is open is known only at the end of a journal")
            }
            FilterError::OutOfMemory => f.write_str("out of memory"),
        }
    }
}

/// What stands before the colon of a word.
#[derive(Clone, Copy, Debug, PartialEq, Eq, Drop)]
enum FieldName {
    Type,
    Name,
    Is,
    Command,
    Item,
    Id,
    Size,
    Offset,
}

/// The fields, as words begin with them.
const FIELDS: [(&str, FieldName); 8] = [
    ("type:", FieldName::Type),
    ("name:", FieldName::Name),
    ("is:", FieldName::Is),
    ("cmd:", FieldName::Command),
    ("item:", FieldName::Item),
    ("id:", FieldName::Id),
    ("size:", FieldName::Size),
    ("offset:", FieldName::Offset),
];

/// A word as it is written.
#[derive(Clone, Copy, Drop)]
struct Written<'a> {
    is_without: bool,
    field: Option<FieldName>,
    /// Whether it is in quotes.
    is_phrase: bool,
    text: &'a str,
}

impl Written<'_> {
    /// Whether it is a word without a field whose text is empty, and no phrase.
    fn says_nothing(&self) -> bool
        ensures { result ≡ says_nothing (said_of self.now) }
    {
        self.field.is_none() && !self.is_phrase && self.text.is_empty()
    }

    /// Whether it is `is:open`.
    fn says_open(&self) -> bool
        ensures { result ≡ says_open (said_of self.now) }
    {
        matches!(self.field, Some(FieldName::Is)) && self.text == "open"
    }
}

impl Filter {
    /// The words of a text: `-` before a word, a field before a colon, and a phrase in quotes. Words are separated by
    /// spaces. The error is that of the first word that means nothing, or a failed allocation.
    pub fn parse(alloc: Global, text: &str) -> Result<Filter, FilterError>
        ensures { result ≢ Err OutOfMemory → Reads (length (str_to_lowercase text.now)) (str_to_lowercase text.now)
            [] false result }
    {
        let lower = text.to_lowercase(alloc)?;
        let mut filter = Filter {
            words: Vec::new(alloc),
            open: false,
        };
        let mut rest = lower.as_str();
        // each turn takes at least one byte
        for _ in 0..lower.len() {
            if rest.is_empty() {
                break;
            }
            let (written, after) = first_word(rest);
            filter.add(alloc, written)?;
            rest = after;
        }
        Ok(filter)
    }

    /// Adds a word, if it says anything.
    fn add(&mut self, alloc: Global, written: Written<'_>) -> Result<(), FilterError>
        ensures added { OnOk result (Adds (said_of written.entry) self.old.words.items self.old.«open»
            self.new.words.items self.new.«open») }
        ensures refused { IfErr result (λ error. error ≢ OutOfMemory → Refuses (said_of written.entry) error) }
    {
        if written.says_nothing() {
            return Ok(());
        }
        if written.says_open() {
            if written.is_without {
                return Err(FilterError::NotOpen);
            }
            self.open = true;
            return Ok(());
        }
        let test = test_of(alloc, written.field, written.text)?;
        let word = Word {
            is_without: written.is_without,
            test,
        };
        match self.words.push(word) {
            Ok(()) => Ok(()),
            Err(error) => Err(AllocError::from(error).into()),
        }
    }
}

/// The word that a text begins with, and what is after it and the space or quote that ends it.
fn first_word(text: &str) -> (Written<'_>, &str)
    ensures word { said_of result.0 ≡ (first_said text.now).0 }
    ensures after { result.1.now ≡ (first_said text.now).1 }
{
    let (is_without, text) = split_mark(text, "-");
    let (field, text) = field_of(text, &FIELDS);
    let (is_phrase, text) = split_mark(text, "\"");
    let (text, after) = split_end(text, end_of(is_phrase));
    let written = Written {
        is_without,
        field,
        is_phrase,
        text,
    };
    (written, after)
}

/// Whether a text begins with a mark, and the text without it.
fn split_mark<'a>(text: &'a str, mark: &str) -> (bool, &'a str)
    ensures begins { result.0 ≡ starts_with eqb text.now mark.now }
    ensures rest { result.1.now ≡ without_mark mark.now text.now }
{
    match text.strip_prefix(mark) {
        Some(rest) => (true, rest),
        None => (false, text),
    }
}

/// The character that ends a word.
fn end_of(is_phrase: bool) -> char
    ensures value { result ≡ end_of is_phrase }
    ensures bound { result < 128 }
{
    if is_phrase { '"' } else { ' ' }
}

/// What is before a character and after it: all and nothing, if it is not there.
fn split_end(text: &str, end: char) -> (&str, &str)
    requires { end < 128 }
    ensures before { result.0.now ≡ before_first (λ byte. byte == end) text.now }
    ensures after { result.1.now ≡ after_first (λ byte. byte == end) text.now }
{
    text.split_once(end).unwrap_or((text, ""))
}

/// The first of these fields that a text begins with, and what is after it.
fn field_of<'a>(text: &'a str, fields: &[(&'static str, FieldName)]) -> (Option<FieldName>, &'a str)
    ensures field { result.0 ≡ (field_said (map named_field fields.now) text.now).0 }
    ensures rest { result.1.now ≡ (field_said (map named_field fields.now) text.now).1 }
{
    for (name, field) in fields {
        if let Some(rest) = text.strip_prefix(*name) {
            return (Some(*field), rest);
        }
    }
    (None, text)
}

/// What a word of a field asks.
fn test_of(alloc: Global, field: Option<FieldName>, text: &str) -> Result<Test, FilterError>
    ensures asks { IfOk result (Asks field text.now) }
    ensures asks_nothing { IfErr result (λ error. error ≢ OutOfMemory → AsksNothing field text.now error) }
{
    Ok(match field {
        None => Test::Anywhere(String::from_str(alloc, text)?),
        Some(FieldName::Type) => Test::Type(String::from_str(alloc, text)?),
        Some(FieldName::Name) => Test::Name(String::from_str(alloc, text)?),
        Some(FieldName::Is) => Test::Is(state_of(alloc, text)?),
        Some(FieldName::Command) => Test::OfCommand(number_of("cmd:", text)?),
        Some(FieldName::Item) => Test::OfItem(number_of("item:", text)?),
        Some(FieldName::Id) => Test::OfId(number_of("id:", text)?),
        Some(FieldName::Size) => Test::OfSize(number_of("size:", text)?),
        Some(FieldName::Offset) => Test::OfOffset(number_of("offset:", text)?),
    })
}

/// The range that a word of a field says.
fn number_of(field: &'static str, text: &str) -> Result<Range, FilterError>
    ensures range { IfOk result (λ range. range_said text.now ≡ Some range) }
    ensures none { IfErr result (LacksNumber field.now text.now) }
{
    match range_of(text) {
        Some(range) => Ok(range),
        None => Err(FilterError::NoNumber(field)),
    }
}

/// The state of this name.
fn state_of(alloc: Global, text: &str) -> Result<State, FilterError>
    ensures named { IfOk result (λ state. state_name state ≡ text.now) }
    ensures none { IfErr result (λ error. error ≢ OutOfMemory → LacksState text.now error) }
{
    match text {
        "failure" => Ok(State::Failure),
        "malformed" => Ok(State::Malformed),
        "command" => Ok(State::Command),
        "notification" => Ok(State::Notification),
        "core" => Ok(State::Core),
        "custom" => Ok(State::Custom),
        "unknown" => Ok(State::Unknown),
        "skipped" => Ok(State::Skipped),
        "rest" => Ok(State::Rest),
        _ => Err(FilterError::NoState(String::from_str(alloc, text)?)),
    }
}
