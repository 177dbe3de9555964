//! Whether an item has the words of a filter.

ghost use Rattle.std.specs.Prelude.{◌≡◌, IfErr, IfOk};
ghost use Rattle.std.specs.List.{ends_with};
ghost use Rattle.std.specs.Prelude.{eqb};
ghost use Rattle.std.specs.Option.{option_map};
ghost use Rattle.shared_core_codec.specs.Payloads.{payload_meaning};
ghost use Rattle.shared_core_fields.specs.Runs.{held_numbers};
ghost use Rattle.shared_core_fields.specs.Views.{field_part};
ghost use Rattle.shared_core_wire.specs.Value.{Number};
ghost use Rattle.shared_core_codec.specs.FieldParts.{parts_of};
ghost use Rattle.shared_core_codec.specs.ProgramRows.{kind_view};
ghost use Rattle.show_lines.specs.Contents.{held_view, item_held, type_text};
ghost use Rattle.show_lines.specs.Filter.{bytes_pass, fails, field_passes, fields_pass, has, has_all, has_state};
ghost use Rattle.show_lines.specs.Filter.{has_word, held_passes, is_id_name, is_name, is_same, kind_of, matches};
ghost use Rattle.show_lines.specs.Filter.{number_passes, numbers_pass, passes, scalar_passes, text_passes};
ghost use Rattle.show_lines.specs.Showing.{IsLong};
ghost use Rattle.stream_lines.specs.Printing.{IsLack};

use crate::facts::{Role, is_failing, role_of};
use crate::filter::{State, Test, Word};
use crate::held::{Held, Payloads};
use crate::line::push_type;
use crate::place::Place;
use dump_lines::Canonicalizer;
use hex::encode;
use shared_core_codec::utf8::as_text;
use shared_core_fields::fields::{CanonicalPayload, Field, FieldValue};
use shared_core_fields::runs::Run;
use shared_core_json::names::name_of;
use shared_core_stream::encoding::Item;
use std::alloc::{AllocError, Global};
use stream_lines::PrintError;

/// The levels of messages that are searched: all that a payload may have.
const LEVELS: u32 = 101;

/// The words of a filter, and what reads the payloads that they are looked for in.
#[derive(Drop)]
pub struct Matcher<'a, C> {
    pub payloads: &'a Payloads<'a, C>,
    pub words: &'a [Word],
}

impl<'a, C: Canonicalizer> Matcher<'a, C> {
    /// Whether an item at a place has each of the words. `canonical` is a buffer that may be overwritten.
    pub fn matches<'i>(
        &self,
        place: Place,
        item: &'i Item,
        canonical: &'i mut Vec<u8>,
    ) -> Result<bool, PrintError>
        ensures found { IfOk result (λ found. found
            ≡ matches self.now.words.now self.now.payloads.now.version place item.now) }
        ensures lack { IfErr result (IsLack (IsLong self.now.payloads.now.version item.now)) }
    {
        if self.words.is_empty() {
            return Ok(true);
        }
        let held = self.payloads.held_of(item, canonical)?;
        let sought = Sought {
            alloc: self.payloads.alloc,
            place,
            item,
            held,
        };
        Ok(sought.has_all(self.words)?)
    }
}

/// An item in which words are looked for.
#[derive(Clone, Copy)]
struct Sought<'a> {
    alloc: Global,
    place: Place,
    item: &'a Item,
    /// What it holds, unless that is nothing.
    held: Option<Held<'a>>,
}

impl<'a> Sought<'a> {
    /// Whether it has each of the words.
    fn has_all(&self, words: &[Word]) -> Result<bool, AllocError>
        ensures { IfOk result (λ found. found ≡ has_all self.now.place self.now.item.now
            (option_map held_view self.now.held) words.now) }
    {
        for word in words {
            if !self.has(word)? {
                return Ok(false);
            }
        }
        Ok(true)
    }

    /// Whether it has a word.
    fn has(&self, word: &Word) -> Result<bool, AllocError>
        ensures { IfOk result (λ found. found ≡ has self.now.place self.now.item.now
            (option_map held_view self.now.held) word.now) }
    {
        let passes = self.passes(&word.test)?;
        Ok(if word.is_without { !passes } else { passes })
    }

    /// Whether it passes a test.
    fn passes(&self, test: &Test) -> Result<bool, AllocError>
        ensures { IfOk result (λ found. found ≡ passes self.now.place self.now.item.now
            (option_map held_view self.now.held) test.now) }
    {
        match test {
            Test::Anywhere(word) => {
                if self.type_has(word.as_str())? {
                    return Ok(true);
                }
                self.held_passes(test)
            }
            Test::Type(word) => self.type_has(word.as_str()),
            Test::Name(_) | Test::OfId(_) => self.held_passes(test),
            Test::Is(state) => Ok(self.has_state(*state)),
            Test::OfCommand(range) => {
                Ok(is_same(State::Command, self.kind()) && range.has(self.place.command))
            },
            Test::OfItem(range) => Ok(range.has(self.place.index)),
            Test::OfSize(range) => Ok(range.has(self.item.size() as u128)),
            Test::OfOffset(range) => Ok(range.has(self.place.offset)),
        }
    }

    /// Whether its type has a word.
    fn type_has(&self, word: &str) -> Result<bool, AllocError>
        ensures { IfOk result (λ found. found ≡ has_word word.now (type_text self.now.item.now)) }
    {
        let mut text = String::new(self.alloc);
        push_type(&mut text, self.item)?;
        has_word(self.alloc, word, text.as_str())
    }

    /// Whether what it holds passes a test.
    fn held_passes(&self, test: &Test) -> Result<bool, AllocError>
        ensures { IfOk result (λ found. found ≡ held_passes test.now (option_map held_view self.now.held)) }
    {
        let search = Search {
            alloc: self.alloc,
            test,
        };
        match self.held {
            None => Ok(false),
            Some(Held::Opaque(bytes)) => search.bytes_pass("", bytes),
            Some(Held::Malformed(bytes)) => search.bytes_pass("", bytes),
            Some(Held::Fields(payload)) => search.fields_pass(payload, LEVELS),
        }
    }

    /// Whether it has a state.
    fn has_state(&self, state: State) -> bool
        ensures { result ≡ has_state self.now.item.now (option_map held_view self.now.held) state }
    {
        match state {
            State::Failure => self.fails(),
            State::Malformed => matches!(self.held, Some(Held::Malformed(_))),
            kind => is_same(kind, self.kind()),
        }
    }

    /// Whether it is an error message, or a message with a failure.
    fn fails(&self) -> bool
        ensures { result ≡ fails self.now.item.now (option_map held_view self.now.held) }
    {
        match (self.item, self.held) {
            (Item::Message(_), Some(Held::Fields(payload))) => is_failing(payload),
            _ => false,
        }
    }

    /// What kind of item it is.
    fn kind(&self) -> State
        ensures { result ≡ kind_of self.now.item.now (option_map held_view self.now.held) }
    {
        match self.item {
            Item::Message(message) => match (self.held, role_of(message.ty())) {
                (Some(Held::Opaque(_)), _) => State::Custom,
                (_, Role::Command) => State::Command,
                (_, Role::Notification) => State::Notification,
                (_, Role::Other) => State::Core,
            },
            Item::Unknown(_) => State::Unknown,
            Item::Skipped(_, _) => State::Skipped,
        }
    }
}

/// Whether two kinds are the same.
fn is_same(one: State, other: State) -> bool
    ensures { result ≡ is_same one other }
{
    match (one, other) {
        (State::Command, State::Command) => true,
        (State::Notification, State::Notification) => true,
        (State::Core, State::Core) => true,
        (State::Custom, State::Custom) => true,
        (State::Unknown, State::Unknown) => true,
        (State::Skipped, State::Skipped) => true,
        _ => false,
    }
}

/// A search in what items hold.
#[derive(Clone, Copy)]
struct Search<'a> {
    alloc: Global,
    /// What is searched for.
    test: &'a Test,
}

impl<'a> Search<'a> {
    /// Whether a field of a message passes, or one of a message that is nested in it, over a number of levels.
    #[cycle(search)]
    #[tactic(auto, using(crate::proofs::Words::levels_less, crate::proofs::Words::no_levels))]
    fn fields_pass(&self, payload: CanonicalPayload<'_>, levels: u32) -> Result<bool, AllocError>
        ensures { IfOk result (λ found. found ≡ fields_pass self.now.test.now levels payload.entry.schema
            (payload_meaning payload.entry.schema payload.entry.bytes.now)) }
    {
        if levels == 0 {
            return Ok(false);
        }
        let schema = payload.schema;
        for field in payload.fields() {
            if self.field_passes(schema, &field, levels - 1)? {
                return Ok(true);
            }
        }
        Ok(false)
    }

    /// Whether a field of a schema passes; of a message in it over a number of levels.
    #[cycle(search)]
    fn field_passes(&self, schema: u32, field: &Field<'_>, levels: u32) -> Result<bool, AllocError>
        ensures { IfOk result (λ found. found
            ≡ field_passes self.now.test.now levels schema (field_part field.now)) }
    {
        match field.value {
            FieldValue::Message(message) => self.fields_pass(message, levels),
            _ => self.scalar_passes(name_of(schema, field.number), field),
        }
    }

    /// Whether a field of this name passes that is not a message.
    fn scalar_passes(&self, name: &str, field: &Field<'_>) -> Result<bool, AllocError>
        ensures { IfOk result (λ found. found
            ≡ scalar_passes self.now.test.now name.now (field_part field.now)) }
    {
        match field.value {
            FieldValue::Text(text) => self.text_passes(name, text),
            FieldValue::ByteString(bytes) => self.bytes_pass(name, bytes),
            FieldValue::U32(number) => self.number_passes(name, u64::from(number)),
            FieldValue::U64(number) => self.number_passes(name, number),
            FieldValue::Numbers(run) => self.numbers_pass(name, run),
            _ => Ok(false),
        }
    }

    /// Whether a text in a field of this name passes.
    fn text_passes(&self, name: &str, text: &str) -> Result<bool, AllocError>
        ensures { IfOk result (λ found. found ≡ text_passes self.now.test.now name.now text.now) }
    {
        match self.test {
            Test::Anywhere(word) => has_word(self.alloc, word.as_str(), text),
            Test::Name(word) if is_name(name) => has_word(self.alloc, word.as_str(), text),
            _ => Ok(false),
        }
    }

    /// Whether bytes in a field of this name pass: the text that they are, or else their digits.
    fn bytes_pass(&self, name: &str, bytes: &[u8]) -> Result<bool, AllocError>
        ensures { IfOk result (λ found. found ≡ bytes_pass self.now.test.now name.now bytes.now) }
    {
        match as_text(bytes) {
            Some(text) => self.text_passes(name, text),
            None => {
                let digits = encode(self.alloc, bytes)?;
                self.text_passes(name, digits.as_str())
            }
        }
    }

    /// Whether a number in a field of this name passes.
    #[tactic(auto, using(crate::proofs::Words::contains_part))]
    fn number_passes(&self, name: &str, number: u64) -> Result<bool, AllocError>
        ensures { IfOk result (λ found. found ≡ number_passes self.now.test.now name.now number) }
    {
        match self.test {
            Test::Anywhere(word) => {
                let digits = number.to_string(self.alloc)?;
                Ok(digits.contains(word.as_str()))
            }
            Test::OfId(range) => Ok(is_id_name(name) && range.has(u128::from(number))),
            _ => Ok(false),
        }
    }

    /// Whether a number of a run in a field of this name passes.
    fn numbers_pass(&self, name: &str, run: Run<'_>) -> Result<bool, AllocError>
        ensures { IfOk result (λ found. found
            ≡ numbers_pass self.now.test.now name.now
            (parts_of Number (held_numbers (kind_view run.entry.kind) run.entry.bytes.now))) }
    {
        for number in run.numbers() {
            if self.number_passes(name, number)? {
                return Ok(true);
            }
        }
        Ok(false)
    }
}

/// Whether a text has a word in it, without regard to case. The word is in lower case.
#[tactic(auto, using(crate::proofs::Words::contains_part))]
fn has_word(alloc: Global, word: &str, text: &str) -> Result<bool, AllocError>
    ensures { IfOk result (λ found. found ≡ has_word word.now text.now) }
{
    let lower = text.to_lowercase(alloc)?;
    Ok(lower.contains(word))
}

/// Whether a field of this name has a name or a key.
fn is_name(name: &str) -> bool
    ensures { result ≡ is_name name.now }
{
    ends(name, "name")
        || ends(name, "Name")
        || ends(name, "key")
        || ends(name, "Key")
        || ends(name, "keys")
}

/// Whether a field of this name has the id of a completion or of a signal.
fn is_id_name(name: &str) -> bool
    ensures { result ≡ is_id_name name.now }
{
    ends(name, "Id")
        || ends(name, "idx")
        || ends(name, "Idx")
        || ends(name, "Completions")
        || ends(name, "Signals")
}

/// Whether a name ends with this.
#[tactic(auto, using(std::proofs::lemmas::Str::Pattern::ends_text))]
fn ends(name: &str, end: &str) -> bool
    ensures { result ≡ ends_with eqb name.now end.now }
{
    name.ends_with(end)
}
