//! The commands of one journal.
//!
//! The survey counts the bytes of the items. Their number decides `TooLong`, ends the loops, and keeps an index small
//! enough for the texts, since a command takes eight bytes at least.

ghost use Rattle.std.specs.Prelude.{◌≡◌, ◌+◌, ◌≤◌, ◌<◌, ◌^◌, ◌++◌, ◌∷◌, ℕ, Bool, List, Option, []};
ghost use Rattle.std.specs.Prelude.{is_none, is_some, if◌then◌else◌};
ghost use Rattle.std.specs.Prelude.{false, length, IfErr, IfOk, IfSome, MatchOption, None, OnOk};
ghost use Rattle.std.specs.List.{All};
ghost use Rattle.std.specs.Io.KnownBytes.{Keeps};
ghost use Rattle.std.specs.Option.{option_map_or};
ghost use Rattle.replay_bench.specs.Held.{HasAfter, HasOffsets, IsHeld};
ghost use Rattle.replay_bench.specs.Journals.{command_of, IsCommand};
ghost use Rattle.replay_bench.specs.Reading.{HasRead, HasReadOn, HasReadSome, IsKnownSurvey, IsReading};
ghost use Rattle.replay_bench.specs.Sources.{reader_error, EndsKnown, MayReject, TakesKnown, UnreadWithoutMemory};
ghost use Rattle.replay_bench.specs.Survey.{is_command};
ghost use Rattle.replay_bench.specs.Taking.{HasNoCommand, IsStill, TakesFirst};

use crate::sources::{Next, Source, SourceError};
use crate::survey::Survey;
use crate::verdicts::{BenchError, ReaderError, Side};
use shared_core::CommandType;
use shared_core::encoding::{Item, RawMessage};
use shared_core::version::Version;
use std::alloc::{AllocError, Global};

/// Commands of a journal, in a row.
#[derive(Debug, PartialEq, Drop)]
pub struct HeldCommands {
    /// The commands.
    pub commands: Vec<RawMessage>,
    /// The offset of each in the journal, in bytes.
    pub offsets: Vec<Option<u128>>,
}

impl HeldCommands {
    /// Appends a command that has this offset.
    fn push(&mut self, command: RawMessage, offset: Option<u128>) -> Result<(), AllocError>
        ensures commands { OnOk result (self.new.commands.items ≡ self.old.commands.items ++ command ∷ []) }
        ensures offsets { OnOk result (self.new.offsets.items ≡ self.old.offsets.items ++ offset ∷ []) }
    {
        self.commands.push(command)?;
        self.offsets.push(offset)?;
        Ok(())
    }
}

/// The commands of a journal, one after the other.
#[derive(Drop)]
pub(crate) struct Commands<S> {
    side: Side,
    version: Version,
    source: S,
    /// The survey of the items that were taken, and at the end of the journal of the bytes after them.
    survey: Survey,
}

impl<S: Source> Commands<S> {
    /// The commands of the journal on this side, of this version. The survey finds faults if it is strict.
    pub(crate) fn new(version: Version, side: Side, source: S, is_strict: bool) -> Commands<S>
        requires { S.version source ≡ version }
        ensures new { IsReading version side is_strict (S.coming source) false 0
            result.side result.version (S.version result.source) (S.coming result.source) result.survey }
        ensures source { result.source ≡ source }
    {
        Commands {
            side,
            version,
            source,
            survey: Survey::new(is_strict),
        }
    }

    /// The next command, or `None` where the journal has no further one. Other items are passed over.
    pub(crate) fn next_command(&mut self) -> Result<Option<RawMessage>, ReaderError>
        requires fits { self.old.survey.size < 2 ^ 64 }
        requires same { S.version self.old.source ≡ self.old.version }
        requires read { HasReadSome self.old.version (S.coming self.old.source) self.old.survey }
        ensures taken { IfOk result (λ found. MatchOption found
            (HasNoCommand self.old.version (S.coming self.old.source))
            (λ command. TakesFirst self.old.version
            (S.coming self.old.source) (Some command) (S.coming self.new.source))) }
        ensures command { IfOk result (λ found. IfSome found IsCommand) }
        // what is taken is eight bytes at least
        ensures longer { IfOk result (λ found. IfSome found (λ command.
            8 + self.old.survey.size ≤ self.new.survey.size)) }
        ensures rejected { IfErr result (λ error. (is_strict : Bool) (first : Option (List ℕ))
            → HasRead self.old.version is_strict first (S.coming self.old.source) 0 self.old.survey
            → MayReject self.old.side S.may_fail self.old.version (S.limit self.old.source) first error) }
        ensures fits { OnOk result (self.new.survey.size < 2 ^ 64) }
        ensures version { OnOk result (S.version self.new.source ≡ S.version self.old.source) }
        ensures limit { OnOk result (S.limit self.new.source ≡ S.limit self.old.source) }
        ensures side { OnOk result (self.new.side ≡ self.old.side) }
        ensures same { OnOk result (self.new.version ≡ self.old.version) }
        ensures commands { IfOk result (λ found.
            self.new.survey.commands ≡ self.old.survey.commands + (if is_some found then 1 else 0)) }
        // the items so far are surveyed, whatever was to come at first
        ensures read { IfOk result (λ found. (is_strict : Bool) (first : Option (List ℕ))
            → HasRead self.old.version is_strict first (S.coming self.old.source) 0 self.old.survey
            → HasReadOn self.old.version is_strict first (is_none found)
            (S.coming self.new.source) self.new.survey) }
        // a failed allocation loses nothing but items that are not commands
        ensures kept { UnreadWithoutMemory result (IsStill self.old.version (S.coming self.old.source)
            (S.version self.old.source) (S.limit self.old.source) self.old.survey (S.coming self.new.source)
            (S.version self.new.source) (S.limit self.new.source) self.new.survey) }
        ensures kept_side { UnreadWithoutMemory result ((self.new.side ≡ self.old.side)
            × (self.new.version ≡ self.old.version)) }
    {
        while let Some(item) = self.next_item()? {
            if let Some(command) = as_command(item) {
                return Ok(Some(command));
            }
        }
        Ok(None)
    }

    /// The next item, or `None` where the journal has no further one. It is surveyed, and at the end the bytes are that
    /// are in none.
    fn next_item(&mut self) -> Result<Option<Item>, ReaderError>
        requires fits { self.old.survey.size < 2 ^ 64 }
        requires same { S.version self.old.source ≡ self.old.version }
        requires read { HasReadSome self.old.version (S.coming self.old.source) self.old.survey }
        ensures taken { IfOk result (λ found. MatchOption found
            (EndsKnown self.old.version (S.coming self.old.source) self.new.survey.rest)
            (λ item. TakesKnown self.old.version (S.coming self.old.source) item (S.coming self.new.source))) }
        ensures longer { IfOk result (λ found. IfSome found (λ item.
            8 + self.old.survey.size ≤ self.new.survey.size)) }
        ensures rejected { IfErr result (λ error. (is_strict : Bool) (first : Option (List ℕ))
            → HasRead self.old.version is_strict first (S.coming self.old.source) 0 self.old.survey
            → MayReject self.old.side S.may_fail self.old.version (S.limit self.old.source) first error) }
        ensures fits { OnOk result (self.new.survey.size < 2 ^ 64) }
        ensures version { OnOk result (S.version self.new.source ≡ S.version self.old.source) }
        ensures limit { OnOk result (S.limit self.new.source ≡ S.limit self.old.source) }
        ensures side { OnOk result (self.new.side ≡ self.old.side) }
        ensures same { OnOk result (self.new.version ≡ self.old.version) }
        ensures commands { IfOk result (λ found. self.new.survey.commands
            ≡ self.old.survey.commands + option_map_or (λ item. if is_command item then 1 else 0) found 0) }
        ensures read { IfOk result (λ found. (is_strict : Bool) (first : Option (List ℕ))
            → HasRead self.old.version is_strict first (S.coming self.old.source) 0 self.old.survey
            → HasReadOn self.old.version is_strict first (is_none found)
            (S.coming self.new.source) self.new.survey) }
        // a failed allocation loses nothing
        ensures kept { UnreadWithoutMemory result ((S.version self.new.source ≡ S.version self.old.source)
            × (S.limit self.new.source ≡ S.limit self.old.source)
            × Keeps (S.coming self.old.source) (S.coming self.new.source)
            × (self.new ≡ record self.old { source = self.new.source })) }
    {
        match self.source.next() {
            Ok(Next::Item(item)) => {
                self.survey.note(self.version, &item);
                if self.survey.size > u64::MAX as u128 {
                    return Err(ReaderError::Bench(BenchError::TooLong));
                }
                Ok(Some(item))
            }
            Ok(Next::End(rest)) => {
                self.survey = self.survey.with_rest(rest);
                Ok(None)
            }
            Err(error) => Err(reader_error(self.side, error)),
        }
    }

    /// The offset of the last command that was taken.
    pub(crate) fn last_command(&self) -> Option<u128>
        ensures { result ≡ self.now.survey.last_command }
    {
        self.survey.last_command
    }

    /// Reads a journal to its end, unless it has ended, and returns the commands from the next one on, with their
    /// offsets, and the survey of all of it.
    pub(crate) fn hold(
        mut self,
        alloc: Global,
        next: Option<RawMessage>,
    ) -> Result<(HeldCommands, Survey), ReaderError>
        requires fits { self.survey.size < 2 ^ 64 }
        requires same { S.version self.source ≡ self.version }
        requires command { IfSome next IsCommand }
        requires read { (is_strict : Bool) × (first : Option (List ℕ))
            × HasReadOn self.version is_strict first (is_none next) (S.coming self.source) self.survey }
        ensures survey { IfOk result (λ held. (is_strict : Bool) (first : Option (List ℕ))
            → HasReadOn self.version is_strict first (is_none next) (S.coming self.source) self.survey
            → IsKnownSurvey self.version is_strict first held.1) }
        ensures held { IfOk result (λ held. (first : Option (List ℕ)) (index : ℕ)
            → IsHeld self.version first index [] next (S.coming self.source)
            → IfSome first (λ journal. HasAfter self.version journal index held.0.commands.items)) }
        ensures commands { IfOk result (λ held. All IsCommand held.0.commands.items) }
        ensures offsets { IfOk result (λ held. (is_strict : Bool) (first : Option (List ℕ))
            → HasReadOn self.version is_strict first (is_none next) (S.coming self.source) self.survey
            → HasOffsets self.version first self.survey.commands held.0.offsets.items) }
        ensures long { IfOk result (λ held.
            length held.0.offsets.items ≡ length held.0.commands.items) }
        ensures rejected { IfErr result (λ error. (is_strict : Bool) (first : Option (List ℕ))
            → HasReadOn self.version is_strict first (is_none next) (S.coming self.source) self.survey
            → MayReject self.side S.may_fail self.version (S.limit self.source) first error) }
    {
        let mut held = HeldCommands {
            commands: Vec::new(alloc),
            offsets: Vec::new(alloc),
        };
        let mut next = next;
        while let Some(command) = next {
            held.push(command, self.last_command())?;
            next = self.next_command()?;
        }
        Ok((held, self.survey))
    }

    /// Reads a journal to its end, unless it has ended, and returns the survey of all of it.
    pub(crate) fn finish(mut self, has_ended: bool) -> Result<Survey, ReaderError>
        requires fits { self.survey.size < 2 ^ 64 }
        requires same { S.version self.source ≡ self.version }
        requires read { (is_strict : Bool) × (first : Option (List ℕ))
            × HasReadOn self.version is_strict first has_ended (S.coming self.source) self.survey }
        ensures survey { IfOk result (λ survey. (is_strict : Bool) (first : Option (List ℕ))
            → HasReadOn self.version is_strict first has_ended (S.coming self.source) self.survey
            → IsKnownSurvey self.version is_strict first survey) }
        ensures rejected { IfErr result (λ error. (is_strict : Bool) (first : Option (List ℕ))
            → HasReadOn self.version is_strict first has_ended (S.coming self.source) self.survey
            → MayReject self.side S.may_fail self.version (S.limit self.source) first error) }
    {
        let mut has_ended = has_ended;
        while !has_ended {
            let next = self.next_item()?;
            has_ended = next.is_none();
            // the item goes before the next one is read
            drop(next);
        }
        Ok(self.survey)
    }
}

/// Why the journal on a side was not read, as its source says.
pub(crate) fn reader_error(side: Side, error: SourceError) -> ReaderError
    ensures { result ≡ reader_error side error }
{
    match error {
        SourceError::Failed => ReaderError::Read(side),
        SourceError::MessageTooLong(message) => ReaderError::MessageTooLong(side, message),
        SourceError::TooLong => ReaderError::Bench(BenchError::TooLong),
        SourceError::OutOfMemory => ReaderError::Bench(BenchError::OutOfMemory),
    }
}

/// An item that is a command.
fn as_command(item: Item) -> Option<RawMessage>
    ensures is { result ≡ command_of item }
    ensures command { IfSome result IsCommand }
{
    let Item::Message(message) = item else {
        return None;
    };
    match CommandType::try_from(message.ty()) {
        Ok(_) => Some(message),
        Err(_) => None,
    }
}
