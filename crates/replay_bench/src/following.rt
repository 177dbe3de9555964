//! A recording that is followed by a replay, item by item: what `Replay` holds, and `compare_sources` loops over.

ghost use Rattle.std.specs.Prelude.{◌≡◌, ◌+◌, ◌<◌, ◌^◌, List, [], true, false, option_map, IfErr, IfSome, OnOk};
ghost use Rattle.shared_core_stream.specs.declared.encoding.item.Item.{Item as AnyItem};
ghost use Rattle.replay_bench.specs.Journals.{command_of, IsCommand};
ghost use Rattle.replay_bench.specs.Replays.{ending, held_in, Checks, ComesNext, Finishes, IsAhead, IsFollowing};
ghost use Rattle.replay_bench.specs.Replays.{IsHeldAt};
ghost use Rattle.replay_bench.specs.Replays.{is_malformed as found_malformed, is_repeatable as repeatable};
ghost use Rattle.replay_bench.specs.Replays.{Recording, Rejects};
ghost use Rattle.replay_bench.specs.Verdicts.{ReturnsNext};
ghost use Rattle.stream_lines.specs.Printing.{item_size};

use crate::commands::Commands;
use crate::fields::FieldDifference;
use crate::journals::Ignored;
use crate::mismatches::{CommandPayload, Found, Pair, compare_commands};
use crate::sources::Source;
use crate::verdicts::{BenchError, ReaderError, Side, Verdict};
use shared_core::CommandType;
use shared_core::encoding::{Item, RawMessage};
use shared_core::version::Version;
use std::alloc::Global;

/// Where a replay leaves its recording.
#[derive(Debug, PartialEq, Drop)]
pub struct Mismatch {
    /// What differs, with the index of the replayed command: all commands before it are the same.
    pub verdict: Verdict,
    /// If it is a `HeaderMismatch`, the fields of the lines of its text, in their order; otherwise none.
    pub fields: Vec<FieldDifference>,
    /// The offset in the recording, in bytes, of the command at this index, or of its last one if it has ended.
    pub recorded_at: Option<u128>,
    /// The offset of the replayed command.
    pub replayed_at: u128,
}

/// The next command of a recording, as far as it was read ahead.
#[derive(Debug, PartialEq, Drop)]
pub enum Ahead {
    /// It was not read yet.
    Unread,
    /// It is held.
    Held(RawMessage),
    /// There is none.
    Ended,
    /// The recording could not be read on, and is not read again.
    Failed(ReaderError),
}

/// A recording, and how far a replay has followed it.
#[derive(Drop)]
pub struct Following<S> {
    alloc: Global,
    ignore: Ignored,
    recorded: Commands<S>,
    ahead: Ahead,
    /// The number of replayed commands, each of which is the same as the recorded one at its index.
    index: u64,
    /// The number of bytes of the replayed items.
    size: u128,
    /// Whether it was said that the replay is another one, or malformed.
    has_said: bool,
}

impl<S: Source> Following<S> {
    /// The recording of a source of this version, before any item of a replay.
    pub(crate) fn new(alloc: Global, version: Version, recorded: S, ignore: Ignored) -> Following<S>
        requires { S.version recorded ≡ version }
        ensures new { IsFollowing S.version S.limit S.coming S.may_fail
            (record { version = version; limit = S.limit recorded; bytes = S.coming recorded }) [] result }
        ensures ignore { result.ignore ≡ ignore }
        ensures said { result.has_said ≡ false }
    {
        Following {
            alloc,
            ignore,
            recorded: Commands::new(version, Side::Recorded, recorded, false),
            ahead: Ahead::Unread,
            index: 0,
            size: 0,
            has_said: false,
        }
    }

    /// Reads the next recorded command, unless it was read.
    pub(crate) fn read_ahead(&mut self) -> Result<(), ReaderError>
        requires { (recording : Recording) × (given : List AnyItem)
            × IsFollowing S.version S.limit S.coming S.may_fail recording given self.old }
        ensures followed { (recording : Recording) (given : List AnyItem)
            → IsFollowing S.version S.limit S.coming S.may_fail recording given self.old
            → IsFollowing S.version S.limit S.coming S.may_fail recording given self.new }
        ensures ahead { OnOk result (IsAhead self.new.ahead) }
        ensures rejected { IfErr result (λ error. (recording : Recording) (given : List AnyItem)
            → IsFollowing S.version S.limit S.coming S.may_fail recording given self.old
            → Rejects S.may_fail recording error) }
        ensures same { self.new ≡ record self.old { recorded = self.new.recorded; ahead = self.new.ahead } }
    {
        match &self.ahead {
            Ahead::Unread => (),
            Ahead::Failed(error) => return Err(*error),
            Ahead::Held(_) | Ahead::Ended => return Ok(()),
        }
        match self.recorded.next_command() {
            Ok(Some(command)) => {
                self.ahead = Ahead::Held(command);
                Ok(())
            }
            Ok(None) => {
                self.ahead = Ahead::Ended;
                Ok(())
            }
            Err(error) => {
                // a failed allocation loses nothing
                if !is_repeatable(error) {
                    self.ahead = Ahead::Failed(error);
                }
                Err(error)
            }
        }
    }

    /// Takes the next item of the replay.
    pub(crate) fn check(&mut self, item: &Item) -> Result<Option<Mismatch>, ReaderError>
        requires { (recording : Recording) × (given : List AnyItem)
            × IsFollowing S.version S.limit S.coming S.may_fail recording given self.old }
        ensures checked { (recording : Recording) (given : List AnyItem)
            → IsFollowing S.version S.limit S.coming S.may_fail recording given self.old
            → self.old.has_said ≡ false
            → Checks S.version S.limit S.coming S.may_fail recording given item.now self.old result self.new }
        ensures said { self.old.has_said ≡ true → (result ≡ Ok None) × (self.new ≡ self.old) }
    {
        if self.has_said {
            return Ok(None);
        }
        let size = self.size + item.size() as u128;
        if size > u64::MAX as u128 {
            return Err(ReaderError::Bench(BenchError::TooLong));
        }
        let Some(command) = command_in(item) else {
            self.size = size;
            return Ok(None);
        };
        self.check_command(command, size)
    }

    /// Takes the next command of the replay. The items up to its end have this many bytes.
    fn check_command(
        &mut self,
        replayed: &RawMessage,
        size: u128,
    ) -> Result<Option<Mismatch>, ReaderError>
        requires followed { (recording : Recording) × (given : List AnyItem)
            × IsFollowing S.version S.limit S.coming S.may_fail recording given self.old }
        requires fits { size < 2 ^ 64 }
        requires said { self.old.has_said ≡ false }
        ensures { (recording : Recording) (given : List AnyItem) (item : AnyItem)
            → IsFollowing S.version S.limit S.coming S.may_fail recording given self.old
            → command_of item ≡ Some replayed.now → size ≡ self.old.size + item_size item
            → Checks S.version S.limit S.coming S.may_fail recording given item self.old result self.new }
    {
        self.read_ahead()?;
        match self.compare(replayed) {
            Ok(None) => {
                self.ahead = Ahead::Unread;
                self.index += 1;
                self.size = size;
                Ok(None)
            }
            Ok(Some(found)) => {
                self.has_said = true;
                Ok(Some(Mismatch {
                    verdict: found.verdict,
                    fields: found.fields,
                    recorded_at: self.recorded.last_command(),
                    replayed_at: self.size,
                }))
            }
            Err(error) => {
                let error = ReaderError::Bench(error);
                self.has_said = is_malformed(error);
                Err(error)
            }
        }
    }

    /// The result for the recorded command that was read ahead and this one of the replay.
    fn compare(&self, replayed: &RawMessage) -> Result<Option<Found>, BenchError>
        requires index { self.now.index < 2 ^ 63 }
        requires command { IfSome (held_in self.now.ahead) IsCommand }
        ensures { ReturnsNext self.now.ignore true self.now.index (held_in self.now.ahead) (Some replayed.now) result }
    {
        let Ahead::Held(recorded) = &self.ahead else {
            return Ok(Some(Found {
                verdict: Verdict::RecordedEnded(self.index),
                fields: Vec::new(self.alloc),
            }));
        };
        compare_commands(Pair {
            alloc: self.alloc,
            index: self.index,
            recorded: CommandPayload::of(recorded),
            replayed: CommandPayload::of(replayed),
            ignore: self.ignore,
            is_listed: true,
        })
    }

    /// The verdict if the replay ends here, where no other one was said.
    pub(crate) fn finish(&mut self) -> Result<Verdict, ReaderError>
        requires { (recording : Recording) × (given : List AnyItem)
            × IsFollowing S.version S.limit S.coming S.may_fail recording given self.old }
        ensures { (recording : Recording) (given : List AnyItem)
            → IsFollowing S.version S.limit S.coming S.may_fail recording given self.old
            → Finishes S.version S.limit S.coming S.may_fail recording given self.old result self.new }
    {
        self.read_ahead()?;
        Ok(ending(&self.ahead, self.index))
    }

    /// The recorded command that was read ahead.
    pub(crate) fn held(&self) -> Option<&RawMessage>
        ensures held { option_map (λ command. command.now) result ≡ held_in self.now.ahead }
        ensures next { (recording : Recording) (given : List AnyItem)
            → IsFollowing S.version S.limit S.coming S.may_fail recording given self.now
            → IsAhead self.now.ahead → ComesNext recording.version recording.bytes given (held_in self.now.ahead) }
    {
        match &self.ahead {
            Ahead::Held(command) => Some(command),
            _other => None,
        }
    }

    /// The offset in the recording of the command that was read ahead.
    pub(crate) fn held_at(&self) -> Option<u128>
        ensures { (recording : Recording) (given : List AnyItem)
            → IsFollowing S.version S.limit S.coming S.may_fail recording given self.now
            → IsHeldAt recording.version recording.bytes given (held_in self.now.ahead) result }
    {
        match &self.ahead {
            Ahead::Held(_) => self.recorded.last_command(),
            _other => None,
        }
    }

    /// Whether a mismatch or a malformed command was said.
    pub(crate) fn has_said(&self) -> bool
        ensures { result ≡ self.now.has_said }
    {
        self.has_said
    }
}

/// The verdict if a replay ends at this index, where this comes next in the recording.
fn ending(ahead: &Ahead, index: u64) -> Verdict
    ensures { result ≡ ending ahead.now index }
{
    match ahead {
        Ahead::Held(_) => Verdict::ReplayedEnded(index),
        _other => Verdict::Same(index),
    }
}

/// The message of an item that is a command.
fn command_in(item: &Item) -> Option<&RawMessage>
    ensures is { option_map (λ command. command.now) result ≡ command_of item.now }
{
    let Item::Message(message) = item else {
        return None;
    };
    match CommandType::try_from(message.ty()) {
        Ok(_) => Some(message),
        Err(_) => None,
    }
}

/// Whether the same call may be made again after an error: an allocation failed, and nothing was lost.
fn is_repeatable(error: ReaderError) -> bool
    ensures { result ≡ repeatable error }
{
    matches!(error, ReaderError::Bench(BenchError::OutOfMemory))
}

/// Whether an error says that a command is not well-formed.
fn is_malformed(error: ReaderError) -> bool
    ensures { result ≡ found_malformed error }
{
    matches!(error, ReaderError::Bench(BenchError::Malformed { .. }))
}
