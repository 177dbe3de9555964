//! Two journals compared, command by command.

ghost use Rattle.std.specs.Prelude.{◌≡◌, ◌≤◌, ◌<◌, ◌^◌, true, IfOk, IfSome, IsTrue};
ghost use Rattle.std.specs.List.{concat};
ghost use Rattle.shared_core_base.specs.Version.{version_number};
ghost use Rattle.replay_bench.specs.declared.verdicts.Side.TheVariants.{Recorded, Replayed};
ghost use Rattle.replay_bench.specs.Reading.{IsReading};
ghost use Rattle.replay_bench.specs.Held.{IsStopped};
ghost use Rattle.replay_bench.specs.Ids.{only_payloads};
ghost use Rattle.replay_bench.specs.Journals.{IsCommand, type_of};
ghost use Rattle.replay_bench.specs.Verdicts.{Compares, ComparesKnown, HasFieldsOn, MayFailOn, Surveys, verdict_alone};
ghost use Rattle.replay_bench.specs.Verdicts.{recorded_ended, recorded_seen, replayed_ended, replayed_seen};
ghost use Rattle.replay_bench.specs.Verdicts.{stopped_index, IsSaid, ReturnsNext};

use crate::commands::{Commands, reader_error};
use crate::following::Following;
use crate::journals::{ComparisonOptions, Ignored, Journals};
use crate::mismatches::{CommandPayload, Found, Pair, compare_commands};
use crate::slice_items::SliceItems;
use crate::sources::{Next, Source};
use crate::verdicts::{BenchError, Comparison, ReaderError, Side, Verdict};
use bytes::Bytes;
use shared_core::encoding::RawMessage;
use shared_core::version::Version;
use shared_core_base::header::MessageType;
use std::alloc::Global;

/// Compares two journals of a version, at least V5, each of which is given in chunks, split anywhere.
///
/// The commands of a journal are, in order, the messages of its joined chunks whose type `CommandType::try_from` takes.
/// All other items, and bytes after the last complete item, are passed over. Commands at the same index are compared,
/// first their types, then that the recorded payload is well-formed and the replayed one is, then what they hold, where
/// `ignore_payload_equality` leaves out payloads (`CommandMessageHeaderEq`). The result is that of the first index at
/// which a journal ends or something is found, and nothing after it is looked into. `TooLong` comes only where the
/// bytes of one journal are more than 2^64 - 1, `OutOfMemory` where an allocation fails. Of each journal one command is
/// held at a time.
pub fn compare_journals(
    alloc: Global,
    version: Version,
    recorded: &[Bytes],
    replayed: &[Bytes],
    ignore_payload_equality: bool,
) -> Result<Verdict, BenchError>
    requires { 5 ≤ version_number version }
    ensures { Compares version (only_payloads ignore_payload_equality) (concat recorded.now) (concat replayed.now)
        result }
{
    let journals = Journals {
        version,
        recorded: SliceItems::new(alloc, version, recorded),
        replayed: SliceItems::new(alloc, version, replayed),
    };
    let ignored = Ignored {
        payloads: ignore_payload_equality,
        ids: false,
    };
    match compare_sources(alloc, journals, ignored) {
        Ok(verdict) => Ok(verdict),
        Err(ReaderError::Bench(error)) => Err(error),
        // a slice does not fail, and has no limit
        Err(ReaderError::Read(_)) => unreachable!(),
        Err(ReaderError::MessageTooLong(_, _)) => unreachable!(),
    }
}

/// Compares two journals of any sources of their version, as `compare_journals` does: one may be given in chunks
/// (`SliceItems`) and the other by a reader (`ItemReader`), which may have a limit.
///
/// Items are taken from a source only as far as the result needs them. `Read` names a side only where its source may
/// fail, which a slice does not, and `MessageTooLong` only where it has a limit. What was returned before a read that
/// failed is not lost by it, since the first result ends the comparison.
pub fn compare_sources<A: Source, B: Source>(
    alloc: Global,
    journals: Journals<A, B>,
    ignore: Ignored,
) -> Result<Verdict, ReaderError>
    requires recorded { A.version journals.recorded ≡ journals.version }
    requires replayed { B.version journals.replayed ≡ journals.version }
    ensures compared { ComparesKnown journals.version ignore
        (A.coming journals.recorded) (B.coming journals.replayed) result }
    ensures failed { MayFailOn A.may_fail (A.limit journals.recorded) B.may_fail (B.limit journals.replayed) result }
{
    let version = journals.version;
    let mut replayed = journals.replayed;
    let mut following = Following::new(alloc, version, journals.recorded, ignore);
    loop {
        // of both journals the recorded one is read first
        following.read_ahead()?;
        let item = match replayed.next() {
            Ok(Next::Item(item)) => item,
            Ok(Next::End(_)) => return following.finish(),
            Err(error) => return Err(reader_error(Side::Replayed, error)),
        };
        if let Some(mismatch) = following.check(&item)? {
            return Ok(mismatch.verdict);
        }
        // the item goes before the next one is read
        drop(item);
    }
}

/// A verdict, and the journals as they were read for it.
#[derive(Drop)]
pub(crate) struct Stopped<A, B> {
    pub found: Found,
    pub recorded: Commands<A>,
    pub replayed: Commands<B>,
    /// The recorded command at which it stopped, unless that journal has ended.
    pub recorded_next: Option<RawMessage>,
    /// The replayed one.
    pub replayed_next: Option<RawMessage>,
}

/// The type of a command, if there is one.
pub(crate) fn type_of(command: &Option<RawMessage>) -> Option<MessageType>
    ensures { result ≡ type_of command.now }
{
    match command {
        Some(command) => Some(command.ty()),
        None => None,
    }
}

/// The commands of two journals at the same index, each unless its journal has ended.
#[derive(Drop)]
pub(crate) struct NextCommands {
    pub recorded: Option<RawMessage>,
    pub replayed: Option<RawMessage>,
}

impl NextCommands {
    /// Which of the journals has ended, or the result for both commands, or `None` if they are the same.
    fn compare(
        &self,
        alloc: Global,
        index: u64,
        ignore: Ignored,
        is_listed: bool,
    ) -> Result<Option<Found>, BenchError>
        requires index { index < 2 ^ 63 }
        requires command { IfSome self.now.recorded IsCommand }
        ensures { ReturnsNext ignore is_listed index self.now.recorded self.now.replayed result }
    {
        let verdict = match (&self.recorded, &self.replayed) {
            (Some(recorded), Some(replayed)) => {
                return compare_commands(Pair {
                    alloc,
                    index,
                    recorded: CommandPayload::of(recorded),
                    replayed: CommandPayload::of(replayed),
                    ignore,
                    is_listed,
                });
            }
            (Some(_), None) => Verdict::ReplayedEnded(index),
            (None, Some(_)) => Verdict::RecordedEnded(index),
            (None, None) => Verdict::Same(index),
        };
        Ok(Some(Found {
            verdict,
            fields: Vec::new(alloc),
        }))
    }
}

/// Compares the commands of two journals. Their surveys find faults if they are strict. If `is_listed`, the fields in
/// which two commands differ come with the verdict.
pub(crate) fn find_verdict<A: Source, B: Source>(
    alloc: Global,
    journals: Journals<A, B>,
    options: ComparisonOptions,
    is_listed: bool,
) -> Result<Stopped<A, B>, ReaderError>
    requires recorded { A.version journals.recorded ≡ journals.version }
    requires replayed { B.version journals.replayed ≡ journals.version }
    ensures compared { ComparesKnown journals.version options.ignored
        (A.coming journals.recorded) (B.coming journals.replayed) (verdict_alone result) }
    ensures failed { MayFailOn A.may_fail (A.limit journals.recorded) B.may_fail (B.limit journals.replayed) result }
    ensures limit { IfOk result (λ stopped. A.limit stopped.recorded.source ≡ A.limit journals.recorded) }
    ensures other_limit { IfOk result (λ stopped. B.limit stopped.replayed.source ≡ B.limit journals.replayed) }
    ensures fields { IfOk result (λ stopped. IsTrue is_listed → HasFieldsOn journals.version
        (A.coming journals.recorded) (B.coming journals.replayed) stopped.found.verdict stopped.found.fields.items) }
    ensures said { IfOk result (λ stopped. IsTrue is_listed → IsSaid stopped.found.verdict
        (type_of stopped.recorded_next) (type_of stopped.replayed_next) stopped.found.fields.items) }
    ensures recorded { IfOk result (λ stopped. IsReading journals.version Recorded options.is_strict
        (A.coming journals.recorded) (recorded_ended stopped.found.verdict) (recorded_seen stopped.found.verdict)
        stopped.recorded.side stopped.recorded.version (A.version stopped.recorded.source)
        (A.coming stopped.recorded.source) stopped.recorded.survey) }
    ensures replayed { IfOk result (λ stopped. IsReading journals.version Replayed options.is_strict
        (B.coming journals.replayed) (replayed_ended stopped.found.verdict) (replayed_seen stopped.found.verdict)
        stopped.replayed.side stopped.replayed.version (B.version stopped.replayed.source)
        (B.coming stopped.replayed.source) stopped.replayed.survey) }
    ensures stopped { IfOk result (λ stopped. IsStopped journals.version (A.coming journals.recorded)
        (stopped_index stopped.found.verdict) (recorded_ended stopped.found.verdict) stopped.recorded_next
        (A.coming stopped.recorded.source)) }
    ensures other_stopped { IfOk result (λ stopped. IsStopped journals.version (B.coming journals.replayed)
        (stopped_index stopped.found.verdict) (replayed_ended stopped.found.verdict) stopped.replayed_next
        (B.coming stopped.replayed.source)) }
{
    let version = journals.version;
    let is_strict = options.is_strict;
    let mut recorded = Commands::new(version, Side::Recorded, journals.recorded, is_strict);
    let mut replayed = Commands::new(version, Side::Replayed, journals.replayed, is_strict);
    let mut index: u64 = 0;
    loop {
        let recorded_next = recorded.next_command()?;
        let replayed_next = replayed.next_command()?;
        let next = NextCommands {
            recorded: recorded_next,
            replayed: replayed_next,
        };
        let found = next.compare(alloc, index, options.ignored, is_listed)?;
        if let Some(found) = found {
            return Ok(Stopped {
                found,
                recorded,
                replayed,
                recorded_next: next.recorded,
                replayed_next: next.replayed,
            });
        }
        // both commands go before the next ones are read
        drop(next);
        index += 1;
    }
}

/// Compares two journals of any sources of their version, as `compare_sources` does, and surveys both.
///
/// Both journals are read to their ends, also after the first difference; a read that fails there is `Read` too. The
/// survey of a journal counts all its items and the bytes after the last one, and, if `is_strict`, the messages whose
/// payload is not well-formed, with the first fault of an item. A compared command whose payload is not well-formed is
/// `Malformed`, strict or not.
pub fn survey_sources<A: Source, B: Source>(
    alloc: Global,
    journals: Journals<A, B>,
    options: ComparisonOptions,
) -> Result<Comparison, ReaderError>
    requires recorded { A.version journals.recorded ≡ journals.version }
    requires replayed { B.version journals.replayed ≡ journals.version }
    ensures compared { Surveys journals.version options.ignored options.is_strict
        (A.coming journals.recorded) (B.coming journals.replayed) result }
    ensures failed { MayFailOn A.may_fail (A.limit journals.recorded) B.may_fail (B.limit journals.replayed) result }
{
    let stopped = find_verdict(alloc, journals, options, true)?;
    let recorded_at = stopped.recorded.last_command();
    let replayed_at = stopped.replayed.last_command();
    let recorded_type = type_of(&stopped.recorded_next);
    let replayed_type = type_of(&stopped.replayed_next);
    let recorded = stopped
        .recorded
        .finish(stopped.found.verdict.has_recorded_ended())?;
    let replayed = stopped
        .replayed
        .finish(stopped.found.verdict.has_replayed_ended())?;
    Ok(Comparison {
        verdict: stopped.found.verdict,
        fields: stopped.found.fields,
        recorded,
        replayed,
        recorded_type,
        replayed_type,
        recorded_at,
        replayed_at,
    })
}
