//! A replay that is checked as it comes, by a recording and by numbers that both stay with the caller.

ghost use Rattle.std.specs.Prelude.{◌≡◌, ◌+◌, ◌<◌, ◌^◌, ◌∷◌, length, drop, nat_lt, true, false};
ghost use Rattle.std.specs.Prelude.{IfErr, IfOk, IfSome};
ghost use Rattle.replay_bench.specs.Journals.{IsCommand};
ghost use Rattle.replay_bench.specs.Verdicts.{ReturnsPair};
ghost use Rattle.journal_c_api.specs.declared.outcome.CallError.TheVariants.{NoRoom};
ghost use Rattle.journal_c_api.specs.declared.replays.Checked.TheVariants.{Left};
ghost use Rattle.journal_c_api.specs.Outcomes.{Writes, bytes_of};
ghost use Rattle.journal_c_api.specs.Replays.{command_numbers, ignored_by, is_beyond, malformed_on, message_given};
ghost use Rattle.journal_c_api.specs.Replays.{message_of, offset_after, place_in, place_numbers, seen_of, HasRules};
ghost use Rattle.journal_c_api.specs.Replays.{IsAround, IsCommandAt, IsLast, IsNext, IsTypeOfCommand, ReportsPair};
ghost use Rattle.journal_c_api.specs.Replays.{ReturnsChecked, ReturnsReplayText, Tells, WritesCheck, WritesExpected};
ghost use Rattle.journal_c_api.specs.Replays.{WritesFinish};

use crate::journals::{Report, malformed, report_of};
use crate::outcome::{CallError, version_of, write_outcome, write_over};
use bytes::Bytes;
use replay_bench::{
    BenchError, CommandPayload, Found, Ignored, Pair, Side, compare_commands, has_same_bytes,
};
use shared_core::CommandType;
use shared_core::encoding::{ItemKind, ItemRef};
use shared_core::header::{MessageHeader, MessageType};
use shared_core::version::Version;
use std::alloc::Global;

/// The number of numbers that a replay is kept as.
const REPLAY_NUMBERS: usize = 6;

/// The number of numbers that a mismatch is written as.
const MISMATCH_NUMBERS: usize = 6;

/// The number of numbers that a command is written as.
const COMMAND_NUMBERS: usize = 3;

/// Checks the item of this code and payload, the next one of a replay, by the command that comes next in the recording,
/// and moves the numbers of the replay on. Returns 0 if it is not a command, or the same command, and writes only the
/// replay. Returns 1 where the replay leaves its recording, or a command is malformed, and writes the six numbers of
/// the mismatch: the kind of the verdict and its index, the offset of the replayed command, and the offset, the code
/// and the size of the recorded one. It is said once: then each check returns 0, and changes nothing.
///
/// `NoRoom` if either slice of numbers has fewer than six, otherwise the errors of `rules_of`, otherwise `TooLong` if
/// the payload is longer than any message's, or the replay has 2^63 bytes or commands, or more. An error leaves both
/// slices unchanged.
pub fn write_check(
    alloc: Global,
    code: u16,
    recorded: &[u8],
    payload: &[u8],
    replay: &mut [u64],
    mismatch: &mut [u64],
) -> Result<usize, CallError>
    ensures { WritesCheck code recorded.now payload.now replay.old replay.new mismatch.old mismatch.new result }
{
    if mismatch.len() < MISMATCH_NUMBERS {
        return Err(CallError::NoRoom);
    }
    match check(alloc, code, recorded, payload, replay)? {
        Checked::Passed(place) => {
            write_over(&place.numbers(), replay);
            Ok(0)
        }
        Checked::Left(place, numbers) => {
            write_over(&place.numbers(), replay);
            write_over(&numbers, mismatch);
            Ok(1)
        }
    }
}

/// Writes the text of what `write_check` says of the item of this code and payload, whatever was said before: that of a
/// mismatch, otherwise none. Returns the number of its bytes.
///
/// `NoRoom` if the slice of numbers has fewer than six, otherwise the errors of `rules_of`, otherwise `TooLong` as for
/// `write_check`, otherwise `Malformed` if the recorded command is not well-formed, otherwise `MalformedSecond` if the
/// replayed one is not.
#[tactic(auto, using(crate::proofs::Writing::writes_outcome))]
pub fn write_text(
    alloc: Global,
    code: u16,
    recorded: &[u8],
    payload: &[u8],
    replay: &[u64],
    out: &mut [u8],
) -> Result<usize, CallError>
    ensures { Writes (ReturnsReplayText code recorded.now payload.now replay.now) out.old out.new result }
{
    write_outcome(text(alloc, code, recorded, payload, replay), out)
}

/// Writes the offset, the code and the size of the command that comes next in a recording. Returns 1, or 0 if there is
/// none, and nothing is written. It does not allocate.
///
/// `NoRoom` if the first slice of numbers has fewer than six, or the second one fewer than three, otherwise the errors
/// of `rules_of`.
#[tactic(auto, using(crate::proofs::FollowedReplays::at_short, crate::proofs::FollowedReplays::at_rules, crate::proofs::FollowedReplays::at_rejected))]
pub fn write_expected(
    recorded: &[u8],
    replay: &[u64],
    command: &mut [u64],
) -> Result<usize, CallError>
    ensures { WritesExpected recorded.now replay.now command.old command.new result }
{
    if command.len() < COMMAND_NUMBERS {
        return Err(CallError::NoRoom);
    }
    let place = place_of(replay)?;
    let rules = rules_of(&place)?;
    let next = commands_around(rules.version, recorded, &place).next;
    if next.is_none() {
        return Ok(0);
    }
    write_over(&numbers_of(next), command);
    Ok(1)
}

/// Says what is left of a recording if the replay ends here. Returns 0 if no command is left, or a mismatch was said;
/// otherwise 1, and writes the six numbers of the mismatch, which is that the replay has ended. It does not allocate.
///
/// `NoRoom` if either slice of numbers has fewer than six, otherwise the errors of `rules_of`.
#[tactic(auto, using(crate::proofs::FollowedReplays::at_short, crate::proofs::FollowedReplays::at_rules, crate::proofs::FollowedReplays::at_rejected))]
pub fn write_finish(
    recorded: &[u8],
    replay: &[u64],
    mismatch: &mut [u64],
) -> Result<usize, CallError>
    ensures { WritesFinish recorded.now replay.now mismatch.old mismatch.new result }
{
    if mismatch.len() < MISMATCH_NUMBERS {
        return Err(CallError::NoRoom);
    }
    let place = place_of(replay)?;
    let rules = rules_of(&place)?;
    if place.said > 0 {
        return Ok(0);
    }
    let next = commands_around(rules.version, recorded, &place).next;
    if next.is_none() {
        return Ok(0);
    }
    write_over(&place.mismatch(REPLAYED_ENDED, next), mismatch);
    Ok(1)
}

// ---- where a replay is

/// How far a replay has followed its recording: its six numbers.
#[derive(Clone, Copy, Drop)]
struct Place {
    version: u64,
    options: u64,
    /// The number of commands that were the same.
    index: u64,
    /// The offset of the last of them in the recording, in bytes.
    recorded: u64,
    /// The number of bytes of the items of the replay.
    replayed: u64,
    /// Whether a mismatch was said: then not 0.
    said: u64,
}

impl Place {
    /// Its numbers.
    fn numbers(&self) -> [u64; REPLAY_NUMBERS]
        ensures { result ≡ place_numbers self.now }
    {
        [
            self.version,
            self.options,
            self.index,
            self.recorded,
            self.replayed,
            self.said,
        ]
    }

    /// The numbers of a mismatch of this kind here, by the recorded command that was seen last.
    fn mismatch(&self, kind: u64, seen: Option<Recorded<'_>>) -> [u64; MISMATCH_NUMBERS]
        ensures { result ≡ kind ∷ self.now.index ∷ self.now.replayed ∷ command_numbers seen.entry }
    {
        let [offset, code, size] = numbers_of(seen);
        [kind, self.index, self.replayed, offset, code, size]
    }

    /// What a check says if there is a mismatch of this kind here.
    fn left(&self, kind: u64, seen: Option<Recorded<'_>>) -> Checked
        ensures { result ≡ Left (record self.now { said = 1 })
            (kind ∷ self.now.index ∷ self.now.replayed ∷ command_numbers seen.entry) }
    {
        Checked::Left(Place { said: 1, ..*self }, self.mismatch(kind, seen))
    }
}

/// The place of a replay. `NoRoom` if it has fewer than six numbers.
fn place_of(replay: &[u64]) -> Result<Place, CallError>
    ensures ok { IfOk result (λ place. (nat_lt (length replay.now) 6 ≡ false) × (place ≡ place_in replay.now)) }
    ensures err { IfErr result (λ error. (nat_lt (length replay.now) 6 ≡ true) × (error ≡ NoRoom)) }
{
    if replay.len() < REPLAY_NUMBERS {
        return Err(CallError::NoRoom);
    }
    Ok(Place {
        version: replay[0],
        options: replay[1],
        index: replay[2],
        recorded: replay[3],
        replayed: replay[4],
        said: replay[5],
    })
}

/// By what a replay is checked.
#[derive(Clone, Copy, Drop)]
struct Rules {
    version: Version,
    ignore: Ignored,
}

/// The rules of a replay.
///
/// `UnknownVersion` if the first number denotes no version, otherwise `UnknownOption` if the second one has a bit that
/// is not an option's.
#[tactic(auto, using(crate::proofs::FollowedReplays::far_version))]
fn rules_of(place: &Place) -> Result<Rules, CallError>
    ensures { HasRules place.now result }
{
    let Ok(number) = u32::try_from(place.version) else {
        return Err(CallError::UnknownVersion);
    };
    let version = version_of(number)?;
    match ignored_by(place.options) {
        Some(ignore) => Ok(Rules { version, ignore }),
        None => Err(CallError::UnknownOption),
    }
}

/// What options ignore: 1 payloads, 2 completion ids, and 3 both. `None` if another bit is set.
fn ignored_by(options: u64) -> Option<Ignored>
    ensures { result ≡ ignored_by options }
{
    let (payloads, ids) = match options {
        0 => (false, false),
        1 => (true, false),
        2 => (false, true),
        3 => (true, true),
        _ => return None,
    };
    Some(Ignored { payloads, ids })
}

/// Whether no item can have this payload after this place.
fn is_beyond(place: &Place, payload: &[u8]) -> bool
    ensures { result ≡ is_beyond place.now payload.now }
{
    if payload.len() > u32::MAX as usize || place.index > i64::MAX as u64 {
        return true;
    }
    let size = MessageHeader::SIZE as u64 + payload.len() as u64;
    place.replayed > i64::MAX as u64 - size
}

// ---- what comes next in a recording

/// A command of a recording, and where it begins.
#[derive(Clone, Copy, Drop)]
struct Recorded<'a> {
    header: MessageHeader,
    payload: &'a [u8],
    offset: u64,
}

impl<'a> Recorded<'a> {
    /// The number of its bytes.
    fn size(&self) -> u64
        ensures { result ≡ 8 + length self.now.payload.now }
    {
        MessageHeader::SIZE as u64 + self.payload.len() as u64
    }
}

/// The offset, the code and the size of a command of a recording; three zeros if there is none.
fn numbers_of(command: Option<Recorded<'_>>) -> [u64; COMMAND_NUMBERS]
    ensures { result ≡ command_numbers command.entry }
{
    match command {
        Some(found) => {
            let code = u16::from(found.header.message_type());
            [found.offset, u64::from(code), found.size()]
        }
        None => [0, 0, 0],
    }
}

/// The last command of a recording that was the same as one of the replay, and the next one.
#[derive(Clone, Copy, Drop)]
struct Around<'a> {
    last: Option<Recorded<'a>>,
    next: Option<Recorded<'a>>,
}

impl<'a> Around<'a> {
    /// The next command, or the last one if the recording has ended.
    fn seen(&self) -> Option<Recorded<'a>>
        ensures { result ≡ seen_of self.now }
    {
        match self.next {
            Some(next) => Some(next),
            None => self.last,
        }
    }
}

/// The commands of a recording around a place.
fn commands_around<'a>(version: Version, recorded: &'a [u8], place: &Place) -> Around<'a>
    ensures around { IsAround version recorded.now place.now result }
    ensures command { IfSome result.next (λ found. IsCommand (message_of found)) }
{
    let last = last_command(version, recorded, place);
    let offset = offset_after(last, place.recorded);
    Around {
        last,
        next: next_command(version, recorded, offset),
    }
}

/// The offset after a command, or else this one.
fn offset_after(command: Option<Recorded<'_>>, offset: u64) -> u64
    requires { IfSome command (λ found. found.offset + (8 + length found.payload.now) < 2 ^ 64) }
    ensures { result ≡ offset_after command.entry offset }
{
    match command {
        Some(found) => found.offset + found.size(),
        None => offset,
    }
}

/// The command at a place of a recording, unless it is before the first one.
#[tactic(auto, using(crate::proofs::FollowedReplays::last_before, crate::proofs::FollowedReplays::last_missing, crate::proofs::FollowedReplays::last_found, crate::proofs::FollowedReplays::last_small))]
fn last_command<'a>(version: Version, recorded: &'a [u8], place: &Place) -> Option<Recorded<'a>>
    ensures last { IsLast version recorded.now place.now result }
    ensures small { IfSome result (λ found. found.offset + (8 + length found.payload.now) < 2 ^ 64) }
{
    if place.index == 0 {
        return None;
    }
    match ItemRef::first(version, after(recorded, place.recorded)) {
        Ok((item, _)) => command_at(item, place.recorded),
        Err(_) => None,
    }
}

/// The first command of a recording from this offset on.
#[tactic(auto, using(crate::proofs::FollowedReplays::nothing_passed, crate::proofs::FollowedReplays::item_passed, crate::proofs::FollowedReplays::next_found, crate::proofs::FollowedReplays::next_ended, crate::proofs::FollowedReplays::front_long))]
fn next_command<'a>(version: Version, recorded: &'a [u8], offset: u64) -> Option<Recorded<'a>>
    ensures next { IsNext version recorded.now offset result }
    ensures command { IfSome result (λ found. IsCommand (message_of found)) }
{
    let mut rest = after(recorded, offset);
    let mut offset = offset;
    while let Ok((item, more)) = ItemRef::first(version, rest) {
        if let Some(found) = command_at(item, offset) {
            return Some(found);
        }
        offset += item.size();
        rest = more;
    }
    None
}

/// The command that an item at this offset is, if it is one.
fn command_at(item: ItemRef<'_>, offset: u64) -> Option<Recorded<'_>>
    ensures { IsCommandAt item.entry offset result }
{
    let ItemKind::Message(header) = item.kind else {
        return None;
    };
    match CommandType::try_from(header.message_type()) {
        Ok(_) => Some(Recorded {
            header,
            payload: item.payload,
            offset,
        }),
        Err(_) => None,
    }
}

/// The bytes from an offset on; none beyond the end.
fn after(bytes: &[u8], offset: u64) -> &[u8]
    ensures { result.now ≡ drop offset bytes.now }
{
    if offset > bytes.len() as u64 {
        return &[];
    }
    &bytes[offset as usize..]
}

// ---- what is said of an item

/// What a check says.
#[derive(Clone, Copy, Drop)]
enum Checked {
    /// Nothing, and the replay is here.
    Passed(Place),
    /// A mismatch, of these numbers, and the replay is here.
    Left(Place, [u64; MISMATCH_NUMBERS]),
}

/// The kinds of the verdicts that one of both has ended.
const RECORDED_ENDED: u64 = 1;

const REPLAYED_ENDED: u64 = 2;

/// What a check says of the item of this code and payload.
#[tactic(auto, using(crate::proofs::FollowedReplays::at_short, crate::proofs::FollowedReplays::at_rules, crate::proofs::FollowedReplays::at_rejected))]
fn check(
    alloc: Global,
    code: u16,
    recorded: &[u8],
    payload: &[u8],
    replay: &[u64],
) -> Result<Checked, CallError>
    ensures { ReturnsChecked code recorded.now payload.now replay.now result }
{
    let place = place_of(replay)?;
    let rules = rules_of(&place)?;
    if place.said > 0 {
        return Ok(Checked::Passed(place));
    }
    if is_beyond(&place, payload) {
        return Err(CallError::TooLong);
    }
    let replayed = place.replayed + MessageHeader::SIZE as u64 + payload.len() as u64;
    let Some(ty) = command_type(code) else {
        return Ok(Checked::Passed(Place { replayed, ..place }));
    };
    let around = commands_around(rules.version, recorded, &place);
    let Some(next) = around.next else {
        return Ok(place.left(RECORDED_ENDED, around.last));
    };
    let compared = Compared {
        alloc,
        index: place.index,
        recorded: next,
        replayed: Given { ty, payload },
        ignore: rules.ignore,
    };
    match compared.report()? {
        None => Ok(Checked::Passed(Place {
            index: place.index + 1,
            recorded: next.offset,
            replayed,
            ..place
        })),
        Some(report) => Ok(place.left(report.kind, Some(next))),
    }
}

/// The type of a code, if it is a command's.
fn command_type(code: u16) -> Option<MessageType>
    ensures { IsTypeOfCommand code result }
{
    let Ok(ty) = MessageType::try_from(code) else {
        return None;
    };
    match CommandType::try_from(ty) {
        Ok(_) => Some(ty),
        Err(_) => None,
    }
}

/// A command of a replay.
#[derive(Clone, Copy, Drop)]
struct Given<'a> {
    ty: MessageType,
    payload: &'a [u8],
}

/// Two commands at an index of a replay.
#[derive(Drop)]
struct Compared<'a> {
    alloc: Global,
    index: u64,
    recorded: Recorded<'a>,
    replayed: Given<'a>,
    ignore: Ignored,
}

impl<'a> Compared<'a> {
    /// The result for both: `None` if they are the same. Commands with the same bytes are not copied.
    fn compare(&self) -> Result<Option<Found>, BenchError>
        requires index { self.now.index < 2 ^ 63 }
        requires command { IsCommand (message_of self.now.recorded) }
        ensures { ReturnsPair self.now.ignore false self.now.index (message_of self.now.recorded)
            (message_given self.now.replayed) result }
    {
        let ty = self.recorded.header.message_type();
        if ty == self.replayed.ty
            && has_same_bytes(ty, self.recorded.payload, self.replayed.payload)
        {
            return Ok(None);
        }
        let recorded = Bytes::copy_from_slice(self.alloc, self.recorded.payload)?;
        let replayed = Bytes::copy_from_slice(self.alloc, self.replayed.payload)?;
        compare_commands(Pair {
            alloc: self.alloc,
            index: self.index,
            recorded: CommandPayload {
                ty,
                payload: &recorded,
            },
            replayed: CommandPayload {
                ty: self.replayed.ty,
                payload: &replayed,
            },
            ignore: self.ignore,
            is_listed: false,
        })
    }

    /// The report on both: `None` if they are the same.
    fn report(&self) -> Result<Option<Report>, CallError>
        requires index { self.now.index < 2 ^ 63 }
        requires command { IsCommand (message_of self.now.recorded) }
        ensures { ReportsPair self.now.ignore self.now.index (message_of self.now.recorded)
            (message_given self.now.replayed) result }
    {
        match self.compare() {
            Ok(None) => Ok(None),
            Ok(Some(found)) => Ok(Some(report_of(self.alloc, found.verdict))),
            Err(BenchError::Malformed { side, index }) => Ok(Some(malformed(
                self.alloc, side, index,
            ))),
            Err(BenchError::OutOfMemory) => Err(CallError::OutOfMemory),
            // it says nothing of whole journals
            Err(BenchError::TooLong) => unreachable!(),
        }
    }

    /// The text of the mismatch of both: none if they are the same.
    fn text(&self) -> Result<Vec<u8>, CallError>
        requires index { self.now.index < 2 ^ 63 }
        requires command { IsCommand (message_of self.now.recorded) }
        ensures { Tells self.now.ignore self.now.index (message_of self.now.recorded)
            (message_given self.now.replayed) (bytes_of result) }
    {
        match self.compare() {
            Ok(None) => Ok(Vec::new(self.alloc)),
            Ok(Some(found)) => Ok(report_of(self.alloc, found.verdict).text.into_bytes()),
            Err(BenchError::Malformed { side, .. }) => Err(malformed_on(side)),
            Err(BenchError::OutOfMemory) => Err(CallError::OutOfMemory),
            // it says nothing of whole journals
            Err(BenchError::TooLong) => unreachable!(),
        }
    }
}

/// The error that the command of this side is not well-formed.
fn malformed_on(side: Side) -> CallError
    ensures { result ≡ malformed_on side }
{
    match side {
        Side::Recorded => CallError::Malformed,
        Side::Replayed => CallError::MalformedSecond,
    }
}

// ---- the text of a mismatch

/// The text of what is said of the item of this code and payload.
#[tactic(auto, using(crate::proofs::FollowedReplays::at_short, crate::proofs::FollowedReplays::at_rules, crate::proofs::FollowedReplays::at_rejected))]
fn text(
    alloc: Global,
    code: u16,
    recorded: &[u8],
    payload: &[u8],
    replay: &[u64],
) -> Result<Vec<u8>, CallError>
    ensures { ReturnsReplayText code recorded.now payload.now replay.now (bytes_of result) }
{
    let place = place_of(replay)?;
    let rules = rules_of(&place)?;
    if is_beyond(&place, payload) {
        return Err(CallError::TooLong);
    }
    let Some(ty) = command_type(code) else {
        return Ok(Vec::new(alloc));
    };
    let Some(recorded) = commands_around(rules.version, recorded, &place).next else {
        return Ok(Vec::new(alloc));
    };
    let compared = Compared {
        alloc,
        index: place.index,
        recorded,
        replayed: Given { ty, payload },
        ignore: rules.ignore,
    };
    compared.text()
}
