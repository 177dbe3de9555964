//! The entries of an alignment: runs of commands that are the same, and the differences between them.

ghost use Rattle.std.specs.Prelude.{◌≡◌, ◌≤◌, ◌<◌, ◌++◌, ◌^◌, option_copied, IfOk, OnOk};
ghost use Rattle.std.specs.Option.{option_flatten};
ghost use Rattle.edit_script.specs.Scripts as scripts;
ghost use Rattle.replay_bench.specs.Verdicts as verdicts;
ghost use Rattle.diff_lines.specs.Entries.{at_index, count_of, entries_of, entry_command, entry_of, entry_type};
ghost use Rattle.diff_lines.specs.Entries.{is_change, place_of, same_count, same_run};

use edit_script::{Change, Difference};
use replay_bench::{AlignedComparison, HeldCommands, Verdict};
use shared_core_base::header::MessageType;
use shared_core_stream::encoding::RawMessage;
use std::alloc::{AllocError, Global};

/// What an entry is.
#[derive(Clone, Copy)]
pub(crate) enum EntryKind {
    /// Commands in a row that are the same in both journals: their number.
    Same(u128),
    /// A difference.
    Differs(Change),
}

/// An entry, and the indices of its first command in both journals. Where it has none in a journal, it is before that
/// command.
#[derive(Clone, Copy)]
pub(crate) struct Entry {
    pub kind: EntryKind,
    pub recorded: u128,
    pub replayed: u128,
}

/// The index at which a verdict has stopped in both journals.
pub(crate) fn stopped_index(verdict: &Verdict) -> u128
    ensures index { result ≡ verdicts.stopped_index verdict.now }
    ensures small { result < 2 ^ 64 }
{
    match verdict {
        Verdict::Same(index) | Verdict::RecordedEnded(index) | Verdict::ReplayedEnded(index) => {
            *index as u128
        }
        Verdict::TypeMismatch { index, .. } | Verdict::HeaderMismatch { index, .. } => {
            *index as u128
        }
    }
}

/// How many recorded commands a difference takes.
pub(crate) fn recorded_taken(change: Change) -> u128
    ensures taken { result ≡ scripts.recorded_taken change }
    ensures small { result ≤ 1 }
{
    match change {
        Change::Removed | Change::Changed => 1,
        Change::Inserted => 0,
    }
}

/// How many replayed commands a difference takes.
fn replayed_taken(change: Change) -> u128
    ensures taken { result ≡ scripts.replayed_taken change }
    ensures small { result ≤ 1 }
{
    match change {
        Change::Inserted | Change::Changed => 1,
        Change::Removed => 0,
    }
}

/// The entries of two journals, in order.
pub(crate) fn entries(alloc: Global, found: &AlignedComparison) -> Result<Vec<Entry>, AllocError>
    ensures { IfOk result (λ entries. entries.items ≡ entries_of found.now) }
{
    let start = stopped_index(&found.comparison.verdict);
    let end = start + found.recorded.commands.len() as u128;
    let mut entries = Vec::new(alloc);
    push_same(&mut entries, start, 0, 0)?;
    let mut recorded = start;
    let mut replayed = start;
    let mut left = found.alignment.differences.as_slice();
    while let [difference, rest @ ..] = left {
        let entry = entry_of(start, *difference);
        let count = entry.recorded.saturating_sub(recorded);
        push_same(&mut entries, count, recorded, replayed)?;
        entries.push(entry)?;
        recorded = entry.recorded + recorded_taken(difference.change);
        replayed = entry.replayed + replayed_taken(difference.change);
        left = rest;
    }
    push_same(
        &mut entries,
        end.saturating_sub(recorded),
        recorded,
        replayed,
    )?;
    Ok(entries)
}

/// The entry of a difference of the commands from a start on.
pub(crate) fn entry_of(start: u128, difference: Difference) -> Entry
    requires { start < 2 ^ 64 }
    ensures entry { result ≡ entry_of start difference }
    ensures recorded { result.recorded < 2 ^ 65 }
    ensures replayed { result.replayed < 2 ^ 65 }
{
    Entry {
        kind: EntryKind::Differs(difference.change),
        recorded: start + difference.recorded as u128,
        replayed: start + difference.replayed as u128,
    }
}

/// Appends a run of commands that are the same, if there are any.
fn push_same(
    entries: &mut Vec<Entry>,
    count: u128,
    recorded: u128,
    replayed: u128,
) -> Result<(), AllocError>
    ensures { OnOk result (entries.new.items ≡ entries.old.items ++ same_run count recorded replayed) }
{
    if count == 0 {
        return Ok(());
    }
    entries.push(Entry {
        kind: EntryKind::Same(count),
        recorded,
        replayed,
    })?;
    Ok(())
}

/// How many differences are of this kind.
pub(crate) fn count_of(differences: &[Difference], change: Change) -> usize
    ensures { result ≡ count_of change differences.now }
{
    let mut count = 0usize;
    let mut left = differences;
    while let [difference, rest @ ..] = left {
        if is_change(change, difference.change) {
            count += 1;
        }
        left = rest;
    }
    count
}

/// Whether two kinds of differences are the same.
fn is_change(change: Change, other: Change) -> bool
    ensures { result ≡ is_change change other }
{
    match change {
        Change::Removed => matches!(other, Change::Removed),
        Change::Inserted => matches!(other, Change::Inserted),
        Change::Changed => matches!(other, Change::Changed),
    }
}

/// How many commands are the same in both journals.
pub(crate) fn same_count(found: &AlignedComparison) -> u128
    ensures { result ≡ same_count found.now }
{
    let differences = found.alignment.differences.as_slice();
    let removed = count_of(differences, Change::Removed) as u128;
    let changed = count_of(differences, Change::Changed) as u128;
    let held = found.recorded.commands.len() as u128;
    stopped_index(&found.comparison.verdict) + held.saturating_sub(removed + changed)
}

/// The command of a journal at an index, if it is held.
#[tactic(auto, using(crate::proofs::Places::looked_up))]
pub(crate) fn command_at(held: &HeldCommands, start: u128, index: u128) -> Option<&RawMessage>
    ensures { option_copied result ≡ at_index held.now.commands.items start index }
{
    let place = place_of(start, index)?;
    held.commands.as_slice().get(place)
}

/// The offset of the command of a journal at an index, if it is held.
#[tactic(auto, using(crate::proofs::Places::looked_up))]
pub(crate) fn offset_at(held: &HeldCommands, start: u128, index: u128) -> Option<u128>
    ensures { result ≡ option_flatten (at_index held.now.offsets.items start index) }
{
    let place = place_of(start, index)?;
    *held.offsets.as_slice().get(place)?
}

/// The place of an index among what is held from a start on, if there is any.
fn place_of(start: u128, index: u128) -> Option<usize>
    ensures { result ≡ place_of start index }
{
    let place = index.checked_sub(start)?;
    match usize::try_from(place) {
        Ok(place) => Some(place),
        Err(_) => None,
    }
}

/// The command that an entry of a difference is of: the recorded one, unless it was inserted.
pub(crate) fn entry_command<'a>(
    found: &'a AlignedComparison,
    entry: &Entry,
) -> Option<&'a RawMessage>
    ensures { option_copied result ≡ entry_command found.now entry.now }
{
    let start = stopped_index(&found.comparison.verdict);
    match entry.kind {
        EntryKind::Same(_) => None,
        EntryKind::Differs(Change::Inserted) => command_at(&found.replayed, start, entry.replayed),
        EntryKind::Differs(Change::Removed) | EntryKind::Differs(Change::Changed) => {
            command_at(&found.recorded, start, entry.recorded)
        }
    }
}

/// The type of that command.
pub(crate) fn entry_type(found: &AlignedComparison, entry: &Entry) -> Option<MessageType>
    ensures { result ≡ entry_type found.now entry.now }
{
    let command = entry_command(found, entry)?;
    Some(command.ty())
}
