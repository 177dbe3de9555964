//! The error of an await that the journal cannot replay.

ghost use Rattle.std.specs.Prelude.{◌≡◌, [], IfOk, IsOk, Some};
ghost use Rattle.std.specs.Cmp.Lexicographic.{slice_cmp};
ghost use Rattle.std.specs.Fmt.{WritesOnOk};
ghost use Rattle.std.specs.HashMap.{get};
ghost use Rattle.std.specs.Ordering.{nat_cmp};
ghost use Rattle.shared_core_base.specs.Error.{IsErrorOf};
ghost use Rattle.shared_core_errors.specs.Awaited.{IsInOrder, order_key, signal_key};
ghost use Rattle.shared_core_errors.specs.Uncompleted.{line_text, lines_text, uncompleted_text};

use shared_core_base::error::{
    Error, InvocationErrorCode, NotificationMetadata, OutOfMemory, codes, error_of,
};
use shared_core_parts::notification::{CANCEL_SIGNAL_ID, NotificationId};
use std::alloc::Global;
use std::cmp::Ordering;
use std::collections::{HashMap, HashSet};
use std::{error, fmt};

/// The code awaits notifications where the journal records no await. They print in this order: completions by their
/// ids, then named signals by the bytes of their names, then signals by their ids, the one that cancels last.
///
/// A contract sees it as the record of the ids in that order and of what is known of some of them.
#[derive(Debug, Drop)]
pub struct UncompletedDoProgressDuringReplay {
    notification_ids: Vec<NotificationId>,
    metadata: HashMap<NotificationId, NotificationMetadata>,
}

impl UncompletedDoProgressDuringReplay {
    /// The error for awaited ids, and what is known of some of them. `OutOfMemory` if the sorted list cannot be
    /// allocated; an empty set never fails.
    pub fn new(
        alloc: Global,
        notification_ids: HashSet<NotificationId>,
        metadata: HashMap<NotificationId, NotificationMetadata>,
    ) -> Result<UncompletedDoProgressDuringReplay, OutOfMemory>
        ensures ids { IfOk result (λ error. IsInOrder notification_ids.keys error.notification_ids.items) }
        ensures metadata { IfOk result (λ error. error.metadata ≡ metadata) }
        ensures succeeds { notification_ids.keys ≡ [] → IsOk result }
    {
        let ordered = ids_in_order(alloc, notification_ids)?;
        Ok(UncompletedDoProgressDuringReplay {
            notification_ids: ordered,
            metadata,
        })
    }

    /// The code, `JOURNAL_MISMATCH`.
    pub fn code(&self) -> InvocationErrorCode
        ensures { result.0 ≡ 570 }
    {
        codes::JOURNAL_MISMATCH
    }

    /// The error with this code and this text.
    pub fn to_error(&self, alloc: Global) -> Result<Error, OutOfMemory>
        ensures { IfOk result (IsErrorOf 570
            (Some (uncompleted_text (get ⟦<NotificationId as PartialEq>⟧.eq self.now.metadata)
            self.now.notification_ids.items))) }
    {
        error_of(alloc, self.code(), self)
    }
}

/// The ids in the order in which they print. An empty set does not allocate.
fn ids_in_order(
    alloc: Global,
    ids: HashSet<NotificationId>,
) -> Result<Vec<NotificationId>, OutOfMemory>
    ensures ids { IfOk result (λ ordered. IsInOrder ids.keys ordered.items) }
    ensures empty { ids.keys ≡ [] → IsOk result }
{
    if ids.is_empty() {
        return Ok(Vec::new(alloc));
    }
    let mut ordered: Vec<NotificationId> = ids.into_iter().collect(alloc)?;
    ordered.sort_unstable_by(compare_ids);
    Ok(ordered)
}

/// The order in which awaited ids print.
// by lists of numbers: two ids are equal if and only if their lists are, so the order depends only on the set of ids
fn compare_ids(a: &NotificationId, b: &NotificationId) -> Ordering
    ensures { result ≡ slice_cmp nat_cmp (order_key a.now) (order_key b.now) }
{
    match (a, b) {
        (NotificationId::CompletionId(a), NotificationId::CompletionId(b)) => a.cmp(b),
        (NotificationId::CompletionId(_), _) => Ordering::Less,
        (_, NotificationId::CompletionId(_)) => Ordering::Greater,
        (NotificationId::SignalName(a), NotificationId::SignalName(b)) => a.cmp(b),
        (NotificationId::SignalName(_), NotificationId::SignalId(_)) => Ordering::Less,
        (NotificationId::SignalId(_), NotificationId::SignalName(_)) => Ordering::Greater,
        (NotificationId::SignalId(a), NotificationId::SignalId(b)) => compare_signals(*a, *b),
    }
}

/// Signals by their ids, the one that cancels last.
fn compare_signals(a: u32, b: u32) -> Ordering
    ensures { result ≡ slice_cmp nat_cmp (signal_key a) (signal_key b) }
{
    (a == CANCEL_SIGNAL_ID, a).cmp(&(b == CANCEL_SIGNAL_ID, b))
}

/// Writes the line of an id: what is known of it, otherwise the id itself. Fails if the writer fails.
fn write_line<W: fmt::Write>(
    f: &mut fmt::Formatter<W>,
    id: &NotificationId,
    metadata: &HashMap<NotificationId, NotificationMetadata>,
) -> fmt::Result
    ensures { WritesOnOk W.write_str_gives f.old result
        (line_text id.now (get ⟦<NotificationId as PartialEq>⟧.eq metadata.now id.now)) f.new }
{
    if let Some(known) = metadata.get(id) {
        return write!(f, "\n - {known}");
    }
    match id {
        NotificationId::CompletionId(id) => write!(f, "\n - completion id {id}"),
        NotificationId::SignalId(id) => write!(f, "\n - signal [{id}]"),
        NotificationId::SignalName(name) => write!(f, "\n - Named signal: {name}"),
    }
}

/// Writes the lines of ids in turn. Fails if the writer fails.
fn write_lines<W: fmt::Write>(
    f: &mut fmt::Formatter<W>,
    ids: &[NotificationId],
    metadata: &HashMap<NotificationId, NotificationMetadata>,
) -> fmt::Result
    ensures { WritesOnOk W.write_str_gives f.old result
        (lines_text (get ⟦<NotificationId as PartialEq>⟧.eq metadata.now) ids.now) f.new }
{
    for id in ids {
        write_line(f, id, metadata)?;
    }
    Ok(())
}

/// Prints that the await is not recorded, and one line per awaited id.
impl fmt::Display for UncompletedDoProgressDuringReplay {
    ghost output = { λ error. Some (uncompleted_text
        (get ⟦<NotificationId as PartialEq>⟧.eq error.metadata) error.notification_ids.items) };

    fn fmt<W: fmt::Write>(&self, f: &mut fmt::Formatter<W>) -> fmt::Result {
        f.write_str(
            "Found a mismatch between the code paths taken during the previous execution and the paths taken during this execution.\n'await' could not be replayed. This usually means the code was mutated adding an 'await' without registering a new service revision.\nNotifications awaited on this await point:",
        )?;
        write_lines(f, &self.notification_ids, &self.metadata)
    }
}

impl error::Error for UncompletedDoProgressDuringReplay {}
