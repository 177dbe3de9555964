//! The fields in which the commands of an entry differ.

ghost use Rattle.std.specs.Prelude.{◌≡◌, IfOk, IfSome};
ghost use Rattle.replay_bench.specs.declared.journals.Ignored.{Ignored as AnyIgnored};
ghost use Rattle.diff_lines.specs.EntryLines.{HasFields, is_of_verdict};

use crate::entries::{Entry, EntryKind, command_at, stopped_index};
use edit_script::Change;
use replay_bench::{AlignedComparison, FieldDifference, Ignored, changed_fields};
use std::alloc::{AllocError, Global};

/// The fields of the verdict, if an entry is a change of the commands at its index.
pub(crate) fn verdict_fields<'a>(
    found: &'a AlignedComparison,
    entry: &Entry,
) -> Option<&'a [FieldDifference]>
    ensures { IfSome result (λ fields. (ignore : AnyIgnored) → HasFields ignore found.now entry.now fields.now) }
{
    let EntryKind::Differs(Change::Changed) = entry.kind else {
        return None;
    };
    if !is_of_verdict(found, entry) {
        return None;
    }
    Some(found.comparison.fields.as_slice())
}

/// The fields in which the commands of an entry differ, if it is a change, found anew.
pub(crate) fn listed_fields(
    alloc: Global,
    found: &AlignedComparison,
    entry: &Entry,
    ignore: Ignored,
) -> Result<Vec<FieldDifference>, AllocError>
    ensures { IfOk result (λ fields. HasFields ignore found.now entry.now fields.items) }
{
    let EntryKind::Differs(Change::Changed) = entry.kind else {
        return Ok(Vec::new(alloc));
    };
    let start = stopped_index(&found.comparison.verdict);
    let Some(recorded) = command_at(&found.recorded, start, entry.recorded) else {
        return Ok(Vec::new(alloc));
    };
    let Some(replayed) = command_at(&found.replayed, start, entry.replayed) else {
        return Ok(Vec::new(alloc));
    };
    changed_fields(alloc, recorded, replayed, ignore)
}

/// Whether an entry is of the commands at the index of the verdict.
fn is_of_verdict(found: &AlignedComparison, entry: &Entry) -> bool
    ensures { result ≡ is_of_verdict found.now entry.now }
{
    let start = stopped_index(&found.comparison.verdict);
    entry.recorded == start && entry.replayed == start
}
