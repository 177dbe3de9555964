//! Comparing two journals.

ghost use Rattle.std.specs.Prelude.{◌≤◌, length};
ghost use Rattle.shared_core_base.specs.Version.{version_number};
ghost use Rattle.journal_c_api.specs.Journals.{ReturnsVerdict, ReportsOutcome, ReportsJournals, WritesVerdict};
ghost use Rattle.replay_bench.specs.Outcomes.{NotWellFormed, outcome_of};

use crate::outcome::{CallError, version_of, write_over};
use bytes::Bytes;
use replay_bench::{BenchError, Side, Verdict, compare_journals};
use shared_core::version::Version;
use std::alloc::Global;

/// The number of numbers that a verdict is written as.
const VERDICT_NUMBERS: usize = 2;

/// Compares two journals of a version, command by command, and writes the kind and the index of their verdict, and the
/// text of a mismatch. Returns the number of bytes of the text, 0 if there is none; if there is no room for it, the
/// numbers are written nevertheless.
///
/// `UnknownVersion` if the number denotes no version, otherwise `NoRoom` if the slice has fewer than two numbers,
/// before any comparison.
pub fn write_verdict(
    alloc: Global,
    version: u32,
    recorded: &[u8],
    replayed: &[u8],
    ignore_payloads: bool,
    numbers: &mut [u64],
    out: &mut [u8],
) -> Result<usize, CallError>
    ensures { WritesVerdict (ReturnsVerdict version (length numbers.old) ignore_payloads recorded.now replayed.now)
        numbers.old numbers.new out.old out.new result }
{
    let version = version_of(version)?;
    if numbers.len() < VERDICT_NUMBERS {
        return Err(CallError::NoRoom);
    }
    let report = compare(alloc, version, recorded, replayed, ignore_payloads)?;
    write_over(&[report.kind, report.index], numbers);
    write_over(report.text.as_bytes(), out);
    Ok(report.text.len())
}

/// The report on two journals.
#[derive(Drop)]
pub(crate) struct Report {
    /// The number of the verdict's kind.
    pub kind: u64,
    /// The index, or the number of commands of both.
    pub index: u64,
    /// The text of a mismatch, otherwise empty.
    pub text: String,
}

/// Compares two journals, and returns the report on them.
fn compare(
    alloc: Global,
    version: Version,
    recorded: &[u8],
    replayed: &[u8],
    ignore_payloads: bool,
) -> Result<Report, CallError>
    requires { 5 ≤ version_number version }
    ensures { ReportsJournals version ignore_payloads recorded.now replayed.now result }
{
    let recorded = Bytes::copy_from_slice(alloc, recorded)?;
    let replayed = Bytes::copy_from_slice(alloc, replayed)?;
    match compare_journals(alloc, version, &[recorded], &[replayed], ignore_payloads) {
        Ok(verdict) => Ok(report_of(alloc, verdict)),
        Err(BenchError::Malformed { side, index }) => Ok(malformed(alloc, side, index)),
        Err(BenchError::OutOfMemory) => Err(CallError::OutOfMemory),
        // no slice has this many bytes
        Err(BenchError::TooLong) => unreachable!(),
    }
}

/// The report of a verdict.
pub(crate) fn report_of(alloc: Global, verdict: Verdict) -> Report
    ensures { ReportsOutcome (outcome_of verdict) result }
{
    let (kind, index, text) = match verdict {
        Verdict::Same(count) => (0, count, String::new(alloc)),
        Verdict::RecordedEnded(index) => (1, index, String::new(alloc)),
        Verdict::ReplayedEnded(index) => (2, index, String::new(alloc)),
        Verdict::TypeMismatch { index, text } => (3, index, text),
        Verdict::HeaderMismatch { index, text } => (4, index, text),
    };
    Report { kind, index, text }
}

/// The report of a command of this side and index that is not well-formed.
pub(crate) fn malformed(alloc: Global, side: Side, index: u64) -> Report
    ensures { ReportsOutcome (NotWellFormed side index) result }
{
    let kind = match side {
        Side::Recorded => 5,
        Side::Replayed => 6,
    };
    let text = String::new(alloc);
    Report { kind, index, text }
}
