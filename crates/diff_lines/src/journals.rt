//! The calls that compare two journals from any sources, and write the verdict to any writer.

ghost use Rattle.std.specs.Prelude.{◌≡◌, ℕ, List, IfErr, IfOk, None, OnOk};
ghost use Rattle.std.specs.Io.KnownBytes.{Appends};
ghost use Rattle.diff_lines.specs.Moved.{IsMovedText, Reports, ReportsAligned, ReportsMoved};
ghost use Rattle.diff_lines.specs.PassedOver.{found_trouble};
ghost use Rattle.diff_lines.specs.Verdicts.{IsFaulty, IsWritten, MayFailFor, ReportsFound, ReportsVerdict};
ghost use Rattle.diff_lines.specs.Verdicts.{findings_of, found_line, is_same};

use crate::entry_json::aligned_json;
use crate::entry_lines::aligned_text;
use crate::heading::Names;
use crate::json_line::json_line;
use crate::look::{Look, Pen};
use crate::passed_over::{Trouble, found_trouble};
use crate::verdict_line::text_line;
use replay_bench::{
    AlignedComparison, BenchError, Comparison, ComparisonOptions, Journals, ReaderError, Source,
    Survey, Verdict, align_sources, survey_sources,
};
use std::alloc::{AllocError, Global};
use std::error::Error;
use std::fmt;
use std::io::Write;
use stream_lines::output::{OutputFailed, write_whole};

/// How many commands may have moved between two journals where the fewest of them are found. The search holds a cell
/// of 40 bytes for each pair of them.
pub const ALIGNMENT_LIMIT: u32 = 1000;

/// The form in which two journals are compared.
#[derive(Debug, Clone, Copy, PartialEq, Eq, Drop)]
pub enum Form {
    /// A text in this look.
    Text(Look),
    /// JSON, an object a line, which has no colors.
    Json,
}

/// What is compared, and what is written of it.
#[derive(Debug, Clone, Copy, PartialEq, Eq, Drop)]
pub struct DiffOptions<'a> {
    /// How the journals are compared.
    pub comparison: ComparisonOptions,
    /// In which form the result is written.
    pub form: Form,
    /// Whether all that moved is written, and not only the verdict.
    pub is_all: bool,
    /// The names of the journals, which are written above a text of what moved, if they differ.
    pub names: Option<Names<'a>>,
}

/// Why the verdict on two journals was not printed, or not whole.
#[derive(Debug, Clone, Copy, PartialEq, Eq, Drop)]
pub enum DiffError {
    /// The comparison has no verdict. Nothing is written.
    NoVerdict(ReaderError),
    /// A journal has bytes and no complete item, or in a strict comparison something else is wrong with it. Nothing is
    /// written.
    Faulty(Trouble),
    /// A write failed, or wrote no byte. A prefix of the verdict's line may be written.
    Output,
}

impl From<ReaderError> for DiffError {
    ghost use Rattle.std.specs.Prelude.{◌≡◌};
    ghost use Rattle.diff_lines.specs.declared.journals.DiffError.TheVariants.{NoVerdict};

    ghost from_gives = { λ why error. error ≡ NoVerdict why };

    fn from(error: ReaderError) -> DiffError {
        DiffError::NoVerdict(error)
    }
}

impl From<AllocError> for DiffError {
    ghost use Rattle.std.specs.Prelude.{◌≡◌};
    ghost use Rattle.diff_lines.specs.declared.journals.DiffError.TheVariants.{NoVerdict};
    ghost use Rattle.replay_bench.specs.declared.verdicts.ReaderError.TheVariants.{Bench};
    ghost use Rattle.replay_bench.specs.declared.verdicts.BenchError.TheVariants.{OutOfMemory};

    ghost from_gives = { λ _ error. error ≡ NoVerdict (Bench OutOfMemory) };

    fn from(_error: AllocError) -> DiffError {
        DiffError::NoVerdict(ReaderError::Bench(BenchError::OutOfMemory))
    }
}

/// Prints the reason in one line, without a line feed.
impl fmt::Display for DiffError {
    ghost use Rattle.std.specs.Prelude.{Some};
    ghost use Rattle.diff_lines.specs.Verdicts.{error_text};

    ghost output = { λ error. Some (error_text error) };

    fn fmt<W: fmt::Write>(&self, f: &mut fmt::Formatter<W>) -> fmt::Result {
        match self {
            DiffError::NoVerdict(error) => write!(f, "{error}"),
            DiffError::Faulty(trouble) => write!(f, "{trouble}"),
            DiffError::Output => f.write_str("output failed"),
        }
    }
}

impl Error for DiffError {}

/// Two journals that were compared, and whose verdict was written.
#[derive(Debug, Clone, Copy, PartialEq, Eq, Drop)]
pub struct Findings {
    /// Whether they are the same.
    pub is_same: bool,
    /// What the recorded journal has.
    pub recorded: Survey,
    /// What the replayed journal has.
    pub replayed: Survey,
}

/// Compares two journals that sources of their version give, writes what was found in this form, and returns what the
/// journals have and whether they are the same.
///
/// That is their verdict, in one line or with the lines of a mismatch, or what moved between them. Then a sentence is
/// first, below the names of the journals if they are given and the journals differ. A line follows for each run of
/// commands that are the same and for each command that was removed, inserted or changed. As JSON the first line is
/// that of the whole alignment, and the sentence a member of it. Where more than `ALIGNMENT_LIMIT` commands moved the
/// journals are compared index by index, and the sentence says so.
///
/// Both are read to their ends. The text is written only once all of it is made. A journal that has bytes and no
/// complete item is an error: it may be something else. If the comparison is strict, an unknown header, a payload that
/// is not well-formed, or bytes after the last complete item are errors too. The error is the first of these in the
/// recorded journal, or else in the replayed one.
pub fn diff<A: Source, B: Source, W: Write>(
    alloc: Global,
    journals: Journals<A, B>,
    options: &DiffOptions<'_>,
    output: &mut W,
) -> Result<Findings, DiffError>
    requires recorded { A.version journals.recorded ≡ journals.version }
    requires replayed { B.version journals.replayed ≡ journals.version }
    ensures reported { (written : List ℕ)
        × Appends (W.contents output.old) (W.contents output.new) written
        × Reports journals.version options.now (A.coming journals.recorded) (B.coming journals.replayed) result
        written }
    ensures failed { MayFailFor A.may_fail (A.limit journals.recorded) B.may_fail (B.limit journals.replayed) result }
{
    if options.is_all {
        return diff_all(alloc, journals, options, output);
    }
    diff_verdict(alloc, journals, options, output)
}

/// Compares two journals and writes their verdict.
#[tactic(auto, using(crate::proofs::Reporting::reported, crate::proofs::Reporting::report_fails))]
fn diff_verdict<A: Source, B: Source, W: Write>(
    alloc: Global,
    journals: Journals<A, B>,
    options: &DiffOptions<'_>,
    output: &mut W,
) -> Result<Findings, DiffError>
    requires recorded { A.version journals.recorded ≡ journals.version }
    requires replayed { B.version journals.replayed ≡ journals.version }
    ensures reported { (written : List ℕ)
        × Appends (W.contents output.old) (W.contents output.new) written
        × ReportsVerdict journals.version options.now (A.coming journals.recorded) (B.coming journals.replayed) result
        written }
    ensures failed { MayFailFor A.may_fail (A.limit journals.recorded) B.may_fail (B.limit journals.replayed) result }
{
    let found = survey_sources(alloc, journals, options.comparison)?;
    fail_if_faulty(options.comparison.is_strict, &found)?;
    report(alloc, found, options.form, output)
}

/// Compares two journals and writes what moved between them.
#[tactic(auto, using(crate::proofs::Reporting::reported_moved, crate::proofs::Reporting::moved_fails))]
fn diff_all<A: Source, B: Source, W: Write>(
    alloc: Global,
    journals: Journals<A, B>,
    options: &DiffOptions<'_>,
    output: &mut W,
) -> Result<Findings, DiffError>
    requires recorded { A.version journals.recorded ≡ journals.version }
    requires replayed { B.version journals.replayed ≡ journals.version }
    ensures reported { (written : List ℕ)
        × Appends (W.contents output.old) (W.contents output.new) written
        × ReportsMoved journals.version options.now (A.coming journals.recorded) (B.coming journals.replayed) result
        written }
    ensures failed { MayFailFor A.may_fail (A.limit journals.recorded) B.may_fail (B.limit journals.replayed) result }
{
    let found = align_sources(alloc, journals, options.comparison, ALIGNMENT_LIMIT)?;
    fail_if_faulty(options.comparison.is_strict, &found.comparison)?;
    report_moved(alloc, &found, options, output)
}

/// Fails with what is wrong with one of two journals, if that is an error.
fn fail_if_faulty(is_strict: bool, found: &Comparison) -> Result<(), DiffError>
    ensures passed { OnOk result (found_trouble is_strict found.now.recorded found.now.replayed ≡ None) }
    ensures failed { IfErr result (IsFaulty is_strict found.now) }
{
    match found_trouble(is_strict, &found.recorded, &found.replayed) {
        Some(trouble) => Err(DiffError::Faulty(trouble)),
        None => Ok(()),
    }
}

/// Writes what moved between two journals, and returns what was found.
fn report_moved<W: Write>(
    alloc: Global,
    found: &AlignedComparison,
    options: &DiffOptions<'_>,
    output: &mut W,
) -> Result<Findings, DiffError>
    ensures { (written : List ℕ)
        × Appends (W.contents output.old) (W.contents output.new) written
        × ReportsAligned options.now found.now result written }
{
    let text = moved_text(alloc, found, options)?;
    write_text(output, text.as_slice())?;
    Ok(findings_of(&found.comparison))
}

/// What moved between two journals, in its form.
fn moved_text(
    alloc: Global,
    found: &AlignedComparison,
    options: &DiffOptions<'_>,
) -> Result<Vec<u8>, AllocError>
    ensures { IfOk result (λ text. IsMovedText options.now found.now text.items) }
{
    match options.form {
        Form::Text(look) => aligned_text(Pen { alloc, look }, found, options, ALIGNMENT_LIMIT),
        Form::Json => aligned_json(alloc, found, options.comparison.ignored, ALIGNMENT_LIMIT),
    }
}

/// Writes the line of a comparison, and returns what was found.
fn report<W: Write>(
    alloc: Global,
    found: Comparison,
    form: Form,
    output: &mut W,
) -> Result<Findings, DiffError>
    ensures { (written : List ℕ)
        × Appends (W.contents output.old) (W.contents output.new) written
        × ReportsFound form found result written }
{
    let line = found_line(alloc, form, &found)?;
    write_text(output, line.as_slice())?;
    Ok(findings_of(&found))
}

/// The line of a comparison, in its form.
fn found_line(alloc: Global, form: Form, found: &Comparison) -> Result<Vec<u8>, AllocError>
    ensures { IfOk result (λ line. line.items ≡ found_line form found.now) }
{
    match form {
        Form::Text(look) => text_line(Pen { alloc, look }, found),
        Form::Json => json_line(alloc, found),
    }
}

/// What is returned of a comparison.
fn findings_of(found: &Comparison) -> Findings
    ensures { result ≡ findings_of found.now }
{
    Findings {
        is_same: is_same(&found.verdict),
        recorded: found.recorded,
        replayed: found.replayed,
    }
}

/// Whether a verdict is that the journals are the same.
pub(crate) fn is_same(verdict: &Verdict) -> bool
    ensures { result ≡ is_same verdict.now }
{
    matches!(verdict, Verdict::Same(_))
}

/// Writes a text whole.
fn write_text<W: Write>(output: &mut W, bytes: &[u8]) -> Result<(), DiffError>
    ensures { (written : List ℕ)
        × Appends (W.contents output.old) (W.contents output.new) written
        × IsWritten result written bytes.now }
{
    match write_whole(output, bytes) {
        Ok(()) => Ok(()),
        Err(OutputFailed) => Err(DiffError::Output),
    }
}
