//! Compares two journals, one of them possibly the standard input, and prints where they differ.

ghost use Rattle.std.specs.Prelude.{◌≡◌, ◌≢◌, ◌<◌, ◌≤◌, ◌⊎◌, true, codes, if◌then◌else◌, IfErr, IfSome, IsNone};
ghost use Rattle.std.specs.Process.{exit_status};
ghost use Rattle.shared_core_base.specs.Version.{version_number};
ghost use Rattle.replay_bench.specs.Survey.{trouble_of};
ghost use Rattle.replay_bench.specs.Verdicts.{stopped_index};
ghost use Rattle.journal.specs.Comparisons.{comparison_said, prints_all, shortens, AreNamesOf, IsFormOf, IsFoundOf};

mod arguments;
mod inputs;
mod their_lines;
mod theirs;

use crate::beginning::{Beginning, Begun};
use crate::call::Call;
use crate::definitions;
use crate::descriptors::Description;
use crate::diff::arguments::{Arguments, ValuesChoice};
use crate::diff::inputs::{Inputs, closed_side, open_both, open_both_by, standard_side};
use crate::diff::their_lines::{Shown, their_json, their_text};
use crate::diff::theirs::{TheirDifference, Unread, their_difference};
use crate::file::File;
use crate::renumbered::description_for;
use command_line::{Decoding, Pipe, Progress, has_color};
use diff_lines::{
    DiffError, DiffOptions, Findings, Form, Look, Names, Trouble, diff, empty_note, no_item_note,
    rest_note, unknown_note,
};
use replay_bench::{
    BenchError, Comparison, ComparisonOptions, Ignored, Journals, ReaderError, Side, Verdict,
    survey_sources,
};
use shared_core::encoding::ItemReader;
use shared_core_base::version::Version;
use std::alloc::AllocError;
use std::io::{Cursor, IsTerminal};
use std::process::ExitCode;
use stream_lines::output::{OutputFailed, write_whole};
use terminal_text::{Escapes, Escaping};

/// How both inputs begin.
#[derive(Drop)]
struct Beginnings {
    recorded: Beginning,
    replayed: Beginning,
}

/// The status if the journals differ.
const DIFFERENT: u8 = 1;

/// Reports what the comparison passed over.
fn tell(call: &Call<'_>, found: &Findings) {
    let notes = [
        empty_note(Side::Recorded, &found.recorded),
        unknown_note(Side::Recorded, &found.recorded),
        rest_note(Side::Recorded, &found.recorded),
        empty_note(Side::Replayed, &found.replayed),
        unknown_note(Side::Replayed, &found.replayed),
        rest_note(Side::Replayed, &found.replayed),
    ];
    for what in notes.into_iter().flatten() {
        call.note(what);
    }
}

/// Reports what is wrong with a journal, and if no item is in it, what it may be.
fn tell_trouble(call: &Call<'_>, version: Version, trouble: &Trouble, beginnings: &Beginnings) {
    call.note(*trouble);
    let Some(what) = no_item_note(version, trouble) else {
        return;
    };
    call.note(what);
    let beginning = match trouble.side {
        Side::Recorded => &beginnings.recorded,
        Side::Replayed => &beginnings.replayed,
    };
    beginning.report_hint(call);
}

/// Reports why there is no verdict, or none on the output, and returns the status.
fn end_without(
    call: &Call<'_>,
    version: Version,
    error: DiffError,
    beginnings: &Beginnings,
) -> ExitCode
    ensures { exit_status result ≡ call.now.failure }
{
    match error {
        DiffError::Faulty(trouble) => tell_trouble(call, version, &trouble, beginnings),
        DiffError::NoVerdict(_) | DiffError::Output => call.note(error),
    }
    ExitCode::from(call.failure)
}

/// Whether what moved is written, and not only the verdict: where the arguments do not say it, a terminal shows what
/// moved, and a pipe, a file or a line of JSON has the verdict.
fn is_all(parsed: &Arguments<'_>, is_terminal: bool) -> bool
    ensures { result ≡ prints_all parsed.now is_terminal }
{
    parsed.is_all || (is_terminal && !parsed.is_verdict && !parsed.is_json)
}

/// Whether long values are shown around their difference. The verdict's text is that of the library's error, so it is
/// only shortened on request.
fn is_short(parsed: &Arguments<'_>, is_terminal: bool) -> bool
    ensures { result ≡ shortens parsed.now is_terminal }
{
    match parsed.values {
        ValuesChoice::Auto => is_terminal && is_all(parsed, is_terminal),
        ValuesChoice::Short => true,
        ValuesChoice::Whole => false,
    }
}

/// What is compared.
fn comparison_of(parsed: &Arguments<'_>) -> ComparisonOptions
    ensures { result ≡ comparison_said parsed.now }
{
    ComparisonOptions {
        ignored: Ignored {
            payloads: parsed.ignore_payloads,
            ids: parsed.ignore_ids,
        },
        is_strict: parsed.is_strict,
    }
}

/// What is compared, and what is written of it, to a terminal or not. A terminal shows the names of the journals too.
fn options_of<'a>(call: &Call<'_>, parsed: &Arguments<'a>, is_terminal: bool) -> DiffOptions<'a>
    ensures compared { result.comparison ≡ comparison_said parsed.now }
    ensures form { IsFormOf parsed.now is_terminal result.form }
    ensures all { result.is_all ≡ prints_all parsed.now is_terminal }
    ensures names { AreNamesOf parsed.now is_terminal result.names }
{
    let look = Look {
        is_escaped: is_terminal,
        is_colored: has_color(call.rt, parsed.color),
        is_short: is_short(parsed, is_terminal),
    };
    let names = Names {
        recorded: parsed.recorded,
        replayed: parsed.replayed,
    };
    DiffOptions {
        comparison: comparison_of(parsed),
        form: if parsed.is_json {
            Form::Json
        } else {
            Form::Text(look)
        },
        is_all: is_all(parsed, is_terminal),
        names: is_terminal.then_some(names),
    }
}

/// The status of a verdict.
fn status_of(found: &Findings) -> ExitCode
    ensures { exit_status result ≡ (if found.now.is_same then 0 else 1) }
{
    if found.is_same {
        ExitCode::SUCCESS
    } else {
        ExitCode::from(DIFFERENT)
    }
}

/// Compares the two inputs, prints the verdict and returns its status. The error is that of a failure.
fn run_parsed<'a>(
    call: &Call<'a>,
    parsed: &Arguments<'a>,
    inputs: Inputs,
) -> Result<ExitCode, ExitCode>
    requires { 5 ≤ version_number parsed.now.options.version }
    ensures { IfErr result (λ status. exit_status status ≡ call.now.failure) }
{
    let version = parsed.options.version;
    let progress = Progress::new(call.rt, call.name, inputs.size());
    let beginnings = Beginnings {
        recorded: Beginning::new(),
        replayed: Beginning::new(),
    };
    let alloc = call.rt.alloc();
    let Inputs { recorded, replayed } = inputs;
    let journals = Journals {
        version,
        recorded: ItemReader::with_limit(
            alloc,
            version,
            recorded.limit,
            Begun::new(
                Decoding::new(
                    recorded.source,
                    parsed.recorded,
                    recorded.encoding,
                    &progress,
                ),
                &beginnings.recorded,
            ),
        ),
        replayed: ItemReader::with_limit(
            alloc,
            version,
            replayed.limit,
            Begun::new(
                Decoding::new(
                    replayed.source,
                    parsed.replayed,
                    replayed.encoding,
                    &progress,
                ),
                &beginnings.replayed,
            ),
        ),
    };
    let is_terminal = call.rt.stdout().is_terminal();
    let options = options_of(call, parsed, is_terminal);
    let mut output = Pipe::new(Escaping::new(
        alloc,
        call.rt.stdout(),
        Escapes::Json,
        is_terminal && parsed.is_json,
    ));
    let found = diff(alloc, journals, &options, &mut output);
    progress.clear();
    match found {
        Ok(found) => {
            tell(call, &found);
            Ok(status_of(&found))
        }
        // the reader has closed the output, so nothing is reported
        Err(DiffError::Output) if output.is_broken() => Err(ExitCode::from(call.failure)),
        // it was reported what is wrong with the input
        Err(_) if progress.has_reported() => Err(ExitCode::from(call.failure)),
        Err(error) => Err(end_without(call, version, error, &beginnings)),
    }
}

/// Parses the arguments, compares the journals, and returns the status.
pub fn run(call: &Call<'_>) -> Result<ExitCode, ExitCode> {
    let mut parsed: Arguments<'_> = call.parse(call.command(&definitions::DIFF)?)?;
    if let Some(side) = closed_side(call.rt, &parsed) {
        return Err(call.fail(ReaderError::Read(side), call.failure));
    }
    let standard = standard_input(&parsed);
    let description = description_for(call, &parsed.schema, &standard)?;
    parsed.options = parsed
        .options
        .fitted(call, &[parsed.recorded, parsed.replayed])?;
    match description {
        // a dump has names, and no numbers
        Some(description) if !parsed.is_dump => run_by_set(call, &parsed, &description),
        _ => run_parsed(call, &parsed, open_both(call, &parsed)?),
    }
}

/// The journal that comes from the standard input, or else the recorded one.
fn standard_input<'a>(parsed: &Arguments<'a>) -> File<'a>
    ensures replayed { parsed.now.replayed.now ≡ codes "-" → result.path.now ≡ codes "-" }
    ensures recorded { parsed.now.replayed.now ≢ codes "-" → result.path.now ≡ parsed.now.recorded.now }
    ensures options { result.options ≡ parsed.now.options }
{
    let path = match standard_side(parsed) {
        Some(Side::Replayed) => parsed.replayed,
        Some(Side::Recorded) | None => parsed.recorded,
    };
    File {
        path,
        options: parsed.options,
    }
}

/// Opens both journals by a set, compares them, also by the fields that only the set has, and returns the status.
fn run_by_set(
    call: &Call<'_>,
    parsed: &Arguments<'_>,
    description: &Description,
) -> Result<ExitCode, ExitCode>
    requires { 5 ≤ version_number parsed.now.options.version }
{
    let entries = description.numbering.as_slice();
    let (inputs, given) = open_both_by(call, parsed, entries)?;
    match their_difference(call.rt.alloc(), parsed.options.version, description, &given) {
        Ok(None) => run_parsed(call, parsed, inputs),
        Ok(Some(difference)) => match compared_beyond(call, parsed, &inputs, difference.index) {
            Some(found) => Ok(end_different(call, parsed, &difference, &found)),
            None => run_parsed(call, parsed, inputs),
        },
        Err(Unread::Malformed(side, index)) => {
            if compared_beyond(call, parsed, &inputs, index).is_none() {
                return run_parsed(call, parsed, inputs);
            }
            let error = ReaderError::Bench(BenchError::Malformed { side, index });
            Err(call.fail(error, call.failure))
        }
        Err(Unread::TooLong) => Err(call.fail("a canonical payload is too long", call.failure)),
        Err(Unread::OutOfMemory) => Err(call.fail("out of memory", call.failure)),
    }
}

/// What is found of two renumbered journals, if the commands at this index are the same at the protocol's numbers, and
/// nothing is wrong that the options say is an error.
fn compared_beyond(
    call: &Call<'_>,
    parsed: &Arguments<'_>,
    inputs: &Inputs,
    index: u64,
) -> Option<Comparison>
    requires { 5 ≤ version_number parsed.now.options.version }
    ensures found { IfSome result (IsFoundOf parsed.now inputs.now) }
    ensures beyond { IfSome result (λ found. index < stopped_index found.verdict) }
    ensures strict { IfSome result (λ found. parsed.now.is_strict ≡ true
        → IsNone (trouble_of found.recorded) × IsNone (trouble_of found.replayed)) }
{
    let alloc = call.rt.alloc();
    let version = parsed.options.version;
    let journals = Journals {
        version,
        recorded: ItemReader::new(alloc, version, Cursor::new(inputs.recorded.bytes())),
        replayed: ItemReader::new(alloc, version, Cursor::new(inputs.replayed.bytes())),
    };
    let Ok(found) = survey_sources(alloc, journals, comparison_of(parsed)) else {
        return None;
    };
    let is_faulty = found.recorded.trouble().is_some() || found.replayed.trouble().is_some();
    if parsed.is_strict && is_faulty || same_count(&found.verdict) <= index {
        return None;
    }
    Some(found)
}

/// How many commands are the same at the beginning of both journals.
fn same_count(verdict: &Verdict) -> u64
    ensures { result ≡ stopped_index verdict.now }
{
    match verdict {
        Verdict::Same(count) | Verdict::RecordedEnded(count) | Verdict::ReplayedEnded(count) => {
            *count
        }
        Verdict::TypeMismatch { index, .. } | Verdict::HeaderMismatch { index, .. } => *index,
    }
}

/// Prints the first difference, which is in fields that only the set has, and returns the status of one, or that of a
/// failure.
fn end_different(
    call: &Call<'_>,
    parsed: &Arguments<'_>,
    difference: &TheirDifference,
    found: &Comparison,
) -> ExitCode
    ensures { (exit_status result ≡ 1) ⊎ (exit_status result ≡ call.now.failure) }
{
    let is_terminal = call.rt.stdout().is_terminal();
    let text = match text_of(call, parsed, difference, is_terminal) {
        Ok(text) => text,
        Err(error) => return call.fail(error, call.failure),
    };
    let mut output = Pipe::new(Escaping::new(
        call.rt.alloc(),
        call.rt.stdout(),
        Escapes::Json,
        is_terminal && parsed.is_json,
    ));
    match write_whole(&mut output, text.as_slice()) {
        Ok(()) => {}
        // the reader has closed the output, so nothing is reported
        Err(OutputFailed) if output.is_broken() => return ExitCode::from(call.failure),
        Err(OutputFailed) => return call.fail(DiffError::Output, call.failure),
    }
    let findings = Findings {
        is_same: false,
        recorded: found.recorded,
        replayed: found.replayed,
    };
    tell(call, &findings);
    status_of(&findings)
}

/// What is printed of a difference, to a terminal or not.
fn text_of(
    call: &Call<'_>,
    parsed: &Arguments<'_>,
    difference: &TheirDifference,
    is_terminal: bool,
) -> Result<Vec<u8>, AllocError> {
    let alloc = call.rt.alloc();
    if parsed.is_json {
        return their_json(alloc, difference);
    }
    let shown = Shown {
        alloc,
        is_escaped: is_terminal,
        is_colored: has_color(call.rt, parsed.color),
    };
    their_text(shown, difference)
}
