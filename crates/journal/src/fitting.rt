//! The version of files that are read by `--protocol auto`: the newest one that all of them fit.

ghost use Rattle.std.specs.Prelude.{◌≡◌, ◌≤◌, IfOk};
ghost use Rattle.std.specs.Process.{exit_status};
ghost use Rattle.shared_core_base.specs.Version.{version_number};
ghost use Rattle.journal.specs.Files.{AreFittedTo};

use crate::call::{Call, INVALID, rest_at, trouble_at};
use crate::file::{File, FileOptions};
use command_line::{Decoding, Progress, fail, input_size, note};
use shared_core_base::version::Version;
use std::fmt;
use std::process::ExitCode;
use stream_lines::Report;
use stream_versions::{Options, check, fits};

/// The number of bytes that are read at a time.
const CHUNK: usize = 65536;

/// What does not fit a version in the file of a path.
#[derive(Drop)]
pub struct Misfit<'p> {
    pub path: &'p str,
    pub found: Report,
}

// a path is text of others, so this has no output that a contract could name
impl<'p> fmt::Display for Misfit<'p> {
    fn fmt<W: fmt::Write>(&self, f: &mut fmt::Formatter<W>) -> fmt::Result {
        let path = self.path;
        let (offset, count) = (self.found.end, self.found.rest);
        match self.found.trouble {
            Some((offset, trouble)) => {
                let found = trouble_at(offset, trouble);
                write!(f, "{path}: {found}")
            }
            None => {
                let rest = rest_at(offset, count);
                write!(f, "{path}: {rest}")
            }
        }
    }
}

/// What does not fit the version of a file in it. The error is the status, after what is wrong was reported.
fn report_of(call: &Call<'_>, file: &File<'_>) -> Result<Report, ExitCode>
    requires { 5 ≤ version_number file.now.options.version }
{
    let input = file.open_again(call)?;
    let FileOptions {
        version,
        limit,
        encoding,
        ..
    } = file.options;
    let options = Options {
        version,
        limit,
        chunk_size: CHUNK,
    };
    let progress = Progress::beside_output(call.rt, call.name, input_size(&input));
    let mut input = Decoding::new(input, file.path, encoding, &progress);
    let checked = check(call.rt.alloc(), &options, &mut input);
    progress.clear();
    match checked {
        Ok(report) => Ok(report),
        Err(error) => {
            let path = file.path;
            Err(call.fail_reading(format_args!("{path}: {error}"), &progress))
        }
    }
}

/// What does not fit a version in the first of some files with such a thing; none if they all fit. The error is the
/// status, after what is wrong was reported.
fn misfit_of<'p>(
    call: &Call<'_>,
    options: &FileOptions,
    paths: &[&'p str],
    version: Version,
) -> Result<Option<Misfit<'p>>, ExitCode>
    requires { 5 ≤ version_number version }
{
    for path in paths {
        let file = File {
            path: *path,
            options: FileOptions {
                version,
                ..*options
            },
        };
        let found = report_of(call, &file)?;
        if !fits(&found) {
            return Ok(Some(Misfit { path: *path, found }));
        }
    }
    Ok(None)
}

/// Says which version is taken, and returns it.
fn taken(call: &Call<'_>, version: Version) -> Version
    requires { 5 ≤ version_number version }
    ensures { result ≡ version }
{
    let number = version.number();
    note(call.rt, call.name, format_args!("read as version {number}"));
    version
}

impl FileOptions {
    /// How some files are read at the version that is asked for, or the newest that they fit, which is reported. All
    /// versions that a stream fits read it to the same items (`fitting_versions_agree` of `stream_versions`). The error
    /// is the status, after it was reported why no version fits, or what else is wrong.
    pub fn fitted(&self, call: &Call<'_>, paths: &[&str]) -> Result<FileOptions, ExitCode>
        requires { 5 ≤ version_number self.now.version }
        ensures version { IfOk result (λ options. 5 ≤ version_number options.version) }
        ensures kept { IfOk result (AreFittedTo self.now) }
    {
        if !self.is_auto {
            return Ok(*self);
        }
        let version = newest(call, self, paths)?;
        Ok(FileOptions { version, ..*self })
    }
}

impl<'a> File<'a> {
    /// The file, as `FileOptions::fitted` has it read.
    pub fn fitted(&self, call: &Call<'_>) -> Result<File<'a>, ExitCode>
        requires { 5 ≤ version_number self.now.options.version }
        ensures version { IfOk result (λ file. 5 ≤ version_number file.options.version) }
        ensures path { IfOk result (λ file. file.path.now ≡ self.now.path.now) }
        ensures kept { IfOk result (λ file. AreFittedTo self.now.options file.options) }
    {
        let options = self.options.fitted(call, &[self.path])?;
        Ok(File { options, ..*self })
    }
}

/// The newest version that the files fit. What fits version 7 or 8 fits 9 too, and 5 and 6 fit alike (`fits_go_on`), so
/// two are tried; the third is for the error.
fn newest(call: &Call<'_>, options: &FileOptions, paths: &[&str]) -> Result<Version, ExitCode>
    ensures { IfOk result (λ version. 5 ≤ version_number version) }
{
    let Some(last) = misfit_of(call, options, paths, Version::V9)? else {
        return Ok(taken(call, Version::V9));
    };
    let Some(first) = misfit_of(call, options, paths, Version::V6)? else {
        return Ok(taken(call, Version::V6));
    };
    match misfit_of(call, options, paths, Version::V8)? {
        Some(middle) => Err(fail_unfit(call, &first, &middle, &last)),
        None => Ok(taken(call, Version::V8)),
    }
}

/// Reports why no version fits, and returns the status.
fn fail_unfit(
    call: &Call<'_>,
    first: &Misfit<'_>,
    middle: &Misfit<'_>,
    last: &Misfit<'_>,
) -> ExitCode
    ensures { exit_status result ≡ 2 }
{
    fail(
        call.rt,
        call.name,
        format_args!("no version fits: 9: {last}; 7 and 8: {middle}; 5 and 6: {first}"),
        INVALID,
    )
}

/// The newest version that a file fits, and the numbers of all. The error is as of `FileOptions::fitted`.
pub fn all_fitting(call: &Call<'_>, file: &File<'_>) -> Result<(Version, &'static str), ExitCode>
    ensures { IfOk result (λ found. 5 ≤ version_number found.0) }
{
    let options = &file.options;
    let paths = [file.path];
    let first = misfit_of(call, options, &paths, Version::V6)?;
    let middle = misfit_of(call, options, &paths, Version::V8)?;
    let Some(last) = misfit_of(call, options, &paths, Version::V9)? else {
        return Ok((
            taken(call, Version::V9),
            numbers(first.is_none(), middle.is_none()),
        ));
    };
    match (&first, &middle) {
        (Some(first), Some(middle)) => Err(fail_unfit(call, first, middle, &last)),
        _ => Ok((taken(call, Version::V6), "5, 6")),
    }
}

/// The numbers of the versions that a stream fits: 9, the first two or not, and the middle two or not.
fn numbers(has_first: bool, has_middle: bool) -> &'static str {
    match (has_first, has_middle) {
        (true, _) => "5, 6, 7, 8, 9",
        (false, true) => "7, 8, 9",
        (false, false) => "9",
    }
}
