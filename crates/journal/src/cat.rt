//! Joins journals to one stream: the items of each file, one after the other, without the start messages of the later
//! ones.

ghost use Rattle.std.specs.Prelude.{◌≤◌};
ghost use Rattle.shared_core_base.specs.Version.{version_number};

use crate::call::Call;
use crate::definitions;
use crate::file::{File, Files};
use command_line::Pipe;
use shared_core::encoding::RawMessage;
use std::alloc::AllocError;
use std::process::ExitCode;
use stream_parts::{Part, Range};

/// What is written of the files.
#[derive(Drop)]
struct Joined {
    /// The start message of the first file.
    start: Option<RawMessage>,
    /// What is copied of each file: all but its start message and its trailing bytes.
    parts: Vec<Part>,
    /// The number of the entries of all files.
    entries: u128,
}

/// Reads the items of all files. The error is the status.
fn join(call: &Call<'_>, parsed: &Files<'_>) -> Result<Joined, ExitCode>
    requires { 5 ≤ version_number parsed.now.options.version }
{
    let mut joined = Joined {
        start: None,
        parts: Vec::new(call.rt.alloc()),
        entries: 0,
    };
    for path in parsed.paths.iter() {
        let file = File {
            path: *path,
            options: parsed.options,
        };
        let located = file.locate(call, Range::ALL)?;
        joined.entries = joined.entries.saturating_add(located.entries());
        if let Err(error) = joined.parts.push(located.part()) {
            return Err(call.fail(AllocError::from(error), call.failure));
        }
        if joined.parts.len() == 1 {
            joined.start = located.start;
        }
    }
    Ok(joined)
}

/// Writes the start message of the first file, and the other items of all. The error is the status.
fn write(call: &Call<'_>, parsed: &Files<'_>, joined: &Joined) -> Result<(), ExitCode>
    requires { 5 ≤ version_number parsed.now.options.version }
{
    let mut output = Pipe::new(call.rt.stdout());
    for (index, (path, part)) in parsed.paths.iter().zip(joined.parts.iter()).enumerate() {
        let file = File {
            path: *path,
            options: parsed.options,
        };
        let mut part = *part;
        if index == 0
            && let Some(start) = &joined.start
            && !file.write_start(call, start, joined.entries, &mut output)?
        {
            part.after = 0;
        }
        file.copy(call, &part, &mut output)?;
    }
    Ok(())
}

/// Parses the arguments, joins the files, and returns the status.
pub fn run(call: &Call<'_>) -> Result<ExitCode, ExitCode> {
    let mut parsed: Files<'_> = call.parse(call.command(&definitions::CAT)?)?;
    call.expect_redirected("the stream")?;
    parsed.options = parsed.options.fitted(call, parsed.paths.as_slice())?;
    let joined = join(call, &parsed)?;
    write(call, &parsed, &joined)?;
    Ok(ExitCode::SUCCESS)
}
