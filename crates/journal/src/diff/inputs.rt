//! The two inputs.

ghost use Rattle.std.specs.Prelude.{◌≡◌, ◌≤◌, ◌+◌, ◌^◌, true, false, length};
ghost use Rattle.std.specs.Prelude.{IfOk, IfSome, MatchOption};
ghost use Rattle.shared_core_base.specs.Version.{version_number};
ghost use Rattle.journal.specs.Comparisons.{standard_side};
ghost use Rattle.journal.specs.Opened.{made_bytes, IsMadeBy, IsOpenedBy, IsRenumbered, IsSoOfBoth};

use crate::call::{Call, INVALID};
use crate::diff::arguments::Arguments;
use crate::diff::theirs::Given;
use crate::file::File;
use crate::opened::Opened;
use crate::renumbered::{open_both_ways, open_numbered};
use command_line::{fail, is_stdin_open};
use make_lines::{MakeError, Maker};
use replay_bench::Side;
use shared_core_codec::any_table::ProtocolSchemas;
use shared_core_renumber::Renumbering;
use std::process::ExitCode;

/// The inputs of both journals.
#[derive(Drop)]
pub struct Inputs {
    pub recorded: Opened,
    pub replayed: Opened,
}

impl Inputs {
    /// The size of both, in bytes, if they are files that have one, or dumps.
    pub fn size(&self) -> Option<u64>
        ensures { IfSome (made_bytes self.now.recorded) (λ recorded. IfSome (made_bytes self.now.replayed)
            (λ replayed. let size = length recorded + length replayed in
            MatchOption result (2 ^ 64 ≤ size) (λ found. found ≡ size))) }
    {
        self.recorded.size()?.checked_add(self.replayed.size()?)
    }
}

/// The journal that comes from the standard input, if one does.
pub fn standard_side(parsed: &Arguments<'_>) -> Option<Side>
    ensures { result ≡ standard_side parsed.now.recorded.now parsed.now.replayed.now }
{
    if parsed.replayed == "-" {
        return Some(Side::Replayed);
    }
    if parsed.recorded == "-" {
        return Some(Side::Recorded);
    }
    None
}

/// The journal that is to come from the standard input, if that is closed. The other journal's file would take its
/// place.
pub fn closed_side(rt: &HostRuntime, parsed: &Arguments<'_>) -> Option<Side>
    ensures { IfSome result (λ side. standard_side parsed.now.recorded.now parsed.now.replayed.now ≡ Some side) }
{
    let side = standard_side(parsed)?;
    if is_stdin_open(rt) { None } else { Some(side) }
}

/// Opens a dump, and makes the stream that its lines mean. The error is the status, after what is wrong was reported.
fn open_dump(call: &Call<'_>, file: &File<'_>) -> Result<Opened, ExitCode>
    ensures { IfOk result (IsMadeBy file.now.options) }
{
    let alloc = call.rt.alloc();
    let path = file.path;
    let mut input = call.open(path)?;
    let mut stream = Vec::new(alloc);
    let maker = Maker {
        alloc,
        version: file.options.version,
        messages: &ProtocolSchemas,
    };
    match maker.make(&mut input, &mut stream) {
        Ok(()) => Ok(Opened::made(stream, file.options.limit)),
        Err(MakeError::Line(number, error)) => Err(fail(
            call.rt,
            call.name,
            format_args!("{path}:{number}: {error}"),
            INVALID,
        )),
        // what is written is in memory
        Err(MakeError::Output) => Err(call.fail(MakeError::OutOfMemory, call.failure)),
        Err(error) => Err(call.fail(format_args!("{path}: {error}"), call.failure)),
    }
}

/// Opens the journal of a path. The error is the status, after what is wrong was reported.
fn open_one(call: &Call<'_>, parsed: &Arguments<'_>, path: &str) -> Result<Opened, ExitCode>
    requires { 5 ≤ version_number parsed.now.options.version }
    ensures dump { parsed.now.is_dump ≡ true → IfOk result (IsMadeBy parsed.now.options) }
    ensures stream { parsed.now.is_dump ≡ false → IfOk result (IsOpenedBy parsed.now.options) }
{
    let file = File {
        path,
        options: parsed.options,
    };
    if parsed.is_dump {
        return open_dump(call, &file);
    }
    open_numbered(call, &file, None)
}

/// Opens both journals. The error is the status, after what is wrong was reported.
pub fn open_both(call: &Call<'_>, parsed: &Arguments<'_>) -> Result<Inputs, ExitCode>
    requires { 5 ≤ version_number parsed.now.options.version }
    ensures dumps { parsed.now.is_dump ≡ true → IfOk result (IsSoOfBoth (IsMadeBy parsed.now.options)) }
    ensures streams { parsed.now.is_dump ≡ false → IfOk result (IsSoOfBoth (IsOpenedBy parsed.now.options)) }
{
    Ok(Inputs {
        recorded: open_one(call, parsed, parsed.recorded)?,
        replayed: open_one(call, parsed, parsed.replayed)?,
    })
}

/// Opens both journals by a table, also as they are given. The error is the status, after what is wrong was reported.
pub fn open_both_by(
    call: &Call<'_>,
    parsed: &Arguments<'_>,
    entries: &[Renumbering],
) -> Result<(Inputs, Given), ExitCode>
    requires { 5 ≤ version_number parsed.now.options.version }
    ensures { IfOk result (λ both. IsSoOfBoth IsRenumbered both.0) }
{
    let options = parsed.options;
    let recorded = File {
        path: parsed.recorded,
        options,
    };
    let replayed = File {
        path: parsed.replayed,
        options,
    };
    let (recorded, recorded_given) = open_both_ways(call, &recorded, entries)?;
    let (replayed, replayed_given) = open_both_ways(call, &replayed, entries)?;
    let inputs = Inputs { recorded, replayed };
    let given = Given {
        recorded: recorded_given,
        replayed: replayed_given,
    };
    Ok((inputs, given))
}
