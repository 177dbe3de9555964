//! Prints a stream as JSON, a file or the standard input: one object per line for each of its items.

ghost use Rattle.std.specs.Prelude.{◌≡◌, ◌≤◌};
ghost use Rattle.std.specs.Process.{exit_status};
ghost use Rattle.shared_core_base.specs.Version.{version_number};
ghost use Rattle.journal.specs.Statuses.{dumped_status};

mod arguments;
mod canonical;
mod suggestions;

use crate::beginning::Beginning;
use crate::call::{Call, rest_at};
use crate::definitions;
use crate::descriptors::read_messages;
use crate::dump::arguments::Arguments;
pub use crate::dump::canonical::Records;
use crate::opened::Print;
use crate::renumbered::set_path;
use command_line::note;
use dump_lines::{Dumping, MOST_SHOWN, MessageTable, Options, ProtocolTable};
use std::io::{IsTerminal, Read, Write};
use std::process::ExitCode;
use stream_lines::{PrintError, Report};
use stream_versions::fits;
use terminal_text::{Escapes, Escaping};

/// The status of `--strict` if something is wrong with the stream.
const UNFIT: u8 = 2;

impl<'a, M: MessageTable> Print for Dumping<'a, M> {
    type Found = Report;

    ghost is_ready = { λ dumping. 5 ≤ version_number dumping.options.version };

    fn print<R: Read, W: Write>(
        &self,
        call: &Call<'_>,
        input: &mut R,
        output: &mut W,
    ) -> Result<Report, PrintError> {
        let is_terminal = call.rt.stdout().is_terminal();
        let mut output = Escaping::new(call.rt.alloc(), output, Escapes::Json, is_terminal);
        if is_terminal {
            self.dump_on_terminal(input, &mut output)
        } else {
            self.dump(input, &mut output)
        }
    }

    /// Reports the first error of the stream and the trailing bytes.
    fn end(&self, call: &Call<'_>, beginning: &Beginning, found: Report) -> ExitCode
        ensures { exit_status result ≡ dumped_status self.now.options.strict found }
    {
        let options = &self.options;
        if let Some((offset, trouble)) = found.trouble {
            call.report_trouble(offset, trouble);
        }
        if found.rest > 0 {
            report_rest(call, options, &found);
            if found.end == 0 {
                beginning.report_no_message(call, options.version);
                if !options.strict {
                    call.note("it is dumped all the same; with --strict the status is 2");
                }
            }
        }
        if options.strict && !fits(&found) {
            return ExitCode::from(UNFIT);
        }
        ExitCode::SUCCESS
    }
}

/// Reports the trailing bytes.
fn report_rest(call: &Call<'_>, options: &Options<'_>, found: &Report) {
    let rest = rest_at(found.end, found.rest);
    let is_shown = options.rest && options.payloads;
    let is_cut = is_shown && found.rest > MOST_SHOWN && call.rt.stdout().is_terminal();
    let shown = if is_cut {
        ", not shown on a terminal"
    } else {
        ""
    };
    note(call.rt, call.name, format_args!("{rest}{shown}"));
}

/// Dumps the stream, whose payloads are read by a table, and returns the status.
fn run_by<M: MessageTable>(
    call: &Call<'_>,
    parsed: &Arguments<'_>,
    messages: &M,
) -> Result<ExitCode, ExitCode>
    requires { 5 ≤ version_number parsed.now.file.options.version }
{
    let file = &parsed.file;
    let dumping = Dumping {
        alloc: call.rt.alloc(),
        options: parsed.options(),
        messages,
    };
    file.open(call)?.print(call, file.path, &dumping)
}

/// Parses the arguments, dumps the stream, and returns the status.
pub fn run(call: &Call<'_>) -> Result<ExitCode, ExitCode> {
    let mut parsed: Arguments<'_> = call.parse(call.command(&definitions::DUMP)?)?;
    if let Some(path) = set_path(call, &parsed.schema, &parsed.file)? {
        let messages = read_messages(call, path.as_str(), parsed.schema.renames.as_slice())?;
        return run_by(call, &parsed, &messages.table());
    }
    parsed.file = parsed.file.fitted(call)?;
    let messages = ProtocolTable {
        canonicalizer: &Records,
    };
    run_by(call, &parsed, &messages)
}
