//! What subcommands have in common: how one is called, and how it reports.
//!
//! Where a function here or of a subcommand has a status as its error, what is wrong was reported before.

ghost use Rattle.std.specs.Prelude.{◌≡◌, IfErr, IfOk, map, string_bytes};
ghost use Rattle.std.specs.Process.{exit_status};
ghost use Rattle.clap.specs.Simple.{app_of};
ghost use Rattle.replay_bench.specs.declared.faults.FaultReason.TheVariants.{Rest};
ghost use Rattle.command_line.specs.Parsing.{without_name, IsReadOf};
ghost use Rattle.journal.specs.Troubles.{reason_of};

use clap::Command;
use command_line::{
    Definition, FromMatches, Input, Progress, fail, note, note_terminal, open, parse, report,
};
use replay_bench::{Fault, FaultReason};
use std::fmt::Display;
use std::io::IsTerminal;
use std::process::ExitCode;
use stream_lines::{PrintError, Trouble};

/// The status if the arguments cannot be followed: a file cannot be opened, say.
pub const INVALID: u8 = 2;

/// A call of a subcommand.
#[derive(Clone, Copy, Drop)]
pub struct Call<'a> {
    pub rt: &'a HostRuntime,
    /// How it is called, as `journal dump`: messages begin with it, and the usage shows it.
    pub name: &'a str,
    /// Its arguments.
    pub words: &'a [String],
    /// The status if an allocation, the input or the output fails.
    pub failure: u8,
}

impl<'a> Call<'a> {
    /// The command that parses its arguments. The error is the status, after a failed allocation was reported.
    pub fn command(&self, definition: &Definition) -> Result<Command<'a>, ExitCode>
        ensures { IfErr result (λ status. exit_status status ≡ self.now.failure) }
    {
        match definition.command(self.rt.alloc(), self.name) {
            Ok(command) => Ok(command),
            Err(_) => Err(self.fail("out of memory", self.failure)),
        }
    }

    /// Parses the arguments by a command, and returns what is read of them. Otherwise prints what is wrong with them,
    /// or the help or the version that they request, and returns the status.
    pub fn parse<T: FromMatches<'a>>(&self, command: Command<'a>) -> Result<T, ExitCode>
        ensures { IfOk result (IsReadOf T.is_read (without_name (app_of command.entry))
            (map string_bytes self.entry.now.words.now)) }
    {
        match parse(self.rt.alloc(), command, self.words) {
            Ok(parsed) => Ok(parsed),
            Err(error) => Err(report(self.rt, self.name, &error, self.failure)),
        }
    }

    /// Fails if the output is a terminal, which takes some bytes of `what` as commands.
    pub fn expect_redirected(&self, what: &str) -> Result<(), ExitCode>
        ensures { IfErr result (λ status. exit_status status ≡ 2) }
    {
        if !self.rt.stdout().is_terminal() {
            return Ok(());
        }
        Err(fail(
            self.rt,
            self.name,
            format_args!("{what} is not written to a terminal: redirect it"),
            INVALID,
        ))
    }

    /// Opens a file for reading, or the standard input if the path is `-`. If that is a terminal, says that it is read.
    pub fn open(&self, path: &str) -> Result<Input, ExitCode>
        ensures { IfErr result (λ status. exit_status status ≡ 2) }
    {
        note_terminal(self.rt, self.name, path);
        match open(self.rt, path) {
            Ok(input) => Ok(input),
            Err(error) => Err(self.fail(error, INVALID)),
        }
    }

    /// Prints a text in a line on the standard error, after the name.
    pub fn note<T: Display + Drop>(&self, text: T) {
        note(self.rt, self.name, text);
    }

    /// Prints why it fails, as `note` does, and returns the status.
    pub fn fail<T: Display + Drop>(&self, why: T, status: u8) -> ExitCode
        ensures { exit_status result ≡ status }
    {
        fail(self.rt, self.name, why, status)
    }

    /// Prints why reading failed, unless it was reported already what is wrong with the input, and returns the status.
    pub fn fail_reading<T: Display + Drop>(&self, why: T, progress: &Progress<'_>) -> ExitCode
        ensures { exit_status result ≡ self.now.failure }
    {
        if progress.has_reported() {
            return ExitCode::from(self.failure);
        }
        self.fail(why, self.failure)
    }

    /// Prints why an input was not printed, and returns the status. If the reader of the output has closed it, which
    /// `is_closed` tells, nothing is printed.
    pub fn fail_printing(
        &self,
        error: PrintError,
        is_closed: bool,
        progress: &Progress<'_>,
    ) -> ExitCode
        ensures { exit_status result ≡ self.now.failure }
    {
        match error {
            PrintError::Output if is_closed => ExitCode::from(self.failure),
            error => self.fail_reading(error, progress),
        }
    }

    /// Reports what is wrong with the item at an offset.
    pub fn report_trouble(&self, offset: u128, trouble: Trouble) {
        self.note(trouble_at(offset, trouble));
    }

    /// Reports how many bytes are at an offset, after the last whole item.
    pub fn report_rest(&self, offset: u128, count: u64) {
        self.note(rest_at(offset, count));
    }
}

/// What is wrong with the item at an offset.
pub fn trouble_at(offset: u128, trouble: Trouble) -> Fault
    ensures { (result.offset ≡ offset) × (result.reason ≡ reason_of trouble) }
{
    let reason = match trouble {
        Trouble::UnknownCode(code) => FaultReason::UnknownHeader(code),
        Trouble::Malformed(ty) => FaultReason::Malformed(ty),
    };
    Fault { offset, reason }
}

/// How many bytes are at an offset, after the last whole item.
pub fn rest_at(offset: u128, count: u64) -> Fault
    ensures { (result.offset ≡ offset) × (result.reason ≡ Rest count) }
{
    Fault {
        offset,
        reason: FaultReason::Rest(count),
    }
}
