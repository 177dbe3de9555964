//! Lists the frames of a stream, of a file or of the standard input.
#![tactic(auto)]

ghost use Rattle.journal_list.specs.Options.{IsAccepted};

mod arguments;
mod definitions;
mod error;
mod list;
mod options;
mod run;

use crate::arguments::{Arguments, are_bare, parse_arguments};
use crate::error::ListError;
use crate::list::list_at;
use crate::options::options;
use crate::run::{Outcome, exit_code, run};
use clap::error::ErrorKind;
use command_line::{
    Input, Pipe, Progress, Watched, fail, input_size, open, read_arguments, report,
};
use std::io::Stdout;
use std::process::ExitCode;
use stream_lines::Reading;

const PROGRAM: &str = "journal_list";

/// Reports how a run ended, unless the reader of the output has closed it, and returns the status.
fn end(rt: &HostRuntime, outcome: Outcome, output: &Pipe<Stdout>) -> ExitCode {
    if !output.is_broken() {
        // there is nothing to do if the standard error fails too
        let _ = eprint!(rt; "{outcome}");
    }
    exit_code(&outcome)
}

/// Lists the standard input by arguments without a file and options, and returns the status.
fn run_words(rt: &HostRuntime, words: &[String]) -> ExitCode {
    let progress = Progress::beside_output(rt, PROGRAM, None);
    let mut input = Watched::new(rt.stdin(), &progress);
    let mut output = Pipe::new(rt.stdout());
    let outcome = run(rt.alloc(), words, &mut input, &mut output);
    progress.clear();
    end(rt, outcome, &output)
}

/// Lists the input, and returns the status.
fn run_parsed(rt: &HostRuntime, parsed: &Arguments<'_>, input: Input) -> ExitCode
    requires { IsAccepted parsed.now.version parsed.now.chunk_size }
{
    let progress = Progress::beside_output(rt, PROGRAM, input_size(&input));
    let mut input = Watched::new(input, &progress);
    let mut output = Pipe::new(rt.stdout());
    let reading = Reading {
        alloc: rt.alloc(),
        version: parsed.version,
        limit: parsed.limit,
        chunk: parsed.chunk_size,
    };
    let listed = list_at(reading, &mut input, &mut output);
    progress.clear();
    end(rt, Outcome::Listed(listed), &output)
}

/// Reports that the run ended so before it began, and returns the status.
fn end_early(rt: &HostRuntime, outcome: Outcome) -> ExitCode {
    end(rt, outcome, &Pipe::new(rt.stdout()))
}

fn main(rt: HostRuntime) -> ExitCode {
    let arguments = match read_arguments(&rt) {
        Ok(arguments) => arguments,
        Err(error) => {
            return end_early(&rt, Outcome::Listed(Err(ListError::from(error))));
        }
    };
    let words = arguments.get(1..).unwrap_or(&[]);
    if options(words).is_some() {
        return run_words(&rt, words);
    }
    let is_bare = are_bare(words);
    let parsed = match parse_arguments(rt.alloc(), words) {
        Ok(parsed) => parsed,
        Err(error) if is_bare && error.kind() != ErrorKind::OutOfMemory => {
            return end_early(&rt, Outcome::Rejected);
        }
        Err(error) => return report(&rt, PROGRAM, &error, 1),
    };
    match open(&rt, parsed.path) {
        Ok(input) => run_parsed(&rt, &parsed, input),
        // a name that no file has is more likely a mistyped argument
        Err(error) if is_bare && error.is_missing() => end_early(&rt, Outcome::Rejected),
        Err(error) => fail(&rt, PROGRAM, error, 2),
    }
}
