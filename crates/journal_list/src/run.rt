//! A run of the program over any reader and writer, with its message and its status.

ghost use Rattle.std.specs.Prelude.{◌≡◌, ℕ, List, map, string_bytes};
ghost use Rattle.std.specs.Io.KnownBytes.{Appends, Consumes};
ghost use Rattle.std.specs.Process.{exit_status};
ghost use Rattle.shared_core_base.specs.declared.version.Version.{Version as AnyVersion};
ghost use Rattle.journal_list.specs.Listing.{IsListed};
ghost use Rattle.journal_list.specs.Options.{AreOptions};
ghost use Rattle.journal_list.specs.Run.{status_of, IsRejected, IfListed};

use crate::error::ListError;
use crate::list::list_at;
use crate::options::options;
use std::alloc::Global;
use std::fmt;
use std::io::{Read, Write};
use std::process::ExitCode;
use stream_lines::Reading;

/// How a run ended.
#[derive(Drop)]
pub enum Outcome {
    /// The arguments were rejected.
    Rejected,
    /// The listing's result.
    Listed(Result<(), ListError>),
}

/// Lists the input at the version, and in chunks of the size, that the arguments give. Invalid arguments leave input
/// and output untouched.
///
/// No contract sees the size of a read; tests show that it is the one that the arguments give.
pub fn run<R: Read, W: Write>(
    alloc: Global,
    words: &[String],
    input: &mut R,
    output: &mut W,
) -> Outcome
    ensures rejected { IsRejected result → (version : AnyVersion) → (chunk_size : ℕ)
        → AreOptions (map string_bytes words.now) version chunk_size → ⊥ }
    ensures unread { IsRejected result → input.new ≡ input.old }
    ensures unwritten { IsRejected result → output.new ≡ output.old }
    ensures listed { IfListed result (λ listing.
        (version : AnyVersion) × (chunk_size : ℕ) × AreOptions (map string_bytes words.now) version chunk_size
        × (read : List ℕ) × (written : List ℕ)
        × Consumes (R.remaining input.old) (R.remaining input.new) read
        × Appends (W.contents output.old) (W.contents output.new) written
        × IsListed version 4294967295 listing read written (R.remaining input.new)) }
{
    let Some((version, chunk_size)) = options(words) else {
        return Outcome::Rejected;
    };
    let reading = Reading {
        alloc,
        version,
        limit: u32::MAX,
        chunk: chunk_size,
    };
    Outcome::Listed(list_at(reading, input, output))
}

/// Prints the line for the standard error, or nothing after a whole listing.
// The usage names only a chunk size and `v9`, and stays so, since the contract names it. It is printed only for
// arguments that can be meant so; of all others clap prints what is wrong, and the whole usage.
impl fmt::Display for Outcome {
    ghost use Rattle.std.specs.Prelude.{Some};
    ghost use Rattle.journal_list.specs.Run.{message_of};

    ghost output = { λ outcome. Some (message_of outcome) };

    fn fmt<W: fmt::Write>(&self, f: &mut fmt::Formatter<W>) -> fmt::Result {
        match self {
            Outcome::Rejected => f.write_str("usage: journal_list [1..65536] [v9]\n"),
            Outcome::Listed(Ok(())) => Ok(()),
            Outcome::Listed(Err(error)) => writeln!(f, "journal_list: {error}"),
        }
    }
}

/// The program's exit status.
pub fn exit_code(outcome: &Outcome) -> ExitCode
    ensures { exit_status result ≡ status_of outcome.now }
{
    match outcome {
        Outcome::Rejected => ExitCode::from(2),
        Outcome::Listed(Ok(())) => ExitCode::SUCCESS,
        Outcome::Listed(Err(_)) => ExitCode::FAILURE,
    }
}
