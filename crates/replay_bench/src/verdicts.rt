//! The result of a comparison of two journals.

ghost use Rattle.std.specs.Prelude.{◌≡◌};
ghost use Rattle.replay_bench.specs.Verdicts.{recorded_ended, replayed_ended};

use crate::fields::FieldDifference;
use crate::survey::Survey;
use shared_core::encoding::MessageTooLong;
use shared_core_base::header::MessageType;
use std::alloc::AllocError;
use std::error::Error;
use std::fmt;

/// One of the two journals that are compared.
#[derive(Clone, Copy, Debug, PartialEq, Eq)]
pub enum Side {
    /// The journal that an earlier execution left.
    Recorded,
    /// The journal that the execution now makes.
    Replayed,
}

impl fmt::Display for Side {
    ghost use Rattle.std.specs.Prelude.{Some};
    ghost use Rattle.replay_bench.specs.Texts.{side_text};

    ghost output = { λ side. Some (side_text side) };

    fn fmt<W: fmt::Write>(&self, f: &mut fmt::Formatter<W>) -> fmt::Result {
        f.write_str(match self {
            Side::Recorded => "recorded",
            Side::Replayed => "replayed",
        })
    }
}

/// How two journals compare. An index counts the commands of a journal, from 0.
#[derive(Debug, PartialEq, Drop)]
pub enum Verdict {
    /// Both have this many commands, and each is the same as the other's at its index.
    Same(u64),
    /// All commands of the recorded journal are the same, and the replayed one has another at this index.
    RecordedEnded(u64),
    /// All commands of the replayed journal are the same, and the recorded one has another at this index.
    ReplayedEnded(u64),
    /// The first commands that differ are of two types. The text is that of `CommandTypeMismatchError`.
    TypeMismatch {
        /// The index of both.
        index: u64,
        /// What was recorded, and what is replayed in its place.
        text: String,
    },
    /// The first commands that differ are of one type. The text is that of `CommandMismatchError`.
    HeaderMismatch {
        /// The index of both.
        index: u64,
        /// The type, and one line per printed field in which they differ, the recorded command's first.
        text: String,
    },
}

impl Verdict {
    /// Whether it says that the recorded journal has ended.
    pub(crate) fn has_recorded_ended(&self) -> bool
        ensures { result ≡ recorded_ended self.now }
    {
        matches!(self, Verdict::Same(_) | Verdict::RecordedEnded(_))
    }

    /// Whether it says that the replayed journal has ended.
    pub(crate) fn has_replayed_ended(&self) -> bool
        ensures { result ≡ replayed_ended self.now }
    {
        matches!(self, Verdict::Same(_) | Verdict::ReplayedEnded(_))
    }
}

/// Two journals, compared and surveyed.
#[derive(Debug, PartialEq, Drop)]
pub struct Comparison {
    /// How they compare.
    pub verdict: Verdict,
    /// If it is a `HeaderMismatch`, the fields of the lines of its text, in their order; otherwise none.
    pub fields: Vec<FieldDifference>,
    /// What the recorded journal has.
    pub recorded: Survey,
    /// What the replayed journal has.
    pub replayed: Survey,
    /// The type of the recorded command at the index of the verdict, unless this journal has ended.
    pub recorded_type: Option<MessageType>,
    /// The same of the replayed command.
    pub replayed_type: Option<MessageType>,
    /// The offset in the recorded journal, in bytes, of the last command that the verdict has seen: of that at its
    /// index, unless this journal has ended.
    pub recorded_at: Option<u128>,
    /// The same in the replayed journal.
    pub replayed_at: Option<u128>,
}

/// Why two journals have no verdict.
#[derive(Clone, Copy, Debug, PartialEq, Eq)]
pub enum BenchError {
    /// The payload of the command at this index of this journal is not well-formed for the command's type, which both
    /// journals have there. All commands before are the same.
    Malformed {
        /// The journal.
        side: Side,
        /// The index of its command.
        index: u64,
    },
    /// A journal has more than 2^64 - 1 bytes.
    TooLong,
    /// An allocation failed.
    OutOfMemory,
}

/// Why two journals that come from readers have no verdict.
#[derive(Clone, Copy, Debug, PartialEq, Eq, Drop)]
pub enum ReaderError {
    /// A read of this journal failed, or 2^64 - 1 reads met no end.
    Read(Side),
    /// This message of this journal is longer than the limit.
    MessageTooLong(Side, MessageTooLong),
    /// The errors that any journals may have.
    Bench(BenchError),
}

impl fmt::Display for BenchError {
    ghost use Rattle.std.specs.Prelude.{Some};
    ghost use Rattle.replay_bench.specs.Texts.{bench_error_text};

    ghost output = { λ error. Some (bench_error_text error) };

    fn fmt<W: fmt::Write>(&self, f: &mut fmt::Formatter<W>) -> fmt::Result {
        match self {
            BenchError::Malformed { side, index } => {
                write!(f, "the {side} command {index} is malformed")
            }
            BenchError::TooLong => f.write_str("a journal has more than 2^64 - 1 bytes"),
            BenchError::OutOfMemory => f.write_str("out of memory"),
        }
    }
}

impl Error for BenchError {}

impl fmt::Display for ReaderError {
    ghost use Rattle.std.specs.Prelude.{Some};
    ghost use Rattle.replay_bench.specs.Texts.{reader_error_text};

    ghost output = { λ error. Some (reader_error_text error) };

    fn fmt<W: fmt::Write>(&self, f: &mut fmt::Formatter<W>) -> fmt::Result {
        match self {
            ReaderError::Read(side) => write!(f, "reading the {side} journal failed"),
            ReaderError::MessageTooLong(side, message) => {
                write!(f, "the {side} journal, {message}")
            }
            ReaderError::Bench(error) => write!(f, "{error}"),
        }
    }
}

impl Error for ReaderError {}

impl From<AllocError> for BenchError {
    ghost use Rattle.std.specs.Prelude.{◌≡◌};
    ghost use Rattle.replay_bench.specs.declared.verdicts.BenchError.TheVariants.{OutOfMemory};

    ghost from_gives = { λ _ error. error ≡ OutOfMemory };

    fn from(_error: AllocError) -> BenchError {
        BenchError::OutOfMemory
    }
}

impl From<BenchError> for ReaderError {
    ghost use Rattle.std.specs.Prelude.{◌≡◌};
    ghost use Rattle.replay_bench.specs.declared.verdicts.ReaderError.TheVariants.{Bench};

    ghost from_gives = { λ failure error. error ≡ Bench failure };

    fn from(failure: BenchError) -> ReaderError {
        ReaderError::Bench(failure)
    }
}

impl From<AllocError> for ReaderError {
    ghost use Rattle.std.specs.Prelude.{◌≡◌};
    ghost use Rattle.replay_bench.specs.declared.verdicts.BenchError.TheVariants.{OutOfMemory};
    ghost use Rattle.replay_bench.specs.declared.verdicts.ReaderError.TheVariants.{Bench};

    ghost from_gives = { λ _ error. error ≡ Bench OutOfMemory };

    fn from(_error: AllocError) -> ReaderError {
        ReaderError::Bench(BenchError::OutOfMemory)
    }
}
