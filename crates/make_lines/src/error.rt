//! The errors of `make` and of its lines.

use shared_core_json_reader::Reason;
use std::alloc::AllocError;
use std::error::Error;
use std::fmt;
use stream_lines::output::OutputFailed;

/// Why a line is rejected.
#[derive(Clone, Copy, Debug, PartialEq, Eq, Drop)]
pub enum LineReason {
    /// It is not JSON, or one of its members has a wrong name or a wrong value.
    Json(Reason),
    /// It begins an object and ends within it, as the first line of one that is printed on several lines.
    CutOff,
    /// It has neither a type nor a code.
    NoType,
    /// No named type has the name; the type of a custom entry is given by its code.
    UnknownType,
    /// The type's name is not that of the code's type.
    OtherType,
    /// It has no message and no bytes, and does not say that there is no payload.
    NoPayload,
    /// More than one of its members gives a payload or says that there is none.
    SeveralPayloads,
    /// It has a message, but the payloads of its code have no schema.
    NoSchema,
    /// It has a member for whether an acknowledgement is requested, but headers of its type have no such flag.
    NoFlag,
    /// A header is not eight bytes long.
    HeaderLength,
    /// The code in its header is not that of its type or its code.
    OtherCode,
    /// Its header requests an acknowledgement and `requestedAck` does not, or only that does.
    OtherFlag,
    /// It says that there is no payload, but its header announces one, with which a reader would skip the header.
    NoSuchPayload,
    /// It says that there is no payload, as of an unknown code, but its code is that of a type.
    CodeOfType,
    /// Its payload has more bytes than 32 bits can count.
    TooLong,
    /// It is the line of the bytes after the last item, and has members of an item.
    ItemInRest,
    /// It is the line of the bytes after the last item, and lacks these bytes.
    NoBytes,
}

impl fmt::Display for LineReason {
    ghost use Rattle.std.specs.Prelude.{Some};
    ghost use Rattle.make_lines.specs.Errors.{reason_text};

    ghost output = { λ reason. Some (reason_text reason) };

    fn fmt<W: fmt::Write>(&self, f: &mut fmt::Formatter<W>) -> fmt::Result {
        match self {
            LineReason::Json(reason) => write!(f, "{reason}"),
            LineReason::CutOff => {
                f.write_str("the line ends within an object; one object a line: jq -c")
            }
            LineReason::NoType => f.write_str("neither a type nor a code"),
            LineReason::UnknownType => f.write_str("no named type has the name"),
            LineReason::OtherType => f.write_str("not the name of the code's type"),
            LineReason::NoPayload => f.write_str("no message and no bytes"),
            LineReason::SeveralPayloads => f.write_str("more than one payload"),
            LineReason::NoSchema => f.write_str("no messages have this code"),
            LineReason::NoFlag => f.write_str("the type has no such flag"),
            LineReason::HeaderLength => f.write_str("not eight bytes"),
            LineReason::OtherCode => f.write_str("its code is not that of the line"),
            LineReason::OtherFlag => f.write_str("its flag is not that of the line"),
            LineReason::NoSuchPayload => f.write_str("it announces a payload, and none is there"),
            LineReason::CodeOfType => f.write_str("the code is that of a type"),
            LineReason::TooLong => f.write_str("the payload is too long for a header"),
            LineReason::ItemInRest => f.write_str("the rest is no item"),
            LineReason::NoBytes => f.write_str("a rest without its bytes"),
        }
    }
}

/// Why a line is rejected, and where.
#[derive(Debug, Drop)]
pub struct LineError {
    pub reason: LineReason,
    /// Where the line stops being JSON, in bytes from its beginning; absent if it is JSON, or is cut off.
    pub offset: Option<usize>,
    /// The members and indices that lead to the rejected value, as `message.headers[2].key`; empty if that is the line.
    pub path: String,
    /// The name that no named type has; absent for any other reason.
    pub name: Option<String>,
}

/// Prints the path, the reason and the name or the offset.
impl fmt::Display for LineError {
    ghost use Rattle.std.specs.Prelude.{Some};
    ghost use Rattle.make_lines.specs.Errors.{fault_of, fault_text};

    ghost output = { λ error. Some (fault_text (fault_of error)) };

    fn fmt<W: fmt::Write>(&self, f: &mut fmt::Formatter<W>) -> fmt::Result {
        if self.offset.is_none() && !self.path.is_empty() {
            let path = self.path.as_str();
            write!(f, "{path}: ")?;
        }
        let reason = self.reason;
        write!(f, "{reason}")?;
        if let Some(name) = &self.name {
            let name = name.as_str();
            write!(f, " '{name}'")?;
        }
        match self.offset {
            Some(offset) => write!(f, " at byte {offset}"),
            None => Ok(()),
        }
    }
}

impl Error for LineError {}

/// Why `make` ended before the end of its input.
#[derive(Debug, Drop)]
pub enum MakeError {
    /// A read failed, or 2^64 - 1 reads met no end.
    Input,
    /// A write failed, or wrote no byte.
    Output,
    /// A line, or what it means, could not be allocated.
    OutOfMemory,
    /// The line of this number, from 1 to 2^64 - 1, is rejected.
    Line(u64, LineError),
}

/// Prints what failed, or the number of the line and its error.
impl fmt::Display for MakeError {
    ghost use Rattle.std.specs.Prelude.{Some};
    ghost use Rattle.make_lines.specs.Errors.{error_text};

    ghost output = { λ error. Some (error_text error) };

    fn fmt<W: fmt::Write>(&self, f: &mut fmt::Formatter<W>) -> fmt::Result {
        match self {
            MakeError::Input => f.write_str("input failed"),
            MakeError::Output => f.write_str("output failed"),
            MakeError::OutOfMemory => f.write_str("out of memory"),
            MakeError::Line(number, error) => write!(f, "{number}: {error}"),
        }
    }
}

impl Error for MakeError {}

impl From<AllocError> for MakeError {
    ghost use Rattle.std.specs.Prelude.{◌≡◌};
    ghost use Rattle.make_lines.specs.declared.error.MakeError.TheVariants.{OutOfMemory};

    ghost from_gives = { λ _ error. error ≡ OutOfMemory };

    fn from(_error: AllocError) -> MakeError {
        MakeError::OutOfMemory
    }
}

impl From<OutputFailed> for MakeError {
    ghost use Rattle.std.specs.Prelude.{◌≡◌};
    ghost use Rattle.make_lines.specs.declared.error.MakeError.TheVariants.{Output};

    ghost from_gives = { λ _ error. error ≡ Output };

    fn from(_error: OutputFailed) -> MakeError {
        MakeError::Output
    }
}
