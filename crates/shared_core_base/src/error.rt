//! Errors of an invocation: their codes, what they carry, and what they print.

ghost use Rattle.std.specs.Prelude.{◌≡◌, ◌↔◌, IsTrue, IfOk, Some, None, if◌then◌else◌, codes};
ghost use Rattle.std.specs.Option.{option_copied};
ghost use Rattle.std.specs.Fmt.{decimal};
ghost use Rattle.std.specs.Cow.{cow_str_bytes};
ghost use Rattle.shared_core_base.specs.Error.{code_of_number, behavior_number, command_metadata_text};
ghost use Rattle.shared_core_base.specs.Error.{notification_metadata_text, error_text, related_command_text};
ghost use Rattle.shared_core_base.specs.Error.{error_parts, suspended_parts, IsErrorOf};

use crate::header::MessageType;
use std::alloc::{AllocError, Global};
use std::borrow::CowStr;
use std::time::Duration;
use std::{error, fmt};

/// An allocation failed.
#[derive(Clone, Copy, Debug, PartialEq, Eq)]
pub struct OutOfMemory;

/// Prints `out of memory`.
impl fmt::Display for OutOfMemory {
    ghost output = { λ _. Some (codes "out of memory") };

    fn fmt<W: fmt::Write>(&self, f: &mut fmt::Formatter<W>) -> fmt::Result {
        f.write_str("out of memory")
    }
}

impl error::Error for OutOfMemory {}

impl From<AllocError> for OutOfMemory {
    ghost use Rattle.std.specs.Prelude.{⊤};

    ghost from_gives = { λ _ _. ⊤ };

    fn from(_error: AllocError) -> OutOfMemory {
        OutOfMemory
    }
}

/// The code of an error, as of HTTP statuses. It prints as its number, by `Debug` too.
#[derive(Clone, Copy, PartialEq, Eq)]
pub struct InvocationErrorCode(u16);

impl InvocationErrorCode {
    /// The code of this number.
    pub fn new(code: u16) -> InvocationErrorCode
        ensures { result ≡ record { 0 = code } }
    {
        InvocationErrorCode(code)
    }

    /// The number.
    pub fn code(self) -> u16
        ensures { result ≡ self.0 }
    {
        self.0
    }
}

impl fmt::Debug for InvocationErrorCode {
    ghost debug_output = { λ code. Some (decimal code.0) };

    fn fmt<W: fmt::Write>(&self, f: &mut fmt::Formatter<W>) -> fmt::Result {
        let code = self.0;
        write!(f, "{code}")
    }
}

impl fmt::Display for InvocationErrorCode {
    ghost output = { λ code. Some (decimal code.0) };

    fn fmt<W: fmt::Write>(&self, f: &mut fmt::Formatter<W>) -> fmt::Result {
        let code = self.0;
        write!(f, "{code}")
    }
}

impl From<u16> for InvocationErrorCode {
    ghost from_gives = { λ number code. code ≡ record { 0 = number } };

    fn from(number: u16) -> InvocationErrorCode {
        InvocationErrorCode(number)
    }
}

/// A number above 65,535 is not a code, and denotes `INTERNAL`.
impl From<u32> for InvocationErrorCode {
    ghost from_gives = { λ number code. code ≡ record { 0 = code_of_number number } };

    fn from(number: u32) -> InvocationErrorCode {
        match u16::try_from(number) {
            Ok(code) => InvocationErrorCode(code),
            Err(_) => codes::INTERNAL,
        }
    }
}

impl From<InvocationErrorCode> for u16 {
    ghost from_gives = { λ code number. number ≡ code.0 };

    fn from(code: InvocationErrorCode) -> u16 {
        code.0
    }
}

impl From<InvocationErrorCode> for u32 {
    ghost from_gives = { λ code number. number ≡ code.0 };

    fn from(code: InvocationErrorCode) -> u32 {
        u32::from(code.0)
    }
}

/// The codes that the protocol gives.
pub mod codes {
    use super::InvocationErrorCode;

    /// The request is wrong.
    pub const BAD_REQUEST: InvocationErrorCode = InvocationErrorCode(400);

    /// There is no content type, or one of no supported version.
    pub const UNSUPPORTED_MEDIA_TYPE: InvocationErrorCode = InvocationErrorCode(415);

    /// Something failed that has no code of its own, as an allocation.
    pub const INTERNAL: InvocationErrorCode = InvocationErrorCode(500);

    /// The code does not do what the journal has.
    pub const JOURNAL_MISMATCH: InvocationErrorCode = InvocationErrorCode(570);

    /// A message is malformed, missing, or of a type that may not come where it does.
    pub const PROTOCOL_VIOLATION: InvocationErrorCode = InvocationErrorCode(571);

    /// Two results are awaited at once.
    pub const AWAITING_TWO_ASYNC_RESULTS: InvocationErrorCode = InvocationErrorCode(572);

    /// The negotiated version lacks a feature that is used.
    pub const UNSUPPORTED_FEATURE: InvocationErrorCode = InvocationErrorCode(573);

    /// A call was made on a state machine that is closed.
    pub const CLOSED: InvocationErrorCode = InvocationErrorCode(598);

    /// The invocation is suspended.
    pub const SUSPENDED: InvocationErrorCode = InvocationErrorCode(599);
}

/// What the service does with an invocation that failed.
#[derive(Clone, Copy, Debug, PartialEq, Eq)]
pub enum ErrorBehavior {
    /// It retries the invocation.
    Retry,
    /// It pauses the invocation.
    Pause,
}

/// The number by which the protocol names the behavior: 0 for `Retry`, 1 for `Pause`.
impl From<ErrorBehavior> for i32 {
    ghost from_gives = { λ behavior number. number ≡ behavior_number behavior };

    fn from(behavior: ErrorBehavior) -> i32 {
        match behavior {
            ErrorBehavior::Retry => 0,
            ErrorBehavior::Pause => 1,
        }
    }
}

/// A command of the journal, as an error names it.
#[derive(Debug, Drop, PartialEq, Eq)]
pub struct CommandMetadata {
    /// Its place among the commands, from 0.
    pub index: u32,
    /// Its type.
    pub ty: MessageType,
    /// The name that the user gave it, if any.
    pub name: Option<CowStr<'static>>,
}

impl CommandMetadata {
    /// A command without a name.
    pub fn new(index: u32, ty: MessageType) -> CommandMetadata
        ensures { result ≡ record { index = index; ty = ty; name = None } }
    {
        CommandMetadata {
            index,
            ty,
            name: None,
        }
    }

    /// A command with a name.
    pub fn new_named(name: CowStr<'static>, index: u32, ty: MessageType) -> CommandMetadata
        ensures { result ≡ record { index = index; ty = ty; name = Some name.entry } }
    {
        CommandMetadata {
            index,
            ty,
            name: Some(name),
        }
    }
}

/// Prints the type and the name, as `sleep [nap]`, or the index where there is no name, as `sleep [3]`.
impl fmt::Display for CommandMetadata {
    ghost output = { λ command. Some (command_metadata_text command) };

    fn fmt<W: fmt::Write>(&self, f: &mut fmt::Formatter<W>) -> fmt::Result {
        let ty = self.ty;
        match &self.name {
            Some(name) => write!(f, "{ty} [{name}]"),
            None => {
                let index = self.index;
                write!(f, "{ty} [{index}]")
            }
        }
    }
}

/// A notification, as an error names it.
#[derive(Debug, Drop, PartialEq, Eq)]
pub enum NotificationMetadata {
    /// The result of this command.
    RelatedToCommand(CommandMetadata),
    /// The completion of the awakeable with this id.
    Awakeable(String),
    /// The cancellation of the invocation.
    Cancellation,
}

/// Prints the command's metadata, `Awakeable` and the id, or `Cancellation`.
impl fmt::Display for NotificationMetadata {
    ghost output = { λ notification. Some (notification_metadata_text notification) };

    fn fmt<W: fmt::Write>(&self, f: &mut fmt::Formatter<W>) -> fmt::Result {
        match self {
            NotificationMetadata::RelatedToCommand(command) => write!(f, "{command}"),
            NotificationMetadata::Awakeable(id) => write!(f, "Awakeable {id}"),
            NotificationMetadata::Cancellation => f.write_str("Cancellation"),
        }
    }
}

/// The error that an invocation ends with: a code and a message, and what the service is given in addition to them.
#[derive(Debug, Drop, PartialEq, Eq)]
pub struct Error {
    code: u16,
    message: CowStr<'static>,
    related_command: Option<CommandMetadata>,
    next_retry_delay: Option<Duration>,
    behavior: ErrorBehavior,
}

impl Error {
    /// An error of this code and this message, which is retried. It has no delay, and names no command.
    pub fn new(code: u16, message: CowStr<'static>) -> Error
        ensures { result ≡ record {
          code = code;
          message = message.entry;
          related_command = None;
          next_retry_delay = None;
          behavior = ErrorBehavior.Retry;
        } }
    {
        Error {
            code,
            message,
            related_command: None,
            next_retry_delay: None,
            behavior: ErrorBehavior::Retry,
        }
    }

    /// An error of the code `INTERNAL`, otherwise as `new` returns it.
    pub fn internal(message: CowStr<'static>) -> Error
        ensures { result ≡ record {
          code = 500;
          message = message.entry;
          related_command = None;
          next_retry_delay = None;
          behavior = ErrorBehavior.Retry;
        } }
    {
        Error::new(codes::INTERNAL.code(), message)
    }

    /// The number of the code.
    pub fn code(&self) -> u16
        ensures { result ≡ self.now.code }
    {
        self.code
    }

    /// The message.
    pub fn message(&self) -> &str
        ensures { result.now ≡ cow_str_bytes self.now.message }
    {
        self.message.as_str()
    }

    /// The command that the error is about, if it names one.
    pub fn related_command(&self) -> Option<&CommandMetadata>
        ensures { option_copied result ≡ self.now.related_command }
    {
        self.related_command.as_ref()
    }

    /// How long the service waits before the next retry, if the error has a delay.
    pub fn next_retry_delay(&self) -> Option<Duration>
        ensures { result ≡ self.now.next_retry_delay }
    {
        self.next_retry_delay
    }

    /// What the service does with the invocation.
    pub fn behavior(&self) -> ErrorBehavior
        ensures { result ≡ self.now.behavior }
    {
        self.behavior
    }

    /// The error with this delay before the next retry.
    pub fn with_next_retry_delay_override(mut self, delay: Duration) -> Error
        ensures { result ≡ record self { next_retry_delay = Some delay } }
    {
        self.next_retry_delay = Some(delay);
        self
    }

    /// The error that pauses the invocation, or retries it where `should_pause` is false. A pause needs version 7 or
    /// later.
    pub fn with_should_pause(mut self, should_pause: bool) -> Error
        ensures { result ≡ record self {
          behavior = if should_pause then ErrorBehavior.Pause else ErrorBehavior.Retry;
        } }
    {
        self.behavior = if should_pause {
            ErrorBehavior::Pause
        } else {
            ErrorBehavior::Retry
        };
        self
    }

    /// The error that names this command.
    pub fn with_related_command_metadata(mut self, related_command: CommandMetadata) -> Error
        ensures { result ≡ record self { related_command = Some related_command } }
    {
        self.related_command = Some(related_command);
        self
    }

    /// Whether this is the error that `suspended` returns, in each of its parts.
    pub fn is_suspended_error(&self) -> bool
        ensures { IsTrue result ↔ (error_parts self.now ≡ suspended_parts) }
    {
        *self == suspended()
    }
}

/// Prints `(code) message`, and after it, where the error names a command, a line feed and `Related command: ` with its
/// metadata.
impl fmt::Display for Error {
    ghost output = { λ error. Some (error_text error) };

    fn fmt<W: fmt::Write>(&self, f: &mut fmt::Formatter<W>) -> fmt::Result {
        let code = self.code;
        let message = self.message.as_str();
        let related_command = RelatedCommand(&self.related_command);
        write!(f, "({code}) {message}{related_command}")
    }
}

impl error::Error for Error {}

/// Prints the line of the command that an error names, or nothing.
#[derive(Clone, Copy)]
struct RelatedCommand<'a>(&'a Option<CommandMetadata>);

impl<'a> fmt::Display for RelatedCommand<'a> {
    ghost output = { λ related. Some (related_command_text related.0.now) };

    fn fmt<W: fmt::Write>(&self, f: &mut fmt::Formatter<W>) -> fmt::Result {
        match self.0 {
            Some(command) => write!(f, "\nRelated command: {command}"),
            None => Ok(()),
        }
    }
}

/// The error by which an invocation is suspended.
pub fn suspended() -> Error
    ensures { error_parts result ≡ suspended_parts }
{
    Error::new(
        codes::SUSPENDED.code(),
        CowStr::Borrowed("Suspended invocation"),
    )
}

/// The error of a code, whose message is the text that a value prints. It is retried, has no delay and names no
/// command.
pub fn error_of<T: fmt::Display>(
    alloc: Global,
    code: InvocationErrorCode,
    text: &T,
) -> Result<Error, OutOfMemory>
    ensures { IfOk result (IsErrorOf code.0 (T.output text.now)) }
{
    let message = text.to_string(alloc)?;
    Ok(Error::new(code.code(), CowStr::Owned(message)))
}
