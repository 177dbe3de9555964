//! The error of a call on a closed state machine, and the formatters that print it.
//!
//! The body that `ErrorFormatter` provides is proved once for every impl, so no clause can bind an impl to nothing but
//! a text of its own. An impl names its texts (`closed_texts`), and the default text is always allowed in addition. One
//! that names none is exact. That a formatter's own text comes in place of the default one is tested.

ghost use Rattle.std.specs.Prelude.{◌≡◌, IfOk, Some};
ghost use Rattle.std.specs.String.{string_bytes};
ghost use Rattle.shared_core_base.specs.Error.{IsErrorOf};
ghost use Rattle.shared_core_errors.specs.Closed.{closed_text, IsClosedText, WritesSome};

use shared_core_base::error::{Error, InvocationErrorCode, OutOfMemory, codes, error_of};
use std::alloc::Global;
use std::fmt::Formatter;
use std::{error, fmt};

/// Writes errors in its own form, or as they print.
pub trait ErrorFormatter: fmt::Debug {
    ghost use Rattle.std.specs.Prelude.{List, ℕ};

    /// The texts of its own that it may write for an event. An impl that names none writes the default text.
    ghost closed_texts: { Self → List ℕ → List ℕ → Type 0 } = { λ _ _ _. ⊥ };

    /// Writes that the state machine was closed when `event` was invoked. Fails if the writer fails.
    fn display_closed_error<W: fmt::Write>(&self, f: &mut Formatter<W>, event: &str) -> fmt::Result
        ensures { WritesSome W.write_str_gives f.old result (IsClosedText (closed_texts self.now) event.now) f.new }
    {
        write!(f, "State machine was closed when invoking '{event}'")
    }
}

/// Writes errors as they print.
#[derive(Debug, Drop)]
pub struct DefaultErrorFormatter;

impl ErrorFormatter for DefaultErrorFormatter {}

/// The state machine was closed when something was invoked.
#[derive(Debug, Drop)]
pub struct ClosedError {
    event: String,
}

impl ClosedError {
    /// The name of the call.
    pub fn new(event: String) -> ClosedError
        ensures { result ≡ record { event = event } }
    {
        ClosedError { event }
    }

    /// Writes the error in a formatter's form. Fails if the writer fails.
    pub fn print_with<F: ErrorFormatter, W: fmt::Write>(
        &self,
        formatter: &F,
        f: &mut Formatter<W>,
    ) -> fmt::Result
        ensures { WritesSome W.write_str_gives f.old result
            (IsClosedText (F.closed_texts formatter.now) (string_bytes self.now.event)) f.new }
    {
        formatter.display_closed_error(f, self.event.as_str())
    }

    /// The code, `CLOSED`.
    pub fn code(&self) -> InvocationErrorCode
        ensures { result.0 ≡ 598 }
    {
        codes::CLOSED
    }

    /// The error with this code and this text.
    pub fn to_error(&self, alloc: Global) -> Result<Error, OutOfMemory>
        ensures { IfOk result (IsErrorOf 598 (Some (closed_text (string_bytes self.now.event)))) }
    {
        error_of(alloc, self.code(), self)
    }
}

/// Prints as the default formatter writes it.
impl fmt::Display for ClosedError {
    ghost output = { λ error. Some (closed_text (string_bytes error.event)) };

    fn fmt<W: fmt::Write>(&self, f: &mut Formatter<W>) -> fmt::Result {
        self.print_with(&DefaultErrorFormatter, f)
    }
}

impl error::Error for ClosedError {}
