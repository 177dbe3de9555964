//! The versions of the protocol, and the content types that name them.
//!
//! For contracts a content type is one prefix and a version's number, so a further version is one more row of
//! `version_number`; only this file has the texts, and a law reads each version again from its own.

ghost use Rattle.std.specs.Prelude.{◌≡◌, ◌↔◌, ◌≤◌, IfOk, Some, decimal, map};
ghost use Rattle.shared_core_base.specs.Version.{
  version_number,
  supported_version,
  supported_versions,
  skips_unknown_messages,
  has_flat_suspensions,
  requests_acknowledgement,
};
ghost use Rattle.shared_core_base.specs.Version.{
  content_type_of,
  ReadsVersion,
  RejectsContentType,
  content_type_error_code,
  content_type_error_text,
};
ghost use Rattle.shared_core_base.specs.Error.{IsErrorOf};
ghost use Rattle.shared_core_base.specs.declared.version.Version.{Version as AnyVersion};

use crate::error::{Error, InvocationErrorCode, OutOfMemory, codes, error_of};
use crate::text::copy_text;
use std::alloc::Global;
use std::fmt::Display;
use std::{error, fmt};

/// A version of the protocol, ordered by its number. The first that is supported is V5.
#[derive(Clone, Copy, Debug, PartialEq, Eq, PartialOrd, Ord)]
pub enum Version {
    V1,
    V2,
    V3,
    V4,
    V5,
    V6,
    V7,
    V8,
    V9,
}

const RESTATE_CONTENT_TYPES: &str = "application/vnd.restate.invocation.";

impl Version {
    /// The content type that names the version, as `application/vnd.restate.invocation.v5`.
    #[tactic(auto, using(std::proofs::lemmas::Fmt::decimal_digit))]
    pub fn content_type(&self) -> &'static str
        ensures { result.now ≡ content_type_of self.now }
    {
        match self {
            Version::V1 => "application/vnd.restate.invocation.v1",
            Version::V2 => "application/vnd.restate.invocation.v2",
            Version::V3 => "application/vnd.restate.invocation.v3",
            Version::V4 => "application/vnd.restate.invocation.v4",
            Version::V5 => "application/vnd.restate.invocation.v5",
            Version::V6 => "application/vnd.restate.invocation.v6",
            Version::V7 => "application/vnd.restate.invocation.v7",
            Version::V8 => "application/vnd.restate.invocation.v8",
            Version::V9 => "application/vnd.restate.invocation.v9",
        }
    }

    /// The first supported version.
    pub fn minimum_supported_version() -> Version
        ensures { result ≡ Version.V5 }
    {
        Version::V5
    }

    /// The last version.
    pub fn maximum_supported_version() -> Version
        ensures { result ≡ Version.V9 }
    {
        Version::V9
    }

    /// The version's number: 5 for V5.
    pub fn number(self) -> u32
        ensures { result ≡ version_number self }
    {
        match self {
            Version::V1 => 1,
            Version::V2 => 2,
            Version::V3 => 3,
            Version::V4 => 4,
            Version::V5 => 5,
            Version::V6 => 6,
            Version::V7 => 7,
            Version::V8 => 8,
            Version::V9 => 9,
        }
    }

    /// The supported version that has this number.
    #[tactic(auto, using(crate::proofs::Versions::supported_version_is))]
    pub fn from_number(number: u32) -> Option<Version>
        ensures supported { result ≡ supported_version number }
        ensures exact { (version : AnyVersion) → (result ≡ Some version)
            ↔ ((number ≡ version_number version) × (5 ≤ version_number version)) }
    {
        match number {
            5 => Some(Version::V5),
            6 => Some(Version::V6),
            7 => Some(Version::V7),
            8 => Some(Version::V8),
            9 => Some(Version::V9),
            _ => None,
        }
    }

    /// The numbers of the supported versions in digits, for the arguments of programs.
    #[tactic(auto, using(std::proofs::lemmas::Fmt::decimal_digit))]
    pub fn supported_numbers() -> &'static [&'static str]
        ensures { map (λ digits. digits.now) result.now
            ≡ map (λ version. decimal (version_number version)) supported_versions }
    {
        &["5", "6", "7", "8", "9"]
    }

    /// Whether a message of an unknown type is skipped with its payload: from V9 on. Before, only its header is.
    pub fn skips_unknown_messages(self) -> bool
        ensures { result ≡ skips_unknown_messages self }
    {
        self >= Version::V9
    }

    /// Whether a suspension has three lists of all futures that are awaited, and not their tree: before V7.
    pub fn has_flat_suspensions(self) -> bool
        ensures { result ≡ has_flat_suspensions self }
    {
        self < Version::V7
    }

    /// Whether the proposal of a run's result requests an acknowledgement in its header: from V7 on.
    pub fn requests_acknowledgement(self) -> bool
        ensures { result ≡ requests_acknowledgement self }
    {
        self >= Version::V7
    }

    /// Reads the content type of a version.
    ///
    /// A text that names no version is rejected, and is returned in the error: `RestateContentType` where it begins as
    /// a content type of the protocol does, else `OtherContentType`. `OutOfMemory` comes only where such a text cannot
    /// be kept, and never for an empty one.
    #[tactic(auto, using(std::proofs::lemmas::Fmt::decimal_digit))]
    pub fn from_str(alloc: Global, text: &str) -> Result<Version, ContentTypeError>
        ensures { ReadsVersion text.now result }
    {
        match text {
            "application/vnd.restate.invocation.v1" => Ok(Version::V1),
            "application/vnd.restate.invocation.v2" => Ok(Version::V2),
            "application/vnd.restate.invocation.v3" => Ok(Version::V3),
            "application/vnd.restate.invocation.v4" => Ok(Version::V4),
            "application/vnd.restate.invocation.v5" => Ok(Version::V5),
            "application/vnd.restate.invocation.v6" => Ok(Version::V6),
            "application/vnd.restate.invocation.v7" => Ok(Version::V7),
            "application/vnd.restate.invocation.v8" => Ok(Version::V8),
            "application/vnd.restate.invocation.v9" => Ok(Version::V9),
            _ => Err(unsupported(alloc, text)),
        }
    }
}

/// Why a text that names no version is rejected.
#[tactic(auto, using(std::proofs::lemmas::Str::Pattern::starts_text))]
fn unsupported(alloc: Global, text: &str) -> ContentTypeError
    ensures { RejectsContentType text.now result }
{
    match copy_text(alloc, text) {
        Ok(kept) => {
            if text.starts_with(RESTATE_CONTENT_TYPES) {
                ContentTypeError::RestateContentType(kept)
            } else {
                ContentTypeError::OtherContentType(kept)
            }
        }
        Err(_) => ContentTypeError::OutOfMemory,
    }
}

/// Prints the content type.
impl Display for Version {
    ghost output = { λ version. Some (content_type_of version) };

    fn fmt<W: fmt::Write>(&self, f: &mut fmt::Formatter<W>) -> fmt::Result {
        f.write_str(self.content_type())
    }
}

/// Why a content type names no supported version.
#[derive(Debug, Drop)]
pub enum ContentTypeError {
    /// The text is a content type of the protocol, of a version that is not supported.
    RestateContentType(String),
    /// The text is not a content type of the protocol.
    OtherContentType(String),
    /// The text names no version, and the allocation to keep it failed.
    OutOfMemory,
}

impl ContentTypeError {
    /// The code: `UNSUPPORTED_MEDIA_TYPE` where the text was rejected, `INTERNAL` for a failed allocation.
    pub fn code(&self) -> InvocationErrorCode
        ensures { result.0 ≡ content_type_error_code self.now }
    {
        match self {
            ContentTypeError::RestateContentType(_) | ContentTypeError::OtherContentType(_) => {
                codes::UNSUPPORTED_MEDIA_TYPE
            }
            ContentTypeError::OutOfMemory => codes::INTERNAL,
        }
    }

    /// The error with this code and this text.
    pub fn to_error(&self, alloc: Global) -> Result<Error, OutOfMemory>
        ensures { IfOk result (IsErrorOf (content_type_error_code self.now) (Some (content_type_error_text self.now))) }
    {
        error_of(alloc, self.code(), self)
    }
}

/// Prints the text that was rejected, and why.
impl Display for ContentTypeError {
    ghost output = { λ error. Some (content_type_error_text error) };

    fn fmt<W: fmt::Write>(&self, f: &mut fmt::Formatter<W>) -> fmt::Result {
        match self {
            ContentTypeError::RestateContentType(kept) => {
                write!(f, "unsupported protocol version '{kept}'")
            }
            ContentTypeError::OtherContentType(kept) => write!(
                f,
                "unrecognized content-type '{kept}', this is not a restate protocol content type. Make sure you're invoking the service though restate-server, rather than directly."
            ),
            ContentTypeError::OutOfMemory => f.write_str("out of memory"),
        }
    }
}

impl error::Error for ContentTypeError {}
