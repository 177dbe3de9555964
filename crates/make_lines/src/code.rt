//! The code of the item that a line describes, and its type.

ghost use Rattle.std.specs.Prelude.{◌≡◌, Some, Ok, IfOk, MatchResult, option_and_then};
ghost use Rattle.shared_core_base.specs.MessageType.{type_of};
ghost use Rattle.make_lines.specs.Making.{making, schema_of};
ghost use Rattle.make_lines.specs.Lines.{code_read, name_read, code_named, is_name_of, code_if, line_code, has_flag};
ghost use Rattle.make_lines.specs.Appending.{Rejects, RejectsAnywhere};

use crate::error::LineReason;
use crate::line_table::LineTable;
use crate::members::{CODE, LINE, Line, TYPE};
use crate::reject::Fault;
use json_table::Node;
use shared_core_base::header::MessageType;
use shared_core_base::version::Version;
use shared_core_json_reader::{Reason, read_u32};
use std::alloc::{AllocError, Global};

/// The code that a value is.
fn read_code(value: &Node<'_, '_>) -> Result<u16, Fault>
    ensures { MatchResult result (λ code. code_read value.now ≡ Ok code)
        (RejectsAnywhere (code_read value.now)) }
{
    match read_u32(value) {
        Ok(code) if code < 65536 => Ok(code as u16),
        Ok(_) => Err(Fault::at(CODE, LineReason::Json(Reason::OutOfRange))),
        Err(reason) => Err(Fault::at(CODE, LineReason::Json(reason))),
    }
}

/// The name that a value is.
fn read_name<'a>(value: &Node<'_, 'a>) -> Result<&'a str, Fault>
    ensures { MatchResult result (λ name. name_read value.now ≡ Ok name.now)
        (RejectsAnywhere (name_read value.now)) }
{
    match value.as_str() {
        Some(name) => Ok(name),
        None => Err(Fault::at(TYPE, LineReason::Json(Reason::WrongKind))),
    }
}

/// The code of the named type that has this name.
fn code_named(name: &[u8]) -> Option<u16>
    ensures { result ≡ code_named name.now }
{
    match MessageType::from_name(name) {
        Some(ty) => Some(u16::from(ty)),
        None => None,
    }
}

/// Whether this is the name of a type.
fn is_name_of(alloc: Global, ty: MessageType, name: &str) -> Result<bool, AllocError>
    ensures { IfOk result (λ is. is ≡ is_name_of (Some ty) name.now) }
{
    match ty {
        MessageType::CustomEntry(_) => {
            let printed = ty.debug_name().to_string(alloc)?;
            Ok(printed.as_str() == name)
        }
        ty => Ok(ty.variant_name() == name),
    }
}

/// The code of an item, and the type that has it, if there is one.
#[derive(Clone, Copy, Drop)]
pub struct Coded {
    pub code: u16,
    pub ty: Option<MessageType>,
    ghost typed: { ty ≡ type_of code },
}

impl Coded {
    /// A code with its type.
    fn new(code: u16) -> Coded
        ensures { result.code ≡ code }
    {
        match MessageType::try_from(code) {
            Ok(ty) => Coded { code, ty: Some(ty) },
            Err(_) => Coded { code, ty: None },
        }
    }

    /// The same, if its type has this name.
    fn if_named(self, alloc: Global, name: &str) -> Result<Coded, Fault>
        ensures { MatchResult result (λ coded. code_if self.code name.now ≡ Ok coded.code)
            (RejectsAnywhere (code_if self.code name.now)) }
    {
        let Some(ty) = self.ty else {
            return Err(Fault::at(TYPE, LineReason::OtherType));
        };
        match is_name_of(alloc, ty, name) {
            Ok(true) => Ok(self),
            Ok(false) => Err(Fault::at(TYPE, LineReason::OtherType)),
            Err(_) => Err(Fault::out_of_memory()),
        }
    }

    /// The schema of the messages that have the code.
    pub fn schema<M: LineTable>(self, version: Version, messages: &M) -> Option<u32>
        ensures { result ≡ option_and_then (schema_of (making (M.messages messages.now) version)) (type_of self.code) }
    {
        match self.ty {
            Some(ty) => messages.schema_of(version, ty),
            None => None,
        }
    }

    /// Whether headers of the type can request an acknowledgement.
    pub fn has_flag(self) -> bool
        ensures { result ≡ has_flag (type_of self.code) }
    {
        match self.ty {
            Some(ty) => ty.allows_ack(),
            None => false,
        }
    }
}

/// The code of a line, by its type and its code.
pub fn code_of(alloc: Global, line: &Line<'_, '_>) -> Result<Coded, Fault>
    ensures { MatchResult result (λ coded. line_code line.now ≡ Ok coded.code)
        (Rejects line.now (line_code line.now)) }
{
    match (line.given(TYPE), line.given(CODE)) {
        (None, None) => Err(Fault::at(LINE, LineReason::NoType)),
        (Some(ty), None) => match code_named(read_name(&ty)?.as_bytes()) {
            Some(code) => Ok(Coded::new(code)),
            None => Err(Fault::at(TYPE, LineReason::UnknownType)),
        },
        (None, Some(code)) => Ok(Coded::new(read_code(&code)?)),
        (Some(ty), Some(code)) => {
            let coded = Coded::new(read_code(&code)?);
            coded.if_named(alloc, read_name(&ty)?)
        }
    }
}
