//! The kinds of message types, and how types and unknown codes print.

ghost use Rattle.std.specs.Prelude.{◌≡◌, ◌≤◌, ◌<◌, IsTrue, Some, ◌↔◌};
ghost use Rattle.shared_core_base.specs.declared.header.MessageType.{MessageType as AnyType};
ghost use Rattle.shared_core_base.specs.MessageType.{IsNamed, allows_ack, code_of};
ghost use Rattle.shared_core_base.specs.MessageType.{named_types, type_in, variant_name_of};

use crate::command_type::CommandType;
use crate::header::MessageType;
use std::error::Error;
use std::fmt;
use std::marker::Model;

const FIRST_COMMAND: u16 = 0x0400;

const FIRST_NOTIFICATION: u16 = 0x8000;

const END_OF_NOTIFICATIONS: u16 = 0xFC00;

impl MessageType {
    /// The named type that has this name, as `SleepCommand`, the name that `variant_name` returns.
    // bytes, as callers in C have them; that they are UTF-8 follows where a type is found
    pub fn from_name(name: &[u8]) -> Option<MessageType>
        ensures { (ty : AnyType) → (result ≡ Some ty) ↔ (IsNamed ty × (variant_name_of ty ≡ name.now)) }
    {
        first_named(name)
    }

    /// Whether this is a command: its code is from 0x0400 to below 0x8000. Custom entries count by their code too.
    pub fn is_command(&self) -> bool
        ensures { IsTrue result ↔ ((0x0400 ≤ code_of self.now) × (code_of self.now < 0x8000)) }
    {
        (FIRST_COMMAND..FIRST_NOTIFICATION).contains(&u16::from(*self))
    }

    /// Whether this is a notification: its code is from 0x8000 to below 0xFC00. Custom entries count by their code too.
    pub fn is_notification(&self) -> bool
        ensures { IsTrue result ↔ ((0x8000 ≤ code_of self.now) × (code_of self.now < 0xFC00)) }
    {
        (FIRST_NOTIFICATION..END_OF_NOTIFICATIONS).contains(&u16::from(*self))
    }

    /// Whether a header of this type may request an acknowledgement: only that of `ProposeRunCompletion`.
    pub fn allows_ack(&self) -> bool
        ensures { result ≡ allows_ack self.now }
    {
        matches!(self, MessageType::ProposeRunCompletion)
    }

    /// The name of the variant, for printing: a custom entry prints as `CustomEntry(64513)`.
    pub fn debug_name(&self) -> DebugName
        ensures { result ≡ self.now }
    {
        DebugName(*self)
    }
}

/// The first of the named types that has this name.
fn first_named(name: &[u8]) -> Option<MessageType>
    ensures { result ≡ type_in named_types name.now }
{
    for ty in MessageType::named() {
        if ty.variant_name().as_bytes() == name {
            return Some(*ty);
        }
    }
    None
}

/// Prints the text of the type's command where `CommandType::try_from` succeeds, as `get state`, else the debug name,
/// as `CustomEntry(64513)`.
impl fmt::Display for MessageType {
    ghost use Rattle.std.specs.Prelude.{Some};
    ghost use Rattle.shared_core_base.specs.CommandType.{message_type_text};

    ghost output = { λ ty. Some (message_type_text ty) };

    fn fmt<W: fmt::Write>(&self, f: &mut fmt::Formatter<W>) -> fmt::Result {
        match CommandType::try_from(*self) {
            Ok(command) => write!(f, "{command}"),
            Err(ty) => write!(f, "{}", ty.debug_name()),
        }
    }
}

/// Prints the name of a message type's variant. A contract sees the type.
#[derive(Clone, Copy, Debug)]
pub struct DebugName(MessageType);

impl Model for DebugName {
    ghost use Rattle.shared_core_base.specs.declared.header.MessageType.{MessageType};

    ghost Value = { MessageType };

    ghost view = { λ name. name.0 };

    ghost inverse = { λ ty. record { 0 = ty } };
}

impl fmt::Display for DebugName {
    ghost use Rattle.std.specs.Prelude.{Some};
    ghost use Rattle.shared_core_base.specs.MessageType.{debug_name_of};

    ghost output = { λ ty. Some (debug_name_of ty) };

    fn fmt<W: fmt::Write>(&self, f: &mut fmt::Formatter<W>) -> fmt::Result {
        match self.0 {
            MessageType::CustomEntry(code) => write!(f, "CustomEntry({code})"),
            ty => f.write_str(ty.variant_name()),
        }
    }
}

/// A code that denotes no message type: no named type has it, and none of its upper six bits is set.
#[derive(Debug, Drop)]
pub struct UnknownMessageType(pub(crate) u16);

impl UnknownMessageType {
    /// The code that was rejected.
    pub fn code(&self) -> u16
        ensures { result ≡ self.now.0 }
    {
        self.0
    }
}

impl fmt::Display for UnknownMessageType {
    ghost use Rattle.std.specs.Prelude.{Some};
    ghost use Rattle.shared_core_base.specs.MessageType.{unknown_type_text};

    ghost output = { λ unknown. Some (unknown_type_text unknown.0) };

    fn fmt<W: fmt::Write>(&self, f: &mut fmt::Formatter<W>) -> fmt::Result {
        let code = self.0;
        write!(f, "unknown protocol.message code 0x{code:x}")
    }
}

impl Error for UnknownMessageType {}
