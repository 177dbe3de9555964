//! What identifies a command within its type.

ghost use Rattle.std.specs.Prelude.{◌≡◌, IfOk, option_map};
ghost use Rattle.std.specs.String.{string_bytes};
ghost use Rattle.replay_bench.specs.Fields.{listed_texts};
ghost use Rattle.replay_bench.specs.Keys.{first_key, HasKey, is_key_name, IsKeyOf};

use crate::fields::{FieldDifference, list_fields};
use shared_core::CommandType;
use shared_core::encoding::{DecodeMessage, RawMessage};
use shared_core::messages::{CommandMessage, CommandVisitor, visit_command};
use shared_core::wire::WireError;
use std::alloc::{AllocError, Global};

/// What identifies a command within its type, as the text of a mismatch prints it. It is its key, the handler that it
/// calls, the id of its awakeable, or the name that it was given. `None` if these are empty, if its type has none of
/// them, and if its payload is not well-formed.
pub fn command_key(alloc: Global, command: &RawMessage) -> Result<Option<String>, AllocError>
    ensures { IfOk result (λ key. HasKey command.now (option_map string_bytes key)) }
{
    let Ok(_) = CommandType::try_from(command.ty()) else {
        return Ok(None);
    };
    match visit_command(command.ty(), Keyed { alloc, command }) {
        Some(key) => key,
        // the type is a command's
        None => unreachable!(),
    }
}

/// A command.
#[derive(Drop)]
struct Keyed<'a> {
    alloc: Global,
    command: &'a RawMessage,
}

impl<'a> CommandVisitor for Keyed<'a> {
    type Output = Result<Option<String>, AllocError>;

    ghost may_visit = { λ self ty. self.command.now.header.ty ≡ ty };

    ghost results = { λ self ty schema output.
        IfOk output (λ key. IsKeyOf self.command.now.payload (option_map string_bytes key) schema) };

    fn visit<M: CommandMessage>(self) -> Result<Option<String>, AllocError> {
        let command = match self.command.decode_as::<M>(self.alloc) {
            Ok(command) => command,
            Err(WireError::Malformed) => return Ok(None),
            Err(WireError::OutOfMemory) => return Err(AllocError),
        };
        match list_fields(self.alloc, true, &command, &M::empty(self.alloc)) {
            Ok(fields) => first_key(fields.as_slice()),
            Err(_) => Err(AllocError),
        }
    }
}

/// What the first field of a name that says so prints in the recorded command, if there is any.
fn first_key(fields: &[FieldDifference]) -> Result<Option<String>, AllocError>
    ensures { IfOk result (λ key. option_map string_bytes key ≡ first_key (listed_texts fields.now)) }
{
    let mut left = fields;
    while let [field, rest @ ..] = left {
        if is_key_name(field.name) {
            return Ok(Some(field.recorded.clone()?));
        }
        left = rest;
    }
    Ok(None)
}

/// Whether a field of this name identifies a command within its type.
fn is_key_name(name: &str) -> bool
    ensures { result ≡ is_key_name name.now }
{
    name == "key" || name == "handler_name" || name == "awakeable_id" || name == "name"
}
