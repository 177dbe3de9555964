//! The forms of commands: bytes that are the same if and only if the commands are, made once, so that commands which
//! are compared often are not decoded each time.
//!
//! The form of a command is the canonical payload of what of it is compared. Mostly that is its own payload, which is
//! shared. Otherwise it is decoded and encoded again: where it is not canonical, or something of it is not compared.

ghost use Rattle.std.specs.Prelude.{IfOk, IsTrue};
ghost use Rattle.std.specs.Option.{IsSomeAnd};
ghost use Rattle.shared_core_codec.specs.Canonicity.{IsCanonical};
ghost use Rattle.shared_core_message.specs.Messages.{message_schema};
ghost use Rattle.replay_bench.specs.Forms.{HasForm, HaveForms, IsForm};

use crate::erasures::{erased_form, is_compared_whole};
use crate::journals::Ignored;
use bytes::Bytes;
use shared_core::encoding::RawMessage;
use shared_core::messages::schema_at;
use shared_core::version::Version;
use shared_core_fields::fields::CanonicalPayload;
use std::alloc::{AllocError, Global};

/// The form of a command.
#[derive(Drop)]
pub(crate) enum Form {
    /// These bytes.
    Known(Bytes),
    /// The payload is not well-formed, and the command is the same as no other.
    Malformed,
    /// It would be longer than a payload may be; or it is of no command.
    Unknown,
}

/// The forms of commands, one for each.
#[tactic(auto, using(crate::proofs::EqualForms::one_more_form))]
pub(crate) fn forms(
    alloc: Global,
    commands: &[RawMessage],
    ignore: Ignored,
) -> Result<Vec<Form>, AllocError>
    ensures { IfOk result (λ forms. HaveForms ignore commands.now forms.items) }
{
    let mut forms = Vec::new(alloc);
    for command in commands {
        forms.push(form_of(alloc, command, ignore)?)?;
    }
    Ok(forms)
}

/// The form of a command.
fn form_of(alloc: Global, command: &RawMessage, ignore: Ignored) -> Result<Form, AllocError>
    ensures { IfOk result (HasForm ignore command.now) }
{
    if is_own_form(command, ignore) {
        return Ok(Form::Known(command.payload().clone()?));
    }
    erased_form(alloc, command, ignore)
}

/// Whether the payload of a command is its form: it is canonical, and all of it is compared.
fn is_own_form(command: &RawMessage, ignore: Ignored) -> bool
    ensures { IsTrue result → IsSomeAnd (message_schema command.now.header.ty)
        (IsForm ignore command.now.payload command.now.payload) }
{
    if is_compared_whole(command.ty(), ignore) {
        return is_canonical_command(command);
    }
    false
}

/// Whether the payload of a command is canonical for its type.
fn is_canonical_command(command: &RawMessage) -> bool
    ensures { IsTrue result → IsSomeAnd (message_schema command.now.header.ty)
        (λ s. IsCanonical s command.now.payload) }
{
    // a command has one schema at all versions
    match schema_at(Version::V7, command.ty()) {
        Some(schema) => CanonicalPayload::check(schema, command.payload().as_slice()).is_some(),
        None => false,
    }
}
