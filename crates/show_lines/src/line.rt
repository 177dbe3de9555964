//! The text by which lines name an item.

ghost use Rattle.std.specs.Prelude.{◌≡◌, ◌++◌, Ok, IfErr, OnOk, IfOk};
ghost use Rattle.std.specs.String.{string_bytes};
ghost use Rattle.show_lines.specs.Contents.{held_text, held_view, type_text};
ghost use Rattle.show_lines.specs.Lines.{held_facts, item_facts, item_name};
ghost use Rattle.show_lines.specs.Showing.{IsLong};
ghost use Rattle.stream_lines.specs.Printing.{IsLack};

use crate::contents::{push_bytes, push_fields};
use crate::facts::{Facts, Role, facts_of, role_of};
use crate::held::{Held, Payloads};
use crate::scratch::Scratch;
use dump_lines::Canonicalizer;
use shared_core_stream::encoding::Item;
use std::alloc::AllocError;
use stream_lines::PrintError;

/// Overwrites the name with that of an item, and returns what is known of it. The canonical payload may be overwritten
/// too. After an error the name is unspecified.
pub fn write_name<C: Canonicalizer>(
    payloads: &Payloads<'_, C>,
    index: u128,
    item: &Item,
    scratch: &mut Scratch,
) -> Result<Facts, PrintError>
    ensures text { OnOk result (string_bytes scratch.new.name ≡ item_name payloads.now.version index item.now) }
    ensures facts { IfOk result (λ facts. facts ≡ item_facts payloads.now.version item.now) }
    ensures lack { IfErr result (IsLack (IsLong payloads.now.version item.now)) }
{
    let Scratch {
        name: line,
        canonical,
        ..
    } = scratch;
    line.clear();
    write!(line, "#{index} ")?;
    push_type(line, item)?;
    match item {
        Item::Message(message) => {
            let ty = message.ty();
            let held = payloads.held_by(ty, message.payload(), canonical)?;
            let role = role_of(ty);
            push_held(line, role, held)?;
            Ok(facts_held(role, held))
        }
        Item::Unknown(_) => Ok(Facts::without_ids(Role::Other, false)),
        Item::Skipped(_, payload) => {
            let length = payload.len();
            write!(line, " {length}")?;
            Ok(Facts::without_ids(Role::Other, false))
        }
    }
}

/// Appends the type of an item: the name of one, or what its code is.
pub fn push_type(line: &mut String, item: &Item) -> Result<(), AllocError>
    ensures { OnOk result (string_bytes line.new ≡ string_bytes line.old ++ type_text item.now) }
{
    match item {
        Item::Message(message) => {
            let name = message.ty().debug_name();
            write!(line, "{name}")
        }
        Item::Unknown(code) => write!(line, "unknown 0x{code:x}"),
        Item::Skipped(code, _) => write!(line, "skipped 0x{code:x}"),
    }
}

/// Appends what a line has of what a message holds.
fn push_held(line: &mut String, role: Role, held: Held<'_>) -> Result<(), AllocError>
    ensures { OnOk result (string_bytes line.new ≡ string_bytes line.old ++ held_text role (held_view held.entry)) }
{
    match held {
        Held::Opaque(bytes) => push_bytes(line, bytes),
        Held::Malformed(_) => line.push_str(" malformed"),
        Held::Fields(payload) => push_fields(line, role, payload),
    }
}

/// What is known of a message by what it holds.
fn facts_held(role: Role, held: Held<'_>) -> Facts
    ensures { result ≡ held_facts role (held_view held.entry) }
{
    match held {
        Held::Opaque(_) => Facts::without_ids(role, false),
        Held::Malformed(_) => Facts::without_ids(role, true),
        Held::Fields(payload) => facts_of(role, payload),
    }
}
