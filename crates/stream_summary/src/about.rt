//! What a description says of an item that starts, ends or fails an invocation.

ghost use Rattle.std.specs.Prelude.{◌≡◌, ◌++◌, [], if◌then◌else◌, codes, IfErr, OnOk};
ghost use Rattle.std.specs.String.{string_bytes};
ghost use Rattle.show_lines.specs.Showing.{IsLong};
ghost use Rattle.stream_lines.specs.Printing.{IsLack};
ghost use Rattle.shared_core_stream.specs.declared.encoding.item.Item.TheVariants.{Message};
ghost use Rattle.stream_summary.specs.About.{failure_line, is_start, message_labels, says_why, start_line, state_line};
ghost use Rattle.stream_summary.specs.About.{state_word};

use crate::labels::push_labels;
use dump_lines::Canonicalizer;
use shared_core_base::header::MessageType;
use shared_core_stream::encoding::{Item, RawMessage};
use show_lines::held::Payloads;
use std::alloc::AllocError;
use stream_lines::PrintError;

/// Overwrites the line of how an invocation stands with that after an item. `canonical` is a buffer that may be
/// overwritten.
pub fn write_state<C: Canonicalizer>(
    payloads: &Payloads<'_, C>,
    item: &Item,
    line: &mut String,
    canonical: &mut Vec<u8>,
) -> Result<(), PrintError>
    ensures line { OnOk result (string_bytes line.new ≡ state_line payloads.now.version item.now) }
    ensures lack { IfErr result (IsLack (IsLong payloads.now.version item.now)) }
{
    line.clear();
    line.push_str("state: ")?;
    match item {
        Item::Message(message) => {
            line.push_str(state_word(message.ty()))?;
            push_why(payloads, message, line, canonical)?;
        }
        _ => line.push_str("open")?,
    }
    line.push_str("\n")?;
    Ok(())
}

/// Appends the fields of a message, if they say why the invocation stands so.
fn push_why<C: Canonicalizer>(
    payloads: &Payloads<'_, C>,
    message: &RawMessage,
    line: &mut String,
    canonical: &mut Vec<u8>,
) -> Result<(), PrintError>
    ensures line { OnOk result (string_bytes line.new ≡ string_bytes line.old
        ++ (if says_why message.now.header.ty then message_labels payloads.now.version message.now else [])) }
    ensures lack { IfErr result (IsLack (IsLong payloads.now.version (Message message.now))) }
{
    if !says_why(message.ty()) {
        return Ok(());
    }
    push_message(payloads, message, line, canonical)
}

/// Overwrites the line of the invocation with the fields of an item, if it is a start message.
pub fn write_start<C: Canonicalizer>(
    payloads: &Payloads<'_, C>,
    item: &Item,
    line: &mut String,
    canonical: &mut Vec<u8>,
) -> Result<(), PrintError>
    ensures line { OnOk result (string_bytes line.new
        ≡ start_line payloads.now.version item.now (string_bytes line.old)) }
    ensures lack { IfErr result (IsLack (IsLong payloads.now.version item.now)) }
{
    let Item::Message(message) = item else {
        return Ok(());
    };
    if !is_start(message.ty()) {
        return Ok(());
    }
    line.clear();
    line.push_str("invocation:")?;
    push_message(payloads, message, line, canonical)?;
    line.push_str("\n")?;
    Ok(())
}

/// Appends the fields of a message with their names.
fn push_message<C: Canonicalizer>(
    payloads: &Payloads<'_, C>,
    message: &RawMessage,
    line: &mut String,
    canonical: &mut Vec<u8>,
) -> Result<(), PrintError>
    ensures line { OnOk result (string_bytes line.new
        ≡ string_bytes line.old ++ message_labels payloads.now.version message.now) }
    ensures lack { IfErr result (IsLack (IsLong payloads.now.version (Message message.now))) }
{
    let held = payloads.held_by(message.ty(), message.payload(), canonical)?;
    push_labels(line, held)?;
    Ok(())
}

/// Overwrites the line of the last failure with that of an item, if it is one.
pub fn write_failure(
    failed: bool,
    name: &str,
    joined: &str,
    line: &mut String,
) -> Result<(), AllocError>
    ensures { OnOk result (string_bytes line.new ≡ failure_line failed name.now joined.now (string_bytes line.old)) }
{
    if !failed {
        return Ok(());
    }
    line.clear();
    write!(line, "last failure: {name}{joined}\n")
}

/// How an invocation stands after a message of a type.
fn state_word(ty: MessageType) -> &'static str
    ensures { result.now ≡ state_word ty }
{
    match ty {
        MessageType::Suspension => "suspended",
        MessageType::Error => "failed",
        MessageType::End => "ended",
        MessageType::OutputCommand => "returned",
        _ => "open",
    }
}

/// Whether the fields of a message of a type say why the invocation stands so.
fn says_why(ty: MessageType) -> bool
    ensures { result ≡ says_why ty }
{
    matches!(ty, MessageType::Suspension | MessageType::Error)
}

/// Whether messages of a type start an invocation.
fn is_start(ty: MessageType) -> bool
    ensures { result ≡ is_start ty }
{
    matches!(ty, MessageType::Start)
}
