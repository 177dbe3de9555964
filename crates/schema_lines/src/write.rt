//! Writing the table.

use crate::error::SchemaError;
use crate::fields::all_rows;
use crate::kinds::message_name;
use crate::message_names::{MESSAGE_CODES, MESSAGE_COUNT};
use crate::pairs::Pairs;
use crate::renames::Rename;
use crate::rows::{append_counts, append_rows};
use descriptor_set::{DescriptorSet, NoForm, PassedOver, passed_over, table_of};
use std::alloc::{AllocError, Global};
use std::io::Write;
use stream_lines::output::write_whole;
use terminal_text::{Escapes, push_escaped};

/// Writes which messages and fields of a descriptor set are the protocol's, by their names: for each whether it is the
/// same, renumbered, of another kind, only there or only here. Behind the table it writes how many are what, the types
/// whose payloads are read by another message than that of their name, as comments of the set say their codes, and the
/// fields that the engine has no form for. Nothing is written if no table of schemas comes of the set, or if something
/// is wrong with a rename.
pub fn write_schema<W: Write>(
    alloc: Global,
    set: &DescriptorSet,
    renames: &[Rename<'_>],
    output: &mut W,
) -> Result<(), SchemaError> {
    table_of(alloc, set)?;
    let pairs = Pairs::of(alloc, set, renames)?;
    let rows = all_rows(alloc, set, &pairs)?;
    let mut text = String::new(alloc);
    append_rows(&mut text, rows.as_slice())?;
    append_counts(&mut text, rows.as_slice())?;
    append_coded(&mut text, set, &pairs)?;
    append_passed_over(alloc, &mut text, set)?;
    write_whole(output, text.as_bytes())?;
    Ok(())
}

/// The code of the type of a schema.
fn code_of(schema: u32) -> Option<u32> {
    MESSAGE_CODES.get(schema as usize).copied().flatten()
}

/// Appends the types whose payloads are read by another message than that of their name, one line per type.
fn append_coded(text: &mut String, set: &DescriptorSet, pairs: &Pairs) -> Result<(), AllocError> {
    let mut is_first = true;
    for schema in 0..MESSAGE_COUNT {
        let read = pairs.read_by(schema);
        if let Some(code) = code_of(schema)
            && read != pairs.own(schema)
        {
            if is_first {
                text.push_str("\nread by other messages, by the codes that comments say:\n")?;
            }
            is_first = false;
            let name = message_name(schema);
            let theirs = read.and_then(|index| set.messages.get(index));
            write!(text, "- {name}, 0x{code:04x}: ")?;
            match theirs {
                Some(message) => push_escaped(text, Escapes::Text, message.name.as_str())?,
                None => text.push_str("none")?,
            }
            text.push('\n')?;
        }
    }
    Ok(())
}

/// Appends the fields that are passed over, one line per field.
fn append_passed_over(
    alloc: Global,
    text: &mut String,
    set: &DescriptorSet,
) -> Result<(), AllocError> {
    let fields = passed_over(alloc, set)?;
    if fields.is_empty() {
        return Ok(());
    }
    text.push_str("\npassed over, as an unknown number is:\n")?;
    for field in &fields {
        append_field(text, set, field)?;
    }
    Ok(())
}

/// Appends the line of a field that is passed over.
fn append_field(
    text: &mut String,
    set: &DescriptorSet,
    passed: &PassedOver,
) -> Result<(), AllocError> {
    let Some(message) = set.messages.get(passed.message) else {
        return Ok(());
    };
    let Some(field) = message.fields.get(passed.field) else {
        return Ok(());
    };
    text.push_str("- ")?;
    push_escaped(text, Escapes::Text, message.name.as_str())?;
    text.push('.')?;
    push_escaped(text, Escapes::Text, field.name.as_str())?;
    let kind = field.kind.name();
    match passed.why {
        NoForm::Kind => writeln!(text, ": {kind}"),
        NoForm::Map => writeln!(text, ": map"),
    }
}
