//! The bytes of fields.

ghost use Rattle.std.specs.Prelude.{◌≡◌, ◌++◌, [], codes, IfOk, OnOk};
ghost use Rattle.shared_core_codec.specs.FieldParts.{enum_number, parts_of};
ghost use Rattle.shared_core_codec.specs.ProgramRows.{kind_view};
ghost use Rattle.std.specs.Int.{from_bool};
ghost use Rattle.shared_core_fields.specs.NumberValues.{number_value};
ghost use Rattle.shared_core_fields.specs.Runs.{held_numbers};
ghost use Rattle.shared_core_fields.specs.Views.{field_part};
ghost use Rattle.shared_core_json.specs.Form.{enum_digits};
ghost use Rattle.shared_core_wire.specs.Value.{Number};
ghost use Rattle.field_paths.specs.Values.{flag_line, number_line, number_lines, scalar_line, AreBytes};

use shared_core_codec::rows::Kind;
use shared_core_fields::fields::{Field, FieldValue};
use shared_core_fields::runs::Run;
use shared_core_wire::varint::low_32;
use std::alloc::{AllocError, Global};

/// The bytes of a field: a text and bytes as they are, the payload of a message; a number or a flag as a line, and a
/// list of numbers as lines. `line` is an empty buffer for those.
pub fn bytes_of<'p>(
    alloc: Global,
    field: Field<'p>,
    line: &'p mut Vec<u8>,
) -> Result<&'p [u8], AllocError>
    requires { line.old.items ≡ [] }
    ensures { IfOk result (λ bytes. AreBytes (field_part field.entry) bytes.now) }
{
    match field.value {
        FieldValue::Text(text) => return Ok(text.as_bytes()),
        FieldValue::ByteString(bytes) => return Ok(bytes),
        FieldValue::Message(message) => return Ok(message.bytes),
        FieldValue::U32(number) => push_number(alloc, u64::from(number), line)?,
        FieldValue::U64(number) => push_number(alloc, number, line)?,
        FieldValue::Boolean(flag) => push_flag(flag, line)?,
        FieldValue::Enumeration(number) => push_enumeration(alloc, number, line)?,
        FieldValue::Numbers(run) => push_numbers(alloc, run, line)?,
    }
    Ok(line.as_slice())
}

/// Appends the line of a number.
fn push_number(alloc: Global, number: u64, out: &mut Vec<u8>) -> Result<(), AllocError>
    ensures { OnOk result (out.new.items ≡ out.old.items ++ number_line number) }
{
    let mut line = String::new(alloc);
    write!(line, "{number}\n")?;
    out.extend_from_slice(line.as_bytes())
}

/// Appends the line of a flag.
fn push_flag(flag: bool, out: &mut Vec<u8>) -> Result<(), AllocError>
    ensures { OnOk result (out.new.items ≡ out.old.items ++ flag_line (from_bool flag)) }
{
    out.extend_from_slice(if flag { b"true\n" } else { b"false\n" })
}

/// Appends the line of the number of an enum.
#[tactic(auto, using(shared_core_json::proofs::Values::enum_shown))]
fn push_enumeration(alloc: Global, number: i32, out: &mut Vec<u8>) -> Result<(), AllocError>
    ensures { OnOk result (out.new.items ≡ out.old.items ++ (enum_digits (enum_number number) ++ codes "\n")) }
{
    let mut line = String::new(alloc);
    let number = i64::from(number);
    write!(line, "{number}\n")?;
    out.extend_from_slice(line.as_bytes())
}

/// Appends the line of a number of a kind.
fn push_scalar(alloc: Global, kind: Kind, number: u64, out: &mut Vec<u8>) -> Result<(), AllocError>
    requires { number_value (kind_view kind) number ≡ number }
    ensures { OnOk result (out.new.items ≡ out.old.items ++ scalar_line (kind_view kind) number) }
{
    match kind {
        Kind::Boolean => push_flag(number != 0, out),
        Kind::Enumeration => push_enumeration(alloc, low_32(number).cast_signed(), out),
        _ => push_number(alloc, number, out),
    }
}

/// Appends the lines of the numbers of a run.
fn push_numbers(alloc: Global, run: Run<'_>, out: &mut Vec<u8>) -> Result<(), AllocError>
    ensures { OnOk result (out.new.items ≡ out.old.items ++ number_lines (kind_view run.entry.kind)
        (parts_of Number (held_numbers (kind_view run.entry.kind) run.entry.bytes.now))) }
{
    for number in run.numbers() {
        push_scalar(alloc, run.kind, number, out)?;
    }
    Ok(())
}
