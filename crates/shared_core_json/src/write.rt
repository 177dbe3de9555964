//! Writing the fields of a canonical payload as JSON.

ghost use Rattle.std.specs.Prelude.{◌≡◌, ◌<◌, ◌≤◌, ◌∷◌, ◌++◌, ◌^◌, [], codes, length, true, OnOk};
ghost use Rattle.std.specs.Fmt.{signed_decimal};
ghost use Rattle.json.specs.Token.{number as digits};
ghost use Rattle.json.specs.Token as token;
ghost use Rattle.json.specs.Json.{object, string, member, no_members};
ghost use Rattle.json.specs.Tree.{json_tokens};
ghost use Rattle.base64.specs.GeneralPurpose.{encode_of};
ghost use Rattle.base64.specs.Engines.{standard};
ghost use Rattle.shared_core_codec.specs.FieldParts.{enum_number, parts_of};
ghost use Rattle.shared_core_codec.specs.ProgramRows.{kind_view};
ghost use Rattle.shared_core_wire.specs.Canonical.{levels, part_levels};
ghost use Rattle.shared_core_wire.specs.Overlay.{meaning};
ghost use Rattle.shared_core_wire.specs.Schema.{Table};
ghost use Rattle.shared_core_wire.specs.Value.{Elements, Number};
ghost use Rattle.shared_core_codec.specs.Canonicity.{is_canonical_payload_in, may_recur};
ghost use Rattle.shared_core_fields.specs.NumberValues.{number_value};
ghost use Rattle.shared_core_fields.specs.Runs.{held_numbers};
ghost use Rattle.shared_core_fields.specs.Views.{IsOf, value_kind, value_part, value_schemas};
ghost use Rattle.shared_core_json.specs.Fields.{Names, SchemaNames, named};
ghost use Rattle.shared_core_json.specs.Form.{Writing, byte_string_json, digits_of, enum_digits, json_with_in};
ghost use Rattle.shared_core_json.specs.Form.{number_json, part_json_in, writing, zigzag_digits};
ghost use Rattle.shared_core_json.specs.Written.{end_tokens, lead_tokens, open_list_after};

use crate::digits::Digits;
use crate::named_schemas::NamedSchemas;
use base64::encoded_len;
use base64::engine::general_purpose::STANDARD;
use json::Writer;
use shared_core_codec::rows::Kind;
use shared_core_codec::utf8::as_text;
use shared_core_fields::fields::{CanonicalPayload, Field, FieldValue};
use shared_core_fields::payload_table::{PayloadTable, Tabled};
use shared_core_fields::runs::Run;
use shared_core_wire::records::LEVELS;
use shared_core_wire::varint::low_32;
use std::alloc::AllocError;

/// Writes the JSON of what a canonical payload means, by the names of its table. If an allocation fails, some tokens
/// may be written. If `texts` is given, bytes that are UTF-8 are not written in base64, but as the object
/// `{"text":".."}`, which proto3's JSON form does not have. `base64` is a buffer that is overwritten.
pub fn write_payload<T: NamedSchemas + PayloadTable>(
    out: &mut Writer,
    base64: &mut Vec<u8>,
    texts: bool,
    payload: CanonicalPayload<'_, T>,
) -> Result<(), AllocError>
    ensures tokens { OnOk result (out.new.tokens ≡ out.old.tokens ++ json_tokens
        (json_with_in (T.table_of payload.entry.schemas) (T.names payload.entry.schemas) texts payload.entry.schema
        (meaning (T.table_of payload.entry.schemas) 100 payload.entry.schema payload.entry.bytes.now))) }
    ensures before { out.new.before ≡ out.old.before }
{
    let form = Form {
        schemas: payload.schemas,
        texts,
    };
    write_checked(form, out, base64, payload.schema, payload.bytes)
}

/// The table whose names are written, and whether bytes that are UTF-8 are written as texts.
#[derive(Clone, Copy)]
struct Form<T> {
    schemas: T,
    texts: bool,
}

/// How the value of a field of a schema is written, which has this number: its digits are found where there are any.
#[derive(Clone, Copy)]
struct FieldForm<T> {
    form: Form<T>,
    schema: u32,
    number: u32,
}

impl<T: NamedSchemas> FieldForm<T> {
    /// How its numbers are written.
    #[inline(always)]
    fn digits(&self) -> Digits
        ensures { result ≡ (T.names self.now.form.schemas self.now.schema).digits self.now.number }
    {
        self.form.schemas.digits_of(self.schema, self.number)
    }
}

/// The same of the bytes of a canonical payload.
fn write_checked<T: NamedSchemas + PayloadTable>(
    form: Form<T>,
    out: &mut Writer,
    base64: &mut Vec<u8>,
    schema: u32,
    bytes: &[u8],
) -> Result<(), AllocError>
    requires short { length bytes.now < 4294967296 }
    requires canonical { is_canonical_payload_in (T.table_of form.schemas) 100 schema bytes.now ≡ true }
    ensures tokens { OnOk result (out.new.tokens ≡ out.old.tokens ++ json_tokens
        (json_with_in (T.table_of form.schemas) (T.names form.schemas) form.texts schema
        (meaning (T.table_of form.schemas) 100 schema bytes.now))) }
    ensures before { out.new.before ≡ out.old.before }
{
    write_within(form, out, base64, schema, bytes, LEVELS)
}

/// The same of a payload in which messages are nested at most `left` deep.
#[cycle(message)]
fn write_within<T: NamedSchemas + PayloadTable>(
    form: Form<T>,
    out: &mut Writer,
    base64: &mut Vec<u8>,
    schema: u32,
    bytes: &[u8],
    left: u32,
) -> Result<(), AllocError>
    requires short { length bytes.now < 4294967296 }
    requires canonical { is_canonical_payload_in (T.table_of form.schemas) 100 schema bytes.now ≡ true }
    requires deep { levels (meaning (T.table_of form.schemas) 100 schema bytes.now) ≤ left }
    ensures tokens { OnOk result (out.new.tokens ≡ out.old.tokens ++ json_tokens
        (json_with_in (T.table_of form.schemas) (T.names form.schemas) form.texts schema
        (meaning (T.table_of form.schemas) 100 schema bytes.now))) }
    ensures before { out.new.before ≡ out.old.before }
{
    let Form { schemas, texts } = form;
    out.begin_object()?;
    let payload = CanonicalPayload {
        schemas,
        schema,
        bytes,
    };
    let mut open_list = 0;
    for field in payload.fields_in() {
        begin_member(&schemas, out, schema, &field, open_list)?;
        open_list = open_list_after(&field);
        let form = FieldForm {
            form: Form { schemas, texts },
            schema,
            number: field.number,
        };
        write_value(form, out, base64, field.value, left)?;
    }
    end_list(out, open_list)?;
    out.end_object()
}

/// Whether a field is an element of a list. The numbers of a packed run are one field.
fn is_element<T: Tabled + Copy>(field: &Field<'_, CanonicalPayload<'_, T>>) -> bool
    ensures { result ≡ may_recur (value_kind field.now.value, field.now.is_repeated) }
{
    match field.value {
        FieldValue::Text(_) | FieldValue::ByteString(_) | FieldValue::Message(_) => {
            field.is_repeated
        }
        _ => false,
    }
}

/// The number of the field whose list is open after a field, or 0.
fn open_list_after<T: Tabled + Copy>(field: &Field<'_, CanonicalPayload<'_, T>>) -> u32
    ensures { (names : SchemaNames) → result ≡ open_list_after
        (named names field.now.number (value_kind field.now.value, field.now.is_repeated)) }
{
    if is_element(field) { field.number } else { 0 }
}

/// Writes the name of a field of a schema, and the beginning of its list, after closing the open list; nothing, if its
/// own list is open.
fn begin_member<T: NamedSchemas + PayloadTable>(
    schemas: &T,
    out: &mut Writer,
    schema: u32,
    field: &Field<'_, CanonicalPayload<'_, T>>,
    open_list: u32,
) -> Result<(), AllocError>
    ensures tokens { OnOk result (out.new.tokens ≡ out.old.tokens ++ lead_tokens open_list
        (named (T.names schemas.now schema) field.now.number (value_kind field.now.value, field.now.is_repeated))) }
    ensures before { out.new.before ≡ out.old.before }
{
    if field.number == open_list {
        return Ok(());
    }
    end_list(out, open_list)?;
    out.key(schemas.name_of(schema, field.number))?;
    if is_element(field) {
        out.begin_array()?;
    }
    Ok(())
}

/// Closes the open list, if there is one.
fn end_list(out: &mut Writer, open_list: u32) -> Result<(), AllocError>
    ensures tokens { OnOk result (out.new.tokens ≡ out.old.tokens ++ end_tokens open_list) }
    ensures before { out.new.before ≡ out.old.before }
{
    if open_list == 0 {
        return Ok(());
    }
    out.end_array()
}

/// Writes what a field holds, in which messages are nested at most `left` deep. A message is of the table.
#[cycle(message)]
#[tactic(auto, using(crate::proofs::Values::enum_json))]
fn write_value<T: NamedSchemas + PayloadTable>(
    form: FieldForm<T>,
    out: &mut Writer,
    base64: &mut Vec<u8>,
    value: FieldValue<'_, CanonicalPayload<'_, T>>,
    left: u32,
) -> Result<(), AllocError>
    requires same { IsOf form.form.schemas (value_schemas value) }
    requires deep { part_levels (value_part value) ≤ left }
    ensures tokens { OnOk result (out.new.tokens ≡ out.old.tokens
        ++ json_tokens (part_json_in (T.table_of form.form.schemas) (T.names form.form.schemas)
        (writing form.form.texts (T.names form.form.schemas form.schema) form.number)
        (value_part value.entry) (value_kind value.entry))) }
    ensures before { out.new.before ≡ out.old.before }
{
    match value {
        FieldValue::U32(number) => write_u32(out, form.digits(), number),
        FieldValue::U64(number) => write_u64(out, form.digits(), number),
        FieldValue::Boolean(flag) => out.boolean(flag),
        FieldValue::Enumeration(number) => write_enumeration(out, number),
        FieldValue::Text(text) => out.string(text),
        FieldValue::ByteString(bytes) => write_byte_string(out, base64, form.form.texts, bytes),
        FieldValue::Message(message) => {
            write_within(
                form.form,
                out,
                base64,
                message.schema,
                message.bytes,
                left - 1,
            )
        }
        FieldValue::Numbers(run) => write_run(out, form.digits(), run),
    }
}

/// The number that a number means by zigzag.
fn from_zigzag(number: u64) -> i64
    ensures { signed_decimal result ≡ zigzag_digits number }
{
    let half = number / 2;
    if number % 2 == 0 {
        half.cast_signed()
    } else {
        (u64::MAX - half).cast_signed()
    }
}

/// Writes a number of 32 bits.
#[inline(always)]
pub fn write_u32(out: &mut Writer, how: Digits, number: u32) -> Result<(), AllocError>
    ensures tokens { OnOk result (out.new.tokens ≡ out.old.tokens ++ digits (digits_of how (2 ^ 31) number) ∷ []) }
    ensures before { out.new.before ≡ out.old.before }
{
    match how {
        Digits::Unsigned => out.u64(u64::from(number)),
        Digits::Signed => out.i64(i64::from(number.cast_signed())),
        Digits::ZigZag => out.i64(from_zigzag(u64::from(number))),
    }
}

/// Writes a number of 64 bits, as a string.
#[inline(always)]
pub fn write_u64(out: &mut Writer, how: Digits, number: u64) -> Result<(), AllocError>
    ensures tokens { OnOk result (out.new.tokens
        ≡ out.old.tokens ++ token.string (digits_of how (2 ^ 63) number) ∷ []) }
    ensures before { out.new.before ≡ out.old.before }
{
    match how {
        Digits::Unsigned => out.quoted_u64(number),
        Digits::Signed => out.quoted_i64(number.cast_signed()),
        Digits::ZigZag => out.quoted_i64(from_zigzag(number)),
    }
}

/// Writes the number of an enum.
#[tactic(auto, using(crate::proofs::Values::enum_shown))]
fn write_enumeration(out: &mut Writer, number: i32) -> Result<(), AllocError>
    ensures tokens { OnOk result (out.new.tokens ≡ out.old.tokens ++ digits (enum_digits (enum_number number)) ∷ []) }
    ensures before { out.new.before ≡ out.old.before }
{
    out.i64(i64::from(number))
}

/// Writes a number that a value of a kind holds.
fn write_number(out: &mut Writer, how: Digits, kind: Kind, number: u64) -> Result<(), AllocError>
    requires { number_value (kind_view kind) number ≡ number }
    ensures tokens { OnOk result (out.new.tokens
        ≡ out.old.tokens ++ json_tokens (number_json how (kind_view kind) number)) }
    ensures before { out.new.before ≡ out.old.before }
{
    match kind {
        Kind::U32 => write_u32(out, how, low_32(number)),
        Kind::U64 => write_u64(out, how, number),
        Kind::Boolean => out.boolean(number != 0),
        Kind::Enumeration => write_enumeration(out, low_32(number).cast_signed()),
        _ => out.u64(number),
    }
}

/// Writes the numbers of a packed run as an array. If an allocation fails, some tokens may be written.
pub fn write_run(out: &mut Writer, how: Digits, run: Run<'_>) -> Result<(), AllocError>
    ensures tokens { OnOk result ((table : Table) (names : Names) (w : Writing) → w.digits ≡ how → out.new.tokens
        ≡ out.old.tokens ++ json_tokens (part_json_in table names w
        (Elements (parts_of Number (held_numbers (kind_view run.entry.kind) run.entry.bytes.now)))
        (kind_view run.entry.kind))) }
    ensures before { out.new.before ≡ out.old.before }
{
    out.begin_array()?;
    for number in run.numbers() {
        write_number(out, how, run.kind, number)?;
    }
    out.end_array()
}

/// Writes bytes of any kind: in base64, using the buffer `base64`; if texts are wanted, those that are UTF-8 as the
/// object `{"text":".."}`. If an allocation fails, some tokens may be written.
pub fn write_byte_string(
    out: &mut Writer,
    base64: &mut Vec<u8>,
    texts: bool,
    bytes: &[u8],
) -> Result<(), AllocError>
    ensures tokens { OnOk result (out.new.tokens ≡ out.old.tokens ++ json_tokens (byte_string_json texts bytes.now)) }
    ensures before { out.new.before ≡ out.old.before }
{
    if !texts {
        return write_base64(out, base64, bytes);
    }
    match as_text(bytes) {
        Some(text) => write_marked(out, text),
        None => write_base64(out, base64, bytes),
    }
}

/// Writes a text as the object that bytes are then.
fn write_marked(out: &mut Writer, text: &str) -> Result<(), AllocError>
    ensures tokens { OnOk result (out.new.tokens ≡ out.old.tokens
        ++ json_tokens (object (member (codes "text") (string text.now) no_members))) }
    ensures before { out.new.before ≡ out.old.before }
{
    out.begin_object()?;
    out.key("text")?;
    out.string(text)?;
    out.end_object()
}

/// Writes bytes in base64, by way of the buffer `base64`, which keeps the length of the longest text.
fn write_base64(out: &mut Writer, base64: &mut Vec<u8>, bytes: &[u8]) -> Result<(), AllocError>
    ensures tokens { OnOk result (out.new.tokens ≡ out.old.tokens ++ token.string (encode_of standard bytes.now) ∷ []) }
    ensures before { out.new.before ≡ out.old.before }
{
    let Some(len) = encoded_len(bytes.len(), true) else {
        return Err(AllocError);
    };
    if base64.len() < len {
        base64.resize(len, 0)?;
    }
    let text = base64.as_mut_slice();
    let Ok(len) = STANDARD.encode_slice(bytes, text) else {
        unreachable!();
    };
    // base64 is ASCII
    out.string(unsafe { std::str::from_utf8_unchecked(&text[..len]) })
}
