//! The lines of a dump.

ghost use Rattle.std.specs.Prelude.{◌≡◌, ◌∷◌, ◌++◌, [], ℕ, Some, true, false, codes, decimal, length};
ghost use Rattle.std.specs.Prelude.{OnOk, IfErr, IsTrue};
ghost use Rattle.std.specs.Str.{IsUtf8};
ghost use Rattle.json.specs.Lex.{tokens};
ghost use Rattle.json.specs.Print.{print};
ghost use Rattle.json.specs.Token.{key, number, boolean, end_object};
ghost use Rattle.json.specs.Token as token;
ghost use Rattle.json.specs.Tree.{json_tokens, members_tokens};
ghost use Rattle.shared_core_stream.specs.declared.encoding.item.Item.TheVariants as variant;
ghost use Rattle.shared_core_base.specs.MessageType.{debug_name_of};
ghost use Rattle.dump_lines.specs.Canonical.{IsLongForIn};
ghost use Rattle.stream_lines.specs.Printing.{IsLack};
ghost use Rattle.dump_lines.specs.Dump.{HasLongPayload};
ghost use Rattle.shared_core_codec.specs.Canonicity.{IsCanonicalIn};
ghost use Rattle.shared_core_json.specs.Form.{byte_string_json};
ghost use Rattle.dump_lines.specs.Lines.{payload_members_in, ack_tokens, header_tokens, item_members_in, item_json_in};
ghost use Rattle.dump_lines.specs.Lines.{number_member, rest_members, skipped_members, unknown_members};
ghost use Rattle.dump_lines.specs.Lines.{item_code as code_of_item, is_selected, malformed_members};
ghost use Rattle.dump_lines.specs.Reading.{is_canonical_in};

use crate::canonicalizer::TypedPayload;
use crate::message_table::MessageTable;
use crate::options::Options;
use crate::scratch::Scratch;
use bytes::Bytes;
use json::Writer;
use shared_core_base::header::MessageType;
use shared_core_fields::check::is_canonical_in;
use shared_core_fields::fields::CanonicalPayload;
use shared_core_json::{JsonError, write_byte_string, write_payload};
use shared_core_stream::encoding::{Item, RawMessage};
use std::alloc::{AllocError, Global};
use std::mem;
use stream_lines::{PlacedItem, PrintError, Rest};

/// What a code is multiplied by in the word of a header.
const CODE_UNIT: u128 = 1 << 48;

/// The code of an item.
pub fn item_code(item: &Item) -> u16
    ensures { result ≡ code_of_item item.now }
{
    match item {
        Item::Message(message) => u16::from(message.ty()),
        Item::Unknown(code) => *code,
        Item::Skipped(code, _) => *code,
    }
}

/// Whether items of a code are selected.
pub fn is_selected(codes: &[u16], code: u16) -> bool
    ensures { result ≡ is_selected codes.now code }
{
    codes.is_empty() || codes.contains(&code)
}

/// Writes the members of the trailing bytes.
pub fn write_rest(
    options: &Options<'_>,
    rest: Rest<'_>,
    scratch: &mut Scratch,
    out: &mut Writer,
) -> Result<(), AllocError>
    ensures tokens { OnOk result (out.new.tokens ++ end_object ∷ [] ≡ out.old.tokens
        ++ members_tokens (number_member (codes "offset") rest.entry.offset
        (number_member (codes "rest") (length rest.entry.pending.now.bytes)
        (rest_members options.now rest.entry.pending.now.bytes)))) }
    ensures before { out.new.before ≡ out.old.before }
{
    let Scratch { text, base64, .. } = scratch;
    write_offset(out, rest.offset, text)?;
    let count = rest.pending.pending();
    write_number(out, "rest", count)?;
    if options.payloads && count > 0 {
        let bytes = rest.pending.copy_pending()?;
        write_bytes(out, options.texts, bytes.as_slice(), base64)?;
    }
    Ok(())
}

/// Writes the object of an item by these options.
#[derive(Drop)]
pub struct ItemWriter<'a, M> {
    pub alloc: Global,
    /// What the object contains.
    pub options: &'a Options<'a>,
    /// How payloads are read.
    pub messages: &'a M,
    /// The item.
    pub placed: &'a PlacedItem,
}

impl<'a, M: MessageTable> ItemWriter<'a, M> {
    /// Overwrites the line with the object of the item. After an error the line is unspecified.
    pub fn write_object(&self, scratch: &mut Scratch) -> Result<(), PrintError>
        ensures utf8 { OnOk result (IsUtf8 scratch.new.line.items) }
        ensures printed { OnOk result (scratch.new.line.items ≡ print (tokens scratch.new.line.items)) }
        ensures object { OnOk result (tokens scratch.new.line.items
            ≡ json_tokens (item_json_in (M.reading self.now.messages.now) self.now.options.now
            self.now.placed.now.offset self.now.placed.now.word self.now.placed.now.item)) }
        ensures lack { IfErr result (IsLack
            (HasLongPayload (M.reading self.now.messages.now) self.now.options.now self.now.placed.now.item)) }
    {
        let mut line = mem::replace(&mut scratch.line, Vec::new(self.alloc));
        line.clear();
        let mut out = Writer::new(line);
        self.write_item(scratch, &mut out)?;
        scratch.line = out.into_inner();
        Ok(())
    }

    /// Writes the object of the item.
    fn write_item(&self, scratch: &mut Scratch, out: &mut Writer) -> Result<(), PrintError>
        ensures tokens { OnOk result (out.new.tokens ≡ out.old.tokens
            ++ json_tokens (item_json_in (M.reading self.now.messages.now) self.now.options.now
            self.now.placed.now.offset self.now.placed.now.word self.now.placed.now.item)) }
        ensures before { out.new.before ≡ out.old.before }
        ensures lack { IfErr result (IsLack
            (HasLongPayload (M.reading self.now.messages.now) self.now.options.now self.now.placed.now.item)) }
    {
        out.begin_object()?;
        write_offset(out, self.placed.offset, &mut scratch.text)?;
        self.write_members(scratch, out)?;
        out.end_object()?;
        Ok(())
    }

    /// Writes the members of the item after its offset.
    fn write_members(&self, scratch: &mut Scratch, out: &mut Writer) -> Result<(), PrintError>
        ensures tokens { OnOk result (out.new.tokens ++ end_object ∷ [] ≡ out.old.tokens
            ++ members_tokens (item_members_in (M.reading self.now.messages.now) self.now.options.now
            self.now.placed.now.word self.now.placed.now.item)) }
        ensures before { out.new.before ≡ out.old.before }
        ensures lack { IfErr result (IsLack
            (HasLongPayload (M.reading self.now.messages.now) self.now.options.now self.now.placed.now.item)) }
    {
        let word = self.placed.word;
        match &self.placed.item {
            Item::Message(message) => {
                return self.write_message_members(message, scratch, out);
            }
            Item::Unknown(code) => write_unknown(word, *code, &mut scratch.base64, out)?,
            Item::Skipped(code, payload) => {
                let skipped = SkippedMessage {
                    word,
                    code: *code,
                    payload,
                };
                write_skipped(self.options, skipped, &mut scratch.base64, out)?;
            }
        }
        Ok(())
    }

    /// Writes the members of the item after its offset, if it is this message.
    fn write_message_members(
        &self,
        message: &RawMessage,
        scratch: &mut Scratch,
        out: &mut Writer,
    ) -> Result<(), PrintError>
        ensures tokens { OnOk result (out.new.tokens ++ end_object ∷ [] ≡ out.old.tokens
            ++ members_tokens (item_members_in (M.reading self.now.messages.now) self.now.options.now
            self.now.placed.now.word (variant.Message message.now))) }
        ensures before { out.new.before ≡ out.old.before }
        ensures lack { IfErr result (IsLack ((self.now.options.now.payloads ≡ true) × IsLongForIn
            (M.reading self.now.messages.now)
            ((M.reading self.now.messages.now).schema_at self.now.options.now.version message.now.header.ty)
            message.now.payload)) }
    {
        let ty = message.ty();
        write_type(out, ty, &mut scratch.text)?;
        write_number(out, "code", u16::from(ty) as u64)?;
        write_number(out, "length", message.payload().len() as u64)?;
        let header = message.header();
        write_ack(out, header.requested_ack())?;
        let written = u128::from(u64::from(header));
        write_header(out, self.placed.word, written, &mut scratch.base64)?;
        if self.options.payloads {
            let payload = TypedPayload {
                version: self.options.version,
                ty,
                bytes: message.payload(),
            };
            return self.write_payload(payload, scratch, out);
        }
        Ok(())
    }

    /// Writes the members of a message's payload.
    fn write_payload(
        &self,
        payload: TypedPayload<'_>,
        scratch: &mut Scratch,
        out: &mut Writer,
    ) -> Result<(), PrintError>
        ensures tokens { OnOk result (out.new.tokens ++ end_object ∷ [] ≡ out.old.tokens
            ++ members_tokens (payload_members_in (M.reading self.now.messages.now) self.now.options.now.texts
            ((M.reading self.now.messages.now).schema_at payload.entry.version payload.entry.ty)
            payload.entry.bytes.now)) }
        ensures before { out.new.before ≡ out.old.before }
        ensures lack { IfErr result (IsLack (IsLongForIn (M.reading self.now.messages.now)
            ((M.reading self.now.messages.now).schema_at payload.entry.version payload.entry.ty)
            payload.entry.bytes.now)) }
    {
        let texts = self.options.texts;
        let bytes = payload.bytes;
        let Some(schema) = self.messages.schema_of(payload.version, payload.ty) else {
            // the payload is opaque, as that of a custom entry
            write_bytes(out, texts, bytes, &mut scratch.base64)?;
            return Ok(());
        };
        if !is_canonical(self.messages, schema, bytes.as_slice()) {
            return self.write_encoded(payload, scratch, out);
        }
        out.key("message")?;
        let known = CanonicalPayload::known_in(self.messages.table(), schema, bytes.as_slice());
        write_payload(out, &mut scratch.base64, texts, known)?;
        Ok(())
    }

    /// Writes the members of a payload that is not canonical: by the canonical encoding of what it means, or that it is
    /// malformed, and the bytes.
    fn write_encoded(
        &self,
        payload: TypedPayload<'_>,
        scratch: &mut Scratch,
        out: &mut Writer,
    ) -> Result<(), PrintError>
        ensures tokens { OnOk result (out.new.tokens ++ end_object ∷ [] ≡ out.old.tokens
            ++ members_tokens (payload_members_in (M.reading self.now.messages.now) self.now.options.now.texts
            ((M.reading self.now.messages.now).schema_at payload.entry.version payload.entry.ty)
            payload.entry.bytes.now)) }
        ensures before { out.new.before ≡ out.old.before }
        ensures lack { IfErr result (IsLack (IsLongForIn (M.reading self.now.messages.now)
            ((M.reading self.now.messages.now).schema_at payload.entry.version payload.entry.ty)
            payload.entry.bytes.now)) }
    {
        let texts = self.options.texts;
        let bytes = payload.bytes;
        let messages = self.messages;
        match messages.canonical_of(self.alloc, payload, &mut scratch.canonical) {
            Ok(Some(schema)) => {
                out.key("message")?;
                let canonical = scratch.canonical.as_slice();
                let known = CanonicalPayload::known_in(messages.table(), schema, canonical);
                write_payload(out, &mut scratch.base64, texts, known)?;
            }
            Ok(None) => write_bytes(out, texts, bytes, &mut scratch.base64)?,
            Err(JsonError::Malformed) => write_malformed(out, texts, bytes, &mut scratch.base64)?,
            Err(JsonError::TooLong) => return Err(PrintError::TooLong),
            Err(JsonError::OutOfMemory) => return Err(PrintError::OutOfMemory),
        }
        Ok(())
    }
}

/// Whether a payload is canonical for a schema of a table.
fn is_canonical<M: MessageTable>(messages: &M, schema: u32, payload: &[u8]) -> bool
    ensures test { result ≡ is_canonical_in (M.reading messages.now).table schema payload.now }
    ensures canonical { IsTrue result → IsCanonicalIn (M.reading messages.now).table schema payload.now }
{
    is_canonical_in(&messages.table(), schema, payload)
}

/// Writes the members of a malformed payload: that it is, and its bytes.
fn write_malformed(
    out: &mut Writer,
    texts: bool,
    payload: &Bytes,
    base64: &mut Vec<u8>,
) -> Result<(), AllocError>
    ensures tokens { OnOk result (out.new.tokens ++ end_object ∷ [] ≡ out.old.tokens
        ++ members_tokens (malformed_members texts payload.now)) }
    ensures before { out.new.before ≡ out.old.before }
{
    write_flag(out, "malformed", true)?;
    write_bytes(out, texts, payload, base64)?;
    Ok(())
}

/// Writes the members of an unknown code after its offset.
fn write_unknown(
    word: u64,
    code: u16,
    base64: &mut Vec<u8>,
    out: &mut Writer,
) -> Result<(), AllocError>
    ensures tokens { OnOk result (out.new.tokens ++ end_object ∷ [] ≡ out.old.tokens
        ++ members_tokens (unknown_members word code)) }
    ensures before { out.new.before ≡ out.old.before }
{
    write_flag(out, "unknown", true)?;
    write_number(out, "code", code as u64)?;
    write_header(out, word, u128::from(code) * CODE_UNIT, base64)?;
    Ok(())
}

/// A message that is skipped, since its code is unassigned.
#[derive(Clone, Copy)]
struct SkippedMessage<'a> {
    /// The eight bytes of its header as a number.
    word: u64,
    code: u16,
    payload: &'a Bytes,
}

/// Writes the members of a skipped message after its offset.
fn write_skipped(
    options: &Options<'_>,
    skipped: SkippedMessage<'_>,
    base64: &mut Vec<u8>,
    out: &mut Writer,
) -> Result<(), AllocError>
    ensures tokens { OnOk result (out.new.tokens ++ end_object ∷ [] ≡ out.old.tokens
        ++ members_tokens (skipped_members options.now skipped.entry.word skipped.entry.code
        skipped.entry.payload.now)) }
    ensures before { out.new.before ≡ out.old.before }
{
    let SkippedMessage {
        word,
        code,
        payload,
    } = skipped;
    write_flag(out, "skipped", true)?;
    write_number(out, "code", code as u64)?;
    write_number(out, "length", payload.len() as u64)?;
    // in memory a payload may be longer than a header can say
    let written = u128::from(code) * CODE_UNIT + payload.len() as u128;
    write_header(out, word, written, base64)?;
    if options.payloads {
        write_bytes(out, options.texts, payload, base64)?;
    }
    Ok(())
}

/// Writes a type by its debug name.
fn write_type(out: &mut Writer, ty: MessageType, text: &mut String) -> Result<(), AllocError>
    ensures tokens { OnOk result (out.new.tokens ≡ out.old.tokens ++ (key (codes "type") ∷ token.string (debug_name_of ty) ∷ [])) }
    ensures before { out.new.before ≡ out.old.before }
{
    out.key("type")?;
    match ty {
        MessageType::CustomEntry(_) => {
            text.clear();
            write!(text, "{}", ty.debug_name())?;
            out.string(text.as_str())
        }
        ty => out.string(ty.variant_name()),
    }
}

/// Writes an offset, as the member `offset`.
#[tactic(auto, using(json_table::proofs::Decimals::wide_is_number))]
fn write_offset(out: &mut Writer, offset: u128, text: &mut String) -> Result<(), AllocError>
    ensures tokens { OnOk result (out.new.tokens ≡ out.old.tokens ++ (key (codes "offset") ∷ token.number (decimal offset) ∷ [])) }
    ensures before { out.new.before ≡ out.old.before }
{
    out.key("offset")?;
    match u64::try_from(offset) {
        Ok(offset) => out.u64(offset),
        Err(_) => {
            text.clear();
            write!(text, "{offset}")?;
            out.number(text.as_str())
        }
    }
}

/// Writes a number as a member.
fn write_number(out: &mut Writer, name: &str, number: u64) -> Result<(), AllocError>
    ensures tokens { OnOk result (out.new.tokens ≡ out.old.tokens
        ++ (key name.now ∷ token.number (decimal number) ∷ [])) }
    ensures before { out.new.before ≡ out.old.before }
{
    out.key(name)?;
    out.u64(number)
}

/// Writes a flag as a member.
fn write_flag(out: &mut Writer, name: &str, flag: bool) -> Result<(), AllocError>
    ensures tokens { OnOk result (out.new.tokens ≡ out.old.tokens ++ (key name.now ∷ boolean flag ∷ [])) }
    ensures before { out.new.before ≡ out.old.before }
{
    out.key(name)?;
    out.boolean(flag)
}

/// Writes whether an acknowledgement is requested, for a type that has that flag.
fn write_ack(out: &mut Writer, flag: Option<bool>) -> Result<(), AllocError>
    ensures tokens { OnOk result (out.new.tokens ≡ out.old.tokens ++ ack_tokens flag) }
    ensures before { out.new.before ≡ out.old.before }
{
    match flag {
        Some(flag) => write_flag(out, "requestedAck", flag),
        None => Ok(()),
    }
}

/// Writes the bytes of a header as the member `header`, if its word is not the one that it is written as.
fn write_header(
    out: &mut Writer,
    word: u64,
    written: u128,
    base64: &mut Vec<u8>,
) -> Result<(), AllocError>
    ensures tokens { OnOk result (out.new.tokens ≡ out.old.tokens ++ header_tokens word written) }
    ensures before { out.new.before ≡ out.old.before }
{
    if u128::from(word) == written {
        return Ok(());
    }
    out.key("header")?;
    write_byte_string(out, base64, false, &word.to_be_bytes())
}

/// Writes bytes as the member `bytes`: in base64, or as a text if texts are wanted and they are one.
fn write_bytes(
    out: &mut Writer,
    texts: bool,
    bytes: &[u8],
    base64: &mut Vec<u8>,
) -> Result<(), AllocError>
    ensures tokens { OnOk result (out.new.tokens ≡ out.old.tokens
        ++ (key (codes "bytes") ∷ json_tokens (byte_string_json texts bytes.now))) }
    ensures before { out.new.before ≡ out.old.before }
{
    out.key("bytes")?;
    write_byte_string(out, base64, texts, bytes)
}
