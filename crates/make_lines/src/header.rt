//! The header of the item that a line describes, and the payload after it.

ghost use Rattle.std.specs.Prelude.{◌≡◌, ◌++◌, length, Some, None, Ok, IfOk, IfErr, OnOk, MatchResult};
ghost use Rattle.json.specs.Json.{Json};
ghost use Rattle.make_lines.specs.Errors.{lack};
ghost use Rattle.make_lines.specs.Lines.{then_read, line_code, ack_name, line_flag, word, is_alone, line_header};
ghost use Rattle.make_lines.specs.Lines.{framed, agrees_in_flag, word_fault, alone_given, with_size, header_given};
ghost use Rattle.make_lines.specs.Places.{name_at};
ghost use Rattle.make_lines.specs.Appending.{said_of, Rejects, AppendsOf, AppendsAnywhere};

use crate::code::{Coded, code_of};
use crate::error::LineReason;
use crate::members::{ACK, HEADER, LINE, Line, REQUESTED_ACK, UNKNOWN};
use crate::payload::bytes_of;
use crate::reject::Fault;
use shared_core_base::version::Version;
use shared_core_json_reader::Reason;
use std::alloc::Global;

/// What a code is multiplied by in the word of a header.
const CODE_UNIT: u64 = 1 << 48;

/// What a flag is multiplied by there.
const FLAG: u64 = 1 << 47;

/// One more than the greatest length there.
const LENGTHS: u64 = 1 << 32;

/// The place of the member for whether an acknowledgement is requested.
fn ack_place(line: &Line<'_, '_>) -> u8
    ensures { name_at result ≡ ack_name line.now }
{
    match line.given(REQUESTED_ACK) {
        Some(_) => REQUESTED_ACK,
        None => ACK,
    }
}

/// Whether a line requests an acknowledgement.
fn flag_of(coded: Coded, line: &Line<'_, '_>) -> Result<bool, Fault>
    ensures { MatchResult result (λ flag. line_flag coded.code line.now ≡ Ok flag)
        (Rejects line.now (line_flag coded.code line.now)) }
{
    let Some(value) = line.given_either(REQUESTED_ACK, ACK) else {
        return Ok(false);
    };
    if !coded.has_flag() {
        return Err(Fault::at(ack_place(line), LineReason::NoFlag));
    }
    match value.as_bool() {
        Some(flag) => Ok(flag),
        None => Err(Fault::at(ack_place(line), LineReason::Json(Reason::WrongKind))),
    }
}

/// The word of a header.
fn word(code: u16, flag: bool, size: u32) -> u64
    ensures { result ≡ word code flag size }
{
    let flag = if flag { FLAG } else { 0 };
    u64::from(code) * CODE_UNIT + flag + u64::from(size)
}

/// Whether a line says that there is no payload.
fn is_alone(line: &Line<'_, '_>) -> bool
    ensures { result ≡ is_alone line.now }
{
    line.given(UNKNOWN).is_some()
}

/// Whether the word of a header has this flag, which only some types have.
fn agrees_in_flag(coded: Coded, flag: bool, word: u64) -> bool
    ensures { result ≡ agrees_in_flag coded.code flag word }
{
    let bit = if flag { 1 } else { 0 };
    !coded.has_flag() || word / FLAG % 2 == bit
}

/// Appends a given header without a payload. Where unknown types are skipped with their payloads, it has no length.
fn append_alone(version: Version, word: u64, header: &[u8], out: &mut Vec<u8>) -> Result<(), Fault>
    ensures { AppendsAnywhere result (alone_given version word header.now) out.old.items out.new.items }
{
    if version.skips_unknown_messages() && word % LENGTHS != 0 {
        return Err(Fault::at(HEADER, LineReason::NoSuchPayload));
    }
    append(header, out)
}

/// Appends the header that has the code and the flags of a given one, and this length.
fn append_sized(size: usize, header: &[u8], out: &mut Vec<u8>) -> Result<(), Fault>
    requires { length header.now ≡ 8 }
    ensures { AppendsAnywhere result (with_size size header.now) out.old.items out.new.items }
{
    let Ok(size) = u32::try_from(size) else {
        return Err(Fault::at(LINE, LineReason::TooLong));
    };
    append(&header[..4], out)?;
    append(&size.to_be_bytes(), out)
}

/// Appends bytes.
pub fn append(bytes: &[u8], out: &mut Vec<u8>) -> Result<(), Fault>
    ensures ok { OnOk result (out.new.items ≡ out.old.items ++ bytes.now) }
    ensures err { IfErr result (λ fault. fault.reason ≡ lack) }
{
    match out.extend_from_slice(bytes) {
        Ok(()) => Ok(()),
        Err(_) => Err(Fault::out_of_memory()),
    }
}

/// What a line says of the header of its item, except for the length.
#[derive(Clone, Copy, Drop)]
pub struct Head {
    pub version: Version,
    pub coded: Coded,
    pub flag: bool,
}

impl Head {
    /// Checks that the word of a header has this code and this flag.
    fn check_word(&self, word: u64) -> Result<(), Fault>
        ensures { MatchResult result (λ _. word_fault self.now.coded.code self.now.flag word ≡ None)
            (λ fault. (line : Json) → word_fault self.now.coded.code self.now.flag word ≡ Some (said_of line fault)) }
    {
        if word / CODE_UNIT != u64::from(self.coded.code) {
            return Err(Fault::at(HEADER, LineReason::OtherCode));
        }
        if !agrees_in_flag(self.coded, self.flag, word) {
            return Err(Fault::at(HEADER, LineReason::OtherFlag));
        }
        Ok(())
    }

    /// Appends the header by eight given bytes: all of them if there is no payload. Otherwise it appends the first
    /// four, which are the code and the flags, and the length of the payload.
    fn append_given(
        &self,
        size: usize,
        alone: bool,
        header: &[u8],
        out: &mut Vec<u8>,
    ) -> Result<(), Fault>
        ensures { AppendsAnywhere result
            (header_given self.now.version self.now.coded.code self.now.flag size alone header.now)
            out.old.items out.new.items }
    {
        let Ok(bytes) = <[u8; 8]>::try_from(header) else {
            return Err(Fault::at(HEADER, LineReason::HeaderLength));
        };
        let word = u64::from_be_bytes(bytes);
        self.check_word(word)?;
        if alone {
            append_alone(self.version, word, header, out)
        } else {
            append_sized(size, header, out)
        }
    }

    /// Appends a header, of a payload of this size.
    fn append_header(
        &self,
        alloc: Global,
        size: usize,
        line: &Line<'_, '_>,
        out: &mut Vec<u8>,
    ) -> Result<(), Fault>
        ensures { AppendsOf line.now result
            (line_header self.now.version self.now.coded.code self.now.flag size line.now)
            out.old.items out.new.items }
    {
        if let Some(header) = line.given(HEADER) {
            let header = bytes_of(alloc, &header, HEADER)?;
            return self.append_given(size, is_alone(line), header.as_slice(), out);
        }
        let Ok(size) = u32::try_from(size) else {
            return Err(Fault::at(LINE, LineReason::TooLong));
        };
        append(&word(self.coded.code, self.flag, size).to_be_bytes(), out)
    }

    /// Appends a header and its payload.
    pub fn append_framed(
        &self,
        alloc: Global,
        payload: &[u8],
        line: &Line<'_, '_>,
        out: &mut Vec<u8>,
    ) -> Result<(), Fault>
        ensures { AppendsOf line.now result
            (framed self.now.version self.now.coded.code self.now.flag line.now payload.now)
            out.old.items out.new.items }
    {
        self.append_header(alloc, payload.len(), line, out)?;
        append(payload, out)
    }
}

/// What a line says of the header of its item.
pub fn head_of(alloc: Global, version: Version, line: &Line<'_, '_>) -> Result<Head, Fault>
    ensures ok { IfOk result (λ head. (head.version ≡ version) × (line_code line.now ≡ Ok head.coded.code)
        × (line_flag head.coded.code line.now ≡ Ok head.flag)) }
    ensures err { IfErr result (Rejects line.now (then_read (λ code. line_flag code line.now) (line_code line.now))) }
{
    let coded = code_of(alloc, line)?;
    let flag = flag_of(coded, line)?;
    Ok(Head {
        version,
        coded,
        flag,
    })
}
