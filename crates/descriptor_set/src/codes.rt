//! The codes of types that the comments of a .proto file say, as `Type: 0x0400 + 2`.

ghost use Rattle.std.specs.Prelude.{◌≡◌, ◌≤◌, IfOk, IfSome, None, Some, length};
ghost use Rattle.std.specs.Char.{digit_value};
ghost use Rattle.std.specs.List.{prefix_len};
ghost use Rattle.descriptor_set.specs.Codes.{after_prefix, after_spaces, after_word, code_after, code_at, code_behind};
ghost use Rattle.descriptor_set.specs.Codes.{code_with, first_number, first_word, has_space, is_word, IsSmall, joined};
ghost use Rattle.descriptor_set.specs.Codes.{marked_number, number_of, opened, plain_code, said_at, said_codes};
ghost use Rattle.descriptor_set.specs.Codes.{second_number, with_second};

use std::alloc::{AllocError, Global};

/// What stands for all numbers that are greater than a code.
const TOO_LARGE: u32 = 65_536;

/// A code that a comment says. Where it is in two numbers, the second one may not say its base. A number of 65,536 or
/// more is none that a type has.
#[derive(Clone, Copy, Debug, PartialEq, Eq, Drop)]
pub struct SaidCode {
    /// The code if the second number is decimal; `None` if that has a hexadecimal digit above 9.
    pub decimal: Option<u32>,
    /// The code if the second number is hexadecimal.
    pub hexadecimal: u32,
}

/// Whether a byte is a letter, a digit or an underscore.
fn is_word(byte: u8) -> bool
    ensures { result ≡ is_word byte }
{
    byte.is_ascii_alphanumeric() || byte == b'_'
}

/// A text without the spaces before it.
fn after_spaces(text: &[u8]) -> &[u8]
    ensures { result.now ≡ after_spaces text.now }
{
    let mut rest = text;
    while let Some((first, after)) = rest.split_first() {
        if !first.is_ascii_whitespace() {
            return rest;
        }
        rest = after;
    }
    rest
}

/// Whether a text begins with a space.
fn has_space(text: &[u8]) -> bool
    ensures { result ≡ has_space text.now }
{
    match text.first() {
        Some(first) => first.is_ascii_whitespace(),
        None => false,
    }
}

/// What is after a prefix, which is in lower case, if a text begins with it in upper or lower case.
fn after_prefix<'a>(prefix: &[u8], text: &'a [u8]) -> Option<&'a [u8]>
    ensures none { result ≡ None → after_prefix prefix.now text.now ≡ None }
    ensures some { IfSome result (λ rest. after_prefix prefix.now text.now ≡ Some rest.now) }
{
    let mut wanted = prefix;
    let mut rest = text;
    while let Some((letter, others)) = wanted.split_first() {
        let (first, after) = rest.split_first()?;
        if first.to_ascii_lowercase() != *letter {
            return None;
        }
        wanted = others;
        rest = after;
    }
    Some(rest)
}

/// The value of a digit of a base up to 36; 36 of any other byte.
fn digit_value(byte: u8) -> u32
    ensures { result ≡ digit_value byte }
{
    match byte {
        b'0'..=b'9' => u32::from(byte - b'0'),
        b'A'..=b'Z' => u32::from(byte - b'A') + 10,
        b'a'..=b'z' => u32::from(byte - b'a') + 10,
        _ => 36,
    }
}

/// The number of one or more digits of a base, at most `TOO_LARGE`; `None` if there are others.
fn number_of(base: u32, digits: &[u8]) -> Option<u32>
    requires { base ≤ 16 }
    ensures number { result ≡ number_of base digits.now }
    ensures small { IfSome result (λ number. number ≤ 65536) }
{
    if digits.is_empty() {
        return None;
    }
    let mut rest = digits;
    let mut number: u32 = 0;
    while let Some((first, after)) = rest.split_first() {
        let digit = digit_value(*first);
        if digit >= base {
            return None;
        }
        number = (number * base + digit).min(TOO_LARGE);
        rest = after;
    }
    Some(number)
}

/// The number of hexadecimal digits after `0x`.
fn marked_number(word: &[u8]) -> Option<u32>
    ensures number { result ≡ marked_number word.now }
    ensures small { IfSome result (λ number. number ≤ 65536) }
{
    match after_prefix(b"0x", word) {
        Some(digits) => number_of(16, digits),
        None => None,
    }
}

/// The first number of a code. Without a sign before it only one with `0x` is one.
fn first_number(is_signed: bool, word: &[u8]) -> Option<u32>
    ensures number { result ≡ first_number is_signed word.now }
    ensures small { IfSome result (λ number. number ≤ 65536) }
{
    match marked_number(word) {
        Some(number) => Some(number),
        None if is_signed => number_of(10, word),
        None => None,
    }
}

/// A number that says its base, or needs none.
fn plain_code(number: u32) -> SaidCode
    ensures { result ≡ plain_code number }
{
    SaidCode {
        decimal: Some(number),
        hexadecimal: number,
    }
}

/// What a second number may be.
fn second_number(word: &[u8]) -> Option<SaidCode>
    ensures number { result ≡ second_number word.now }
    ensures small { IfSome result IsSmall }
{
    if let Some(number) = marked_number(word) {
        return Some(plain_code(number));
    }
    let hexadecimal = number_of(16, word)?;
    Some(SaidCode {
        decimal: number_of(10, word),
        hexadecimal,
    })
}

/// Two numbers whose bits are joined, or their sum.
fn joined(is_joined: bool, first: u32, second: u32) -> u32
    requires first_is_small { first ≤ 65536 }
    requires second_is_small { second ≤ 65536 }
    ensures { result ≡ joined is_joined first second }
{
    if is_joined {
        first | second
    } else {
        first + second
    }
}

/// A code of a first number, and of a second one if there is one.
fn with_second(is_joined: bool, first: u32, second: Option<SaidCode>) -> SaidCode
    requires first_is_small { first ≤ 65536 }
    requires second_is_small { IfSome second IsSmall }
    ensures { result ≡ with_second is_joined first second }
{
    match second {
        Some(second) => SaidCode {
            decimal: match second.decimal {
                Some(number) => Some(joined(is_joined, first, number)),
                None => None,
            },
            hexadecimal: joined(is_joined, first, second.hexadecimal),
        },
        None => plain_code(first),
    }
}

/// How long the word is that a text begins with.
fn word_length(text: &[u8]) -> usize
    ensures same { result ≡ prefix_len is_word text.now }
    ensures bound { result ≤ length text.now }
{
    let mut rest = text;
    let mut length = 0;
    while let Some((first, after)) = rest.split_first() {
        if !is_word(*first) {
            return length;
        }
        length += 1;
        rest = after;
    }
    length
}

/// The word that a text begins with, and what is after it.
fn split_word(text: &[u8]) -> (&[u8], &[u8])
    ensures word { result.0.now ≡ first_word text.now }
    ensures after { result.1.now ≡ after_word text.now }
{
    text.split_at(word_length(text))
}

/// The code of a first number and of what is after it.
fn code_with(first: u32, text: &[u8]) -> SaidCode
    requires { first ≤ 65536 }
    ensures { result ≡ code_with first (after_spaces text.now) }
{
    let Some((sign, rest)) = after_spaces(text).split_first() else {
        return plain_code(first);
    };
    if *sign != b'+' && *sign != b'|' {
        return plain_code(first);
    }
    let (word, _) = split_word(after_spaces(rest));
    with_second(*sign == b'|', first, second_number(word))
}

/// The code that a text begins with, behind a sign or not.
fn code_at(is_signed: bool, text: &[u8]) -> Option<SaidCode>
    ensures { result ≡ code_at is_signed text.now }
{
    let (word, rest) = split_word(text);
    match first_number(is_signed, word) {
        Some(first) => Some(code_with(first, rest)),
        None => None,
    }
}

/// A text without what opens a number in it.
fn opened(text: &[u8]) -> &[u8]
    ensures { result.now ≡ opened text.now }
{
    if let Some(rest) = after_prefix(b"`", text) {
        return rest;
    }
    match after_prefix(b"<code>", text) {
        Some(rest) => rest,
        None => text,
    }
}

/// The code in what is after the word `type` or `code`.
fn code_behind(text: &[u8]) -> Option<SaidCode>
    ensures { result ≡ code_behind (has_space text.now) (after_spaces text.now) }
{
    let rest = after_spaces(text);
    let (sign, after) = rest.split_first()?;
    if *sign == b':' || *sign == b'=' {
        return code_at(true, opened(after_spaces(after)));
    }
    if has_space(text) {
        code_at(false, opened(rest))
    } else {
        None
    }
}

/// The code that the word of this name says, if a text begins with it.
fn code_of_word(name: &[u8], text: &[u8]) -> Option<SaidCode>
    ensures { result ≡ code_after (after_prefix name.now text.now) }
{
    match after_prefix(name, text) {
        Some(rest) => code_behind(rest),
        None => None,
    }
}

/// The code that the first word of a text says.
fn said_at(text: &[u8]) -> Option<SaidCode>
    ensures { result ≡ said_at text.now }
{
    match code_of_word(b"type", text) {
        Some(code) => Some(code),
        None => code_of_word(b"code", text),
    }
}

/// The codes that a comment says.
pub fn said_codes(alloc: Global, text: &[u8]) -> Result<Vec<SaidCode>, AllocError>
    ensures { IfOk result (λ codes. codes.items ≡ said_codes text.now) }
{
    let mut codes = Vec::new(alloc);
    let mut rest = text;
    let mut is_within = false;
    while let Some((first, after)) = rest.split_first() {
        if !is_within && let Some(code) = said_at(rest) {
            codes.push(code)?;
        }
        is_within = is_word(*first);
        rest = after;
    }
    Ok(codes)
}
