//! Escapes for the bytes between the quotes of `b".."`.
//!
//! the standard library's `Bytes` prints the same by `Debug`, but its contract leaves the text open, so a difference
//! that holds it could not be exact.

ghost use Rattle.std.specs.Prelude.{◌≡◌, ◌<◌, false};
ghost use Rattle.std.specs.Fmt.{WritesOnOk, digit_glyph};
ghost use Rattle.std.specs.List.{flat_map};
ghost use Rattle.shared_core_parts.specs.Texts.{escaped_byte};

use std::fmt;

/// Writes the bytes with their escapes.
pub(crate) fn write_escaped<W: fmt::Write>(f: &mut fmt::Formatter<W>, bytes: &[u8]) -> fmt::Result
    ensures { WritesOnOk W.write_str_gives f.old result (flat_map escaped_byte bytes.now) f.new }
{
    for byte in bytes {
        write_escaped_byte(f, *byte)?;
    }
    Ok(())
}

fn write_escaped_byte<W: fmt::Write>(f: &mut fmt::Formatter<W>, byte: u8) -> fmt::Result
    ensures { WritesOnOk W.write_str_gives f.old result (escaped_byte byte) f.new }
{
    match byte {
        b'\n' => f.write_str("\\n"),
        b'\r' => f.write_str("\\r"),
        b'\t' => f.write_str("\\t"),
        b'\0' => f.write_str("\\0"),
        b'\\' => f.write_str("\\\\"),
        b'"' => f.write_str("\\\""),
        0x20..=0x7E => f.write_char(char::from(byte)),
        _ => {
            f.write_str("\\x")?;
            f.write_char(hexadecimal_digit(byte / 16))?;
            f.write_char(hexadecimal_digit(byte % 16))
        }
    }
}

fn hexadecimal_digit(digit: u8) -> char
    requires { digit < 16 }
    ensures value { result ≡ digit_glyph false digit }
    ensures ascii { result < 128 }
{
    char::from(if digit < 10 {
        b'0' + digit
    } else {
        b'a' - 10 + digit
    })
}
