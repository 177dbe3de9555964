//! Texts of others on a terminal. A journal is somebody else's bytes, and a terminal takes some characters as commands.

ghost use Rattle.std.specs.Prelude.{◌≡◌, ◌≤◌, ◌++◌, length, take, string_bytes, IfOk, IfSome, OnOk};
ghost use Rattle.std.specs.Io.{WritesAtMost};
ghost use Rattle.std.specs.Io.KnownBytes.{Appends, WriteAppends};
ghost use Rattle.std.specs.Str.Lossy.{utf8_lossy};
ghost use Rattle.terminal_text.specs.Texts.{escape, escaped_text, is_steering, known_contents};
ghost use Rattle.terminal_text.specs.Texts.{leading_zeros, stays, written_char};

use std::alloc::{AllocError, Global};
use std::io::{self, Write};

/// How the characters that a terminal may take as commands are escaped.
#[derive(Clone, Copy, Debug, PartialEq, Eq, Drop)]
pub enum Escapes {
    /// As `\u{1b}`: in a text.
    Text,
    /// The same in several lines, between which the line feeds stay.
    Lines,
    /// As `\u001b`, which has the same meaning in a string of JSON. The line feeds between the lines stay.
    Json,
}

/// Whether a terminal may take a character as a command, or may move what is next to it. Such are a control character,
/// a separator of lines or of paragraphs, and one that sets the direction of text.
fn is_steering(c: char) -> bool
    ensures { result ≡ is_steering c }
{
    let code = u32::from(c);
    c.is_control()
        || code == 0x61c
        || (0x200e <= code && code <= 0x200f)
        || (0x2028 <= code && code <= 0x202e)
        || (0x2066 <= code && code <= 0x2069)
}

/// Whether a character stays as it is.
fn stays(escapes: Escapes, c: char) -> bool
    ensures { result ≡ stays escapes c }
{
    (c == '\n' && escapes != Escapes::Text) || !is_steering(c)
}

/// The zeros before the hexadecimal digits of a code that has at most four of them.
fn leading_zeros(code: u32) -> &'static str
    ensures { result.now ≡ leading_zeros code }
{
    if code < 0x10 {
        "000"
    } else if code < 0x100 {
        "00"
    } else if code < 0x1000 {
        "0"
    } else {
        ""
    }
}

/// Appends a character, escaped.
fn push_escape(text: &mut String, escapes: Escapes, c: char) -> Result<(), AllocError>
    ensures { OnOk result (string_bytes text.new ≡ string_bytes text.old ++ escape escapes c) }
{
    let code = u32::from(c);
    match escapes {
        Escapes::Text | Escapes::Lines => write!(text, "\\u{{{code:x}}}"),
        Escapes::Json => {
            let zeros = leading_zeros(code);
            write!(text, "\\u{zeros}{code:x}")
        }
    }
}

/// Appends a character, escaped if it does not stay.
fn push_char(text: &mut String, escapes: Escapes, c: char) -> Result<(), AllocError>
    ensures { OnOk result (string_bytes text.new ≡ string_bytes text.old ++ written_char escapes c) }
{
    if stays(escapes, c) {
        return text.push(c);
    }
    push_escape(text, escapes, c)
}

/// Appends a text in which each character that a terminal may take as a command is escaped.
pub fn push_escaped(escaped: &mut String, escapes: Escapes, text: &str) -> Result<(), AllocError>
    ensures { OnOk result (string_bytes escaped.new ≡ string_bytes escaped.old ++ escaped_text escapes text.now) }
{
    for c in text.chars() {
        push_char(escaped, escapes, c)?;
    }
    Ok(())
}

/// A writer before another one, which may be a terminal. If it is, characters that it may take as commands are escaped
/// on the way, and bytes that are not UTF-8 are shown as U+FFFD. Otherwise it has the bytes as they come.
///
/// It holds nothing back, so a character of which a write has only a part is shown as U+FFFD too. The programs write
/// whole lines.
#[derive(Drop)]
pub struct Escaping<W> {
    alloc: Global,
    writer: W,
    /// How characters are escaped; nothing if the writer is not a terminal.
    escapes: Option<Escapes>,
}

impl<W> Escaping<W> {
    ghost use Rattle.std.specs.Prelude.{◌≡◌, if◌then◌else◌, Some, None};

    /// Writes to this writer, and escapes characters so, if it is a terminal.
    pub fn new(alloc: Global, writer: W, escapes: Escapes, is_terminal: bool) -> Escaping<W>
        ensures { result ≡ record {
          alloc = alloc;
          writer = writer;
          escapes = if is_terminal then Some escapes else None;
        } }
    {
        Escaping {
            alloc,
            writer,
            escapes: if is_terminal { Some(escapes) } else { None },
        }
    }
}

impl<W: Write> Write for Escaping<W> {
    ghost contents = { λ output. known_contents output.escapes (W.contents output.writer) };

    fn write(&mut self, buf: &[u8]) -> io::Result<usize>
        ensures bound { WritesAtMost result buf.now }
        ensures bytes { WriteAppends (known_contents self.old.escapes (W.contents self.old.writer))
            (known_contents self.new.escapes (W.contents self.new.writer)) result buf.now }
        ensures escaped { IfSome self.old.escapes (λ escapes. IfOk result (λ count.
            Appends (W.contents self.old.writer) (W.contents self.new.writer)
            (escaped_text escapes (utf8_lossy (take count buf.now))))) }
    {
        let Some(escapes) = self.escapes else {
            return self.writer.write(buf);
        };
        let (text, count) = front_text(buf);
        let mut escaped = String::new(self.alloc);
        push_escaped(&mut escaped, escapes, text)?;
        self.writer.write_all(escaped.as_bytes())?;
        Ok(count)
    }

    fn flush(&mut self) -> io::Result<()> {
        self.writer.flush()
    }
}

/// The text that bytes begin with, and how many of the bytes it takes: the longest one, or U+FFFD for the first byte
/// if no character begins there.
fn front_text(bytes: &[u8]) -> (&str, usize)
    ensures count { result.1 ≤ length bytes.now }
    ensures text { result.0.now ≡ utf8_lossy (take result.1 bytes.now) }
{
    let valid = match str::from_utf8(bytes) {
        Ok(text) => return (text, bytes.len()),
        Err(error) => error.valid_up_to(),
    };
    if valid == 0 {
        return ("\u{fffd}", 1);
    }
    match str::from_utf8(&bytes[..valid]) {
        Ok(text) => (text, valid),
        Err(_) => unreachable!(),
    }
}
