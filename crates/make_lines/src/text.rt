//! What the bytes of a line say before they are read as JSON.

ghost use Rattle.std.specs.Prelude.{◌≡◌, ◌-◌, length, slice_get};
ghost use Rattle.make_lines.specs.Lines.{is_space, is_blank};
ghost use Rattle.make_lines.specs.Appending.{begins_object, closes, is_cut_off};

/// Whether a byte is a space, a tab or a carriage return.
fn is_space(byte: u8) -> bool
    ensures { result ≡ is_space byte }
{
    byte == b' ' || byte == b'\t' || byte == b'\r'
}

/// Whether a line has nothing but spaces, tabs and carriage returns.
pub fn is_blank(line: &[u8]) -> bool
    ensures { result ≡ is_blank line.now }
{
    for byte in line {
        if !is_space(*byte) {
            return false;
        }
    }
    true
}

/// Whether a line begins an object.
fn begins_object(line: &[u8]) -> bool
    ensures { result ≡ begins_object line.now }
{
    for byte in line {
        if !is_space(*byte) {
            return *byte == b'{';
        }
    }
    false
}

/// Whether the last byte closes an object or an array.
fn closes(line: &[u8]) -> bool
    ensures { result ≡ closes (slice_get line.now (length line.now - 1)) }
{
    match line.last() {
        Some(byte) => *byte == b'}' || *byte == b']',
        None => false,
    }
}

/// Whether a line that stops being JSON at an offset ends within an object.
pub fn is_cut_off(line: &[u8], offset: usize) -> bool
    ensures { result ≡ is_cut_off line.now offset }
{
    begins_object(line) && offset == line.len() && !closes(line)
}
