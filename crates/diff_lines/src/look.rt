//! How a text is shown: as it is, escaped for a terminal, or in colors.

ghost use Rattle.std.specs.Prelude.{◌≡◌, ◌++◌, IfOk, OnOk};
ghost use Rattle.std.specs.String.{string_bytes};
ghost use Rattle.diff_lines.specs.Shown.{shown_part, shown_value};

use std::alloc::{AllocError, Global};
use terminal_text::{Escapes, Style, paint, push_escaped};

/// How a text is shown.
#[derive(Debug, Clone, Copy, PartialEq, Eq, Drop)]
pub struct Look {
    /// Whether what comes from the journals is escaped, as for a terminal, line feeds too, so that no value looks like
    /// a line of its own.
    pub is_escaped: bool,
    /// Whether it has colors: what is recorded is red, and what is replayed green.
    pub is_colored: bool,
    /// Whether two values are shown around their difference, if one of them has more than 80 bytes.
    pub is_short: bool,
}

/// What writes a text in a look.
#[derive(Clone, Copy, Drop)]
pub(crate) struct Pen {
    pub alloc: Global,
    pub look: Look,
}

impl Pen {
    /// Appends a part, in this style if there are colors.
    pub fn push(self, text: &mut Vec<u8>, style: Style, part: &str) -> Result<(), AllocError>
        ensures { OnOk result (text.new.items ≡ text.old.items ++ shown_part self.look.is_colored style part.now) }
    {
        push_part(text, self.look.is_colored, style, part.as_bytes())
    }

    /// What comes from a journal, escaped or as it is.
    pub fn shown_value(self, value: &str) -> Result<String, AllocError>
        ensures { IfOk result (λ shown. string_bytes shown ≡ shown_value self.look.is_escaped value.now) }
    {
        if !self.look.is_escaped {
            return String::from_str(self.alloc, value);
        }
        let mut escaped = String::new(self.alloc);
        push_escaped(&mut escaped, Escapes::Text, value)?;
        Ok(escaped)
    }
}

/// Appends a part, in this style or as it is.
pub(crate) fn push_part(
    text: &mut Vec<u8>,
    is_colored: bool,
    style: Style,
    part: &[u8],
) -> Result<(), AllocError>
    ensures { OnOk result (text.new.items ≡ text.old.items ++ shown_part is_colored style part.now) }
{
    if is_colored {
        return paint(text, style, part);
    }
    text.extend_from_slice(part)
}
