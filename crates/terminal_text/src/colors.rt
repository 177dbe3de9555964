//! The colors of a text on a terminal.

ghost use Rattle.std.specs.Prelude.{◌≡◌, ◌++◌, OnOk};
ghost use Rattle.terminal_text.specs.Painting.{closing, opening, painted_part};

use std::alloc::AllocError;

/// How a part of a text is shown.
#[derive(Clone, Copy, Debug, PartialEq, Eq, Drop)]
pub enum Style {
    /// As it is.
    Plain,
    /// In bold.
    Bold,
    /// In red.
    Red,
    /// In green.
    Green,
}

/// Appends a part of a text in this style: its bytes, between the sequences of the style if there are any bytes.
pub fn paint(painted: &mut Vec<u8>, style: Style, part: &[u8]) -> Result<(), AllocError>
    ensures { OnOk result (painted.new.items ≡ painted.old.items ++ painted_part style part.now) }
{
    if part.is_empty() {
        return Ok(());
    }
    painted.extend_from_slice(opening(style))?;
    painted.extend_from_slice(part)?;
    painted.extend_from_slice(closing(style))
}

/// The sequence that begins a style.
fn opening(style: Style) -> &'static [u8]
    ensures { result.now ≡ opening style }
{
    match style {
        Style::Plain => b"",
        Style::Bold => b"\x1b[1m",
        Style::Red => b"\x1b[31m",
        Style::Green => b"\x1b[32m",
    }
}

/// The sequence that ends a style.
fn closing(style: Style) -> &'static [u8]
    ensures { result.now ≡ closing style }
{
    match style {
        Style::Plain => b"",
        Style::Bold | Style::Red | Style::Green => b"\x1b[0m",
    }
}
