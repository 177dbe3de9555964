//! Objects on several lines.

ghost use Rattle.std.specs.Prelude.{◌≡◌, IfOk};
ghost use Rattle.std.specs.Str.{IsUtf8};
ghost use Rattle.json.specs.Layout.{pretty};
ghost use Rattle.json.specs.Lex.{tokens};
ghost use Rattle.dump_lines.specs.Spread.{AreGood};

use json::{Pretty, Reader, Scratch};
use std::alloc::{AllocError, Global};

/// The text of an object with each member and each element on a line of its own, indented by two spaces a level. The
/// object is read again token by token, so no tree of it is made.
pub fn pretty_text(alloc: Global, object: &[u8]) -> Result<Vec<u8>, AllocError>
    requires utf8 { IsUtf8 object.now }
    requires good { AreGood (tokens object.now) }
    ensures { IfOk result (λ text. text.items ≡ pretty (tokens object.now)) }
{
    let Ok(object) = str::from_utf8(object) else {
        unreachable!();
    };
    let mut scratch = Scratch::new(alloc);
    let mut reader = Reader::new(object, &mut scratch)?;
    let mut text = Pretty::new(alloc);
    while let Some(token) = reader.next() {
        text.token(token)?;
    }
    Ok(text.into_inner())
}
