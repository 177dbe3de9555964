//! Names of types that the protocol does not have.

ghost use Rattle.std.specs.Prelude.{◌≡◌, option_map};
ghost use Rattle.list_lines.specs.Listing.{name_at, other_name};

use crate::options::OtherName;
use shared_core_base::header::MessageType;

/// The first name that is given for a code.
pub fn name_at<'a>(names: &[OtherName<'a>], code: u16) -> Option<&'a str>
    ensures { option_map (λ name. name.now) result ≡ name_at names.now code }
{
    for name in names {
        if name.code == code {
            return Some(name.name);
        }
    }
    None
}

/// The name that is given for a type: only for a custom entry.
pub fn other_name<'a>(names: &[OtherName<'a>], ty: MessageType) -> Option<&'a str>
    ensures { option_map (λ name. name.now) result ≡ other_name names.now ty }
{
    match ty {
        MessageType::CustomEntry(code) => name_at(names, code),
        _ => None,
    }
}
