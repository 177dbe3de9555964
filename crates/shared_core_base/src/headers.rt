//! Headers of a request, as the SDK state machine passes them.

ghost use Rattle.std.specs.Prelude.{◌≡◌, ℕ, List, Option, IfOk, IsOk};
ghost use Rattle.std.specs.Option.{option_copied};
ghost use Rattle.std.specs.Str.{str_eq_ignore_ascii_case};
ghost use Rattle.shared_core_base.specs.Headers.{header_value};

use std::convert::Infallible;
use std::fmt;

/// A collection of headers in which a value is found by its name.
pub trait HeaderMap {
    /// Why a value that is there cannot be returned.
    type Error: fmt::Debug;

    /// The value of the header of a name, if there is one.
    ghost value_of: { Self → List ℕ → Option (List ℕ) };

    /// Finds the value of the header with this name. It fails if a value is not text.
    fn extract(&self, name: &str) -> Result<Option<&str>, Self::Error>
        ensures { IfOk result (λ found. option_copied found ≡ value_of self.now name.now) };
}

/// The value is that of the first pair whose key is the name, without regard to ASCII case. It never fails.
impl HeaderMap for Vec<(String, String)> {
    type Error = Infallible;

    ghost value_of = { λ headers name. header_value name headers.items };

    fn extract(&self, name: &str) -> Result<Option<&str>, Infallible>
        ensures found { IfOk result (λ found. option_copied found ≡ header_value name.now self.now.items) }
        ensures never_fails { IsOk result }
    {
        let found = self
            .iter()
            .find(|header| is_same_name(header.0.as_str(), name));
        Ok(found.map(|header| header.1.as_str()))
    }
}

/// Whether two names of headers are the same, without regard to ASCII case.
fn is_same_name(key: &str, name: &str) -> bool
    ensures { result ≡ str_eq_ignore_ascii_case key.now name.now }
{
    key.eq_ignore_ascii_case(name)
}
