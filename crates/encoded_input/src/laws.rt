//! Laws of what a text means. Each is the contract of a function that does nothing.

ghost use Rattle.std.specs.Prelude.{◌≡◌, ◌≢◌, ◌++◌, ◌∷◌, ◌-◌, ◌^◌, [], ℕ, Bool, List, Some, None, codes, length};
ghost use Rattle.std.specs.Prelude.{min, true};
ghost use Rattle.hex.specs.Hex.{encode_lower, encode_upper, IsBytes};
ghost use Rattle.base64.specs.Rfc4648.{encode};
ghost use Rattle.base64.specs.Alphabets.{standard, url_safe};
ghost use Rattle.encoded_input.specs.declared.encoding.Encoding.{Encoding as AnyEncoding};
ghost use Rattle.encoded_input.specs.declared.encoding.Encoding.TheVariants.{Base64, Hex};
ghost use Rattle.encoded_input.specs.declared.fault.Fault.TheVariants.{Character};
ghost use Rattle.encoded_input.specs.Meaning.{start, takes_blanks, Means};
ghost use Rattle.encoded_input.specs.Text.{is_blank, past_fault, position_after, text_fault};

/// The digits of bytes, of either case, mean these bytes, after either prefix or none.
pub fn hexadecimal_digits_mean_their_bytes()
    ensures lower { (bytes : List ℕ) → IsBytes bytes → Means Hex (encode_lower bytes) bytes }
    ensures upper { (bytes : List ℕ) → IsBytes bytes → Means Hex (encode_upper bytes) bytes }
    ensures zero_x { (bytes : List ℕ) → IsBytes bytes → Means Hex (codes "0x" ++ encode_lower bytes) bytes }
    ensures backslash_x { (bytes : List ℕ) → IsBytes bytes → Means Hex (codes "\\x" ++ encode_lower bytes) bytes }
{}

/// The symbols of bytes, of either alphabet, mean these bytes, padded or not.
pub fn base64_symbols_mean_their_bytes()
    ensures standard { (padded : Bool) (bytes : List ℕ) → IsBytes bytes
        → Means Base64 (encode standard.symbols standard.padding.value padded bytes) bytes }
    ensures url_safe { (padded : Bool) (bytes : List ℕ) → IsBytes bytes
        → Means Base64 (encode url_safe.symbols url_safe.padding.value padded bytes) bytes }
{}

/// A blank that is put into a text changes nothing, but within a prefix.
pub fn blanks_mean_nothing()
    ensures { (encoding : AnyEncoding) (front back bytes : List ℕ) (blank : ℕ) → is_blank blank ≡ true
        → takes_blanks (position_after (start encoding) front).place ≡ true → Means encoding (front ++ back) bytes
        → Means encoding (front ++ (blank ∷ back)) bytes }
{}

/// The first character that may not come is the fault of a text, and its offset is the number of characters before it.
pub fn a_fault_has_the_offset_of_its_character()
    ensures { (encoding : AnyEncoding) (front back : List ℕ) (c : ℕ)
        → past_fault (position_after (start encoding) front) ≡ None
        → past_fault (position_after (start encoding) (front ++ (c ∷ []))) ≢ None
        → text_fault (start encoding) (front ++ (c ∷ back)) ≡ Some (Character (min (length front) (2 ^ 64 - 1))) }
{}
