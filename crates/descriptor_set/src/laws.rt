//! The laws of codes in comments, and of what is read of fields. Each is the contract of a function that does nothing.

ghost use Rattle.std.specs.Prelude.{◌≡◌, [], ◌∷◌, None, Some, codes};
ghost use Rattle.descriptor_set.specs.Codes.{plain_code, said_codes};
ghost use Rattle.descriptor_set.specs.FieldReading.{camel_case, low_bits};

/// What comments say: a sum whose second number may be decimal or hexadecimal; numbers whose bits are joined; a digit
/// that only a hexadecimal number has; several codes; and none.
pub fn comments_say_codes()
    ensures sum { said_codes (codes "Type: 0x0400 + 10")
        ≡ record { decimal = Some 1034; hexadecimal = 1040 } ∷ [] }
    ensures joined { said_codes (codes "code 0x0400 | 0x1f") ≡ plain_code 1055 ∷ [] }
    ensures lettered { said_codes (codes "TYPE=`0x0400 + A`")
        ≡ record { decimal = None; hexadecimal = 1034 } ∷ [] }
    ensures several { said_codes (codes "message type: 1026, or code = <code>0x0403</code>.")
        ≡ plain_code 1026 ∷ plain_code 1027 ∷ [] }
    ensures none { said_codes (codes "subtype: 5, types: 6, type 7, type: 8th, type: 0x") ≡ [] }
{}

/// The names in JSON of names: without underscores, with a capital after each. Only the case of ASCII changes.
pub fn names_in_json()
    ensures words { camel_case (codes "foo_bar_baz") ≡ codes "fooBarBaz" }
    ensures around { camel_case (codes "_a__b_") ≡ codes "AB" }
    ensures digits { camel_case (codes "x_1y") ≡ codes "x1y" }
{}

/// Of an int32 the low 32 bits count: 5 of 2^32 + 5, and all of -1.
pub fn low_bits_count()
    ensures above { low_bits 4294967301 ≡ 5 }
    ensures negative { low_bits 18446744073709551615 ≡ 4294967295 }
{}
