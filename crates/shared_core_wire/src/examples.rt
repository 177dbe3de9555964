//! Hand-checked payloads, which test the definitions of acceptance, meaning and canonical encoding. Each example is the
//! contract of a function that does nothing, and is proved by evaluating the definitions.

ghost use Rattle.std.specs.Prelude.{◌≡◌, [], ◌∷◌, ◌++◌, true, false, codes};
ghost use Rattle.std.specs.List.{list_all};
ghost use Rattle.shared_core_wire.specs.Schema.{is_schema};
ghost use Rattle.shared_core_wire.specs.Value.{Absent, Number, Bytes, Nested, Elements, Member, nil, cons, one_part};
ghost use Rattle.shared_core_wire.specs.Template.{is_within_template};
ghost use Rattle.shared_core_wire.specs.Examples.{void, value, failure, future};
ghost use Rattle.shared_core_wire.specs.Examples.{suspension, lists, completion, signal, clear};
ghost use Rattle.shared_core_wire.specs.Examples.{sleep, options, input, attach};
ghost use Rattle.shared_core_wire.specs.Examples.{keys_completion, text_completion, template, schemas, examples};
ghost use Rattle.shared_core_wire.specs.Examples.{a_failure, a_future, completions_alone, two};
ghost use Rattle.shared_core_wire.specs.Examples.{Means, IsAccepted, IsMalformed, Merges};
ghost use Rattle.shared_core_wire.specs.Examples.{IsWrittenAs, hex, repeated_byte, nested_messages, nested_groups};

/// The elements of a repeated field are in the order of its records, packed or not.
pub fn repeated_numbers()
    ensures mixed { Means lists (hex (codes "08 01 0A 02 02 03 08 04"))
        (completions_alone (1 ∷ 2 ∷ 3 ∷ 4 ∷ [])) }
    // the packed run ends within a varint
    ensures unfilled { IsMalformed lists (hex (codes "0A 02 01 80")) }
{}

/// A oneof holds the member of its last record. A message member is decoded from the joined bytes of the last unbroken
/// run of its records.
pub fn oneof_runs()
    ensures run { Means completion (hex (codes "08 01 32 02 08 05 32 03 12 01 78"))
        (two (Number 1) (Member 6 (Nested (a_failure 5 (codes "x"))))) }
    // a record outside the oneof does not break the run
    ensures outside { Means completion (hex (codes "32 02 08 05 08 02 32 03 12 01 78"))
        (two (Number 2) (Member 6 (Nested (a_failure 5 (codes "x"))))) }
    // a record of another member does
    ensures broken { Means completion (hex (codes "08 01 32 02 08 05 22 00 32 03 12 01 78"))
        (two (Number 1) (Member 6 (Nested (a_failure 0 (codes "x"))))) }
    // the joined bytes are well-formed, but each occurrence must be well-formed by itself
    ensures each { IsMalformed completion (hex (codes "08 01 32 01 08 32 01 05")) }
{}

/// Payloads merged into values that already hold something.
pub fn merged_values()
    ensures same { Merges completion (two (Number 0) (Member 6 (Nested (a_failure 5 []))))
        (hex (codes "32 03 12 01 78")) (two (Number 0) (Member 6 (Nested (a_failure 5 (codes "x"))))) }
    ensures broken { Merges completion (two (Number 0) (Member 6 (Nested (a_failure 5 []))))
        (hex (codes "22 00 32 03 12 01 78")) (two (Number 0) (Member 6 (Nested (a_failure 0 (codes "x"))))) }
    ensures other { Merges completion (two (Number 0) (Member 6 (Nested (a_failure 5 []))))
        (hex (codes "22 00")) (two (Number 0) (Member 4 (Nested nil))) }
    ensures joined { Merges completion (two (Number 0) (Member 6 (Nested (a_failure 5 []))))
        (hex (codes "32 03 12 01 78 32 02 08 07")) (two (Number 0) (Member 6 (Nested (a_failure 7 (codes "x"))))) }
    ensures last_run { Merges completion (two (Number 0) (Member 6 (Nested (a_failure 5 []))))
        (hex (codes "32 03 12 01 78 22 00 32 02 08 07")) (two (Number 0) (Member 6 (Nested (a_failure 7 [])))) }
    ensures elements { Merges lists (completions_alone (1 ∷ []))
        (hex (codes "0A 02 02 03")) (completions_alone (1 ∷ 2 ∷ 3 ∷ [])) }
{}

/// A nested message field is merged; the elements of a repeated message field are appended.
pub fn merged_messages()
    ensures element { Merges suspension (one_part (Nested (a_future (1 ∷ []) [] nil nil)))
        (hex (codes "22 05 22 03 0A 01 02"))
        (one_part (Nested (a_future (1 ∷ []) [] nil (one_part (Nested (a_future (2 ∷ []) [] nil nil)))))) }
    ensures second { Merges suspension
        (one_part (Nested (a_future (1 ∷ []) [] nil (one_part (Nested (a_future (2 ∷ []) [] nil nil))))))
        (hex (codes "22 05 22 03 0A 01 02"))
        (one_part (Nested (a_future (1 ∷ []) [] nil
        (cons (Nested (a_future (2 ∷ []) [] nil nil)) (one_part (Nested (a_future (2 ∷ []) [] nil nil))))))) }
    // an empty message changes nothing; an empty element is appended
    ensures nothing { Merges suspension (one_part (Nested (a_future (1 ∷ []) [] nil nil)))
        (hex (codes "22 00")) (one_part (Nested (a_future (1 ∷ []) [] nil nil))) }
    ensures empty_element { Merges future (a_future (1 ∷ []) [] nil nil)
        (hex (codes "22 00")) (a_future (1 ∷ []) [] nil (one_part (Nested (a_future [] [] nil nil)))) }
{}

/// A varint may be longer than necessary, and a `uint32` keeps its low 32 bits. A record with a wire type other than
/// its field's is malformed.
pub fn numbers()
    ensures longer { Means completion (hex (codes "08 81 00")) (two (Number 1) Absent) }
    ensures longer_key { Means completion (hex (codes "88 00 01")) (two (Number 1) Absent) }
    ensures low { Means completion (8 ∷ (repeated_byte 9 255 ++ 1 ∷ [])) (two (Number 4294967295) Absent) }
    ensures longest_zero { Means completion (8 ∷ (repeated_byte 9 128 ++ 0 ∷ [])) (two (Number 0) Absent) }
    // 2 ^ 63
    ensures no_low { Means completion (8 ∷ (repeated_byte 9 128 ++ 1 ∷ [])) (two (Number 0) Absent) }
    // 2 ^ 64 and more
    ensures wide { IsMalformed completion (8 ∷ (repeated_byte 9 255 ++ 2 ∷ [])) }
    ensures wide_zero { IsMalformed completion (8 ∷ (repeated_byte 9 128 ++ 2 ∷ [])) }
    ensures other_type { IsMalformed completion (hex (codes "0A 01 01")) }
    ensures cut { IsMalformed completion (hex (codes "08")) }
{}

/// A string must be UTF-8 in each occurrence; the last occurrence is its value.
pub fn texts()
    ensures not_utf8 { IsMalformed clear (hex (codes "62 01 FF 62 01 61")) }
    ensures last { Means clear (hex (codes "62 01 62 62 01 61")) (one_part (Bytes (codes "a"))) }
{}

/// The occurrences of a message field mean what their joined bytes mean.
pub fn message_fields()
    ensures kept { Means input (hex (codes "72 04 0A 02 69 6E 72 00"))
        (two (Bytes []) (Nested (one_part (Bytes (codes "in"))))) }
    ensures replaced { Means input (hex (codes "72 04 0A 02 69 6E 72 03 0A 01 78"))
        (two (Bytes []) (Nested (one_part (Bytes (codes "x"))))) }
    // the length is greater than the number of bytes that are left
    ensures long { IsMalformed input (hex (codes "72 05 0A")) }
    ensures longest { IsMalformed input (114 ∷ (repeated_byte 9 255 ++ 1 ∷ [])) }
{}

/// A record whose number is not in the schema is skipped, whatever its wire type. Bytes that do not encode a record are
/// malformed.
pub fn unknown_records()
    // the greatest field number, and a key of more than 32 bits
    ensures greatest { Means void (hex (codes "F8 FF FF FF 0F 00")) nil }
    ensures wide_key { IsMalformed void (hex (codes "80 80 80 80 10 00")) }
    ensures number_zero { IsMalformed void (hex (codes "00 01")) }
    ensures no_wire_type { IsMalformed void (hex (codes "0E 00")) }
    ensures end_alone { IsMalformed void (hex (codes "0C")) }
    ensures no_end { IsMalformed void (hex (codes "0B")) }
    ensures other_end { IsMalformed void (hex (codes "0B 14")) }
    ensures group { Means void (hex (codes "0B 0C")) nil }
    ensures bytes { Means void (hex (codes "0A 01 FF")) nil }
    ensures four_bytes { Means void (hex (codes "7D 01 02 03 04")) nil }
    ensures three_bytes { IsMalformed void (hex (codes "7D 01 02 03")) }
    // a group whose number is in the schema
    ensures known_group { IsMalformed value (hex (codes "0B 0C")) }
{}

/// Messages and groups nested 100 deep are accepted; nested 101 deep they are malformed.
pub fn levels()
    ensures messages { IsAccepted suspension (nested_messages 100 []) }
    ensures more_messages { IsMalformed suspension (nested_messages 101 []) }
    ensures groups { IsAccepted void (nested_groups 100) }
    ensures more_groups { IsMalformed void (nested_groups 101) }
    ensures group_below { IsAccepted suspension (nested_messages 99 (nested_groups 1)) }
    ensures groups_below { IsMalformed suspension (nested_messages 99 (nested_groups 2)) }
{}

/// Values and their canonical encodings.
pub fn canonical_payloads()
    ensures empty_message { IsWrittenAs signal
        (two (Member 3 (Bytes (codes "abc"))) (Member 6 (Nested (a_failure 0 []))))
        (hex (codes "1A 03 61 62 63 32 00")) }
    ensures default_member { IsWrittenAs signal (two (Member 2 (Number 0)) (Member 4 (Nested nil)))
        (hex (codes "10 00 22 00")) }
    ensures defaults_left_out { IsWrittenAs sleep (cons (Number 300) (two (Number 1) (Bytes [])))
        (hex (codes "08 AC 02 58 01")) }
    ensures negative_enum { IsWrittenAs options (two (Number 4294967295) Absent)
        (72 ∷ (repeated_byte 9 255 ++ 1 ∷ [])) }
    ensures present_empty { IsWrittenAs options (two (Number 0) (Bytes [])) (hex (codes "52 00")) }
    ensures message_member { IsWrittenAs attach
        (cons (Member 4 (Nested (cons (Bytes (codes "w")) (two (Bytes (codes "k")) Absent)))) (two (Number 1) (Bytes [])))
        (hex (codes "22 06 0A 01 77 12 01 6B 58 01")) }
    ensures two_byte_key { IsWrittenAs keys_completion
        (two (Number 2) (Nested (one_part (Elements (one_part (Bytes (codes "a")))))))
        (hex (codes "08 02 8A 01 03 0A 01 61")) }
    ensures plain_text { IsWrittenAs text_completion (two (Number 3) (Bytes (codes "inv")))
        (hex (codes "08 03 82 01 03 69 6E 76")) }
    ensures packed_run { IsWrittenAs lists (completions_alone (1 ∷ 2 ∷ 1 ∷ 3 ∷ []))
        (hex (codes "0A 04 01 02 01 03")) }
    ensures tree { IsWrittenAs suspension
        (one_part (Nested (a_future [] (1 ∷ []) nil
        (one_part (Nested (a_future (1 ∷ []) (17 ∷ []) (one_part (Bytes (codes "abc"))) nil))))))
        (hex (codes "22 10 12 01 01 22 0B 0A 01 01 12 01 11 1A 03 61 62 63")) }
{}

/// Which schemas are within a template.
pub fn templates()
    ensures completion { is_within_template (examples template) (examples completion) ≡ true }
    ensures signal { is_within_template (examples template) (examples signal) ≡ true }
    ensures keys { is_within_template (examples template) (examples keys_completion) ≡ true }
    ensures text { is_within_template (examples template) (examples text_completion) ≡ true }
    // other kinds, and a repeated field
    ensures failure { is_within_template (examples template) (examples failure) ≡ false }
    // a number that is not in the template
    ensures sleep { is_within_template (examples template) (examples sleep) ≡ false }
{}

/// Every schema of the examples is valid.
pub fn example_schemas()
    ensures { list_all is_schema schemas ≡ true }
{}
