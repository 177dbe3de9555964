//! The laws of payloads at other field numbers. Each is the contract of a function that does nothing.

ghost use Rattle.std.specs.Prelude.{◌≡◌, ℕ, List, true};
ghost use Rattle.std.specs.List.{list_all};
ghost use Rattle.shared_core_wire.specs.Grammar.{IsRecordListWithin};
ghost use Rattle.shared_core_renumber.specs.Records.{is_writable, moved_records};
ghost use Rattle.shared_core_renumber.specs.Written.{payload_bytes};
ghost use Rattle.shared_core_renumber.specs.declared.entries.Renumbering.{Renumbering as AnyEntry};

/// A payload at other numbers encodes the records of the payload that the table has, group by group, each with its
/// other number, and with the same value unless that is a message. It does so for every table whose other numbers are
/// field numbers. (A number has 64 bits, and as many count bytes.)
pub fn renumbered_payloads_have_the_records()
    ensures { (entries : List AnyEntry) (left schema : ℕ) (payload : List ℕ)
        → list_all is_writable (moved_records entries left schema payload) ≡ true
        → IsRecordListWithin left (payload_bytes entries left schema payload)
        (moved_records entries left schema payload) }
{}
