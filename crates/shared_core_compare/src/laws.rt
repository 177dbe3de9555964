//! Laws of every command, proved only from the contracts of its calls. A law is the contract of a function that only
//! compares; its other clauses tie its results to the commands, so that no other function meets them.

ghost use Rattle.std.specs.Prelude.{◌≡◌, ◌↔◌, IsFalse, IsTrue, List, ℕ, [], false, true};
ghost use Rattle.shared_core_compare.specs.Commands.{name_part};
ghost use Rattle.shared_core_compare.specs.Differences.{difference};
ghost use Rattle.shared_core_compare.specs.Erasure.{AreSame};

use crate::difference::CommandMessageHeaderDiff;
use crate::equality::CommandMessageHeaderEq;

/// `header_eq` is reflexive.
pub fn header_eq_is_reflexive<M: CommandMessageHeaderEq>(
    command: &M,
    ignore_payload_equality: bool,
) -> bool
    ensures { IsTrue result }
{
    command.header_eq(command, ignore_payload_equality)
}

/// `header_eq` is symmetric.
pub fn header_eq_is_symmetric<M: CommandMessageHeaderEq>(
    a: &M,
    b: &M,
    ignore_payload_equality: bool,
) -> (bool, bool)
    ensures decides { IsTrue result.0 ↔ AreSame M.schema ignore_payload_equality (M.parts a.now) (M.parts b.now) }
    ensures law { result.0 ≡ result.1 }
{
    (
        a.header_eq(b, ignore_payload_equality),
        b.header_eq(a, ignore_payload_equality),
    )
}

/// `header_eq` is transitive.
pub fn header_eq_is_transitive<M: CommandMessageHeaderEq>(
    a: &M,
    b: &M,
    c: &M,
    ignore_payload_equality: bool,
) -> (bool, bool, bool)
    ensures first { IsTrue result.0 ↔ AreSame M.schema ignore_payload_equality (M.parts a.now) (M.parts b.now) }
    ensures second { IsTrue result.1 ↔ AreSame M.schema ignore_payload_equality (M.parts b.now) (M.parts c.now) }
    ensures third { IsTrue result.2 ↔ AreSame M.schema ignore_payload_equality (M.parts a.now) (M.parts c.now) }
    ensures law { IsTrue result.0 → IsTrue result.1 → IsTrue result.2 }
{
    (
        a.header_eq(b, ignore_payload_equality),
        b.header_eq(c, ignore_payload_equality),
        a.header_eq(c, ignore_payload_equality),
    )
}

/// Commands that are equal with their payloads are equal without them.
pub fn equality_with_payloads_implies_equality_without<M: CommandMessageHeaderEq>(
    a: &M,
    b: &M,
) -> (bool, bool)
    ensures with_payloads { IsTrue result.0 ↔ AreSame M.schema false (M.parts a.now) (M.parts b.now) }
    ensures without { IsTrue result.1 ↔ AreSame M.schema true (M.parts a.now) (M.parts b.now) }
    ensures law { IsTrue result.0 → IsTrue result.1 }
{
    (a.header_eq(b, false), a.header_eq(b, true))
}

/// If two commands differ with their payloads, their names differ or their difference has at least one line.
pub fn unequal_commands_print_a_difference<M: CommandMessageHeaderEq + CommandMessageHeaderDiff>(
    a: &M,
    b: &M,
) -> bool
    ensures decides { IsTrue result ↔ AreSame M.schema false (M.parts a.now) (M.parts b.now) }
    ensures law { IsFalse result → (indentation : List ℕ)
        → name_part M.schema (M.parts a.now) ≡ name_part M.schema (M.parts b.now)
        → difference M.schema indentation (M.parts a.now) (M.parts b.now) ≡ [] → ⊥ }
{
    a.header_eq(b, false)
}
