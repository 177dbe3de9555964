//! Laws of conversions, and of the equality of records, oneofs and ids, proved only from the contracts of these. Each
//! law is the contract of a function that makes the calls that it speaks of.

ghost use Rattle.std.specs.Prelude.{◌≡◌, ◌↔◌, IsTrue, IfOk, Ok, fold};
ghost use Rattle.shared_core_parts.specs.Conversions.{failure_contents, terminal_contents, terminal_contents_of};
ghost use Rattle.shared_core_parts.specs.declared.failure.Failure.{Failure as AnyFailure};
ghost use Rattle.shared_core_base.specs.declared.values.TerminalFailure.{TerminalFailure as AnyTerminalFailure};

use crate::failure::Failure;
use crate::header::Header;
use crate::notification::NotificationId;
use shared_core_base::error::OutOfMemory;
use shared_core_base::values;
use shared_core_base::values::TerminalFailure;
use shared_core_codec::oneof::OneOf;
use shared_core_codec::record::WireRecord;
use std::alloc::Global;
use std::hash::{Hash, Hasher};

/// A terminal failure converted to a failure and back is unchanged, its texts too, if both lists can be allocated.
pub fn terminal_failures_convert_back(
    alloc: Global,
    terminal: TerminalFailure,
) -> Result<TerminalFailure, OutOfMemory>
    ensures ok { IfOk result (λ back. terminal_contents back ≡ terminal_contents terminal) }
    // for all results that the two calls may have: calls that always run out of memory would meet `ok` by itself
    ensures any { (failure : AnyFailure) (back : AnyTerminalFailure)
        → failure_contents failure ≡ terminal_contents terminal
        → terminal_contents back ≡ terminal_contents_of failure → terminal_contents back ≡ terminal_contents terminal }
{
    Failure::from_terminal(alloc, terminal)?.into_terminal(alloc)
}

/// A header converted to one of the SDK state machine and back is unchanged, and does not allocate.
pub fn headers_convert_back(alloc: Global, header: Header) -> Result<Header, OutOfMemory>
    ensures { result ≡ Ok header }
{
    Header::from_root(alloc, values::Header::from(header))
}

/// `==` of records compares all of their fields.
// of the trait, and not of each record: so it holds of those of other crates too
pub fn equal_records<M: WireRecord>(a: &M, b: &M) -> bool
    ensures { IsTrue result ↔ (M.parts a.now ≡ M.parts b.now) }
{
    a == b
}

/// `==` of oneofs compares the members and their whole contents.
pub fn equal_oneofs<T: OneOf>(a: &T, b: &T) -> bool
    ensures { IsTrue result ↔ (T.part a.now ≡ T.part b.now) }
{
    a == b
}

/// `==` of ids of notifications is equality, and equal ids hash alike, whatever the hasher.
pub fn equal_ids_hash_alike<H: Hasher>(
    a: &NotificationId,
    b: &NotificationId,
    a_state: &mut H,
    b_state: &mut H,
) -> bool
    ensures equal { IsTrue result ↔ (⟦<NotificationId as OneOf>⟧.part a.now ≡ ⟦<NotificationId as OneOf>⟧.part b.now) }
    ensures alike { IsTrue result → a_state.old ≡ b_state.old → a_state.new ≡ b_state.new }
    // the hashed data is the id
    ensures hashed { a_state.new ≡ fold H.write a_state.old (⟦<NotificationId as Hash>⟧.hash_input a.now) }
{
    a.hash(a_state);
    b.hash(b_state);
    a == b
}
