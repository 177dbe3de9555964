//! Laws of streams, whatever decodes them, and of equality. Each law is the contract of a function that does nothing,
//! or that only compares its arguments.

ghost use Rattle.std.specs.Prelude.{◌≡◌, ◌↔◌, ℕ, []};
ghost use Rattle.std.specs.Prelude.{◌∷◌, ◌++◌, IsTrue, List, None, false, true};
ghost use Rattle.shared_core_base.specs.declared.version.Version.{Version};
ghost use Rattle.shared_core_stream.specs.Items.{IsItem, TakesItem};
ghost use Rattle.shared_core_stream.specs.Items.{NoItemBegins, SplitsInto, skips_unknown_messages};
ghost use Rattle.shared_core_stream.specs.Limits.{SplitsWithin, too_long_at};
ghost use Rattle.shared_core_stream.specs.declared.encoding.item.Item.{Item as AnyItem};
ghost use Rattle.shared_core_stream.specs.declared.encoding.item.Item.TheVariants.{Skipped, Unknown};

use crate::encoding::{Item, RawMessage};

/// The encodings of items are prefix-free: if the same bytes begin with two items, the two are one item.
pub fn items_are_prefix_free()
    ensures { (version : Version) (a b x y : List ℕ) (i j : AnyItem)
        → IsItem version a i → IsItem version b j → a ++ x ≡ b ++ y → (a ≡ b) × (i ≡ j) × (x ≡ y) }
{}

/// A stream splits in one way.
pub fn split_is_unique()
    ensures { (version : Version) (stream : List ℕ) (items others : List AnyItem) (rest left : List ℕ)
        → SplitsInto version stream items rest → SplitsInto version stream others left
        → (items ≡ others) × (rest ≡ left) }
{}

/// Every stream splits.
pub fn split_exists()
    ensures { (version : Version) (stream : List ℕ)
        → (items : List AnyItem) × (rest : List ℕ) × SplitsInto version stream items rest }
{}

/// The version decides what an unassigned code is: an unknown header, at a version that does not skip such messages,
/// and otherwise a skipped message. No stream has both.
pub fn version_decides_untyped_items()
    ensures unknown { (version : Version) (bytes : List ℕ) (code : ℕ)
        → IsItem version bytes (Unknown code) → skips_unknown_messages version ≡ false }
    ensures skipped { (version : Version) (bytes payload : List ℕ) (code : ℕ)
        → IsItem version bytes (Skipped code payload) → skips_unknown_messages version ≡ true }
{}

/// If bytes are appended to a stream, its next item stays the same, and the appended bytes are at the end of what it
/// leaves.
#[tactic(auto, using(crate::proofs::Items::takes_more))]
pub fn next_item_is_stable()
    ensures { (version : Version) (old new more : List ℕ) (item : AnyItem)
        → TakesItem version old item new → TakesItem version (old ++ more) item (new ++ more) }
{}

/// The item that is taken from a stream is the first of those that it splits into; the others are the items of the
/// bytes that are left.
#[tactic(auto, using(crate::proofs::Splits::taken_comes_first))]
pub fn taken_item_is_the_first()
    ensures { (version : Version) (old new rest : List ℕ) (item : AnyItem) (items : List AnyItem)
        → TakesItem version old item new → SplitsInto version new items rest
        → SplitsInto version old (item ∷ items) rest }
{}

/// A stream that begins with no complete item splits into no items, and all of it is the rest.
#[tactic(auto, using(crate::proofs::Splits::none_is_all_rest))]
pub fn stream_without_items_is_rest()
    ensures { (version : Version) (stream : List ℕ) → NoItemBegins version stream
        → SplitsInto version stream [] stream }
{}

/// Under a limit a stream splits in one way.
pub fn limited_split_is_unique()
    ensures { (version : Version) (limit : ℕ) (stream : List ℕ) (items others : List AnyItem) (rest left : List ℕ)
        → SplitsWithin version limit stream items rest → SplitsWithin version limit stream others left
        → (items ≡ others) × (rest ≡ left) }
{}

/// A limit of 2^32 - 1 is none: no message is too long, and a stream splits as without a limit.
pub fn greatest_limit_is_none()
    ensures accepts { (version : Version) (offset : ℕ) (bytes : List ℕ)
        → too_long_at version 4294967295 offset bytes ≡ None }
    ensures splits { (version : Version) (stream : List ℕ) (items : List AnyItem) (rest : List ℕ)
        → SplitsWithin version 4294967295 stream items rest ↔ SplitsInto version stream items rest }
{}

/// `==` of messages compares the whole header and the whole payload.
#[tactic(auto, using(crate::proofs::Equality::messages_decide))]
pub fn equal_messages(a: &RawMessage, b: &RawMessage) -> bool
    ensures { IsTrue result ↔ (a.now ≡ b.now) }
{
    a == b
}

/// `==` of items compares the variants and all that is in them.
#[tactic(auto, using(crate::proofs::Equality::items_decide))]
pub fn equal_items(a: &Item, b: &Item) -> bool
    ensures { IsTrue result ↔ (a.now ≡ b.now) }
{
    a == b
}
