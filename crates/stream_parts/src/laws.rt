//! The law of parts, which is the contract of a function that does nothing.

ghost use Rattle.std.specs.Prelude.{◌≤◌, ◌++◌, ℕ, List};
ghost use Rattle.shared_core_base.specs.declared.version.Version.{Version};
ghost use Rattle.shared_core_stream.specs.declared.encoding.item.Item.{Item};
ghost use Rattle.shared_core_stream.specs.Items.{AreItems, SplitsInto};
ghost use Rattle.stream_parts.specs.Copying.{kept, ordered};
ghost use Rattle.stream_parts.specs.Parts.{before_command, located_in, part_of, range_items};
ghost use Rattle.stream_parts.specs.Parts.{without_start};
ghost use Rattle.stream_parts.specs.declared.range.Range.{Range as AnyRange};

/// The bytes of a part, as they are in the stream, encode the items before the first command and those of the range,
/// without the start message; and with it, if the part begins where the stream does.
pub fn parts_are_items()
    ensures part { (version : Version) (range : AnyRange) (stream : List ℕ) (items : List Item) (rest : List ℕ)
        (count : ℕ) → SplitsInto version stream items rest → range.from ≤ range.until
        → AreItems version (kept (ordered (part_of (located_in range items count))) stream)
        (without_start (before_command 0 items) ++ range_items range items) }
    ensures whole { (version : Version) (range : AnyRange) (stream : List ℕ) (items : List Item) (rest : List ℕ)
        (count : ℕ) → SplitsInto version stream items rest → range.from ≤ range.until
        → AreItems version (kept (ordered (record (part_of (located_in range items count)) { after = 0 })) stream)
        (before_command 0 items ++ range_items range items) }
{}
