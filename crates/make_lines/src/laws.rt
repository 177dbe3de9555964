//! Laws of what is made of the lines of a dump, each the contract of a function.

ghost use Rattle.std.specs.Prelude.{◌≡◌, ℕ, List, Some};
ghost use Rattle.shared_core_base.specs.declared.version.Version.{Version};
ghost use Rattle.shared_core_codec.specs.Canonicity.{IsCanonical};
ghost use Rattle.dump_lines.specs.declared.options.Options.{Options};
ghost use Rattle.make_lines.specs.MadeAgain.{payload_again, ItemIsMadeAgain};
ghost use Rattle.make_lines.specs.MadeAgain.{DumpIsMadeAgain, KeepsStreams, OtherThereAndBack, ThereAndBack};

/// The line of an item, in a dump with payloads, one object per line and the last line, means the item, with its header
/// and its payload. A well-formed payload becomes the canonical one.
pub fn items_are_made_again()
    ensures { (options : Options) → ItemIsMadeAgain options }
{}

/// What the lines of such a dump mean is the stream, in which each well-formed payload is the canonical one.
pub fn dumps_are_made_again()
    ensures { (options : Options) → DumpIsMadeAgain options }
{}

/// If the payloads are canonical, malformed or without a schema, that is the stream itself.
pub fn canonical_streams_are_kept()
    ensures stream { (version : Version) → KeepsStreams version }
    ensures payload { (s : ℕ) (payload : List ℕ) → IsCanonical s payload → payload_again (Some s) payload ≡ payload }
{}

/// What `make` makes of what `dump` wrote, both having ended well, is that stream.
pub fn streams_go_there_and_back()
    ensures { (options : Options) → ThereAndBack options }
{}

/// The same by another table, by which JSON can be read.
pub fn streams_of_other_tables_go_there_and_back()
    ensures { (options : Options) → OtherThereAndBack options }
{}
