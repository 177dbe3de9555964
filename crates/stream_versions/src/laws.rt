//! The laws of the versions that a stream fits. Each is the contract of a function that does nothing.

ghost use Rattle.std.specs.Prelude.{◌≡◌, ℕ, List, [], nat_lt, true};
ghost use Rattle.shared_core_base.specs.declared.version.Version.{Version};
ghost use Rattle.shared_core_base.specs.Version.{version_number};
ghost use Rattle.shared_core_stream.specs.Items.{SplitsInto, skips_unknown_messages};
ghost use Rattle.shared_core_stream.specs.declared.encoding.item.Item.{Item as AnyItem};
ghost use Rattle.stream_lines.specs.Printing.{IsReport};
ghost use Rattle.stream_lines.specs.declared.report.Report.{Report};
ghost use Rattle.stream_versions.specs.Fits.{fault_of, fits, Fits};

/// A stream fits a version if and only if it is items without a fault, and no byte after them.
pub fn fits_are_whole_and_without_fault()
    ensures whole { (version : Version) (stream rest : List ℕ) (items : List AnyItem) (report : Report)
        → SplitsInto version stream items rest → IsReport (fault_of version) items rest report
        → fits report ≡ true → Fits version stream items }
    ensures reported { (version : Version) (stream : List ℕ) (items : List AnyItem) (report : Report)
        → Fits version stream items → IsReport (fault_of version) items [] report → fits report ≡ true }
{}

/// All versions that a stream fits read it to the same items.
pub fn fitting_versions_agree()
    ensures { (version other : Version) (stream : List ℕ) (items others : List AnyItem)
        → Fits version stream items → Fits other stream others → items ≡ others }
{}

/// A stream that fits a version fits each other one with the same schemas, unless only the first one skips messages of
/// unknown types. So versions 5 and 6 fit alike, 7 and 8 too, and what fits these fits version 9.
pub fn fits_go_on()
    ensures { (version other : Version) (stream : List ℕ) (items : List AnyItem)
        → nat_lt (version_number version) 7 ≡ nat_lt (version_number other) 7
        → (skips_unknown_messages version ≡ true → skips_unknown_messages other ≡ true)
        → Fits version stream items → Fits other stream items }
{}
