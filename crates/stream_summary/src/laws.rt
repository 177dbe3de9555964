//! The laws of summaries, each the contract of a function that does nothing.

ghost use Rattle.std.specs.Prelude.{◌≡◌, List, true};
ghost use Rattle.shared_core_base.specs.declared.version.Version.{Version};
ghost use Rattle.shared_core_stream.specs.declared.encoding.item.Item.{Item};
ghost use Rattle.show_lines.specs.Lines.{is_command, item_facts};
ghost use Rattle.stream_summary.specs.Laws.{count_of, AreLongest};
ghost use Rattle.stream_summary.specs.Summary.{is_notification, seen_of};

/// The counts are those of all items, of the commands and of the notifications among them.
pub fn counts_are_of_items()
    ensures all { (version : Version) (items : List Item)
        → (seen_of version items).all ≡ count_of (λ item. true) items }
    ensures commands { (version : Version) (items : List Item)
        → (seen_of version items).commands ≡ count_of (λ item. is_command (item_facts version item)) items }
    ensures notifications { (version : Version) (items : List Item)
        → (seen_of version items).notifications
        ≡ count_of (λ item. is_notification (item_facts version item)) items }
{}

/// The three longest payloads are those of all items.
pub fn longest_are_of_items()
    ensures { (version : Version) (items : List Item) → AreLongest version items (seen_of version items).largest }
{}
