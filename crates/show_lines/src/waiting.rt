//! Commands that wait for their completions, and notifications for their commands.

ghost use Rattle.std.specs.Prelude.{◌≡◌, ◌++◌, [], OnOk};
ghost use Rattle.std.specs.Option.{option_map};
ghost use Rattle.std.specs.BTreeMap.{insert_entry, is_at};
ghost use Rattle.std.specs.Map.{remove_entry};
ghost use Rattle.std.specs.Ordering.{nat_cmp};
ghost use Rattle.std.specs.String.{string_bytes};
ghost use Rattle.show_lines.specs.Lines.{joins, waiting_then};
ghost use Rattle.show_lines.specs.Waiting.{coming_view, halves_view, half_view, joined, joined_text, open_line};
ghost use Rattle.show_lines.specs.Waiting.{open_lines, other_half, waiting_after, waiting_with};

use crate::facts::Facts;
use crate::scratch::Joining;
use itoa::Buffer;
use std::alloc::{AllocError, Global};
use std::collections::BTreeMap;

/// One half of a command and its completion.
#[derive(Drop)]
pub struct Half {
    /// Whether it is the command.
    is_command: bool,
    /// Whether its item is one of those that may have lines.
    is_selected: bool,
    /// The text by which the line of the other half names it.
    text: String,
}

/// A half that was read.
#[derive(Clone, Copy)]
pub struct Coming<'a> {
    /// Whether it is the command.
    pub is_command: bool,
    /// Whether its item is one of those that may have lines.
    pub is_selected: bool,
    /// The text by which lines name it.
    pub text: &'a str,
}

/// An item that was read.
#[derive(Clone, Copy)]
pub struct Named<'a> {
    /// Whether it is one of those that may have lines.
    pub is_selected: bool,
    /// The text by which lines name it.
    pub text: &'a str,
}

/// The halves that wait for their others, by the ids that both have. Its size is that of as many texts as there are
/// ids without both.
#[derive(Drop)]
pub struct Waiting {
    alloc: Global,
    halves: BTreeMap<u32, Half>,
}

impl Waiting {
    /// Nothing yet.
    pub fn new(alloc: Global) -> Waiting
        ensures { halves_view result.halves.entries ≡ [] }
    {
        Waiting {
            alloc,
            halves: BTreeMap::new(alloc),
        }
    }

    /// Overwrites `joined` with what the line of an item that was read says of its other halves, and `invocation` too.
    /// Each half that it is waits, or its other half does no longer.
    pub fn join_item(
        &mut self,
        facts: &Facts,
        item: Named<'_>,
        joining: &mut Joining,
    ) -> Result<(), AllocError>
        ensures joined { OnOk result (string_bytes joining.new.joined
            ≡ joins item.entry.is_selected (halves_view self.old.halves.entries) facts.now item.entry.text.now) }
        ensures waiting { OnOk result (halves_view self.new.halves.entries
            ≡ waiting_then item.entry.is_selected (halves_view self.old.halves.entries) facts.now
            item.entry.text.now) }
    {
        let Joining { joined, invocation } = joining;
        joined.clear();
        invocation.clear();
        invocation.push_str("the invocation id of ")?;
        invocation.push_str(item.text)?;
        let half = Coming {
            is_command: facts.is_command(),
            is_selected: item.is_selected,
            text: item.text,
        };
        let first = Coming {
            text: invocation.as_str(),
            ..half
        };
        self.join(facts.invocation, first, joined)?;
        self.join(facts.result, half, joined)
    }

    /// Appends what the line of a half that was read says of its other half. If it has an id, it waits, or its other
    /// half does no longer.
    pub fn join(
        &mut self,
        id: Option<u32>,
        half: Coming<'_>,
        line: &mut String,
    ) -> Result<(), AllocError>
        ensures line { OnOk result (string_bytes line.new ≡ string_bytes line.old
            ++ joined id half.entry.is_command (halves_view self.old.halves.entries)) }
        ensures waiting { OnOk result (halves_view self.new.halves.entries ≡ waiting_after id
            (coming_view half.entry)
            (halves_view self.old.halves.entries)) }
    {
        let Some(id) = id else {
            return Ok(());
        };
        self.join_at(id, half, line)
    }

    /// The same of a half with an id.
    fn join_at(&mut self, id: u32, half: Coming<'_>, line: &mut String) -> Result<(), AllocError>
        ensures line { OnOk result (string_bytes line.new ≡ string_bytes line.old
            ++ joined_text half.entry.is_command id
            (other_half half.entry.is_command id (halves_view self.old.halves.entries))) }
        ensures waiting { OnOk result (halves_view self.new.halves.entries ≡ waiting_with id
            (coming_view half.entry)
            (other_half half.entry.is_command id (halves_view self.old.halves.entries))
            (halves_view self.old.halves.entries)) }
    {
        let other = self.other_of(id, half.is_command);
        push_joined(line, half.is_command, id, other)?;
        if other.is_some() {
            self.remove(id);
            return Ok(());
        }
        self.insert(id, half)
    }

    /// The other half of a half with this id, if it waits.
    #[tactic(auto, using(crate::proofs::Halves::lookup_view))]
    fn other_of(&self, id: u32, is_command: bool) -> Option<&Half>
        ensures { option_map (λ half. half_view half.now) result
            ≡ other_half is_command id (halves_view self.now.halves.entries) }
    {
        let half = self.halves.get(&id)?;
        if half.is_command == is_command {
            return None;
        }
        Some(half)
    }

    /// Lets a half wait.
    #[tactic(auto, using(crate::proofs::Halves::insert_view))]
    fn insert(&mut self, id: u32, half: Coming<'_>) -> Result<(), AllocError>
        ensures { OnOk result (halves_view self.new.halves.entries
            ≡ insert_entry nat_cmp (halves_view self.old.halves.entries) id (coming_view half.entry)) }
    {
        let text = String::from_str(self.alloc, half.text)?;
        let half = Half {
            is_command: half.is_command,
            is_selected: half.is_selected,
            text,
        };
        self.halves.insert(id, half)?;
        Ok(())
    }

    /// Takes a half out.
    #[tactic(auto, using(crate::proofs::Halves::remove_view))]
    fn remove(&mut self, id: u32)
        ensures { halves_view self.new.halves.entries
            ≡ remove_entry (is_at (nat_cmp id)) (halves_view self.old.halves.entries) }
    {
        self.halves.remove(&id);
    }

    /// Appends the lines of the commands that nothing has completed.
    pub fn push_open(&self, lines: &mut Vec<u8>) -> Result<(), AllocError>
        ensures { OnOk result (lines.new.items ≡ lines.old.items ++ open_lines (halves_view self.now.halves.entries)) }
    {
        for entry in self.halves.iter() {
            push_open_line(lines, *entry.0, entry.1)?;
        }
        Ok(())
    }
}

/// Appends the line of a command that nothing has completed, with the id for which it waits; nothing of a notification,
/// or of an item without a line.
fn push_open_line(lines: &mut Vec<u8>, id: u32, half: &Half) -> Result<(), AllocError>
    ensures { OnOk result (lines.new.items ≡ lines.old.items ++ open_line id (half_view half.now)) }
{
    if half.is_command && half.is_selected {
        let mut buffer = Buffer::new();
        lines.extend_from_slice(b"open id ")?;
        lines.extend_from_slice(buffer.format(id).as_bytes())?;
        lines.extend_from_slice(b": ")?;
        lines.extend_from_slice(half.text.as_bytes())?;
        lines.extend_from_slice(b"\n")?;
    }
    Ok(())
}

/// Appends what a line says of the other half of a half with this id.
fn push_joined(
    line: &mut String,
    is_command: bool,
    id: u32,
    other: Option<&Half>,
) -> Result<(), AllocError>
    ensures { OnOk result (string_bytes line.new ≡ string_bytes line.old
        ++ joined_text is_command id (option_map (λ half. half_view half.now) other.entry)) }
{
    match (other, is_command) {
        (Some(other), true) => {
            line.push_str(" completed by ")?;
            line.push_str(other.text.as_str())
        }
        (Some(other), false) => {
            line.push_str(" completes ")?;
            line.push_str(other.text.as_str())
        }
        (None, true) => Ok(()),
        (None, false) => write!(line, " completes id {id}"),
    }
}
