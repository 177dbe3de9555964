//! What a description has of the items of a stream.

ghost use Rattle.std.specs.Prelude.{◌≡◌, ◌++◌, IfErr, IfOk, OnOk};
ghost use Rattle.std.specs.String.{string_bytes};
ghost use Rattle.show_lines.specs.Showing.{IsLong};
ghost use Rattle.stream_lines.specs.Printing.{item_size, IsLack};
ghost use Rattle.stream_summary.specs.Summary.{about_lines, count_lines, description, is_notification, nothing_seen};
ghost use Rattle.stream_summary.specs.Summary.{seen_by, then_seen, AllHaveRoom};

use crate::about::{write_failure, write_start, write_state};
use crate::count::Count;
use crate::largest::Largest;
use dump_lines::Canonicalizer;
use shared_core_stream::encoding::Item;
use show_lines::facts::{Facts, Role};
use show_lines::held::Payloads;
use show_lines::line::write_name;
use show_lines::scratch::Scratch;
use show_lines::waiting::{Named, Waiting};
use std::alloc::{AllocError, Global};
use stream_lines::PrintError;

/// What a description has of the items so far.
#[derive(Drop)]
pub struct Summary {
    pub all: Count,
    commands: Count,
    notifications: Count,
    waiting: Waiting,
    /// The line of the last start message; empty without one.
    start: String,
    /// The line of how the invocation stands; empty without an item.
    state: String,
    /// The line of the last failure; empty without one.
    failure: String,
    largest: Largest,
    /// Buffers that are reused for each item.
    scratch: Scratch,
}

impl Summary {
    /// That of no item.
    pub fn new(alloc: Global) -> Summary
        ensures { seen_by result ≡ nothing_seen }
    {
        Summary {
            all: Count::none(),
            commands: Count::none(),
            notifications: Count::none(),
            waiting: Waiting::new(alloc),
            start: String::new(alloc),
            state: String::new(alloc),
            failure: String::new(alloc),
            largest: Largest::new(alloc),
            scratch: Scratch::new(alloc),
        }
    }

    /// Notes the next item.
    pub fn note<C: Canonicalizer>(
        &mut self,
        payloads: &Payloads<'_, C>,
        item: &Item,
    ) -> Result<(), PrintError>
        requires { AllHaveRoom (item_size item.now) self.old }
        ensures seen { OnOk result (seen_by self.new ≡ then_seen payloads.now.version (seen_by self.old) item.now) }
        ensures lack { IfErr result (IsLack (IsLong payloads.now.version item.now)) }
    {
        let facts = write_name(payloads, self.all.items, item, &mut self.scratch)?;
        let Scratch {
            name,
            joining,
            canonical,
        } = &mut self.scratch;
        let named = Named {
            is_selected: true,
            text: name.as_str(),
        };
        self.waiting.join_item(&facts, named, joining)?;
        write_start(payloads, item, &mut self.start, canonical)?;
        write_state(payloads, item, &mut self.state, canonical)?;
        write_failure(
            facts.is_failure,
            name.as_str(),
            joining.joined.as_str(),
            &mut self.failure,
        )?;
        self.largest.note(item.size() - 8, name.as_str())?;
        let size = item.size() as u128;
        self.all = self.all.with(true, size);
        self.commands = self.commands.with(facts.is_command(), size);
        self.notifications = self.notifications.with(is_notification(&facts), size);
        Ok(())
    }

    /// Appends the description.
    pub fn push(&self, alloc: Global, text: &mut Vec<u8>) -> Result<(), AllocError>
        ensures { OnOk result (text.new.items ≡ text.old.items ++ description (seen_by self.now)) }
    {
        let mut about = String::new(alloc);
        self.push_about(&mut about)?;
        text.extend_from_slice(about.as_bytes())?;
        self.waiting.push_open(text)
    }

    /// Appends the lines without those of what is open.
    fn push_about(&self, text: &mut String) -> Result<(), AllocError>
        ensures { OnOk result (string_bytes text.new ≡ string_bytes text.old ++ about_lines (seen_by self.now)) }
    {
        text.push_str(self.start.as_str())?;
        text.push_str(self.state.as_str())?;
        self.push_counts(text)?;
        text.push_str(self.failure.as_str())?;
        self.largest.push(text)
    }

    /// Appends the lines of the counts.
    fn push_counts(&self, text: &mut String) -> Result<(), AllocError>
        ensures { OnOk result (string_bytes text.new ≡ string_bytes text.old ++ count_lines (seen_by self.now)) }
    {
        self.all.push("items", text)?;
        self.commands.push("commands", text)?;
        self.notifications.push("notifications", text)
    }
}

/// Whether this is a notification.
fn is_notification(facts: &Facts) -> bool
    ensures { result ≡ is_notification facts.now }
{
    matches!(facts.role, Role::Notification)
}
