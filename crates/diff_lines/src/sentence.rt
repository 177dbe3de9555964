//! The sentence on what moved between two journals.

ghost use Rattle.std.specs.Prelude.{◌≡◌, ◌++◌, IfOk, OnOk, option_copied, option_map};
ghost use Rattle.std.specs.String.{string_bytes};
ghost use Rattle.diff_lines.specs.Sentences.{after_text, are_word, counts_text, HasKeyOf, IsMovedSentence, IsSentence};
ghost use Rattle.diff_lines.specs.Sentences.{commands_word, key_text, limit_sentence, moved_sentence, moved_words};
ghost use Rattle.diff_lines.specs.Sentences.{name_text, place_words, same_sentence, same_text, several_sentence};
ghost use Rattle.diff_lines.specs.Shown.{shown_value};

use crate::entries::{
    count_of, entry_command, entry_of, entry_type, recorded_taken, same_count, stopped_index,
};
use edit_script::{Change, Difference};
use replay_bench::{AlignedComparison, command_key};
use shared_core_base::header::MessageType;
use shared_core_stream::encoding::RawMessage;
use std::alloc::{AllocError, Global};
use terminal_text::{Escapes, push_escaped};

/// The sentence of two journals that were aligned, without an end of line: what one command moved, how many did, or
/// that there are more than were looked for. On a terminal what comes from the journals is escaped.
pub(crate) fn sentence(
    alloc: Global,
    found: &AlignedComparison,
    limit: u32,
    is_terminal: bool,
) -> Result<String, AllocError>
    ensures { IfOk result (λ text. IsSentence is_terminal limit found.now (string_bytes text)) }
{
    let same = same_count(found);
    if !found.alignment.is_least {
        return limit_sentence(alloc, limit, same);
    }
    let [difference, rest @ ..] = found.alignment.differences.as_slice() else {
        return same_sentence(alloc, same);
    };
    if rest.is_empty() {
        return moved_sentence(alloc, found, *difference, is_terminal);
    }
    several_sentence(alloc, found.alignment.differences.as_slice(), same)
}

/// `command` or `commands`, by their number.
fn commands_word(count: u128) -> &'static str
    ensures { result.now ≡ commands_word count }
{
    if count == 1 { "command" } else { "commands" }
}

/// The sentence of journals that are the same.
pub(crate) fn same_sentence(alloc: Global, count: u128) -> Result<String, AllocError>
    ensures { IfOk result (λ text. string_bytes text ≡ same_sentence count) }
{
    let word = commands_word(count);
    format!(in alloc; "same, {count} {word}")
}

/// The sentence of one difference, with what identifies the command within its type.
fn moved_sentence(
    alloc: Global,
    found: &AlignedComparison,
    difference: Difference,
    is_terminal: bool,
) -> Result<String, AllocError>
    ensures { IfOk result (λ text. IsMovedSentence is_terminal found.now difference (string_bytes text)) }
{
    let entry = entry_of(stopped_index(&found.comparison.verdict), difference);
    let key = key_of(alloc, entry_command(found, &entry))?;
    keyed_sentence(alloc, found, difference, key, is_terminal)
}

/// What identifies a command within its type, if there is one.
fn key_of(alloc: Global, command: Option<&RawMessage>) -> Result<Option<String>, AllocError>
    ensures { IfOk result (λ key. HasKeyOf (option_copied command.entry) (option_map string_bytes key)) }
{
    match command {
        Some(command) => command_key(alloc, command),
        None => Ok(None),
    }
}

/// The sentence of one difference: what it is, its type, this key, its command, and how many after it are the same.
fn keyed_sentence(
    alloc: Global,
    found: &AlignedComparison,
    difference: Difference,
    key: Option<String>,
    is_terminal: bool,
) -> Result<String, AllocError>
    ensures { IfOk result (λ text. string_bytes text
        ≡ moved_sentence is_terminal (option_map string_bytes key) found.now difference) }
{
    let entry = entry_of(stopped_index(&found.comparison.verdict), difference);
    let mut text = String::new(alloc);
    text.push_str("the replay has one command ")?;
    text.push_str(moved_words(difference.change))?;
    text.push_str(",")?;
    push_name(&mut text, entry_type(found, &entry))?;
    push_key(&mut text, &key, is_terminal)?;
    text.push_str(place_words(difference.change))?;
    let index = entry.replayed;
    write!(text, "{index}")?;
    let taken = difference.recorded as u128 + recorded_taken(difference.change);
    let held = found.recorded.commands.len() as u128;
    push_after(&mut text, held.saturating_sub(taken))?;
    Ok(text)
}

/// Appends a space and what identifies a command within its type, if there is anything.
fn push_key(text: &mut String, key: &Option<String>, is_terminal: bool) -> Result<(), AllocError>
    ensures { OnOk result (string_bytes text.new
        ≡ string_bytes text.old ++ key_text is_terminal (option_map string_bytes key.now)) }
{
    let Some(key) = key else {
        return Ok(());
    };
    text.push_str(" ")?;
    push_value(text, key.as_str(), is_terminal)
}

/// Appends what comes from a journal, on a terminal or not.
fn push_value(text: &mut String, value: &str, is_terminal: bool) -> Result<(), AllocError>
    ensures { OnOk result (string_bytes text.new ≡ string_bytes text.old ++ shown_value is_terminal value.now) }
{
    if is_terminal {
        return push_escaped(text, Escapes::Text, value);
    }
    text.push_str(value)
}

/// What one command is.
fn moved_words(change: Change) -> &'static str
    ensures { result.now ≡ moved_words change }
{
    match change {
        Change::Inserted => "more",
        Change::Removed => "fewer",
        Change::Changed => "changed",
    }
}

/// What comes before the index of a command that moved: it is before another one of the replay, unless it was changed.
fn place_words(change: Change) -> &'static str
    ensures { result.now ≡ place_words change }
{
    match change {
        Change::Inserted => ", before command ",
        Change::Removed => ", before command ",
        Change::Changed => ", command ",
    }
}

/// Appends a space and the name of a type, if there is one.
pub(crate) fn push_name(text: &mut String, ty: Option<MessageType>) -> Result<(), AllocError>
    ensures { OnOk result (string_bytes text.new ≡ string_bytes text.old ++ name_text ty) }
{
    match ty {
        Some(ty) => {
            let name = ty.debug_name();
            write!(text, " {name}")
        }
        None => Ok(()),
    }
}

/// Appends how many commands after one that moved are the same.
fn push_after(text: &mut String, count: u128) -> Result<(), AllocError>
    ensures { OnOk result (string_bytes text.new ≡ string_bytes text.old ++ after_text count) }
{
    if count == 0 {
        return text.push_str("; none comes after it");
    }
    if count == 1 {
        return text.push_str("; the one after it is the same");
    }
    write!(text, "; the {count} after it are the same")
}

/// The sentence of several differences.
fn several_sentence(
    alloc: Global,
    differences: &[Difference],
    same: u128,
) -> Result<String, AllocError>
    ensures { IfOk result (λ text. string_bytes text ≡ several_sentence differences.now same) }
{
    let inserted = count_of(differences, Change::Inserted);
    let word = commands_word(inserted as u128);
    let mut text = String::new(alloc);
    write!(text, "the replay has {inserted} {word} more")?;
    push_counts(&mut text, differences)?;
    push_same(&mut text, same)?;
    Ok(text)
}

/// Appends how many commands were removed and changed.
fn push_counts(text: &mut String, differences: &[Difference]) -> Result<(), AllocError>
    ensures { OnOk result (string_bytes text.new ≡ string_bytes text.old ++ counts_text differences.now) }
{
    let removed = count_of(differences, Change::Removed);
    let changed = count_of(differences, Change::Changed);
    write!(text, ", {removed} fewer and {changed} changed")
}

/// The sentence of more differences than were looked for.
fn limit_sentence(alloc: Global, limit: u32, same: u128) -> Result<String, AllocError>
    ensures { IfOk result (λ text. string_bytes text ≡ limit_sentence limit same) }
{
    let mut text = String::new(alloc);
    write!(text, "more than {limit} commands moved")?;
    text.push_str(", so they are compared index by index")?;
    push_same(&mut text, same)?;
    Ok(text)
}

/// Appends how many commands are the same.
fn push_same(text: &mut String, same: u128) -> Result<(), AllocError>
    ensures { OnOk result (string_bytes text.new ≡ string_bytes text.old ++ same_text same) }
{
    let are = are_word(same);
    write!(text, "; {same} {are} the same")
}

/// `is` or `are`, by the number of what is.
fn are_word(count: u128) -> &'static str
    ensures { result.now ≡ are_word count }
{
    if count == 1 { "is" } else { "are" }
}
