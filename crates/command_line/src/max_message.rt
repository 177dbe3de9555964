//! The value of the option `--max-message`.

ghost use Rattle.std.specs.Prelude.{◌≡◌, ◌<◌, ◌^◌, ℕ, List, Some, None, Ok, IfOk, IfErr, IfSome, IsNone, decimal};
ghost use Rattle.clap.specs.Matches.{found_of};
ghost use Rattle.command_line.specs.MaxMessage.{max_message_value, unit_size, unit_text};
ghost use Rattle.command_line.specs.MaxMessage.{IsIn, IsLimitOf, IsNumber, IsSize, IsWithUnit};

use clap::error::ErrorKind;
use clap::{ArgMatches, Command, Error};

/// What a size is counted in, other than bytes.
#[derive(Clone, Copy, Debug, PartialEq, Eq)]
enum Unit {
    Kilobyte,
    Megabyte,
    Gigabyte,
    Kibibyte,
    Mebibyte,
    Gibibyte,
}

impl Unit {
    /// What follows the number.
    fn text(self) -> &'static str
        ensures { result.now ≡ unit_text self }
    {
        match self {
            Unit::Kilobyte => "kB",
            Unit::Megabyte => "MB",
            Unit::Gigabyte => "GB",
            Unit::Kibibyte => "KiB",
            Unit::Mebibyte => "MiB",
            Unit::Gibibyte => "GiB",
        }
    }

    /// How many bytes it is.
    fn size(self) -> u32
        ensures { result ≡ unit_size self }
    {
        match self {
            Unit::Kilobyte => 1_000,
            Unit::Megabyte => 1_000_000,
            Unit::Gigabyte => 1_000_000_000,
            Unit::Kibibyte => 1_024,
            Unit::Mebibyte => 1_048_576,
            Unit::Gibibyte => 1_073_741_824,
        }
    }
}

/// The greatest length of a payload, which is the value of the option, or 4,294,967,295 without it, which means no
/// limit. The error is that of a value that is not a number of bytes, with a unit or without one, or a greater one.
pub fn max_message_of(command: &mut Command<'_>, matches: &ArgMatches<'_>) -> Result<u32, Error>
    ensures named { (limit : ℕ) → limit < 2 ^ 32
        → max_message_value (found_of matches.now) ≡ Some (decimal limit) → result ≡ Ok limit }
    ensures absent { max_message_value (found_of matches.now) ≡ None → result ≡ Ok 4294967295 }
    ensures read { IfOk result (IsLimitOf (found_of matches.now)) }
    ensures sized { (text : List ℕ) → (limit : ℕ) → limit < 2 ^ 32
        → max_message_value (found_of matches.now) ≡ Some text → IsSize text limit → IfErr result (λ error. ⊥) }
{
    let Some(text) = matches.get_str("max-message") else {
        return Ok(u32::MAX);
    };
    let Some(limit) = limit_of(text) else {
        return Err(command.error(
            ErrorKind::InvalidValue,
            "--max-message takes a number of bytes up to 4294967295, as 4096, 64kB or 1MiB",
        )?);
    };
    Ok(limit)
}

/// The number of 32 bits that a text says, with a unit or without one.
fn limit_of(text: &str) -> Option<u32>
    ensures named { (limit : ℕ) → limit < 2 ^ 32 → text.now ≡ decimal limit → result ≡ Some limit }
    ensures read { IfSome result (IsSize text.now) }
    ensures rejected { IsNone result → (limit : ℕ) → limit < 2 ^ 32 → IsSize text.now limit → ⊥ }
{
    if let Some(limit) = number_of(text) {
        return Some(limit);
    }
    with_unit(text)
}

/// The number of 32 bits that a text is.
fn number_of(text: &str) -> Option<u32>
    ensures named { (limit : ℕ) → limit < 2 ^ 32 → text.now ≡ decimal limit → result ≡ Some limit }
    ensures read { IfSome result (IsNumber text.now) }
    ensures rejected { IsNone result → (limit : ℕ) → limit < 2 ^ 32 → IsNumber text.now limit → ⊥ }
{
    text.parse().ok()
}

/// The number of 32 bits that a text says with a unit.
fn with_unit(text: &str) -> Option<u32>
    ensures read { IfSome result (IsWithUnit text.now) }
    ensures rejected { IsNone result → (limit : ℕ) → limit < 2 ^ 32 → IsWithUnit text.now limit → ⊥ }
{
    if let Some(limit) = size_in(Unit::Kilobyte, text) {
        return Some(limit);
    }
    if let Some(limit) = size_in(Unit::Megabyte, text) {
        return Some(limit);
    }
    if let Some(limit) = size_in(Unit::Gigabyte, text) {
        return Some(limit);
    }
    if let Some(limit) = size_in(Unit::Kibibyte, text) {
        return Some(limit);
    }
    if let Some(limit) = size_in(Unit::Mebibyte, text) {
        return Some(limit);
    }
    size_in(Unit::Gibibyte, text)
}

/// The number of 32 bits that a text says in a unit.
fn size_in(unit: Unit, text: &str) -> Option<u32>
    ensures read { IfSome result (IsIn unit text.now) }
    ensures rejected { IsNone result → (limit : ℕ) → limit < 2 ^ 32 → IsIn unit text.now limit → ⊥ }
{
    let number: u32 = text.strip_suffix(unit.text())?.parse().ok()?;
    number.checked_mul(unit.size())
}
