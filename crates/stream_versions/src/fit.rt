//! The check of a stream against a version, from any reader.

ghost use Rattle.std.specs.Prelude.{◌≡◌, ◌≤◌, ℕ, List};
ghost use Rattle.std.specs.Io.KnownBytes.{Consumes};
ghost use Rattle.std.specs.Option.{option_or};
ghost use Rattle.shared_core_base.specs.Version.{version_number};
ghost use Rattle.stream_lines.specs.Printing.{trouble_at};
ghost use Rattle.stream_versions.specs.Fits as spec;
ghost use Rattle.stream_versions.specs.Fits.{IsChecked};

use shared_core_base::version::Version;
use shared_core_message::well_formed::is_well_formed_at;
use shared_core_stream::encoding::Item;
use std::alloc::Global;
use std::io::Read;
use stream_lines::{PrintError, Report, Trouble};
use stream_visits::{Options, Visitor, visit};

/// Reads a stream to its end, and reports what does not fit the version of the options: the first unknown header or
/// malformed payload, and the trailing bytes.
///
/// It holds one item at a time. `Ok` comes only if the reader has no byte left. `MessageTooLong` comes at the first
/// message that is longer than the limit, as soon as its header is read; `Input` if a read fails; `OutOfMemory`. No
/// other error comes.
pub fn check<R: Read>(alloc: Global, options: &Options, input: &mut R) -> Result<Report, PrintError>
    requires spoken { 5 ≤ version_number options.now.version }
    requires low { 1 ≤ options.now.chunk_size }
    requires high { options.now.chunk_size ≤ 65536 }
    ensures { (read : List ℕ) × Consumes (R.remaining input.old) (R.remaining input.new) read
        × IsChecked options.now.version options.now.limit result read (R.remaining input.new) }
{
    let mut checking = Checking {
        found: Report {
            trouble: None,
            end: 0,
            rest: 0,
        },
    };
    let rest = visit(alloc, options, &mut checking, input)?;
    Ok(Report {
        rest,
        ..checking.found
    })
}

/// Whether a stream of which this is reported fits its version.
pub fn fits(report: &Report) -> bool
    ensures { result ≡ spec.fits report.now }
{
    report.trouble.is_none() && report.rest == 0
}

/// What is found in the items so far.
#[derive(Drop)]
struct Checking {
    found: Report,
}

impl Visitor for Checking {
    ghost use Rattle.std.specs.Prelude.{[]};
    ghost use Rattle.stream_lines.specs.Printing.{IsReport};
    ghost use Rattle.stream_versions.specs.Fits.{fault_of};

    ghost has_seen = { λ checking version items. IsReport (fault_of version) items [] checking.found };

    ghost is_long = { λ version item. ⊥ };

    fn note(&mut self, version: Version, item: &Item) -> Result<(), PrintError> {
        self.found.trouble = first_fault(version, self.found.end, item, self.found.trouble);
        self.found.end += item.size() as u128;
        Ok(())
    }
}

/// The first fault: the one that was found before, otherwise that of this item.
fn first_fault(
    version: Version,
    offset: u128,
    item: &Item,
    found: Option<(u128, Trouble)>,
) -> Option<(u128, Trouble)>
    ensures { result ≡ option_or found (trouble_at (spec.fault_of version) offset item.now) }
{
    match found {
        Some(_) => found,
        None => Some((offset, fault_of(version, item)?)),
    }
}

/// What does not fit the version in an item.
fn fault_of(version: Version, item: &Item) -> Option<Trouble>
    ensures { result ≡ spec.fault_of version item.now }
{
    match item {
        Item::Message(message) => {
            let ty = message.ty();
            if is_well_formed_at(version, ty, message.payload().as_slice()) {
                return None;
            }
            Some(Trouble::Malformed(ty))
        }
        Item::Unknown(code) => Some(Trouble::UnknownCode(*code)),
        Item::Skipped(_, _) => None,
    }
}
