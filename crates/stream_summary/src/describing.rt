//! The description of a stream, from any reader to any writer.

ghost use Rattle.std.specs.Prelude.{◌≤◌, ℕ, List};
ghost use Rattle.std.specs.Io.KnownBytes.{Appends, Consumes};
ghost use Rattle.shared_core_base.specs.Version.{version_number};
ghost use Rattle.stream_summary.specs.Describing.{IsDescribed};

use crate::summary::Summary;
use dump_lines::Canonicalizer;
use shared_core_base::version::Version;
use shared_core_stream::encoding::Item;
use show_lines::held::Payloads;
use std::alloc::Global;
use std::io::{Read, Write};
use stream_lines::output::write_whole;
use stream_lines::{PrintError, Report};
use stream_visits::{Options, Visitor, visit};

/// Reads a stream to its end, and then writes lines about it: the invocation by its last start message, how it stands
/// after the last item and why, how many items, commands and notifications there are, the last failure, the three
/// longest payloads, and the commands that nothing has completed.
///
/// It holds one item at a time, a text for each id without both its command and its notification, and a few lines.
/// `Ok` comes only if the reader has no byte left; the report has the trailing bytes, and no error. After `Output` a
/// prefix of the lines is written; after another error nothing is: `Input` if a read fails, `MessageTooLong` at the
/// first message that is longer than the limit, as soon as its header is read, `TooLong` only if the canonical payload
/// of a message has more bytes than 32 bits can count, and `OutOfMemory`. The canonicalizer is called for payloads that
/// are not canonical.
pub fn describe<C: Canonicalizer, R: Read, W: Write>(
    alloc: Global,
    options: &Options,
    canonicalizer: &C,
    input: &mut R,
    output: &mut W,
) -> Result<Report, PrintError>
    requires spoken { 5 ≤ version_number options.now.version }
    requires low { 1 ≤ options.now.chunk_size }
    requires high { options.now.chunk_size ≤ 65536 }
    ensures { (read : List ℕ) × (written : List ℕ)
        × Consumes (R.remaining input.old) (R.remaining input.new) read
        × Appends (W.contents output.old) (W.contents output.new) written
        × IsDescribed options.now.version options.now.limit result read written (R.remaining input.new) }
{
    let mut describing = Describing {
        alloc,
        canonicalizer,
        summary: Summary::new(alloc),
    };
    let rest = visit(alloc, options, &mut describing, input)?;
    let summary = &describing.summary;
    let mut text = Vec::new(alloc);
    summary.push(alloc, &mut text)?;
    write_whole(output, text.as_slice())?;
    Ok(Report {
        trouble: None,
        end: summary.all.bytes,
        rest,
    })
}

/// A summary of the items so far, and what reads their payloads.
#[derive(Drop)]
struct Describing<'a, C> {
    alloc: Global,
    canonicalizer: &'a C,
    summary: Summary,
}

impl<'a, C: Canonicalizer> Visitor for Describing<'a, C> {
    ghost use Rattle.std.specs.Prelude.{◌≡◌};
    ghost use Rattle.show_lines.specs.Showing.{IsLong};
    ghost use Rattle.stream_summary.specs.Summary.{seen_by, seen_of};

    ghost has_seen = { λ describing version items. seen_by describing.summary ≡ seen_of version items };

    ghost is_long = { IsLong };

    fn note(&mut self, version: Version, item: &Item) -> Result<(), PrintError> {
        let payloads = Payloads {
            alloc: self.alloc,
            version,
            canonicalizer: self.canonicalizer,
        };
        self.summary.note(&payloads, item)
    }
}
