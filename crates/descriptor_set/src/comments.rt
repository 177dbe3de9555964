//! The comments of a file, by the paths of what they are at.

ghost use Rattle.std.specs.Prelude.{◌≡◌, ◌++◌, List, ℕ, Vec, IfOk, OnOk};
ghost use Rattle.std.specs.Global.{Global};
ghost use Rattle.std.specs.Option.{option_or};
ghost use Rattle.descriptor_set.specs.Comments.{AreCommentsOf, codes_at, first_codes, found_at, own_codes};
ghost use Rattle.descriptor_set.specs.Comments.{packed_path, path_in, said_at, said_by, said_here, said_in};
ghost use Rattle.descriptor_set.specs.Values.{contents_in};

use crate::codes::{SaidCode, said_codes};
use crate::values::content_in;
use shared_core_wire::record::WireValue;
use shared_core_wire::records::{LEVELS, Records};
use shared_core_wire::varint::{low_32, read_varint};
use std::alloc::{AllocError, Global};
use std::collections::BTreeMap;

/// What the comments of a place of a file say.
#[derive(Drop)]
struct Comment {
    /// The codes that the comment above it says.
    above: Vec<SaidCode>,
    /// The codes that the comment after its beginning says.
    after: Vec<SaidCode>,
    /// Whether there is a comment above it.
    has_above: bool,
}

/// The comments of a file that say codes, by their paths: the numbers of fields and the indices that lead to the place
/// from the file on. Of several at one path the first one is kept.
#[derive(Drop)]
pub struct Comments {
    by_path: BTreeMap<Vec<u32>, Comment>,
}

impl Comments {
    /// Those of a file.
    #[tactic(auto, using(crate::proofs::FoundComments::said_at_more, crate::proofs::FoundComments::or_more))]
    pub fn of(alloc: Global, file: &[u8]) -> Result<Comments, AllocError>
        ensures { IfOk result (λ comments. AreCommentsOf file.now comments) }
    {
        let mut comments = Comments {
            by_path: BTreeMap::new(alloc),
        };
        for item in Records::within(file, LEVELS) {
            if let Ok(found) = item {
                if found.number == 9 {
                    if let WireValue::Length(source) = found.value {
                        comments.append(alloc, source)?;
                    }
                }
            }
        }
        Ok(comments)
    }

    /// The codes of the message of a path: those that its own comments say, or else the first one of its first field.
    pub fn codes_of(&self, alloc: Global, path: &Vec<u32>) -> Result<Vec<SaidCode>, AllocError>
        ensures { (file : List ℕ) → AreCommentsOf file self.now
            → IfOk result (λ codes. codes.items ≡ codes_at file path.now.items) }
    {
        let mut codes = Vec::new(alloc);
        if let Some(own) = self.by_path.get(path) {
            codes.extend_from_slice(own.codes())?;
        }
        if codes.is_empty() {
            let mut field = Vec::new(alloc);
            field.extend_from_slice(path.as_slice())?;
            field.push(2)?;
            field.push(0)?;
            if let Some(first) = self.by_path.get(&field) {
                codes.extend_from_slice(first.first())?;
            }
        }
        Ok(codes)
    }

    /// Appends the comments of a SourceCodeInfo that say codes.
    #[tactic(auto, using(crate::proofs::FoundComments::or_more))]
    fn append(&mut self, alloc: Global, source: &[u8]) -> Result<(), AllocError>
        ensures { OnOk result ((path : Vec ℕ Global) → found_at self.new path.items
            ≡ option_or (found_at self.old path.items) (said_at path.items (contents_in 1 source.now))) }
    {
        for item in Records::within(source, LEVELS) {
            if let Ok(found) = item {
                if found.number == 1 {
                    if let WireValue::Length(location) = found.value {
                        self.keep(alloc, location)?;
                    }
                }
            }
        }
        Ok(())
    }

    /// Keeps the comments of a Location, if they say codes and there are none of its path.
    fn keep(&mut self, alloc: Global, location: &[u8]) -> Result<(), AllocError>
        ensures { OnOk result ((path : Vec ℕ Global) → found_at self.new path.items
            ≡ option_or (found_at self.old path.items) (said_here path.items location.now)) }
    {
        let comment = comment_of(alloc, location)?;
        if comment.codes().is_empty() {
            return Ok(());
        }
        let path = path_of(alloc, location)?;
        if !self.by_path.contains_key(&path) {
            self.by_path.insert(path, comment)?;
        }
        Ok(())
    }
}

impl Comment {
    /// The codes that the first of its comments says that says any.
    fn codes(&self) -> &[SaidCode]
        ensures { result.now ≡ own_codes (said_by self.now) }
    {
        if self.above.is_empty() {
            self.after.as_slice()
        } else {
            self.above.as_slice()
        }
    }

    /// The codes that the first of its comments says.
    fn first(&self) -> &[SaidCode]
        ensures { result.now ≡ first_codes (said_by self.now) }
    {
        if self.has_above {
            self.above.as_slice()
        } else {
            self.after.as_slice()
        }
    }
}

/// The comment of a Location.
fn comment_of(alloc: Global, location: &[u8]) -> Result<Comment, AllocError>
    ensures { IfOk result (λ comment. said_by comment ≡ said_in location.now) }
{
    let above = content_in(location, 3);
    Ok(Comment {
        above: said_codes(alloc, above)?,
        after: said_codes(alloc, content_in(location, 4))?,
        has_above: !above.is_empty(),
    })
}

/// The path of a Location.
fn path_of(alloc: Global, location: &[u8]) -> Result<Vec<u32>, AllocError>
    ensures { IfOk result (λ path. path.items ≡ path_in location.now) }
{
    let mut path = Vec::new(alloc);
    for item in Records::within(location, LEVELS) {
        if let Ok(found) = item {
            if found.number == 1 {
                match found.value {
                    WireValue::Varint(number) => path.push(low_32(number))?,
                    WireValue::Length(content) => append_numbers(content, &mut path)?,
                    _ => {}
                }
            }
        }
    }
    Ok(path)
}

/// Appends numbers that are written as one record.
fn append_numbers(bytes: &[u8], numbers: &mut Vec<u32>) -> Result<(), AllocError>
    ensures { OnOk result (numbers.new.items ≡ numbers.old.items ++ packed_path bytes.now) }
{
    let mut rest = bytes;
    let mut most = bytes.len();
    while most > 0 {
        let Some((number, after)) = read_varint(rest) else {
            return Ok(());
        };
        numbers.push(low_32(number))?;
        rest = after;
        most -= 1;
    }
    Ok(())
}
