//! Messages of a set that have another name than those of the protocol.

ghost use Rattle.std.specs.Prelude.{◌≡◌, IfSome};
ghost use Rattle.std.specs.Option.{option_map};
ghost use Rattle.schema_lines.specs.Renames.{IsRename, names_of, rename_of};

use std::fmt;

/// The name that a message of the protocol has in a set. Names are compared without their case, underscores, and the
/// word Message at their end. The one there may be a full name.
#[derive(Clone, Copy, Debug, PartialEq, Eq, Drop)]
pub struct Rename<'a> {
    /// The name in the set.
    pub theirs: &'a str,
    /// The name in the protocol.
    pub ours: &'a str,
}

impl<'a> Rename<'a> {
    /// The names of a word `THEIRS=OURS`; `None` if it has not this form.
    pub fn of(word: &'a str) -> Option<Rename<'a>>
        ensures parts { IfSome result (IsRename word.now) }
        ensures exact { option_map names_of result ≡ rename_of word.now }
    {
        let (theirs, ours) = word.split_once('=')?;
        if theirs.is_empty() || ours.is_empty() {
            return None;
        }
        Some(Rename { theirs, ours })
    }
}

/// What is wrong with a rename.
#[derive(Clone, Copy, Debug, PartialEq, Eq, Drop)]
pub enum RenameFault {
    /// The set has no message of the name there.
    UnknownThere,
    /// The protocol has no message of the name here.
    UnknownHere,
    /// An earlier rename has the same name here.
    Twice,
}

impl fmt::Display for RenameFault {
    fn fmt<W: fmt::Write>(&self, f: &mut fmt::Formatter<W>) -> fmt::Result {
        match self {
            RenameFault::UnknownThere => write!(f, "there is no such message there"),
            RenameFault::UnknownHere => write!(f, "there is no such message here"),
            RenameFault::Twice => write!(f, "the message here has another name already"),
        }
    }
}
