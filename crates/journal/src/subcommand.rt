//! The subcommands, and how each is asked for.

use crate::definitions;
use clap::Command;
use command_line::Definition;
use std::alloc::{AllocError, Global};
use std::path::Path;

/// The subcommands, in the order of the help.
static SUBCOMMANDS: [Subcommand; 13] = [
    Subcommand::List,
    Subcommand::Dump,
    Subcommand::Make,
    Subcommand::Diff,
    Subcommand::Show,
    Subcommand::Cut,
    Subcommand::Cat,
    Subcommand::Redact,
    Subcommand::Describe,
    Subcommand::Get,
    Subcommand::Explain,
    Subcommand::Schema,
    Subcommand::Renumber,
];

/// What the program does.
#[derive(Clone, Copy, Debug, PartialEq, Eq, Drop)]
pub enum Subcommand {
    /// Lists a stream.
    List,
    /// Prints a stream as JSON.
    Dump,
    /// Makes a stream of JSON.
    Make,
    /// Compares two journals.
    Diff,
    /// Shows a stream in readable lines.
    Show,
    /// Cuts a range of commands out of a journal.
    Cut,
    /// Joins journals.
    Cat,
    /// Compares a descriptor set with the protocol.
    Schema,
    /// Replaces the contents of a journal.
    Redact,
    /// Describes journals.
    Describe,
    /// Writes a field of an item.
    Get,
    /// Explains the bytes of a stream.
    Explain,
    /// Writes a stream at other field numbers.
    Renumber,
}

impl Subcommand {
    ghost use Rattle.std.specs.Prelude.{◌≡◌, IfSome, IsNone};
    ghost use Rattle.journal.specs.declared.subcommand.Subcommand.{Subcommand as AnySubcommand};
    ghost use Rattle.journal.specs.Subcommands.{failure_status, subcommand_name, IsNoProgram, IsProgramOf};

    /// The subcommand of this name, if there is one.
    fn named(name: &str) -> Option<Subcommand>
        ensures some { IfSome result (λ found. name.now ≡ subcommand_name found) }
        ensures none { IsNone result → (other : AnySubcommand) → name.now ≡ subcommand_name other → ⊥ }
    {
        match name {
            "list" => Some(Subcommand::List),
            "dump" => Some(Subcommand::Dump),
            "make" => Some(Subcommand::Make),
            "diff" => Some(Subcommand::Diff),
            "show" => Some(Subcommand::Show),
            "cut" => Some(Subcommand::Cut),
            "cat" => Some(Subcommand::Cat),
            "schema" => Some(Subcommand::Schema),
            "redact" => Some(Subcommand::Redact),
            "describe" => Some(Subcommand::Describe),
            "get" => Some(Subcommand::Get),
            "explain" => Some(Subcommand::Explain),
            "renumber" => Some(Subcommand::Renumber),
            _ => None,
        }
    }

    /// The name of this subcommand.
    fn word(self) -> &'static str
        ensures { result.now ≡ subcommand_name self }
    {
        match self {
            Subcommand::List => "list",
            Subcommand::Dump => "dump",
            Subcommand::Make => "make",
            Subcommand::Diff => "diff",
            Subcommand::Show => "show",
            Subcommand::Cut => "cut",
            Subcommand::Cat => "cat",
            Subcommand::Schema => "schema",
            Subcommand::Redact => "redact",
            Subcommand::Describe => "describe",
            Subcommand::Get => "get",
            Subcommand::Explain => "explain",
            Subcommand::Renumber => "renumber",
        }
    }

    /// The definition of its command line.
    fn definition(self) -> &'static Definition {
        match self {
            Subcommand::List => &definitions::LIST,
            Subcommand::Dump => &definitions::DUMP,
            Subcommand::Make => &definitions::MAKE,
            Subcommand::Diff => &definitions::DIFF,
            Subcommand::Show => &definitions::SHOW,
            Subcommand::Cut => &definitions::CUT,
            Subcommand::Cat => &definitions::CAT,
            Subcommand::Schema => &definitions::SCHEMA,
            Subcommand::Redact => &definitions::REDACT,
            Subcommand::Describe => &definitions::DESCRIBE,
            Subcommand::Get => &definitions::GET,
            Subcommand::Explain => &definitions::EXPLAIN,
            Subcommand::Renumber => &definitions::RENUMBER,
        }
    }

    /// Its command for clap, by its name.
    fn command<'a>(self, alloc: Global) -> Result<Command<'a>, AllocError> {
        // the borrow checker wants the name shortened before it is in the command
        let word: &'a str = self.word();
        self.definition().command(alloc, word)
    }

    /// The subcommand that the program of this path is, by the last component of the path.
    /// `journal_list` is another program, and the newer ones have no such name.
    fn of_program(path: &str) -> Option<Subcommand>
        ensures some { IfSome result (IsProgramOf path.now) }
        ensures none { IsNone result → IsNoProgram path.now }
    {
        match Path::new(path).file_name()? {
            "journal_dump" => Some(Subcommand::Dump),
            "journal_make" => Some(Subcommand::Make),
            "journal_diff" => Some(Subcommand::Diff),
            "journal_show" => Some(Subcommand::Show),
            _ => None,
        }
    }

    /// The status if an allocation, the input or the output fails.
    pub fn failure(self) -> u8
        ensures { result ≡ failure_status self }
    {
        match self {
            Subcommand::List | Subcommand::Dump | Subcommand::Show | Subcommand::Schema => 1,
            Subcommand::Redact | Subcommand::Describe | Subcommand::Get => 1,
            Subcommand::Explain | Subcommand::Renumber => 1,
            Subcommand::Make | Subcommand::Diff | Subcommand::Cut | Subcommand::Cat => 2,
        }
    }
}

/// A subcommand that is asked for.
#[derive(Clone, Copy, Debug, PartialEq, Eq, Drop)]
pub struct Asked {
    pub subcommand: Subcommand,
    /// Whether the program is called by its name, and not by an argument.
    is_program: bool,
}

impl Asked {
    ghost use Rattle.std.specs.Prelude.{◌≡◌, IfSome, IsNone, MatchOption, true, false, if◌then◌else◌};
    ghost use Rattle.std.specs.Prelude.{drop, slice_get, string_bytes};
    ghost use Rattle.journal.specs.declared.subcommand.Subcommand.{Subcommand as AnySubcommand};
    ghost use Rattle.journal.specs.Subcommands.{call_name, subcommand_name, IsNoProgram, IsProgramOf};

    /// What the program's path and its first argument ask for. A path that says a subcommand comes before the argument.
    pub fn of(path: Option<&str>, word: Option<&str>) -> Option<Asked>
        ensures program { IfSome result (λ asked. asked.is_program ≡ true
            → MatchOption path.entry ⊥ (λ path. IsProgramOf path.now asked.subcommand)) }
        ensures word { IfSome result (λ asked. asked.is_program ≡ false
            → MatchOption word.entry ⊥ (λ word. word.now ≡ subcommand_name asked.subcommand)) }
        ensures after { IfSome result (λ asked. asked.is_program ≡ false
            → IfSome path.entry (λ path. IsNoProgram path.now)) }
        ensures none { IsNone result → IfSome path.entry (λ path. IsNoProgram path.now)
            × IfSome word.entry (λ word. (other : AnySubcommand) → word.now ≡ subcommand_name other → ⊥) }
    {
        if let Some(subcommand) = path.and_then(Subcommand::of_program) {
            return Some(Asked {
                subcommand,
                is_program: true,
            });
        }
        let subcommand = word.and_then(Subcommand::named)?;
        Some(Asked {
            subcommand,
            is_program: false,
        })
    }

    /// What the arguments ask for: the first of them is the program's path.
    pub fn by(arguments: &[String]) -> Option<Asked>
        ensures program { IfSome result (λ asked. asked.is_program ≡ true
            → MatchOption (slice_get arguments.now 0) ⊥ (λ path. IsProgramOf (string_bytes path) asked.subcommand)) }
        ensures word { IfSome result (λ asked. asked.is_program ≡ false
            → MatchOption (slice_get arguments.now 1) ⊥
            (λ word. string_bytes word ≡ subcommand_name asked.subcommand)) }
    {
        let path = arguments.first().map(|path| path.as_str());
        let word = arguments.get(1).map(|word| word.as_str());
        Asked::of(path, word)
    }

    /// How it is called, as messages and the usage show it.
    pub fn name(self) -> &'static str
        ensures { result.now ≡ call_name self }
    {
        match (self.subcommand, self.is_program) {
            (Subcommand::List, _) => "journal list",
            (Subcommand::Dump, true) => "journal_dump",
            (Subcommand::Dump, false) => "journal dump",
            (Subcommand::Make, true) => "journal_make",
            (Subcommand::Make, false) => "journal make",
            (Subcommand::Diff, true) => "journal_diff",
            (Subcommand::Diff, false) => "journal diff",
            (Subcommand::Show, true) => "journal_show",
            (Subcommand::Show, false) => "journal show",
            (Subcommand::Cut, _) => "journal cut",
            (Subcommand::Cat, _) => "journal cat",
            (Subcommand::Schema, _) => "journal schema",
            (Subcommand::Redact, _) => "journal redact",
            (Subcommand::Describe, _) => "journal describe",
            (Subcommand::Get, _) => "journal get",
            (Subcommand::Explain, _) => "journal explain",
            (Subcommand::Renumber, _) => "journal renumber",
        }
    }

    /// Its own arguments: all that come after those which ask for it.
    #[tactic(auto, using(std::proofs::lemmas::List::drop_all, std::proofs::lemmas::List::take_rest))]
    pub fn own_words(self, arguments: &[String]) -> &[String]
        ensures { result.now ≡ drop (if self.is_program then 1 else 2) arguments.now }
    {
        let place = if self.is_program { 1 } else { 2 };
        match arguments.get(place..) {
            Some(words) => words,
            None => &[],
        }
    }
}

/// The command of the program for clap, with its subcommands. A command line has to say one of them.
pub fn program<'a>(alloc: Global, name: &'a str) -> Result<Command<'a>, AllocError> {
    let mut command = definitions::JOURNAL
        .command(alloc, name)?
        .subcommand_required(true)
        .arg_required_else_help(true);
    for subcommand in SUBCOMMANDS {
        command = command.subcommand(subcommand.command(alloc)?)?;
    }
    Ok(command)
}
