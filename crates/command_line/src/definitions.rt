//! The definitions of command lines as data, and the commands that clap takes.

use clap::{Arg, ArgAction, Command};
use shared_core_base::version::Version;
use std::alloc::{AllocError, Global};

/// What a command line may say, and what its help says of it.
#[derive(Clone, Copy, Debug, Drop)]
pub struct Definition {
    /// The version of the program.
    pub version: &'static str,
    /// What the command does, in a line.
    pub about: &'static str,
    /// What the help ends with.
    pub after_help: &'static str,
    /// The options, then the operands.
    pub arguments: &'static [Argument],
}

/// An option or an operand.
#[derive(Clone, Copy, Debug, Drop)]
pub struct Argument {
    /// Its name among the arguments that clap finds. An option has it after `--`.
    pub name: &'static str,
    pub form: Form,
    /// What the help says of it.
    pub help: &'static str,
    /// What its value may be.
    pub values: Values,
    /// The value where it is not given.
    pub default: Option<&'static str>,
    pub is_repeated: bool,
    pub is_required: bool,
    /// Whether the value may begin with a hyphen, which else begins an option.
    pub may_begin_with_hyphen: bool,
}

/// How an argument is given.
#[derive(Clone, Copy, Debug, Drop)]
pub enum Form {
    /// `--NAME`, without a value.
    Flag,
    /// `--NAME VALUE`, where help and errors show this for the value.
    Option(&'static str),
    /// A value without a name, for which help and errors show this.
    Operand(&'static str),
}

/// What the value of an argument may be.
#[derive(Clone, Copy, Debug, Drop)]
pub enum Values {
    Any,
    /// The number of a version of the protocol.
    Versions,
    /// One of these.
    Among(&'static [&'static str]),
}

impl Values {
    /// The values; none where it may be any.
    fn list(self) -> Option<&'static [&'static str]> {
        match self {
            Values::Any => None,
            Values::Versions => Some(Version::supported_numbers()),
            Values::Among(values) => Some(values),
        }
    }
}

impl Argument {
    /// Its name, its form and its help, as clap takes them.
    fn named<'a>(self, alloc: Global) -> Arg<'a> {
        let arg = Arg::new(alloc, self.name).help(self.help);
        match self.form {
            Form::Flag => arg.long(self.name).action(ArgAction::SetTrue),
            Form::Option(value) => arg.long(self.name).value_name(value),
            Form::Operand(value) => arg.value_name(value),
        }
    }

    /// The argument as clap takes it. Its help has all that clap would append to it.
    fn arg<'a>(self, alloc: Global) -> Arg<'a> {
        let mut arg = self
            .named(alloc)
            .required(self.is_required)
            .allow_hyphen_values(self.may_begin_with_hyphen);
        if let Some(values) = self.values.list() {
            arg = arg.value_parser(values).hide_possible_values(true);
        }
        if let Some(default) = self.default {
            arg = arg.default_value(default).hide_default_value(true);
        }
        if self.is_repeated {
            arg = arg.action(ArgAction::Append);
        }
        arg
    }
}

impl Definition {
    /// The command as clap takes it, which help and errors show by this name.
    pub fn command<'a>(&self, alloc: Global, name: &'a str) -> Result<Command<'a>, AllocError> {
        let mut command = Command::new(alloc, name)
            .version(self.version)
            .about(self.about)
            .after_help(self.after_help);
        for argument in self.arguments {
            command = command.arg(argument.arg(alloc))?;
        }
        Ok(command)
    }
}
