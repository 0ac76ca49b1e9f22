//! The commands, and the options that each takes.

ghost use Rattle.std.specs.Prelude.{◌≡◌};
ghost use Rattle.rosie_words.specs.Table.{option_named, command_named, has_value, row, takes};
ghost use Rattle.rosie_words.specs.Options.{makes_code, is_for};

/// A command of the command line.
#[derive(Clone, Copy)]
pub(crate) enum CommandName {
    Match,
    Grep,
    Test,
    List,
    Expand,
    Trace,
    Sample,
    Repl,
    Compile,
    Class,
}

/// An option, in any of its spellings.
#[derive(Clone, Copy)]
pub(crate) enum OptionName {
    File,
    Rpl,
    LibPath,
    Output,
    WholeFile,
    All,
    FixedStrings,
    Budget,
    Steps,
    Code,
    Limit,
    CodeFile,
}

/// Returns the option that a word names.
pub(crate) fn option_named(name: &str) -> Option<OptionName>
    ensures { result ≡ option_named name.now }
{
    match name {
        "-f" | "--file" => Some(OptionName::File),
        "--rpl" => Some(OptionName::Rpl),
        "--libpath" => Some(OptionName::LibPath),
        "-o" | "--output" => Some(OptionName::Output),
        "-w" | "--wholefile" => Some(OptionName::WholeFile),
        "-a" | "--all" => Some(OptionName::All),
        "-F" | "--fixed-strings" => Some(OptionName::FixedStrings),
        "--budget" => Some(OptionName::Budget),
        "--steps" => Some(OptionName::Steps),
        "--code" => Some(OptionName::Code),
        "--limit" => Some(OptionName::Limit),
        "--code-file" => Some(OptionName::CodeFile),
        _ => None,
    }
}

/// Returns the command that a word names.
pub(crate) fn command_named(name: &str) -> Option<CommandName>
    ensures { result ≡ command_named name.now }
{
    match name {
        "match" => Some(CommandName::Match),
        "grep" => Some(CommandName::Grep),
        "test" => Some(CommandName::Test),
        "list" => Some(CommandName::List),
        "expand" => Some(CommandName::Expand),
        "trace" => Some(CommandName::Trace),
        "sample" => Some(CommandName::Sample),
        "repl" => Some(CommandName::Repl),
        "compile" => Some(CommandName::Compile),
        "class" => Some(CommandName::Class),
        _ => None,
    }
}

impl OptionName {
    /// Returns whether the option takes a value.
    pub(crate) fn takes_value(self) -> bool
        ensures { result ≡ has_value (row self).value }
    {
        !matches!(
            self,
            OptionName::WholeFile
                | OptionName::All
                | OptionName::FixedStrings
                | OptionName::Steps
                | OptionName::Code
        )
    }

    /// Returns whether the option affects only how a pattern is compiled, and so is of no use if a
    /// code file is given.
    fn makes_code(self) -> bool
        ensures { result ≡ makes_code self }
    {
        matches!(
            self,
            OptionName::File | OptionName::Rpl | OptionName::LibPath | OptionName::FixedStrings
        )
    }

    /// Returns whether the command takes the option. `has_code` says whether a code file was given.
    pub(crate) fn is_for(self, command: CommandName, has_code: bool) -> bool
        ensures { result ≡ is_for command has_code self }
    {
        if has_code && matches!(command, CommandName::Match) && self.makes_code() {
            return false;
        }
        self.is_of(command)
    }

    /// Returns whether the table of options lists this option for the command.
    fn is_of(self, command: CommandName) -> bool
        ensures { result ≡ takes command self }
    {
        use CommandName::{Match, Grep, Test, List, Expand, Trace, Sample, Repl, Compile};

        match self {
            OptionName::File | OptionName::Rpl => {
                matches!(command, Match | Grep | List | Expand | Trace | Compile)
            }
            OptionName::LibPath => {
                matches!(
                    command,
                    Match | Grep | Test | List | Expand | Trace | Repl | Compile
                )
            }
            OptionName::Output | OptionName::All | OptionName::Steps => {
                matches!(command, Match | Grep)
            }
            OptionName::WholeFile => matches!(command, Match | Grep | Trace),
            OptionName::FixedStrings => {
                matches!(command, Match | Grep | Expand | Trace | Compile)
            }
            OptionName::Budget => matches!(command, Match | Grep | Test | Sample),
            OptionName::Code => matches!(command, Expand),
            OptionName::Limit => matches!(command, Trace),
            OptionName::CodeFile => matches!(command, Match),
        }
    }
}
