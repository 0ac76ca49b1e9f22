//! A parsed command line.

ghost use Rattle.std.specs.Prelude.{◌≡◌, ◌≢◌, ◌++◌, string_bytes, IfOk};
ghost use Rattle.rosie_words.specs.declared.fault.UsageFault.TheVariants as E;
ghost use Rattle.rosie_words.specs.Printed.{fault_line, usage};
ghost use Rattle.rosie_cli.specs.Words as W;
ghost use Rattle.rosie_cli.specs.inside.CommandLines.{command_line_seen};

use rosie_run::NoMemory;
use rosie_words::{Command, UsageFault, fault_line, read_words, usage};
use std::alloc::{AllocError, Global};

/// A parsed command line.
#[derive(Drop)]
pub(crate) enum CommandLine {
    /// The words are refused, with this text.
    Refuse(String),
    Do(Command),
}

/// Returns the text for words that don't form a command: the line that reports the fault, and the
/// usage text.
fn usage_text(alloc: Global, fault: &UsageFault) -> Result<String, NoMemory>
    ensures { IfOk result (λ text. (fault.now ≢ E.NoMemory) ×
        (string_bytes text ≡ fault_line fault.now ++ usage)) }
{
    if let UsageFault::NoMemory = fault {
        return Err(AllocError);
    }
    let mut text = fault_line(alloc, fault)?;
    text.push_str(usage())?;
    Ok(text)
}

/// Parses the words of the command line.
pub(crate) fn read_command(alloc: Global, words: &[String]) -> Result<CommandLine, NoMemory>
    ensures { IfOk result (λ line. command_line_seen line ≡ W.command_in words.now) }
{
    match read_words(alloc, words) {
        Ok(command) => Ok(CommandLine::Do(command)),
        Err(fault) => Ok(CommandLine::Refuse(usage_text(alloc, &fault)?)),
    }
}
