//! The texts that are printed for a fault in the words.

ghost use Rattle.std.specs.Prelude.{◌≡◌, ◌++◌, IfOk, OnOk, encode_utf8_all, string_bytes};
ghost use Rattle.rosie_words.specs.Printed.{fault_line, message, usage};

use crate::NoMemory;
use crate::fault::UsageFault;
use rpl_text::Chars;
use std::alloc::Global;

const USAGE: &str = "\
usage: rosie [options] match PATTERN [FILE ...]
       rosie [options] grep PATTERN [FILE ...]
       rosie [options] test FILE
       rosie [options] list
       rosie [options] expand PATTERN
       rosie [options] trace PATTERN [FILE ...]
       rosie [options] sample SEED LINES
       rosie [options] repl
       rosie [options] compile PATTERN
       rosie [options] match --code-file FILE [INPUT ...]
       rosie [options] class NAME
";

/// Returns the usage text: one line for each form of each command.
pub fn usage() -> &'static str
    ensures { result.now ≡ usage }
{
    USAGE
}

/// Returns a word as a string slice.
fn text(word: &Chars) -> &str
    ensures { result.now ≡ encode_utf8_all word.now }
{
    word.as_str()
}

/// Appends a message and the word that the message is about.
fn push_said(line: &mut String, what: &str, word: &Chars) -> Result<(), NoMemory>
    ensures { OnOk result (string_bytes line.new
        ≡ string_bytes line.old ++ (what.now ++ encode_utf8_all word.now)) }
{
    line.push_str(what)?;
    line.push_str(text(word))
}

/// Appends the message for a fault.
fn push_message(line: &mut String, fault: &UsageFault) -> Result<(), NoMemory>
    ensures { OnOk result (string_bytes line.new ≡ string_bytes line.old ++ message fault.now) }
{
    match fault {
        UsageFault::NoMemory => line.push_str("out of memory"),
        UsageFault::UnknownOption(word) => push_said(line, "unknown option: ", word),
        UsageFault::UnexpectedValue(word) => push_said(line, "unexpected value: ", word),
        UsageFault::MissingValue(word) => push_said(line, "missing value: ", word),
        UsageFault::BadValue(value) => push_said(line, "bad value: ", value),
        UsageFault::NoCommand => line.push_str("no command"),
        UsageFault::UnknownCommand(word) => push_said(line, "unknown command: ", word),
        UsageFault::NotForCommand(word) => push_said(line, "not for this command: ", word),
        UsageFault::MissingArgument => line.push_str("missing argument"),
        UsageFault::TooManyArguments => line.push_str("too many arguments"),
    }
}

/// Returns the line that reports a fault, with its line feed: `rosie: usage: ` and the message.
pub fn fault_line(alloc: Global, fault: &UsageFault) -> Result<String, NoMemory>
    ensures { IfOk result (λ line. string_bytes line ≡ fault_line fault.now) }
{
    let mut line = String::new(alloc);
    line.push_str("rosie: usage: ")?;
    push_message(&mut line, fault)?;
    line.push_str("\n")?;
    Ok(line)
}
