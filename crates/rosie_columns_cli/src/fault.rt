// Faults in the command line.
ghost use Rattle.std.specs.Prelude.{◌≡◌, ◌++◌, IfOk, OnOk, encode_utf8_all, string_bytes};
ghost use Rattle.rosie_columns_cli.specs.Faults.{message, refusal};

use crate::NoMemory;
use rpl_text::Chars;
use std::alloc::{AllocError, Global};

/// The first fault in the command line.
#[derive(Drop)]
pub enum WordFault {
    /// Memory ran out while the words were read.
    NoMemory,
    /// No option has this name.
    UnknownOption(Chars),
    /// This option, which is the last word, needs a value.
    MissingValue(Chars),
    /// No format has this name.
    BadValue(Chars),
    /// This word is not a column.
    BadColumn(Chars),
    /// No column is given.
    NoColumn,
}

impl From<AllocError> for WordFault {
    ghost use Rattle.rosie_columns_cli.specs.declared.fault.WordFault.TheVariants.{NoMemory};

    ghost from_gives = { λ _ fault. fault ≡ NoMemory };

    fn from(_error: AllocError) -> WordFault {
        WordFault::NoMemory
    }
}

const USAGE: &str =
    "usage: rosie-columns [-o csv|tsv|json] [-j TEXT] [-n] [[NAME=]TYPE ...] [-- FILE ...]\n";

/// Returns a word as a string slice.
fn text(word: &Chars) -> &str
    ensures { result.now ≡ encode_utf8_all word.now }
{
    word.as_str()
}

/// Appends a message and the word that the message is about.
fn push_said(line: &mut String, what: &str, word: &Chars) -> Result<(), NoMemory>
    ensures { OnOk result (string_bytes line.new
        ≡ string_bytes line.old ++ (what.now ++ encode_utf8_all word.now)) }
{
    line.push_str(what)?;
    line.push_str(text(word))
}

/// Appends the message for a fault.
fn push_message(line: &mut String, fault: &WordFault) -> Result<(), NoMemory>
    ensures { OnOk result (string_bytes line.new ≡ string_bytes line.old ++ message fault.now) }
{
    match fault {
        WordFault::NoMemory => line.push_str("out of memory"),
        WordFault::UnknownOption(word) => push_said(line, "unknown option: ", word),
        WordFault::MissingValue(word) => push_said(line, "missing value: ", word),
        WordFault::BadValue(value) => push_said(line, "bad value: ", value),
        WordFault::BadColumn(word) => push_said(line, "bad column: ", word),
        WordFault::NoColumn => line.push_str("no column"),
    }
}

/// Returns the output for a fault: the line that reports it, and the usage text.
pub(crate) fn refusal(alloc: Global, fault: &WordFault) -> Result<String, NoMemory>
    ensures { IfOk result (λ text. string_bytes text ≡ refusal fault.now) }
{
    let mut text = String::new(alloc);
    text.push_str("rosie-columns: usage: ")?;
    push_message(&mut text, fault)?;
    text.push_str("\n")?;
    text.push_str(USAGE)?;
    Ok(text)
}
