// Loading faults: the lines that report them, and what they leave to run.
ghost use Rattle.std.specs.Prelude.{◌≡◌, ◌++◌, IfOk, Some, encode_utf8_all, string_bytes};
ghost use Rattle.rosie_prepare.specs.Lines as L;
ghost use Rattle.rosie_prepare.specs.Steps.{Tells, TellsLoad};
ghost use Rattle.rosie_prepare.specs.Texts as T;

use crate::NoMemory;
use crate::texts::{lex_text, macro_text, parse_text};
use rosie_run::{Unready, input_fault, line_fault};
use rpl_package::{LoadFault, LoadKind};
use rpl_print::text_of;
use rpl_text::Chars;
use std::alloc::Global;

/// Returns a text followed by a name.
fn named(alloc: Global, text: &str, name: &Chars) -> Result<String, NoMemory>
    ensures { IfOk result (λ s. string_bytes s ≡ text.now ++ encode_utf8_all name.now) }
{
    let name = text_of(name);
    format!(in alloc; "{text}{name}")
}

/// Returns the message for a loading fault.
fn load_text(alloc: Global, kind: &LoadKind) -> Result<String, NoMemory>
    ensures { IfOk result (λ s. string_bytes s ≡ T.load_text kind.now) }
{
    match kind {
        LoadKind::NoMemory => Err(NoMemory),
        LoadKind::ImportMissing { path } => named(alloc, "import not found: ", path),
        LoadKind::ImportCycle { path } => named(alloc, "import cycle: ", path),
        LoadKind::FileTooLong => String::from_str(alloc, "text too long"),
        LoadKind::NotText => String::from_str(alloc, "not UTF-8"),
        LoadKind::Duplicate { name } => named(alloc, "duplicate name: ", name),
        LoadKind::UnknownName { name } => named(alloc, "unknown name: ", name),
        LoadKind::HiddenName { name } => named(alloc, "hidden name: ", name),
        LoadKind::TooManyPackages => String::from_str(alloc, "too many packages"),
        LoadKind::ReadFault => String::from_str(alloc, "read failed"),
        LoadKind::Lex(kind) => String::from_str(alloc, lex_text(*kind)),
        LoadKind::Parse(kind) => String::from_str(alloc, parse_text(*kind)),
        LoadKind::Macro { name, fault } => named(alloc, macro_text(*fault), name),
        LoadKind::RootMissing => String::from_str(alloc, "no such file"),
    }
}

/// Returns the line that reports a loading fault: the fault's file, its byte offset and the
/// message. For a file that is missing or can't be read, the line gives no offset.
pub fn load_line(alloc: Global, fault: &LoadFault) -> Result<String, NoMemory>
    ensures { IfOk result (λ line. string_bytes line ≡ L.load_line fault.now) }
{
    let text = load_text(alloc, &fault.kind)?;
    let file = text_of(&fault.file);
    match &fault.kind {
        LoadKind::RootMissing | LoadKind::ReadFault => input_fault(alloc, file, &text),
        _ => line_fault(alloc, file, fault.at as u64, &text),
    }
}

/// Returns the refusal for a loading fault, or `NoMemory` if there is not enough memory for the
/// line that reports it.
fn refused(alloc: Global, fault: &LoadFault) -> Unready
    ensures { Tells (Some (L.load_line fault.now)) result }
{
    match load_line(alloc, fault) {
        Ok(line) => Unready::Refused(line),
        Err(_) => Unready::NoMemory,
    }
}

/// Turns a loading fault into the reason why there is nothing to run.
pub(crate) fn of_load(alloc: Global, fault: LoadFault) -> Unready
    ensures { TellsLoad fault result }
{
    match &fault.kind {
        LoadKind::NoMemory => Unready::NoMemory,
        LoadKind::ReadFault => Unready::ReadFault(fault.file),
        _ => refused(alloc, &fault),
    }
}
