// Parses texts as modules.
ghost use Rattle.std.specs.Prelude.{◌≡◌, ◌≢◌, ℕ, List, IfErr, IfOk};
ghost use Rattle.rpl_syntax.specs.Modules.{said};
ghost use Rattle.rpl_lexer.specs.declared.fault.LexKind.TheVariants.{NoMemory as LexOut};
ghost use Rattle.rpl_parser.specs.declared.fault.ParseKind.TheVariants.{NoMemory as ParseOut};
ghost use Rattle.rpl_scope.specs.Faults.{Gives, IsStop, fault_at};
ghost use Rattle.rpl_scope.specs.declared.fault.LoadKind.TheVariants.{Lex, Parse};
ghost use Rattle.rpl_scope.specs.declared.fault.Stop.TheVariants.{Memory as OutOfMemory};
ghost use Rattle.rpl_names.specs.Built.{IsSaid};
ghost use Rattle.rpl_package.specs.inside.Reading.{IsRead, IsLoud};
ghost use Rattle.rpl_names.specs.Texts.{parsed, module_text};

use crate::locate::MAX_TEXT_BYTES;
use rpl_lexer::{LexFault, LexKind, cut_computes, lex};
use rpl_parser::{ParseFault, ParseKind, one_module, parse_module};
use rpl_scope::{LoadKind, Stop, fault_at};
use rpl_syntax::Module as ParsedModule;
use rpl_text::Chars;
use std::alloc::Global;

/// The result of reading a file.
#[derive(Drop)]
pub enum Read {
    Text(String),
    /// The file exceeds 1,048,576 bytes.
    TooLong,
    /// The file is not too long, but it is not UTF-8.
    NotText,
}

/// Returns the error for a text that cannot be split into tokens.
#[tactic(auto, using(rpl_scope::proofs::Stops::told))]
pub fn lex_stop(alloc: Global, file: &Chars, fault: LexFault) -> Stop
    ensures fault { fault.kind ≢ LexOut → IsStop result
        (fault_at file.now fault.at (Lex fault.kind)) }
    ensures memory { fault.kind ≡ LexOut → result ≡ OutOfMemory }
{
    match fault.kind {
        LexKind::NoMemory => Stop::Memory,
        _ => fault_at(alloc, file, fault.at, LoadKind::Lex(fault.kind)),
    }
}

/// Returns the error for a text that cannot be parsed.
#[tactic(auto, using(rpl_scope::proofs::Stops::told))]
pub fn parse_stop(alloc: Global, file: &Chars, fault: ParseFault) -> Stop
    ensures fault { fault.kind ≢ ParseOut → IsStop result
        (fault_at file.now fault.at (Parse fault.kind)) }
    ensures memory { fault.kind ≡ ParseOut → result ≡ OutOfMemory }
{
    match fault.kind {
        ParseKind::NoMemory => Stop::Memory,
        _ => fault_at(alloc, file, fault.at, LoadKind::Parse(fault.kind)),
    }
}

/// Parses a text as a module, without checking the length of the text.
fn parse(alloc: Global, file: &Chars, text: &str) -> Result<ParsedModule, Stop>
    ensures { Gives said result (parsed file.now text.now) }
{
    cut_computes();
    one_module();
    let tokens = match lex(alloc, text) {
        Ok(tokens) => tokens,
        Err(fault) => return Err(lex_stop(alloc, file, fault)),
    };
    match parse_module(alloc, text, &tokens) {
        Ok(said) => Ok(said),
        Err(fault) => Err(parse_stop(alloc, file, fault)),
    }
}

/// Parses a text as a module.
#[tactic(auto, using(rpl_scope::proofs::Stops::told))]
pub fn read_text(alloc: Global, file: &Chars, text: &str) -> Result<ParsedModule, Stop>
    ensures gives { Gives said result (module_text file.now text.now) }
    ensures said { IfOk result (λ t. IsSaid (said t)) }
{
    if text.len() > MAX_TEXT_BYTES {
        return Err(fault_at(alloc, file, 0, LoadKind::FileTooLong));
    }
    parse(alloc, file, text)
}

/// Parses the content of a file as a module.
#[tactic(auto, using(rpl_scope::proofs::Stops::told, crate::proofs::Causes::told_loud))]
#[inline(never)]
pub fn read_module(alloc: Global, file: &Chars, read: Read) -> Result<ParsedModule, Stop>
    ensures gives { (bytes : List ℕ) → IsRead read bytes →
        Gives said result (module_text file.now bytes) }
    ensures loud { IfErr result IsLoud }
    ensures said { IfOk result (λ t. IsSaid (said t)) }
{
    match read {
        Read::Text(text) => read_text(alloc, file, &text),
        Read::TooLong => Err(fault_at(alloc, file, 0, LoadKind::FileTooLong)),
        Read::NotText => Err(fault_at(alloc, file, 0, LoadKind::NotText)),
    }
}
