// Modules.
ghost use Rattle.std.specs.Prelude.{◌≡◌, ◌≢◌, Option, IfOk, IfErr, IfSome};
ghost use Rattle.rpl_lexer.specs.Cut.{IsCut};
ghost use Rattle.rpl_parser.specs.inside.Gives.{Gives};
ghost use Rattle.rpl_parser.specs.ModuleFaults.{IsModuleFault};
ghost use Rattle.rpl_parser.specs.Order.{IsModule};
ghost use Rattle.rpl_parser.specs.Pieces.{closes_later};
ghost use Rattle.rpl_parser.specs.Tokens.{AllStand, tokens_of};
ghost use Rattle.rpl_parser.specs.inside.Read.{piece_of};
ghost use Rattle.rpl_parser.specs.inside.Statements.{line_seen};
ghost use Rattle.rpl_parser.specs.inside.Walked.{walk_of};
ghost use Rattle.rpl_parser.specs.Walks as W;
ghost use Rattle.rpl_parser.specs.Walks.{by_place, step, module_of};
ghost use Rattle.rpl_parser.specs.Answers.{Answers};
ghost use Rattle.rpl_parser.specs.declared.fault.ParseKind.TheVariants.{NoMemory as OutOfMemory};
ghost use Rattle.rpl_syntax.specs.Modules.{said};

use crate::convert::convert_all;
use crate::fault::{ParseFault, ParseKind};
use crate::level::first_deep;
use crate::line::{Line, read_line};
use crate::pattern::start_of;
use crate::piece::first_piece;
use crate::refusal::Refusal;
use crate::walk::{Rest, Walk};
use rpl_classes::NamedSets;
use rpl_lexer::{Token as Lexeme, Tokens};
use rpl_syntax::Module;
use std::alloc::Global;

/// Combines the result of placing a statement with the fault in the statement's content, if there
/// is one. The statement begins at the byte offset `at`. A fault in placing the statement takes
/// precedence over a fault in the statement's content.
fn checked(
    at: usize,
    bad: Option<ParseFault>,
    placed: Result<(), Refusal>,
) -> Result<(), ParseFault>
    requires { IfSome bad (λ f. f.kind ≢ OutOfMemory) }
    ensures { (w : W.Walk) → (next : Option W.Walk) → Gives (λ _. w) placed next
        → Answers (λ _. w) result (by_place at bad next) }
{
    match placed {
        Ok(()) => match bad {
            Some(fault) => Err(fault),
            None => Ok(()),
        },
        Err(refusal) => Err(refusal.fault_at(at)),
    }
}

/// Returns the statement that a piece spells, together with the fault in the statement's content,
/// if there is one. The nesting level is checked before any bracket is read.
fn read_piece(
    alloc: Global,
    sets: &mut NamedSets,
    text: &str,
    piece: &[Lexeme],
) -> Result<(Line, Option<ParseFault>), ParseFault>
    requires { AllStand text.now piece.now }
    ensures piece { Answers (λ x. (line_seen x.0, x.1)) result (piece_of text.now piece.now) }
    ensures bad { IfOk result (λ x. IfSome x.1 (λ f. f.kind ≢ OutOfMemory)) }
{
    if let Some(at) = first_deep(alloc, text, piece)? {
        return Err(ParseFault {
            at,
            kind: ParseKind::TooDeep,
        });
    }
    let converted = convert_all(alloc, sets, text, piece)?;
    match read_line(alloc, &converted.tokens) {
        Ok(line) => Ok((line, converted.bad)),
        Err(refusal) => Err(refusal.fault_at(start_of(piece))),
    }
}

/// Parses one more piece and adds its statement to the module. `rest` holds the tokens after the
/// piece.
fn past(
    alloc: Global,
    sets: &mut NamedSets,
    walk: &mut Walk,
    piece: &[Lexeme],
    rest: Rest<'_>,
) -> Result<(), ParseFault>
    requires piece { AllStand rest.text.now piece.now }
    requires rest { AllStand rest.text.now rest.tokens.now }
    ensures { let s = rest.entry.text.now in Answers (λ _. walk_of walk.new) result
        (step s (walk_of walk.old) (closes_later (tokens_of s rest.entry.tokens.now)) piece.now) }
{
    let (line, bad) = read_piece(alloc, sets, rest.text, piece)?;
    let at = start_of(piece);
    checked(at, bad, walk.place(alloc, at, line, rest))
}

/// Parses all pieces of a module in order.
fn read_all(alloc: Global, text: &str, lexemes: &[Lexeme]) -> Result<Module, ParseFault>
    requires { AllStand text.now lexemes.now }
    ensures { Answers said result (module_of text.now lexemes.now) }
{
    let mut sets = NamedSets::new(alloc);
    let mut walk = Walk::new(alloc);
    let mut left = lexemes;
    'pieces: while !left.is_empty() {
        let (piece, rest) = left.split_at(first_piece(text, left));
        past(
            alloc,
            &mut sets,
            &mut walk,
            piece,
            Rest { text, tokens: rest },
        )?;
        left = rest;
    }
    walk.finish()
}

/// Parses a text, given its tokens, as a module.
///
/// Statements are parsed in order, and the first statement with a fault determines the error. The
/// fault of a statement is the first of these that applies: `TooDeep`, if the nesting level exceeds
/// 100; `Syntax` at the statement's first token, if its tokens spell no statement or spell one that
/// is not allowed at that place; otherwise, the first `BadBounds` or `Class` in the text. If no
/// statement has a fault but the version is not in the range 1.0 to 1.4, the fault is `Version`.
pub fn parse_module(alloc: Global, text: &str, tokens: &Tokens) -> Result<Module, ParseFault>
    requires { IsCut text.now tokens.now }
    ensures ok { IfOk result (λ m. IsModule text.now tokens.now (said m)) }
    ensures err { IfErr result (λ f. f.kind ≢ OutOfMemory → IsModuleFault text.now tokens.now f) }
    ensures memory { IfErr result (λ f. f.kind ≡ OutOfMemory → f.at ≡ 0) }
{
    read_all(alloc, text, tokens.as_slice())
}
