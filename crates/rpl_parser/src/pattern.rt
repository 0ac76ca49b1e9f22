// Patterns.
ghost use Rattle.std.specs.Prelude.{◌≡◌, ◌≢◌, None, IfOk, IfErr};
ghost use Rattle.rpl_lexer.specs.Cut.{IsCut};
ghost use Rattle.rpl_parser.specs.Patterns.{IsPattern, IsPatternFault};
ghost use Rattle.rpl_parser.specs.Tokens.{AllStand, first_place};
ghost use Rattle.rpl_parser.specs.Levels.{ground_level, too_deep};
ghost use Rattle.rpl_parser.specs.Walks.{by_bad};
ghost use Rattle.rpl_parser.specs.declared.fault.ParseKind.TheVariants.{NoMemory as OutOfMemory};
ghost use Rattle.rpl_syntax.specs.View.{expr_of};

use crate::convert::convert_all;
use crate::descent::expression;
use crate::fault::{ParseFault, ParseKind};
use crate::level::first_deep;
use rpl_classes::NamedSets;
use rpl_lexer::{Token as Lexeme, Tokens};
use rpl_syntax::Expr;
use std::alloc::Global;

/// Returns the byte offset of the first token, or 0 if there is none.
pub fn start_of(lexemes: &[Lexeme]) -> usize
    ensures { result ≡ first_place lexemes.now }
{
    match lexemes {
        [] => 0,
        [first, ..] => first.start,
    }
}

/// Returns the fault `bad`, if there is one, and otherwise the expression `read`.
fn unless_bad(read: Expr, bad: Option<ParseFault>) -> Result<Expr, ParseFault>
    ensures { result ≡ by_bad read bad }
{
    match bad {
        Some(fault) => Err(fault),
        None => Ok(read),
    }
}

/// Parses the tokens of a pattern that is not nested too deeply.
fn read_shallow(alloc: Global, text: &str, lexemes: &[Lexeme]) -> Result<Expr, ParseFault>
    requires stands { AllStand text.now lexemes.now }
    requires shallow { too_deep text.now ground_level lexemes.now ≡ None }
    ensures ok { IfOk result (λ x. IsPattern text.now lexemes.now (expr_of x)) }
    ensures err { IfErr result (λ f. f.kind ≢ OutOfMemory → IsPatternFault text.now lexemes.now f) }
    ensures memory { IfErr result (λ f. f.kind ≡ OutOfMemory → f.at ≡ 0) }
{
    let mut sets = NamedSets::new(alloc);
    let converted = convert_all(alloc, &mut sets, text, lexemes)?;
    match expression(alloc, &converted.tokens) {
        Ok(read) => unless_bad(read, converted.bad),
        Err(refusal) => Err(refusal.fault_at(start_of(lexemes))),
    }
}

/// Parses the tokens of a pattern.
fn read_pattern(alloc: Global, text: &str, lexemes: &[Lexeme]) -> Result<Expr, ParseFault>
    requires { AllStand text.now lexemes.now }
    ensures ok { IfOk result (λ x. IsPattern text.now lexemes.now (expr_of x)) }
    ensures err { IfErr result (λ f. f.kind ≢ OutOfMemory → IsPatternFault text.now lexemes.now f) }
    ensures memory { IfErr result (λ f. f.kind ≡ OutOfMemory → f.at ≡ 0) }
{
    match first_deep(alloc, text, lexemes)? {
        Some(at) => Err(ParseFault {
            at,
            kind: ParseKind::TooDeep,
        }),
        None => read_shallow(alloc, text, lexemes),
    }
}

/// Parses a text, given its tokens, as a pattern.
///
/// The error is the first fault that applies: `TooDeep`, if the nesting level exceeds 100; `Syntax`
/// at the first token (at byte 0 if there is none), if the tokens spell no expression; otherwise,
/// the first `BadBounds` or `Class` in the text.
pub fn parse_pattern(alloc: Global, text: &str, tokens: &Tokens) -> Result<Expr, ParseFault>
    requires { IsCut text.now tokens.now }
    ensures ok { IfOk result (λ x. IsPattern text.now tokens.now (expr_of x)) }
    ensures err { IfErr result (λ f. f.kind ≢ OutOfMemory → IsPatternFault text.now tokens.now f) }
    ensures memory { IfErr result (λ f. f.kind ≡ OutOfMemory → f.at ≡ 0) }
{
    read_pattern(alloc, text, tokens.as_slice())
}
