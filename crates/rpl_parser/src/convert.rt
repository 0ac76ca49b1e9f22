// Converts the tokens of a text into tokens of the grammar, and finds the first bad token.
ghost use Rattle.std.specs.Prelude.{◌≡◌, IfOk, chars, option_map};
ghost use Rattle.rpl_classes.specs.Brackets.{bracket_of};
ghost use Rattle.rpl_lexer.specs.Cut.{IsToken};
ghost use Rattle.rpl_lexer.specs.declared.token.TokenKind.TheVariants.{Name as NameKind};
ghost use Rattle.rpl_lexer.specs.declared.token.TokenKind.TheVariants.{Qualified as QualifiedKind};
ghost use Rattle.rpl_parser.specs.Tokens.{AllStand, capped, bounds_token};
ghost use Rattle.rpl_parser.specs.Tokens.{bounds_fault};
ghost use Rattle.rpl_parser.specs.Tokens.{class_token, class_fault, place_in};
ghost use Rattle.rpl_parser.specs.Tokens.{token_by, tokens_of};
ghost use Rattle.rpl_parser.specs.Tokens.{fault_by, first_bad};
ghost use Rattle.rpl_syntax.specs.Bounds.{least_of, most_of};

use crate::fault::{ParseFault, ParseKind};
use rpl_classes::{NamedSets, Set, SetFault, read_bracket_with};
use rpl_lexer::{
    Bounds, Token as Lexeme, TokenKind, bounds_of, decode_text, halves_of, keyword_of, number_of,
    punct_of, token_text,
};
use rpl_syntax::Token;
use rpl_text::Chars;
use std::alloc::{AllocError, Global};

/// Returns `number`, capped at 256.
fn cap(number: u64) -> u32
    ensures { result ≡ capped number }
{
    number.min(256) as u32
}

fn least(bounds: Bounds) -> u64
    ensures { result ≡ least_of bounds }
{
    bounds.least.unwrap_or(0)
}

/// Returns the largest number of repetitions that the bounds allow, capped at 256, or `None` if
/// there is no limit.
fn upper(bounds: Bounds) -> Option<u32>
    ensures { result ≡ option_map capped (most_of bounds) }
{
    if !bounds.comma {
        return Some(cap(least(bounds)));
    }
    match bounds.most {
        Some(most) => Some(cap(most)),
        None => None,
    }
}

/// Returns the byte offset of a fault, relative to the start of its bracket.
fn place(fault: SetFault) -> usize
    ensures { result ≡ place_in fault }
{
    match fault {
        SetFault::NoMemory => 0,
        SetFault::UnknownClass { at } | SetFault::BadRange { at } | SetFault::BadSet { at } => at,
    }
}

/// Reads the set in the bracket at the byte offset `at`. If the bracket is not a valid set, returns
/// the empty set and the fault.
fn class(
    alloc: Global,
    sets: &mut NamedSets,
    text: &str,
    at: usize,
) -> Result<(Token, Option<ParseFault>), AllocError>
    ensures token { IfOk result (λ x. x.0 ≡ class_token (bracket_of (chars text.now))) }
    ensures bad { IfOk result (λ x. x.1 ≡ class_fault at (bracket_of (chars text.now))) }
{
    match read_bracket_with(alloc, sets, text) {
        Ok(bracket) => {
            let class = Token::Class {
                set: bracket.set,
                negated: bracket.negated,
            };
            Ok((class, None))
        }
        Err(SetFault::NoMemory) => Err(AllocError),
        Err(fault) => {
            let class = Token::Class {
                set: Set::empty(alloc)?,
                negated: false,
            };
            let bad = ParseFault {
                at: at.saturating_add(place(fault)),
                kind: ParseKind::Class(fault),
            };
            Ok((class, Some(bad)))
        }
    }
}

/// Converts a `Name` token.
fn name(alloc: Global, text: &str, lexeme: Lexeme) -> Result<Token, AllocError>
    requires stands { IsToken text.now lexeme }
    ensures { IfOk result (λ t. t ≡ token_by NameKind text.now lexeme) }
{
    Ok(Token::Name {
        name: Chars::from_str(alloc, token_text(text, lexeme))?,
        at: lexeme.start,
    })
}

/// Converts a `Qualified` token.
fn qualified(alloc: Global, text: &str, lexeme: Lexeme) -> Result<Token, AllocError>
    requires kind { lexeme.kind ≡ QualifiedKind }
    requires stands { IsToken text.now lexeme }
    ensures { IfOk result (λ t. t ≡ token_by QualifiedKind text.now lexeme) }
{
    let (prefix, name) = halves_of(text, lexeme);
    let prefix = Chars::from_str(alloc, prefix)?;
    let name = Chars::from_str(alloc, name)?;
    Ok(Token::Qualified {
        prefix,
        name,
        at: lexeme.start,
    })
}

/// Converts bounds to a token whose numbers are capped at 256.
fn bounds_token(bounds: Bounds) -> Token
    ensures { result ≡ bounds_token bounds }
{
    Token::Bounds {
        least: cap(least(bounds)),
        most: upper(bounds),
    }
}

/// Returns the fault in the bounds at the byte offset `at`, if there is one.
fn bounds_bad(at: usize, bounds: Bounds) -> Option<ParseFault>
    ensures { result ≡ bounds_fault at bounds }
{
    let least = least(bounds);
    let most = bounds.most.unwrap_or(least);
    if most < least || least > 255 || most > 255 {
        return Some(ParseFault {
            at,
            kind: ParseKind::BadBounds { least, most },
        });
    }
    None
}

/// Converts a token. Returns the converted token, and the fault in the token, if there is one.
fn convert(
    alloc: Global,
    sets: &mut NamedSets,
    text: &str,
    lexeme: Lexeme,
) -> Result<(Token, Option<ParseFault>), AllocError>
    requires { IsToken text.now lexeme }
    ensures token { IfOk result (λ x. x.0 ≡ token_by lexeme.kind text.now lexeme) }
    ensures bad { IfOk result (λ x. x.1 ≡ fault_by lexeme.kind text.now lexeme) }
{
    match lexeme.kind {
        TokenKind::Name => Ok((name(alloc, text, lexeme)?, None)),
        TokenKind::Qualified => Ok((qualified(alloc, text, lexeme)?, None)),
        TokenKind::Keyword => Ok((Token::Keyword(keyword_of(text, lexeme)), None)),
        TokenKind::Text => Ok((Token::Text(decode_text(alloc, text, lexeme)?), None)),
        TokenKind::Bracket => class(alloc, sets, token_text(text, lexeme), lexeme.start),
        TokenKind::Bounds => {
            let bounds = bounds_of(text, lexeme);
            Ok((bounds_token(bounds), bounds_bad(lexeme.start, bounds)))
        }
        TokenKind::Number => Ok((Token::Number(number_of(text, lexeme)), None)),
        TokenKind::Sign => Ok((Token::Sign(punct_of(text, lexeme)), None)),
    }
}

/// The converted tokens of a text, and the first fault in its bounds and brackets, if there is one.
#[derive(Drop)]
pub struct Converted {
    pub tokens: Vec<Token>,
    pub bad: Option<ParseFault>,
}

/// Converts each token of a text once. `sets` caches the sets of the last few named classes.
pub fn convert_all(
    alloc: Global,
    sets: &mut NamedSets,
    text: &str,
    lexemes: &[Lexeme],
) -> Result<Converted, AllocError>
    requires { AllStand text.now lexemes.now }
    ensures tokens { IfOk result (λ c. c.tokens.items ≡ tokens_of text.now lexemes.now) }
    ensures bad { IfOk result (λ c. c.bad ≡ first_bad text.now lexemes.now) }
{
    let mut tokens = Vec::with_capacity(alloc, lexemes.len())?;
    let mut bad = None;
    for lexeme in lexemes {
        let (token, fault) = convert(alloc, sets, text, *lexeme)?;
        tokens.push(token)?;
        bad = bad.or(fault);
    }
    Ok(Converted { tokens, bad })
}
