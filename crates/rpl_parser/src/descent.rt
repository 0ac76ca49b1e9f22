// Recursive descent: each function parses one nonterminal of the grammar with one token of
// lookahead. `depth` bounds the nesting; one more than the number of tokens is always enough. The
// nesting level is checked earlier, so calls never nest deeply.
ghost use Rattle.std.specs.Prelude.{suc, ◌∷◌, length, Some};
ghost use Rattle.rpl_text.specs.Options.{◌>>=◌ as and_then};
ghost use Rattle.rpl_parser.specs.inside.Gives.{Gives};
ghost use Rattle.rpl_syntax.specs.Reading.{read, item_of, read_item, read_exp, seq_of, parts_of};
ghost use Rattle.rpl_syntax.specs.Reading.{signed, closed};
ghost use Rattle.rpl_syntax.specs.View.{expr_of, shown};
ghost use Rattle.rpl_syntax.specs.declared.token.Token.TheVariants as T;

use crate::assemble::{alone, both, close, macro_use, qualified_name, quantify, simple_name};
use crate::refusal::Refusal;
use crate::steps::{goes_on, item_begins, next, past_ampersand, past_colon, past_slash};
use rpl_lexer::Punct;
use rpl_syntax::{Expr, Exprs, Sign, Token, join};
use std::alloc::Global;

/// Parses the item at the start of the tokens. Returns the item and the tokens after it.
#[cycle(read)]
fn item<'a>(
    alloc: Global,
    tokens: &'a [Token],
    depth: usize,
) -> Result<(Expr, &'a [Token]), Refusal>
    ensures { Gives (λ x. (expr_of x.0, x.1.now)) result (read_item depth tokens.now) }
{
    if depth == 0 {
        return Err(Refusal::Syntax);
    }
    match next(tokens) {
        None => Err(Refusal::Syntax),
        Some((first, rest)) => item_from(alloc, first, rest, depth - 1),
    }
}

/// Parses the item whose first token is `first`.
#[cycle(read)]
fn item_from<'a>(
    alloc: Global,
    first: &'a Token,
    tokens: &'a [Token],
    depth: usize,
) -> Result<(Expr, &'a [Token]), Refusal>
    ensures { Gives (λ x. (expr_of x.0, x.1.now)) result
        (item_of (read_item depth) (read_exp depth) (first.now ∷ tokens.now)) }
{
    match first {
        Token::Keyword(_) | Token::Bounds { .. } | Token::Number(_) => Err(Refusal::Syntax),
        Token::Text(text) => quantify(alloc, Expr::Text(text.copy(alloc)?), tokens),
        Token::Class { set, negated } => {
            let set = set.copy(alloc)?;
            quantify(
                alloc,
                Expr::Class {
                    set,
                    negated: *negated,
                },
                tokens,
            )
        }
        Token::Name { name, at } => match past_colon(tokens) {
            Some(rest) => {
                let (arg, rest) = item(alloc, rest, depth)?;
                Ok((macro_use(alloc, name, *at, arg)?, rest))
            }
            None => {
                let name = simple_name(alloc, name, *at)?;
                quantify(alloc, Expr::Name(name), tokens)
            }
        },
        Token::Qualified { prefix, name, at } => {
            let name = qualified_name(alloc, prefix, name, *at)?;
            quantify(alloc, Expr::Name(name), tokens)
        }
        Token::Sign(sign) => item_signed(alloc, *sign, tokens, depth),
    }
}

/// Parses the item whose first token is the sign `sign`.
#[cycle(read)]
fn item_signed<'a>(
    alloc: Global,
    sign: Punct,
    tokens: &'a [Token],
    depth: usize,
) -> Result<(Expr, &'a [Token]), Refusal>
    ensures { Gives (λ x. (expr_of x.0, x.1.now)) result
        (item_of (read_item depth) (read_exp depth) (T.Sign sign ∷ tokens.now)) }
{
    match sign {
        Punct::Bang => predicate(alloc, Sign::Not, tokens, depth),
        Punct::Greater => predicate(alloc, Sign::Ahead, tokens, depth),
        Punct::Less => predicate(alloc, Sign::Behind, tokens, depth),
        Punct::Dot => quantify(alloc, Expr::Any, tokens),
        Punct::Caret => quantify(alloc, Expr::Start, tokens),
        Punct::Dollar => quantify(alloc, Expr::End, tokens),
        Punct::Tilde => quantify(alloc, Expr::Boundary, tokens),
        Punct::OpenParen => group(alloc, false, tokens, depth),
        Punct::OpenBrace => group(alloc, true, tokens, depth),
        Punct::CloseParen
        | Punct::CloseBrace
        | Punct::Slash
        | Punct::Ampersand
        | Punct::Star
        | Punct::Plus
        | Punct::Question
        | Punct::Equals
        | Punct::Comma
        | Punct::Colon => Err(Refusal::Syntax),
    }
}

/// Parses the item that follows the sign of a predicate. Returns the predicate and the tokens after
/// that item.
#[cycle(read)]
fn predicate<'a>(
    alloc: Global,
    sign: Sign,
    tokens: &'a [Token],
    depth: usize,
) -> Result<(Expr, &'a [Token]), Refusal>
    ensures { Gives (λ x. (expr_of x.0, x.1.now)) result
        (and_then (read_item depth tokens.now) (signed sign)) }
{
    let (inner, rest) = item(alloc, tokens, depth)?;
    Ok((Expr::Prefix(sign, Box::new(alloc, inner)?), rest))
}

/// Parses the rest of a group, after its opening sign.
#[cycle(read)]
fn group<'a>(
    alloc: Global,
    raw: bool,
    tokens: &'a [Token],
    depth: usize,
) -> Result<(Expr, &'a [Token]), Refusal>
    ensures { Gives (λ x. (expr_of x.0, x.1.now)) result
        (and_then (read_exp depth raw tokens.now) (λ x. closed raw x.0 x.1)) }
{
    let (items, rest) = content(alloc, raw, tokens, depth)?;
    close(alloc, raw, items, rest)
}

/// Parses the items of a sequence.
#[cycle(read)]
fn sequence<'a>(
    alloc: Global,
    tokens: &'a [Token],
    depth: usize,
) -> Result<(Exprs, &'a [Token]), Refusal>
    ensures { Gives (λ x. (shown x.0, x.1.now)) result (seq_of (read_item depth) tokens.now) }
{
    let mut items = Exprs::new(alloc);
    let mut rest = tokens;
    for _ in 0..tokens.len() {
        let (next, after) = item(alloc, rest, depth)?;
        items.push(next)?;
        rest = after;
        if !item_begins(rest) {
            return Ok((items, rest));
        }
    }
    Err(Refusal::Syntax)
}

/// Parses the parts of a choice, given the items of its first part.
#[cycle(read)]
fn choice<'a>(
    alloc: Global,
    raw: bool,
    first: Exprs,
    tokens: &'a [Token],
    depth: usize,
) -> Result<(Exprs, &'a [Token]), Refusal>
    ensures { Gives (λ x. (shown x.0, x.1.now)) result
        (parts_of (suc (length tokens.now)) raw
        (seq_of (read_item depth)) (read_exp depth raw) (shown first) tokens.now) }
{
    let mut parts = Exprs::new(alloc);
    let mut items = first;
    let mut rest = tokens;
    for _ in 0..tokens.len() + 1 {
        match past_slash(rest) {
            Some(after) => {
                parts.push(join(raw, items))?;
                let (next, after) = sequence(alloc, after, depth)?;
                items = next;
                rest = after;
            }
            None => match past_ampersand(rest) {
                Some(after) => {
                    let (last, after) = content(alloc, raw, after, depth)?;
                    parts.push(both(alloc, join(raw, items), join(raw, last))?)?;
                    return Ok((parts, after));
                }
                None => {
                    parts.push(join(raw, items))?;
                    return Ok((parts, rest));
                }
            },
        }
    }
    Err(Refusal::Syntax)
}

/// Parses the content of a group.
#[cycle(read)]
fn content<'a>(
    alloc: Global,
    raw: bool,
    tokens: &'a [Token],
    depth: usize,
) -> Result<(Exprs, &'a [Token]), Refusal>
    ensures { Gives (λ x. (shown x.0, x.1.now)) result (read_exp depth raw tokens.now) }
{
    if depth == 0 {
        return Err(Refusal::Syntax);
    }
    let (items, rest) = sequence(alloc, tokens, depth - 1)?;
    if !goes_on(rest) {
        return Ok((items, rest));
    }
    let (parts, rest) = choice(alloc, raw, items, rest, depth - 1)?;
    Ok((alone(alloc, parts)?, rest))
}

/// Parses the expression that the tokens spell.
pub fn expression(alloc: Global, tokens: &[Token]) -> Result<Expr, Refusal>
    ensures { Gives expr_of result (read tokens.now) }
{
    let (items, rest) = content(alloc, false, tokens, tokens.len() + 1)?;
    if !rest.is_empty() {
        return Err(Refusal::Syntax);
    }
    Ok(join(false, items))
}
