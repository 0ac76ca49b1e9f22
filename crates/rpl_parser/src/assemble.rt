// Expressions built from parts that are already parsed.
ghost use Rattle.std.specs.Prelude.{Some};
ghost use Rattle.rpl_parser.specs.inside.Gives.{Gives};
ghost use Rattle.rpl_syntax.specs.Expression as M;
ghost use Rattle.rpl_syntax.specs.Expression.{one, chosen};
ghost use Rattle.rpl_syntax.specs.Grammar.{unprefixed, prefixed};
ghost use Rattle.rpl_syntax.specs.Reading.{quantified, closed};
ghost use Rattle.rpl_syntax.specs.View.{expr_of, shown};

use crate::refusal::Refusal;
use rpl_lexer::Punct;
use rpl_syntax::{Expr, Exprs, QName, Token, choose, wrap};
use rpl_text::Chars;
use std::alloc::Global;

/// Returns a name that has no prefix.
pub fn simple_name(alloc: Global, name: &Chars, at: usize) -> Result<QName, Refusal>
    ensures { Gives (λ q. q) result (Some (unprefixed name.now at)) }
{
    Ok(QName {
        prefix: None,
        name: name.copy(alloc)?,
        at,
    })
}

/// Returns a name that has a prefix.
pub fn qualified_name(
    alloc: Global,
    prefix: &Chars,
    name: &Chars,
    at: usize,
) -> Result<QName, Refusal>
    ensures { Gives (λ q. q) result (Some (prefixed prefix.now name.now at)) }
{
    let prefix = prefix.copy(alloc)?;
    Ok(QName {
        prefix: Some(prefix),
        name: name.copy(alloc)?,
        at,
    })
}

pub fn repeated(alloc: Global, body: Expr, least: u32, most: Option<u32>) -> Result<Expr, Refusal>
    ensures { Gives expr_of result (Some (M.Repeat (expr_of body) least most)) }
{
    Ok(Expr::Repeat {
        body: Box::new(alloc, body)?,
        least,
        most,
    })
}

pub fn macro_use(alloc: Global, name: &Chars, at: usize, arg: Expr) -> Result<Expr, Refusal>
    ensures { Gives expr_of result (Some (M.Macro (unprefixed name.now at) (expr_of arg))) }
{
    let name = simple_name(alloc, name, at)?;
    Ok(Expr::Macro {
        name,
        arg: Box::new(alloc, arg)?,
    })
}

pub fn both(alloc: Global, first: Expr, second: Expr) -> Result<Expr, Refusal>
    ensures { Gives expr_of result (Some (M.Both (expr_of first) (expr_of second))) }
{
    let first = Box::new(alloc, first)?;
    Ok(Expr::Both(first, Box::new(alloc, second)?))
}

/// Returns a list whose only element is the choice of `parts`.
pub fn alone(alloc: Global, parts: Exprs) -> Result<Exprs, Refusal>
    ensures { Gives shown result (Some (one (chosen (shown parts)))) }
{
    let mut whole = Exprs::new(alloc);
    whole.push(choose(parts))?;
    Ok(whole)
}

/// If the tokens begin with a quantifier, applies it to `body`.
pub fn quantify(alloc: Global, body: Expr, tokens: &[Token]) -> Result<(Expr, &[Token]), Refusal>
    ensures { Gives (λ x. (expr_of x.0, x.1.now)) result
        (Some (quantified (expr_of body) tokens.now)) }
{
    match tokens {
        [Token::Sign(Punct::Star), rest @ ..] => Ok((repeated(alloc, body, 0, None)?, rest)),
        [Token::Sign(Punct::Plus), rest @ ..] => Ok((repeated(alloc, body, 1, None)?, rest)),
        [Token::Sign(Punct::Question), rest @ ..] => {
            Ok((repeated(alloc, body, 0, Some(1))?, rest))
        }
        [Token::Bounds { least, most }, rest @ ..] => {
            Ok((repeated(alloc, body, *least, *most)?, rest))
        }
        _ => Ok((body, tokens)),
    }
}

/// Returns the group that contains `items`. The tokens must begin with the closing sign of the
/// group. If a quantifier follows the closing sign, it is applied to the group.
pub fn close(
    alloc: Global,
    raw: bool,
    items: Exprs,
    tokens: &[Token],
) -> Result<(Expr, &[Token]), Refusal>
    ensures { Gives (λ x. (expr_of x.0, x.1.now)) result (closed raw (shown items) tokens.now) }
{
    match (raw, tokens) {
        (false, [Token::Sign(Punct::CloseParen), rest @ ..])
        | (true, [Token::Sign(Punct::CloseBrace), rest @ ..]) => {
            quantify(alloc, wrap(raw, items), rest)
        }
        _ => Err(Refusal::Syntax),
    }
}
