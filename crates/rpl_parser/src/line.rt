// Statements.
ghost use Rattle.std.specs.Prelude.{◌≡◌, ℕ, suc, ◌∷◌, length, Some, true, false, IfSome, IfNone};
ghost use Rattle.rpl_parser.specs.inside.Gives.{Gives};
ghost use Rattle.rpl_parser.specs.Lines.{path_of, as_of, entry_of, entries_of, all_of, binds};
ghost use Rattle.rpl_parser.specs.Lines.{line_of};
ghost use Rattle.rpl_parser.specs.inside.Lines.{is_path_end, comma};
ghost use Rattle.rpl_parser.specs.inside.Statements.{line_seen};
ghost use Rattle.rpl_lexer.specs.declared.keyword.Keyword.TheVariants.{Rpl, Package};
ghost use Rattle.rpl_lexer.specs.declared.punct.Punct.TheVariants.{Comma, Slash, Tilde, Equals};
ghost use Rattle.rpl_syntax.specs.declared.token.Token.TheVariants as T;

use crate::descent::expression;
use crate::refusal::Refusal;
use rpl_lexer::{Keyword, Punct};
use rpl_syntax::{Expr, Import, ImportAs, Imports, Printer, Token};
use rpl_text::Chars;
use std::alloc::Global;

/// A statement, without its byte offset.
#[derive(Drop)]
pub enum Line {
    Version {
        major: u64,
        minor: u64,
    },
    Package(Chars),
    Imports(Imports),
    Binds {
        local: bool,
        alias: bool,
        name: Chars,
        body: Expr,
    },
    /// `grammar`, which begins a block.
    Opens,
    /// `in`, which ends the hidden half of a block.
    Splits,
    /// `end`, which ends a block.
    Closes,
}

/// Parses the rest of a path whose first name is `first`. Returns the names of the path, separated
/// by `/`, and the tokens after the path.
fn path<'a>(
    alloc: Global,
    first: &Chars,
    tokens: &'a [Token],
) -> Result<(Chars, &'a [Token]), Refusal>
    ensures { Gives (λ x. (x.0, x.1.now)) result (Some (path_of first.now tokens.now)) }
{
    let mut text = Printer::new(alloc);
    text.word(first)?;
    let mut rest = tokens;
    while let Some((name, after)) = past_name(rest) {
        text.put('/')?;
        text.word(name)?;
        rest = after;
    }
    Ok((text.finish(alloc)?, rest))
}

/// If the tokens begin with a `/` and a name, returns that name and the tokens after it.
fn past_name(tokens: &[Token]) -> Option<(&Chars, &[Token])>
    ensures some { IfSome result (λ x. (at : ℕ) ×
        (tokens.now ≡ T.Sign Slash ∷ T.Name x.0.now at ∷ x.1.now)) }
    ensures none { IfNone result (is_path_end tokens.now ≡ true) }
{
    match tokens {
        [
            Token::Sign(Punct::Slash),
            Token::Name { name, .. },
            rest @ ..,
        ] => Some((name, rest)),
        _ => None,
    }
}

/// Parses the `as` part of an import, if there is one.
fn import_as(alloc: Global, tokens: &[Token]) -> Result<(ImportAs, &[Token]), Refusal>
    ensures { Gives (λ x. (x.0, x.1.now)) result (as_of tokens.now) }
{
    match tokens {
        [
            Token::Keyword(Keyword::As),
            Token::Name { name, .. },
            rest @ ..,
        ] => { Ok((ImportAs::Named(name.copy(alloc)?), rest)) }
        [
            Token::Keyword(Keyword::As),
            Token::Sign(Punct::Dot),
            rest @ ..,
        ] => { Ok((ImportAs::Plain, rest)) }
        [Token::Keyword(Keyword::As), ..] => Err(Refusal::Syntax),
        _ => Ok((ImportAs::Last, tokens)),
    }
}

/// Parses an entry of an import statement.
fn entry(alloc: Global, tokens: &[Token]) -> Result<(Import, &[Token]), Refusal>
    ensures { Gives (λ x. (x.0, x.1.now)) result (entry_of tokens.now) }
{
    match tokens {
        [Token::Name { name, at }, rest @ ..] => {
            let (path, rest) = path(alloc, name, rest)?;
            let (name, rest) = import_as(alloc, rest)?;
            Ok((
                Import {
                    path,
                    at: *at,
                    name,
                },
                rest,
            ))
        }
        _ => Err(Refusal::Syntax),
    }
}

/// Parses the name, the `=` and the expression of a binding.
fn binding(alloc: Global, local: bool, alias: bool, tokens: &[Token]) -> Result<Line, Refusal>
    ensures { Gives line_seen result (binds local alias tokens.now) }
{
    match tokens {
        [
            Token::Name { name, .. },
            Token::Sign(Punct::Equals),
            rest @ ..,
        ] => {
            let name = name.copy(alloc)?;
            Ok(Line::Binds {
                local,
                alias,
                name,
                body: expression(alloc, rest)?,
            })
        }
        _ => Err(Refusal::Syntax),
    }
}

/// Parses the entries of an import statement.
fn entries(alloc: Global, tokens: &[Token]) -> Result<Imports, Refusal>
    ensures { Gives (λ x. x) result (entries_of (suc (length tokens.now)) tokens.now) }
{
    let mut entries = Imports::new(alloc);
    let mut rest = tokens;
    for _ in 0..tokens.len() + 1 {
        let (next, after) = entry(alloc, rest)?;
        entries.push(next)?;
        match past_comma(after) {
            Some(others) => rest = others,
            None => return ended(entries, after),
        }
    }
    Err(Refusal::Syntax)
}

/// If the tokens begin with a comma, returns the tokens after it.
fn past_comma(tokens: &[Token]) -> Option<&[Token]>
    ensures some { IfSome result (λ r. tokens.now ≡ T.Sign Comma ∷ r.now) }
    ensures none { IfNone result (comma tokens.now ≡ false) }
{
    match tokens {
        [Token::Sign(Punct::Comma), rest @ ..] => Some(rest),
        _ => None,
    }
}

/// Returns `entries`, or an error if any tokens remain after them.
fn ended(entries: Imports, tokens: &[Token]) -> Result<Imports, Refusal>
    ensures { Gives (λ x. x) result (all_of entries tokens.now) }
{
    match tokens {
        [] => Ok(entries),
        _ => Err(Refusal::Syntax),
    }
}

/// Parses the statement that the tokens spell.
pub fn read_line(alloc: Global, tokens: &[Token]) -> Result<Line, Refusal>
    ensures { Gives line_seen result (line_of tokens.now) }
{
    match tokens {
        [Token::Keyword(word), rest @ ..] => line_from(alloc, *word, rest),
        [
            Token::Sign(Punct::Tilde),
            Token::Sign(Punct::Equals),
            rest @ ..,
        ] => { boundary(alloc, rest) }
        _ => binding(alloc, false, false, tokens),
    }
}

/// Parses the statement that begins with the keyword `word`.
fn line_from(alloc: Global, word: Keyword, tokens: &[Token]) -> Result<Line, Refusal>
    ensures { Gives line_seen result (line_of (T.Keyword word ∷ tokens.now)) }
{
    match (word, tokens) {
        (Keyword::Rpl, _) => version(tokens),
        (Keyword::Package, _) => package(alloc, tokens),
        (Keyword::Import, _) => Ok(Line::Imports(entries(alloc, tokens)?)),
        (Keyword::Grammar, []) => Ok(Line::Opens),
        (Keyword::In, []) => Ok(Line::Splits),
        (Keyword::End, []) => Ok(Line::Closes),
        (Keyword::Local, [Token::Keyword(Keyword::Alias), rest @ ..]) => {
            binding(alloc, true, true, rest)
        }
        (Keyword::Local, _) => binding(alloc, true, false, tokens),
        (Keyword::Alias, _) => binding(alloc, false, true, tokens),
        (Keyword::Grammar | Keyword::In | Keyword::End | Keyword::As, _) => Err(Refusal::Syntax),
    }
}

/// Parses the two numbers of a version statement.
fn version(tokens: &[Token]) -> Result<Line, Refusal>
    ensures { Gives line_seen result (line_of (T.Keyword Rpl ∷ tokens.now)) }
{
    match tokens {
        [
            Token::Number(major),
            Token::Sign(Punct::Dot),
            Token::Number(minor),
        ] => Ok(Line::Version {
            major: *major,
            minor: *minor,
        }),
        _ => Err(Refusal::Syntax),
    }
}

/// Parses the name in a package statement.
fn package(alloc: Global, tokens: &[Token]) -> Result<Line, Refusal>
    ensures { Gives line_seen result (line_of (T.Keyword Package ∷ tokens.now)) }
{
    match tokens {
        [Token::Name { name, .. }] => Ok(Line::Package(name.copy(alloc)?)),
        _ => Err(Refusal::Syntax),
    }
}

/// Parses what follows the `~` and the `=` in a statement that defines the module's own boundary.
fn boundary(alloc: Global, tokens: &[Token]) -> Result<Line, Refusal>
    ensures { Gives line_seen result (line_of (T.Sign Tilde ∷ T.Sign Equals ∷ tokens.now)) }
{
    let name = Chars::from_str(alloc, "~")?;
    Ok(Line::Binds {
        local: true,
        alias: true,
        name,
        body: expression(alloc, tokens)?,
    })
}
