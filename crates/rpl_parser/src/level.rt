// The nesting level of tokens.
ghost use Rattle.std.specs.Prelude.{◌≡◌, ◌<◌, IfOk, OnOk, drop};
ghost use Rattle.rpl_lexer.specs.Cut.{IsToken};
ghost use Rattle.rpl_lexer.specs.declared.punct.Punct.TheVariants.{Slash, Bang, OpenParen};
ghost use Rattle.rpl_lexer.specs.declared.punct.Punct.TheVariants.{CloseParen};
ghost use Rattle.rpl_parser.specs.Levels.{ground_level, sign_level, level_after, Level, reach_by};
ghost use Rattle.rpl_parser.specs.Levels.{colon_by};
ghost use Rattle.rpl_parser.specs.Levels.{colon_next, too_deep};
ghost use Rattle.rpl_parser.specs.inside.Stacks.{level_of};
ghost use Rattle.rpl_parser.specs.Tokens.{AllStand};

use rpl_lexer::{Punct, Token, TokenKind, nesting_of, punct_of};
use smallvec::SmallVec;
use std::alloc::{AllocError, Global};

/// The greatest level allowed.
const MAX_LEVEL: u64 = 100;

/// The current level, the base to which the level falls back, and the bases to restore when the
/// open groups close.
#[derive(Drop)]
pub struct Depth {
    base: u64,
    level: u64,
    bases: SmallVec<u64, 100>,
}

impl Depth {
    fn settle(&mut self)
        ensures { level_of self.new ≡ sign_level Slash (level_of self.old) }
    {
        self.level = self.base;
    }

    fn raise(&mut self)
        requires { self.old.level < 1000 }
        ensures { level_of self.new ≡ sign_level Bang (level_of self.old) }
    {
        self.level += 1;
    }

    fn open(&mut self) -> Result<(), AllocError>
        requires { self.old.level < 1000 }
        ensures { OnOk result (level_of self.new ≡ sign_level OpenParen (level_of self.old)) }
    {
        self.bases.push(self.base)?;
        self.level += 1;
        self.base = self.level;
        Ok(())
    }

    fn close(&mut self)
        ensures { level_of self.new ≡ sign_level CloseParen (level_of self.old) }
    {
        let base = self.bases.pop().unwrap_or(0);
        self.base = base;
        self.level = base;
    }

    /// Updates the level and the bases for a sign.
    fn sign(&mut self, sign: Punct) -> Result<(), AllocError>
        requires level { self.old.level < 1000 }
        requires base { self.old.base < 1000 }
        ensures { OnOk result (level_of self.new ≡ sign_level sign (level_of self.old)) }
    {
        match sign {
            Punct::Bang | Punct::Greater | Punct::Less => self.raise(),
            Punct::OpenParen | Punct::OpenBrace => self.open()?,
            Punct::CloseParen | Punct::CloseBrace => self.close(),
            Punct::Ampersand => {
                self.base += 1;
                self.level = self.base;
            }
            Punct::Slash | Punct::Dot | Punct::Caret | Punct::Dollar | Punct::Tilde => {
                self.settle();
            }
            Punct::Star | Punct::Plus | Punct::Question => {}
            Punct::Equals | Punct::Comma | Punct::Colon => {}
        }
        Ok(())
    }

    /// Updates the level and the bases for a token. `colon` says whether a colon follows the token.
    fn past(&mut self, text: &str, token: Token, colon: bool) -> Result<(), AllocError>
        requires stands { IsToken text.now token }
        requires level { self.old.level < 1000 }
        requires base { self.old.base < 1000 }
        ensures { OnOk result (level_of self.new
            ≡ level_after text.now token colon (level_of self.old)) }
    {
        match token.kind {
            TokenKind::Name if colon => self.raise(),
            TokenKind::Name | TokenKind::Qualified | TokenKind::Text | TokenKind::Bracket => {
                self.settle();
            }
            TokenKind::Sign => self.sign(punct_of(text, token))?,
            TokenKind::Keyword | TokenKind::Bounds | TokenKind::Number => {}
        }
        Ok(())
    }
}

/// Returns whether the token at `index` is a colon.
fn colon_at(text: &str, tokens: &[Token], index: usize) -> bool
    requires { AllStand text.now tokens.now }
    ensures { result ≡ colon_next text.now (drop index tokens.now) }
{
    match tokens.get(index) {
        Some(token) => is_colon_token(text, *token),
        None => false,
    }
}

fn is_colon_token(text: &str, token: Token) -> bool
    requires { IsToken text.now token }
    ensures { result ≡ colon_by token.kind text.now token }
{
    match token.kind {
        TokenKind::Sign => matches!(punct_of(text, token), Punct::Colon),
        _ => false,
    }
}

/// Returns the level that a token reaches, given the levels before and after it.
fn reach(text: &str, token: Token, before: u64, behind: u64) -> u64
    requires stands { IsToken text.now token }
    requires before { before < 1000 }
    ensures { (b u : Level) → b.level ≡ before → u.level ≡ behind →
        result ≡ reach_by token.kind text.now token b u }
{
    match token.kind {
        TokenKind::Bracket => before + nesting_of(text, token) as u64,
        _ => behind,
    }
}

/// Returns the byte offset of the first token at which the level exceeds 100, if there is one.
pub fn first_deep(alloc: Global, text: &str, tokens: &[Token]) -> Result<Option<usize>, AllocError>
    requires { AllStand text.now tokens.now }
    ensures { IfOk result (λ o. o ≡ too_deep text.now ground_level tokens.now) }
{
    let mut depth = Depth {
        base: 0,
        level: 0,
        bases: SmallVec::new(alloc),
    };
    for (index, token) in tokens.iter().enumerate() {
        let before = depth.level;
        depth.past(text, *token, colon_at(text, tokens, index + 1))?;
        if reach(text, *token, before, depth.level) > MAX_LEVEL {
            return Ok(Some(token.start));
        }
    }
    Ok(None)
}
