// The values of tokens.
ghost use Rattle.std.specs.Prelude.{◌≡◌, ◌+◌, ◌<◌, ◌^◌, Some, IfOk, chars, string_bytes};
ghost use Rattle.std.specs.Prelude.{length, slice_index};
ghost use Rattle.rpl_text.specs.Places.{index, IsPlace, step_from};
ghost use Rattle.rpl_lexer.specs.Keywords.{keyword_named};
ghost use Rattle.rpl_lexer.specs.Nesting.{nesting};
ghost use Rattle.rpl_lexer.specs.Payloads.{span, inner, decoded, text_of, prefix_of, name_of};
ghost use Rattle.rpl_lexer.specs.Payloads.{keyword_of, punct_of};
ghost use Rattle.rpl_lexer.specs.Payloads.{number_of, bounds_of};
ghost use Rattle.rpl_lexer.specs.inside.Decoding.{Decodes};
ghost use Rattle.rpl_lexer.specs.Cut.{IsToken};

use crate::NoMemory;
use crate::bounds::{Bounds, bounds_in};
use crate::bytes::{Class, run_len};
use crate::enclosed::nesting;
use crate::keyword::{Keyword, keyword_named};
use crate::punct::Punct;
use crate::token::{Token, TokenKind};
use rpl_text::{Chars, Text, read_escape, value_of_digits};
use std::alloc::Global;

/// Returns the part of the text that a token spans.
pub fn token_text(text: &str, token: Token) -> &str
    requires { IsToken text.now token }
    ensures { result.now ≡ span text.now token }
{
    &text[token.start..token.end]
}

/// Returns the text of a token without its first byte.
fn inner(text: &str, token: Token) -> &str
    requires { IsToken text.now token }
    ensures { result.now ≡ inner text.now token }
{
    &text[token.start + 1..token.end]
}

/// Returns the keyword of a Keyword token.
pub fn keyword_of(text: &str, token: Token) -> Keyword
    requires kind { token.kind ≡ TokenKind.Keyword }
    requires stands { IsToken text.now token }
    ensures { result ≡ keyword_of text.now token }
{
    keyword_named(token_text(text, token).as_bytes()).unwrap_or(Keyword::Rpl)
}

/// Returns the byte at the offset `place`.
fn byte_at(text: &str, place: usize) -> u8
    requires { place < length text.now }
    ensures { result ≡ slice_index text.now place }
{
    text.as_bytes()[place]
}

/// Returns the sign of a Sign token.
pub fn punct_of(text: &str, token: Token) -> Punct
    requires kind { token.kind ≡ TokenKind.Sign }
    requires stands { IsToken text.now token }
    ensures { result ≡ punct_of text.now token }
{
    Punct::from_byte(byte_at(text, token.start)).unwrap_or(Punct::OpenBrace)
}

/// Returns the number that a Number token spells.
pub fn number_of(text: &str, token: Token) -> u64
    requires kind { token.kind ≡ TokenKind.Number }
    requires stands { IsToken text.now token }
    ensures { result ≡ number_of text.now token }
{
    value_of_digits(token_text(text, token).as_bytes()).unwrap_or(0)
}

/// Returns the two names of a Qualified token: the one before the dot and the one after it.
pub fn halves_of(text: &str, token: Token) -> (&str, &str)
    requires kind { token.kind ≡ TokenKind.Qualified }
    requires stands { IsToken text.now token }
    ensures prefix { result.0.now ≡ prefix_of text.now token }
    ensures name { result.1.now ≡ name_of text.now token }
{
    let whole = token_text(text, token);
    let dot = run_len(Class::Word, whole.as_bytes());
    (&whole[..dot], &whole[dot + 1..])
}

/// Returns the bounds that a Bounds token spells.
pub fn bounds_of(text: &str, token: Token) -> Bounds
    requires kind { token.kind ≡ TokenKind.Bounds }
    requires stands { IsToken text.now token }
    ensures { result ≡ bounds_of text.now token }
{
    bounds_in(inner(text, token).as_bytes())
}

/// Returns the greatest number of brackets open at once in a Bracket token: 1 in `[a]`, 2 in
/// `[[a]]`. Escaped brackets do not count.
pub fn nesting_of(text: &str, token: Token) -> usize
    requires kind { token.kind ≡ TokenKind.Bracket }
    requires stands { IsToken text.now token }
    ensures value { result ≡ nesting (span text.now token) }
    ensures small { result < 2 ^ 63 }
{
    nesting(token_text(text, token).as_bytes())
}

/// Returns the character at the byte offset `place`, and the offset after it.
fn step_at(text: &str, place: usize) -> Option<(char, usize)>
    requires { IsPlace (chars text.now) place }
    ensures { result ≡ step_from (chars text.now) (index (chars text.now) place) }
{
    Text::new(text).step(place)
}

/// Reads the character at the byte offset `place`, which is written either as an escape or
/// literally. Returns the character and the offset after it, or `None` at the closing quote. `text`
/// begins after the opening quote.
fn next_char(text: &str, place: usize) -> Option<(char, usize)>
    requires { IsPlace (chars text.now) place }
    ensures { Decodes (chars text.now) place result }
{
    let (c, next) = step_at(text, place)?;
    if c == '"' {
        return None;
    }
    if c == '\\' {
        return read_escape(text, place);
    }
    Some((c, next))
}

/// Returns the characters up to the closing quote, with escapes decoded.
fn decoded(alloc: Global, text: &str) -> Result<String, NoMemory>
    ensures { IfOk result (λ s. chars (string_bytes s) ≡ decoded 0 (chars text.now)) }
{
    let mut out = String::new(alloc);
    let mut place = 0;
    while let Some((c, next)) = next_char(text, place) {
        out.push(c)?;
        place = next;
    }
    Ok(out)
}

/// Returns the characters of a Text token, with escapes decoded.
pub fn decode_text(alloc: Global, text: &str, token: Token) -> Result<Chars, NoMemory>
    requires kind { token.kind ≡ TokenKind.Text }
    requires stands { IsToken text.now token }
    ensures { IfOk result (λ c. c ≡ text_of text.now token) }
{
    let characters = decoded(alloc, inner(text, token))?;
    Chars::from_str(alloc, &characters)
}
