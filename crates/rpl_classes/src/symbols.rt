// The symbols of a bracket's text, by byte offset.
ghost use Rattle.std.specs.Prelude.{◌≡◌, chars};
ghost use Rattle.rpl_text.specs.Places.{index, IsPlace, step_from};
ghost use Rattle.rpl_classes.specs.Symbols.{symbols_from, is_plain, is_blank, past_blanks};
ghost use Rattle.rpl_classes.specs.Brackets.{is_word};
ghost use Rattle.rpl_classes.specs.inside.Scanned.{Scanned, Accepts, Skipped, Worded};

use rpl_text::{Text, read_escape};

/// A symbol in a bracket's text: a plain character, an escaped character, or the end.
#[derive(Clone, Copy)]
pub(crate) enum Symbol {
    Plain(char),
    Escaped(char),
    /// The end of the text, or a backslash that does not begin an escape.
    End,
}

/// Returns the character at `place`, and the place after it.
fn step_at(text: &str, place: usize) -> Option<(char, usize)>
    requires { IsPlace (chars text.now) place }
    ensures { result ≡ step_from (chars text.now) (index (chars text.now) place) }
{
    Text::new(text).step(place)
}

/// Returns the symbol at `place`, and the place after it.
pub(crate) fn symbol_at(text: &str, place: usize) -> (Symbol, usize)
    requires { IsPlace (chars text.now) place }
    ensures { Scanned (chars text.now) place result.0 result.1 }
{
    match step_at(text, place) {
        None => (Symbol::End, place),
        Some((c, next)) => {
            if c != '\\' {
                return (Symbol::Plain(c), next);
            }
            match read_escape(text, place) {
                Some((c, next)) => (Symbol::Escaped(c), next),
                None => (Symbol::End, place),
            }
        }
    }
}

/// Returns whether `symbol` is the unescaped character `c`.
fn is_plain(symbol: Symbol, c: char) -> bool
    ensures { result ≡ is_plain c symbol }
{
    match symbol {
        Symbol::Plain(found) => found == c,
        _ => false,
    }
}

/// Returns the place after the character `c`, if `c` occurs unescaped at `place`.
pub(crate) fn accept(text: &str, place: usize, c: char) -> Option<usize>
    requires { IsPlace (chars text.now) place }
    ensures { Accepts (chars text.now) place c result }
{
    let (symbol, next) = symbol_at(text, place);
    if is_plain(symbol, c) {
        Some(next)
    } else {
        None
    }
}

fn is_blank(symbol: Symbol) -> bool
    ensures { result ≡ is_blank symbol }
{
    is_plain(symbol, ' ') || is_plain(symbol, '\t')
}

/// Returns the place after any spaces and tabs that start at `place`.
pub(crate) fn skip_blanks(text: &str, place: usize) -> usize
    requires { IsPlace (chars text.now) place }
    ensures { Skipped (chars text.now) place (past_blanks (symbols_from (chars text.now) place))
        result }
{
    let mut at = place;
    loop {
        let (symbol, next) = symbol_at(text, at);
        if !is_blank(symbol) {
            return at;
        }
        at = next;
    }
}

fn is_word(symbol: Symbol) -> bool
    ensures { result ≡ is_word symbol }
{
    match symbol {
        Symbol::Plain(c) => c.is_ascii_alphanumeric() || c == '_',
        _ => false,
    }
}

/// Returns the place after any letters, digits and `_` that start at `place`.
pub(crate) fn skip_word(text: &str, place: usize) -> usize
    requires { IsPlace (chars text.now) place }
    ensures { Worded (chars text.now) place result }
{
    let mut at = place;
    loop {
        let (symbol, next) = symbol_at(text, at);
        if !is_word(symbol) {
            return at;
        }
        at = next;
    }
}
