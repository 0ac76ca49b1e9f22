// Tokens with their values, as the grammar sees them.
use rpl_classes::Set;
use rpl_lexer::{Keyword, Punct};
use rpl_text::Chars;

/// A token with its value: the characters of a text with escapes decoded, the set of a bracket, or
/// the numbers of bounds. A name keeps its byte offset, which is passed on to the expression built
/// from the name.
///
/// # Examples
///
/// ```
/// use rpl_lexer::Punct;
/// use rpl_syntax::Token;
/// let tokens = [Token::Number(31), Token::Sign(Punct::Star)];
/// assert!(rt; matches!(tokens, [Token::Number(31), Token::Sign(Punct::Star)]));
/// ```
#[derive(Debug, Drop)]
pub enum Token {
    Name {
        name: Chars,
        at: usize,
    },
    Qualified {
        prefix: Chars,
        name: Chars,
        at: usize,
    },
    Keyword(Keyword),
    Text(Chars),
    Class {
        set: Set,
        negated: bool,
    },
    /// From `least` to `most` times, or `least` or more times if there is no `most`.
    Bounds {
        least: u32,
        most: Option<u32>,
    },
    Number(u64),
    Sign(Punct),
}
