// Tokens and token lists.
use rpl_list::List;

/// The kind of a token.
///
/// # Examples
///
/// ```
/// use rpl_lexer::{TokenKind, lex};
/// let tokens = lex(alloc, "date.day \".\"{2,4}")?;
/// assert!(rt; matches!(tokens.as_slice(), [day, dot, times]
///     if day.kind == TokenKind::Qualified && dot.kind == TokenKind::Text
///     && times.kind == TokenKind::Bounds));
/// ```
#[derive(Clone, Copy, Debug, PartialEq, Eq)]
pub enum TokenKind {
    /// A letter, then letters, digits and `_`.
    Name,
    /// Two names separated by a dot, without blanks.
    Qualified,
    /// A name that is a [`Keyword`](crate::Keyword).
    Keyword,
    /// Characters and escapes between quotes.
    Text,
    /// A set of characters, from `[` to the matching `]`.
    Bracket,
    /// The bounds of a repetition, between braces.
    Bounds,
    /// Decimal digits.
    Number,
    /// One byte that is a [`Punct`](crate::Punct).
    Sign,
}

/// A token: its kind and its span.
///
/// # Examples
///
/// ```
/// use rpl_lexer::{Token, TokenKind, lex};
/// let tokens = lex(alloc, " day+")?;
/// let name = Token {
///     kind: TokenKind::Name,
///     start: 1,
///     end: 4,
/// };
/// assert!(rt; tokens.len() == 2 && tokens.get(0) == Some(&name));
/// ```
#[derive(Clone, Copy, Debug, PartialEq, Eq)]
pub struct Token {
    /// The kind of the token.
    pub kind: TokenKind,
    /// The byte offset of the first byte.
    pub start: usize,
    /// The byte offset after the last byte.
    pub end: usize,
}

/// The tokens of a text, in order.
pub type Tokens = List<Token>;
