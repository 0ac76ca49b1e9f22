// Signs: tokens of one byte.
ghost use Rattle.std.specs.Prelude.{◌≡◌};
ghost use Rattle.rpl_lexer.specs.Signs.{punct};

/// A sign: a single byte that is a token.
///
/// # Examples
///
/// ```
/// use rpl_lexer::{Punct, lex, punct_of};
/// let text = "day*";
/// let tokens = lex(alloc, text)?;
/// assert!(rt; punct_of(text, tokens.as_slice()[1]) == Punct::Star);
/// ```
#[derive(Clone, Copy, Debug, PartialEq, Eq)]
pub enum Punct {
    OpenBrace,
    CloseBrace,
    OpenParen,
    CloseParen,
    Slash,
    Ampersand,
    Bang,
    Greater,
    Less,
    Star,
    Plus,
    Question,
    Dot,
    Caret,
    Dollar,
    Tilde,
    Equals,
    Comma,
    Colon,
}

impl Punct {
    /// Returns the sign with this byte, if there is one.
    pub(crate) fn from_byte(b: u8) -> Option<Punct>
        ensures { result ≡ punct b }
    {
        match b {
            b'{' => Some(Punct::OpenBrace),
            b'}' => Some(Punct::CloseBrace),
            b'(' => Some(Punct::OpenParen),
            b')' => Some(Punct::CloseParen),
            b'/' => Some(Punct::Slash),
            b'&' => Some(Punct::Ampersand),
            b'!' => Some(Punct::Bang),
            b'>' => Some(Punct::Greater),
            b'<' => Some(Punct::Less),
            b'*' => Some(Punct::Star),
            b'+' => Some(Punct::Plus),
            b'?' => Some(Punct::Question),
            b'.' => Some(Punct::Dot),
            b'^' => Some(Punct::Caret),
            b'$' => Some(Punct::Dollar),
            b'~' => Some(Punct::Tilde),
            b'=' => Some(Punct::Equals),
            b',' => Some(Punct::Comma),
            b':' => Some(Punct::Colon),
            _ => None,
        }
    }
}
