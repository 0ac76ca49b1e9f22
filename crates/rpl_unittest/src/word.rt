// Converts tokens to the words of a test comment.
ghost use Rattle.std.specs.Prelude.{◌≡◌, IfOk, map};
ghost use Rattle.rpl_lexer.specs.Cut.{IsCut, IsToken};
ghost use Rattle.rpl_unittest.specs.Comments as S;
ghost use Rattle.rpl_unittest.specs.inside.Words.{word_seen, words_seen};

use rpl_lexer::{
    Keyword, NoMemory, Punct, Token, TokenKind, Tokens, decode_text, keyword_of, punct_of,
    token_text,
};
use rpl_text::Chars;
use std::alloc::Global;

/// A word of a test comment, built from one token.
#[derive(Drop)]
pub(crate) enum Word<'a> {
    /// A name, as it is written.
    Name(&'a str),
    /// A name with a prefix, as it is written.
    Qualified(&'a str),
    Local,
    /// The characters of a quoted text.
    Text(Chars),
    Comma,
    /// A token that can't occur in a test comment.
    Other,
}

/// Returns the word for a keyword.
fn of_keyword<'a>(keyword: Keyword) -> Word<'a>
    ensures { word_seen result ≡ S.of_keyword keyword }
{
    match keyword {
        Keyword::Local => Word::Local,
        Keyword::Rpl | Keyword::Package | Keyword::Import | Keyword::As => Word::Other,
        Keyword::Alias | Keyword::Grammar | Keyword::In | Keyword::End => Word::Other,
    }
}

/// Returns the word for a punctuation token.
fn of_sign<'a>(sign: Punct) -> Word<'a>
    ensures { word_seen result ≡ S.of_sign sign }
{
    match sign {
        Punct::Comma => Word::Comma,
        Punct::OpenBrace | Punct::CloseBrace | Punct::OpenParen => Word::Other,
        Punct::CloseParen | Punct::Slash | Punct::Ampersand | Punct::Bang => Word::Other,
        Punct::Greater | Punct::Less | Punct::Star | Punct::Plus => Word::Other,
        Punct::Question | Punct::Dot | Punct::Caret | Punct::Dollar => Word::Other,
        Punct::Tilde | Punct::Equals | Punct::Colon => Word::Other,
    }
}

/// Returns the word for a token.
fn make_word<'a>(alloc: Global, text: &'a str, token: Token) -> Result<Word<'a>, NoMemory>
    requires { IsToken text.now token }
    ensures { IfOk result (λ w. word_seen w ≡ S.word_by token.kind text.now token) }
{
    match token.kind {
        TokenKind::Name => Ok(Word::Name(token_text(text, token))),
        TokenKind::Qualified => Ok(Word::Qualified(token_text(text, token))),
        TokenKind::Keyword => Ok(of_keyword(keyword_of(text, token))),
        TokenKind::Text => Ok(Word::Text(decode_text(alloc, text, token)?)),
        TokenKind::Sign => Ok(of_sign(punct_of(text, token))),
        TokenKind::Bracket | TokenKind::Bounds | TokenKind::Number => Ok(Word::Other),
    }
}

/// Returns the words of a text.
pub(crate) fn words<'a>(
    alloc: Global,
    text: &'a str,
    tokens: &Tokens,
) -> Result<Vec<Word<'a>>, NoMemory>
    requires { IsCut text.now tokens.now }
    ensures { IfOk result (λ ws. words_seen ws.items ≡ map (S.word_in text.now) tokens.now) }
{
    let mut words = Vec::new(alloc);
    for token in tokens.as_slice() {
        words.push(make_word(alloc, text, *token)?)?;
    }
    Ok(words)
}
