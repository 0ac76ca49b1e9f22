// Functions that look one token ahead.
ghost use Rattle.std.specs.Prelude.{◌≡◌, [], ◌∷◌, false, IfSome, IfNone};
ghost use Rattle.rpl_syntax.specs.Reading.{begins, joins, colon, slash, ampersand};
ghost use Rattle.rpl_lexer.specs.declared.punct.Punct.TheVariants.{Colon, Slash, Ampersand};
ghost use Rattle.rpl_syntax.specs.declared.token.Token.TheVariants as T;

use rpl_lexer::Punct;
use rpl_syntax::Token;

/// Returns the first token, if there is one, and the tokens after it.
pub fn next(tokens: &[Token]) -> Option<(&Token, &[Token])>
    ensures some { IfSome result (λ x. tokens.now ≡ x.0.now ∷ x.1.now) }
    ensures none { IfNone result (tokens.now ≡ []) }
{
    match tokens {
        [] => None,
        [first, rest @ ..] => Some((first, rest)),
    }
}

/// If the tokens begin with a `:`, returns the tokens after it.
pub fn past_colon(tokens: &[Token]) -> Option<&[Token]>
    ensures some { IfSome result (λ r. tokens.now ≡ T.Sign Colon ∷ r.now) }
    ensures none { IfNone result (colon tokens.now ≡ false) }
{
    match tokens {
        [Token::Sign(Punct::Colon), rest @ ..] => Some(rest),
        _ => None,
    }
}

/// If the tokens begin with a `/`, returns the tokens after it.
pub fn past_slash(tokens: &[Token]) -> Option<&[Token]>
    ensures some { IfSome result (λ r. tokens.now ≡ T.Sign Slash ∷ r.now) }
    ensures none { IfNone result (slash tokens.now ≡ false) }
{
    match tokens {
        [Token::Sign(Punct::Slash), rest @ ..] => Some(rest),
        _ => None,
    }
}

/// If the tokens begin with an `&`, returns the tokens after it.
pub fn past_ampersand(tokens: &[Token]) -> Option<&[Token]>
    ensures some { IfSome result (λ r. tokens.now ≡ T.Sign Ampersand ∷ r.now) }
    ensures none { IfNone result (ampersand tokens.now ≡ false) }
{
    match tokens {
        [Token::Sign(Punct::Ampersand), rest @ ..] => Some(rest),
        _ => None,
    }
}

/// Returns whether the next token begins an item.
pub fn item_begins(tokens: &[Token]) -> bool
    ensures { result ≡ begins tokens.now }
{
    match tokens {
        [] => false,
        [Token::Text(_) | Token::Class { .. }, ..] => true,
        [Token::Name { .. } | Token::Qualified { .. }, ..] => true,
        [
            Token::Keyword(_) | Token::Bounds { .. } | Token::Number(_),
            ..
        ] => false,
        [Token::Sign(sign), ..] => matches!(
            sign,
            Punct::Bang
                | Punct::Greater
                | Punct::Less
                | Punct::OpenParen
                | Punct::OpenBrace
                | Punct::Dot
                | Punct::Caret
                | Punct::Dollar
                | Punct::Tilde
        ),
    }
}

/// Returns whether the next token is a `/` or an `&`.
pub fn goes_on(tokens: &[Token]) -> bool
    ensures { result ≡ joins tokens.now }
{
    matches!(
        tokens,
        [Token::Sign(Punct::Slash), ..] | [Token::Sign(Punct::Ampersand), ..]
    )
}
