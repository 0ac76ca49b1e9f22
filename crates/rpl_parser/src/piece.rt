// The pieces of a module: each holds the tokens of one statement. A module is split into pieces
// before any bracket is read.
ghost use Rattle.std.specs.Prelude.{◌≡◌, ◌<◌, ◌≤◌, length, drop};
ghost use Rattle.rpl_lexer.specs.Cut.{IsToken};
ghost use Rattle.rpl_parser.specs.Pieces.{front, piece_len, closes_later};
ghost use Rattle.rpl_parser.specs.Tokens.{AllStand, token_by, tokens_of};
ghost use Rattle.rpl_parser.specs.inside.Roles.{sign_role, role_of, next_role, leads};
ghost use Rattle.rpl_parser.specs.inside.Roles.{is_end, begins_by};

use rpl_lexer::{Keyword, Punct, Token, TokenKind, keyword_of, punct_of};

/// The role of a token when a module is split into pieces.
#[derive(Clone, Copy)]
pub enum Role {
    Word(Keyword),
    Name,
    Tilde,
    Equals,
    Other,
}

impl Role {
    fn of_sign(sign: Punct) -> Role
        ensures { result ≡ sign_role sign }
    {
        match sign {
            Punct::Tilde => Role::Tilde,
            Punct::Equals => Role::Equals,
            _ => Role::Other,
        }
    }

    fn of(text: &str, token: Token) -> Role
        requires { IsToken text.now token }
        ensures { result ≡ role_of (token_by token.kind text.now token) }
    {
        match token.kind {
            TokenKind::Keyword => Role::Word(keyword_of(text, token)),
            TokenKind::Name => Role::Name,
            TokenKind::Sign => Role::of_sign(punct_of(text, token)),
            TokenKind::Qualified
            | TokenKind::Text
            | TokenKind::Bracket
            | TokenKind::Bounds
            | TokenKind::Number => Role::Other,
        }
    }

    /// Returns the role of the token at `index`, or `Other` if `index` is out of range.
    fn at(text: &str, tokens: &[Token], index: usize) -> Role
        requires { AllStand text.now tokens.now }
        ensures { result ≡ next_role (tokens_of text.now (drop index tokens.now)) }
    {
        match tokens.get(index) {
            Some(token) => Role::of(text, *token),
            None => Role::Other,
        }
    }

    /// Returns whether a name that follows this token belongs to the token's piece.
    fn leads(self) -> bool
        ensures { result ≡ leads self }
    {
        matches!(self, Role::Word(Keyword::Local | Keyword::Alias))
    }

    fn is_end(self) -> bool
        ensures { result ≡ is_end self }
    {
        matches!(self, Role::Word(Keyword::End))
    }

    /// Returns whether a piece begins at this token, given the roles of the tokens before and after
    /// it.
    fn begins(self, before: Role, behind: Role) -> bool
        ensures { result ≡ begins_by before self behind }
    {
        match (self, behind) {
            (Role::Word(Keyword::Alias), _) => !matches!(before, Role::Word(Keyword::Local)),
            (Role::Word(Keyword::As), _) => false,
            (Role::Word(_), _) => true,
            (Role::Name | Role::Tilde, Role::Equals) => !before.leads(),
            _ => false,
        }
    }
}

/// Returns how many tokens the first piece has after its first token.
fn front_len(text: &str, first: Token, tokens: &[Token]) -> usize
    requires first { IsToken text.now first }
    requires stands { AllStand text.now tokens.now }
    ensures value { result ≡ front (token_by first.kind text.now first)
        (tokens_of text.now tokens.now) }
    ensures inside { result ≤ length tokens.now }
{
    let mut before = Role::of(text, first);
    for index in 0..tokens.len() {
        let next = Role::at(text, tokens, index);
        if next.begins(before, Role::at(text, tokens, index + 1)) {
            return index;
        }
        before = next;
    }
    tokens.len()
}

/// Returns how many tokens the first piece has.
pub fn first_piece(text: &str, tokens: &[Token]) -> usize
    requires { AllStand text.now tokens.now }
    ensures value { result ≡ piece_len (tokens_of text.now tokens.now) }
    ensures some { 0 < length tokens.now → 0 < result }
    ensures inside { result ≤ length tokens.now }
{
    match tokens {
        [] => 0,
        [first, rest @ ..] => 1 + front_len(text, *first, rest),
    }
}

/// Returns whether any of the tokens is the keyword `end`.
pub fn closes(text: &str, tokens: &[Token]) -> bool
    requires { AllStand text.now tokens.now }
    ensures { result ≡ closes_later (tokens_of text.now tokens.now) }
{
    for index in 0..tokens.len() {
        if Role::at(text, tokens, index).is_end() {
            return true;
        }
    }
    false
}
