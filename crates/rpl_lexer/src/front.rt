// The token at the front of some bytes.
ghost use Rattle.std.specs.Prelude.{◌≡◌, ◌+◌, ◌<◌, ◌≤◌, ◌∷◌, length, true};
ghost use Rattle.rpl_text.specs.Ascii.{is_letter, is_digit};
ghost use Rattle.rpl_lexer.specs.Bytes.{is_word, run, begins};
ghost use Rattle.rpl_lexer.specs.Fronts.{first_name, begins_name, qualifies, name_stands};
ghost use Rattle.rpl_lexer.specs.Fronts.{number_stands, stands};
ghost use Rattle.rpl_lexer.specs.inside.Spans.{Within};

use crate::bounds::brace;
use crate::bytes::{Class, behind, front_of, has_at, is_digit, is_letter, past, run_len};
use crate::enclosed::{Enclosure, enclosed};
use crate::fault::LexKind;
use crate::keyword::keyword_named;
use crate::punct::Punct;
use crate::token::TokenKind;
use rpl_text::value_of_digits;

/// The result of reading a token at the front of some bytes.
#[derive(Clone, Copy)]
pub(crate) enum Stand {
    /// A token of `len` bytes.
    Found { kind: TokenKind, len: usize },
    /// No token, because of a fault `skip` bytes after the front.
    Fault { kind: LexKind, skip: usize },
}

/// Returns the longest run of letters, digits and `_` at the front. A run that begins with a letter
/// is a name.
fn first_name(bytes: &[u8]) -> &[u8]
    ensures name { result.now ≡ first_name bytes.now }
    ensures len { length result.now ≡ run is_word bytes.now }
    ensures inside { length result.now ≤ length bytes.now }
{
    front_of(bytes, run_len(Class::Word, bytes))
}

fn begins_letter(bytes: &[u8]) -> bool
    ensures { result ≡ begins is_letter bytes.now }
{
    match bytes {
        [b, ..] => is_letter(*b),
        [] => false,
    }
}

/// Returns whether the bytes begin with a name that is not a keyword.
fn begins_name(bytes: &[u8]) -> bool
    ensures { result ≡ begins_name bytes.now }
{
    begins_letter(bytes) && keyword_named(first_name(bytes)).is_none()
}

/// Returns whether a dot and a name that is not a keyword follow the first `len` bytes.
fn qualifies(bytes: &[u8], len: usize) -> bool
    requires { len ≤ length bytes.now }
    ensures value { result ≡ qualifies bytes.now len }
{
    has_at(bytes, len, b'.') && begins_name(behind(bytes, len + 1))
}

/// Reads the token at the front of `bytes`, whose first byte must be a letter.
#[tactic(auto, unfolding(crate::specs::Fronts::name_stands))]
fn name(bytes: &[u8]) -> Stand
    requires { begins is_letter bytes.now ≡ true }
    ensures value { result ≡ name_stands bytes.now }
    ensures inside { Within (length bytes.now) result }
{
    let first = first_name(bytes);
    let len = first.len();
    if keyword_named(first).is_some() {
        Stand::Found {
            kind: TokenKind::Keyword,
            len,
        }
    } else if qualifies(bytes, len) {
        Stand::Found {
            kind: TokenKind::Qualified,
            len: past(Class::Word, bytes, len + 1),
        }
    } else {
        Stand::Found {
            kind: TokenKind::Name,
            len,
        }
    }
}

/// Reads the token at the front of `bytes`, whose first byte must be a digit.
#[tactic(auto, unfolding(crate::specs::Fronts::number_stands))]
fn digits(bytes: &[u8]) -> Stand
    requires { begins is_digit bytes.now ≡ true }
    ensures value { result ≡ number_stands bytes.now }
    ensures inside { Within (length bytes.now) result }
{
    let len = run_len(Class::Digit, bytes);
    match value_of_digits(front_of(bytes, len)) {
        Some(_) => Stand::Found {
            kind: TokenKind::Number,
            len,
        },
        None => Stand::Fault {
            kind: LexKind::NumberTooWide,
            skip: 0,
        },
    }
}

/// Reads the token at the front.
#[tactic(auto, unfolding(crate::specs::Fronts::stands))]
pub(crate) fn front(bytes: &[u8]) -> Stand
    requires { 0 < length bytes.now }
    ensures value { result ≡ stands bytes.now }
    ensures inside { Within (length bytes.now) result }
{
    match bytes {
        [] => Stand::Fault {
            kind: LexKind::BadChar,
            skip: 0,
        },
        [b, rest @ ..] => front_by(*b, rest, bytes),
    }
}

/// Reads the token at the front of `bytes`, given their first byte `b` and the bytes after it.
#[tactic(auto, unfolding(crate::specs::Fronts::stands))]
fn front_by(b: u8, rest: &[u8], bytes: &[u8]) -> Stand
    requires { bytes.now ≡ b ∷ rest.now }
    ensures value { result ≡ stands bytes.now }
    ensures inside { Within (length bytes.now) result }
{
    if is_letter(b) {
        name(bytes)
    } else if is_digit(b) {
        digits(bytes)
    } else if b == b'"' {
        enclosed(Enclosure::Quotes, rest)
    } else if b == b'[' {
        enclosed(Enclosure::Brackets, rest)
    } else if b == b'{' {
        brace(rest)
    } else if Punct::from_byte(b).is_some() {
        Stand::Found {
            kind: TokenKind::Sign,
            len: 1,
        }
    } else {
        Stand::Fault {
            kind: LexKind::BadChar,
            skip: 0,
        }
    }
}
