// Quoted texts and brackets.
ghost use Rattle.std.specs.Prelude.{◌≡◌, ◌+◌, ◌^◌, ◌<◌, ◌≤◌, ◌&&◌, not, is_some, length};
ghost use Rattle.std.specs.Prelude.{false, IfSome};
ghost use Rattle.rpl_text.specs.Escapes.{escape};
ghost use Rattle.rpl_lexer.specs.Enclosed.{opens, closes, hides, ends, depth_after, close, bad};
ghost use Rattle.rpl_lexer.specs.Enclosed.{kind_of, enclosed};
ghost use Rattle.rpl_lexer.specs.Nesting.{nesting};
ghost use Rattle.rpl_lexer.specs.inside.Spans.{Within};

use crate::bytes::{behind, front_of};
use crate::fault::LexKind;
use crate::front::Stand;
use crate::token::TokenKind;
use rpl_text::escape;

/// A kind of token that encloses characters and escapes.
#[derive(Clone, Copy)]
pub(crate) enum Enclosure {
    Quotes,
    Brackets,
}

impl Enclosure {
    fn kind(self) -> TokenKind
        ensures { result ≡ kind_of self }
    {
        match self {
            Enclosure::Quotes => TokenKind::Text,
            Enclosure::Brackets => TokenKind::Bracket,
        }
    }

    fn opens(self, b: u8) -> bool
        ensures { result ≡ opens self b }
    {
        match self {
            Enclosure::Quotes => false,
            Enclosure::Brackets => b == b'[',
        }
    }

    fn closes(self, b: u8) -> bool
        ensures { result ≡ closes self b }
    {
        match self {
            Enclosure::Quotes => b == b'"',
            Enclosure::Brackets => b == b']',
        }
    }
}

/// Returns whether the byte is a backslash that escapes the next byte.
fn hides(hidden: bool, b: u8) -> bool
    ensures { result ≡ hides hidden b }
{
    !hidden && b == b'\\'
}

/// Returns whether the byte closes the outermost enclosure, given that `depth` inner brackets are
/// open.
fn ends(enclosure: Enclosure, depth: usize, hidden: bool, b: u8) -> bool
    ensures { result ≡ ends enclosure depth hidden b }
{
    !hidden && depth == 0 && enclosure.closes(b)
}

/// Returns how many inner brackets are open after the byte.
fn depth_after(enclosure: Enclosure, depth: usize, hidden: bool, b: u8) -> usize
    requires { depth + 1 < 2 ^ 64 }
    ensures value { result ≡ depth_after enclosure depth hidden b }
    ensures bound { result ≤ depth + 1 }
{
    if hidden {
        depth
    } else if enclosure.opens(b) {
        depth + 1
    } else if enclosure.closes(b) {
        depth.saturating_sub(1)
    } else {
        depth
    }
}

/// Returns the number of bytes up to and including the closing byte, or `None` if the line or the
/// text ends first.
fn close_len(enclosure: Enclosure, bytes: &[u8]) -> Option<usize>
    ensures value { result ≡ close enclosure 0 false bytes.now }
    ensures inside { IfSome result (λ n. n ≤ length bytes.now) }
{
    let mut depth = 0;
    let mut hidden = false;
    for i in 0..bytes.len() {
        let b = bytes[i];
        if b == b'\n' {
            return None;
        }
        if ends(enclosure, depth, hidden, b) {
            return Some(i + 1);
        }
        depth = depth_after(enclosure, depth, hidden, b);
        hidden = hides(hidden, b);
    }
    None
}

/// Returns the greatest number of brackets that are open at once.
pub(crate) fn nesting(bytes: &[u8]) -> usize
    ensures value { result ≡ nesting bytes.now }
    ensures inside { result ≤ length bytes.now }
{
    let mut most = 0;
    let mut depth = 0;
    let mut hidden = false;
    for i in 0..bytes.len() {
        depth = depth_after(Enclosure::Brackets, depth, hidden, bytes[i]);
        hidden = hides(hidden, bytes[i]);
        most = most.max(depth);
    }
    most
}

/// Returns whether the byte before `rest` is an unescaped backslash that does not begin an escape.
/// `hides` says whether that byte is an unescaped backslash.
fn is_bad(hides: bool, rest: &[u8]) -> bool
    ensures { result ≡ (hides && not (is_some (escape rest.now))) }
{
    hides && escape(rest).is_none()
}

/// Returns the offset of the first backslash that neither is escaped nor begins an escape.
fn first_bad(bytes: &[u8]) -> Option<usize>
    ensures value { result ≡ bad false bytes.now }
    ensures inside { IfSome result (λ k. k < length bytes.now) }
{
    let mut hidden = false;
    for i in 0..bytes.len() {
        let next = hides(hidden, bytes[i]);
        if is_bad(next, behind(bytes, i + 1)) {
            return Some(i);
        }
        hidden = next;
    }
    None
}

/// Reads the token whose opening byte comes just before `bytes`.
pub(crate) fn enclosed(enclosure: Enclosure, bytes: &[u8]) -> Stand
    ensures value { result ≡ enclosed enclosure bytes.now }
    ensures inside { Within (1 + length bytes.now) result }
{
    let Some(len) = close_len(enclosure, bytes) else {
        return Stand::Fault {
            kind: LexKind::OpenText,
            skip: 0,
        };
    };
    match first_bad(front_of(bytes, len)) {
        None => Stand::Found {
            kind: enclosure.kind(),
            len: 1 + len,
        },
        Some(place) => Stand::Fault {
            kind: LexKind::BadEscape,
            skip: 1 + place,
        },
    }
}
