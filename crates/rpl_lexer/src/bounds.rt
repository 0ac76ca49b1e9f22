// Bounds, such as `{2,5}`.
ghost use Rattle.std.specs.Prelude.{◌≡◌, ◌+◌, ◌<◌, ◌≤◌, length};
ghost use Rattle.rpl_text.specs.Ascii.{is_digit};
ghost use Rattle.rpl_lexer.specs.Braces.{digits_from, parts, is_wide, bounds_by, begins_bounds};
ghost use Rattle.rpl_lexer.specs.Braces.{brace_stands};
ghost use Rattle.rpl_lexer.specs.Braces.{number_in, bounds_in, part};
ghost use Rattle.rpl_lexer.specs.inside.Spans.{Within, IsWithin};

use crate::bytes::{Class, behind, has_at, is_digit, past};
use crate::fault::LexKind;
use crate::front::Stand;
use crate::token::TokenKind;
use rpl_text::value_of_digits;

/// The bounds of a repetition, as written.
///
/// # Examples
///
/// ```
/// use rpl_lexer::{Bounds, bounds_of, lex};
/// let text = "day{2,}";
/// let tokens = lex(alloc, text)?;
/// let two_or_more = Bounds {
///     least: Some(2),
///     comma: true,
///     most: None,
/// };
/// assert!(rt; bounds_of(text, tokens.as_slice()[1]) == two_or_more);
/// ```
#[derive(Clone, Copy, Debug, PartialEq, Eq)]
pub struct Bounds {
    /// The first number, if there is one.
    pub least: Option<u64>,
    /// Whether there is a comma.
    pub comma: bool,
    /// The number after the comma, if there is one.
    pub most: Option<u64>,
}

/// A range of bytes, from `start` up to but not including `end`.
#[derive(Clone, Copy)]
pub(crate) struct Span {
    start: usize,
    end: usize,
}

/// The parts of bounds, as spans. Offsets are counted from the byte after the opening brace.
#[derive(Clone, Copy)]
pub(crate) struct Parts {
    least: Span,
    comma: bool,
    /// The digits after the comma.
    most: Span,
    /// The offset where the closing brace must be.
    close: usize,
}

/// Skips any blanks at the offset `place`. Returns the span of the digits after them.
fn digits_from(bytes: &[u8], place: usize) -> Span
    requires { place ≤ length bytes.now }
    ensures value { result ≡ digits_from bytes.now place }
    ensures inside { IsWithin (length bytes.now) result }
{
    let start = past(Class::Space, bytes, place);
    let end = past(Class::Digit, bytes, start);
    Span { start, end }
}

/// Finds the parts of bounds in the bytes after the opening brace.
fn parts_of(bytes: &[u8]) -> Parts
    ensures value { result ≡ parts bytes.now }
    ensures least { IsWithin (length bytes.now) result.least }
    ensures most { IsWithin (length bytes.now) result.most }
    ensures inside { result.close ≤ length bytes.now }
{
    let least = digits_from(bytes, 0);
    let next = past(Class::Space, bytes, least.end);
    if has_at(bytes, next, b',') {
        let most = digits_from(bytes, next + 1);
        let close = past(Class::Space, bytes, most.end);
        Parts {
            least,
            comma: true,
            most,
            close,
        }
    } else {
        Parts {
            least,
            comma: false,
            most: Span {
                start: next,
                end: next,
            },
            close: next,
        }
    }
}

/// Returns the bytes in `span`.
fn part(bytes: &[u8], span: Span) -> &[u8]
    requires { IsWithin (length bytes.now) span }
    ensures { result.now ≡ part bytes.now span }
{
    &bytes[span.start..span.end]
}

fn is_wide(bytes: &[u8], span: Span) -> bool
    requires { IsWithin (length bytes.now) span }
    ensures { result ≡ is_wide bytes.now span }
{
    value_of_digits(part(bytes, span)).is_none()
}

/// Reads the bounds whose opening brace comes just before `bytes`. The caller must have checked
/// that bounds begin here.
fn whole_bounds(bytes: &[u8]) -> Stand
    ensures value { result ≡ bounds_by bytes.now (parts bytes.now) }
    ensures inside { Within (1 + length bytes.now) result }
{
    let parts = parts_of(bytes);
    if !has_at(bytes, parts.close, b'}') {
        return Stand::Fault {
            kind: LexKind::BadChar,
            skip: 0,
        };
    }
    if is_wide(bytes, parts.least) {
        return Stand::Fault {
            kind: LexKind::NumberTooWide,
            skip: 1 + parts.least.start,
        };
    }
    if is_wide(bytes, parts.most) {
        return Stand::Fault {
            kind: LexKind::NumberTooWide,
            skip: 1 + parts.most.start,
        };
    }
    Stand::Found {
        kind: TokenKind::Bounds,
        len: parts.close + 2,
    }
}

/// Returns whether an opening brace before `bytes` begins bounds, that is, whether the first byte
/// after any blanks is a digit or a comma.
fn begins_bounds(bytes: &[u8]) -> bool
    ensures { result ≡ begins_bounds bytes.now }
{
    match behind(bytes, past(Class::Space, bytes, 0)) {
        [b, ..] => is_digit(*b) || *b == b',',
        [] => false,
    }
}

/// Reads the token whose opening brace comes just before `bytes`: bounds or a sign.
pub(crate) fn brace(bytes: &[u8]) -> Stand
    ensures value { result ≡ brace_stands bytes.now }
    ensures inside { Within (1 + length bytes.now) result }
{
    if begins_bounds(bytes) {
        whole_bounds(bytes)
    } else {
        Stand::Found {
            kind: TokenKind::Sign,
            len: 1,
        }
    }
}

/// Returns the number in a span of digits, or `None` if the span is empty or the number does not
/// fit in 64 bits.
fn number_in(bytes: &[u8], span: Span) -> Option<u64>
    requires { IsWithin (length bytes.now) span }
    ensures { result ≡ number_in bytes.now span }
{
    if span.start < span.end {
        value_of_digits(part(bytes, span))
    } else {
        None
    }
}

/// Parses the numbers of bounds from the bytes after the opening brace.
pub(crate) fn bounds_in(bytes: &[u8]) -> Bounds
    ensures { result ≡ bounds_in bytes.now }
{
    let parts = parts_of(bytes);
    Bounds {
        least: number_in(bytes, parts.least),
        comma: parts.comma,
        most: number_in(bytes, parts.most),
    }
}
