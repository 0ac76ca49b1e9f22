// The smallest parts of a tree's line: words, numbers and strings. Each function takes a place in
// the line and returns the place after the part that it found there, if any.
ghost use Rattle.std.specs.Prelude.{◌≡◌, ◌+◌, ◌-◌, ◌≤◌, ◌<◌, length, drop, option_map, IfSome};
ghost use Rattle.std.specs.Prelude.{slice_index, false};
ghost use Rattle.std.specs.Str.{bytes_eq};
ghost use Rattle.rpl_text.specs.Ascii.{is_digit};
ghost use Rattle.rpl_print.specs.Quoted as Q;
ghost use Rattle.rpl_columns.specs.Spelling.{after, string_count, digit_count};
ghost use Rattle.rpl_columns.specs.Spelling.{control_in, escape_count, is_short_escape};
ghost use Rattle.rpl_columns.specs.Spelling as S;
ghost use Rattle.rpl_columns.specs.Nodes.{number_in, span_seen, string_in};

use crate::node::Span;

/// Returns whether the two slices, which must have the same length, hold the same bytes. If the
/// compiler knows the length, the comparison compiles to a few instructions.
#[inline(always)]
pub(crate) fn are_same(left: &[u8], right: &[u8]) -> bool
    requires { length left.now ≡ length right.now }
    ensures { result ≡ bytes_eq left.now right.now }
{
    let mut is_all = true;
    for (index, byte) in left.iter().enumerate() {
        is_all &= *byte == right[index];
    }
    is_all
}

/// Returns the place after this word, if the word begins at `at`.
#[inline(always)]
pub(crate) fn after(line: &[u8], at: usize, word: &[u8]) -> Option<usize>
    requires { at ≤ length line.now }
    ensures rest { option_map (λ n. drop n line.now) result ≡ after word.now (drop at line.now) }
    ensures within { IfSome result (λ n. (n ≡ at + length word.now) × (n ≤ length line.now)) }
{
    if line.len() - at < word.len() {
        return None;
    }
    let end = at + word.len();
    if are_same(&line[at..end], word) {
        Some(end)
    } else {
        None
    }
}

/// Returns whether a byte needs no escape inside quotes.
#[inline(always)]
fn is_plain_byte(byte: u8) -> bool
    ensures { result ≡ Q.is_plain_byte byte }
{
    byte >= 0x20 && byte != b'"' && byte != b'\\'
}

/// The number of bytes that are tested together.
const CHUNK: usize = 16;

/// Returns whether no byte needs an escape inside quotes.
#[inline(always)]
fn are_plain(bytes: &[u8]) -> bool
    ensures { result ≡ Q.is_plain bytes.now }
{
    let mut is_all = true;
    for byte in bytes {
        is_all &= is_plain_byte(*byte);
    }
    is_all
}

/// Returns the place of the first byte, at or after `from`, that needs an escape inside quotes. If
/// there is none, returns the end of the line.
#[inline(always)]
fn plain_end(line: &[u8], from: usize) -> usize
    requires { from ≤ length line.now }
    ensures within { (from ≤ result) × (result ≤ length line.now) }
    ensures count { from + string_count 0 (drop from line.now)
        ≡ result + string_count 0 (drop result line.now) }
    ensures stops { result < length line.now →
        Q.is_plain_byte (slice_index line.now result) ≡ false }
{
    let mut at = from;
    while line.len() - at >= CHUNK && are_plain(&line[at..at + CHUNK]) {
        at += CHUNK;
    }
    while at < line.len() && is_plain_byte(line[at]) {
        at += 1;
    }
    at
}

/// Returns whether the byte is the letter of a short escape.
fn is_short_escape(letter: u8) -> bool
    ensures { result ≡ is_short_escape letter }
{
    match letter {
        b'"' | b'\\' | b'b' | b'f' | b'n' | b'r' | b't' => true,
        _ => false,
    }
}

/// Returns the value of a lowercase hexadecimal digit, or 16 for any other byte.
fn hex_value(digit: u8) -> u8
    ensures value { result ≡ S.hex_value digit }
    ensures bound { result ≤ 16 }
{
    match digit {
        b'0'..=b'9' => digit - b'0',
        b'a'..=b'f' => digit - b'a' + 10,
        _ => 16,
    }
}

/// Returns the byte below 32 that the first four digits represent. Returns `None` if the digits
/// represent no such byte, or if the byte has a short escape.
pub(crate) fn control_of(digits: &[u8]) -> Option<u8>
    ensures value { result ≡ control_in digits.now }
    ensures enough { IfSome result (λ _. 4 ≤ length digits.now) }
{
    if digits.len() < 4 || digits[0] != b'0' || digits[1] != b'0' {
        return None;
    }
    let ones = hex_value(digits[3]);
    if ones == 16 {
        return None;
    }
    let byte = match digits[2] {
        b'0' => ones,
        b'1' => 16 + ones,
        _ => return None,
    };
    match byte {
        8 | 9 | 10 | 12 | 13 => None,
        _ => Some(byte),
    }
}

/// Returns how many bytes of an escape follow its backslash, or 0 if there is no escape.
fn escape_count(rest: &[u8]) -> usize
    ensures value { result ≡ escape_count rest.now }
    ensures within { result ≤ length rest.now }
{
    if rest.is_empty() {
        return 0;
    }
    if is_short_escape(rest[0]) {
        return 1;
    }
    if rest[0] != b'u' {
        return 0;
    }
    match control_of(&rest[1..]) {
        Some(_) => 5,
        None => 0,
    }
}

/// Returns the place of the quote that ends a string. If the string is malformed, returns the place
/// of the first byte that can't belong to it, or the end of the line. `from` is the place of the
/// string's first byte.
#[inline(always)]
fn string_end(line: &[u8], from: usize) -> usize
    requires { from ≤ length line.now }
    ensures within { (from ≤ result) × (result ≤ length line.now) }
    ensures count { result ≡ from + string_count 0 (drop from line.now) }
{
    let at = plain_end(line, from);
    if at < line.len() && line[at] == b'\\' {
        escaped_end(line, at)
    } else {
        at
    }
}

/// Does the same as `string_end`. Unless `from` is the end of the line, the byte at `from` must be
/// one that needs an escape inside quotes.
#[inline(never)]
fn escaped_end(line: &[u8], from: usize) -> usize
    requires within { from ≤ length line.now }
    requires stops { from < length line.now → Q.is_plain_byte (slice_index line.now from) ≡ false }
    ensures within { (from ≤ result) × (result ≤ length line.now) }
    ensures count { result ≡ from + string_count 0 (drop from line.now) }
{
    let mut at = from;
    while at < line.len() && line[at] == b'\\' {
        let count = escape_count(&line[at + 1..]);
        if count == 0 {
            return at;
        }
        at = plain_end(line, at + 1 + count);
    }
    at
}

/// Returns whether the byte is a digit.
#[inline(always)]
fn is_digit(byte: u8) -> bool
    ensures { result ≡ is_digit byte }
{
    b'0' <= byte && byte <= b'9'
}

/// Returns the place after the digits that begin at `from`.
#[inline(always)]
fn digits_end(line: &[u8], from: usize) -> usize
    requires { from ≤ length line.now }
    ensures within { (from ≤ result) × (result ≤ length line.now) }
    ensures count { result ≡ from + digit_count (drop from line.now) }
{
    let mut at = from;
    while at < line.len() && is_digit(line[at]) {
        at += 1;
    }
    at
}

/// Parses a number without a leading 0, followed by this word. Returns the number and the place
/// after the word.
#[inline(always)]
pub(crate) fn after_number(line: &[u8], from: usize, word: &[u8]) -> Option<(Span, usize)>
    requires { from ≤ length line.now }
    ensures rest { option_map (span_seen line.now) result
        ≡ number_in word.now (drop from line.now) }
    ensures within { IfSome result (λ r. (from ≤ r.1) × (r.1 ≤ length line.now)) }
{
    let to = digits_end(line, from);
    if to == from || line[from] == b'0' {
        return None;
    }
    let end = after(line, to, word)?;
    Some((Span { from, to }, end))
}

/// Parses a string, followed by this word, which begins with the string's closing quote. Returns
/// the string and the place after the word.
#[inline(always)]
pub(crate) fn after_string(line: &[u8], from: usize, word: &[u8]) -> Option<(Span, usize)>
    requires { from ≤ length line.now }
    ensures rest { option_map (span_seen line.now) result
        ≡ string_in word.now (drop from line.now) }
    ensures within { IfSome result (λ r. (from ≤ r.1) × (r.1 ≤ length line.now)) }
{
    let to = string_end(line, from);
    let end = after(line, to, word)?;
    Some((Span { from, to }, end))
}
