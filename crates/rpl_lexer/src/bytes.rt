// Classes of bytes, and the length of their runs.
ghost use Rattle.std.specs.Prelude.{◌≡◌, ◌+◌, ◌<◌, ◌≤◌, length, drop, take, true};
ghost use Rattle.rpl_text.specs.Ascii.{is_letter, is_digit};
ghost use Rattle.rpl_lexer.specs.Bytes.{in_class, run, has, past};

/// A class of bytes.
#[derive(Clone, Copy)]
pub(crate) enum Class {
    /// The bytes that continue a name: letters, digits and `_`.
    Word,
    /// Decimal digits.
    Digit,
    /// Spaces and tabs.
    Space,
}

/// Returns whether a name can begin with the byte.
pub(crate) fn is_letter(b: u8) -> bool
    ensures { result ≡ is_letter b }
{
    b.is_ascii_alphabetic()
}

pub(crate) fn is_digit(b: u8) -> bool
    ensures { result ≡ is_digit b }
{
    b.is_ascii_digit()
}

fn is_in(class: Class, b: u8) -> bool
    ensures { result ≡ in_class class b }
{
    match class {
        Class::Word => is_letter(b) || is_digit(b) || b == b'_',
        Class::Digit => is_digit(b),
        Class::Space => b == b' ' || b == b'\t',
    }
}

/// Returns the number of leading bytes that are in `class`.
pub(crate) fn run_len(class: Class, bytes: &[u8]) -> usize
    ensures value { result ≡ run (in_class class) bytes.now }
    ensures inside { result ≤ length bytes.now }
{
    for i in 0..bytes.len() {
        if !is_in(class, bytes[i]) {
            return i;
        }
    }
    bytes.len()
}

/// Returns the bytes from the offset `place` on.
pub(crate) fn behind(bytes: &[u8], place: usize) -> &[u8]
    requires { place ≤ length bytes.now }
    ensures { result.now ≡ drop place bytes.now }
{
    &bytes[place..]
}

/// Returns the first `len` bytes.
pub(crate) fn front_of(bytes: &[u8], len: usize) -> &[u8]
    requires { len ≤ length bytes.now }
    ensures { result.now ≡ take len bytes.now }
{
    &bytes[..len]
}

/// Skips the bytes in `class` that begin at the offset `place`. Returns the offset after them.
pub(crate) fn past(class: Class, bytes: &[u8], place: usize) -> usize
    requires { place ≤ length bytes.now }
    ensures value { result ≡ past (in_class class) bytes.now place }
    ensures inside { result ≤ length bytes.now }
{
    place + run_len(class, behind(bytes, place))
}

/// Returns whether there is a byte at the offset `place` and it is `b`.
pub(crate) fn has_at(bytes: &[u8], place: usize, b: u8) -> bool
    ensures value { result ≡ has bytes.now place b }
    ensures inside { result ≡ true → place < length bytes.now }
{
    place < bytes.len() && bytes[place] == b
}
