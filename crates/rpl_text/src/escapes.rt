// Escapes in quoted texts and brackets.
ghost use Rattle.std.specs.Prelude.{◌≡◌, ◌+◌, ◌<◌, ◌≤◌, Some, IfSome, OnSome, slice_get, drop};
ghost use Rattle.std.specs.Prelude.{length, chars};
ghost use Rattle.rpl_text.specs.Escapes.{hex, numbered, escape, shifted, escape_from};
ghost use Rattle.rpl_text.specs.Places.{index};

/// Parses the first `digits` bytes as a hexadecimal number.
fn hex_number(bytes: &[u8], digits: usize) -> Option<u32>
    requires { digits ≤ 8 }
    ensures value { result ≡ hex digits 0 bytes.now }
    ensures inside { OnSome result (digits ≤ length bytes.now) }
{
    let mut number: u32 = 0;
    for i in 0..digits {
        let byte = *bytes.get(i)?;
        number = 16 * number + (byte as char).to_digit(16)?;
    }
    Some(number)
}

/// Parses the first `digits` bytes, which follow the letter of an escape, as the number of a
/// character. Returns the character and the length of the escape in bytes, not counting the
/// backslash. Returns `None` if these bytes are not hexadecimal digits, if no character has the
/// number, or if the number is above `last`.
fn numbered_char(bytes: &[u8], digits: usize, last: u32) -> Option<(char, usize)>
    requires { digits ≤ 8 }
    ensures value { result ≡ numbered digits last (hex digits 0 bytes.now) }
    ensures inside { IfSome result (λ found. found.1 ≤ length bytes.now + 1) }
{
    let number = hex_number(bytes, digits)?;
    if number > last {
        return None;
    }
    Some((char::from_u32(number)?, 1 + digits))
}

/// Parses the escape whose backslash comes just before `rest`. Returns the character that the
/// escape denotes and the length of the escape in bytes, not counting the backslash.
///
/// The escapes are `\\ \" \n \r \t \[ \] \- \^ \:`, `\xHH` with a value up to 7F, `\uHHHH` and
/// `\UHHHHHHHH`; the hexadecimal digits can be in either case. Returns `None` exactly when none of
/// these escapes begins at the backslash.
#[tactic(auto, unfolding(crate::specs::Escapes::escape))]
pub fn escape(rest: &[u8]) -> Option<(char, usize)>
    ensures value { result ≡ escape rest.now }
    ensures inside { IfSome result (λ found. found.1 ≤ length rest.now) }
{
    let [letter, digits @ ..] = rest else {
        return None;
    };
    match *letter {
        b'\\' | b'"' | b'[' | b']' | b'-' | b'^' | b':' => Some((*letter as char, 1)),
        b'n' => Some(('\n', 1)),
        b'r' => Some(('\r', 1)),
        b't' => Some(('\t', 1)),
        b'x' => numbered_char(digits, 2, 0x7f),
        b'u' => numbered_char(digits, 4, 0x10_ffff),
        b'U' => numbered_char(digits, 8, 0x10_ffff),
        _ => None,
    }
}

/// Returns the bytes after the byte at the offset `place`.
fn bytes_behind(text: &str, place: usize) -> &[u8]
    requires { place < length text.now }
    ensures { result.now ≡ drop (place + 1) text.now }
{
    &text.as_bytes()[place + 1..]
}

/// Parses the escape whose backslash is at the byte offset `place`.
fn escape_at(text: &str, place: usize) -> Option<(char, usize)>
    requires { slice_get text.now place ≡ Some 92 }
    ensures { result ≡ shifted (place + 1) (escape (drop (place + 1) text.now)) }
{
    let rest = bytes_behind(text, place);
    match escape(rest) {
        Some((c, len)) => Some((c, place + 1 + len)),
        None => None,
    }
}

/// Returns the character of the escape whose backslash is at the byte offset `place`, and the
/// offset after the escape. Returns `None` exactly when no escape begins there.
pub fn read_escape(text: &str, place: usize) -> Option<(char, usize)>
    requires { slice_get text.now place ≡ Some 92 }
    ensures chars { result ≡ escape_from (chars text.now) (index (chars text.now) place) }
    ensures bytes { result ≡ shifted (place + 1) (escape (drop (place + 1) text.now)) }
{
    escape_at(text, place)
}
