// Numbers and unchanged texts.
ghost use Rattle.std.specs.Prelude.{◌≡◌, ◌<◌, ◌≤◌, ◌++◌, OnErr, OnOk, decimal, drop, false};
ghost use Rattle.std.specs.Prelude.{string_bytes};
ghost use Rattle.std.specs.Fmt.{digit_glyph};
ghost use Rattle.std.specs.Str.{encode_utf8_all};
ghost use Rattle.rpl_print.specs.Sets.{hexadecimal};

use itoa::Buffer;
use rpl_text::{Chars, NoMemory};
use std::str::from_utf8_unchecked;

/// Returns the text as a `str`.
pub fn text_of(text: &Chars) -> &str
    ensures { result.now ≡ encode_utf8_all text.now }
{
    text.as_str()
}

/// Appends a text unchanged.
pub fn push_text(out: &mut String, text: &Chars) -> Result<(), NoMemory>
    ensures ok { OnOk result (string_bytes out.new ≡ string_bytes out.old
        ++ encode_utf8_all text.now) }
    ensures err { OnErr result (string_bytes out.new ≡ string_bytes out.old) }
{
    out.push_str(text_of(text))
}

/// Appends a number in decimal digits.
pub fn push_decimal(out: &mut String, number: u64) -> Result<(), NoMemory>
    ensures ok { OnOk result (string_bytes out.new ≡ string_bytes out.old ++ decimal number) }
    ensures err { OnErr result (string_bytes out.new ≡ string_bytes out.old) }
{
    let mut buffer = Buffer::new();
    out.push_str(buffer.format(number))
}

/// Appends a number in lowercase hexadecimal digits.
pub fn push_hexadecimal(out: &mut String, number: u32) -> Result<(), NoMemory>
    ensures ok { OnOk result (string_bytes out.new ≡ string_bytes out.old ++ hexadecimal number) }
    ensures err { OnErr result (string_bytes out.new ≡ string_bytes out.old) }
{
    let mut room = [0; ROOM];
    let start = put_digits(&mut room, number);
    let digits = &room[start..];
    // The digits are ASCII, as proved here, so they need no check.
    out.push_str(unsafe { from_utf8_unchecked(digits) })
}

/// The size of a buffer that can hold the digits of any number.
const ROOM: usize = 64;

/// Writes the hexadecimal digits of a number to the end of `room`. Returns the index where they
/// begin.
fn put_digits(room: &mut [u8; ROOM], number: u32) -> usize
    ensures place { result ≤ ROOM }
    ensures digits { drop result room.new ≡ hexadecimal number }
{
    let mut start = ROOM;
    let mut rest = number;
    while start > 0 {
        start -= 1;
        room[start] = digit_of(rest % 16);
        rest /= 16;
        if rest == 0 {
            break;
        }
    }
    start
}

/// Returns the hexadecimal digit of a number below 16.
fn digit_of(number: u32) -> u8
    requires { number < 16 }
    ensures { result ≡ digit_glyph false number }
{
    if number < 10 {
        b'0' + number as u8
    } else {
        b'a' - 10 + number as u8
    }
}
