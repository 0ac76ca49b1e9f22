// Texts as JSON strings.
ghost use Rattle.std.specs.Prelude.{◌≡◌, ◌≤◌, ◌++◌, ◌∷◌, [], length, IsTrue, IfOk, OnOk, OnErr};
ghost use Rattle.std.specs.Prelude.{string_bytes};
ghost use Rattle.rpl_print.specs.Quoted as Q;

use json::Writer;
use rpl_text::NoMemory;
use std::alloc::Global;

/// Returns the text as a JSON string, newly allocated.
fn quoted(alloc: Global, text: &str) -> Result<String, NoMemory>
    ensures { IfOk result (λ s. string_bytes s ≡ Q.quoted text.now) }
{
    let mut writer = Writer::new(Vec::with_capacity(alloc, text.len() + 2)?);
    writer.string(text)?;
    match String::from_utf8(writer.into_inner()) {
        Ok(string) => Ok(string),
        Err(_) => unreachable!(),
    }
}

/// Appends the text as a JSON string.
pub fn push_quoted(out: &mut String, text: &str) -> Result<(), NoMemory>
    ensures ok { OnOk result (string_bytes out.new ≡ string_bytes out.old ++ Q.quoted text.now) }
    ensures err { OnErr result (string_bytes out.new ≡ string_bytes out.old) }
{
    if is_plain(text.as_bytes()) {
        // Space for the whole string is reserved first, so that either all of it or none of it is
        // appended.
        out.reserve(text.len() + 2)?;
        out.push('"')?;
        out.push_str(text)?;
        return out.push('"');
    }
    let string = quoted(*out.allocator(), text)?;
    out.push_str(&string)
}

/// The number of bytes tested together.
const CHUNK: usize = 32;

/// Returns whether no byte of the text needs an escape, in which case its JSON string is the
/// unchanged text between quotes. Reads all bytes, many per instruction.
pub fn is_plain(text: &[u8]) -> bool
    ensures exact { result ≡ Q.is_plain text.now }
    ensures itself { IsTrue result → Q.quoted text.now ≡ 34 ∷ (text.now ++ 34 ∷ []) }
{
    let mut is_all = true;
    let mut rest = text;
    while rest.len() > CHUNK {
        let (chunk, behind) = rest.split_at(CHUNK);
        is_all &= are_plain(chunk);
        rest = behind;
    }
    is_all & is_plain_short(rest)
}

/// Returns whether no byte of a short text needs an escape. The text is padded to a chunk with
/// spaces, which need no escape.
#[inline]
fn is_plain_short(text: &[u8]) -> bool
    requires { length text.now ≤ CHUNK }
    ensures { result ≡ Q.is_plain text.now }
{
    let mut chunk = [b' '; CHUNK];
    chunk[..text.len()].copy_from_slice(text);
    are_plain(&chunk)
}

/// Returns whether no byte needs an escape. Tests the bytes one by one. If the length is known at
/// compile time, the loop compiles to a few instructions.
#[inline(always)]
fn are_plain(bytes: &[u8]) -> bool
    ensures { result ≡ Q.is_plain bytes.now }
{
    let mut is_all = true;
    for byte in bytes {
        is_all &= is_plain_byte(*byte);
    }
    is_all
}

/// Returns whether the byte needs no escape.
#[inline]
fn is_plain_byte(byte: u8) -> bool
    ensures { result ≡ Q.is_plain_byte byte }
{
    byte >= 0x20 && byte != b'"' && byte != b'\\'
}
