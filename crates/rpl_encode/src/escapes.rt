// The escaped form of a line in JSON strings.
ghost use Rattle.std.specs.Prelude.{◌≡◌, ◌<◌, ◌≤◌, ◌+◌, ◌*◌, ◌++◌, length, drop, slice_range};
ghost use Rattle.std.specs.Prelude.{vec_len, IfSome, OnOk};
ghost use Rattle.std.specs.Char.{digit_char};
ghost use Rattle.json.specs.Print.{escape, escape_byte, escape_letter};
ghost use Rattle.rpl_print.specs.Quoted as Q;
ghost use Rattle.rpl_encode.specs.inside.Escapes.{AreKept, AreOf};

use crate::node_text::{part_of, write_before};
use crate::page::Page;
use rpl_core::NoMemory;
use rpl_print::is_plain;
use std::alloc::Global;

/// How the escaped form of a part of a line is obtained.
#[derive(Clone, Copy)]
pub(crate) enum Kind {
    /// No byte of the line needs an escape, so a part is its own escaped form.
    Plain,
    /// The escaped form of the whole line is kept, and the escaped form of a part is cut out of it.
    Kept,
    /// The line is long, so a part is escaped each time it is printed.
    Long,
}

/// The length in bytes of the longest line whose escaped form is kept. Each part of a line is
/// printed once for each node that covers it, so keeping the escaped form saves time. For a long
/// line, however, the kept form would take many times the line's length in memory.
const KEPT: usize = 4096;

/// The escaped forms of the parts of a line. They are prepared once, for all parts of the line that
/// are printed.
#[derive(Drop)]
pub(crate) struct Escapes {
    kind: Kind,
    /// A buffer that ends with the escaped form of the line, if that form is kept. Its memory,
    /// and that of `places`, is reused for the next line.
    string: Vec<u8>,
    /// The offset in `string` at which the escaped form of each byte of the line begins, and
    /// the offset at which the last one ends.
    places: Vec<usize>,
}

impl Escapes {
    /// Returns the escaped forms of the empty line. Allocates no memory.
    pub(crate) fn new(alloc: Global) -> Escapes {
        Escapes {
            kind: Kind::Plain,
            string: Vec::new(alloc),
            places: Vec::new(alloc),
        }
    }

    /// Replaces the escaped forms with those of `line`.
    pub(crate) fn fill(&mut self, line: &str) -> Result<(), NoMemory>
        ensures { OnOk result (AreOf line.now self.new) }
    {
        let bytes = line.as_bytes();
        if is_plain(bytes) {
            self.kind = Kind::Plain;
            return Ok(());
        }
        if bytes.len() > KEPT {
            self.kind = Kind::Long;
            return Ok(());
        }
        lengthen(&mut self.string, 6 * bytes.len(), 0)?;
        lengthen(&mut self.places, bytes.len() + 1, 0)?;
        keep(&mut self.string, &mut self.places, bytes);
        self.kind = Kind::Kept;
        Ok(())
    }

    /// Returns the escaped form of the part of the line between two offsets, if it is
    /// available. The part is empty if the end is before the start, and it never extends past
    /// the end of the line.
    #[inline(always)]
    pub(crate) fn part<'a>(&'a self, line: &'a [u8], start: usize, end: usize) -> Option<&'a [u8]>
        requires { AreOf line.now self.now }
        ensures { IfSome result (λ text. text.now ≡ escape (slice_range line.now start end)) }
    {
        match self.kind {
            Kind::Plain => Some(part_of(line, start, end)),
            Kind::Kept => {
                let end = end.min(line.len());
                let start = start.min(end);
                Some(cut_out(line, &self.string, &self.places, start, end))
            }
            Kind::Long => None,
        }
    }
}

/// Lengthens the list to at least `count` items.
fn lengthen<T: Copy>(list: &mut Vec<T>, count: usize, filler: T) -> Result<(), NoMemory>
    ensures { OnOk result (count ≤ vec_len list.new) }
{
    if list.len() >= count {
        return Ok(());
    }
    list.resize(count, filler)
}

/// Writes the escaped form of the line so that it ends where `string` ends. Stores in `places` the
/// offset in `string` at which the escaped form of each byte begins.
fn keep(string: &mut [u8], places: &mut [usize], line: &[u8])
    requires string { 6 * length line.now ≤ length string.old }
    requires places { length line.now < length places.old }
    ensures { AreKept line.now string.new places.new }
{
    let mut at = string.len();
    let mut left = line.len();
    places[left] = at;
    while left > 0 {
        left -= 1;
        at = write_escaped(line[left], string, at);
        places[left] = at;
    }
}

/// Returns the escaped form of the part of the line between two offsets, cut out of the escaped
/// form of the whole line.
fn cut_out<'a>(
    line: &[u8],
    string: &'a [u8],
    places: &[usize],
    start: usize,
    end: usize,
) -> &'a [u8]
    requires kept { AreKept line.now string.now places.now }
    requires within { (start ≤ end) × (end ≤ length line.now) }
    ensures { result.now ≡ escape (slice_range line.now start end) }
{
    &string[places[start]..places[end]]
}

/// The number of bytes that are escaped at a time.
const CHUNK: usize = 64;

/// The greatest number of bytes in the escaped form of one chunk.
const ROOM: usize = 6 * CHUNK;

/// Appends the escaped form of the bytes, one chunk at a time. Appending a few bytes at a time
/// would be slow, and a line of JSON has few bytes between one quote and the next.
pub(crate) fn put_bytes(out: &mut Page, bytes: &[u8]) -> Result<(), NoMemory>
    ensures { OnOk result (out.new ≡ out.old ++ escape bytes.now) }
{
    let mut rest = bytes;
    while rest.len() > 0 {
        let (front, behind) = rest.split_at(rest.len().min(CHUNK));
        put_chunk(out, front)?;
        rest = behind;
    }
    Ok(())
}

/// Appends the escaped form of at most 64 bytes. If one of them needs an escape, the escaped
/// form is first built in a buffer, backwards from the buffer's end.
fn put_chunk(out: &mut Page, bytes: &[u8]) -> Result<(), NoMemory>
    requires { length bytes.now ≤ 64 }
    ensures { OnOk result (out.new ≡ out.old ++ escape bytes.now) }
{
    if is_plain(bytes) {
        return out.put(bytes);
    }
    let mut buffer = [0; ROOM];
    let mut at = ROOM;
    let mut left = bytes.len();
    while left > 0 {
        left -= 1;
        at = write_escaped(bytes[left], &mut buffer, at);
    }
    out.put(&buffer[at..])
}

/// Writes the escaped form of a byte so that it ends at `end`, and returns the offset at which
/// it starts.
#[inline(always)]
fn write_escaped(byte: u8, buffer: &mut [u8], end: usize) -> usize
    requires { (6 ≤ end) × (end ≤ length buffer.old) }
    ensures start { (result ≤ end) × (end ≤ result + 6) }
    ensures long { length buffer.new ≡ length buffer.old }
    ensures written { drop result buffer.new ≡ escape_byte byte ++ drop end buffer.old }
{
    if is_plain_byte(byte) {
        return write_before(&[byte], buffer, end);
    }
    write_escape(byte, buffer, end)
}

/// Returns whether the byte needs no escape.
#[inline]
fn is_plain_byte(byte: u8) -> bool
    ensures { result ≡ Q.is_plain_byte byte }
{
    byte >= 0x20 && byte != b'"' && byte != b'\\'
}

/// Does the same as `write_escaped`, but without the shortcut for bytes that need no escape.
fn write_escape(byte: u8, buffer: &mut [u8], end: usize) -> usize
    requires { (6 ≤ end) × (end ≤ length buffer.old) }
    ensures start { (result ≤ end) × (end ≤ result + 6) }
    ensures long { length buffer.new ≡ length buffer.old }
    ensures written { drop result buffer.new ≡ escape_byte byte ++ drop end buffer.old }
{
    let letter = short_escape(byte);
    if letter > 0 {
        return write_before(&[b'\\', letter], buffer, end);
    }
    if byte < 0x20 {
        let digits = [b'\\', b'u', b'0', b'0', digit(byte / 16), digit(byte % 16)];
        return write_before(&digits, buffer, end);
    }
    write_before(&[byte], buffer, end)
}

/// Returns the letter of the byte's short escape, or 0 if it has none.
fn short_escape(byte: u8) -> u8
    ensures { result ≡ escape_letter byte }
{
    match byte {
        b'"' | b'\\' => byte,
        0x08 => b'b',
        0x0C => b'f',
        b'\n' => b'n',
        b'\r' => b'r',
        b'\t' => b't',
        _ => 0,
    }
}

/// Returns the hexadecimal digit for a value below 16.
fn digit(value: u8) -> u8
    requires { value < 16 }
    ensures { result ≡ digit_char value }
{
    if value < 10 {
        b'0' + value
    } else {
        b'a' - 10 + value
    }
}
