// The text of a cell in each format, given the text as it is written in a tree.
ghost use Rattle.std.specs.Prelude.{◌≡◌, ◌++◌, ◌<◌, OnOk, IfSome, length, option_map};
ghost use Rattle.std.specs.Prelude.{◌&&◌};
ghost use Rattle.rpl_print.specs.Quoted.{is_plain};
ghost use Rattle.rpl_columns.specs.Cells as C;

use crate::NoMemory;
use crate::spelling::control_of;
use rpl_print::is_plain;

/// Returns the byte that the short escape with this letter represents, or the letter itself if
/// there is no such escape.
fn unescaped(letter: u8) -> u8
    ensures { result ≡ C.unescaped letter }
{
    match letter {
        b'b' => 8,
        b'f' => 12,
        b'n' => 10,
        b'r' => 13,
        b't' => 9,
        other => other,
    }
}

/// Splits off the byte that an escape represents from the front of `spelled`, which begins right
/// after the backslash of the escape.
fn first_escaped(spelled: &[u8]) -> Option<(u8, &[u8])>
    ensures value { option_map (λ r. (r.0, r.1.now)) result ≡ C.first_escaped spelled.now }
    ensures fewer { IfSome result (λ r. length r.1.now < length spelled.now) }
{
    if spelled.is_empty() {
        return None;
    }
    let rest = &spelled[1..];
    if spelled[0] != b'u' {
        return Some((unescaped(spelled[0]), rest));
    }
    match control_of(rest) {
        Some(byte) => Some((byte, &rest[4..])),
        None => None,
    }
}

/// Splits off the first byte of `spelled`, which may be written as an escape. Returns `None` if
/// `spelled` is empty or begins with a malformed escape.
fn first_byte(spelled: &[u8]) -> Option<(u8, &[u8])>
    ensures value { option_map (λ r. (r.0, r.1.now)) result ≡ C.first_in spelled.now }
    ensures fewer { IfSome result (λ r. length r.1.now < length spelled.now) }
{
    if spelled.is_empty() {
        return None;
    }
    let rest = &spelled[1..];
    if spelled[0] == b'\\' {
        return first_escaped(rest);
    }
    Some((spelled[0], rest))
}

/// Appends bytes unchanged.
#[inline(always)]
pub(crate) fn put(out: &mut Vec<u8>, bytes: &[u8]) -> Result<(), NoMemory>
    ensures { OnOk result (out.new.items ≡ out.old.items ++ bytes.now) }
{
    out.extend_from_slice(bytes)
}

/// Appends a byte, doubled if it is a quote.
fn put_doubled_byte(out: &mut Vec<u8>, byte: u8) -> Result<(), NoMemory>
    ensures { OnOk result (out.new.items ≡ out.old.items ++ C.doubled_byte byte) }
{
    if byte == b'"' {
        return out.extend_from_slice(b"\"\"");
    }
    out.push(byte)?;
    Ok(())
}

/// Appends the text with each quote doubled.
fn put_doubled(out: &mut Vec<u8>, spelled: &[u8]) -> Result<(), NoMemory>
    ensures { OnOk result (out.new.items ≡ out.old.items ++ C.doubled (C.text_of spelled.now)) }
{
    if is_plain(spelled) {
        return put(out, spelled);
    }
    let mut rest = spelled;
    while let Some((byte, left)) = first_byte(rest) {
        put_doubled_byte(out, byte)?;
        rest = left;
    }
    Ok(())
}

/// Returns whether a text that contains this byte needs quotes.
fn wants_quotes(byte: u8) -> bool
    ensures { result ≡ C.wants_quotes byte }
{
    byte == b',' || byte == b'"' || byte == b'\n' || byte == b'\r'
}

/// Returns whether the text must be put in quotes.
fn is_to_be_quoted(spelled: &[u8]) -> bool
    ensures { result ≡ C.is_to_be_quoted (C.text_of spelled.now) }
{
    let mut rest = spelled;
    while let Some((byte, left)) = first_byte(rest) {
        if wants_quotes(byte) {
            return true;
        }
        rest = left;
    }
    false
}

/// Returns whether no byte is a comma.
#[inline(always)]
fn has_no_comma(bytes: &[u8]) -> bool
    ensures { result ≡ C.has_no_comma bytes.now }
{
    let mut is_all = true;
    for byte in bytes {
        is_all &= *byte != b',';
    }
    is_all
}

/// Appends a text as a cell in CSV format.
#[inline(always)]
pub(crate) fn put_csv(out: &mut Vec<u8>, spelled: &[u8]) -> Result<(), NoMemory>
    ensures { OnOk result (out.new.items ≡ out.old.items ++ C.csv_cell (C.text_of spelled.now)) }
{
    if is_plain(spelled) && has_no_comma(spelled) {
        return put(out, spelled);
    }
    put_csv_slowly(out, spelled)
}

/// Does the same as `put_csv`, for a text that may contain escapes or bytes that need quotes.
#[inline(never)]
fn put_csv_slowly(out: &mut Vec<u8>, spelled: &[u8]) -> Result<(), NoMemory>
    ensures { OnOk result (out.new.items ≡ out.old.items ++ C.csv_cell (C.text_of spelled.now)) }
{
    if !is_to_be_quoted(spelled) {
        return put_doubled(out, spelled);
    }
    out.push(b'"')?;
    put_doubled(out, spelled)?;
    out.push(b'"')?;
    Ok(())
}

/// Appends a byte as it is written in TSV format.
fn put_tsv_byte(out: &mut Vec<u8>, byte: u8) -> Result<(), NoMemory>
    ensures { OnOk result (out.new.items ≡ out.old.items ++ C.tsv_byte byte) }
{
    match byte {
        b'\t' => out.extend_from_slice(b"\\t"),
        b'\n' => out.extend_from_slice(b"\\n"),
        b'\r' => out.extend_from_slice(b"\\r"),
        b'\\' => out.extend_from_slice(b"\\\\"),
        other => {
            out.push(other)?;
            Ok(())
        }
    }
}

/// Appends a text as a cell in TSV format.
#[inline(always)]
pub(crate) fn put_tsv(out: &mut Vec<u8>, spelled: &[u8]) -> Result<(), NoMemory>
    ensures { OnOk result (out.new.items ≡ out.old.items ++ C.tsv_cell (C.text_of spelled.now)) }
{
    if is_plain(spelled) {
        return put(out, spelled);
    }
    put_tsv_slowly(out, spelled)
}

/// Does the same as `put_tsv`, for a text that may contain escapes.
#[inline(never)]
fn put_tsv_slowly(out: &mut Vec<u8>, spelled: &[u8]) -> Result<(), NoMemory>
    ensures { OnOk result (out.new.items ≡ out.old.items ++ C.tsv_cell (C.text_of spelled.now)) }
{
    let mut rest = spelled;
    while let Some((byte, left)) = first_byte(rest) {
        put_tsv_byte(out, byte)?;
        rest = left;
    }
    Ok(())
}
