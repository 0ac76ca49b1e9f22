// Writes the text of one node.
ghost use Rattle.std.specs.Prelude.{◌≡◌, ◌+◌, ◌^◌, ◌<◌, ◌≤◌, ◌++◌, ◌∷◌, ◌↔◌, length, drop};
ghost use Rattle.std.specs.Prelude.{slice_range};
ghost use Rattle.std.specs.Prelude.{IsTrue, OnOk};
ghost use Rattle.std.specs.Prelude.{decimal, codes};
ghost use Rattle.std.specs.Str.{encode_utf8_all};
ghost use Rattle.json.specs.Print.{escape};
ghost use Rattle.rpl_tree.specs.Trees.{label_in};
ghost use Rattle.rpl_encode.specs.Texts.{fields};
ghost use Rattle.rpl_encode.specs.inside.Escapes.{AreOf};
ghost use Rattle.rpl_encode.specs.inside.Fronts.{after_front};
ghost use Rattle.rpl_encode.specs.inside.Walk.{text_at, fields_at, comma, ending};

use crate::escapes::put_bytes;
use crate::front::{Fronts, front_of, put_escaped, put_new_front};
use crate::page::Page;
use crate::source::Source;
use itoa::Buffer;
use rpl_core::NoMemory;
use rpl_tree::Node;

/// Returns the text with this number, or an empty text if there is none.
pub(crate) fn label_of(fronts: &Fronts, number: u32) -> &str
    ensures { result.now ≡ encode_utf8_all (label_in fronts.now number) }
{
    fronts.label(number).unwrap_or("")
}

/// Returns the text of a node: its part of the line, or the text of a note.
pub(crate) fn text_of<'a>(node: Node, line: &'a [u8], fronts: &'a Fronts) -> &'a [u8]
    ensures { result.now ≡ text_at fronts.now line.now node }
{
    match node.note {
        Some(text) => label_of(fronts, text).as_bytes(),
        None => part_of(line, node.start, node.end),
    }
}

/// Returns the part of the line between two offsets. It is empty if the end is before the
/// start, and it never extends past the end of the line.
pub(crate) fn part_of(line: &[u8], start: usize, end: usize) -> &[u8]
    ensures { result.now ≡ slice_range line.now start end }
{
    let end = end.min(line.len());
    let start = start.min(end);
    &line[start..end]
}

/// Writes the object of a node, preceded by a comma unless the node is the first. If there
/// are nodes below it, writes the object only up to their list.
pub(crate) fn put_node(
    out: &mut Page,
    node: Node,
    is_first: bool,
    has_subs: bool,
    source: Source<'_>,
) -> Result<(), NoMemory>
    requires { AreOf source.line.now source.escapes.now }
    ensures { OnOk result
        (out.new
        ≡ out.old
        ++ (comma is_first
        ++ (fields_at (source.entry.fronts.now) source.entry.line.now node ++ ending has_subs))) }
{
    let fronts = source.fronts;
    match node.note {
        Some(text) => {
            let text = label_of(fronts, text);
            put_message(out, is_first, has_subs, node.start, text)
        }
        None => {
            let front = front_of(fronts, is_first, node.label);
            match source.escapes.part(source.line, node.start, node.end) {
                Some(text) if is_near(node) => out.put_object(front, node, text, has_subs),
                _ => put_far(out, front, node, has_subs, source),
            }
        }
    }
}

/// Writes the JSON object for a note.
fn put_message(
    out: &mut Page,
    is_first: bool,
    has_subs: bool,
    place: usize,
    text: &str,
) -> Result<(), NoMemory>
    ensures { OnOk result
        (out.new
        ≡ out.old
        ++ (comma is_first ++ (fields (codes "message") place place text.now ++ ending has_subs))) }
{
    put_new_front(out, is_first, "message")?;
    put_places(out, place, place)?;
    put_escaped(out, text)?;
    put_ending(out, has_subs)
}

/// Returns whether the node's start and end fit in 64 bits even after each is increased by one for
/// printing.
#[inline(always)]
fn is_near(node: Node) -> bool
    ensures { IsTrue result ↔ ((node.start + 1 < 2 ^ 64) × (node.end + 1 < 2 ^ 64)) }
{
    node.start < usize::MAX && node.end < usize::MAX
}

/// Writes the object of a node piece by piece. `front` is the beginning of the object.
#[cold]
#[inline(never)]
fn put_far(
    out: &mut Page,
    front: &[u8],
    node: Node,
    has_subs: bool,
    source: Source<'_>,
) -> Result<(), NoMemory>
    ensures { OnOk result
        (out.new
        ≡ out.old
        ++ (front.now
        ++ after_front node.start node.end
        (escape (slice_range source.entry.line.now node.start node.end)) has_subs)) }
{
    out.put(front)?;
    put_places(out, node.start, node.end)?;
    put_bytes(out, part_of(source.line, node.start, node.end))?;
    put_ending(out, has_subs)
}

/// Writes the quote after the text of a node, and then the end of the object or the start of the
/// list of nodes below that node.
#[inline]
fn put_ending(out: &mut Page, has_subs: bool) -> Result<(), NoMemory>
    ensures { OnOk result (out.new ≡ out.old ++ 34 ∷ ending has_subs) }
{
    if has_subs {
        out.put(b"\",\"subs\":[")
    } else {
        out.put(b"\"}")
    }
}

/// Writes the bytes so that they end at `end`, and returns the offset at which they start.
#[inline(always)]
pub(crate) fn write_before(bytes: &[u8], buffer: &mut [u8], end: usize) -> usize
    requires { (length bytes.now ≤ end) × (end ≤ length buffer.old) }
    ensures start { result + length bytes.now ≡ end }
    ensures long { length buffer.new ≡ length buffer.old }
    ensures written { drop result buffer.new ≡ bytes.now ++ drop end buffer.old }
{
    let start = end - bytes.len();
    buffer[start..end].copy_from_slice(bytes);
    start
}

/// Writes two positions, each increased by one, and the rest of the object up to the quote
/// before the text.
#[inline(never)]
fn put_places(out: &mut Page, start: usize, end: usize) -> Result<(), NoMemory>
    ensures { OnOk result
        (out.new
        ≡ out.old ++ (decimal (start + 1)
        ++ (codes ",\"e\":" ++ (decimal (end + 1) ++ codes ",\"data\":\"")))) }
{
    let mut buffer = Buffer::new();
    out.put(buffer.format(start as u128 + 1).as_bytes())?;
    out.put(b",\"e\":")?;
    out.put(buffer.format(end as u128 + 1).as_bytes())?;
    out.put(b",\"data\":\"")
}
