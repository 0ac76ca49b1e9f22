// Text that grows at its end.
ghost use Rattle.std.specs.Prelude.{◌≡◌, ◌+◌, ◌^◌, ◌<◌, ◌≤◌, ◌++◌, ◌∷◌, [], length, take, OnOk};
ghost use Rattle.std.specs.Prelude.{vec_len, decimal, codes};
ghost use Rattle.rpl_encode.specs.inside.Fronts.{after_front};
ghost use Rattle.rpl_encode.specs.inside.Walk.{ending};

use itoa::write_digits;
use rpl_core::NoMemory;
use rpl_tree::Node;
use std::alloc::Global;
use std::marker::Model;

/// A text that grows at its end. Its memory is kept when the text is cleared. Contracts refer to
/// its bytes.
#[derive(Drop)]
pub(crate) struct Page {
    /// The text, and unused room after it.
    bytes: Vec<u8>,
    len: usize,
}

impl Model for Page {
    ghost use Rattle.std.specs.Prelude.{List, ℕ, ◌≤◌, take, vec_len};

    ghost Value = { List ℕ };

    ghost view = { λ p. take p.len p.bytes.items };

    ghost invariant = { λ p. p.len ≤ vec_len p.bytes };
}

impl Page {
    /// Returns an empty text. Allocates no memory.
    pub(crate) fn new(alloc: Global) -> Page
        ensures { result ≡ [] }
    {
        Page {
            bytes: Vec::new(alloc),
            len: 0,
        }
    }

    /// Returns the number of bytes.
    #[inline(always)]
    pub(crate) fn len(&self) -> usize
        ensures { result ≡ length self.now }
    {
        self.len
    }

    /// Returns the bytes.
    pub(crate) fn as_slice(&self) -> &[u8]
        ensures { result.now ≡ self.now }
    {
        &self.bytes[..self.len]
    }

    /// Makes the text empty.
    pub(crate) fn clear(&mut self)
        ensures { self.new ≡ [] }
    {
        self.len = 0;
    }

    /// Returns the bytes as a list, without the unused room.
    pub(crate) fn into_vec(self) -> Vec<u8>
        ensures { result.items ≡ self }
    {
        let Page { mut bytes, len } = self;
        bytes.truncate(len);
        bytes
    }

    /// Appends the bytes.
    #[inline(always)]
    pub(crate) fn put(&mut self, bytes: &[u8]) -> Result<(), NoMemory>
        ensures { OnOk result (self.new ≡ self.old ++ bytes.now) }
    {
        make_room(&mut self.bytes, self.len, bytes.len())?;
        self.len = write_at(bytes, &mut self.bytes, self.len);
        Ok(())
    }

    /// Appends the object of a node. `front` is the beginning of the object. If there are nodes
    /// below the node, appends the object only up to their list. Makes room for all of these bytes
    /// at once.
    pub(crate) fn put_object(
        &mut self,
        front: &[u8],
        node: Node,
        text: &[u8],
        has_subs: bool,
    ) -> Result<(), NoMemory>
        requires { (node.start + 1 < 2 ^ 64) × (node.end + 1 < 2 ^ 64) }
        ensures { OnOk result
            (self.new
            ≡ self.old
            ++ (front.now ++ after_front node.start node.end text.now has_subs)) }
    {
        let count = (front.len() + text.len()).saturating_add(MORE);
        make_room(&mut self.bytes, self.len, count)?;
        let at = write_at(front, &mut self.bytes, self.len);
        let at = write_places(node, &mut self.bytes, at);
        let at = write_at(text, &mut self.bytes, at);
        self.len = write_ending(has_subs, &mut self.bytes, at);
        Ok(())
    }
}

/// The greatest number of bytes that an object has besides its front and its text.
const MORE: usize = 64;

/// The least number of bytes by which the room grows. It is large, so that the room rarely has to
/// grow.
const STEP: usize = 1024;

/// Makes room for `count` bytes after the first `len` bytes, which stay unchanged.
#[inline(always)]
fn make_room(bytes: &mut Vec<u8>, len: usize, count: usize) -> Result<(), NoMemory>
    requires { len ≤ vec_len bytes.old }
    ensures kept { take len bytes.new.items ≡ take len bytes.old.items }
    ensures inside { len ≤ vec_len bytes.new }
    ensures room { OnOk result (len + count ≤ vec_len bytes.new) }
{
    if bytes.len() - len >= count {
        return Ok(());
    }
    lengthen(bytes, len, count)
}

/// Does what `make_room` does. Called only if there is too little room.
#[cold]
#[inline(never)]
fn lengthen(bytes: &mut Vec<u8>, len: usize, count: usize) -> Result<(), NoMemory>
    requires { (len ≤ vec_len bytes.old) × (vec_len bytes.old < len + count) }
    ensures kept { take len bytes.new.items ≡ take len bytes.old.items }
    ensures inside { len ≤ vec_len bytes.new }
    ensures room { OnOk result (len + count ≤ vec_len bytes.new) }
{
    // If a sum saturates, no `Vec` can hold that many bytes, and `resize` fails.
    let least = len.saturating_add(count);
    bytes.resize(least.saturating_add(STEP), 0)
}

/// Writes the bytes at `at`, and returns the offset at which they end.
#[inline(always)]
fn write_at(bytes: &[u8], buffer: &mut [u8], at: usize) -> usize
    requires { at + length bytes.now ≤ length buffer.old }
    ensures end { result ≡ at + length bytes.now }
    ensures long { length buffer.new ≡ length buffer.old }
    ensures written { take result buffer.new ≡ take at buffer.old ++ bytes.now }
{
    let end = at + bytes.len();
    buffer[at..end].copy_from_slice(bytes);
    end
}

/// Writes the start and the end of a node, each increased by one, and the rest of the object
/// up to the quote before the node's text.
#[inline(always)]
fn write_places(node: Node, buffer: &mut [u8], at: usize) -> usize
    requires places { (node.start + 1 < 2 ^ 64) × (node.end + 1 < 2 ^ 64) }
    requires room { at + 54 ≤ length buffer.old }
    ensures end { result ≤ at + 54 }
    ensures long { length buffer.new ≡ length buffer.old }
    ensures written { take result buffer.new
        ≡ take at buffer.old ++ (decimal (node.start + 1)
        ++ (codes ",\"e\":" ++ (decimal (node.end + 1) ++ codes ",\"data\":\""))) }
{
    let at = write_number(node.start as u64 + 1, buffer, at);
    let at = write_at(b",\"e\":", buffer, at);
    let at = write_number(node.end as u64 + 1, buffer, at);
    write_at(b",\"data\":\"", buffer, at)
}

/// Writes the quote after the text of a node, and then the end of the object or the start of the
/// list of nodes below that node.
#[inline(always)]
fn write_ending(has_subs: bool, buffer: &mut [u8], at: usize) -> usize
    requires { at + 10 ≤ length buffer.old }
    ensures end { result ≤ at + 10 }
    ensures long { length buffer.new ≡ length buffer.old }
    ensures written { take result buffer.new ≡ take at buffer.old ++ 34 ∷ ending has_subs }
{
    if has_subs {
        write_at(b"\",\"subs\":[", buffer, at)
    } else {
        write_at(b"\"}", buffer, at)
    }
}

/// Writes a number at `at`, and returns the offset at which it ends.
#[inline(always)]
fn write_number(number: u64, buffer: &mut [u8], at: usize) -> usize
    requires { at + 20 ≤ length buffer.old }
    ensures end { result ≤ at + 20 }
    ensures long { length buffer.new ≡ length buffer.old }
    ensures written { take result buffer.new ≡ take at buffer.old ++ decimal number }
{
    if number < 10 {
        return write_at(&[b'0' + number as u8], buffer, at);
    }
    if number < 100 {
        let digits = [b'0' + (number / 10) as u8, b'0' + (number % 10) as u8];
        return write_at(&digits, buffer, at);
    }
    write_long(number, buffer, at)
}

/// Does the same as `write_number`, but without the shortcuts for numbers below 100.
#[inline(never)]
fn write_long(number: u64, buffer: &mut [u8], at: usize) -> usize
    requires { at + 20 ≤ length buffer.old }
    ensures end { result ≤ at + 20 }
    ensures long { length buffer.new ≡ length buffer.old }
    ensures written { take result buffer.new ≡ take at buffer.old ++ decimal number }
{
    let end = at + count_digits(number);
    write_digits(number, buffer, end);
    end
}

/// Returns how many decimal digits the number has.
fn count_digits(number: u64) -> usize
    ensures { result ≡ length (decimal number) }
{
    let mut left = number;
    let mut count = 1;
    while left >= 10 {
        left /= 10;
        count += 1;
    }
    count
}
