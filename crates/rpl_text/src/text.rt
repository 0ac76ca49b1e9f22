// Places in a line of text.
ghost use Rattle.std.specs.Prelude.{◌≡◌, ◌<◌, ◌≤◌, ◌+◌, ◌↔◌, chars, length, slice_range, IsTrue};
ghost use Rattle.rpl_text.specs.Places.{at, index, IsPlace, step_from, back_from, place_from};
ghost use Rattle.rpl_text.specs.Masks.{AllMarked, UnmarkedAt};
ghost use Rattle.rpl_text.specs.Seen.{text_of};

use crate::line::{back_in, is_place_in, line_len, pass_in, place_in, slice_in, step_in};

/// A borrowed line of text, whose characters are accessed by place.
///
/// A place is the byte offset of a character, or that of the end of the line. In contracts, the
/// line is the list of its characters (`text_of`).
///
/// # Examples
///
/// ```
/// use rpl_text::Text;
/// let line = Text::new("für");
/// assert!(rt; line.len() == 4 && line.is_place(1) && !line.is_place(2));
/// assert!(rt; line.step(1) == Some(('ü', 3)) && line.step(4) == None);
/// assert!(rt; line.back(4, 2) == Some(1) && line.slice(1, 4) == "ür");
/// ```
#[derive(Clone, Copy)]
pub struct Text<'a> {
    line: &'a str,
}

impl<'a> Text<'a> {
    /// Borrows a line as a text.
    #[inline]
    pub fn new(line: &'a str) -> Text<'a>
        ensures { text_of result ≡ chars line.now }
    {
        Text { line }
    }

    /// Returns the length in bytes, which is also the last place.
    #[inline]
    pub fn len(self) -> usize
        ensures { result ≡ at (text_of self.entry) (length (text_of self.entry)) }
    {
        line_len(self.line)
    }

    /// Returns whether `place` is the byte offset of a character or that of the end.
    #[inline]
    pub fn is_place(self, place: usize) -> bool
        ensures { IsTrue result ↔ IsPlace (text_of self.entry) place }
    {
        is_place_in(self.line, place)
    }

    /// Returns the character at a place and the next place, or `None` exactly when `place` is the
    /// end.
    #[inline]
    pub fn step(self, place: usize) -> Option<(char, usize)>
        requires { IsPlace (text_of self) place }
        ensures { let t = text_of self.entry in result ≡ step_from t (index t place) }
    {
        step_in(self.line, place)
    }

    /// Returns the place after the run of marked characters that begins at `place`: the place of
    /// the first unmarked character, or the end. Moves forward by at most `most` bytes. An ASCII
    /// character is marked if its bit in the mask is set: the first word holds the bits of
    /// characters 0 to 63, the second those of characters 64 to 127. Characters outside ASCII are
    /// unmarked.
    #[inline(never)]
    pub fn pass(self, place: usize, most: usize, mask: [u64; 2]) -> usize
        requires { IsPlace (text_of self) place }
        ensures place { IsPlace (text_of self.entry) result }
        ensures forward { place ≤ result }
        ensures most { result ≤ place + most }
        ensures number { let t = text_of self.entry in
            index t result + place ≡ index t place + result }
        ensures marked { let t = text_of self.entry in
            AllMarked mask t (index t place) (index t result) }
        ensures stops { let t = text_of self.entry in result < place + most →
            UnmarkedAt mask t (index t result) }
    {
        pass_in(self.line, place, most, mask)
    }

    /// Returns the place `count` characters before `place`, or `None` exactly when fewer characters
    /// precede `place`.
    #[inline]
    pub fn back(self, place: usize, count: u32) -> Option<usize>
        requires { IsPlace (text_of self) place }
        ensures { let t = text_of self.entry in result ≡ back_from t (index t place) count }
    {
        back_in(self.line, place, count)
    }

    /// Returns the place of the character at index `number`, counted from 0. If `number` equals the
    /// count of characters in the line, returns the end of the line. Returns `None` exactly when
    /// `number` exceeds that count.
    pub fn place_of(self, number: usize) -> Option<usize>
        ensures { result ≡ place_from (text_of self.entry) number }
    {
        place_in(self.line, number)
    }

    /// Returns the characters between two places.
    #[inline]
    pub fn slice(self, from: usize, to: usize) -> &'a str
        requires from { IsPlace (text_of self) from }
        requires to { IsPlace (text_of self) to }
        requires order { from ≤ to }
        ensures { let t = text_of self.entry in
            chars result.now ≡ slice_range t (index t from) (index t to) }
    {
        slice_in(self.line, from, to)
    }
}
