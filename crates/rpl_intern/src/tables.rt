// Tables that store each set and each text once, and look them up in a sorted map.
ghost use Rattle.std.specs.Prelude.{◌≡◌, ◌-◌, [], ◌∷◌, ◌++◌, IfOk, IfSome, IsTrue, OnErr, OnOk};
ghost use Rattle.std.specs.Prelude.{List, Some, chars, length, slice_get, take, ⊤};
ghost use Rattle.std.specs.Bool.{Decides};
ghost use Rattle.std.specs.List.{Contains};
ghost use Rattle.rpl_classes.specs.Sets.{IsNormal};
ghost use Rattle.rpl_intern.specs.Uses.{Keeps};

use crate::NoMemory;
use regex_class::ClassRange;
use rpl_classes::Set;
use rpl_core::{Labels, Sets};
use rpl_text::Chars;
use std::alloc::Global;
use std::collections::BTreeMap;
use std::marker::Model;

/// An element of a table's rows.
pub trait Piece: Copy + Ord {
    /// The property that every row must have.
    ghost is_row: { List Self → Type 0 };

    /// Two elements compare equal if and only if they are the same.
    ghost decides: { (x y : Self) → Decides (Self.eq x y) (x ≡ y) };
}

impl Piece for ClassRange {
    ghost use Rattle.rpl_intern.specs.inside.Pieces.{range_decides};

    ghost is_row = { IsNormal };

    ghost decides = { range_decides };
}

impl Piece for char {
    ghost use Rattle.std.proofs.lemmas.Bool.Decides.{Decides-eqb};

    ghost is_row = { λ _. ⊤ };

    ghost decides = { Decides-eqb };
}

/// Rows in the order of their first use, each stored once. Contracts see a table as a list of lists
/// of elements.
#[derive(Drop)]
pub struct Table<T: Piece> {
    rows: Vec<Vec<T>>,

    // The number of each row. The map is sorted, so a lookup is fast no matter which rows there
    // are.
    numbers: BTreeMap<Vec<T>, usize>,

    // The number of the row that was looked up last. Code often uses one set many times in
    // succession.
    recent: usize,
}

/// A table of sets, each stored as its ranges.
pub type SetTable = Table<ClassRange>;

/// A table of texts, each stored as its characters.
pub type LabelTable = Table<char>;

impl<T: Piece> Model for Table<T> {
    ghost use Rattle.std.specs.Prelude.{List, map};
    ghost use Rattle.std.specs.List.{All};
    ghost use Rattle.rpl_intern.specs.inside.Numbers.{IsNumbered};

    ghost Value = { List (List T) };

    ghost view = { λ a. map (λ v. v.items) a.rows.items };

    ghost invariant = { λ a. All T.is_row (map (λ v. v.items) a.rows.items)
        × IsNumbered T.cmp (map (λ v. v.items) a.rows.items) a.numbers };
}

impl<T: Piece> Table<T> {
    /// Returns an empty table.
    pub fn new(alloc: Global) -> Table<T>
        ensures { result ≡ [] }
    {
        Table {
            rows: Vec::new(alloc),
            numbers: BTreeMap::new(alloc),
            recent: 0,
        }
    }

    /// Adds the row if it is new, and returns its number in the table. If memory runs out, nothing
    /// changes.
    fn keep_row(&mut self, alloc: Global, row: Vec<T>) -> Result<usize, NoMemory>
        requires { T.is_row row.items }
        ensures kept { IfOk result (λ k. Keeps self.old (row.items ∷ []) self.new) }
        ensures number { IfOk result (λ k. slice_get self.new k ≡ Some row.items) }
        ensures err { OnErr result (self.new ≡ self.old) }
    {
        match self.numbers.get(&row).copied() {
            Some(number) => {
                self.recent = number;
                Ok(number)
            }
            None => self.add(alloc, row),
        }
    }

    /// Adds a new row, and returns its number. If memory runs out, nothing changes.
    fn add(&mut self, alloc: Global, row: Vec<T>) -> Result<usize, NoMemory>
        requires is_row { T.is_row row.items }
        requires is_new { Contains self.old row.items → ⊥ }
        ensures added { OnOk result (self.new ≡ self.old ++ row.items ∷ []) }
        ensures number { IfOk result (λ k. k ≡ length self.old) }
        ensures err { OnErr result (self.new ≡ self.old) }
    {
        let number = self.rows.len();
        self.rows.reserve(1)?;
        self.numbers.insert(Vec::from_slice(alloc, &row)?, number)?;
        self.rows.push_reserved(row);
        self.recent = number;
        Ok(number)
    }

    /// Returns the number of rows.
    pub(crate) fn len(&self) -> usize
        ensures { result ≡ length self.now }
    {
        self.rows.len()
    }

    /// Removes all rows after the first `count`.
    pub(crate) fn truncate(&mut self, count: usize)
        ensures { self.new ≡ take count self.old }
    {
        while self.len() > count {
            self.remove_last();
        }
    }

    /// Removes the last row.
    fn remove_last(&mut self)
        ensures { self.new ≡ take (length self.old - 1) self.old }
    {
        if let Some(row) = self.rows.pop() {
            self.numbers.remove(&row);
        }
    }
}

/// Returns whether both lists have the same ranges in the same order. The loop doesn't branch for
/// each range, so that the compiled code can compare several ranges at once. Speed matters here,
/// since the code for a pattern of a few bytes can use a set a million times.
fn are_same(a: &[ClassRange], b: &[ClassRange]) -> bool
    ensures { IsTrue result → a.now ≡ b.now }
{
    if a.len() != b.len() {
        return false;
    }
    let mut difference = 0;
    for index in 0..a.len() {
        difference |= (a[index].0 ^ b[index].0) | (a[index].1 ^ b[index].1);
    }
    difference == 0
}

impl Table<ClassRange> {
    /// Returns the number of the set that was looked up last, if that set has exactly the ranges in
    /// `ranges`.
    fn again(&self, ranges: &[ClassRange]) -> Option<usize>
        ensures { IfSome result (λ k. slice_get self.now k ≡ Some ranges.now) }
    {
        match self.rows.get(self.recent) {
            Some(row) if are_same(row, ranges) => Some(self.recent),
            _ => None,
        }
    }

    /// Adds the set if it is new, and returns its number in the table. If memory runs out, nothing
    /// changes.
    pub fn keep(&mut self, alloc: Global, set: &Set) -> Result<usize, NoMemory>
        ensures kept { IfOk result (λ k. Keeps self.old (set.now ∷ []) self.new) }
        ensures number { IfOk result (λ k. slice_get self.new k ≡ Some set.now) }
        ensures err { OnErr result (self.new ≡ self.old) }
    {
        let ranges = set.ranges();
        match self.again(ranges) {
            Some(number) => Ok(number),
            None => self.keep_row(alloc, Vec::from_slice(alloc, ranges)?),
        }
    }

    /// Returns all sets in the form that the machine needs.
    pub fn sets(&self, alloc: Global) -> Result<Sets, NoMemory>
        ensures { IfOk result (λ sets. sets ≡ self.now) }
    {
        let mut sets = Sets::new(alloc);
        for ranges in &self.rows {
            sets.push(Set::from_ranges(alloc, ranges)?)?;
        }
        Ok(sets)
    }
}

/// Returns the characters of the text as a list.
fn characters(alloc: Global, text: &str) -> Result<Vec<char>, NoMemory>
    ensures { IfOk result (λ v. v.items ≡ chars text.now) }
{
    let mut all = Vec::new(alloc);
    for c in text.chars() {
        all.push(c)?;
    }
    Ok(all)
}

/// Returns the text with these characters.
fn text(alloc: Global, characters: &[char]) -> Result<Chars, NoMemory>
    ensures { IfOk result (λ c. c ≡ characters.now) }
{
    let mut text = String::new(alloc);
    for c in characters {
        text.push(*c)?;
    }
    Chars::from_str(alloc, text.as_str())
}

impl Table<char> {
    /// Adds the text if it is new, and returns its number in the table. If memory runs out, nothing
    /// changes.
    pub fn keep(&mut self, alloc: Global, label: &Chars) -> Result<usize, NoMemory>
        ensures kept { IfOk result (λ k. Keeps self.old (label.now ∷ []) self.new) }
        ensures number { IfOk result (λ k. slice_get self.new k ≡ Some label.now) }
        ensures err { OnErr result (self.new ≡ self.old) }
    {
        self.keep_row(alloc, characters(alloc, label.as_str())?)
    }

    /// Returns all texts in the form in which a program stores them.
    pub fn labels(&self, alloc: Global) -> Result<Labels, NoMemory>
        ensures { IfOk result (λ labels. labels ≡ self.now) }
    {
        let mut labels = Labels::new(alloc);
        for characters in &self.rows {
            labels.push(text(alloc, characters)?)?;
        }
        Ok(labels)
    }
}
