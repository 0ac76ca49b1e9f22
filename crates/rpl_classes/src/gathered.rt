// Ranges that are gathered from many sets and become one set in the end.
ghost use Rattle.std.specs.Prelude.{◌≡◌, ◌++◌, [], IfOk, IsTrue, List, OnOk};
ghost use Rattle.regex_class.specs.Ranges.{Range};
ghost use Rattle.rpl_classes.specs.Norm.{norm};

use crate::NoMemory;
use crate::set::Set;
use regex_class::ClassRange;
use std::alloc::Global;
use std::marker::Model;

/// Returns whether both lists have the same ranges in the same order. The loop does not branch for
/// each range, so that the compiled code can compare several ranges at once. Speed matters here,
/// since a text can contain the same class a hundred thousand times.
fn are_same(a: &[ClassRange], b: &[ClassRange]) -> bool
    ensures { IsTrue result → a.now ≡ b.now }
{
    if a.len() != b.len() {
        return false;
    }
    let mut difference = 0;
    for index in 0..a.len() {
        difference |= (a[index].0 ^ b[index].0) | (a[index].1 ^ b[index].1);
    }
    difference == 0
}

/// Returns the normal form of the ranges.
fn normal(alloc: Global, ranges: &[ClassRange]) -> Result<Vec<ClassRange>, NoMemory>
    ensures { IfOk result (λ v. v.items ≡ norm ranges.now) }
{
    let set = Set::from_ranges(alloc, ranges)?;
    Ok(Vec::from_slice(alloc, set.ranges())?)
}

/// The ranges of all sets added so far. Contracts see them in the order in which they are kept;
/// only their normal form matters.
#[derive(Drop)]
pub(crate) struct Gathered {
    ranges: Vec<ClassRange>,

    /// The number of ranges after they were last put into normal form, or 0 if they never were.
    normal: usize,
}

impl Model for Gathered {
    ghost use Rattle.std.specs.Prelude.{List};
    ghost use Rattle.regex_class.specs.Ranges.{Range};

    ghost Value = { List Range };

    ghost view = { λ g. g.ranges.items };
}

impl Gathered {
    /// Returns an empty list of ranges.
    pub(crate) fn new(alloc: Global) -> Gathered
        ensures { result ≡ [] }
    {
        Gathered {
            ranges: Vec::new(alloc),
            normal: 0,
        }
    }

    /// Adds the ranges in `more`, unless the gathered ranges already end with them.
    pub(crate) fn add(&mut self, alloc: Global, more: &[ClassRange]) -> Result<(), NoMemory>
        ensures { OnOk result (norm self.new ≡ norm (self.old ++ more.now)) }
    {
        if self.ends_with(more) {
            return Ok(());
        }
        self.join(alloc)?;
        self.ranges.extend_from_slice(more)?;
        Ok(())
    }

    /// Returns whether the gathered ranges end with those in `more`.
    fn ends_with(&self, more: &[ClassRange]) -> bool
        ensures { IsTrue result → (front : List Range) × (self.now ≡ front ++ more.now) }
    {
        let count = self.ranges.len();
        if count < more.len() {
            return false;
        }
        let (_, end) = self.ranges.split_at(count - more.len());
        are_same(end, more)
    }

    /// Puts the ranges into normal form if half their number, rounded down, exceeds both 512 and
    /// `normal`. Many overlapping sets thus take no more memory than a few sets.
    #[tactic(auto, using(crate::proofs::Gathering::norm_same))]
    fn join(&mut self, alloc: Global) -> Result<(), NoMemory>
        ensures { OnOk result (norm self.new ≡ norm self.old) }
    {
        if self.ranges.len() / 2 > self.normal.max(512) {
            self.ranges = normal(alloc, &self.ranges)?;
            self.normal = self.ranges.len();
        }
        Ok(())
    }

    /// Returns whether there are no ranges.
    pub(crate) fn is_empty(&self) -> bool
        ensures { IsTrue result → self.now ≡ [] }
    {
        self.ranges.is_empty()
    }

    /// Returns whether `other` has the same ranges in the same order.
    pub(crate) fn same(&self, other: &Gathered) -> bool
        ensures { IsTrue result → self.now ≡ other.now }
    {
        are_same(&self.ranges, &other.ranges)
    }

    /// Returns the ranges.
    pub(crate) fn ranges(&self) -> &[ClassRange]
        ensures { result.now ≡ self.now }
    {
        &self.ranges
    }

    /// Returns the set of the characters in the ranges.
    pub(crate) fn set(&self, alloc: Global) -> Result<Set, NoMemory>
        ensures { IfOk result (λ s. s ≡ norm self.now) }
    {
        Set::from_ranges(alloc, &self.ranges)
    }
}
