// A count of the steps that runs have taken.
ghost use Rattle.std.specs.Prelude.{◌≡◌, ◌+◌, ◌<◌};

use std::marker::Model;
use std::sync::ledger::{Blank, Book, Ledger, Share};

/// The number of steps taken by the runs on this ledger. A `Steps` occupies no bytes, and only
/// `run` increases it. So if a caller passes a `&mut Steps` to a function and the count grows, the
/// steps that were counted were really taken.
#[derive(Drop)]
pub struct Steps<L: Ledger> {
    book: Book<L>,
    share: Share<L>,
}

impl<L: Ledger> Model for Steps<L> {
    ghost use Rattle.std.specs.Prelude.{ℕ, ◌<◌};

    ghost Value = { ℕ };

    ghost view = { λ s. s.book.total };

    ghost invariant = { λ s. 0 < s.share.parts };
}

impl<L: Ledger> Steps<L> {
    /// Returns a count of zero steps, on a new ledger.
    pub fn new(blank: Blank) -> Steps<L>
        requires name { blank.name ≡ L.name }
        requires parts { blank.parts ≡ L.parts }
        requires some { 0 < blank.parts }
        ensures { result ≡ 0 }
    {
        let (book, share) = blank.open();
        Steps { book, share }
    }

    /// Adds one step.
    pub(crate) fn tick(&mut self)
        ensures { self.new ≡ self.old + 1 }
    {
        self.book.add(&mut self.share, 1);
    }

    /// Adds this number of steps.
    pub(crate) fn add(&mut self, count: u64)
        ensures { self.new ≡ self.old + count }
    {
        self.book.add(&mut self.share, count);
    }
}

/// Counts one step, and returns how many steps are left.
#[inline(always)]
pub(crate) fn spend<L: Ledger>(left: u64, steps: &mut Steps<L>) -> u64
    requires { 0 < left }
    ensures left { result + 1 ≡ left }
    ensures steps { steps.new ≡ steps.old + 1 }
{
    steps.tick();
    left - 1
}
