// The named sets that a text uses, kept so that they are not built again for each use.
ghost use Rattle.std.specs.Prelude.{◌≡◌, IfOk, IfSome, Some, chars};
ghost use Rattle.rpl_classes.specs.inside.Signed.{signed_named};
ghost use Rattle.rpl_classes.specs.Faults.{IsNamed};

use crate::NoMemory;
use crate::brackets::signed_set;
use crate::fault::SetFault;
use crate::set::Set;
use rpl_text::Chars;
use std::alloc::Global;
use std::marker::Model;

/// The greatest number of sets that are kept. If this many sets are kept when another one is added,
/// all kept sets are dropped first.
const MOST: usize = 64;

/// A named set, or the complement of one.
#[derive(Drop)]
struct Kept {
    name: Chars,
    /// Whether `set` is the complement of the named set.
    negated: bool,
    set: Set,
}

impl Model for Kept {
    ghost use Rattle.std.specs.Prelude.{◌≡◌, List, Some};
    ghost use Rattle.regex_class.specs.Ranges.{Range};
    ghost use Rattle.rpl_classes.specs.inside.Signed.{signed_named};

    ghost Value = { List Range };

    ghost view = { λ k. k.set };

    ghost invariant = { λ k. signed_named k.negated k.name ≡ Some k.set };
}

impl Kept {
    /// Returns a copy of the set if it was kept for this name and this value of `negated`.
    fn find(&self, alloc: Global, negated: bool, name: &str) -> Result<Option<Set>, NoMemory>
        ensures { IfOk result (λ o. IfSome o (λ s. signed_named negated (chars name.now) ≡ Some s)) }
    {
        if self.negated != negated || self.name.as_str() != name {
            return Ok(None);
        }
        Ok(Some(self.set.copy(alloc)?))
    }
}

/// Returns the set with this name, or its complement if `negated` is true.
fn named(alloc: Global, negated: bool, name: &str) -> Result<Set, SetFault>
    ensures { IsNamed (signed_named negated (chars name.now)) result }
{
    let set = Set::named(alloc, name)?;
    Ok(signed_set(alloc, negated, set)?)
}

/// The sets of the last few names that were looked up. A set that is found here is copied, which
/// usually allocates no memory.
///
/// # Examples
///
/// ```
/// use rpl_classes::{NamedSets, read_bracket_with};
/// let mut sets = NamedSets::new(alloc);
/// let hexadecimal = read_bracket_with(alloc, &mut sets, "[[:digit:] [a-f]]")?.set;
/// let digits = read_bracket_with(alloc, &mut sets, "[:digit:]")?.set;
/// assert!(rt; hexadecimal.has('c') && hexadecimal.has('7') && !hexadecimal.has('g'));
/// assert!(rt; digits.ranges() == [(0x30, 0x39)].as_slice());
/// ```
#[derive(Drop)]
pub struct NamedSets {
    alloc: Global,
    sets: Vec<Kept>,
}

impl NamedSets {
    /// Returns a `NamedSets` that keeps no sets yet.
    pub fn new(alloc: Global) -> NamedSets {
        NamedSets {
            alloc,
            sets: Vec::new(alloc),
        }
    }

    /// Looks up the set with this name, or its complement if `negated` is true, among the kept
    /// sets.
    fn find(&self, negated: bool, name: &str) -> Result<Option<Set>, NoMemory>
        ensures { IfOk result (λ o. IfSome o (λ s. signed_named negated (chars name.now) ≡ Some s)) }
    {
        for kept in &self.sets {
            if let Some(set) = kept.find(self.alloc, negated, name)? {
                return Ok(Some(set));
            }
        }
        Ok(None)
    }

    /// Keeps a set for later lookups of its name.
    fn keep(&mut self, negated: bool, name: &str, set: &Set) -> Result<(), NoMemory>
        requires { signed_named negated (chars name.now) ≡ Some set.now }
    {
        if self.sets.len() >= MOST {
            self.sets.clear();
        }
        let kept = Kept {
            name: Chars::from_str(self.alloc, name)?,
            negated,
            set: set.copy(self.alloc)?,
        };
        self.sets.push(kept)?;
        Ok(())
    }

    /// Returns the set with this name, or its complement if `negated` is true. Returns
    /// `UnknownClass` with `at` 0 exactly when there is no such set.
    pub(crate) fn named(&mut self, negated: bool, name: &str) -> Result<Set, SetFault>
        ensures { IsNamed (signed_named negated (chars name.now)) result }
    {
        if let Some(set) = self.find(negated, name)? {
            return Ok(set);
        }
        let set = named(self.alloc, negated, name)?;
        self.keep(negated, name, &set)?;
        Ok(set)
    }
}
