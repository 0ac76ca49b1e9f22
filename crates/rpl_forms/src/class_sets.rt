// The sets of the last few classes, kept so that they are not built again for each use.
ghost use Rattle.std.specs.Prelude.{◌≡◌, IfOk, IfSome};
ghost use Rattle.rpl_forms.specs.Forms.{signed};
ghost use Rattle.rpl_macro.specs.Casings.{set_in};

use crate::NoMemory;
use rpl_classes::Set;
use rpl_macro::Casing;
use std::alloc::Global;
use std::cell::Cell;
use std::marker::Model;

/// The greatest number of sets that are kept. When this many sets are kept, the oldest is dropped
/// before a new set is added.
const MOST: usize = 16;

/// Builds the set of a class in the given casing. If `negated` is true, builds the complement of
/// that set instead.
fn make(alloc: Global, casing: Casing, set: &Set, negated: bool) -> Result<Set, NoMemory>
    ensures { IfOk result (λ s. s ≡ signed negated (set_in casing set.now)) }
{
    let set = casing.set(alloc, set)?;
    if negated {
        return set.complement(alloc);
    }
    Ok(set)
}

/// A class, and the set that was built from it.
#[derive(Drop)]
struct Kept {
    casing: Casing,
    /// Whether `set` is a complement.
    negated: bool,
    /// The set of the class as written, before any change of case.
    of: Set,
    set: Set,
}

impl Model for Kept {
    ghost use Rattle.std.specs.Prelude.{◌≡◌, List};
    ghost use Rattle.regex_class.specs.Ranges.{Range};
    ghost use Rattle.rpl_forms.specs.Forms.{signed};
    ghost use Rattle.rpl_macro.specs.Sets.{set_in};

    ghost Value = { List Range };

    ghost view = { λ k. k.set };

    ghost invariant = { λ k. k.set ≡ signed k.negated (set_in k.casing k.of) };
}

impl Kept {
    /// Returns a copy of the kept set, if that set was built from the given class.
    fn find(
        &self,
        alloc: Global,
        casing: Casing,
        set: &Set,
        negated: bool,
    ) -> Result<Option<Set>, NoMemory>
        ensures { IfOk result (λ o. IfSome o (λ s. s ≡ signed negated (set_in casing set.now))) }
    {
        if self.casing != casing || self.negated != negated || !self.of.same(set) {
            return Ok(None);
        }
        Ok(Some(self.set.copy(alloc)?))
    }
}

/// Returns a copy of the set that was built from the given class, if that set is kept.
fn find(
    alloc: Global,
    sets: &[Kept],
    casing: Casing,
    set: &Set,
    negated: bool,
) -> Result<Option<Set>, NoMemory>
    ensures { IfOk result (λ o. IfSome o (λ s. s ≡ signed negated (set_in casing set.now))) }
{
    for kept in sets {
        if let Some(set) = kept.find(alloc, casing, set, negated)? {
            return Ok(Some(set));
        }
    }
    Ok(None)
}

/// Appends a set to the sets that are kept. If `MOST` sets are already kept, drops the oldest.
fn keep(sets: &mut Vec<Kept>, more: Kept) -> Result<(), NoMemory> {
    if sets.len() >= MOST {
        let _oldest = sets.remove(0);
    }
    sets.push(more)?;
    Ok(())
}

/// Returns the set of a class. If the set isn't kept yet, builds it and keeps a copy.
fn find_or_make(
    alloc: Global,
    sets: &mut Vec<Kept>,
    casing: Casing,
    set: &Set,
    negated: bool,
) -> Result<Set, NoMemory>
    ensures { IfOk result (λ s. s ≡ signed negated (set_in casing set.now)) }
{
    if let Some(found) = find(alloc, sets, casing, set, negated)? {
        return Ok(found);
    }
    let made = make(alloc, casing, set, negated)?;
    let more = Kept {
        casing,
        negated,
        of: set.copy(alloc)?,
        set: made.copy(alloc)?,
    };
    keep(sets, more)?;
    Ok(made)
}

/// The sets of the last few classes. Copying a kept set allocates no memory.
#[derive(Drop)]
pub struct ClassSets {
    alloc: Global,
    sets: Cell<Vec<Kept>>,
}

impl ClassSets {
    /// Returns a `ClassSets` that keeps no sets yet.
    pub fn new(alloc: Global) -> ClassSets {
        ClassSets {
            alloc,
            sets: Cell::new(Vec::new(alloc)),
        }
    }

    /// Returns the set of a class in the given casing. If `negated` is true, the complement is
    /// taken after the change of case.
    pub fn set(&self, casing: Casing, set: &Set, negated: bool) -> Result<Set, NoMemory>
        ensures { IfOk result (λ s. s ≡ signed negated (set_in casing set.now)) }
    {
        if casing == Casing::Plain && !negated {
            return set.copy(self.alloc);
        }
        let mut sets = self.sets.replace(Vec::new(self.alloc));
        let found = find_or_make(self.alloc, &mut sets, casing, set, negated);
        self.sets.set(sets);
        found
    }
}
