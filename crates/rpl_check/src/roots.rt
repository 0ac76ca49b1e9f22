// Rules on cycles: those that are reached from the root of their component and that reach the root.
//
// Each rule of a component is visited once in an order down from the root, and once in an order up
// to the root. The marks are correct for every order and for any roots.
ghost use Rattle.std.specs.Prelude.{◌≡◌, ◌-◌, ◌<◌, ◌≤◌, ◌⊎◌, ℕ, false, slice_index_or, true};
ghost use Rattle.rpl_check.specs.inside.Rings.{AreAbove, AreBelow};
ghost use Rattle.rpl_check.specs.inside.Search.{AreLeft};
ghost use Rattle.rpl_core.specs.Marks.{marked};

use crate::NoMemory;
use crate::ranks::Components;
use crate::recursion::Block;
use rpl_facts::is_marked;
use std::alloc::Global;

/// Returns whether the rule at `place` is the root of its component.
fn is_root(roots: &[u32], place: u32) -> bool
    ensures { result ≡ true → slice_index_or roots.now place 0 ≡ place }
{
    match roots.get(place as usize) {
        Some(root) => *root == place,
        None => false,
    }
}

impl Block<'_> {
    ghost use Rattle.rpl_check.specs.inside.Within.{IsLong, Stands, empty_in, table_of};

    /// Returns whether the rule is in the block and the root of its component is at the place
    /// `root`.
    fn has_root(&self, roots: &[u32], rule: u32, root: u32) -> bool
        ensures { result ≡ true → (self.now.start ≤ rule) × (rule < self.now.end)
            × (slice_index_or roots.now (rule - self.now.start) 0 ≡ root) }
    {
        if rule < self.start || rule >= self.end {
            return false;
        }
        match roots.get((rule - self.start) as usize) {
            Some(found) => *found == root,
            None => false,
        }
    }

    /// Returns whether the rule is in the block, has its root at the place `root`, and is either
    /// the root itself or already marked.
    fn is_above(&self, roots: &[u32], rule: u32, root: u32, above: &[bool]) -> bool
        ensures { result ≡ true → (self.now.start ≤ rule)
            × (slice_index_or roots.now (rule - self.now.start) 0 ≡ root)
            × ((rule - self.now.start ≡ root)
            ⊎ (marked above.now (rule - self.now.start) ≡ true)) }
    {
        if !self.has_root(roots, rule, root) {
            return false;
        }
        let place = rule - self.start;
        place == root || is_marked(above, place)
    }

    /// If the rule at `place` is a root or is already marked, marks the rules of its component that
    /// it calls.
    fn mark_below(
        &self,
        alloc: Global,
        roots: &[u32],
        place: u32,
        below: &mut [bool],
    ) -> Result<(), NoMemory>
        requires block { Stands self.now }
        requires long { IsLong self.now below.old }
        requires below { AreBelow (table_of self.now) (empty_in self.now) self.now.start roots.now
            below.old }
        ensures long { IsLong self.now below.new }
        ensures below { AreBelow (table_of self.now) (empty_in self.now) self.now.start roots.now
            below.new }
    {
        let at = place as usize;
        if at >= below.len() || at >= roots.len() || !(place == roots[at] || below[at]) {
            return Ok(());
        }
        let root = roots[at];
        let mut list = Vec::new(alloc);
        self.list_calls_of(place, &mut list)?;
        for rule in &list {
            if self.has_root(roots, *rule, root) {
                below[(*rule - self.start) as usize] = true;
            }
        }
        Ok(())
    }

    /// Marks the rule at `place` if it calls its root or a marked rule of its component.
    fn mark_above(
        &self,
        alloc: Global,
        roots: &[u32],
        place: u32,
        above: &mut [bool],
    ) -> Result<(), NoMemory>
        requires block { Stands self.now }
        requires long { IsLong self.now above.old }
        requires above { AreAbove (table_of self.now) (empty_in self.now) self.now.start roots.now
            above.old }
        ensures long { IsLong self.now above.new }
        ensures above { AreAbove (table_of self.now) (empty_in self.now) self.now.start roots.now
            above.new }
    {
        let at = place as usize;
        if at >= above.len() || at >= roots.len() {
            return Ok(());
        }
        let root = roots[at];
        let mut list = Vec::new(alloc);
        self.list_calls_of(place, &mut list)?;
        for rule in &list {
            if self.is_above(roots, *rule, root, above) {
                above[at] = true;
                return Ok(());
            }
        }
        Ok(())
    }

    /// Visits the places in `order`, and marks only rules that are reached from the root of their
    /// component.
    fn mark_all_below(
        &self,
        alloc: Global,
        roots: &[u32],
        order: &[u32],
        below: &mut [bool],
    ) -> Result<(), NoMemory>
        requires block { Stands self.now }
        requires long { IsLong self.now below.old }
        requires none { (r : ℕ) → marked below.old r ≡ false }
        ensures long { IsLong self.now below.new }
        ensures below { AreBelow (table_of self.now) (empty_in self.now) self.now.start roots.now
            below.new }
    {
        for place in order {
            self.mark_below(alloc, roots, *place, below)?;
        }
        Ok(())
    }

    /// Visits the places in `order`, and marks rules that reach the root of their component.
    fn mark_all_above(
        &self,
        alloc: Global,
        roots: &[u32],
        order: &[u32],
        above: &mut [bool],
    ) -> Result<(), NoMemory>
        requires block { Stands self.now }
        requires long { IsLong self.now above.old }
        requires none { (r : ℕ) → marked above.old r ≡ false }
        ensures long { IsLong self.now above.new }
        ensures above { AreAbove (table_of self.now) (empty_in self.now) self.now.start roots.now
            above.new }
    {
        for place in order {
            self.mark_above(alloc, roots, *place, above)?;
        }
        Ok(())
    }

    /// Marks each rule that is reached from its root and that reaches the root or is the root
    /// itself.
    fn mark_both(&self, roots: &[u32], below: &[bool], above: &[bool], left: &mut [bool])
        requires block { Stands self.now }
        requires below_long { IsLong self.now below.now }
        requires below { AreBelow (table_of self.now) (empty_in self.now) self.now.start roots.now
            below.now }
        requires above_long { IsLong self.now above.now }
        requires above { AreAbove (table_of self.now) (empty_in self.now) self.now.start roots.now
            above.now }
        requires left_long { IsLong self.now left.old }
        requires left { AreLeft (table_of self.now) (empty_in self.now) self.now.start left.old }
        ensures long { IsLong self.now left.new }
        ensures left { AreLeft (table_of self.now) (empty_in self.now) self.now.start left.new }
    {
        for place in 0..self.end - self.start {
            let at = place as usize;
            if below[at] && (above[at] || is_root(roots, place)) {
                left[at] = true;
            }
        }
    }

    /// Marks rules that are on cycles, without a search.
    pub(crate) fn mark_rings(
        &self,
        alloc: Global,
        found: &Components,
        left: &mut [bool],
    ) -> Result<(), NoMemory>
        requires block { Stands self.now }
        requires long { IsLong self.now left.old }
        requires left { AreLeft (table_of self.now) (empty_in self.now) self.now.start left.old }
        ensures long { IsLong self.now left.new }
        ensures left { AreLeft (table_of self.now) (empty_in self.now) self.now.start left.new }
    {
        let mut below = vec![in alloc; false; (self.end - self.start) as usize]?;
        self.mark_all_below(alloc, &found.roots, &found.down, &mut below)?;
        let mut above = vec![in alloc; false; (self.end - self.start) as usize]?;
        self.mark_all_above(alloc, &found.roots, &found.up, &mut above)?;
        self.mark_both(&found.roots, &below, &above, left);
        Ok(())
    }
}
