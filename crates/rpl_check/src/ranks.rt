// The ranks of rules. If no rule of the block calls a rule of a higher rank, a rule that calls only
// rules of lower ranks is on no cycle. The ranks are the numbers of strongly connected components,
// found by Kosaraju's two passes (Sharir 1981).
//
// Only the running time depends on the components: `falls` checks the ranks, and if the check
// fails, no rule is marked because of its rank. The results that `roots.rt` derives from the roots
// are correct for any roots.
ghost use Rattle.std.specs.Prelude.{◌≡◌, ◌+◌, ◌-◌, ◌<◌, ◌≤◌, ℕ, IfOk, true};
ghost use Rattle.rpl_facts.specs.Facts.{calls_at};
ghost use Rattle.rpl_check.specs.inside.Ranks.{Falls, rank_of};
ghost use Rattle.rpl_check.specs.inside.Search.{AreClean};
ghost use Rattle.rpl_core.specs.Marks.{waits};

use crate::NoMemory;
use crate::recursion::Block;
use std::alloc::Global;

/// Returns the places that each place calls, given the places that call each place.
fn calls_of(alloc: Global, callers: &[Vec<u32>]) -> Result<Vec<Vec<u32>>, NoMemory> {
    let mut calls = Vec::new(alloc);
    for _ in 0..callers.len() {
        calls.push(Vec::new(alloc))?;
    }
    let mut place: u32 = 0;
    for those in callers {
        add_callee(&mut calls, those, place)?;
        place = place.saturating_add(1);
    }
    Ok(calls)
}

/// Adds `place` to the calls of each place in `those`.
fn add_callee(calls: &mut [Vec<u32>], those: &[u32], place: u32) -> Result<(), NoMemory> {
    for caller in those {
        let at = *caller as usize;
        if at < calls.len() {
            calls[at].push(place)?;
        }
    }
    Ok(())
}

/// A depth-first walk from callee to caller: the places visited, the order of visits, the current
/// path with the number of callers tried at each place, and the finished places, each listed after
/// all places that were first visited from it.
#[derive(Drop)]
struct Walk {
    met: Vec<bool>,
    up: Vec<u32>,
    way: Vec<(u32, usize)>,
    left: Vec<u32>,
}

impl Walk {
    /// Moves to `place`, if it has not been visited yet.
    fn meet(&mut self, place: u32) -> Result<(), NoMemory> {
        let at = place as usize;
        if at < self.met.len() && !self.met[at] {
            self.met[at] = true;
            self.up.push(place)?;
            self.way.push((place, 0))?;
        }
        Ok(())
    }

    /// Takes the next step of the walk, if there is one. Returns whether a step was taken.
    fn step(&mut self, callers: &[Vec<u32>]) -> Result<bool, NoMemory> {
        let Some((place, tried)) = self.way.pop() else {
            return Ok(false);
        };
        let at = place as usize;
        if at < callers.len() && tried < callers[at].len() {
            self.way.push((place, tried + 1))?;
            self.meet(callers[at][tried])?;
        } else {
            self.left.push(place)?;
        }
        Ok(true)
    }

    /// Walks from `place` as far as possible, in at most `steps` steps.
    fn walk(&mut self, callers: &[Vec<u32>], place: u32, steps: usize) -> Result<(), NoMemory> {
        self.meet(place)?;
        for _ in 0..steps {
            if !self.step(callers)? {
                break;
            }
        }
        Ok(())
    }
}

/// Walks over all places.
fn walk_all(alloc: Global, callers: &[Vec<u32>]) -> Result<Walk, NoMemory> {
    let mut steps = callers.len();
    for those in callers {
        steps = steps.saturating_add(those.len());
    }
    let mut walk = Walk {
        met: vec![in alloc; false; callers.len()]?,
        up: Vec::new(alloc),
        way: Vec::new(alloc),
        left: Vec::new(alloc),
    };
    let mut place: u32 = 0;
    for _ in 0..callers.len() {
        walk.walk(callers, place, steps.saturating_add(1))?;
        place = place.saturating_add(1);
    }
    Ok(walk)
}

/// The strongly connected components of the places of a block: the rank of each place, the root of
/// its component, and all places in two orders. In `down`, each place that isn't a root comes after
/// its root and after a place of its component that calls it; in `up`, it comes after its root and
/// after a place of its component that it calls.
#[derive(Drop)]
pub(crate) struct Components {
    pub(crate) ranks: Vec<u32>,
    pub(crate) roots: Vec<u32>,
    pub(crate) down: Vec<u32>,
    pub(crate) up: Vec<u32>,
}

impl Components {
    /// Assigns `rank` and `root` to `place`, if it has no rank yet.
    fn give(&mut self, place: u32, rank: u32, root: u32) -> Result<(), NoMemory> {
        let at = place as usize;
        if at < self.ranks.len() && at < self.roots.len() && self.ranks[at] == 0 {
            self.ranks[at] = rank;
            self.roots[at] = root;
            self.down.push(place)?;
        }
        Ok(())
    }

    /// Assigns `rank` and `root` to each place in `those` that has no rank yet.
    fn give_each(&mut self, those: &[u32], rank: u32, root: u32) -> Result<(), NoMemory> {
        for place in those {
            self.give(*place, rank, root)?;
        }
        Ok(())
    }

    /// Assigns `rank` and `root` to the place `root` itself, and to each place that has no rank yet
    /// and that the root reaches by calls.
    fn give_all(&mut self, calls: &[Vec<u32>], rank: u32, root: u32) -> Result<(), NoMemory> {
        let first = self.down.len();
        self.give(root, rank, root)?;
        for at in first..calls.len() {
            if at >= self.down.len() {
                break;
            }
            let next = self.down[at] as usize;
            if next < calls.len() {
                self.give_each(&calls[next], rank, root)?;
            }
        }
        Ok(())
    }
}

/// Returns the components of places, given the callers of each place. Places on the same cycle have
/// the same rank, and every call that is on no cycle leads to a lower rank.
pub(crate) fn find_components(alloc: Global, callers: &[Vec<u32>]) -> Result<Components, NoMemory> {
    let calls = calls_of(alloc, callers)?;
    let Walk { up, left, .. } = walk_all(alloc, callers)?;
    let mut found = Components {
        ranks: vec![in alloc; 0; callers.len()]?,
        roots: vec![in alloc; 0; callers.len()]?,
        down: Vec::new(alloc),
        up,
    };
    let mut rank: u32 = 0;
    for number in 0..left.len() {
        rank = rank.saturating_add(1);
        found.give_all(&calls, rank, left[left.len() - 1 - number])?;
    }
    Ok(found)
}

impl Block<'_> {
    ghost use Rattle.rpl_check.specs.inside.Within.{IsLong, Stands, empty_in, table_of};

    /// Returns the rank of a rule: one more than its entry in `ranks`, or 0 if the rule is before
    /// the block.
    fn rank(&self, ranks: &[u32], rule: u32) -> u64
        ensures { result ≡ rank_of self.now.start ranks.now rule }
    {
        if rule < self.start {
            return 0;
        }
        match ranks.get((rule - self.start) as usize) {
            Some(rank) => *rank as u64 + 1,
            None => 1,
        }
    }

    /// Returns the highest rank of the rules in `rules`, or 0 if there are none.
    fn highest(&self, ranks: &[u32], rules: &[u32]) -> u64
        ensures { (t : ℕ) → waits rules.now t ≡ true → rank_of self.now.start ranks.now t ≤ result }
    {
        let mut highest = 0;
        for rule in rules {
            highest = self.rank(ranks, *rule).max(highest);
        }
        highest
    }

    /// Returns the highest rank among the rules that the rule at `place` calls before it takes a
    /// character, or 0 if it calls none.
    fn highest_call(&self, alloc: Global, ranks: &[u32], place: u32) -> Result<u64, NoMemory>
        requires block { Stands self.now }
        requires inside { place < self.now.end - self.now.start }
        ensures { IfOk result (λ n. (t : ℕ) →
            calls_at (empty_in self.now) (table_of self.now) (self.now.start + place) t ≡ true →
            rank_of self.now.start ranks.now t ≤ n) }
    {
        let mut list = Vec::new(alloc);
        self.list_calls_of(place, &mut list)?;
        Ok(self.highest(ranks, &list))
    }

    /// Returns whether the rule at `place` calls no rule of a higher rank.
    fn falls_at(&self, alloc: Global, ranks: &[u32], place: u32) -> Result<bool, NoMemory>
        requires block { Stands self.now }
        requires inside { place < self.now.end - self.now.start }
        ensures { IfOk result (λ b. b ≡ true → (t : ℕ) →
            calls_at (empty_in self.now) (table_of self.now) (self.now.start + place) t ≡ true →
            rank_of self.now.start ranks.now t
            ≤ rank_of self.now.start ranks.now (self.now.start + place)) }
    {
        let highest = self.highest_call(alloc, ranks, place)?;
        Ok(highest <= self.rank(ranks, self.start + place))
    }

    /// Returns whether no rule of the block calls a rule of a higher rank.
    fn falls(&self, alloc: Global, ranks: &[u32]) -> Result<bool, NoMemory>
        requires { Stands self.now }
        ensures { IfOk result (λ b. b ≡ true →
            Falls (table_of self.now) (empty_in self.now) self.now.start self.now.end ranks.now) }
    {
        for place in 0..self.end - self.start {
            if !self.falls_at(alloc, ranks, place)? {
                return Ok(false);
            }
        }
        Ok(true)
    }

    /// Marks the rule at `place` if it calls only rules of lower ranks.
    fn mark_if_alone(
        &self,
        alloc: Global,
        ranks: &[u32],
        place: u32,
        clean: &mut [bool],
    ) -> Result<(), NoMemory>
        requires block { Stands self.now }
        requires inside { place < self.now.end - self.now.start }
        requires falls { Falls (table_of self.now) (empty_in self.now) self.now.start self.now.end
            ranks.now }
        requires long { IsLong self.now clean.old }
        requires clean { AreClean (table_of self.now) (empty_in self.now) self.now.start clean.old }
        ensures long { IsLong self.now clean.new }
        ensures clean { AreClean (table_of self.now) (empty_in self.now) self.now.start clean.new }
    {
        if clean[place as usize] {
            return Ok(());
        }
        let highest = self.highest_call(alloc, ranks, place)?;
        if highest < self.rank(ranks, self.start + place) {
            clean[place as usize] = true;
        }
        Ok(())
    }

    /// If no rule of the block calls a rule of a higher rank, marks each rule that calls only rules
    /// of lower ranks; otherwise marks nothing.
    pub(crate) fn mark_alone(
        &self,
        alloc: Global,
        ranks: &[u32],
        clean: &mut [bool],
    ) -> Result<(), NoMemory>
        requires block { Stands self.now }
        requires long { IsLong self.now clean.old }
        requires clean { AreClean (table_of self.now) (empty_in self.now) self.now.start clean.old }
        ensures long { IsLong self.now clean.new }
        ensures clean { AreClean (table_of self.now) (empty_in self.now) self.now.start clean.new }
    {
        if !self.falls(alloc, ranks)? {
            return Ok(());
        }
        for place in 0..self.end - self.start {
            self.mark_if_alone(alloc, ranks, place, clean)?;
        }
        Ok(())
    }
}
