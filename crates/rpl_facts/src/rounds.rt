// The rules for which a fact holds, determined block by block.
ghost use Rattle.std.specs.Prelude.{◌≡◌, ℕ, ◌<◌, false, true, length, slice_get, IfOk, OnOk};
ghost use Rattle.rpl_core.specs.Listed.{blocks_in, bodies_in, rules_of};
ghost use Rattle.rpl_facts.specs.Facts.{IsLeast, Solves, passes};
ghost use Rattle.rpl_core.specs.Marks.{count, marked};
ghost use Rattle.rpl_core.specs.Order.{IsInOrder};
ghost use Rattle.rpl_facts.specs.inside.Rounds.{Adds, AreSome, IsWithin};
ghost use Rattle.rpl_facts.specs.inside.Rounds.{AreKnown, IsSettled};
ghost use Rattle.rpl_facts.specs.Groups.{CallsBefore};
ghost use Rattle.rpl_facts.specs.Tests.{test_of};

use crate::NoMemory;
use crate::facts::{Fact, rule_holds};
use crate::gates::turns;
use crate::group::{Group, group_end};
use rpl_core::Rules;
use std::alloc::Global;

/// Returns whether the fact holds for the rule but the rule isn't marked yet.
fn is_new(rules: &Rules, number: u32, fact: Fact, marks: &[bool]) -> bool
    requires { number < length marks.now }
    ensures new { result ≡ true → (marked marks.now number ≡ false)
        × (passes (test_of fact (marked marks.now)) (slice_get (bodies_in rules.now) number)
        ≡ true) }
    ensures old { result ≡ false →
        passes (test_of fact (marked marks.now)) (slice_get (bodies_in rules.now) number) ≡ true →
        marked marks.now number ≡ true }
{
    if marks[number as usize] {
        false
    } else {
        rule_holds(rules, number, fact, marks)
    }
}

/// Makes one round over the rules of a block, from the last to the first. Returns whether the round
/// marked a rule.
fn round(group: &Group, fact: Fact, marks: &mut [bool]) -> bool
    requires within { IsWithin group.now }
    requires some { AreSome fact group.now marks.old }
    ensures adds { Adds fact group.now marks.old marks.new }
    ensures quiet { result ≡ false → (marks.new ≡ marks.old)
        × IsSettled (test_of fact) (bodies_in group.now.rules.now) (marked marks.new)
        group.now.start
        group.now.end }
    ensures found { result ≡ true →
        count (marked marks.old) (length marks.old) < count (marked marks.new) (length marks.old) }
{
    let mut found = false;
    let mut number = group.end;
    while group.start < number {
        number -= 1;
        if is_new(group.rules, number, fact, marks) {
            marks[number as usize] = true;
            found = true;
        }
    }
    found
}

/// Marks the rule at `place` in the block if the fact holds for the rule and the rule isn't marked
/// yet.
fn mark_if_new(group: &Group, place: u32, fact: Fact, marks: &mut [bool])
    requires within { IsWithin group.now }
    requires some { AreSome fact group.now marks.old }
    ensures { Adds fact group.now marks.old marks.new }
{
    if place >= group.end - group.start {
        return;
    }
    let number = group.start + place;
    if is_new(group.rules, number, fact, marks) {
        marks[number as usize] = true;
    }
}

/// Visits the rules in the order in which `order` lists them, and marks each rule for which the
/// fact holds.
fn mark_in_turn(group: &Group, order: &[u32], fact: Fact, marks: &mut [bool])
    requires within { IsWithin group.now }
    requires some { AreSome fact group.now marks.old }
    ensures { Adds fact group.now marks.old marks.new }
{
    for place in order {
        mark_if_new(group, *place, fact, marks);
    }
}

/// Marks rules of a block for which the fact holds, each of them after the rules on which its mark
/// depends. Does nothing for a group of one rule, which needs no order.
fn mark_most(alloc: Global, group: &Group, fact: Fact, marks: &mut [bool]) -> Result<(), NoMemory>
    requires within { IsWithin group.now }
    requires some { AreSome fact group.now marks.old }
    ensures { OnOk result (Adds fact group.now marks.old marks.new) }
{
    if group.end - group.start > 1 {
        let order = turns(alloc, group, fact, marks)?;
        mark_in_turn(group, &order, fact, marks);
    }
    Ok(())
}

/// Marks the rules of a block for which the fact holds: first in order, then in rounds until a
/// round marks nothing. Usually the first round already marks nothing.
fn close(alloc: Global, group: &Group, fact: Fact, marks: &mut [bool]) -> Result<(), NoMemory>
    requires within { IsWithin group.now }
    requires earlier { CallsBefore (bodies_in group.now.rules.now) group.now.start }
    requires known { AreKnown (test_of fact) (bodies_in group.now.rules.now) marks.old
        group.now.start }
    ensures { OnOk result (AreKnown (test_of fact) (bodies_in group.now.rules.now) marks.new
        group.now.end) }
{
    mark_most(alloc, group, fact, marks)?;
    while round(group, fact, marks) {}
    Ok(())
}

/// Marks all rules for which the fact holds.
fn close_all(alloc: Global, rules: &Rules, fact: Fact, marks: &mut [bool]) -> Result<(), NoMemory>
    requires order { IsInOrder (bodies_in rules.now) (blocks_in rules.now) }
    requires long { length marks.old ≡ length (rules_of rules.now) }
    requires none { (r : ℕ) → marked marks.old r ≡ false }
    ensures { OnOk result (IsLeast (Solves (test_of fact) (bodies_in rules.now))
        (marked marks.new)) }
{
    let mut start = 0;
    while (start as usize) < rules.len() {
        let end = group_end(rules, start);
        let group = Group { rules, start, end };
        close(alloc, &group, fact, marks)?;
        start = end;
    }
    Ok(())
}

/// Returns, for each rule of the table, whether the fact holds for it. The only error is that
/// memory runs out.
pub fn work_out(alloc: Global, rules: &Rules, fact: Fact) -> Result<Vec<bool>, NoMemory>
    requires { IsInOrder (bodies_in rules.now) (blocks_in rules.now) }
    ensures { IfOk result (λ marks. IsLeast (Solves (test_of fact) (bodies_in rules.now))
        (marked marks.items)) }
{
    let mut marks = vec![in alloc; false; rules.len()]?;
    close_all(alloc, rules, fact, &mut marks)?;
    Ok(marks)
}
