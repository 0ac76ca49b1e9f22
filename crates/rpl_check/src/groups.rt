// The first fault of a table.
ghost use Rattle.std.specs.Prelude.{◌≡◌, ◌-◌, ◌<◌, ◌≤◌, length, option_and_then, slice_get};
ghost use Rattle.rpl_core.specs.Listed.{blocks_in, bodies_in, rules_of};
ghost use Rattle.rpl_check.specs.Answers.{Answers, some_cause};
ghost use Rattle.rpl_facts.specs.Facts.{passes};
ghost use Rattle.rpl_check.specs.Blocks.{group_fault, recursion_of, selves, table_fault};
ghost use Rattle.rpl_check.specs.Causes as T;
ghost use Rattle.rpl_check.specs.Faults.{behind_at, first_from, halt_at, has_halt_inside, loop_at};
ghost use Rattle.rpl_check.specs.Loops.{has_empty_loop};
ghost use Rattle.rpl_core.specs.Marks.{marked};
ghost use Rattle.rpl_core.specs.Order.{IsInOrder};
ghost use Rattle.rpl_facts.specs.Groups.{CallsBefore};
ghost use Rattle.rpl_check.specs.inside.Reach.{OverReach};

use crate::NoMemory;
use crate::behinds::first_cause;
use crate::fault::{BehindCause, CheckFault};
use crate::inside::{has_empty_loop, predicates_stay};
use crate::recursion::Block;
use rpl_core::{Rules, is_outside};
use rpl_facts::{Group, group_end};
use std::alloc::Global;

/// Returns the fault of the first bad look-behind in the rule.
fn cause_at(rules: &Rules, number: u32) -> Option<BehindCause>
    ensures { some_cause result ≡
        option_and_then T.first_cause (slice_get (bodies_in rules.now) number) }
{
    match rules.get(number) {
        Some(rule) => first_cause(&rule.body),
        None => None,
    }
}

/// Returns whether the rule repeats a body that may be empty.
fn has_loop_at(rules: &Rules, number: u32, empties: &[bool]) -> bool
    ensures { result ≡ passes (has_empty_loop (marked empties.now))
        (slice_get (bodies_in rules.now) number) }
{
    match rules.get(number) {
        Some(rule) => has_empty_loop(&rule.body, empties),
        None => false,
    }
}

/// Returns whether the rule contains a predicate that may halt.
fn has_halt_at(rules: &Rules, number: u32, halting: &[bool]) -> bool
    ensures { result ≡ passes (has_halt_inside (marked halting.now))
        (slice_get (bodies_in rules.now) number) }
{
    match rules.get(number) {
        Some(rule) => !predicates_stay(&rule.body, halting),
        None => false,
    }
}

/// Checks that the rule has no bad look-behind.
fn check_behind(rules: &Rules, number: u32) -> Result<(), CheckFault>
    ensures { Answers (behind_at (bodies_in rules.now) number) result }
{
    match cause_at(rules, number) {
        Some(cause) => Err(CheckFault::LookBehind {
            rule: Some(number),
            cause,
        }),
        None => Ok(()),
    }
}

/// Checks that the rule has no empty loop.
fn check_loop(rules: &Rules, number: u32, empties: &[bool]) -> Result<(), CheckFault>
    ensures { Answers (loop_at (marked empties.now) (bodies_in rules.now) number) result }
{
    if has_loop_at(rules, number, empties) {
        return Err(CheckFault::EmptyLoop { rule: Some(number) });
    }
    Ok(())
}

/// Checks that the rule has no halt under a predicate.
fn check_halt(rules: &Rules, number: u32, halting: &[bool]) -> Result<(), CheckFault>
    ensures { Answers (halt_at (marked halting.now) (bodies_in rules.now) number) result }
{
    if has_halt_at(rules, number, halting) {
        return Err(CheckFault::HaltInside { rule: Some(number) });
    }
    Ok(())
}

/// Checks that no rule of the block has a bad look-behind.
fn check_behinds(group: &Group) -> Result<(), CheckFault>
    requires { group.now.start ≤ group.now.end }
    ensures { Answers (first_from (behind_at (bodies_in group.now.rules.now)) group.now.start
        (group.now.end - group.now.start)) result }
{
    for number in group.start..group.end {
        check_behind(group.rules, number)?;
    }
    Ok(())
}

/// Checks that no rule of the block reaches itself before it takes a character. A rule outside
/// blocks calls only earlier rules, so it never reaches itself.
fn check_recursion(alloc: Global, group: &Group, empties: &[bool]) -> Result<(), CheckFault>
    requires within { (group.now.start < group.now.end)
        × (group.now.end ≤ length (rules_of group.now.rules.now)) }
    requires order { IsInOrder (bodies_in group.now.rules.now) (blocks_in group.now.rules.now) }
    requires earlier { CallsBefore (bodies_in group.now.rules.now) group.now.start }
    requires calls { CallsBefore (bodies_in group.now.rules.now) group.now.end }
    ensures { OverReach (bodies_in group.now.rules.now) (marked empties.now)
        (λ reach. Answers (recursion_of (selves reach group.now.start
        (group.now.end - group.now.start))) result) }
{
    if group.end - group.start == 1 && is_outside(group.rules, group.start) {
        return Ok(());
    }
    let block = Block {
        rules: group.rules,
        start: group.start,
        end: group.end,
        empties,
    };
    let list = block.selves(alloc)?;
    if list.is_empty() {
        return Ok(());
    }
    Err(CheckFault::LeftRecursion { rules: list })
}

/// Checks that no rule of the block has an empty loop.
fn check_loops(group: &Group, empties: &[bool]) -> Result<(), CheckFault>
    requires { group.now.start ≤ group.now.end }
    ensures { Answers (first_from (loop_at (marked empties.now) (bodies_in group.now.rules.now))
        group.now.start
        (group.now.end - group.now.start)) result }
{
    for number in group.start..group.end {
        check_loop(group.rules, number, empties)?;
    }
    Ok(())
}

/// Checks that no rule of the block has a halt under a predicate.
fn check_halts(group: &Group, halting: &[bool]) -> Result<(), CheckFault>
    requires { group.now.start ≤ group.now.end }
    ensures { Answers (first_from (halt_at (marked halting.now) (bodies_in group.now.rules.now))
        group.now.start
        (group.now.end - group.now.start)) result }
{
    for number in group.start..group.end {
        check_halt(group.rules, number, halting)?;
    }
    Ok(())
}

/// Checks a block, or a rule outside blocks, for its first fault.
fn check_group(
    alloc: Global,
    group: &Group,
    empties: &[bool],
    halting: &[bool],
) -> Result<(), CheckFault>
    requires within { (group.now.start < group.now.end)
        × (group.now.end ≤ length (rules_of group.now.rules.now)) }
    requires order { IsInOrder (bodies_in group.now.rules.now) (blocks_in group.now.rules.now) }
    requires earlier { CallsBefore (bodies_in group.now.rules.now) group.now.start }
    requires calls { CallsBefore (bodies_in group.now.rules.now) group.now.end }
    ensures { OverReach (bodies_in group.now.rules.now) (marked empties.now) (λ reach.
        Answers (group_fault (marked empties.now) (marked halting.now) reach
        (bodies_in group.now.rules.now)
        group.now.start group.now.end) result) }
{
    check_behinds(group)?;
    check_recursion(alloc, group, empties)?;
    check_loops(group, empties)?;
    check_halts(group, halting)
}

/// Checks the table for its first fault.
pub(crate) fn check_table(
    alloc: Global,
    rules: &Rules,
    empties: &[bool],
    halting: &[bool],
) -> Result<(), CheckFault>
    requires { IsInOrder (bodies_in rules.now) (blocks_in rules.now) }
    ensures { OverReach (bodies_in rules.now) (marked empties.now) (λ reach. Answers
        (table_fault (marked empties.now) (marked halting.now) reach (bodies_in rules.now)
        (blocks_in rules.now))
        result) }
{
    let mut start = 0;
    while (start as usize) < rules.len() {
        let end = group_end(rules, start);
        let group = Group { rules, start, end };
        check_group(alloc, &group, empties, halting)?;
        start = end;
    }
    Ok(())
}
